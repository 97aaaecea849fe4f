//! The command `esm`.
#![tactic(auto)]

ghost use Rattle.std.specs.Prelude.{◌≡◌, IfOk};

use esm_base::{Memory, Status};
use esm_ports::{FileSource, StdSink};
use esm_run::run;
use std::alloc::Global;
use std::env;
use std::io::ErrorKind;
use std::mem::forget;
use std::process::ExitCode;
use std::rt::Env;

// The words after the program's name. Where one of them isn't UTF-8 there are none, which is no command.
fn words<R: Env + AllocGlobal>(rt: &R, alloc: Global) -> Result<Vec<String>, Memory> {
    let mut words = Vec::new(alloc);
    match env::args(rt) {
        Ok(args) => {
            for word in args.skip(1) {
                words.push(word)?;
            }
        }
        Err(fault) => match fault.kind() {
            ErrorKind::OutOfMemory => return Err(Memory),
            _ => {}
        },
    }
    Ok(words)
}

fn printer<R: Print + Clone + Drop>(rt: &R) -> Result<StdSink<R>, Memory>
    ensures { IfOk result (λ s. s ≡ 0) }
{
    Ok(StdSink::new(rt.clone()?))
}

// As large a block as this is let go at the start. The C library's allocator then keeps smaller ones in its heap, where it would
// else map and move each of the long lists of a run by itself, and gives nothing back before twice as much is free.
const KEPT: usize = 8 << 20;

// Asks for a block and lets it go. Where it is refused nothing is lost.
fn keep_room(alloc: Global) {
    let room: Result<Vec<u8>, _> = Vec::with_capacity(alloc, KEPT);
    drop(room);
}

fn main(rt: HostRuntime) -> ExitCode {
    let alloc = rt.alloc();
    keep_room(alloc);
    let status = match (
        words(&rt, alloc),
        FileSource::here(&rt, alloc),
        FileSource::all_here(&rt, alloc),
        printer(&rt),
    ) {
        (Ok(words), Ok(desk), Ok(sources), Ok(out)) => {
            let mut desk = desk;
            let mut out = out;
            let report = run(&rt, alloc, &words, &mut desk, sources, &mut out);
            let status = report.status;
            forget(report);
            status
        }
        _ => Status::Memory,
    };
    ExitCode::from(status.code())
}
