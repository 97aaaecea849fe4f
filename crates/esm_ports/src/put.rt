// Writing all bytes.
ghost use Rattle.std.specs.Prelude.{◌<◌, ◌-◌, ◌^◌};
ghost use Rattle.esm_ports.specs.Sink.{PutAll, Writes, refusal_of};

use crate::{Sink, SinkEnd};

/// Writes all bytes, in as many calls as the sink wants: each call of `write` is given all bytes that aren't written
/// yet, and there is none for an empty rest. After a refusal a prefix was written; a failure was counted in this call,
/// and after `Memory` the count is unchanged.
pub fn put_all<K: Sink>(out: &mut K, bytes: &[u8]) -> Result<(), SinkEnd>
    requires { K.faults out.old < 2 ^ 64 - 1 }
    ensures calls { Writes K.write_gives bytes.now out.old (refusal_of result) out.new }
    ensures whole { PutAll bytes.now (K.written out.old) (K.written out.new)
        (K.faults out.old) (K.faults out.new) result }
{
    let mut rest = bytes;
    while !rest.is_empty() {
        match out.write(rest) {
            Ok(taken) => rest = rest.split_at(taken).1,
            Err(end) => return Err(end),
        }
    }
    Ok(())
}
