// What is written before the log: the record of the run, where the words ask for it.
ghost use Rattle.std.specs.Prelude.{◌≡◌, ℕ, List, Option, IfOk, option_map};
ghost use Rattle.esm_record.specs.Delivered.{deliveries_of, given_map};
ghost use Rattle.esm_run.specs.Inner.MapReading.{items_of};
ghost use Rattle.esm_run.specs.Recorded.{front_text, map_file as file_of};

use esm_arguments::Command;
use esm_base::{Memory, Text};
use esm_record::{Delivery, append_record};
use std::alloc::Global;

// The import map with its URL, where there is one.
fn map_file<'a>(url: &'a Option<Text>, bytes: &'a Option<Vec<u8>>) -> Option<(&'a Text, &'a [u8])>
    ensures { option_map given_map result ≡ file_of url.now (items_of bytes.now) }
{
    match url {
        None => None,
        Some(url) => match bytes {
            None => None,
            Some(bytes) => Some((url, bytes.as_slice())),
        },
    }
}

/// What is written before the log, by the bytes of the import map and what was taken. Each body is copied once.
pub(crate) fn front_of(
    alloc: Global,
    command: &Command,
    bytes: &Option<Vec<u8>>,
    taken: &[Delivery],
) -> Result<Vec<u8>, Memory>
    ensures { IfOk result (λ front. front.items
        ≡ front_text command.now (items_of bytes.now) (deliveries_of taken.now)) }
{
    let mut front = Vec::new(alloc);
    if !command.recorded {
        return Ok(front);
    }
    append_record(
        alloc,
        &mut front,
        command.base.as_str(),
        &command.entry,
        map_file(&command.map, bytes),
        taken,
    )?;
    Ok(front)
}
