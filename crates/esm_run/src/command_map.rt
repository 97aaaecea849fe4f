// The import map of a command: the desk is asked for it, and its bytes are read.
ghost use Rattle.std.specs.Prelude.{◌≡◌, IfOk};
ghost use Rattle.esm_base.specs.Ends.{Gives};
ghost use Rattle.esm_run.specs.CommandMap as spec;
ghost use Rattle.esm_run.specs.Inner.MapReading.{FetchesMap, GivesFrom, GivesMapOf};

use esm_arguments::Command;
use esm_base::{End, Memory, Text};
use esm_import_map::{ImportMap, MapFault};
use esm_ports::{FetchEnd, Source};
use std::alloc::Global;
use url::Url;

/// Why a command has no import map.
#[derive(Clone, Copy, Debug, PartialEq, Eq)]
pub(crate) enum MapRefusal {
    /// The desk answered Absent or Failed.
    NotFetched,
    /// The bytes are no import map.
    NotRead(MapFault),
}

/// The import map of a command.
#[derive(Drop)]
pub(crate) struct GivenMap {
    /// The map that the bytes are; the empty map without `--map`.
    pub map: ImportMap,
    /// The bytes that the desk answered; none without `--map`.
    pub bytes: Option<Vec<u8>>,
}

// Reads the bytes that the desk answered.
fn read_map(alloc: Global, bytes: &[u8], base: &Url) -> Result<ImportMap, End<MapRefusal>>
    ensures { Gives result (spec.map_said bytes.now base.now) }
{
    match ImportMap::read(alloc, bytes, base) {
        Ok(map) => Ok(map),
        Err(End::Fault(fault)) => Err(End::Fault(MapRefusal::NotRead(fault))),
        Err(End::Memory) => Err(End::Memory),
    }
}

// The same, which keeps the bytes.
fn given_map(alloc: Global, bytes: Vec<u8>, base: &Url) -> Result<GivenMap, End<MapRefusal>>
    ensures { GivesFrom result bytes.items base.now }
{
    match read_map(alloc, &bytes, base) {
        Ok(map) => Ok(GivenMap {
            map,
            bytes: Some(bytes),
        }),
        Err(End::Fault(refusal)) => Err(End::Fault(refusal)),
        Err(End::Memory) => Err(End::Memory),
    }
}

// Fetches the import map at a URL by one fetch, and reads it.
fn fetch_map<S: Source>(
    alloc: Global,
    desk: &mut S,
    url: &Text,
    base: &Url,
) -> Result<GivenMap, End<MapRefusal>>
    ensures comes { FetchesMap result base.now url.now
        (spec.desk_change S.asked S.holds desk.old desk.new) }
    ensures holds { S.holds desk.new ≡ S.holds desk.old }
{
    match desk.fetch(alloc, url.as_str()) {
        Ok(body) => given_map(alloc, body, base),
        Err(FetchEnd::Absent) => Err(End::Fault(MapRefusal::NotFetched)),
        Err(FetchEnd::Failed) => Err(End::Fault(MapRefusal::NotFetched)),
        Err(FetchEnd::Memory) => Err(End::Memory),
    }
}

/// The import map of a command: without `--map` the empty one, else the one that the desk answers, which is asked
/// once, with its bytes.
pub(crate) fn map_of<S: Source>(
    alloc: Global,
    desk: &mut S,
    command: &Command,
) -> Result<GivenMap, End<MapRefusal>>
    ensures comes { GivesMapOf result command.now
        (spec.desk_change S.asked S.holds desk.old desk.new) }
    ensures holds { S.holds desk.new ≡ S.holds desk.old }
{
    match &command.map {
        Some(url) => fetch_map(alloc, desk, url, &command.base),
        None => Ok(GivenMap {
            map: ImportMap::empty(alloc),
            bytes: None,
        }),
    }
}

// The fault of an import map, as it is printed.
fn fault_text(fault: MapFault) -> &'static str
    ensures { result.now ≡ spec.fault_text fault }
{
    match fault {
        MapFault::M1 => "M1 no JSON text",
        MapFault::M2 => "M2 not an object",
        MapFault::M3 => "M3 imports or scopes not an object",
        MapFault::M4 => "M4 two keys collide",
    }
}

/// The line that says why there is no import map.
pub(crate) fn refusal_text(alloc: Global, url: &Text, refusal: MapRefusal) -> Result<Text, Memory>
    ensures { IfOk result (λ line. line ≡ spec.refusal_text url.now refusal) }
{
    let line = match refusal {
        MapRefusal::NotFetched => { format!(in alloc; "import map refused: cannot fetch {url}\n")? }
        MapRefusal::NotRead(fault) => {
            let reason = fault_text(fault);
            format!(in alloc; "import map refused: {reason}\n")?
        }
    };
    Ok(Text::from_string(line))
}
