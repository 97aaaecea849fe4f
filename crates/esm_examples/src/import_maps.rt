//! What a dev server wants to know: which URL a specifier in one of its modules names.
ghost use Rattle.std.specs.Prelude.{IfOk};
ghost use Rattle.esm_base.specs.Ends.{Gives};
ghost use Rattle.esm_base.specs.Urls.{IsUsable};
ghost use Rattle.esm_examples.specs.ImportMaps.{named_under};

use esm_base::{End, Memory, Text, is_canonical, parse_absolute};
use esm_import_map::{ImportMap, MapFault};
use esm_specifier::{SpecFault, resolve};
use std::alloc::Global;

/// Why a specifier has no URL.
#[derive(Clone, Copy, Debug, PartialEq, Eq)]
pub enum Unresolved {
    /// The address of the page isn't an absolute URL, or that of the module isn't written as the URL parser writes it.
    Address,
    /// The import map is refused.
    Map(MapFault),
    /// The specifier has no URL under this map.
    Specifier(SpecFault),
}

/// The URL that the specifier names in the module at `referrer`, under the import map of the page at `page`; or the
/// first reason why there is none: the address of the page, the import map, the address of the module, the specifier.
pub fn resolve_under(
    alloc: Global,
    page: &str,
    map: &[u8],
    referrer: &str,
    specifier: &str,
) -> Result<Text, End<Unresolved>>
    ensures told { Gives result (named_under page.now map.now referrer.now specifier.now) }
    ensures usable { IfOk result IsUsable }
{
    let Some(base) = parse_absolute(alloc, page)? else {
        return Err(End::Fault(Unresolved::Address));
    };
    let map = match ImportMap::read(alloc, map, &base) {
        Ok(map) => map,
        Err(End::Fault(fault)) => return Err(End::Fault(Unresolved::Map(fault))),
        Err(End::Memory) => return Err(End::Memory),
    };
    if !is_canonical(alloc, referrer)? {
        return Err(End::Fault(Unresolved::Address));
    }
    match resolve(alloc, &map, referrer, specifier) {
        Ok(url) => Ok(url),
        Err(End::Fault(fault)) => Err(End::Fault(Unresolved::Specifier(fault))),
        Err(End::Memory) => Err(End::Memory),
    }
}
