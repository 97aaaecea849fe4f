// What the requests of a module resolve to.
ghost use Rattle.std.specs.Prelude.{IfOk};
ghost use Rattle.esm_base.specs.Urls.{IsUsable};
ghost use Rattle.esm_specifier.specs.Targets.{AreTargets};

use crate::fault::{SpecEnd, SpecFault};
use crate::resolving::resolve_against;
use esm_base::{Memory, Text, parse_absolute};
use esm_import_map::ImportMap;
use std::alloc::Global;

/// What the requests of a module resolve to.
#[derive(Drop)]
pub enum Targets {
    /// The URL of each request, in order.
    Found(Vec<Text>),
    /// The place of the first request that is refused, and why.
    Refused(usize, SpecFault),
}

/// What these requests of the module at `url` resolve to: their URLs, or the first that is refused.
///
/// HTML, "create a JavaScript module script", which calls "resolve a module specifier" for each request in order. The URL
/// of the module is parsed once.
pub fn targets_of(
    alloc: Global,
    map: &ImportMap,
    url: &Text,
    requests: &[Text],
) -> Result<Targets, Memory>
    requires { IsUsable url.now }
    ensures { IfOk result (AreTargets map.now url.now requests.now) }
{
    let referrer = url.as_str();
    let Some(base) = parse_absolute(alloc, referrer)? else {
        unreachable!()
    };
    let mut found = Vec::new(alloc);
    for specifier in requests {
        match resolve_against(alloc, map, &base, referrer, specifier.as_str()) {
            Ok(target) => found.push(target)?,
            Err(SpecEnd::Fault(fault)) => return Ok(Targets::Refused(found.len(), fault)),
            Err(SpecEnd::Memory) => return Err(Memory),
        }
    }
    Ok(Targets::Found(found))
}
