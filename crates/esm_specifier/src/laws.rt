//! Laws of the definitions, each the contract of a function without effect.
ghost use Rattle.esm_specifier.specs.Laws.{GreatestIs, RefusalsAreRequests, ResolvesAsTheStandard, ResolvesByItself, ResolvesToUsable, TargetsAreTested, TargetsAreUsable};

/// The key that decides of those that match: a member than which none is greater in code unit order.
pub fn greatest_is()
    ensures { GreatestIs }
{}

/// Whatever the import map, what a specifier resolves to is canonical and at most `MAX_URL_BYTES` long.
pub fn resolves_to_usable()
    ensures { ResolvesToUsable }
{}

/// Whatever the import map, what the requests of a module resolve to is canonical and at most `MAX_URL_BYTES` long, one URL
/// for each.
pub fn targets_are_usable()
    ensures { TargetsAreUsable }
{}

/// Whatever the import map, the place of a refusal is that of a request.
pub fn refusals_are_requests()
    ensures { RefusalsAreRequests }
{}

/// The test of targets says whether they are what requests resolve to.
pub fn targets_are_tested()
    ensures { TargetsAreTested }
{}

/// Under the empty import map a specifier resolves to the URL that it is, where that may name a module: S5 where it
/// may not, and S4 where the specifier is no URL.
pub fn resolves_by_itself()
    ensures { ResolvesByItself }
{}

/// Worked examples of resolving under the empty import map.
pub fn resolves_as_the_standard()
    ensures { ResolvesAsTheStandard }
{}
