//! Laws of the definitions, as functions without effect.
ghost use Rattle.esm_loads.specs.LoadsAsLoading.{OpensWithEntry};
ghost use Rattle.esm_loads.specs.Laws.{AskLimit, BytesFirst, EndedLoadStays, FewerLeft, FirstPending, HasLoad, KeepsPromises, LimitStops, LoadsEnd, OneLoad, OneUrlAtATime, OnlyGrows, StaysOrderly, StaysWhole, StoresOutcome, UnlinkedIsClosed, VisitsOnce};

/// Entering a module, asking, an answer to a pending request, an arrival, and a call of `import()` have at most one
/// outcome each.
pub fn one_load()
    ensures { OneLoad }
{}

/// No URL is asked twice over all loads, at most `MAX_URLS` are asked, and what is fetched or has a pending request was asked.
pub fn stays_orderly()
    ensures { StaysOrderly }
{}

/// What was asked stays asked, what is fetched stays as it is, and the import map is the same.
pub fn only_grows()
    ensures { OnlyGrows }
{}

/// `MAX_URLS` URLs are asked, and one more stops loading.
pub fn ask_limit()
    ensures { AskLimit }
{}

/// Pending requests are answered in order of asking.
pub fn first_pending()
    ensures { FirstPending }
{}

/// Behind the end of a fetch only the pending requests of its URL are answered, until none is left.
pub fn one_url_at_a_time()
    ensures { OneUrlAtATime }
{}

/// An answer leaves fewer pending requests of fetched URLs, and a call of `import()` adds none.
pub fn fewer_left()
    ensures { FewerLeft }
{}

/// A load enters no module that it has visited, and none that isn't New: where it comes to one, nothing changes.
pub fn visits_once()
    ensures { VisitsOnce }
{}

/// A load that has ended, or that a limit has stopped, does nothing more: an answer that comes late changes nothing.
pub fn ended_load_stays()
    ensures { EndedLoadStays }
{}

/// A limit stops at once: no promise is settled and no error is made behind it.
pub fn limit_stops()
    ensures { LimitStops }
{}

/// Delivered bytes are counted before the outcome is stored.
pub fn bytes_first()
    ensures first { BytesFirst }
    ensures stores { StoresOutcome }
{}

/// Where loading is orderly, entering a module, an answer to a pending request, an arrival, and a call of `import()` have an
/// outcome.
pub fn has_load()
    ensures { HasLoad }
{}

/// What is Unlinked is loaded with all that it reaches, and each load has ended or waits.
pub fn stays_whole()
    ensures { StaysWhole }
{}

/// Where no URL is being fetched and no request is left, each load has ended, unless a limit has stopped loading.
pub fn loads_end()
    ensures { LoadsEnd }
{}

/// The promise of each load that hasn't ended is pending, and of that load alone.
pub fn keeps_promises()
    ensures { KeepsPromises }
{}

/// The Unlinked modules are a finite graph, which is closed under requests.
pub fn unlinked_is_closed()
    ensures { UnlinkedIsClosed }
{}

/// Where nothing was asked, the first entry opens loading.
pub fn opens_with_entry()
    ensures { OpensWithEntry }
{}
