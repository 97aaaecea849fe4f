// What stands in the tables of loading, where URLs have places and loads have numbers.
use esm_base::{ModuleId, Text};
use esm_values::{ErrorId, PromiseId};

/// Given as the place near which a URL is looked for, by who doesn't know one.
pub const NOWHERE: usize = usize::MAX;

/// The state of a URL. HTML, the values of the module map.
#[derive(Clone, Copy)]
pub enum UrlState {
    /// It was asked for, and its fetch hasn't ended.
    Open,
    /// Nothing could be fetched.
    Failed,
    /// No module, with the id of its one error value.
    Broken(ErrorId),
    /// A module, with the id of its record.
    Module(ModuleId),
}

/// An asked URL.
#[derive(Drop)]
pub struct Slot {
    /// The URL.
    pub url: Text,
    /// Its state.
    pub state: UrlState,
}

/// What requests a URL.
#[derive(Clone, Copy)]
pub enum Requester {
    /// The load itself, for its root.
    Root,
    /// A module, by the place of its URL, with the number of its request.
    Module { referrer: usize, request: usize },
}

/// A pending request. ECMA-262, HostLoadImportedModule.
#[derive(Clone, Copy)]
pub struct Waiting {
    /// The number of the load.
    pub load: usize,
    /// What requests the URL.
    pub requester: Requester,
}

/// What a load ends by where a module isn't there.
#[derive(Clone, Copy)]
pub enum Cause {
    /// Nothing could be fetched from the URL at this place.
    Unfetched(usize),
    /// The error value with this id.
    Kept(ErrorId),
}

/// How far a load has come. ECMA-262, GraphLoadingState Records.
#[derive(Clone, Copy)]
pub enum Stage {
    /// Its root was asked for.
    Asked,
    /// Its root, at this place, is there, and what that reaches is asked for.
    Open(usize),
    /// It has ended, and all that the root at this place reaches is loaded.
    Complete(usize),
    /// It has ended by a throw.
    Thrown(Cause),
}

/// How the target of a request stands.
#[derive(Clone, Copy)]
pub enum TargetState {
    /// It isn't fetched.
    Fetching,
    /// No module stands there, for this cause.
    Throws(Cause),
    /// A module, at this place and with this id.
    Module(usize, ModuleId),
}

/// What a load is for.
#[derive(Clone, Copy)]
pub enum Purpose {
    /// An entry, with the promise that the end of the load settles.
    ForEntry(PromiseId),
    /// An `import()`, with its promise, and with that of its load once the root is there.
    ForImport(PromiseId, Option<PromiseId>),
}
