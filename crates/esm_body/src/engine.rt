// The bodies under way.
use crate::events::Events;
use crate::log::Log;
use crate::work::Standing;
use esm_base::ModuleId;
use std::alloc::Global;

/// A body begins, or ends.
#[derive(Clone, Copy)]
pub enum Event {
    /// It begins.
    Begins(ModuleId),
    /// It ends normally.
    Ends(ModuleId),
    /// It ends by a throw.
    Throws(ModuleId),
}

/// The starts and ends of bodies, the log, the count of steps, and the bodies that stand at an await.
#[derive(Drop)]
pub struct Engine {
    pub(crate) alloc: Global,
    pub(crate) events: Events,
    pub(crate) log: Log,
    pub(crate) standing: Vec<Standing>,
    pub(crate) trace: bool,
}
