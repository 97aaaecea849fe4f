// Steps and the log, with their limits.
ghost use Rattle.std.specs.Prelude.{◌≡◌, [], string_bytes};
ghost use Rattle.esm_body.specs.Inner.Log.{TookSteps, AddedLine};

use esm_base::{Limit, MAX_LOG_BYTES, MAX_STEPS};
use esm_rewriting::Stop;
use std::alloc::Global;

/// The log, and the steps that were taken.
#[derive(Drop)]
pub struct Log {
    /// The lines, each with its line feed.
    pub text: String,
    /// How many steps were taken.
    pub steps: u64,
    /// The limit that was passed.
    pub stopped: Option<Limit>,
}

impl Log {
    /// Without lines and steps. It doesn't allocate.
    pub fn new(alloc: Global) -> Log
        ensures text { string_bytes result.text ≡ [] }
        ensures steps { result.steps ≡ 0 }
        ensures stopped { result.stopped ≡ None }
    {
        Log {
            text: String::new(alloc),
            steps: 0,
            stopped: None,
        }
    }

    /// Takes steps: no more than `MAX_STEPS` are taken.
    pub fn step(&mut self, n: u64) -> Result<(), Stop>
        ensures { TookSteps self.old n result self.new }
    {
        let most = u64::from(MAX_STEPS);
        if n > most || self.steps > most - n {
            self.stopped = Some(Limit::L3);
            return Err(Stop::Limit(Limit::L3));
        }
        self.steps = self.steps + n;
        Ok(())
    }

    /// Adds a line: the log has no more than `MAX_LOG_BYTES` bytes.
    pub fn line(&mut self, text: &str) -> Result<(), Stop>
        ensures { AddedLine self.old text.now result self.new }
    {
        let len = text.len();
        if len >= MAX_LOG_BYTES || self.text.len() > MAX_LOG_BYTES - 1 - len {
            self.stopped = Some(Limit::L5);
            return Err(Stop::Limit(Limit::L5));
        }
        match self.text.reserve(len + 1) {
            Ok(()) => {}
            Err(_) => return Err(Stop::Memory),
        }
        match self.text.push_str(text) {
            Ok(()) => {}
            Err(_) => return Err(Stop::Memory),
        }
        match self.text.push_str("\n") {
            Ok(()) => Ok(()),
            Err(_) => Err(Stop::Memory),
        }
    }
}
