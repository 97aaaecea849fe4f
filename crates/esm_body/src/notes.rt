// Starts and ends of bodies are noted.
ghost use Rattle.std.specs.Prelude.{◌≡◌, ◌++◌, IfOk};
ghost use Rattle.esm_body.specs.Inner.Noting.{Notes, Traces, word_of};

use crate::engine::{Engine, Event};
use esm_base::Memory;
use esm_rewriting::Stop;
use esm_values::RcText;
use std::alloc::Global;

/// The word before the URL in the trace line of an event.
fn event_word(event: Event) -> &'static str
    ensures { result.now ≡ word_of event }
{
    match event {
        Event::Begins(_) => "# start ",
        Event::Ends(_) => "# end ",
        Event::Throws(_) => "# throw ",
    }
}

/// The trace line of an event.
fn event_line(alloc: Global, event: Event, url: &str) -> Result<RcText, Memory>
    ensures { IfOk result (λ line. line ≡ word_of event ++ url.now) }
{
    RcText::join(alloc, event_word(event), url)
}

impl Engine {
    /// The line before an event is added, where they are written.
    fn trace_event(&mut self, event: Event, url: &str) -> Result<(), Stop>
        ensures { Traces self.old event url.now result self.new }
    {
        if self.trace {
            match event_line(self.alloc, event, url) {
                Ok(text) => self.log.line(text.as_str()),
                Err(Memory) => Err(Stop::Memory),
            }
        } else {
            Ok(())
        }
    }

    /// An event is added, with its line before it where they are written.
    pub(crate) fn note(&mut self, event: Event, url: &str) -> Result<(), Stop>
        ensures { Notes self.old event url.now result self.new }
    {
        match self.trace_event(event, url) {
            Ok(()) => match self.events.push(event) {
                Ok(()) => Ok(()),
                Err(Memory) => Err(Stop::Memory),
            },
            Err(stop) => Err(stop),
        }
    }
}
