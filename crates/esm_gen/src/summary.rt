// The summary of a run over generated input.
ghost use Rattle.std.specs.Prelude.{◌≡◌, IfOk};
ghost use Rattle.esm_gen.specs.Summary.{summary_text};

use esm_base::{Memory, Status, Text};
use std::alloc::Global;

/// What a run over generated input came to.
#[derive(Clone, Copy, Debug, PartialEq, Eq)]
pub struct Summary {
    /// How many modules were generated.
    pub modules: u64,
    /// How many bodies were started.
    pub started: u64,
    /// How many lines the log has.
    pub lines: u64,
    /// How the run ended.
    pub status: Status,
}

impl Summary {
    /// The text of the summary: a line for each number, the exit status last. It answers `Memory` where memory runs out.
    pub fn text(&self, alloc: Global) -> Result<Text, Memory>
        ensures { IfOk result (λ text. text ≡ summary_text self.now) }
    {
        let Summary {
            modules,
            started,
            lines,
            status,
        } = *self;
        let code = status.code();
        let text = format!(in alloc;
            "modules {modules}\nstarted {started}\nlines {lines}\nstatus {code}\n"
        )?;
        Ok(Text::from_string(text))
    }
}
