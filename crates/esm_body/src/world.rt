// Code under way as the world of its expressions.
ghost use Rattle.std.specs.Prelude.{◌≡◌, [], ◌∷◌, IfOk, IfSome};
ghost use Rattle.esm_values.specs.Acts.{Act as act};
ghost use Rattle.esm_values.specs.Code.{values_of};
ghost use Rattle.esm_body.specs.Inner.World.{ActsInside};

use crate::displays::{display_texts, shown_text};
use crate::importer::Importer;
use crate::imports::import_from;
use crate::inside::Inside;
use crate::members::member_of;
use crate::names::{read_name, tell};
use esm_base::{Memory, Text};
use esm_expr_eval::{Out, World};
use esm_rewriting::Stop;
use esm_values::{FaultKind, RcText, Value, printed_line};

/// The text that is alone in a list.
fn alone(texts: &[Text]) -> Option<&Text>
    ensures { IfSome result (λ text. texts.now ≡ text.now ∷ []) }
{
    match texts {
        [text] => Some(text),
        _ => None,
    }
}

/// The same text as values have it, in its own memory.
fn shared_text(text: Text) -> Result<RcText, Memory>
    ensures { IfOk result (λ shared. shared ≡ text) }
{
    let string = text.into_string()?;
    RcText::from_string(string)
}

/// Prints values as one line. The text of a value alone is the line, and isn't copied.
pub(crate) fn print_line<I: Importer>(
    inside: &mut Inside<'_, I>,
    values: &[Value],
) -> Result<(), Stop>
    ensures { ActsInside I.seen I.modules I.linked I.fits I.begins inside.old
        (act.Print (values_of values.now)) result inside.new }
{
    match display_texts(
        inside.alloc,
        inside.errors,
        inside.envs,
        inside.imports,
        values,
    ) {
        Ok(texts) => match alone(texts.as_slice()) {
            Some(text) => inside.engine.log.line(text.as_str()),
            None => match printed_line(inside.alloc, texts.as_slice()) {
                Ok(text) => inside.engine.log.line(text.as_str()),
                Err(Memory) => Err(Stop::Memory),
            },
        },
        Err(Memory) => Err(Stop::Memory),
    }
}

impl<'a, I: Importer> World for Inside<'a, I> {
    ghost use Rattle.esm_body.specs.Inner.World.{ActsInside, url_inside};

    type Stop = Stop;

    ghost acts = { ActsInside I.seen I.modules I.linked I.fits I.begins };

    ghost url_of = { url_inside I.urls };

    fn read(&mut self, name: &str) -> Result<Out, Stop> {
        esm_env::laws::reads_right();
        let at = self.code.at;
        match read_name(self.code.levels.as_slice(), self.envs, at, name) {
            Ok(found) => match tell(self.alloc, self.errors, name, found) {
                Ok(out) => Ok(out),
                Err(Memory) => Err(Stop::Memory),
            },
            Err(Memory) => Err(Stop::Memory),
        }
    }

    fn member(&mut self, of: Value, name: &str) -> Result<Out, Stop> {
        match member_of(self.alloc, self.errors, self.envs, self.imports, of, name) {
            Ok(out) => Ok(out),
            Err(Memory) => Err(Stop::Memory),
        }
    }

    fn display(&mut self, of: &Value) -> Result<RcText, Stop> {
        match shown_text(self.alloc, self.errors, self.envs, self.imports, of) {
            Ok(text) => match shared_text(text) {
                Ok(text) => Ok(text),
                Err(Memory) => Err(Stop::Memory),
            },
            Err(Memory) => Err(Stop::Memory),
        }
    }

    fn print(&mut self, values: Vec<Value>) -> Result<(), Stop> {
        print_line(self, values.as_slice())
    }

    fn fault(&mut self, kind: FaultKind, message: &str) -> Result<Value, Stop> {
        match self.errors.make(self.alloc, kind, message) {
            Ok(id) => Ok(Value::Error(id)),
            Err(Memory) => Err(Stop::Memory),
        }
    }

    fn step(&mut self, n: u64) -> Result<(), Stop> {
        self.engine.log.step(n)
    }

    fn import(&mut self, of: Value) -> Result<Value, Stop> {
        let at = self.code.at;
        import_from(self, at, of)
    }

    fn url(&self) -> &str {
        self.imports.url(self.code.at)
    }
}
