// The starts and ends of bodies, and which bodies have begun.
ghost use Rattle.std.specs.Prelude.{◌≡◌, ◌<◌, ◌++◌, ◌∷◌, [], ℕ, false, length, OnOk};
ghost use Rattle.esm_body.specs.Noted.{begun_in, is_marked};

use crate::engine::Event;
use esm_base::{Memory, ModuleId};
use std::alloc::Global;
use std::marker::Model;

/// The starts and ends of bodies, in order.
#[derive(Drop)]
pub struct Events {
    list: Vec<Event>,
    /// For each id up to the greatest of a body that has begun, and maybe for more, whether its body has.
    marks: Vec<bool>,
}

impl Model for Events {
    ghost use Rattle.std.specs.Prelude.{List};
    ghost use Rattle.esm_body.specs.Noted.{AreMarked};
    ghost use Rattle.esm_body.specs.declared.engine.Event.{Event};

    ghost Value = { List Event };

    ghost view = { λ e. e.list.items };

    ghost invariant = { λ e. AreMarked e.marks.items e.list.items };
}

/// Whether a module is marked.
fn marked(marks: &[bool], m: ModuleId) -> bool
    ensures { result ≡ is_marked marks.now m.0 }
{
    let at = m.0 as usize;
    if at < marks.len() { marks[at] } else { false }
}

/// Makes room for the mark of a module.
fn grow(marks: &mut Vec<bool>, m: ModuleId) -> Result<(), Memory>
    ensures same { (k : ℕ) → is_marked marks.new.items k ≡ is_marked marks.old.items k }
    ensures room { OnOk result (m.0 < length marks.new.items) }
{
    let at = m.0 as usize;
    if at < marks.len() {
        return Ok(());
    }
    match marks.resize(at + 1, false) {
        Ok(()) => Ok(()),
        Err(_) => Err(Memory),
    }
}

impl Events {
    /// None. It doesn't allocate.
    pub fn new(alloc: Global) -> Events
        ensures { result ≡ [] }
    {
        Events {
            list: Vec::new(alloc),
            marks: Vec::new(alloc),
        }
    }

    /// All of them, in order.
    pub fn as_slice(&self) -> &[Event]
        ensures { result.now ≡ self.now }
    {
        self.list.as_slice()
    }

    /// Whether the body of this module has begun.
    pub fn has_begun(&self, m: ModuleId) -> bool
        ensures { result ≡ begun_in self.now m.0 }
    {
        marked(self.marks.as_slice(), m)
    }

    /// The body of a module has begun.
    fn push_start(&mut self, m: ModuleId) -> Result<(), Memory>
        ensures { OnOk result (self.new ≡ self.old ++ Event.Begins m ∷ []) }
    {
        match grow(&mut self.marks, m) {
            Ok(()) => match self.list.push(Event::Begins(m)) {
                Ok(()) => {
                    self.marks[m.0 as usize] = true;
                    Ok(())
                }
                Err(_) => Err(Memory),
            },
            Err(end) => Err(end),
        }
    }

    /// A body has ended.
    fn push_end(&mut self, event: Event) -> Result<(), Memory>
        requires { (m : ℕ) → begun_in (event ∷ []) m ≡ false }
        ensures { OnOk result (self.new ≡ self.old ++ event ∷ []) }
    {
        match self.list.push(event) {
            Ok(()) => Ok(()),
            Err(_) => Err(Memory),
        }
    }

    /// An event follows.
    pub fn push(&mut self, event: Event) -> Result<(), Memory>
        ensures { OnOk result (self.new ≡ self.old ++ event ∷ []) }
    {
        match event {
            Event::Begins(m) => self.push_start(m),
            Event::Ends(m) => self.push_end(Event::Ends(m)),
            Event::Throws(m) => self.push_end(Event::Throws(m)),
        }
    }
}
