// A row that is being made, from its end to its start.
ghost use Rattle.std.specs.Prelude.{◌≡◌, ◌++◌, ◌∷◌, [], List, ℕ, length, slice_get, Some, IfOk, OnOk};
ghost use Rattle.esm_rows.specs.Rows.{Row, Operation, read_by, write_by, set_by, found_in, found_here};
ghost use Rattle.esm_rows.specs.Rows.{Operation as o};
ghost use Rattle.esm_rows.specs.Locals.{names_of, place_told};
ghost use Rattle.esm_rows.specs.Making.{IsTold};
ghost use Rattle.esm_rows.specs.Drafts.{IsDraft, IsToldIn};

use crate::locals::Locals;
use crate::names::{Place, count, find, find_here};
use crate::op::Op;
use esm_base::Memory;
use esm_values::RcText;
use std::alloc::Global;

/// What is there of a row: its operations, of which the last is next, and its texts.
#[derive(Drop)]
pub(crate) struct Draft {
    pub(crate) ops: Vec<Op>,
    pub(crate) texts: Vec<RcText>,
}

/// One operation more.
fn push_op(ops: &mut Vec<Op>, op: Op) -> Result<(), Memory>
    ensures { OnOk result (ops.new.items ≡ ops.old.items ++ op ∷ []) }
{
    ops.push(op)?;
    Ok(())
}

/// One text more.
fn push_text(alloc: Global, texts: &mut Vec<RcText>, text: &str) -> Result<(), Memory>
    ensures { OnOk result (texts.new.items ≡ texts.old.items ++ text.now ∷ []) }
{
    let text = RcText::copy(alloc, text)?;
    texts.push(text)?;
    Ok(())
}

/// How a name is read: at its place in the function, or else by its text.
fn read_op(place: Option<Place>, text: u32) -> Op
    ensures { (texts : List (List ℕ)) → (s : List ℕ) → slice_get texts text ≡ Some s
        → IsTold [] texts result (read_by s (place_told place)) }
{
    match place {
        Some(place) => Op::Local(place.at, text),
        None => Op::Name(text),
    }
}

/// How a name of the function is written at its place.
fn write_at(place: Place, text: u32) -> Op
    ensures { (texts : List (List ℕ)) → (s : List ℕ) → slice_get texts text ≡ Some s
        → IsTold [] texts result (o.WriteLocal place.at s place.constant) }
{
    if place.constant {
        Op::WriteConstant(place.at, text)
    } else {
        Op::WriteLocal(place.at, text)
    }
}

/// How a name is written: at its place in the function, or else by its text.
fn write_op(place: Option<Place>, text: u32) -> Op
    ensures { (texts : List (List ℕ)) → (s : List ℕ) → slice_get texts text ≡ Some s
        → IsTold [] texts result (write_by s (place_told place)) }
{
    match place {
        Some(place) => write_at(place, text),
        None => Op::WriteName(text),
    }
}

/// How the declaration of a name sets it: at its place in the function, or else by its text.
fn set_op(place: Option<Place>, text: u32) -> Op
    ensures { (texts : List (List ℕ)) → (s : List ℕ) → slice_get texts text ≡ Some s
        → IsTold [] texts result (set_by s (place_told place)) }
{
    match place {
        Some(place) => Op::SetLocal(place.at),
        None => Op::SetName(text),
    }
}

impl Draft {
    /// Without operations. It doesn't allocate.
    pub(crate) fn new(alloc: Global) -> Draft
        ensures { IsDraft result [] }
    {
        Draft {
            ops: Vec::new(alloc),
            texts: Vec::new(alloc),
        }
    }

    /// How many operations there are.
    pub(crate) fn left(&self) -> Result<u32, Memory>
        ensures { (c : Row) → IsDraft self.now c → IfOk result (λ n. n ≡ length c) }
    {
        let ops = self.ops.as_slice();
        count(ops.len())
    }

    /// Puts an operation in front.
    pub(crate) fn put(&mut self, op: Op) -> Result<(), Memory>
        ensures { (c : Row) → (p : Operation) → IsDraft self.old c → IsToldIn self.old op p
            → OnOk result (IsDraft self.new (p ∷ c)) }
    {
        push_op(&mut self.ops, op)
    }

    /// Puts the making of an error without a message in front.
    pub(crate) fn put_empty_error(&mut self) -> Result<(), Memory>
        ensures { (c : Row) → IsDraft self.old c → OnOk result (IsDraft self.new
            (o.Undefined ∷ o.NewError ∷ c)) }
    {
        self.put(Op::NewError)?;
        self.put(Op::Undefined)
    }

    /// The place of a text, which is added.
    fn add_text(&mut self, alloc: Global, text: &str) -> Result<u32, Memory>
        ensures same { (c : Row) → IsDraft self.old c → OnOk result (IsDraft self.new c) }
        ensures text { IfOk result (λ k. slice_get self.new.texts.items k ≡ Some text.now) }
    {
        let texts = self.texts.as_slice();
        let at = count(texts.len())?;
        push_text(alloc, &mut self.texts, text)?;
        Ok(at)
    }

    /// Puts a literal in front.
    pub(crate) fn put_literal(&mut self, alloc: Global, text: &str) -> Result<(), Memory>
        ensures { (c : Row) → IsDraft self.old c → OnOk result (IsDraft self.new
            (o.Text text.now ∷ c)) }
    {
        let at = self.add_text(alloc, text)?;
        self.put(Op::Text(at))
    }

    /// Puts the read of a member in front.
    pub(crate) fn put_member(&mut self, alloc: Global, name: &str) -> Result<(), Memory>
        ensures { (c : Row) → IsDraft self.old c → OnOk result (IsDraft self.new
            (o.Member name.now ∷ c)) }
    {
        let at = self.add_text(alloc, name)?;
        self.put(Op::Member(at))
    }

    /// Puts the read of a name in front.
    pub(crate) fn put_read(
        &mut self,
        alloc: Global,
        blocks: &[Locals],
        name: &str,
    ) -> Result<(), Memory>
        ensures { (c : Row) → IsDraft self.old c → OnOk result (IsDraft self.new
            (read_by name.now (found_in (names_of blocks.now) name.now) ∷ c)) }
    {
        let place = find(blocks, name)?;
        let at = self.add_text(alloc, name)?;
        self.put(read_op(place, at))
    }

    /// Puts the write of a name in front.
    pub(crate) fn put_write(
        &mut self,
        alloc: Global,
        blocks: &[Locals],
        name: &str,
    ) -> Result<(), Memory>
        ensures { (c : Row) → IsDraft self.old c → OnOk result (IsDraft self.new
            (write_by name.now (found_in (names_of blocks.now) name.now) ∷ c)) }
    {
        let place = find(blocks, name)?;
        let at = self.add_text(alloc, name)?;
        self.put(write_op(place, at))
    }

    /// Puts the setting of a name by its declaration in front.
    pub(crate) fn put_set(
        &mut self,
        alloc: Global,
        blocks: &[Locals],
        name: &str,
    ) -> Result<(), Memory>
        ensures { (c : Row) → IsDraft self.old c → OnOk result (IsDraft self.new
            (set_by name.now (found_here (names_of blocks.now) name.now) ∷ c)) }
    {
        let place = find_here(blocks, name)?;
        let at = self.add_text(alloc, name)?;
        self.put(set_op(place, at))
    }
}
