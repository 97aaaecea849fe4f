// What remains of a function or body under way: levels of blocks, the outermost first.
ghost use Rattle.std.specs.Prelude.{◌≡◌, ◌<◌, ◌++◌, ◌∷◌, ◌≤◌, [], ℕ, length, reverse, List, OnOk, IfOk, IsTrue};
ghost use Rattle.std.specs.Arc.{arc_value};
ghost use Rattle.esm_tree.specs.Syntax.{Stmt};
ghost use Rattle.esm_tree.specs.Flat as flat;
ghost use Rattle.esm_tree.specs.Flat.{part, stmt_parts, init_of, init_need, bindings_of, bindings_need};
ghost use Rattle.esm_rewriting.specs.Scopes.{scope_of};
ghost use Rattle.esm_values.specs.Code.{numbered};
ghost use Rattle.esm_expr_eval.specs.Terms.{term};
ghost use Rattle.esm_rewriting.specs.Rest as rests;
ghost use Rattle.esm_rewriting.specs.Rest.{more, end, whole};
ghost use Rattle.esm_rewriting.specs.Rest.Part.{Does};
ghost use Rattle.esm_env.specs.Declarations.{declared_in};
ghost use Rattle.esm_body.specs.Slots.{scope_of_slots, unset_slots};
ghost use Rattle.esm_rewriting.specs.Contexts.{placed};
ghost use Rattle.esm_body.specs.Inner.Stack.{IsFront, AreNamed, Becomes, IsNodeOf, IsPopped, IsTaken};
ghost use Rattle.esm_body.specs.Code.{in_front, innermost, context_by, part_of, awaited_by, use_of, IsUse, IsWork, AreWork, IsKind, AreLevels, name_in, bound_name, assigned};

use crate::remaining::Remaining;
use crate::scopes::add_block;
use crate::slots::Slots;
use crate::work::{Doing, Kind, Level, Slot, Use, Work};
use esm_base::Memory;
use esm_expr_eval::ExprFrame;
use esm_tree::{ExprId, Initializer, LexicalBinding, StmtId, StmtNode, Tree};
use esm_values::Value;
use std::alloc::Global;
use std::sync::Arc;

/// These statements, the first last.
fn reversed(alloc: Global, ids: &[StmtId]) -> Result<Vec<StmtId>, Memory>
    ensures { IfOk result (λ statements. statements.items ≡ reverse ids.now) }
{
    let mut statements = Vec::from_slice(alloc, ids)?;
    statements.reverse();
    Ok(statements)
}

/// The work of these statements, the first last.
fn block_work(alloc: Global, ids: &[StmtId]) -> Result<Remaining, Memory>
    ensures work { (stmts : List Stmt) → IfOk result (λ work. in_front stmts work end
        ≡ whole (stmt_parts stmts ids.now)) }
    ensures sound { (n : ℕ) → flat.AllStmtsBelow n ids.now
        → IfOk result (λ work. AreWork n work) }
{
    let statements = reversed(alloc, ids)?;
    Ok(Remaining::of(alloc, statements))
}

/// Adds a level, where there is memory.
pub(crate) fn is_begun(levels: &mut Vec<Level>, level: Level) -> bool
    ensures { IsTrue result → levels.new.items ≡ levels.old.items ++ level ∷ [] }
{
    levels.push(level).is_ok()
}

/// The names of a block of these statements, of which the first are these.
fn block_slots(
    alloc: Global,
    tree: &Tree,
    names: Vec<Slot>,
    ids: &[StmtId],
) -> Result<Slots, Memory>
    requires { flat.AllStmtsBelow (length tree.now.stmts) ids.now }
    ensures { IfOk result (λ slots. slots
        ≡ names.items ++ unset_slots (declared_in (stmt_parts tree.now.stmts ids.now))) }
{
    let mut slots = names;
    add_block(alloc, &mut slots, tree, ids)?;
    Slots::of(alloc, slots)
}

/// Begins a block of these statements, whose first names are these.
pub(crate) fn begin_block(
    alloc: Global,
    tree: &Arc<Tree>,
    levels: &mut Vec<Level>,
    kind: Kind,
    names: Vec<Slot>,
    ids: &[StmtId],
) -> Result<(), Memory>
    requires levels { 0 < length levels.old.items }
    requires ids { flat.AllStmtsBelow (length (arc_value tree.now).stmts) ids.now }
    ensures begun { OnOk result (Becomes (arc_value tree.now).stmts levels.old.items
        levels.new.items
        (placed (context_by (arc_value tree.now).stmts kind (scope_of_slots names.items
        ++ scope_of (stmt_parts (arc_value tree.now).stmts ids.now))
        (innermost (arc_value tree.now).stmts levels.old.items))
        (whole (stmt_parts (arc_value tree.now).stmts ids.now)))) }
    ensures sound { IsKind (length (arc_value tree.now).stmts) kind
        → AreLevels (length (arc_value tree.now).stmts) levels.old.items
        → OnOk result (AreLevels (length (arc_value tree.now).stmts) levels.new.items
        × (0 < length levels.new.items)) }
{
    let slots = block_slots(alloc, tree, names, ids)?;
    match block_work(alloc, ids) {
        Ok(work) => {
            if is_begun(levels, Level { kind, slots, work }) {
                Ok(())
            } else {
                Err(Memory)
            }
        }
        Err(Memory) => Err(Memory),
    }
}

/// Adds work in front of a level, where there is memory.
fn is_added(level: &mut Level, work: Work) -> bool
    ensures { IsTrue result → (level.new.work ≡ level.old.work ++ work ∷ [])
        × (level.new.kind ≡ level.old.kind) × (level.new.slots ≡ level.old.slots) }
{
    level.work.is_pushed(work)
}

/// Adds work in front of the innermost level.
pub(crate) fn add(levels: &mut Vec<Level>, work: Work) -> Result<(), Memory>
    requires { 0 < length levels.old.items }
    ensures front { (stmts : List Stmt) → OnOk result (IsFront stmts levels.old.items
        levels.new.items (more (part_of stmts work) (innermost stmts levels.old.items))) }
    ensures sound { (n : ℕ) → IsWork n work → AreLevels n levels.old.items
        → OnOk result (AreLevels n levels.new.items) }
{
    let top = levels.len() - 1;
    if is_added(&mut levels[top], work) {
        Ok(())
    } else {
        Err(Memory)
    }
}

/// Begins an expression whose value is for this.
fn does(
    alloc: Global,
    tree: &Arc<Tree>,
    levels: &mut Vec<Level>,
    purpose: Use,
    awaits: bool,
    at: ExprId,
) -> Result<(), Memory>
    requires levels { 0 < length levels.old.items }
    requires at { at.0 < length (arc_value tree.now).exprs }
    ensures front { (stmts : List Stmt) → OnOk result (IsFront stmts levels.old.items
        levels.new.items (more (Does (awaited_by stmts awaits (use_of stmts purpose))
        (term numbered (part (arc_value tree.now).exprs at))) (innermost stmts levels.old.items))) }
    ensures sound { (n : ℕ) → IsUse n purpose → AreLevels n levels.old.items
        → OnOk result (AreLevels n levels.new.items) }
{
    match tree.clone() {
        Ok(shared) => match ExprFrame::new(alloc, shared, at) {
            Ok(frame) => add(
                levels,
                Work::Does(Doing {
                    purpose,
                    awaits,
                    frame,
                }),
            ),
            Err(_) => Err(Memory),
        },
        Err(_) => Err(Memory),
    }
}

/// Begins what a binding or an assignment is set to. Without a right side it is undefined.
fn does_init(
    alloc: Global,
    tree: &Arc<Tree>,
    levels: &mut Vec<Level>,
    purpose: Use,
    value: Initializer,
) -> Result<(), Memory>
    requires levels { 0 < length levels.old.items }
    requires value { init_need value ≤ length (arc_value tree.now).exprs }
    ensures front { (stmts : List Stmt) → OnOk result (IsFront stmts levels.old.items
        levels.new.items (more (rests.does_init numbered (use_of stmts purpose)
        (init_of (arc_value tree.now).exprs value)) (innermost stmts levels.old.items))) }
    ensures sound { (n : ℕ) → IsUse n purpose → AreLevels n levels.old.items
        → OnOk result (AreLevels n levels.new.items) }
{
    match value {
        Initializer::Absent => add(levels, Work::Has(purpose, Value::Undefined)),
        Initializer::Plain(id) => does(alloc, tree, levels, purpose, false, id),
        Initializer::Awaited(id) => does(alloc, tree, levels, purpose, true, id),
    }
}

/// Begins the bindings of a declaration, the last one first.
fn does_bindings(
    alloc: Global,
    tree: &Arc<Tree>,
    levels: &mut Vec<Level>,
    id: StmtId,
    bindings: &[LexicalBinding],
) -> Result<(), Memory>
    requires levels { 0 < length levels.old.items }
    requires value { bindings_need bindings.now ≤ length (arc_value tree.now).exprs }
    ensures front { (stmts : List Stmt)
        → AreNamed stmts id (bindings_of (arc_value tree.now).exprs bindings.now)
        → OnOk result (IsFront stmts levels.old.items levels.new.items
        (rests.does_bindings numbered (bindings_of (arc_value tree.now).exprs bindings.now)
        (innermost stmts levels.old.items))) }
    ensures sound { (n : ℕ) → id.0 < n → AreLevels n levels.old.items
        → OnOk result (AreLevels n levels.new.items) }
{
    for place in (0..bindings.len()).rev() {
        match does_init(
            alloc,
            tree,
            levels,
            Use::Sets(id, place),
            bindings[place].value,
        ) {
            Ok(()) => {}
            Err(Memory) => return Err(Memory),
        }
    }
    Ok(())
}

/// Begins a statement of this node, behind its step.
pub(crate) fn begin(
    alloc: Global,
    tree: &Arc<Tree>,
    levels: &mut Vec<Level>,
    id: StmtId,
    node: &StmtNode,
) -> Result<(), Memory>
    requires levels { 0 < length levels.old.items }
    requires id { id.0 < length (arc_value tree.now).stmts }
    requires node { IsNodeOf (arc_value tree.now) id node.now }
    ensures begun { OnOk result (Becomes (arc_value tree.now).stmts levels.old.items
        levels.new.items (rests.begin numbered (flat.stmt_part (arc_value tree.now).stmts id)
        (innermost (arc_value tree.now).stmts levels.old.items))) }
    ensures sound { AreLevels (length (arc_value tree.now).stmts) levels.old.items
        → OnOk result (AreLevels (length (arc_value tree.now).stmts) levels.new.items
        × (0 < length levels.new.items)) }
{
    match node {
        StmtNode::Empty => Ok(()),
        StmtNode::Expression(at) => does(alloc, tree, levels, Use::Drops, false, *at),
        StmtNode::Assign(parts) => does_init(alloc, tree, levels, Use::Writes(id), parts.value),
        StmtNode::Block(ids) => begin_block(
            alloc,
            tree,
            levels,
            Kind::Block,
            Vec::new(alloc),
            ids.as_slice(),
        ),
        StmtNode::If(at, _) => does(alloc, tree, levels, Use::Chooses(id), false, *at),
        StmtNode::IfElse(at, _) => does(alloc, tree, levels, Use::Chooses(id), false, *at),
        StmtNode::Try(parts) => begin_block(
            alloc,
            tree,
            levels,
            Kind::Tries(id),
            Vec::new(alloc),
            parts.body.as_slice(),
        ),
        StmtNode::TryCatch(parts) => begin_block(
            alloc,
            tree,
            levels,
            Kind::Tries(id),
            Vec::new(alloc),
            parts.body.as_slice(),
        ),
        StmtNode::Throw(at) => does(alloc, tree, levels, Use::Throws, false, *at),
        StmtNode::Return => add(levels, Work::Has(Use::Returns, Value::Undefined)),
        StmtNode::ReturnValue(at) => does(alloc, tree, levels, Use::Returns, false, *at),
        StmtNode::Await(at) => does(alloc, tree, levels, Use::Drops, true, *at),
        StmtNode::PrintAwait(at) => does(alloc, tree, levels, Use::Prints, true, *at),
        StmtNode::Const(bindings) => does_bindings(alloc, tree, levels, id, bindings.as_slice()),
        StmtNode::Let(bindings) => does_bindings(alloc, tree, levels, id, bindings.as_slice()),
        StmtNode::Default(value) => does_init(alloc, tree, levels, Use::Defaults, *value),
    }
}

/// Takes the next part of a level, if it has one.
fn pop_work(level: &mut Level) -> Option<Work>
    ensures { IsPopped level.old result level.new }
{
    level.work.pop()
}

/// Takes the next part of the innermost level, if it has one.
pub(crate) fn take_next(levels: &mut Vec<Level>) -> Option<Work>
    requires { 0 < length levels.old.items }
    ensures { (stmts : List Stmt) → IsTaken stmts levels.old.items result levels.new.items }
{
    let top = levels.len() - 1;
    pop_work(&mut levels[top])
}

/// The name that a binding of a declaration declares.
pub(crate) fn bound_name(tree: &Tree, id: StmtId, place: usize) -> &str
    requires { id.0 < length tree.now.stmts }
    ensures { result.now ≡ bound_name (flat.stmt_part tree.now.stmts id) place }
{
    match tree.stmt(id) {
        StmtNode::Const(bindings) => name_at(bindings.as_slice(), place),
        StmtNode::Let(bindings) => name_at(bindings.as_slice(), place),
        _ => "",
    }
}

/// The name at a place among bindings, if they are so many.
fn name_at(bindings: &[LexicalBinding], place: usize) -> &str
    ensures { (exprs : _) → result.now ≡ name_in (bindings_of exprs bindings.now) place }
{
    if place < bindings.len() {
        bindings[place].name.as_str()
    } else {
        ""
    }
}

/// The name that an assignment writes.
pub(crate) fn assigned(tree: &Tree, id: StmtId) -> &str
    requires { id.0 < length tree.now.stmts }
    ensures { result.now ≡ assigned (flat.stmt_part tree.now.stmts id) }
{
    match tree.stmt(id) {
        StmtNode::Assign(parts) => parts.name.as_str(),
        _ => "",
    }
}
