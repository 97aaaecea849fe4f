// The rows of statements.
ghost use Rattle.std.specs.Prelude.{◌≡◌, ◌++◌, ◌∷◌, [], List, None, Some, length, IfOk, OnOk};
ghost use Rattle.esm_tree.specs.Syntax as x;
ghost use Rattle.esm_tree.specs.Syntax.{Expr, Stmt, Stmts};
ghost use Rattle.esm_tree.specs.Flat.{bindings_of, init_of, part, stmt_of, stmt_part, stmt_parts};
ghost use Rattle.esm_env.specs.Declarations.{declared_in};
ghost use Rattle.esm_rows.specs.Rows.{Row, Operation, bindings_row, block_row, caught_names, expr_row, handler_row, stmt_row, stmts_row};
ghost use Rattle.esm_rows.specs.Rows.{Operation as o};
ghost use Rattle.esm_rows.specs.Making.{plain};
ghost use Rattle.esm_rows.specs.Locals.{declared, names_of};
ghost use Rattle.esm_rows.specs.Drafts.{IsDraft, IsToldIn};
ghost use Rattle.esm_rows.specs.Working.{Comes, IsPlainOp, OwesIn, OwesWork, first_block, first_row, inner_row, tried_row};

use crate::blocks::{beside, block_of, catch_block, many_in, pop_block, push_block};
use crate::draft::Draft;
use crate::exprs::put_expr;
use crate::locals::Locals;
use crate::nodes::{first_ids, stmt_at};
use crate::op::Op;
use crate::simple::{put_assign, put_awaited, put_declaration, put_default, put_return, put_value};
use crate::works::{Work, push_if, push_statements, push_two, push_work};
use esm_base::Memory;
use esm_tree::{ExprId, Initializer, LexicalBinding, StmtId, StmtNode, Tree};
use std::alloc::Global;

/// A row of statements that is being made.
#[derive(Drop)]
pub(crate) struct Maker {
    pub(crate) draft: Draft,
    /// The blocks round the place, of which the last is the innermost.
    pub(crate) blocks: Vec<Locals>,
    pub(crate) works: Vec<Work>,
}

impl Maker {
    /// A row of these statements, whose names are those of this block.
    pub(crate) fn of(alloc: Global, block: Locals, body: &[StmtId]) -> Result<Maker, Memory>
        ensures { (exprs : List Expr) → (stmts : List Stmt) → IfOk result (λ m. Comes exprs stmts m
            (stmts_row (declared block ∷ []) (stmt_parts stmts body.now)
            (o.End ∷ []))) }
    {
        let mut draft = Draft::new(alloc);
        draft.put(Op::End)?;
        let mut works = Vec::new(alloc);
        push_statements(&mut works, body)?;
        let mut blocks = Vec::new(alloc);
        push_block(&mut blocks, block)?;
        Ok(Maker {
            draft,
            blocks,
            works,
        })
    }

    /// Enters a block of these statements, which ends with one operation and begins with another.
    fn open(&mut self, block: Locals, close: Op, begin: Op, ids: &[StmtId]) -> Result<(), Memory>
        ensures { (exprs : List Expr) → (stmts : List Stmt) → (made : Row) → IsPlainOp close
            → IsPlainOp begin → OwesIn exprs stmts self.old
            (λ c. plain begin ∷ stmts_row (declared block ∷ names_of self.old.blocks.items)
            (stmt_parts stmts ids.now) (plain close ∷ c)) made
            → OnOk result (Comes exprs stmts self.new made) }
    {
        self.draft.put(close)?;
        push_work(&mut self.works, Work::Begin(begin))?;
        push_statements(&mut self.works, ids)?;
        push_block(&mut self.blocks, block)
    }

    /// Puts a block in front.
    fn block(&mut self, alloc: Global, tree: &Tree, ids: &[StmtId]) -> Result<(), Memory>
        ensures { (made : Row) → (ss : Stmts) → ss ≡ stmt_parts tree.now.stmts ids.now
            → OwesIn tree.now.exprs tree.now.stmts self.old (λ c. o.Step ∷ block_row
            (declared_in ss) (inner_row (names_of self.old.blocks.items) ss) (length c) c) made
            → OnOk result (Comes tree.now.exprs tree.now.stmts self.new made) }
    {
        let left = self.draft.left()?;
        let block = block_of(alloc, tree, ids)?;
        let many = many_in(&block)?;
        push_work(&mut self.works, Work::Put(Op::Step))?;
        self.open(block, Op::Leave(many, left), Op::Enter(many), ids)
    }

    /// Puts the first block of an `if` in front of the other one.
    fn first(&mut self, alloc: Global, tree: &Tree, id: StmtId, left: u32) -> Result<(), Memory>
        ensures { (made : Row) → OwesIn tree.now.exprs tree.now.stmts self.old
            (λ c. first_row (names_of self.old.blocks.items)
            (first_block (stmt_part tree.now.stmts id)) left c) made
            → OnOk result (Comes tree.now.exprs tree.now.stmts self.new made) }
    {
        let ids = first_ids(tree, id);
        let others = self.draft.left()?;
        let block = block_of(alloc, tree, ids)?;
        let many = many_in(&block)?;
        push_work(&mut self.works, Work::Put(Op::Choose(others)))?;
        self.open(block, Op::Leave(many, left), Op::Enter(many), ids)
    }

    /// Puts the block of a `try` in front of its handler.
    fn tried(&mut self, alloc: Global, tree: &Tree, id: StmtId, left: u32) -> Result<(), Memory>
        ensures { (made : Row) → OwesIn tree.now.exprs tree.now.stmts self.old
            (λ c. tried_row (names_of self.old.blocks.items)
            (first_block (stmt_part tree.now.stmts id)) left c) made
            → OnOk result (Comes tree.now.exprs tree.now.stmts self.new made) }
    {
        let ids = first_ids(tree, id);
        let handler = self.draft.left()?;
        let block = block_of(alloc, tree, ids)?;
        let many = many_in(&block)?;
        self.open(block, Op::EndTry(many, left), Op::Try(many, handler), ids)
    }

    /// Puts an `if` without `else` in front.
    fn choose(&mut self, id: StmtId, value: ExprId) -> Result<(), Memory>
        ensures { (exprs : List Expr) → (stmts : List Stmt) → (made : Row) → (ss : Stmts)
            → first_block (stmt_part stmts id) ≡ ss → OwesIn exprs stmts self.old
            (λ c. o.Step ∷ expr_row (names_of self.old.blocks.items) (part exprs value)
            (first_row (names_of self.old.blocks.items) ss (length c)
            (block_row [] (λ d. d) (length c) c))) made
            → OnOk result (Comes exprs stmts self.new made) }
    {
        let left = self.draft.left()?;
        self.draft.put(Op::Leave(0, left))?;
        self.draft.put(Op::Enter(0))?;
        push_if(&mut self.works, id, value, left)
    }

    /// Puts an `if` with `else` in front.
    fn choose_else(
        &mut self,
        alloc: Global,
        tree: &Tree,
        id: StmtId,
        value: ExprId,
        others: &[StmtId],
    ) -> Result<(), Memory>
        ensures { (made : Row) → (ss : Stmts) → (os : Stmts)
            → first_block (stmt_part tree.now.stmts id) ≡ ss
            → os ≡ stmt_parts tree.now.stmts others.now
            → OwesIn tree.now.exprs tree.now.stmts self.old
            (λ c. o.Step ∷ expr_row (names_of self.old.blocks.items) (part tree.now.exprs value)
            (first_row (names_of self.old.blocks.items) ss (length c) (block_row (declared_in os)
            (inner_row (names_of self.old.blocks.items) os) (length c) c))) made
            → OnOk result (Comes tree.now.exprs tree.now.stmts self.new made) }
    {
        let left = self.draft.left()?;
        let block = block_of(alloc, tree, others)?;
        let many = many_in(&block)?;
        push_if(&mut self.works, id, value, left)?;
        self.open(block, Op::Leave(many, left), Op::Enter(many), others)
    }

    /// Puts a `try` in front, whose handler doesn't name what was thrown.
    fn attempt(
        &mut self,
        alloc: Global,
        tree: &Tree,
        id: StmtId,
        handler: &[StmtId],
    ) -> Result<(), Memory>
        ensures { (made : Row) → (ss : Stmts) → (hs : Stmts)
            → first_block (stmt_part tree.now.stmts id) ≡ ss
            → hs ≡ stmt_parts tree.now.stmts handler.now
            → OwesIn tree.now.exprs tree.now.stmts self.old
            (λ c. o.Step ∷ tried_row (names_of self.old.blocks.items) ss (length c)
            (handler_row None (declared_in hs) (inner_row (names_of self.old.blocks.items) hs) c))
            made → OnOk result (Comes tree.now.exprs tree.now.stmts self.new made) }
    {
        let left = self.draft.left()?;
        let block = block_of(alloc, tree, handler)?;
        let many = many_in(&block)?;
        push_two(&mut self.works, Work::Put(Op::Step), Work::Tried(id, left))?;
        self.open(
            block,
            Op::Leave(many, left),
            Op::CaughtUnnamed(many),
            handler,
        )
    }

    /// Puts a `try` in front, whose handler names what was thrown.
    fn attempt_named(
        &mut self,
        alloc: Global,
        tree: &Tree,
        id: StmtId,
        name: &str,
        handler: &[StmtId],
    ) -> Result<(), Memory>
        ensures { (made : Row) → (ss : Stmts) → (hs : Stmts)
            → first_block (stmt_part tree.now.stmts id) ≡ ss
            → hs ≡ stmt_parts tree.now.stmts handler.now
            → OwesIn tree.now.exprs tree.now.stmts self.old
            (λ c. o.Step ∷ tried_row (names_of self.old.blocks.items) ss (length c)
            (handler_row (Some name.now) (declared_in hs)
            (stmts_row ((caught_names (Some name.now) ++ declared_in hs)
            ∷ names_of self.old.blocks.items) hs) c)) made
            → OnOk result (Comes tree.now.exprs tree.now.stmts self.new made) }
    {
        let left = self.draft.left()?;
        let block = catch_block(alloc, tree, name, handler)?;
        let all = many_in(&block)?;
        let many = beside(all, 1)?;
        push_two(&mut self.works, Work::Put(Op::Step), Work::Tried(id, left))?;
        self.open(block, Op::Leave(all, left), Op::Caught(many), handler)
    }

    /// Puts an expression in front, whose value this operation takes.
    fn value(&mut self, alloc: Global, tree: &Tree, id: ExprId, last: Op) -> Result<(), Memory>
        ensures { (made : Row) → (p : Operation) → IsToldIn self.old.draft last p
            → OwesIn tree.now.exprs tree.now.stmts self.old (λ c. o.Step ∷ expr_row
            (names_of self.old.blocks.items) (part tree.now.exprs id) (p ∷ c)) made
            → OnOk result (Comes tree.now.exprs tree.now.stmts self.new made) }
    {
        put_value(
            alloc,
            &mut self.draft,
            tree,
            self.blocks.as_slice(),
            id,
            last,
        )
    }

    /// Puts an expression that is awaited in front, whose value this operation takes.
    fn awaited(&mut self, alloc: Global, tree: &Tree, id: ExprId, last: Op) -> Result<(), Memory>
        ensures { (made : Row) → (p : Operation) → IsToldIn self.old.draft last p
            → OwesIn tree.now.exprs tree.now.stmts self.old (λ c. o.Step ∷ expr_row
            (names_of self.old.blocks.items) (part tree.now.exprs id) (o.Await ∷ p ∷ c)) made
            → OnOk result (Comes tree.now.exprs tree.now.stmts self.new made) }
    {
        put_awaited(
            alloc,
            &mut self.draft,
            tree,
            self.blocks.as_slice(),
            id,
            last,
        )
    }

    /// Puts an assignment in front.
    fn assign(
        &mut self,
        alloc: Global,
        tree: &Tree,
        name: &str,
        init: Initializer,
    ) -> Result<(), Memory>
        ensures { (made : Row) → OwesIn tree.now.exprs tree.now.stmts self.old
            (λ c. o.Step ∷ stmt_row (names_of self.old.blocks.items)
            (x.Assign name.now (init_of tree.now.exprs init)) c) made
            → OnOk result (Comes tree.now.exprs tree.now.stmts self.new made) }
    {
        put_assign(
            alloc,
            &mut self.draft,
            tree,
            self.blocks.as_slice(),
            name,
            init,
        )
    }

    /// Puts `const` or `let` in front.
    fn declaration(
        &mut self,
        alloc: Global,
        tree: &Tree,
        bindings: &[LexicalBinding],
    ) -> Result<(), Memory>
        ensures { (made : Row) → OwesIn tree.now.exprs tree.now.stmts self.old
            (λ c. o.Step ∷ bindings_row (names_of self.old.blocks.items)
            (bindings_of tree.now.exprs bindings.now) c) made
            → OnOk result (Comes tree.now.exprs tree.now.stmts self.new made) }
    {
        put_declaration(
            alloc,
            &mut self.draft,
            tree,
            self.blocks.as_slice(),
            bindings,
        )
    }

    /// Puts `export default` before a value in front.
    fn defaults(&mut self, alloc: Global, tree: &Tree, init: Initializer) -> Result<(), Memory>
        ensures { (made : Row) → OwesIn tree.now.exprs tree.now.stmts self.old
            (λ c. o.Step ∷ stmt_row (names_of self.old.blocks.items)
            (x.Default (init_of tree.now.exprs init)) c) made
            → OnOk result (Comes tree.now.exprs tree.now.stmts self.new made) }
    {
        put_default(alloc, &mut self.draft, tree, self.blocks.as_slice(), init)
    }

    /// Puts the statement of a node in front.
    fn node(
        &mut self,
        alloc: Global,
        tree: &Tree,
        id: StmtId,
        node: &StmtNode,
    ) -> Result<(), Memory>
        ensures { (made : Row) → stmt_part tree.now.stmts id
            ≡ stmt_of tree.now.exprs tree.now.stmts node.now
            → OwesIn tree.now.exprs tree.now.stmts self.old
            (λ c. o.Step ∷ stmt_row (names_of self.old.blocks.items)
            (stmt_of tree.now.exprs tree.now.stmts node.now) c) made
            → OnOk result (Comes tree.now.exprs tree.now.stmts self.new made) }
    {
        match node {
            StmtNode::Block(ids) => self.block(alloc, tree, ids.as_slice()),
            StmtNode::If(value, _) => self.choose(id, *value),
            StmtNode::IfElse(value, parts) => {
                self.choose_else(alloc, tree, id, *value, parts.others.as_slice())
            }
            StmtNode::Try(parts) => self.attempt(alloc, tree, id, parts.handler.as_slice()),
            StmtNode::TryCatch(parts) => {
                let name = parts.name.as_str();
                self.attempt_named(alloc, tree, id, name, parts.handler.as_slice())
            }
            StmtNode::Empty => self.draft.put(Op::Step),
            StmtNode::Return => put_return(&mut self.draft),
            StmtNode::Expression(value) => self.value(alloc, tree, *value, Op::Drop),
            StmtNode::Throw(value) => self.value(alloc, tree, *value, Op::Throw),
            StmtNode::ReturnValue(value) => self.value(alloc, tree, *value, Op::Return),
            StmtNode::Await(value) => self.awaited(alloc, tree, *value, Op::Drop),
            StmtNode::PrintAwait(value) => self.awaited(alloc, tree, *value, Op::PrintAwaited),
            StmtNode::Assign(parts) => self.assign(alloc, tree, parts.name.as_str(), parts.value),
            StmtNode::Const(bindings) => self.declaration(alloc, tree, bindings.as_slice()),
            StmtNode::Let(bindings) => self.declaration(alloc, tree, bindings.as_slice()),
            StmtNode::Default(init) => self.defaults(alloc, tree, *init),
        }
    }

    /// Puts the statement with this number in front.
    fn statement(&mut self, alloc: Global, tree: &Tree, id: StmtId) -> Result<(), Memory>
        ensures { (made : Row) → OwesIn tree.now.exprs tree.now.stmts self.old
            (λ c. o.Step ∷ stmt_row (names_of self.old.blocks.items)
            (stmt_part tree.now.stmts id) c) made
            → OnOk result (Comes tree.now.exprs tree.now.stmts self.new made) }
    {
        match stmt_at(tree, id) {
            Some(node) => self.node(alloc, tree, id, node),
            None => self.draft.put(Op::Step),
        }
    }

    /// Leaves a block, which begins with this operation.
    fn close(&mut self, begin: Op) -> Result<(), Memory>
        ensures { (exprs : List Expr) → (stmts : List Stmt) → (made : Row)
            → OwesWork exprs stmts self.old (Work.Begin begin) made
            → OnOk result (Comes exprs stmts self.new made) }
    {
        pop_block(&mut self.blocks);
        self.draft.put(begin)
    }

    /// Does what is next.
    fn do_work(&mut self, alloc: Global, tree: &Tree, work: Work) -> Result<(), Memory>
        ensures { (made : Row) → OwesWork tree.now.exprs tree.now.stmts self.old work made
            → OnOk result (Comes tree.now.exprs tree.now.stmts self.new made) }
    {
        match work {
            Work::Put(op) => self.draft.put(op),
            Work::Statement(id) => self.statement(alloc, tree, id),
            Work::Value(id) => {
                put_expr(alloc, &mut self.draft, tree, self.blocks.as_slice(), id)
            }
            Work::Begin(op) => self.close(op),
            Work::First(id, left) => self.first(alloc, tree, id, left),
            Work::Tried(id, left) => self.tried(alloc, tree, id, left),
        }
    }

    /// Does all that is left.
    pub(crate) fn run(&mut self, alloc: Global, tree: &Tree) -> Result<(), Memory>
        ensures { (made : Row) → Comes tree.now.exprs tree.now.stmts self.old made
            → OnOk result (IsDraft self.new.draft made) }
    {
        for _ in 0..u64::MAX {
            match self.works.pop() {
                Some(work) => self.do_work(alloc, tree, work)?,
                None => return Ok(()),
            }
        }
        Err(Memory)
    }
}
