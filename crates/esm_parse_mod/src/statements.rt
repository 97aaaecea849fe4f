// Statements and blocks.
ghost use Rattle.std.specs.Prelude.{◌≡◌, ◌<◌, ◌≤◌, true, length, None, Some};
ghost use Rattle.esm_tree.specs.Syntax.{nothing, first};
ghost use Rattle.esm_tree.specs.Flat.{need_of, IsStmtBelow, stmt_of};
ghost use Rattle.esm_grammar.specs.ReadingLists.{many};
ghost use Rattle.esm_grammar.specs.Statements as grammar;
ghost use Rattle.esm_grammar.specs.ReadingStatements as read;
ghost use Rattle.esm_parse_mod.specs.Inner.Outcome.{ReadsStmt, ReadsStmts, ReadsStmtStep};
ghost use Rattle.esm_parse_mod.specs.Inner.Nests.{Nests};

use crate::bindings::{at_end, declaration, end, init};
use esm_lexer::LexemeList;
use esm_parse_expr::tokens::{is_name_at, newline_at, node_text, sees, terminal};
use esm_parse_expr::{Stop, expr, operand};
use esm_tree::{Assignment, Attempt, Branches, NamedAttempt, StmtId, StmtNode, Terminal, Tree};
use std::alloc::Global;

/// How many turns a list may take, and whether it is read in a function's body.
#[derive(Clone, Copy, Debug)]
pub struct Room {
    pub(crate) turns: usize,
    pub(crate) inside: bool,
}

/// One more statement, read up to a place.
pub(crate) fn add(tree: &mut Tree, node: StmtNode, behind: usize) -> Result<(StmtId, usize), Stop>
    requires exprs_there { need_of node ≤ length tree.old.exprs }
    requires below { IsStmtBelow (length tree.old.stmts) node }
    ensures { ReadsStmt tree.old tree.new result
        (Some (stmt_of tree.old.exprs tree.old.stmts node, behind)) }
{
    if tree.mark().stmts >= u32::MAX {
        return Err(Stop::Memory);
    }
    match tree.add_stmt(node) {
        Ok(id) => Ok((id, behind)),
        Err(_) => Err(Stop::Memory),
    }
}

#[tactic(auto, unfolding(esm_grammar::specs::Statements::is_assign))]
fn is_assign(tokens: &LexemeList, at: usize) -> bool
    ensures value { result ≡ grammar.is_assign tokens.now at }
    ensures there { result ≡ true → at < length tokens.now }
{
    is_name_at(tokens, at) && sees(tokens, at + 1, Terminal::Equals)
}

#[tactic(auto, unfolding(esm_grammar::specs::Statements::is_print_await))]
fn is_print_await(tokens: &LexemeList, at: usize) -> bool
    ensures value { result ≡ grammar.is_print_await tokens.now at }
    ensures there { result ≡ true → at < length tokens.now }
{
    sees(tokens, at, Terminal::Print)
        && sees(tokens, at + 1, Terminal::Open)
        && sees(tokens, at + 2, Terminal::Await)
}

#[tactic(auto, unfolding(esm_grammar::specs::Statements::no_value))]
fn has_no_value(tokens: &LexemeList, at: usize) -> bool
    ensures value { result ≡ grammar.no_value tokens.now at }
{
    newline_at(tokens, at)
        || at_end(tokens, at)
        || sees(tokens, at, Terminal::Semicolon)
        || sees(tokens, at, Terminal::BraceClose)
}

fn assign(
    alloc: Global,
    tokens: &LexemeList,
    tree: &mut Tree,
    room: Room,
    at: usize,
) -> Result<(StmtId, usize), Stop>
    requires { at < length tokens.now }
    ensures { ReadsStmt tree.old tree.new result
        (read.assign tokens.now room.turns room.inside at) }
{
    let _ = tokens.len();
    let name = node_text(alloc, tokens, at)?;
    let (value, behind) = init(alloc, tokens, tree, room, at + 2)?;
    let behind = end(tokens, behind, false)?;
    let parts = Box::new(alloc, Assignment { name, value })?;
    add(tree, StmtNode::Assign(parts), behind)
}

fn thrown(
    alloc: Global,
    tokens: &LexemeList,
    tree: &mut Tree,
    room: Room,
    at: usize,
) -> Result<(StmtId, usize), Stop>
    requires { at < length tokens.now }
    ensures { ReadsStmt tree.old tree.new result
        (read.thrown tokens.now room.turns room.inside at) }
{
    let _ = tokens.len();
    if newline_at(tokens, at + 1) {
        return Err(Stop::Fault);
    }
    let (value, behind) = expr(alloc, tokens, tree, room.turns, at + 1)?;
    let behind = end(tokens, behind, false)?;
    add(tree, StmtNode::Throw(value), behind)
}

fn returned(
    alloc: Global,
    tokens: &LexemeList,
    tree: &mut Tree,
    room: Room,
    at: usize,
) -> Result<(StmtId, usize), Stop>
    requires { at < length tokens.now }
    ensures { ReadsStmt tree.old tree.new result
        (read.returned tokens.now room.turns room.inside at) }
{
    let _ = tokens.len();
    if !room.inside {
        return Err(Stop::Fault);
    }
    if has_no_value(tokens, at + 1) {
        let behind = end(tokens, at + 1, false)?;
        return add(tree, StmtNode::Return, behind);
    }
    let (value, behind) = expr(alloc, tokens, tree, room.turns, at + 1)?;
    let behind = end(tokens, behind, false)?;
    add(tree, StmtNode::ReturnValue(value), behind)
}

fn await_statement(
    alloc: Global,
    tokens: &LexemeList,
    tree: &mut Tree,
    room: Room,
    at: usize,
) -> Result<(StmtId, usize), Stop>
    requires { at < length tokens.now }
    ensures { ReadsStmt tree.old tree.new result
        (read.await_statement tokens.now room.turns room.inside at) }
{
    let _ = tokens.len();
    if room.inside {
        return Err(Stop::Fault);
    }
    let (value, behind) = operand(alloc, tokens, tree, room.turns, at + 1)?;
    let behind = end(tokens, behind, false)?;
    add(tree, StmtNode::Await(value), behind)
}

fn print_await(
    alloc: Global,
    tokens: &LexemeList,
    tree: &mut Tree,
    room: Room,
    at: usize,
) -> Result<(StmtId, usize), Stop>
    requires { at < length tokens.now }
    ensures { ReadsStmt tree.old tree.new result
        (read.print_await tokens.now room.turns room.inside at) }
{
    let _ = tokens.len();
    if room.inside {
        return Err(Stop::Fault);
    }
    let (value, behind) = operand(alloc, tokens, tree, room.turns, at + 3)?;
    if !sees(tokens, behind, Terminal::Close) {
        return Err(Stop::Fault);
    }
    let behind = end(tokens, behind + 1, true)?;
    add(tree, StmtNode::PrintAwait(value), behind)
}

fn expression(
    alloc: Global,
    tokens: &LexemeList,
    tree: &mut Tree,
    room: Room,
    at: usize,
) -> Result<(StmtId, usize), Stop>
    ensures { ReadsStmt tree.old tree.new result
        (read.expression tokens.now room.turns room.inside at) }
{
    if is_assign(tokens, at) {
        return assign(alloc, tokens, tree, room, at);
    }
    if is_print_await(tokens, at) {
        return print_await(alloc, tokens, tree, room, at);
    }
    let (value, behind) = expr(alloc, tokens, tree, room.turns, at)?;
    let behind = end(tokens, behind, false)?;
    add(tree, StmtNode::Expression(value), behind)
}

/// Reads statements; the blocks in them by a function of its own.
#[derive(Clone, Copy)]
pub struct BlockReader<F> {
    alloc: Global,
    room: Room,
    depth: usize,
    block: F,
}

impl<
    F: Fn(Global, &LexemeList, &mut Tree, Room, usize, usize) -> Result<(Vec<StmtId>, usize), Stop>,
> BlockReader<F> {
    fn block(
        &self,
        tokens: &LexemeList,
        tree: &mut Tree,
        at: usize,
    ) -> Result<(Vec<StmtId>, usize), Stop>
        requires { Nests self.now.room self.now.depth
            (F.pre self.now.block) (F.post self.now.block) }
        ensures { ReadsStmts tree.old tree.new result
            (read.block tokens.now self.now.room.turns self.now.room.inside self.now.depth at) }
    {
        (self.block)(self.alloc, tokens, tree, self.room, self.depth, at)
    }

    fn choice(
        &self,
        tokens: &LexemeList,
        tree: &mut Tree,
        at: usize,
    ) -> Result<(StmtId, usize), Stop>
        requires nests { Nests self.now.room self.now.depth
            (F.pre self.now.block) (F.post self.now.block) }
        requires there { at < length tokens.now }
        ensures { ReadsStmt tree.old tree.new result
            (read.choice tokens.now self.now.room.turns self.now.room.inside
            (read.block tokens.now self.now.room.turns self.now.room.inside self.now.depth) at) }
    {
        let _ = tokens.len();
        if !sees(tokens, at + 1, Terminal::Open) {
            return Err(Stop::Fault);
        }
        let (condition, behind) = expr(self.alloc, tokens, tree, self.room.turns, at + 2)?;
        if !sees(tokens, behind, Terminal::Close) {
            return Err(Stop::Fault);
        }
        let (then, behind) = self.block(tokens, tree, behind + 1)?;
        if sees(tokens, behind, Terminal::Else) {
            let (others, behind) = self.block(tokens, tree, behind + 1)?;
            let parts = Box::new(self.alloc, Branches { body: then, others })?;
            return add(tree, StmtNode::IfElse(condition, parts), behind);
        }
        add(tree, StmtNode::If(condition, then), behind)
    }

    fn tried(
        &self,
        tokens: &LexemeList,
        tree: &mut Tree,
        at: usize,
    ) -> Result<(StmtId, usize), Stop>
        requires nests { Nests self.now.room self.now.depth
            (F.pre self.now.block) (F.post self.now.block) }
        requires there { at < length tokens.now }
        ensures { ReadsStmt tree.old tree.new result
            (read.tried tokens.now self.now.room.turns self.now.room.inside
            (read.block tokens.now self.now.room.turns self.now.room.inside self.now.depth) at) }
    {
        let _ = tokens.len();
        let (body, behind) = self.block(tokens, tree, at + 1)?;
        if !sees(tokens, behind, Terminal::Catch) {
            return Err(Stop::Fault);
        }
        if !sees(tokens, behind + 1, Terminal::Open) {
            let (handler, behind) = self.block(tokens, tree, behind + 1)?;
            let parts = Box::new(self.alloc, Attempt { body, handler })?;
            return add(tree, StmtNode::Try(parts), behind);
        }
        if !is_name_at(tokens, behind + 2) {
            return Err(Stop::Fault);
        }
        if !sees(tokens, behind + 3, Terminal::Close) {
            return Err(Stop::Fault);
        }
        let name = node_text(self.alloc, tokens, behind + 2)?;
        let (handler, behind) = self.block(tokens, tree, behind + 4)?;
        let parts = Box::new(
            self.alloc,
            NamedAttempt {
                body,
                name,
                handler,
            },
        )?;
        add(tree, StmtNode::TryCatch(parts), behind)
    }

    /// Reads the statement that begins at a token (`Statement` of ECMA-262), and gives the place behind it.
    pub fn statement(
        &self,
        tokens: &LexemeList,
        tree: &mut Tree,
        at: usize,
    ) -> Result<(StmtId, usize), Stop>
        requires { Nests self.now.room self.now.depth
            (F.pre self.now.block) (F.post self.now.block) }
        ensures { ReadsStmt tree.old tree.new result
            (read.stmt_with tokens.now self.now.room.turns self.now.room.inside
            (read.block tokens.now self.now.room.turns self.now.room.inside self.now.depth) at) }
    {
        match terminal(tokens, at) {
            Terminal::BraceOpen => {
                let (body, behind) = self.block(tokens, tree, at)?;
                add(tree, StmtNode::Block(body), behind)
            }
            Terminal::Semicolon => add(tree, StmtNode::Empty, at + 1),
            Terminal::Const => {
                let (found, behind) = declaration(self.alloc, tokens, tree, self.room, true, at)?;
                add(tree, StmtNode::Const(found), behind)
            }
            Terminal::Let => {
                let (found, behind) = declaration(self.alloc, tokens, tree, self.room, false, at)?;
                add(tree, StmtNode::Let(found), behind)
            }
            Terminal::If => self.choice(tokens, tree, at),
            Terminal::Try => self.tried(tokens, tree, at),
            Terminal::Throw => thrown(self.alloc, tokens, tree, self.room, at),
            Terminal::Return => returned(self.alloc, tokens, tree, self.room, at),
            Terminal::Await => await_statement(self.alloc, tokens, tree, self.room, at),
            _ => expression(self.alloc, tokens, tree, self.room, at),
        }
    }

    // One more statement of a block, or its end.
    fn step(
        &self,
        tokens: &LexemeList,
        tree: &mut Tree,
        at: usize,
    ) -> Result<(Option<StmtId>, usize), Stop>
        requires { Nests self.now.room self.now.depth
            (F.pre self.now.block) (F.post self.now.block) }
        ensures { ReadsStmtStep tree.old tree.new result
            (read.stmt_step tokens.now self.now.room.turns self.now.room.inside
            (read.block tokens.now self.now.room.turns self.now.room.inside self.now.depth) at) }
    {
        if sees(tokens, at, Terminal::BraceClose) {
            return Ok((None, at + 1));
        }
        let (id, behind) = self.statement(tokens, tree, at)?;
        Ok((Some(id), behind))
    }

    /// Reads the statements of a block and the `}` behind them (`Block` of ECMA-262), and gives the place behind it.
    pub fn statements(
        &self,
        tokens: &LexemeList,
        tree: &mut Tree,
        at: usize,
    ) -> Result<(Vec<StmtId>, usize), Stop>
        requires { Nests self.now.room self.now.depth
            (F.pre self.now.block) (F.post self.now.block) }
        ensures { ReadsStmts tree.old tree.new result
            (many nothing first (read.stmt_step tokens.now self.now.room.turns
            self.now.room.inside (read.block tokens.now self.now.room.turns self.now.room.inside
            self.now.depth)) self.now.room.turns at) }
    {
        let mut found = Vec::new(self.alloc);
        let mut next = at;
        'turns: for _turn in 0..self.room.turns {
            let (one, behind) = self.step(tokens, tree, next)?;
            next = behind;
            match one {
                Some(id) => found.push(id)?,
                None => return Ok((found, next)),
            }
        }
        Err(Stop::Fault)
    }
}

/// The block at a place, up to so many blocks deep.
pub fn block(
    alloc: Global,
    tokens: &LexemeList,
    tree: &mut Tree,
    room: Room,
    depth: usize,
    at: usize,
) -> Result<(Vec<StmtId>, usize), Stop>
    ensures { ReadsStmts tree.old tree.new result
        (read.block tokens.now room.turns room.inside depth at) }
{
    if depth == 0 {
        return Err(Stop::Fault);
    }
    if !sees(tokens, at, Terminal::BraceOpen) {
        return Err(Stop::Fault);
    }
    BlockReader {
        alloc,
        room,
        depth: depth - 1,
        block,
    }
    .statements(tokens, tree, at + 1)
}

/// The statement at a place, with blocks up to so many deep.
pub fn statement(
    alloc: Global,
    tokens: &LexemeList,
    tree: &mut Tree,
    room: Room,
    depth: usize,
    at: usize,
) -> Result<(StmtId, usize), Stop>
    ensures { ReadsStmt tree.old tree.new result
        (read.stmt tokens.now room.turns room.inside depth at) }
{
    BlockReader {
        alloc,
        room,
        depth,
        block,
    }
    .statement(tokens, tree, at)
}
