// Items of a module.
ghost use Rattle.std.specs.Prelude.{◌≡◌, ◌<◌, true, false, length};
ghost use Rattle.esm_tree.specs.Syntax.{ExportDefaultFunction};
ghost use Rattle.esm_grammar.specs.Items as grammar;
ghost use Rattle.esm_grammar.specs.ReadingItems as read;
ghost use Rattle.esm_parse_mod.specs.Inner.Items.{ReadsBare, ReadsBody, body, function_of};
ghost use Rattle.esm_parse_mod.specs.Inner.Outcome.{ReadsItem, ReadsItemStep};

use crate::bindings::{end, init};
use crate::names::{clause, exported_names, from, is_export_name, parameters};
use crate::statements::{Room, add, block, statement};
use esm_base::Text;
use esm_lexer::LexemeList;
use esm_parse_expr::Stop;
use esm_parse_expr::tokens::{is_name_at, sees, terminal, text};
use esm_tree::{
    DefaultFunction, FunctionNode, ImportNode, ItemNode, NamespaceExport, PassedExports, StmtId,
    StmtNode, Terminal, Tree, boxed_list,
};
use std::alloc::Global;

fn outside(turns: usize) -> Room
    ensures { result ≡ record { turns = turns; inside = false } }
{
    Room {
        turns,
        inside: false,
    }
}

fn inside(turns: usize) -> Room
    ensures { result ≡ record { turns = turns; inside = true } }
{
    Room {
        turns,
        inside: true,
    }
}

#[tactic(auto, unfolding(esm_grammar::specs::Items::is_import_form))]
fn is_import_form(tokens: &LexemeList, at: usize) -> bool
    ensures value { result ≡ grammar.is_import_form tokens.now at }
    ensures there { result ≡ true → at < length tokens.now }
    ensures small { result ≡ true → at < 9223372036854775807 }
{
    sees(tokens, at, Terminal::Import)
        && !(sees(tokens, at + 1, Terminal::Open) || sees(tokens, at + 1, Terminal::Dot))
}

fn import_form(
    alloc: Global,
    tokens: &LexemeList,
    turns: usize,
    at: usize,
) -> Result<(ItemNode, usize), Stop>
    requires { at < length tokens.now }
    ensures { ReadsBare result (read.import_form tokens.now turns at) }
{
    let _ = tokens.len();
    if sees(tokens, at + 1, Terminal::Literal) {
        let specifier = text(alloc, tokens, at + 1)?;
        let behind = end(tokens, at + 2, false)?;
        let boxed = Box::new(alloc, specifier)?;
        return Ok((ItemNode::ImportEffect(boxed), behind));
    }
    let (found, behind) = clause(alloc, tokens, turns, at + 1)?;
    let (specifier, behind) = from(alloc, tokens, behind)?;
    let node = ImportNode::boxed(alloc, specifier, found)?;
    Ok((ItemNode::Import(node), behind))
}

// Parameters and body. ECMA-262, FormalParameters, FunctionBody.
fn rest(
    alloc: Global,
    tokens: &LexemeList,
    tree: &mut Tree,
    turns: usize,
    at: usize,
) -> Result<((Vec<Text>, Vec<StmtId>), usize), Stop>
    ensures { ReadsBody tree.old tree.new result (body tokens.now turns at) }
{
    if !sees(tokens, at, Terminal::Open) {
        return Err(Stop::Fault);
    }
    let (found, behind) = parameters(alloc, tokens, turns, at + 1)?;
    let (body, behind) = block(alloc, tokens, tree, inside(turns), turns, behind)?;
    Ok(((found, body), behind))
}

// Name, parameters and body.
fn function(
    alloc: Global,
    tokens: &LexemeList,
    tree: &mut Tree,
    turns: usize,
    exported: bool,
    at: usize,
) -> Result<(ItemNode, usize), Stop>
    requires { at < length tokens.now }
    ensures { ReadsItem tree.old tree.new result
        (read.function_form tokens.now turns (function_of exported) at) }
{
    let _ = tokens.len();
    if !is_name_at(tokens, at + 1) {
        return Err(Stop::Fault);
    }
    let name = text(alloc, tokens, at + 1)?;
    let (parts, behind) = rest(alloc, tokens, tree, turns, at + 2)?;
    let (found, body) = parts;
    let node = FunctionNode::boxed(alloc, name, found, body)?;
    if exported {
        Ok((ItemNode::ExportFunction(node), behind))
    } else {
        Ok((ItemNode::Function(node), behind))
    }
}

fn export_all(alloc: Global, tokens: &LexemeList, at: usize) -> Result<(ItemNode, usize), Stop>
    requires { at < length tokens.now }
    ensures { ReadsBare result (read.export_all_form tokens.now 0 at) }
{
    let _ = tokens.len();
    if sees(tokens, at + 1, Terminal::As) {
        if !is_export_name(tokens, at + 2) {
            return Err(Stop::Fault);
        }
        let name = text(alloc, tokens, at + 2)?;
        let (specifier, behind) = from(alloc, tokens, at + 3)?;
        let node = Box::new(alloc, NamespaceExport { name, specifier })?;
        return Ok((ItemNode::ExportAllAs(node), behind));
    }
    let (specifier, behind) = from(alloc, tokens, at + 1)?;
    let boxed = Box::new(alloc, specifier)?;
    Ok((ItemNode::ExportAll(boxed), behind))
}

fn export_list(
    alloc: Global,
    tokens: &LexemeList,
    turns: usize,
    at: usize,
) -> Result<(ItemNode, usize), Stop>
    requires { at < length tokens.now }
    ensures { ReadsBare result (read.export_list_form tokens.now turns at) }
{
    let _ = tokens.len();
    let (found, behind) = exported_names(alloc, tokens, turns, at + 1)?;
    if sees(tokens, behind, Terminal::From) {
        let (specifier, behind) = from(alloc, tokens, behind)?;
        let node = PassedExports::boxed(alloc, found, specifier)?;
        return Ok((ItemNode::ExportFrom(node), behind));
    }
    let behind = end(tokens, behind, false)?;
    let list = boxed_list(alloc, found)?;
    Ok((ItemNode::ExportList(list), behind))
}

fn default_function(
    alloc: Global,
    tokens: &LexemeList,
    tree: &mut Tree,
    turns: usize,
    name: Option<Text>,
    at: usize,
) -> Result<(ItemNode, usize), Stop>
    ensures { ReadsItem tree.old tree.new result
        (read.rest tokens.now turns (ExportDefaultFunction name) at) }
{
    let (parts, behind) = rest(alloc, tokens, tree, turns, at)?;
    let (found, body) = parts;
    let node = DefaultFunction::boxed(alloc, name, found, body)?;
    Ok((ItemNode::ExportDefaultFunction(node), behind))
}

fn export_default(
    alloc: Global,
    tokens: &LexemeList,
    tree: &mut Tree,
    turns: usize,
    at: usize,
) -> Result<(ItemNode, usize), Stop>
    requires { at < length tokens.now }
    ensures { ReadsItem tree.old tree.new result (read.export_default_form tokens.now turns at) }
{
    let _ = tokens.len();
    if sees(tokens, at + 1, Terminal::Function) {
        if is_name_at(tokens, at + 2) {
            let name = text(alloc, tokens, at + 2)?;
            return default_function(alloc, tokens, tree, turns, Some(name), at + 3);
        }
        return default_function(alloc, tokens, tree, turns, None, at + 2);
    }
    let (value, behind) = init(alloc, tokens, tree, outside(turns), at + 1)?;
    let behind = end(tokens, behind, false)?;
    let (id, behind) = add(tree, StmtNode::Default(value), behind)?;
    Ok((ItemNode::ExportStatement(id), behind))
}

fn export_statement(
    alloc: Global,
    tokens: &LexemeList,
    tree: &mut Tree,
    turns: usize,
    at: usize,
) -> Result<(ItemNode, usize), Stop>
    ensures { ReadsItem tree.old tree.new result (read.export_statement tokens.now turns at) }
{
    let (id, behind) = statement(alloc, tokens, tree, outside(turns), turns, at)?;
    Ok((ItemNode::ExportStatement(id), behind))
}

// Behind `export`.
fn export_form(
    alloc: Global,
    tokens: &LexemeList,
    tree: &mut Tree,
    turns: usize,
    at: usize,
) -> Result<(ItemNode, usize), Stop>
    ensures { ReadsItem tree.old tree.new result (read.export_form tokens.now turns at) }
{
    match terminal(tokens, at) {
        Terminal::Star => export_all(alloc, tokens, at),
        Terminal::BraceOpen => export_list(alloc, tokens, turns, at),
        Terminal::Const => export_statement(alloc, tokens, tree, turns, at),
        Terminal::Let => export_statement(alloc, tokens, tree, turns, at),
        Terminal::Function => function(alloc, tokens, tree, turns, true, at),
        Terminal::Default => export_default(alloc, tokens, tree, turns, at),
        _ => Err(Stop::Fault),
    }
}

fn item(
    alloc: Global,
    tokens: &LexemeList,
    tree: &mut Tree,
    turns: usize,
    at: usize,
) -> Result<(ItemNode, usize), Stop>
    ensures { ReadsItem tree.old tree.new result (read.item tokens.now turns at) }
{
    if is_import_form(tokens, at) {
        return import_form(alloc, tokens, turns, at);
    }
    if sees(tokens, at, Terminal::Export) {
        return export_form(alloc, tokens, tree, turns, at + 1);
    }
    if sees(tokens, at, Terminal::Function) {
        return function(alloc, tokens, tree, turns, false, at);
    }
    let (id, behind) = statement(alloc, tokens, tree, outside(turns), turns, at)?;
    Ok((ItemNode::Statement(id), behind))
}

/// One more item, or the end of the module.
pub(crate) fn item_step(
    alloc: Global,
    tokens: &LexemeList,
    tree: &mut Tree,
    turns: usize,
    at: usize,
) -> Result<(Option<ItemNode>, usize), Stop>
    ensures { ReadsItemStep tree.old tree.new result (read.item_step tokens.now turns at) }
{
    let count = tokens.len();
    if at >= count {
        return Ok((None, at));
    }
    let (node, behind) = item(alloc, tokens, tree, turns, at)?;
    Ok((Some(node), behind))
}
