// The display texts of values, and the texts of specifiers.
ghost use Rattle.std.specs.Prelude.{◌≡◌, IfOk};
ghost use Rattle.esm_env.specs.Calls.{scopes_of};
ghost use Rattle.esm_tree.specs.Flat.{item_of};
ghost use Rattle.esm_values.specs.Code.{value_of, values_of};
ghost use Rattle.esm_values.specs.Errors as spec;
ghost use Rattle.esm_body.specs.DisplayText.{IsDisplayText};
ghost use Rattle.esm_body.specs.Inner.Displayed.{IsKeys, IsShown, AreShown, IsSpecifier, item_name, name_told};

use crate::importer::Importer;
use esm_base::{Memory, ModuleId, Text};
use esm_env::Envs;
use esm_resolve::namespace_keys;
use esm_tree::ItemNode;
use esm_values::{
    ErrorId, Errors, FuncId, Value, error_text, function_text, namespace_text, truth_text,
};
use std::alloc::Global;

/// The name of the function that an item declares.
#[tactic(auto, unfolding(esm_base::specs::DefaultExport::star_default, esm_base::specs::DefaultExport::or_star_default))]
fn name_of(item: &ItemNode) -> &str
    ensures { (stmts : _) → result.now ≡ item_name (item_of stmts item.now) }
{
    match item {
        ItemNode::ExportFunction(node) => node.name.as_str(),
        ItemNode::ExportDefaultFunction(node) => match &node.name {
            Some(name) => name.as_str(),
            None => "*default*",
        },
        ItemNode::Function(node) => node.name.as_str(),
        ItemNode::ExportStatement(_) => "",
        ItemNode::Statement(_) => "",
        ItemNode::ImportEffect(_) => "",
        ItemNode::Import(_) => "",
        ItemNode::ExportAll(_) => "",
        ItemNode::ExportAllAs(_) => "",
        ItemNode::ExportFrom(_) => "",
        ItemNode::ExportList(_) => "",
    }
}

/// The name of a function; empty where its module has no scope, or no such function.
fn function_name(envs: &Envs, id: FuncId) -> &str
    ensures { result.now ≡ name_told (scopes_of envs.now) id }
{
    match envs.scope(id.module) {
        Some(scope) => match scope.function(id.index) {
            Some(item) => name_of(item),
            None => "",
        },
        None => "",
    }
}

/// The display text of an error value; empty where it wasn't made.
fn shown_error(alloc: Global, errors: &Errors, id: ErrorId) -> Result<Text, Memory>
    ensures { IfOk result (λ text. text ≡ spec.error_text errors.now id.0) }
{
    let at = id.0;
    if at < errors.len() {
        error_text(alloc, errors, id)
    } else {
        Text::copy(alloc, "")
    }
}

/// The keys of the namespace of a module; none where there is no such module.
fn keys_of<I: Importer>(alloc: Global, imports: &I, m: ModuleId) -> Result<Vec<Text>, Memory>
    ensures { IfOk result (λ keys. IsKeys (I.modules (I.seen imports.now))
        (I.linked (I.seen imports.now)) m.0 keys.items) }
{
    esm_resolve::laws::follows_numbers();
    let at = m.0;
    if at < imports.size() {
        namespace_keys(alloc, imports, m)
    } else {
        Ok(Vec::new(alloc))
    }
}

/// The display text of a value that is known over linked modules, whose scopes are in `envs`; of another value nothing is
/// said. It answers `Memory` where memory runs out.
pub fn display_text<I: Importer>(
    alloc: Global,
    errors: &Errors,
    envs: &Envs,
    imports: &I,
    of: &Value,
) -> Result<Text, Memory>
    ensures { IfOk result (IsDisplayText I.modules I.linked (scopes_of envs.now) errors.now
        (I.seen imports.now) (value_of of.now)) }
{
    shown_text(alloc, errors, envs, imports, of)
}

/// The display text of a value, over the modules and errors alone.
pub(crate) fn shown_text<I: Importer>(
    alloc: Global,
    errors: &Errors,
    envs: &Envs,
    imports: &I,
    of: &Value,
) -> Result<Text, Memory>
    ensures { IfOk result (IsShown (I.modules (I.seen imports.now)) (I.linked (I.seen imports.now))
        (scopes_of envs.now) errors.now (value_of of.now)) }
{
    match of {
        Value::Undefined => Text::copy(alloc, "undefined"),
        Value::Bool(truth) => Text::copy(alloc, truth_text(*truth)),
        Value::Text(text) => Text::copy(alloc, text.as_str()),
        Value::Func(id) => function_text(alloc, function_name(envs, *id)),
        Value::Error(id) => shown_error(alloc, errors, *id),
        Value::Namespace(m) => {
            let keys = keys_of(alloc, imports, *m)?;
            namespace_text(alloc, keys.as_slice())
        }
        Value::Promise(_) => Text::copy(alloc, "[promise]"),
    }
}

/// The display texts of values.
pub(crate) fn display_texts<I: Importer>(
    alloc: Global,
    errors: &Errors,
    envs: &Envs,
    imports: &I,
    values: &[Value],
) -> Result<Vec<Text>, Memory>
    ensures { IfOk result (λ texts. AreShown (I.modules (I.seen imports.now))
        (I.linked (I.seen imports.now)) (scopes_of envs.now) errors.now (values_of values.now) texts.items) }
{
    let mut texts = Vec::new(alloc);
    for value in values.iter() {
        let text = shown_text(alloc, errors, envs, imports, value)?;
        texts.push(text)?;
    }
    Ok(texts)
}

/// The text of a specifier, if the value has one.
///
/// ECMA-262, ToString. Functions, namespaces and promises have none.
pub(crate) fn specifier_of(
    alloc: Global,
    errors: &Errors,
    of: &Value,
) -> Result<Option<Text>, Memory>
    ensures { IfOk result (IsSpecifier errors.now (value_of of.now)) }
{
    let text = match of {
        Value::Undefined => Text::copy(alloc, "undefined")?,
        Value::Bool(truth) => Text::copy(alloc, truth_text(*truth))?,
        Value::Text(text) => Text::copy(alloc, text.as_str())?,
        Value::Error(id) => shown_error(alloc, errors, *id)?,
        Value::Func(_) => return Ok(None),
        Value::Namespace(_) => return Ok(None),
        Value::Promise(_) => return Ok(None),
    };
    Ok(Some(text))
}
