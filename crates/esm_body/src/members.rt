// Members of namespaces and errors.
ghost use Rattle.std.specs.Prelude.{◌≡◌, IfOk};
ghost use Rattle.esm_env.specs.Calls.{scopes_of};
ghost use Rattle.esm_env.specs.Scopes.{defined};
ghost use Rattle.esm_values.specs.Code.{value_of};
ghost use Rattle.esm_values.specs.Errors as spec;
ghost use Rattle.esm_values.specs.Value as value;
ghost use Rattle.esm_rewriting.specs.Acts.{error_member};
ghost use Rattle.esm_body.specs.Inner.Names.{found_reading};
ghost use Rattle.esm_body.specs.Inner.Displayed.{IsMember, MemberTold, NoMembers, end_reading};

use crate::importer::Importer;
use crate::names::{Found, owned, tell, throw_new};
use esm_base::{Memory, ModuleId};
use esm_env::Envs;
use esm_expr_eval::Out;
use esm_resolve::{Binding, Resolution, resolve_export};
use esm_values::{ErrorId, Errors, FaultKind, RcText, Value, kind_name};
use std::alloc::Global;

/// What is read, where a name that isn't declared is undefined.
fn or_undefined(found: Found) -> Found
    ensures { found_reading result ≡ defined (found_reading found) }
{
    match found {
        Found::Value(value) => Found::Value(value),
        Found::Unset => Found::Unset,
        Found::Undeclared => Found::Value(Value::Undefined),
    }
}

/// What is read where a resolution ends; undefined without an end.
fn read_resolved(envs: &Envs, resolution: Resolution) -> Result<Found, Memory>
    ensures { IfOk result (λ found. found_reading found
        ≡ end_reading (scopes_of envs.now) resolution) }
{
    match resolution {
        Resolution::One(of, Binding::Local(local)) => {
            let found = owned(envs.read_end(of, local.as_str()))?;
            Ok(or_undefined(found))
        }
        Resolution::One(of, Binding::Whole) => Ok(Found::Value(Value::Namespace(of))),
        Resolution::Missing => Ok(Found::Value(Value::Undefined)),
        Resolution::Ambiguous => Ok(Found::Value(Value::Undefined)),
    }
}

/// Reads a member of the namespace of a module; undeclared where there is no such module.
///
/// ECMA-262, [[Get]] of a module namespace exotic object.
fn read_member<I: Importer>(
    alloc: Global,
    envs: &Envs,
    imports: &I,
    m: ModuleId,
    name: &str,
) -> Result<Found, Memory>
    ensures { IfOk result (λ found. IsMember (I.modules (I.seen imports.now))
        (I.linked (I.seen imports.now)) (scopes_of envs.now) m.0 name.now (found_reading found)) }
{
    esm_env::laws::ends_right();
    esm_resolve::laws::follows_numbers();
    let at = m.0;
    if at < imports.size() {
        let resolution = resolve_export(alloc, imports, m, name)?;
        read_resolved(envs, resolution)
    } else {
        Ok(Found::Undeclared)
    }
}

/// A member of an error value: `message` and `name` are texts, empty where it wasn't made, and others undefined.
fn error_member_of(alloc: Global, errors: &Errors, id: ErrorId, name: &str) -> Result<Value, Memory>
    ensures { IfOk result (λ v. value_of v ≡ error_member errors.now id.0 name.now) }
{
    if name == "message" {
        let text = error_message(alloc, errors, id)?;
        Ok(Value::Text(text))
    } else if name == "name" {
        let text = error_name(alloc, errors, id)?;
        Ok(Value::Text(text))
    } else {
        Ok(Value::Undefined)
    }
}

/// The message of an error value; empty where it wasn't made.
fn error_message(alloc: Global, errors: &Errors, id: ErrorId) -> Result<RcText, Memory>
    ensures { IfOk result (λ text. text ≡ spec.error_message errors.now id.0) }
{
    let at = id.0;
    if at < errors.len() {
        let text = errors.fault(id).message.clone()?;
        Ok(text)
    } else {
        RcText::copy(alloc, "")
    }
}

/// The name of an error value; empty where it wasn't made.
fn error_name(alloc: Global, errors: &Errors, id: ErrorId) -> Result<RcText, Memory>
    ensures { IfOk result (λ text. text ≡ spec.error_name errors.now id.0) }
{
    let at = id.0;
    if at < errors.len() {
        RcText::copy(alloc, kind_name(errors.fault(id).kind))
    } else {
        RcText::copy(alloc, "")
    }
}

/// Other values than namespaces and errors have no members.
fn no_members(alloc: Global, errors: &mut Errors) -> Result<Out, Memory>
    ensures { NoMembers errors.old result errors.new }
{
    match throw_new(alloc, errors, FaultKind::TypeError, "no members") {
        Ok(error) => Ok(Out::Thrown(error)),
        Err(end) => Err(end),
    }
}

/// A member of the namespace of a module, or the throw where it can't be read.
fn namespace_member<I: Importer>(
    alloc: Global,
    errors: &mut Errors,
    envs: &Envs,
    imports: &I,
    m: ModuleId,
    name: &str,
) -> Result<Out, Memory>
    ensures { MemberTold (I.modules (I.seen imports.now)) (I.linked (I.seen imports.now))
        (scopes_of envs.now) errors.old (value.Namespace m.0) name.now result errors.new }
{
    match read_member(alloc, envs, imports, m, name) {
        Ok(found) => tell(alloc, errors, name, found),
        Err(end) => Err(end),
    }
}

/// A member of a value, or what is thrown.
///
/// ECMA-262, GetValue of a property reference.
pub(crate) fn member_of<I: Importer>(
    alloc: Global,
    errors: &mut Errors,
    envs: &Envs,
    imports: &I,
    of: Value,
    name: &str,
) -> Result<Out, Memory>
    ensures { MemberTold (I.modules (I.seen imports.now)) (I.linked (I.seen imports.now))
        (scopes_of envs.now) errors.old (value_of of) name.now result errors.new }
{
    match of {
        Value::Namespace(m) => namespace_member(alloc, errors, envs, imports, m, name),
        Value::Error(id) => match error_member_of(alloc, errors, id, name) {
            Ok(value) => Ok(Out::Value(value)),
            Err(end) => Err(end),
        },
        Value::Undefined => no_members(alloc, errors),
        Value::Bool(_) => no_members(alloc, errors),
        Value::Text(_) => no_members(alloc, errors),
        Value::Func(_) => no_members(alloc, errors),
        Value::Promise(_) => no_members(alloc, errors),
    }
}
