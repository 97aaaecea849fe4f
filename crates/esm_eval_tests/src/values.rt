// Each call on values that allocates once, with ample memory: no clause says that it doesn't run out.
use esm_base::{Memory, ModuleId, Text};
use esm_values::{
    Errors, FaultKind, RcText, Value, error_text, function_text, is_same, namespace_text,
    printed_line,
};
use std::alloc::Global;

// Whether a text, its clone, and the same with one more behind it have these bytes.
fn texts_have_their_bytes(alloc: Global) -> Result<bool, Memory> {
    let text = RcText::copy(alloc, "é")?;
    let twin = text.clone()?;
    let both = RcText::join(alloc, text.as_str(), "x")?;
    Ok(
        text.as_str().as_bytes() == b"\xc3\xa9".as_slice()
            && twin.as_str() == "é"
            && both.as_str() == "éx",
    )
}

// Whether two texts differ, and the clone of another value is the same.
fn values_are_told_apart(alloc: Global) -> Result<bool, Memory> {
    let one = Value::Text(RcText::from_string(String::from_str(alloc, "y")?)?);
    let other = Value::Text(RcText::join(alloc, "é", "x")?);
    let twin = Value::Namespace(ModuleId(1)).clone()?;
    Ok(!is_same(&one, &other) && is_same(&twin, &Value::Namespace(ModuleId(1))))
}

#[test]
fn shared_texts_have_the_same_bytes(rt: HostRuntime) -> Result<(), Memory> {
    assert!(rt; texts_have_their_bytes(rt.alloc())?);
    assert!(rt; values_are_told_apart(rt.alloc())?);
    Ok(())
}

// Whether an error without a message and one with a message are shown so.
fn both_are_shown(alloc: Global, errors: &mut Errors) -> Result<bool, Memory> {
    let bare = errors.make(alloc, FaultKind::Error, "")?;
    let first = error_text(alloc, errors, bare)?;
    let full = errors.make(alloc, FaultKind::RangeError, "text length")?;
    let other = error_text(alloc, errors, full)?;
    Ok(first.as_str() == "Error" && other.as_str() == "RangeError: text length")
}

// Whether these keys are shown so as those of a namespace, and as a printed line.
fn keys_are_shown(alloc: Global) -> Result<bool, Memory> {
    let keys = [Text::copy(alloc, "a")?, Text::copy(alloc, "b")?];
    let module = namespace_text(alloc, &keys)?;
    let line = printed_line(alloc, &keys)?;
    Ok(module.as_str() == "[module a, b]" && line.as_str() == "a b")
}

#[test]
fn values_are_shown(rt: HostRuntime) -> Result<(), Memory> {
    let alloc = rt.alloc();
    assert!(rt; both_are_shown(alloc, &mut Errors::new(alloc))?);
    assert!(rt; function_text(alloc, "*default*")?.as_str() == "[function default]");
    assert!(rt; function_text(alloc, "f")?.as_str() == "[function f]");
    assert!(rt; keys_are_shown(alloc)?);
    Ok(())
}
