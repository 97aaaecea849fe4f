// The display texts of values: what `print` writes of them.
ghost use Rattle.std.specs.Prelude.{◌≡◌, ◌++◌, IfOk, OnOk, string_bytes};
ghost use Rattle.esm_values.specs.Display as display;

use esm_base::{Memory, Text};
use std::alloc::Global;

/// The display text of a truth value. It doesn't allocate.
pub fn truth_text(truth: bool) -> &'static str
    ensures { result.now ≡ display.truth_text truth }
{
    if truth { "true" } else { "false" }
}

/// The display text of a function with this name. It answers `Memory` where memory runs out.
#[tactic(auto, unfolding(esm_base::specs::DefaultExport::star_default))]
pub fn function_text(alloc: Global, name: &str) -> Result<Text, Memory>
    ensures { IfOk result (λ t. t ≡ display.function_text name.now) }
{
    let mut text = String::from_str(alloc, "[function ")?;
    if name == "*default*" {
        text.push_str("default")?;
    } else {
        text.push_str(name)?;
    }
    text.push_str("]")?;
    Ok(Text::from_string(text))
}

/// Adds a sign, but not before the first text.
fn push_sign(text: &mut String, first: bool, sign: &str) -> Result<(), Memory>
    ensures { OnOk result (string_bytes text.new
        ≡ string_bytes text.old ++ display.sign_before first sign.now) }
{
    if !first {
        text.push_str(sign)?;
    }
    Ok(())
}

/// The texts in order, with a sign between them.
fn joined(alloc: Global, begin: &str, sign: &str, texts: &[Text]) -> Result<String, Memory>
    ensures { IfOk result (λ t. string_bytes t
        ≡ begin.now ++ display.joined_by sign.now texts.now) }
{
    let mut text = String::from_str(alloc, begin)?;
    let mut first = true;
    for part in texts.iter() {
        push_sign(&mut text, first, sign)?;
        text.push_str(part.as_str())?;
        first = false;
    }
    Ok(text)
}

/// The display text of a namespace with these keys. It answers `Memory` where memory runs out.
pub fn namespace_text(alloc: Global, keys: &[Text]) -> Result<Text, Memory>
    ensures { IfOk result (λ t. t ≡ display.namespace_text keys.now) }
{
    if keys.is_empty() {
        Text::copy(alloc, "[module]")
    } else {
        let mut text = joined(alloc, "[module ", ", ", keys)?;
        text.push_str("]")?;
        Ok(Text::from_string(text))
    }
}

/// What `print` writes of these display texts, without its line feed. It answers `Memory` where memory runs out.
pub fn printed_line(alloc: Global, texts: &[Text]) -> Result<Text, Memory>
    ensures { IfOk result (λ t. t ≡ display.printed_line texts.now) }
{
    let text = joined(alloc, "", " ", texts)?;
    Ok(Text::from_string(text))
}
