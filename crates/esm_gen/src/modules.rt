// The modules that two numbers generate.
ghost use Rattle.std.specs.Prelude.{◌≡◌, ◌<◌, ◌++◌, ◌^◌, ℕ, List, IfOk, OnOk, map, string_bytes, true};
ghost use Rattle.esm_base.specs.Urls.{is_usable};
ghost use Rattle.esm_ports.specs.Files.{contents_of};
ghost use Rattle.esm_gen.specs.Generated as spec;
ghost use Rattle.esm_gen.specs.Held.{file_of};

use esm_base::{Memory, Text};
use std::alloc::Global;

/// The URL that the modules' names are read against.
pub const BASE: &str = "https://gen.test/";

/// The name of the entry, the module with the number 0.
pub const ENTRY: &str = "m0.js";

/// The URL of the entry.
pub fn entry_url(alloc: Global) -> Result<Text, Memory>
    ensures first { IfOk result (λ url. url ≡ spec.module_url 0) }
    ensures usable { IfOk result (λ url. is_usable url ≡ true) }
{
    module_url(alloc, 0)
}

/// The URL of the module with this number.
pub(crate) fn module_url(alloc: Global, number: u64) -> Result<Text, Memory>
    ensures { IfOk result (λ url. url ≡ spec.module_url number) }
{
    let url = format!(in alloc; "https://gen.test/m{number}.js")?;
    Ok(Text::from_string(url))
}

// The module that this one imports last.
fn last_import(start: u64, count: u64, number: u64) -> u64
    requires start { start < 2 ^ 32 }
    requires number { number < count }
    requires count { count < 2 ^ 32 }
    ensures { result ≡ spec.last_import start count number }
{
    ((start >> (number % 31)) + 5 * number) % count
}

// Whether the module awaits.
fn has_await(start: u64, number: u64) -> bool
    requires start { start < 2 ^ 32 }
    requires number { number < 2 ^ 32 }
    ensures { result ≡ spec.has_await start number }
{
    ((start >> (number % 31)) + number) % 3 == 1
}

// Adds the line that imports the module with this number.
fn add_import(alloc: Global, text: &mut String, number: u64) -> Result<(), Memory>
    ensures { OnOk result
        (string_bytes text.new ≡ string_bytes text.old ++ spec.import_line number) }
{
    let line = format!(in alloc; "import \"./m{number}.js\";\n")?;
    text.push_str(line.as_str())?;
    Ok(())
}

// Adds it where there is such a module.
fn add_import_below(alloc: Global, text: &mut String, count: u64, number: u64) -> Result<(), Memory>
    ensures { OnOk result
        (string_bytes text.new ≡ string_bytes text.old ++ spec.import_below count number) }
{
    if number < count {
        add_import(alloc, text, number)
    } else {
        Ok(())
    }
}

// Adds the line that awaits, where the module does.
fn add_await(text: &mut String, awaits: bool) -> Result<(), Memory>
    ensures { OnOk result
        (string_bytes text.new ≡ string_bytes text.old ++ spec.await_line awaits) }
{
    if awaits {
        text.push_str("await undefined;\n")?;
    }
    Ok(())
}

// Adds the line that prints the module's number.
fn add_print(alloc: Global, text: &mut String, number: u64) -> Result<(), Memory>
    ensures { OnOk result
        (string_bytes text.new ≡ string_bytes text.old ++ spec.print_line number) }
{
    let line = format!(in alloc; "print(\"{number}\");\n")?;
    text.push_str(line.as_str())?;
    Ok(())
}

/// The text of the module with this number.
pub(crate) fn module_text(
    alloc: Global,
    start: u64,
    count: u64,
    number: u64,
) -> Result<String, Memory>
    requires start { start < 2 ^ 32 }
    requires number { number < count }
    requires count { count < 2 ^ 32 }
    ensures { IfOk result (λ text. string_bytes text ≡ spec.module_text start count number) }
{
    let mut text = String::new(alloc);
    add_import_below(alloc, &mut text, count, 4 * number + 1)?;
    add_import_below(alloc, &mut text, count, 4 * number + 2)?;
    add_import_below(alloc, &mut text, count, 4 * number + 3)?;
    add_import_below(alloc, &mut text, count, 4 * number + 4)?;
    add_import(alloc, &mut text, last_import(start, count, number))?;
    add_await(&mut text, has_await(start, number))?;
    add_print(alloc, &mut text, number)?;
    Ok(text)
}

// The file of the module with this number.
fn module_file(
    alloc: Global,
    start: u32,
    count: u32,
    number: u32,
) -> Result<(Text, Vec<u8>), Memory>
    requires { number < count }
    ensures { IfOk result (λ file. file_of file ≡ spec.module_file start count number) }
{
    let number = u64::from(number);
    let url = module_url(alloc, number)?;
    let text = module_text(alloc, u64::from(start), u64::from(count), number)?;
    Ok((url, text.into_bytes()))
}

/// The files of the modules 0 to `count` - 1 that the numbers generate, in order. It answers `Memory` where memory runs
/// out.
pub fn files(alloc: Global, start: u32, count: u32) -> Result<Vec<(Text, Vec<u8>)>, Memory>
    ensures files { IfOk result (λ files. map file_of files.items ≡ spec.files_of start count) }
    ensures held { IfOk result (λ files. (url : List ℕ)
        → contents_of files.items url ≡ spec.generated_at start count url) }
{
    let mut files = Vec::new(alloc);
    for number in 0..count {
        files.push(module_file(alloc, start, count, number)?)?;
    }
    Ok(files)
}
