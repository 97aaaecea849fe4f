//! Laws of the definitions, each the contract of a function without effect.
ghost use Rattle.esm_gen.specs.Laws.{NamesEntry, HaveOneUrlEach, NamesModules, ImportsModules, QuotesSpecifiers, HasModules, HasNothingElse};

/// The name of the entry, read against the base, is the URL of the module with the number 0.
pub fn names_entry()
    ensures { NamesEntry }
{}

/// No two files have one URL, where there are fewer than 2^32.
pub fn have_one_url_each()
    ensures { HaveOneUrlEach }
{}

/// The URL of each module with a number below 2^32 may name a module.
pub fn names_modules()
    ensures { NamesModules }
{}

/// Each import names a specifier between quotes, which, read against the URL of any module, is the URL of the module with
/// its number, below 2^32.
pub fn imports_modules()
    ensures quoted { QuotesSpecifiers }
    ensures named { ImportsModules }
{}

/// At the URL of each module stands its text, where there are fewer than 2^32.
pub fn has_modules()
    ensures { HasModules }
{}

/// Nothing stands at a URL that is no module's.
pub fn has_nothing_else()
    ensures { HasNothingElse }
{}
