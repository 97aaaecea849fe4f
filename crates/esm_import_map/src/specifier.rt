// The URL that a specifier is.
ghost use Rattle.std.specs.Prelude.{◌≡◌, IfOk};
ghost use Rattle.esm_import_map.specs.Specifier as spec;

use esm_base::{Memory, parse_absolute, parse_against};
use std::alloc::Global;
use url::Url;

/// Whether a text begins with `/`, `./` or `../`.
pub fn is_relative(text: &str) -> bool
    ensures { result ≡ spec.is_relative text.now }
{
    let bytes = text.as_bytes();
    bytes.starts_with(b"/") || bytes.starts_with(b"./") || bytes.starts_with(b"../")
}

/// Whether a text ends in `/`.
pub fn ends_in_slash(text: &str) -> bool
    ensures { result ≡ spec.ends_in_slash text.now }
{
    text.as_bytes().ends_with(b"/")
}

/// The URL that a specifier is, if it is URL-like: HTML's "resolve a URL-like module specifier".
pub fn url_like(alloc: Global, base: &Url, specifier: &str) -> Result<Option<Url>, Memory>
    ensures { IfOk result (λ url. url ≡ spec.url_like base.now specifier.now) }
{
    if is_relative(specifier) {
        parse_against(base, specifier)
    } else {
        parse_absolute(alloc, specifier)
    }
}
