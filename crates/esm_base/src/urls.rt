// URLs as texts: which texts are URLs, and which of them may name a module.
ghost use Rattle.std.specs.Prelude.{◌≡◌, IfOk, None, Some};
ghost use Rattle.esm_base.specs.Urls as spec;

use crate::{MAX_URL_BYTES, Memory};
use std::alloc::Global;
use url::{ParseError, Url};

/// The URL that a text is without a base, if it is one. It answers `Memory` where memory runs out.
///
/// URL Standard, URL parser.
pub fn parse_absolute(alloc: Global, text: &str) -> Result<Option<Url>, Memory>
    ensures { IfOk result (λ url. url ≡ spec.url_of None text.now) }
{
    match Url::parse(alloc, text) {
        Ok(url) => Ok(Some(url)),
        Err(ParseError::OutOfMemory | ParseError::Overflow) => Err(Memory),
        Err(_) => Ok(None),
    }
}

/// The URL that a text is against a base, if it is one. It answers `Memory` where memory runs out.
///
/// URL Standard, URL parser.
pub fn parse_against(base: &Url, text: &str) -> Result<Option<Url>, Memory>
    ensures { IfOk result (λ url. url ≡ spec.url_of (Some base.now) text.now) }
{
    match base.join(text) {
        Ok(url) => Ok(Some(url)),
        Err(ParseError::OutOfMemory | ParseError::Overflow) => Err(Memory),
        Err(_) => Ok(None),
    }
}

/// Whether a text is canonical: the URL parser reads it without a base, and the URL that it is serializes to the
/// same text. It answers `Memory` where memory runs out.
pub fn is_canonical(alloc: Global, text: &str) -> Result<bool, Memory>
    ensures { IfOk result (λ b. b ≡ spec.is_canonical text.now) }
{
    match parse_absolute(alloc, text)? {
        Some(url) => Ok(url.as_str() == text),
        None => Ok(false),
    }
}

/// Whether a text may name a module: it is canonical and at most `MAX_URL_BYTES` long. It answers `Memory` where
/// memory runs out.
pub fn is_usable(alloc: Global, text: &str) -> Result<bool, Memory>
    ensures { IfOk result (λ b. b ≡ spec.is_usable text.now) }
{
    if text.len() > MAX_URL_BYTES {
        return Ok(false);
    }
    is_canonical(alloc, text)
}
