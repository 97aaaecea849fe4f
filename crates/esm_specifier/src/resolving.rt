// Resolves a specifier.
ghost use Rattle.std.specs.Prelude.{◌≡◌, true, take, IfOk, None, option_copied, Ok, Some};
ghost use Rattle.std.specs.Str.{IsCharBoundary};
ghost use Rattle.esm_base.specs.Ends.{Gives};
ghost use Rattle.url.specs.Parts.{kind_of, serialize};
ghost use Rattle.url.specs.declared.scheme.SchemeType.TheVariants.{SpecialNotFile};
ghost use Rattle.esm_base.specs.Urls.{IsCanonical, IsUsable, is_usable as is_usable_text, url_of};
ghost use Rattle.esm_specifier.specs.Resolution as spec;

use crate::fault::{SpecEnd, SpecFault};
use crate::lookup::find;
use esm_base::{MAX_URL_BYTES, Memory, Text, is_usable, parse_absolute, parse_against};
use esm_import_map::{Address, ImportMap, url_like};
use std::alloc::Global;
use url::Url;

// Whether a URL is special and no `file` URL. The parser reads the text of such a URL as that URL.
fn is_web(url: &Url) -> bool
    ensures { result ≡ true → kind_of url.now ≡ SpecialNotFile }
{
    url.is_special() && url.scheme() != "file"
}

// Whether the text of a URL may name a module. That of a web URL is canonical, and isn't parsed again.
fn names_module(alloc: Global, url: &Url) -> Result<bool, Memory>
    ensures { IfOk result (λ b. b ≡ is_usable_text (serialize url.now)) }
{
    let text = url.as_str();
    if is_web(url) {
        return Ok(text.len() <= MAX_URL_BYTES);
    }
    is_usable(alloc, text)
}

// The answer, if it may be used. Its copies take no memory: a run has each URL in many tables.
fn usable(alloc: Global, url: &Url) -> Result<Text, SpecEnd>
    ensures { Gives result (spec.usable (Ok (serialize url.now))) }
{
    if !names_module(alloc, url)? {
        return Err(SpecEnd::Fault(SpecFault::S5));
    }
    Ok(Text::shared(alloc, url.as_str())?)
}

// What the address of a key leads to.
fn follow(
    alloc: Global,
    normal: &str,
    key_len: usize,
    address: &Option<Address>,
) -> Result<Text, SpecEnd>
    requires { IsCharBoundary normal.now key_len }
    ensures { Gives result (spec.usable
        (spec.by_address normal.now (take key_len normal.now) address.now)) }
{
    let Some(address) = address else {
        return Err(SpecEnd::Fault(SpecFault::S1));
    };
    let address = address.url();
    if key_len == normal.len() {
        return usable(alloc, address);
    }
    let (_, rest) = normal.split_at(key_len);
    let Some(url) = parse_against(address, rest)? else {
        return Err(SpecEnd::Fault(SpecFault::S2));
    };
    let (text, front) = (url.as_str().as_bytes(), address.as_str().as_bytes());
    if !text.starts_with(front) {
        return Err(SpecEnd::Fault(SpecFault::S3));
    }
    usable(alloc, &url)
}

// What a specifier without a match resolves to.
fn by_itself(alloc: Global, url: Option<&Url>) -> Result<Text, SpecEnd>
    ensures { Gives result (spec.usable (spec.by_itself (option_copied url.entry))) }
{
    match url {
        Some(url) => usable(alloc, url),
        None => Err(SpecEnd::Fault(SpecFault::S4)),
    }
}

// What a specifier resolves to, before the answer is looked at: by its URL, if it is one, and its normal text.
fn resolve_normal(
    alloc: Global,
    map: &ImportMap,
    referrer: &str,
    url: Option<&Url>,
    normal: &str,
) -> Result<Text, SpecEnd>
    ensures { Gives result (spec.usable
        (spec.resolved map.now referrer.now (option_copied url.entry) normal.now)) }
{
    let prefixes = match url {
        Some(url) => url.is_special(),
        None => true,
    };
    match find(map, referrer, prefixes, normal) {
        Some(found) => follow(alloc, normal, found.key_len, found.address),
        None => by_itself(alloc, url),
    }
}

// The URL to which a specifier resolves, by the URL that the referrer's text is.
fn find_url(
    alloc: Global,
    map: &ImportMap,
    base: &Url,
    referrer: &str,
    specifier: &str,
) -> Result<Text, SpecEnd>
    requires { url_of None referrer.now ≡ Some base.now }
    ensures { Gives result (spec.resolution_of_specifier map.now referrer.now specifier.now) }
{
    match url_like(alloc, base, specifier)? {
        Some(url) => resolve_normal(alloc, map, referrer, Some(&url), url.as_str()),
        None => resolve_normal(alloc, map, referrer, None, specifier),
    }
}

/// The URL to which a specifier resolves in the module at `referrer`, whose text is parsed as `base` already, so that
/// many specifiers of one module cost one parse of its URL. Else it is `resolve`, with its answers.
///
/// HTML, "resolve a module specifier".
pub fn resolve_against(
    alloc: Global,
    map: &ImportMap,
    base: &Url,
    referrer: &str,
    specifier: &str,
) -> Result<Text, SpecEnd>
    requires { url_of None referrer.now ≡ Some base.now }
    ensures told { Gives result (spec.resolution_of_specifier map.now referrer.now specifier.now) }
    ensures usable { IfOk result IsUsable }
{
    find_url(alloc, map, base, referrer, specifier)
}

/// The URL to which a specifier resolves in the module at `referrer`: HTML's "resolve a module specifier". It is
/// refused with S1 to S5 exactly where `resolution_of_specifier` says so.
///
/// The answer is canonical and at most `MAX_URL_BYTES` long. It answers `Memory` where memory runs out.
pub fn resolve(
    alloc: Global,
    map: &ImportMap,
    referrer: &str,
    specifier: &str,
) -> Result<Text, SpecEnd>
    requires { IsCanonical referrer.now }
    ensures told { Gives result (spec.resolution_of_specifier map.now referrer.now specifier.now) }
    ensures usable { IfOk result IsUsable }
{
    let Some(base) = parse_absolute(alloc, referrer)? else {
        unreachable!()
    };
    resolve_against(alloc, map, &base, referrer, specifier)
}
