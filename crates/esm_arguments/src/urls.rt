// The URLs of a command.
ghost use Rattle.std.specs.Prelude.{◌≡◌, IfOk};
ghost use Rattle.esm_arguments.specs.Commands as spec;

use esm_base::{Memory, Text, is_usable, parse_against};
use std::alloc::Global;
use url::Url;

/// The text of a URL, if it may be used.
pub(crate) fn usable_text(alloc: Global, url: Option<Url>) -> Result<Option<Text>, Memory>
    ensures { IfOk result (λ text. text ≡ spec.usable_text url) }
{
    let Some(url) = url else {
        return Ok(None);
    };
    if !is_usable(alloc, url.as_str())? {
        return Ok(None);
    }
    Ok(Some(Text::copy(alloc, url.as_str())?))
}

/// The URL of the import map, none where none is named. The outer `None` is a word that names no usable URL.
pub(crate) fn map_url(
    alloc: Global,
    base: &Url,
    word: &Option<Text>,
) -> Result<Option<Option<Text>>, Memory>
    ensures { IfOk result (λ url. url ≡ spec.map_url base.now word.now) }
{
    let Some(word) = word else {
        return Ok(Some(None));
    };
    match usable_text(alloc, parse_against(base, word.as_str())?)? {
        Some(url) => Ok(Some(Some(url))),
        None => Ok(None),
    }
}
