// How a text is held: alone, or by all of its copies together.
ghost use Rattle.std.specs.Prelude.{◌≡◌, [], IfOk, string_bytes};
ghost use Rattle.std.specs.Str.{IsUtf8};
ghost use Rattle.esm_base.specs.Held.{bytes_of};

use crate::Memory;
use std::alloc::{AllocError, Global};
use std::sync::Arc;

/// The string of a text.
#[derive(Debug, Drop)]
pub(crate) enum Held {
    /// It is this text's own: a copy of the text has a copy of it.
    Own(String),
    /// The copies of the text have the same string.
    Shared(Arc<String, Global>),
}

impl Held {
    /// The string. It doesn't allocate.
    pub(crate) fn as_str(&self) -> &str
        ensures value { result.now ≡ bytes_of self.now }
        ensures utf8 { IsUtf8 result.now }
    {
        match self {
            Held::Own(text) => text.as_str(),
            Held::Shared(text) => text.as_str(),
        }
    }

    /// A string with these bytes, which copies share.
    pub(crate) fn shared(alloc: Global, from: &str) -> Result<Held, Memory>
        ensures { IfOk result (λ held. bytes_of held ≡ from.now) }
    {
        let text = String::from_str(alloc, from)?;
        let Ok(text) = Arc::new(alloc, text) else {
            return Err(Memory);
        };
        Ok(Held::Shared(text))
    }

    /// Another holder of the string, or of a copy of it.
    pub(crate) fn copy(&self) -> Result<Held, AllocError>
        ensures { IfOk result (λ held. bytes_of held ≡ bytes_of self.now) }
    {
        match self {
            Held::Own(text) => Ok(Held::Own(text.clone()?)),
            Held::Shared(text) => Ok(Held::Shared(Arc::try_clone(text)?)),
        }
    }

    /// The string, or a copy of it where it is shared.
    pub(crate) fn into_string(self) -> Result<String, Memory>
        ensures { IfOk result (λ text. string_bytes text ≡ bytes_of self) }
    {
        match self {
            Held::Own(text) => Ok(text),
            Held::Shared(text) => {
                let shared: &String = &*text;
                Ok(shared.clone()?)
            }
        }
    }

    /// The memory of the string where it isn't shared, with nothing in it. It doesn't allocate.
    pub(crate) fn into_room(self, alloc: Global) -> String
        ensures { string_bytes result ≡ [] }
    {
        match self {
            Held::Own(text) => {
                let mut room = text;
                room.clear();
                room
            }
            Held::Shared(_text) => String::new(alloc),
        }
    }
}
