// Why a text is no import map.
use esm_base::End;

/// Why a text is no import map. The numbers are part of the printed message.
#[derive(Clone, Copy, Debug, PartialEq, Eq)]
pub enum MapFault {
    /// Longer than `MAX_FILE_BYTES`, or no JSON text.
    M1,
    /// The value isn't an object.
    M2,
    /// `imports` or `scopes` is there and isn't an object, or the value of a scope isn't.
    M3,
    /// Two kept keys of one specifier map, or two kept prefixes of scopes, become one text.
    M4,
}

/// Why an import map wasn't read.
pub type MapReadEnd = End<MapFault>;
