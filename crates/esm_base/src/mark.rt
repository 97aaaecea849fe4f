// The byte order mark in front of a text.
ghost use Rattle.std.specs.Prelude.{◌≡◌};
ghost use Rattle.esm_base.specs.Mark as marks;

/// The bytes without a byte order mark at their front (EF BB BF, once); nothing is copied.
///
/// Encoding, UTF-8 decode.
pub fn without_mark(bytes: &[u8]) -> &[u8]
    ensures { result.now ≡ marks.without_mark bytes.now }
{
    if bytes.starts_with(b"\xEF\xBB\xBF") {
        let (_, text) = bytes.split_at(3);
        text
    } else {
        bytes
    }
}
