// Parts of a text whose characters are at hand.
ghost use Rattle.std.specs.Prelude.{◌≡◌, ◌≤◌, length, take, drop, encode_utf8_all};
ghost use Rattle.esm_grammar.specs.Lexes.{widths};

// How many bytes the characters take.
fn width(text: &[char]) -> usize
    ensures { result ≡ widths text.now }
{
    let mut n = 0;
    for c in text {
        n += c.len_utf8();
    }
    n
}

/// The first characters of a text, and those behind them.
pub(crate) fn front<'a>(source: &'a str, text: &[char], n: usize) -> (&'a str, &'a str)
    requires within { n ≤ length text.now }
    requires source { source.now ≡ encode_utf8_all text.now }
    ensures first { result.0.now ≡ encode_utf8_all (take n text.now) }
    ensures behind { result.1.now ≡ encode_utf8_all (drop n text.now) }
{
    let end = width(&text[..n]);
    (&source[..end], &source[end..])
}
