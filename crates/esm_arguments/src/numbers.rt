// Reads decimal numbers.
ghost use Rattle.std.specs.Prelude.{◌≡◌, ◌≤◌, IfSome};
ghost use Rattle.esm_arguments.specs.Numbers as spec;

// The number that the digits are behind those that are `front`, where it is at most `most`. It calls itself once for
// each digit.
#[tactic(auto, using(crate::proofs::Words::too_large))]
fn number_on(front: usize, digits: &[u8], most: usize) -> Option<usize>
    requires front { front ≤ most }
    requires most { most ≤ 2147483647 }
    ensures value { result ≡ spec.within most (spec.number_on front digits.now) }
    ensures small { IfSome result (λ n. n ≤ most) }
{
    match digits {
        [] => Some(front),
        [digit, rest @ ..] => {
            if *digit < b'0' || b'9' < *digit {
                return None;
            }
            let front = 10 * front + usize::from(*digit - b'0');
            if front > most {
                return None;
            }
            number_on(front, rest, most)
        }
    }
}

/// The number that a word is, where it is at most `most`: decimal digits without a leading 0.
#[tactic(auto, using(crate::proofs::Words::too_large))]
pub(crate) fn number_of(word: &str, most: usize) -> Option<usize>
    requires { most ≤ 2147483647 }
    ensures value { result ≡ spec.within most (spec.number_of word.now) }
    ensures small { IfSome result (λ n. n ≤ most) }
{
    match word.as_bytes() {
        [] => None,
        [digit, rest @ ..] => {
            if *digit < b'1' || b'9' < *digit {
                return None;
            }
            let front = usize::from(*digit - b'0');
            if front > most {
                return None;
            }
            number_on(front, rest, most)
        }
    }
}
