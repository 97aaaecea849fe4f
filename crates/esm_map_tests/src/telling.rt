// What tests tell.
use esm_base::Memory;

/// What a check tells: what is wrong, if anything is.
pub type Told = Result<(), &'static str>;

/// What is told where memory runs out.
pub const SHORT: &str = "memory ran out";

/// What is told, also where memory ran out before.
pub fn told_of(found: Result<Told, Memory>) -> Told {
    match found {
        Ok(told) => told,
        Err(Memory) => Err(SHORT),
    }
}

/// Tells this where it doesn't hold.
pub fn holds(found: bool, what: &'static str) -> Told {
    if found { Ok(()) } else { Err(what) }
}
