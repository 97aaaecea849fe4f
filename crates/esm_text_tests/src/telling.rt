// What tests tell.
use std::alloc::AllocError;

/// What a check tells: what is wrong, if anything is.
pub type Told = Result<(), &'static str>;

/// Tells this where it doesn't hold.
pub fn holds(found: Result<bool, AllocError>, what: &'static str) -> Told {
    match found {
        Ok(true) => Ok(()),
        Ok(false) => Err(what),
        Err(AllocError) => Err("memory ran out"),
    }
}

/// Tells the row that is wrong, if one is.
pub fn none(wrong: Result<Option<&'static str>, AllocError>) -> Told {
    match wrong {
        Ok(None) => Ok(()),
        Ok(Some(row)) => Err(row),
        Err(AllocError) => Err("memory ran out"),
    }
}

/// Tells where a table hasn't so many rows.
pub fn has_rows(found: usize, count: usize) -> Told {
    if found == count {
        Ok(())
    } else {
        Err("another number of rows")
    }
}
