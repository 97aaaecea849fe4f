// The names of the blocks round a place.
ghost use Rattle.std.specs.Prelude.{◌≡◌, ◌+◌, IfOk};
ghost use Rattle.std.specs.Option.{option_or};
ghost use Rattle.esm_rows.specs.Locals.{declared, names_of, place_told};
ghost use Rattle.esm_rows.specs.Rows.{found_among, found_in, found_here, many_names};

use crate::locals::Locals;
use esm_base::Memory;
use esm_values::RcText;

/// A name of a block.
#[derive(Drop)]
pub struct Local {
    /// The name.
    pub name: RcText,
    /// Whether it is a constant.
    pub constant: bool,
}

/// Where the value of a name stands.
#[derive(Clone, Copy)]
pub struct Place {
    /// Its place among the values of names.
    pub at: u32,
    /// Whether it is a constant.
    pub constant: bool,
}

/// So many, where they can be counted.
pub(crate) fn count(many: usize) -> Result<u32, Memory>
    ensures { IfOk result (λ n. n ≡ many) }
{
    match u32::try_from(many) {
        Ok(many) => Ok(many),
        Err(_) => Err(Memory),
    }
}

/// So many and as many more, where they can be counted.
fn counted(many: u32, more: usize) -> Result<u32, Memory>
    ensures { IfOk result (λ all. all ≡ many + more) }
{
    match u32::try_from(more) {
        Ok(more) => match many.checked_add(more) {
            Some(all) => Ok(all),
            None => Err(Memory),
        },
        Err(_) => Err(Memory),
    }
}

/// The first of a block with this name, where so many names stand before.
fn place_among(block: &Locals, before: u32, name: &str) -> Result<Option<Place>, Memory>
    ensures { IfOk result (λ place. place_told place
        ≡ found_among before (declared block.now) name.now) }
{
    match block.place(name) {
        Some(at) => {
            let next = counted(before, at)?;
            Ok(Some(Place {
                at: next,
                constant: block.get(at).constant,
            }))
        }
        None => Ok(None),
    }
}

/// The first of two places that there is.
fn first_of(first: Option<Place>, second: Option<Place>) -> Option<Place>
    ensures { place_told result ≡ option_or (place_told first) (place_told second) }
{
    match first {
        Some(place) => Some(place),
        None => second,
    }
}

/// The place of a name in the innermost of these blocks that has it, of which the last is the innermost.
pub(crate) fn find(blocks: &[Locals], name: &str) -> Result<Option<Place>, Memory>
    ensures { IfOk result (λ place. place_told place ≡ found_in (names_of blocks.now) name.now) }
{
    let mut found = None;
    let mut before = 0u32;
    for at in 0..blocks.len() {
        let block = &blocks[at];
        let here = place_among(block, before, name)?;
        found = first_of(here, found);
        before = counted(before, block.len())?;
    }
    Ok(found)
}

/// How many names these blocks have.
fn many_of(blocks: &[Locals]) -> Result<u32, Memory>
    ensures { IfOk result (λ many. many ≡ many_names (names_of blocks.now)) }
{
    let mut many = 0u32;
    for at in 0..blocks.len() {
        let block = &blocks[at];
        many = counted(many, block.len())?;
    }
    Ok(many)
}

/// The place of a name in the innermost of these blocks, if that has it.
pub(crate) fn find_here(blocks: &[Locals], name: &str) -> Result<Option<Place>, Memory>
    ensures { IfOk result (λ place. place_told place ≡ found_here (names_of blocks.now) name.now) }
{
    match blocks.split_last() {
        Some((inner, outer)) => {
            let before = many_of(outer)?;
            place_among(inner, before, name)
        }
        None => Ok(None),
    }
}
