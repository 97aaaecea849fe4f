// What tests tell, rows of tables, and import maps of texts.
use esm_base::Memory;
use esm_import_map::{ImportMap, MapFault, MapReadEnd};
use std::alloc::Global;
use url::Url;

/// What a check tells: what is wrong, if anything is.
pub type Told = Result<(), &'static str>;

/// Tells this where it doesn't hold.
pub fn holds(found: Result<bool, Memory>, what: &'static str) -> Told {
    match found {
        Ok(true) => Ok(()),
        Ok(false) => Err(what),
        Err(Memory) => Err("memory ran out"),
    }
}

/// A check of the rows of a table.
pub trait RowCheck {
    /// Whether a row is as it says.
    fn is_so(&self, alloc: Global, row: &str) -> Result<bool, Memory>;
}

/// Tells the first row that isn't as it says.
pub fn rows_hold<C: RowCheck>(alloc: Global, check: &C, table: &'static str) -> Told {
    let mut told = Ok(());
    for row in table.lines() {
        told = told.and(holds(check.is_so(alloc, row), row));
    }
    told
}

// The name of what is wrong with a text.
fn fault_name(end: MapReadEnd) -> &'static str {
    match end {
        MapReadEnd::Fault(MapFault::M1) => "M1",
        MapReadEnd::Fault(MapFault::M2) => "M2",
        MapReadEnd::Fault(MapFault::M3) => "M3",
        MapReadEnd::Fault(MapFault::M4) => "M4",
        MapReadEnd::Memory => "Memory",
    }
}

/// The import map that a text says in the document at this URL, or the name of the text's fault.
pub fn read_map(alloc: Global, text: &[u8], base: &str) -> Result<ImportMap, &'static str> {
    match Url::parse(alloc, base) {
        Ok(base) => match ImportMap::read(alloc, text, &base) {
            Ok(map) => Ok(map),
            Err(end) => Err(fault_name(end)),
        },
        Err(_refused) => Err("no URL"),
    }
}

/// Of a row `WORD |TEXT|` the word and the text.
pub fn row_parts(row: &str) -> Option<(&str, &str)> {
    let (word, text) = row.split_once(" |")?;
    let text = text.strip_suffix('|')?;
    Some((word, text))
}

/// A number; one that is no module, no length and no depth of a table where the text is none.
pub fn number(text: &str) -> u32 {
    match text.parse::<u32>() {
        Ok(number) => number,
        Err(_refused) => u32::MAX,
    }
}
