// What tests tell, and tables of rows.
ghost use Rattle.std.specs.Thread.{IsSync};

use crate::texts::title;
use esm_base::Memory;
use std::alloc::Global;
use std::marker::Sync;
use std::sync::Wait;
use std::thread::Threads;

/// What a check tells: what is wrong, if anything is.
pub type Told = Result<(), &'static str>;

/// Tells this where it doesn't hold.
pub fn holds(found: Result<bool, Memory>, what: &'static str) -> Told {
    match found {
        Ok(true) => Ok(()),
        Ok(false) => Err(what),
        Err(Memory) => Err("memory ran out"),
    }
}

/// What is told, or `nothing`.
pub fn told_of(told: Told) -> &'static str {
    match told {
        Ok(()) => "nothing",
        Err(what) => what,
    }
}

/// Tells where a text hasn't so many lines.
pub fn has_lines(text: &str, count: usize) -> Told {
    if text.lines().count() == count {
        Ok(())
    } else {
        Err("another number of lines")
    }
}

/// A check of the rows of a table.
pub trait RowCheck {
    /// Whether a row is as it says.
    fn is_so<R: Threads + Wait + Sync>(
        &self,
        rt: &R,
        alloc: Global,
        row: &str,
    ) -> Result<bool, Memory>
        requires { IsSync R.row };
}

/// Tells the title of the first row that isn't as it says. A table that begins with `== ` has its rows with an empty line
/// between them, another one has a row a line.
pub fn rows_hold<R: Threads + Wait + Sync, C: RowCheck>(
    rt: &R,
    alloc: Global,
    check: &C,
    table: &'static str,
) -> Told {
    let gap = if table.starts_with("== ") {
        "\n\n== "
    } else {
        "\n"
    };
    let mut told = Ok(());
    for row in table.split(gap) {
        told = told.and(holds(check.is_so(rt, alloc, row), title(row)));
    }
    told
}

/// The same of several tables.
pub fn tables_hold<R: Threads + Wait + Sync, C: RowCheck>(
    rt: &R,
    alloc: Global,
    check: &C,
    tables: &[&'static str],
) -> Told {
    let mut told = Ok(());
    for table in tables {
        told = told.and(rows_hold(rt, alloc, check, table));
    }
    told
}
