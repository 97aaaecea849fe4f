//! Laws of the definitions, each the contract of a function without effect.
ghost use Rattle.esm_row_laws.specs.Laws.{PartsRewrite, Settles, Tells};
ghost use Rattle.esm_row_laws.specs.Operations.{OperationsPass};
ghost use Rattle.esm_row_laws.specs.Beginnings.{StatementsBegin};
ghost use Rattle.esm_row_laws.specs.Places.{NamesHavePlaces};
ghost use Rattle.esm_row_laws.specs.Landings.{ThrowsLand, FunctionsEnd};
ghost use Rattle.esm_row_laws.specs.Callings.{CallsLead};
ghost use Rattle.esm_row_laws.specs.Moving.{PartsMove, NamesRead};
ghost use Rattle.esm_row_laws.specs.Setting.{NamesSet};
ghost use Rattle.esm_row_laws.specs.Writing.{OthersWritten};
ghost use Rattle.esm_row_laws.specs.Endings.{RowsEnd};
ghost use Rattle.esm_values.specs.Code.{numbered};

/// Modules, and how `import()` begins.
pub trait Imports {
    ghost use Rattle.std.specs.Prelude.{ℕ};
    ghost use Rattle.esm_env.specs.Modules.{Modules};
    ghost use Rattle.esm_rewriting.specs.State.{Importing};

    /// What import() reads and writes.
    ghost Seen: { Type 0 };

    /// The modules that are there.
    ghost modules: { Seen → Modules ℕ };
    /// How import() begins.
    ghost begins: { Importing ℕ Seen };
}

/// A rewriting of a part is one of what it stands in.
pub fn parts_rewrite<I: Imports>()
    ensures { PartsRewrite I.modules I.begins }
{}

/// Each place has the row of one whose first operation is its own, and what remains there leads to what remains at that one.
pub fn settles<I: Imports>()
    ensures { Settles I.modules I.begins }
{}

/// The first operation of a place, where it is its own, tells which place it is.
pub fn tells()
    ensures { Tells }
{}

/// What remains behind an operation that asks nothing of the world is what remains before it, rewritten.
pub fn operations_pass<I: Imports>()
    ensures { OperationsPass I.modules I.begins }
{}

/// A statement takes its step, and leads to a place with the operations behind its step.
pub fn statements_begin<I: Imports>()
    ensures { StatementsBegin I.modules I.begins }
{}

/// A name that is found is that of the cell at its place; of another name there is no cell.
pub fn names_have_places()
    ensures { NamesHavePlaces numbered }
{}

/// A throw leads to the innermost handler of the function, or into its caller, and a handler begins.
pub fn throws_land<I: Imports>()
    ensures { ThrowsLand I.modules I.begins }
{}

/// A function that returns a value, or is at its end, gives it to its caller.
pub fn functions_end<I: Imports>()
    ensures { FunctionsEnd I.modules I.begins }
{}

/// A call leads to the function, and what stands for it is given to its caller.
pub fn calls_lead<I: Imports>()
    ensures { CallsLead I.modules I.begins }
{}

/// A part that is rewritten goes on, throws, or stops, and so does what it stands in.
pub fn parts_move<I: Imports>()
    ensures { PartsMove I.modules I.begins }
{}

/// A name of a function reads as its value, and another one as its module's.
pub fn names_read<I: Imports>()
    ensures { NamesRead I.modules I.begins }
{}

/// A declaration sets its name at its place, and an assignment writes it, or throws.
pub fn names_set<I: Imports>()
    ensures { NamesSet I.modules I.begins }
{}

/// An assignment of a name that no block of the function declares is its module's.
pub fn others_written<I: Imports>()
    ensures { OthersWritten I.modules I.begins }
{}

/// A row ends with the row behind it, so a jump leads into the same row.
pub fn rows_end()
    ensures { RowsEnd }
{}
