//! Laws of the definitions, each the contract of a function without effect.
ghost use Rattle.std.specs.Prelude.{List};
ghost use Rattle.esm_tree.specs.Syntax.{Expr};
ghost use Rattle.esm_rows.specs.Making.{TablesGrow, TasksMake};
ghost use Rattle.esm_rows.specs.Rows.{Names};

/// What is told by a table stays told where texts are added.
pub fn tables_grow()
    ensures { TablesGrow }
{}

/// What is still to be put in front of a row makes the rows of the parts that it stands for.
pub fn tasks_make()
    ensures { (names : Names) (exprs : List Expr) → TasksMake names exprs }
{}
