//! Laws of module texts, each the contract of a function without effect.
ghost use Rattle.esm_script.specs.Laws.{TreeOrFault};

/// Each text has a tree or a fault: any bytes spell a tree, or have a fault. By the laws of `esm_grammar` it is one
/// tree or one fault, and never both.
pub fn tree_or_fault()
    ensures { TreeOrFault }
{}
