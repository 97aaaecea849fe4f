//! Laws of the definitions, each the contract of a function without effect.
ghost use Rattle.esm_ast.specs.Laws.{SpellsOneTree, HasOneFault, HasNoTreeBesideAFault, HasOneOutcome, SpellsModuleTrees, EntriesNameRequests, IsSmall};

/// A text spells at most one tree.
pub fn one_tree()
    ensures { SpellsOneTree }
{
    esm_grammar::laws::one_tree()
}

/// A text has at most one fault.
pub fn one_fault()
    ensures { HasOneFault }
{
    esm_grammar::laws::one_fault()
}

/// A text that has a fault spells no tree.
pub fn no_tree_beside_a_fault()
    ensures { HasNoTreeBesideAFault }
{
    esm_grammar::laws::no_fault()
}

/// Bytes are read as one outcome: whatever contracts see of it, the fault or the items, is determined by the bytes.
pub fn one_outcome()
    ensures { HasOneOutcome }
{
    one_tree();
    one_fault();
    no_tree_beside_a_fault();
}

/// What a text spells is a module's tree: no `return` stands outside functions, no `await` inside one, and the names that it
/// exports, and those that it declares outside functions and blocks, are UTF-8.
pub fn spelled_is_module_tree()
    ensures { SpellsModuleTrees }
{}

/// Whatever an entry of a module names as its request is one of the module's requests.
pub fn name_requests()
    ensures { EntriesNameRequests }
{}

/// A module text has at most as many items as bytes, and a module requests at most as many modules as it has items.
pub fn small()
    ensures { IsSmall }
{}
