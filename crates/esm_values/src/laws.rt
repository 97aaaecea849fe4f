//! Laws of the definitions, each the contract of a function without effect.
ghost use Rattle.esm_values.specs.Laws.{SameIsEqual, DisplaysOne, FalsyAreThree, SumsTexts};
ghost use Rattle.esm_values.specs.Numbering.{NumbersUrls};

/// `===` holds exactly between equal values.
pub fn same_is_equal()
    ensures { SameIsEqual }
{}

/// Each value has one display text, but for a namespace, whose keys are needed.
pub fn displays_one()
    ensures { DisplaysOne }
{}

/// False are undefined, the truth value false and the empty text, and nothing else.
pub fn falsy_are_three()
    ensures { FalsyAreThree }
{}

/// A sum has a text exactly where one operand is a text and both have one.
pub fn sums_texts()
    ensures { SumsTexts }
{}

/// Distinct URLs can be numbered in order, with a number for each other URL too: number i names the i-th of them.
pub fn numbers_urls()
    ensures { NumbersUrls }
{}
