//! A fact about all trees. A caller of the function has its `ensures`; no code runs.
ghost use Rattle.std.specs.Prelude.{◌≡◌};
ghost use Rattle.qc_grammar.specs.Spelled.{AreSameTrees};
ghost use Rattle.qc_grammar.specs.Printing.{as_text};
ghost use Rattle.qc_sled.specs.declared.syntax.RawCoding.{RawCoding};
ghost use Rattle.qc_sled.specs.Sled.{sled, coding};
ghost use Rattle.qc_sled.specs.Printed.{coding_words};

/// Trees that are the same but for the numbers of tokens have the same words.
pub fn same_trees_have_the_same_words()
    ensures { (a b : RawCoding) → AreSameTrees as_text sled coding a b → coding_words a ≡ coding_words b }
{}
