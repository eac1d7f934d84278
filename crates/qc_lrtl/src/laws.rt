//! A fact about all trees. A caller of the function has its `ensures`; no code runs.
ghost use Rattle.std.specs.Prelude.{◌≡◌};
ghost use Rattle.qc_grammar.specs.Spelled.{AreSameTrees};
ghost use Rattle.qc_grammar.specs.Printing.{as_text};
ghost use Rattle.qc_lrtl.specs.declared.syntax.RawMachine.{RawMachine};
ghost use Rattle.qc_lrtl.specs.LambdaRtl.{lambda_rtl, machine};
ghost use Rattle.qc_lrtl.specs.Printed.{machine_words};

/// Trees that are the same but for the numbers of tokens have the same words.
pub fn same_trees_have_the_same_words()
    ensures { (a b : RawMachine) → AreSameTrees as_text lambda_rtl machine a b → machine_words a ≡ machine_words b }
{}
