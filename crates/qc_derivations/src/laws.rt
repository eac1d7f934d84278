//! Laws of derivations. Each function here does nothing: its contract is the law.

ghost use Rattle.qc_derivations.specs.Examples.{AllHold, examples_on_flags, examples_on_risc};

/// What the definitions come to on derivations of small machines, worked by hand.
pub fn examples_are_worked()
    ensures on_risc { AllHold examples_on_risc }
    ensures on_flags { AllHold examples_on_flags }
{}
