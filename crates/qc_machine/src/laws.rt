//! Facts about the definitions. A caller of one of these functions has its `ensures`; no code runs.
ghost use Rattle.std.specs.Prelude.{◌≡◌, ℕ, List};
ghost use Rattle.qc_machine.specs.InputFile.{IsBadInput, IsInput};

use qc_text::{one_bad_byte, one_token_list};

/// A file is the input of one list of words at most.
pub fn one_input()
    ensures { (word : ℕ) (bytes words others : List ℕ) → IsInput word bytes words → IsInput word bytes others →
        words ≡ others }
{
    one_token_list();
}

/// A file is bad at one place at most.
pub fn one_bad_input()
    ensures { (word : ℕ) (bytes : List ℕ) (a b : ℕ) → IsBadInput word bytes a → IsBadInput word bytes b → a ≡ b }
{
    one_token_list();
    one_bad_byte();
}

/// The file of an input is not bad.
pub fn input_is_not_bad()
    ensures { (word : ℕ) (bytes words : List ℕ) (at : ℕ) → IsInput word bytes words → IsBadInput word bytes at → ⊥ }
{
    one_token_list();
    one_bad_byte();
}
