//! That the laws of equations hold. Each function here does nothing: its contract is the law.

ghost use Rattle.std.specs.Prelude.{ℕ, ◌≡◌, ◌↔◌, List, Some};
ghost use Rattle.qc_terms.specs.Tree.{Tree};
ghost use Rattle.qc_equations.specs.declared.names.Law.{Law};
ghost use Rattle.qc_equations.specs.Alike.{AreAlike};
ghost use Rattle.qc_equations.specs.Examples.{AllHold, on_comparisons, on_constants, on_literals, on_operators, on_places, on_slices};
ghost use Rattle.qc_equations.specs.Inner.WordLaws.{WordLaws};
ghost use Rattle.qc_equations.specs.Steps.{after_steps, rewritten};
ghost use Rattle.qc_equations.specs.Table.{gives};
ghost use Rattle.qc_equations.specs.Turning.{TurnsInto};

use qc_terms::typed_values_are_words;
use qc_words::laws::{
    comparisons_are_complements, comparisons_by_exclusive_or, complements_negate,
    logic_by_arithmetic, neutral_operands_change_nothing, operators_associate, operators_commute,
    slices_make_the_word, subtraction_undoes_addition,
};

/// The laws of words that equations stand on.
fn word_laws()
    ensures { WordLaws }
{
    neutral_operands_change_nothing();
    operators_commute();
    operators_associate();
    subtraction_undoes_addition();
    complements_negate();
    logic_by_arithmetic();
    comparisons_by_exclusive_or();
    comparisons_are_complements();
    slices_make_the_word();
}

/// A law gives one term for another exactly where both are the trees of its two sides over the same parts.
pub fn laws_turn_left_into_right()
    ensures { (law : Law) (t u : Tree) → (gives law t ≡ Some u) ↔ TurnsInto law t u }
{}

/// What a law gives for a term is alike to the term.
pub fn laws_keep_terms_alike()
    ensures { (law : Law) (t u : Tree) → gives law t ≡ Some u → AreAlike t u }
{
    word_laws();
    typed_values_are_words();
}

/// A law that is used at a place of a term gives a term alike, and so do laws at places one after another.
pub fn steps_keep_terms_alike()
    ensures once { (law : Law) (place : List ℕ) (t u : Tree) → rewritten law place t ≡ Some u → AreAlike t u }
    ensures chained { (steps : List (Law × List ℕ)) (t u : Tree) → after_steps steps t ≡ Some u → AreAlike t u }
{
    word_laws();
    typed_values_are_words();
}

/// Each law matches a term of its form, and none that differs from the form in one thing.
pub fn each_law_matches_its_form()
    ensures literals { AllHold on_literals }
    ensures places { AllHold on_places }
    ensures operators { AllHold on_operators }
    ensures comparisons { AllHold on_comparisons }
    ensures constants { AllHold on_constants }
    ensures slices { AllHold on_slices }
{}
