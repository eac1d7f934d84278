//! Laws of terms and of memory. Each function here does nothing: its contract is the law.

ghost use Rattle.std.specs.Prelude.{ℕ, ◌≡◌, ◌+◌, ◌<◌, ◌≤◌, ◌%◌, ◌^◌, List, [], length, IfSome, None, Some};
ghost use Rattle.qc_terms.specs.declared.state.Order.{Order};
ghost use Rattle.qc_terms.specs.declared.state.State.{State};
ghost use Rattle.qc_terms.specs.declared.term.Rtl.{Rtl};
ghost use Rattle.qc_terms.specs.Clashes.{clashes_of};
ghost use Rattle.qc_terms.specs.Effects.{outcome_of};
ghost use Rattle.qc_terms.specs.Memory.{load_of, store_of};
ghost use Rattle.qc_terms.specs.Observation.{ending_of};
ghost use Rattle.qc_terms.specs.State.{Context, IsState, context_of};
ghost use Rattle.qc_terms.specs.Tree.{Tree, width_of};
ghost use Rattle.qc_terms.specs.Typing.{HasOneEvent, IsTyped, OperandsFit};
ghost use Rattle.qc_terms.specs.Value.{value_of};

/// A typed term has no clash of widths.
pub fn typed_terms_have_no_clash()
    ensures { (context : Context) (t : Tree) → IsTyped context t → clashes_of t ≡ [] }
{}

/// The value of a typed term, where it has one, is a word of the term's width: in a state that keeps its rule, with
/// operands that fit and a word after the instruction. Where the input has been read whole, its next word reads as 0.
pub fn typed_values_are_words()
    ensures { (s : State) (operands : List ℕ) (after : ℕ) → IsState s → after < 2 ^ s.facts.word → (t : Tree) →
        IsTyped (context_of s) t → OperandsFit (context_of s) operands t →
        IfSome (value_of t operands after s) (λ v. v < 2 ^ width_of t) }
{}

/// A word that is stored is loaded again, as far as it fits its bytes.
pub fn stored_words_are_loaded()
    ensures { (order : Order) (memory : List ℕ) (count address word : ℕ) → address + count ≤ length memory →
        load_of order (store_of order memory count address word) count address ≡ Some (word % 256 ^ count) }
{}

/// The event of a list that shows one thing at most tells how the run of a running machine ends, if it does.
pub fn events_tell_endings()
    ensures { (rtl : Rtl) (operands : List ℕ) (after : ℕ) (s : State) → HasOneEvent rtl → s.ending ≡ None →
        (outcome_of rtl operands after s).state.ending ≡ ending_of (outcome_of rtl operands after s).event }
{}
