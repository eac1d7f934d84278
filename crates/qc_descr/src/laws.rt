//! Facts about all descriptions. A caller of one of these functions has its `ensures`; no code runs.
ghost use Rattle.std.specs.Prelude.{◌≡◌, ℕ, ◌<◌, ◌≤◌, List, [], ◌∷◌, length, None, Some, slice_get, slice_index, IsTrue};
ghost use Rattle.std.specs.List.{list_any};
ghost use Rattle.qc_terms.specs.declared.state.State.{State};
ghost use Rattle.qc_terms.specs.Effects.{Outcome};
ghost use Rattle.qc_terms.specs.Observation.{ending_of};
ghost use Rattle.qc_descr.specs.declared.coding.Bit.TheVariants.{Piece};
ghost use Rattle.qc_descr.specs.declared.description.Description.{Description};
ghost use Rattle.qc_descr.specs.declared.description.Instruction.{Instruction};
ghost use Rattle.qc_descr.specs.Coding.{is_piece, memory_bytes};
ghost use Rattle.qc_descr.specs.Encoding.{IsCodedBy};
ghost use Rattle.qc_descr.specs.Example.{branch};
ghost use Rattle.qc_descr.specs.declared.sketch.Parts.{Parts};
ghost use Rattle.qc_descr.specs.Complete.{AreComplete};
ghost use Rattle.qc_descr.specs.Making.{AreWholeParts, description_of, fault_of};
ghost use Rattle.qc_descr.specs.Step.{OneInstance, Progress, RunsTo, Steps};
ghost use Rattle.qc_descr.specs.Valid.{IsCovered, IsValid};

use qc_terms::events_tell_endings;

/// Each bit of each operand stands in one of the instruction's bytes in memory, but for the lowest ones that are dropped.
pub fn pieces_stand()
    ensures { (d : Description) (i : Instruction) (covered : IsCovered d i) (operand bit : ℕ) →
        operand < length covered.sizes → slice_index covered.dropped operand ≤ bit →
        bit < slice_index covered.sizes operand →
        IsTrue (list_any (list_any (is_piece operand bit)) (memory_bytes d.facts.order i.coding)) }
{}

/// No bit of an operand stands in two places of a coding, and none that is dropped stands in any.
pub fn operands_have_one_place()
    ensures one { (d : Description) (i : Instruction) → IsCovered d i → (m n operand bit : ℕ) →
        slice_get i.coding.bits m ≡ Some (Piece operand bit) → slice_get i.coding.bits n ≡ Some (Piece operand bit) → m ≡ n }
    ensures kept { (d : Description) (i : Instruction) (covered : IsCovered d i) (place operand bit : ℕ) →
        slice_get i.coding.bits place ≡ Some (Piece operand bit) → slice_index covered.dropped operand ≤ bit }
{}

/// At most one instance encodes to a prefix of the memory from an address.
pub fn one_instance()
    ensures { OneInstance }
{}

/// A step has at most one outcome.
pub fn one_outcome()
    ensures { (d : Description) (s : State) (o p : Outcome) → IsValid d → Steps d s o → Steps d s p → o ≡ p }
{}

/// A step has an outcome.
pub fn some_outcome()
    ensures { (d : Description) (s : State) → (o : Outcome) × Steps d s o }
{}

/// The event of a step of a running machine tells whether the machine ends with it, and how.
pub fn step_tells_ending()
    ensures { (d : Description) (s : State) (o : Outcome) → IsValid d → s.ending ≡ None → Steps d s o →
        o.state.ending ≡ ending_of o.event }
{
    events_tell_endings();
}

/// A run has at most one state and output after a number of steps.
pub fn one_run()
    ensures { (d : Description) (s : State) (steps : ℕ) (p q : Progress) → IsValid d → RunsTo d s steps p →
        RunsTo d s steps q → p ≡ q }
{}

/// A run has a state and an output after each number of steps.
pub fn some_run()
    ensures { (d : Description) (s : State) (steps : ℕ) → (p : Progress) × RunsTo d s steps p }
{}

/// A branch, by hand: it is a valid coding, it has these bytes where it goes 8 bytes forward or back, and none where it
/// would go too far or to an address that its dropped bits can't tell.
pub fn example_of_branch()
    ensures covered { (d : Description) → 6 ≤ d.facts.word → IsCovered d branch }
    ensures forward { (d : Description) → 8 ≤ d.facts.word → IsCodedBy d branch 100 (108 ∷ []) (0x25 ∷ []) }
    ensures back { (d : Description) → 8 ≤ d.facts.word → IsCodedBy d branch 100 (92 ∷ []) (0xE5 ∷ []) }
    ensures too_far { (d : Description) (bytes : List ℕ) → IsCodedBy d branch 100 (132 ∷ []) bytes → ⊥ }
    ensures unaligned { (d : Description) (bytes : List ℕ) → IsCodedBy d branch 100 (109 ∷ []) bytes → ⊥ }
{}

/// The description of parts without a fault is valid.
pub fn descriptions_are_valid()
    ensures { (p : Parts) → AreWholeParts p → fault_of p ≡ None → IsValid (description_of p) }
{}

/// Parts that leave nothing open have no fault where the description that they would make is valid.
pub fn valid_parts_have_no_fault()
    ensures { (p : Parts) → AreWholeParts p → AreComplete p → IsValid (description_of p) → fault_of p ≡ None }
{}
