//! Facts about the definitions. A caller of one of these functions has its `ensures`; no code runs.
ghost use Rattle.std.specs.Prelude.{◌≡◌, ◌≤◌, ◌*◌, ◌↔◌, ℕ, suc, Bool, List, Option, Some, length, slice_get};
ghost use Rattle.qc_tiles.specs.declared.name.TileName.{TileName};
ghost use Rattle.qc_meaning.specs.declared.lines.TileCode.{TileCode};
ghost use Rattle.qc_meaning.specs.declared.lines.TileLine.{TileLine};
ghost use Rattle.qc_meaning.specs.declared.lines.TileLine.TheVariants as tile_line;
ghost use Rattle.qc_meaning.specs.Kept.{DoesOne, IsCode, IsPlacedCode, IsTileCode, IsTileInst};
ghost use Rattle.qc_meaning.specs.Kinds.{flat_code, flat_placed};
ghost use Rattle.qc_descr.specs.declared.description.Description.{Description};
ghost use Rattle.qc_descr.specs.Valid.{IsValid};
ghost use Rattle.qc_code.specs.declared.templates.Templates.{Templates};
ghost use Rattle.qc_meaning.specs.declared.lines.Code.{Code};
ghost use Rattle.qc_meaning.specs.declared.lines.Placed.{Placed};
ghost use Rattle.qc_meaning.specs.Homed.{IsHomed};
ghost use Rattle.qc_runs.specs.Automaton.{IsBefore, after, before};
ghost use Rattle.qc_meaning.specs.Code.{Flat, Standing};
ghost use Rattle.qc_meaning.specs.Examples.{CodeExamples};
ghost use Rattle.qc_meaning.specs.Runs.{Data, code_run};
ghost use Rattle.qc_meaning.specs.MachineRuns.{IsRunFrom, StandsAtThese, machine_run};
ghost use Rattle.qc_descr.specs.Step.{Progress};
ghost use Rattle.qc_terms.specs.declared.state.State.{State};
ghost use Rattle.qc_meaning.specs.Tame.{IsTame, MeanTheSame, most_steps};

/// Code that is tame means the same at all placings of its lines: for every input, two runs of it, at two placings, show the
/// same before each turn.
pub fn tame_code_means_the_same()
    ensures { (d : Description) → IsValid d → (x : Flat) (homes : Bool) (frame : ℕ) → IsTame d x homes frame → MeanTheSame d x x }
{}

/// Before each turn of a run of code stands exactly one state, the one that is computed with as many steps between two turns as
/// the code has lines, and one more.
pub fn one_state_before_a_turn()
    ensures { (d : Description) (x : Flat) (at : ℕ → ℕ) (s u : ℕ × Data) (t : ℕ) →
        IsBefore (code_run d x at) s t u ↔ (u ≡ before (code_run d x at) (most_steps x) s t) }
{}

/// The state before turn t + 1 of a run of code is reached within t + 1 times its lines, and t + 1 steps more.
pub fn turns_come_in_time()
    ensures { (d : Description) (x : Flat) (at : ℕ → ℕ) (s u : ℕ × Data) (t : ℕ) → IsBefore (code_run d x at) s t u →
        (n : ℕ) × (n ≤ suc t * most_steps x) × (u ≡ after (code_run d x at) n s) }
{}

/// The state of a described machine before turn t + 1 of its run is reached within t + 1 times as many steps as there are
/// instructions, where those are all that it stands at.
pub fn machines_turn_in_time()
    ensures { (d : Description) (s : State) (run : ℕ → Progress) (starts : List ℕ) → IsRunFrom d s run → StandsAtThese run starts →
        (t u : ℕ) → IsBefore (machine_run run) 0 t u → u ≤ suc t * length starts }
{}

/// Worked examples of the definitions.
pub fn examples_of_code()
    ensures { CodeExamples }
{}

/// Homed code has the frames of the code that it is made of, and a procedure for each of its procedures.
pub fn homed_code_has_the_procedures()
    ensures { (d : Description) (templates : Templates) (x : Code) (q : Placed) → IsHomed d templates x q →
        (q.frame ≡ x.frame) × (length q.procedures ≡ length x.procedures) }
{}

/// The machine invariant: each line of code of instructions, and of placed code, does what one instruction of the description
/// does.
pub fn code_keeps_the_machine_invariant()
    ensures code { (d : Description) (x : Code) → IsCode d x → (k : ℕ) (s : Standing) →
        slice_get (flat_code d x).lines k ≡ Some s → DoesOne d s.line }
    ensures placed { (d : Description) (x : Placed) → IsPlacedCode d x → (k : ℕ) (s : Standing) →
        slice_get (flat_placed d x).lines k ≡ Some s → DoesOne d s.line }
    ensures tiles { (d : Description) (x : TileCode) (tile : TileName) (registers constants : List ℕ) (target : Option ℕ) →
        IsTileCode d x → (i k : ℕ) (lines : List TileLine) → slice_get x.procedures i ≡ Some lines →
        slice_get lines k ≡ Some (tile_line.Inst tile registers constants target) → IsTileInst d tile registers constants target }
{}
