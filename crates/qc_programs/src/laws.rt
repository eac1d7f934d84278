//! Facts about runs. A caller of one of these functions has its `ensures`; no code runs.
ghost use Rattle.std.specs.Prelude.{◌≡◌, ◌≤◌, ℕ, List, length, Option, Some};
ghost use Rattle.qc_cmm.specs.declared.syntax.Program.{Program};
ghost use Rattle.qc_terms.specs.declared.state.Event.{Event};
ghost use Rattle.qc_terms.specs.Observation.{Below};
ghost use Rattle.qc_cmmtype.specs.declared.scope.Ground.{Ground};
ghost use Rattle.qc_cmmtype.specs.Measures.{procedures_of};
ghost use Rattle.qc_programs.specs.Resolved.{bodies_of};
ghost use Rattle.qc_programs.specs.Examples.{Examples};
ghost use Rattle.qc_programs.specs.Steps.{Bodies, Standing, shown_after, step};

/// A state that has ended stays as it is.
pub fn ended_runs_stay()
    ensures { (g : Ground) (program : Bodies) (depth : ℕ) (s : Standing) (event : Event) → s.ending ≡ Some event →
        step g program depth s ≡ s }
{}

/// What a program shows after more steps is what it showed before, or goes on with that.
pub fn runs_show_more()
    ensures { (g : Ground) (program : Bodies) (depth : ℕ) (input : List ℕ) (m n : ℕ) → m ≤ n →
        Below (shown_after g program depth input m) (shown_after g program depth input n) }
{}

/// A program has a body for each of its procedures, in their order.
pub fn procedures_have_bodies()
    ensures { (g : Ground) (program : Program) →
        length (bodies_of g program).procedures ≡ length (procedures_of program) }
{}

/// Worked examples of the definitions.
pub fn runs_are_worked()
    ensures { Examples }
{}
