//! Laws of trees without names. Each function here does nothing: its contract is the law.

ghost use Rattle.std.specs.Prelude.{◌≡◌, [], List, map};
ghost use Rattle.qc_lrtl.specs.declared.syntax.Effect as written;
ghost use Rattle.qc_lrtl.specs.declared.syntax.Item as text;
ghost use Rattle.qc_lrtl.specs.declared.syntax.Operand as wanted;
ghost use Rattle.qc_facts.specs.Facts as known;
ghost use Rattle.qc_resolve.specs.Declarations as declared;
ghost use Rattle.qc_resolve.specs.Effects as acting;
ghost use Rattle.qc_bodies.specs.Meanings.{all_done, meanings};
ghost use Rattle.qc_named.specs.ResolvedEffects.{acts_of, bodies_in};
ghost use Rattle.qc_named.specs.Standing.{own_operands, standing_for};
ghost use Rattle.qc_named.specs.Terms.{act_done, terms};

/// What an instruction does where its names are looked up at each use, its tree without names does, whose names were looked
/// up once: the same effects, with the same clashes of widths.
#[tactic(auto, using(crate::specs::Law::TwoPasses::same_instruction))]
pub fn two_passes()
    ensures { (facts : known.Facts) (items : List text.Item) (operands : List wanted.Operand)
        (body : List written.Effect) →
        acting.acts_of (declared.scope_for facts (declared.meanings_in facts items)
        (declared.bound_operands facts 0 operands)) body
        ≡ map (act_done facts.word) (all_done (terms facts.word) (meanings (terms facts.word) (bodies_in facts items))
        [] [] []
        (acts_of (standing_for facts (declared.signatures_in facts items) (own_operands facts operands)) body)) }
{}
