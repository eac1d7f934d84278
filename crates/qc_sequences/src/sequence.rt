ghost use Rattle.std.specs.Prelude.{◌≡◌, map, All, IfOk};
ghost use Rattle.qc_terms.specs.declared.term.Place.TheVariants.{Cell};
ghost use Rattle.qc_descr.specs.Description.{context_of_description};
ghost use Rattle.qc_tiles.specs.Sound.{EffectNamesOwn, IsOwnPlace, IsSoundTile, facts_of};
ghost use Rattle.qc_derivations.specs.Machine.{assignment_of};
ghost use Rattle.qc_derivations.specs.Sequence.{own_slot, sequence_of};
ghost use Rattle.qc_sequences.specs.Inner.Homes.{home_slot};

use crate::homes::Home;
use crate::lines::tree_lines;
use qc_code::Template;
use qc_derivations::Derivation;
use qc_descr::Description;
use qc_terms::{Dest, Effect, Place};
use qc_tiles::Tile;
use std::alloc::{AllocError, Global};

/// The index of a cell that a sound tile names: it is one of the machine's frame or link.
fn index_of(descr: &Description, space: u32, index: u64) -> u32
    requires { IsOwnPlace (facts_of descr.now) (Cell space index) }
    ensures { result ≡ index }
{
    let (_, frame) = descr.frame;
    let (_, link) = descr.link;
    if u64::from(frame) == index {
        frame
    } else {
        link
    }
}

/// The register that a sound tile's first assignment to one is for: its first parameter, or a cell that it names.
fn own_home(descr: &Description, effects: &[Effect]) -> Home
    requires { All (EffectNamesOwn (facts_of descr.now)) effects.now }
    ensures { home_slot result ≡ own_slot (map assignment_of effects.now) }
{
    match effects {
        [] => Home::Param { number: 0 },
        [effect, effects @ ..] => match &effect.to {
            Dest::Reg { place } => match *place {
                Place::Operand { number, .. } => Home::Param { number },
                Place::Cell { space, index } => Home::Cell {
                    index: index_of(descr, space, index),
                },
            },
            _ => own_home(descr, effects),
        },
    }
}

/// The sequence of a derivation of the tile: children first, in order of bindings, that of a flag last of them, and then
/// the node. Scratches are numbered from 0.
#[tactic(auto, unfolding(qc_derivations::specs::Sequence::sequence_of))]
pub fn sequence_of(
    alloc: Global,
    descr: &Description,
    tile: &Tile,
    derivation: &Derivation,
) -> Result<Template, AllocError>
    requires { IsSoundTile (context_of_description descr.now) (facts_of descr.now) tile.now }
    ensures { IfOk result (λ template. template ≡ sequence_of descr.now tile.now derivation.now) }
{
    let own = own_home(descr, tile.rtl.effects.as_slice());
    let made = tree_lines(alloc, descr, derivation, own, 0)?;
    Ok(Template {
        instances: made.lines,
        scratches: made.next,
    })
}
