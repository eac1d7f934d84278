ghost use Rattle.std.specs.Prelude.{◌≡◌, IfOk, MatchResult};
ghost use Rattle.qc_descr.specs.Description.{context_of_description};
ghost use Rattle.qc_tiles.specs.Sound.{IsSoundTile, facts_of};
ghost use Rattle.qc_derivations.specs.declared.derivation.Bounds.{Bounds};
ghost use Rattle.qc_derivations.specs.Forest.{forest_of};
ghost use Rattle.qc_derivations.specs.Nodes.{task_of};
ghost use Rattle.qc_derivations.specs.Valid.{fault_of, first_fault, tile_needs};
ghost use Rattle.qc_derive.specs.Answers.{IsCheckEnd, IsChecked};
ghost use Rattle.qc_derive.specs.Inner.Walks.{fault_in};

use crate::height::is_within;
use crate::walk::{Walked, tree};
use qc_code::Template;
use qc_derivations::{Bounds, Derivation};
use qc_descr::Description;
use qc_nodes::{Job, tile_need};
use qc_sequences::sequence_of;
use qc_tiles::{Tile, TileName};
use std::alloc::{AllocError, Global};

/// The height of derivations that `check` takes.
const HEIGHT: u32 = 4;

/// The number of laws at a node that `check` takes.
const LAWS: u32 = 3;

/// Why a derivation was not checked: the number of the first node that breaks a rule, in preorder from 0, or memory is
/// wanting.
#[derive(Clone, Copy, Debug, PartialEq, Eq, Drop)]
pub enum CheckEnd {
    BadDerivation { node: u32 },
    NoMemory,
}

impl From<AllocError> for CheckEnd {
    ghost use Rattle.std.specs.Prelude.{◌≡◌};
    ghost use Rattle.qc_derive.specs.declared.checked.CheckEnd.TheVariants.{NoMemory};

    ghost from_gives = { λ _ e. e ≡ NoMemory };

    fn from(_: AllocError) -> CheckEnd {
        CheckEnd::NoMemory
    }
}

/// A valid derivation of a tile, with its sequence of instructions.
#[derive(Debug, Drop)]
pub struct Checked {
    tile: TileName,
    derivation: Derivation,
    sequence: Template,
}

impl Checked {
    ghost use Rattle.qc_derive.specs.Answers.{derivation_in, sequence_in, tile_in};

    /// The name of the tile.
    pub fn tile(&self) -> TileName
        ensures { result ≡ tile_in self.now }
    {
        self.tile
    }

    /// The derivation.
    pub fn derivation(&self) -> &Derivation
        ensures { result.now ≡ derivation_in self.now }
    {
        &self.derivation
    }

    /// The instructions of the derivation in order, children first, with slots for their operands.
    pub fn sequence(&self) -> &Template
        ensures { result.now ≡ sequence_in self.now }
    {
        &self.sequence
    }

    /// How many cells the sequence needs besides those of the tile.
    pub fn scratches(&self) -> u32
        ensures { result ≡ (sequence_in self.now).scratches }
    {
        self.sequence.scratches
    }
}

/// What a walk answers, as the number of a node that breaks a rule, if one does.
fn fault_in(walked: Walked) -> Option<u32>
    ensures { result ≡ fault_in walked }
{
    match walked {
        Walked::Fault { node } => Some(node),
        Walked::Next { .. } => None,
    }
}

/// The number of the first node that breaks a rule, if one does, in a derivation of any height.
#[tactic(auto, using(crate::proofs::Walks::fault_walked))]
fn node_fault(
    alloc: Global,
    descr: &Description,
    tile: &Tile,
    derivation: &Derivation,
    laws: u32,
) -> Result<Option<u32>, AllocError>
    requires { IsSoundTile (context_of_description descr.now) (facts_of descr.now) tile.now }
    ensures { IfOk result (λ fault. fault ≡ first_fault (task_of descr.now tile.now laws) 0 (forest_of derivation.now) (tile_needs tile.now)) }
{
    let need = tile_need(alloc, tile)?;
    let job = Job::of(tile, laws);
    let walked = tree(alloc, descr, job, &need, derivation, 0)?;
    Ok(fault_in(walked))
}

/// The number of the first node that breaks a rule, if one does: the root where the derivation is too high.
#[tactic(auto, using(crate::proofs::Walks::too_high, crate::proofs::Walks::in_bounds))]
fn fault(
    alloc: Global,
    descr: &Description,
    tile: &Tile,
    derivation: &Derivation,
    bounds: Bounds,
) -> Result<Option<u32>, AllocError>
    requires { IsSoundTile (context_of_description descr.now) (facts_of descr.now) tile.now }
    ensures { IfOk result (λ fault. fault ≡ fault_of descr.now tile.now bounds derivation.now) }
{
    if is_within(derivation, bounds.height) {
        let fault = node_fault(alloc, descr, tile, derivation, bounds.laws)?;
        Ok(fault)
    } else {
        Ok(Some(0))
    }
}

/// The derivation, if it is a valid one of the tile on the machine within the bounds.
///
/// `BadDerivation` has the first node in preorder that breaks a rule, from 0: a node comes before its children, these in
/// order of bindings, and the child of a flag last. It is the root where the derivation is higher than the bound.
pub fn check_within(
    alloc: Global,
    descr: &Description,
    tile: &Tile,
    derivation: Derivation,
    bounds: Bounds,
) -> Result<Checked, CheckEnd>
    requires { IsSoundTile (context_of_description descr.now) (facts_of descr.now) tile.now }
    ensures { MatchResult result (IsChecked descr.now tile.now bounds derivation) (IsCheckEnd descr.now tile.now bounds derivation) }
{
    let fault = fault(alloc, descr, tile, &derivation, bounds)?;
    match fault {
        Some(node) => Err(CheckEnd::BadDerivation { node }),
        None => {
            let sequence = sequence_of(alloc, descr, tile, &derivation)?;
            Ok(Checked {
                tile: tile.name,
                derivation,
                sequence,
            })
        }
    }
}

/// The derivation, if it is a valid one of the tile on the machine, of height 4 at most and with three laws at a node at
/// most. `BadDerivation` is as `check_within` says.
pub fn check(
    alloc: Global,
    descr: &Description,
    tile: &Tile,
    derivation: Derivation,
) -> Result<Checked, CheckEnd>
    requires { IsSoundTile (context_of_description descr.now) (facts_of descr.now) tile.now }
    ensures { let bounds : Bounds = record { height = 4; laws = 3 } in MatchResult result (IsChecked descr.now tile.now bounds derivation) (IsCheckEnd descr.now tile.now bounds derivation) }
{
    let bounds = Bounds {
        height: HEIGHT,
        laws: LAWS,
    };
    check_within(alloc, descr, tile, derivation, bounds)
}
