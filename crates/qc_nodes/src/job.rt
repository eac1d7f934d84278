ghost use Rattle.std.specs.Prelude.{◌≡◌};
ghost use Rattle.qc_derivations.specs.Nodes.{is_bare, is_branch, is_single, target_of};

use qc_tiles::{Shape, Tile};

/// What all nodes of a derivation of a tile have in common: the number of the operand that is the tile's target, whether
/// the tile is a branch, one of a single instruction, or one of those that change nothing beside the goal, and how many
/// laws a node may use.
#[derive(Clone, Copy, Debug, PartialEq, Eq)]
pub struct Job {
    pub target: Option<usize>,
    pub branch: bool,
    pub single: bool,
    pub bare: bool,
    pub laws: u32,
}

/// The number of the operand that is a tile's target.
fn target_of(tile: &Tile) -> Option<usize>
    ensures { result ≡ target_of tile.now }
{
    if tile.target {
        Some(tile.registers as usize + tile.constants.as_slice().len())
    } else {
        None
    }
}

/// Whether the tile is a branch.
fn is_branch(shape: &Shape) -> bool
    ensures { result ≡ is_branch shape.now }
{
    matches!(shape, Shape::Branch { .. })
}

/// Whether derivations of the tile are one instruction.
fn is_single(shape: &Shape) -> bool
    ensures { result ≡ is_single shape.now }
{
    matches!(
        shape,
        Shape::SaveLink | Shape::LoadLink | Shape::Spill | Shape::Reload
    )
}

/// Whether this instruction changes nothing beside the goal.
fn is_bare(shape: &Shape) -> bool
    ensures { result ≡ is_bare shape.now }
{
    matches!(shape, Shape::Spill | Shape::Reload)
}

impl Job {
    ghost use Rattle.qc_nodes.specs.Tasks.{job_of};

    /// The job of a tile's derivations.
    pub fn of(tile: &Tile, laws: u32) -> Job
        ensures { result ≡ job_of tile.now laws }
    {
        let shape = tile.name.shape();
        Job {
            target: target_of(tile),
            branch: is_branch(&shape),
            single: is_single(&shape),
            bare: is_bare(&shape),
            laws,
        }
    }
}
