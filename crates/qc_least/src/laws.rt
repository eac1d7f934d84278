//! Laws of least counts. Each function here does nothing: its contract is the law.

ghost use Rattle.std.specs.Prelude.{ℕ, ◌≡◌, ◌≤◌, List, [], ◌∷◌, Option, None, Some};
ghost use Rattle.qc_descr.specs.declared.description.Description.{Description};
ghost use Rattle.qc_tiles.specs.declared.tile.Tile.{Tile};
ghost use Rattle.qc_derivations.specs.declared.derivation.Bounds.{Bounds};
ghost use Rattle.qc_derivations.specs.Goals.{AsTile, Need};
ghost use Rattle.qc_derivations.specs.Machine.{assignments_of};
ghost use Rattle.qc_derivations.specs.Nodes.{Task, task_of};
ghost use Rattle.qc_derivations.specs.Valid.{tile_needs};
ghost use Rattle.qc_least.specs.Choices.{AreChoices, HasSelection, least_of, least_selection, least_sum};
ghost use Rattle.qc_least.specs.Least.{HasCount, HasDerivation, IsLeast};
ghost use Rattle.qc_least.specs.Limits.{limited_of, within};

/// Where all choices are listed, the least count of trees for needs is the sum of the least ones for each of them, and that
/// for one need is one more than the least sum over its choices.
pub fn least_counts_are_a_recursion()
    ensures one { (task : Task) (choices : Need → List (List Need)) → AreChoices task choices → (height : ℕ) (need : Need) → IsLeast (HasCount task height (need ∷ [])) (least_of choices height need) }
    ensures all { (task : Task) (choices : Need → List (List Need)) → AreChoices task choices → (height : ℕ) (needs : List Need) → IsLeast (HasCount task height needs) (least_sum (least_of choices height) needs) }
{}

/// Where each of some needs can be chosen from a list of alternatives, of which some need nothing, the least count over all
/// selections is the sum of the least alternatives.
pub fn least_selections_are_sums()
    ensures { (task : Task) (height : ℕ) (least : Need → Option ℕ) → ((need : Need) → IsLeast (HasCount task height (need ∷ [])) (least need)) → (options : List (List (Option Need))) → IsLeast (HasSelection task height options) (least_selection least options) }
{}

/// Trees are no higher than they have nodes. So a count within a height is one within the count itself, and a count within a
/// height is one within each greater height.
pub fn counts_bound_heights()
    ensures bound { (task : Task) (height : ℕ) (needs : List Need) (count : ℕ) → HasCount task height needs count → HasCount task count needs count }
    ensures grows { (task : Task) (height more : ℕ) (needs : List Need) (count : ℕ) → height ≤ more → HasCount task height needs count → HasCount task more needs count }
{}

/// A search that never looks beyond a limit finds the least count exactly where that is no more than the limit: so limits
/// of 1, 2 and so on find it first at the least count itself.
pub fn limits_cut_least_counts()
    ensures { (choices : Need → List (List Need)) (height limit : ℕ) (need : Need) → limited_of choices height limit need ≡ within limit (least_of choices height need) }
{}

/// A count that some tree has, where no smaller one is had, is the least.
pub fn least_by_limits()
    ensures { (task : Task) (height : ℕ) (needs : List Need) (count : ℕ) → HasCount task height needs count → ((n : ℕ) → HasCount task height needs n → n ≤ count → n ≡ count) → IsLeast (HasCount task height needs) (Some count) }
{}

/// A derivation of a tile that is valid within bounds has a count of trees for what the tile needs. So where no tree has one
/// there is no derivation, and a derivation whose count is the least of trees is a least one.
pub fn derivations_have_counts()
    ensures counts { (d : Description) (t : Tile) (bounds : Bounds) (count : ℕ) → HasDerivation d t bounds count → HasCount (task_of d t bounds.laws) bounds.height (tile_needs t) count }
    ensures none { (d : Description) (t : Tile) (bounds : Bounds) → IsLeast (HasCount (task_of d t bounds.laws) bounds.height (tile_needs t)) None → IsLeast (HasDerivation d t bounds) None }
    ensures some { (d : Description) (t : Tile) (bounds : Bounds) (count : ℕ) → HasDerivation d t bounds count → IsLeast (HasCount (task_of d t bounds.laws) bounds.height (tile_needs t)) (Some count) → IsLeast (HasDerivation d t bounds) (Some count) }
{}

/// Where all choices are listed, the recursion tells of a tile: where it finds no count there is no derivation within the
/// bounds, and a derivation with the count that it finds is a least one.
pub fn the_recursion_tells_of_derivations()
    ensures none { (d : Description) (t : Tile) (bounds : Bounds) (choices : Need → List (List Need)) → AreChoices (task_of d t bounds.laws) choices → least_of choices bounds.height (AsTile (assignments_of t.rtl)) ≡ None → IsLeast (HasDerivation d t bounds) None }
    ensures some { (d : Description) (t : Tile) (bounds : Bounds) (choices : Need → List (List Need)) → AreChoices (task_of d t bounds.laws) choices → (count : ℕ) → least_of choices bounds.height (AsTile (assignments_of t.rtl)) ≡ Some count → HasDerivation d t bounds count → IsLeast (HasDerivation d t bounds) (Some count) }
{}
