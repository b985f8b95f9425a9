//! What holds of cells in stripes. Each function does nothing: its contract is the law.
ghost use Rattle.std.specs.Prelude.{◌≡◌, ℕ, List, [], Some};
ghost use Rattle.loglet_api.specs.View.{IsFresh};
ghost use Rattle.quorum_cell.specs.Cells.{Cell};
ghost use Rattle.striped_cells.specs.Ways.{IsKind};
ghost use Rattle.cell_steps.specs.Majorities.{OutcomesRest};
ghost use Rattle.striped_cells.specs.Quorums.{quorum_ways};
ghost use Rattle.striped_cells.specs.Striped.{Striped, striped_ways, stripes_like, MayStripe, IsLawfulStriped};

use crate::cell::AnyCell;

/// What each step does to a lawful quorum cell is, as its clients see it, a step of a loglet.
pub fn quorum_cells_are_loglets()
    ensures { IsKind quorum_ways }
{}

/// The same holds of cells in stripes, over any kind of cells of which it holds: over cells in
/// stripes too.
pub fn striped_cells_are_loglets<C: AnyCell>()
    ensures { IsKind (striped_ways C.ways) }
{}

/// A cell of so many stripes, each like a fresh lawful one, is fresh and lawful, and has no
/// entries.
pub fn fresh_stripes_are_lawful<C: AnyCell>()
    ensures { (m : ℕ) (x : C) → MayStripe C.ways m x → let made = stripes_like C.ways m x in
        IsLawfulStriped C.ways made × IsFresh ((striped_ways C.ways).view made) × ((striped_ways C.ways).entries made ≡ []) }
{}

/// What the operations of each quorum cell come to, at the end of a path of stripes down from a
/// lawful cell in stripes over any kind of cells, rests on what its servers sent for them.
pub fn outcomes_rest_on_majorities<C: AnyCell>()
    ensures { (c : Striped C) (path : List ℕ) (cell : Cell) → IsLawfulStriped C.ways c
        → (striped_ways C.ways).quorum_at c path ≡ Some cell → OutcomesRest cell }
{}
