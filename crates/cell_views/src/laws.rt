//! What clients see of a cell is a loglet. The function does nothing: its contract is the law.
ghost use Rattle.std.specs.Prelude.{◌≡◌, ℕ, ◌^◌, ◌≤◌, List, length, All};
ghost use Rattle.quorum_cell.specs.declared.operation.CellStep.{CellStep};
ghost use Rattle.quorum_cell.specs.Cells.{Cell, start};
ghost use Rattle.quorum_cell.specs.Steps.{cell_step, run_cell};
ghost use Rattle.loglet_api.specs.Run.{LogletRun};
ghost use Rattle.loglet_api.specs.Step.{Moves};
ghost use Rattle.quorum_cell.specs.Law.{IsLawful};
ghost use Rattle.cell_views.specs.Views.{Manner, IsManner, IsNearer, IsStray, IsSpelled, BringsSpelled, cell_view, calls, calls_of};

/// Each step of a lawful cell is, as its clients see it, a step of a loglet or none; and so a list
/// of steps is a run of a loglet, from the first cell on too. A step that is nobody's call only
/// moves on what is sealed, what failed and what is left to do, however much it brings the
/// operations nearer to their ends.
pub fn cells_are_loglets()
    ensures step { (manner : Manner) (cell : Cell) (step : CellStep) → IsManner (length cell.servers) manner → IsLawful cell → IsSpelled cell → BringsSpelled step
        → LogletRun (cell_view manner cell) (calls cell step) (cell_view manner (cell_step cell step)) }
    ensures run { (manner : Manner) (servers room limit : ℕ) (steps : List CellStep) → IsManner servers manner
        → (1 ≤ servers) × (servers ≤ 64) → (1 ≤ room) × (room ≤ 2 ^ 32) → limit ≤ 2 ^ 62 → All BringsSpelled steps
        → let cell = start servers room limit in LogletRun (cell_view manner cell) (calls_of steps cell) (cell_view manner (run_cell steps cell)) }
    ensures moves { (manner : Manner) (next : ℕ → ℕ × ℕ) (cell : Cell) (step : CellStep) → IsStray step → IsNearer manner.left next
        → Moves (cell_view manner cell) (cell_view (record manner { left = next }) (cell_step cell step)) }
{}
