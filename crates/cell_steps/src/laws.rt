//! What holds of lawful cells. Each function does nothing: its contract is the law.
ghost use Rattle.std.specs.Prelude.{ℕ, ◌^◌, ◌<◌, List, length, All};
ghost use Rattle.loglet_api.specs.Run.{LogletRun};
ghost use Rattle.quorum_cell.specs.declared.operation.CellStep.{CellStep};
ghost use Rattle.quorum_cell.specs.Cells.{Cell};
ghost use Rattle.quorum_cell.specs.Law.{IsLawful};
ghost use Rattle.quorum_cell.specs.Steps.{cell_step, run_cell};
ghost use Rattle.cell_views.specs.Views.{IsStray, IsSpelled, BringsSpelled, cell_view};
ghost use Rattle.cell_steps.specs.Majorities.{OutcomesRest};
ghost use Rattle.cell_steps.specs.Telling.{Came, moved, told_of, carries_of, left_for, IsTold};

/// What the operations of a lawful cell come to rests on what its servers sent for them: a length, a
/// seal and a trim on what more than half of them sent, an entry on what one of them sent, and the
/// want of a quorum on more than half that were given up. No sealed tail is below a length that was
/// reached, earlier or later.
pub fn outcomes_rest_on_majorities()
    ensures { (cell : Cell) → IsLawful cell → OutcomesRest cell }
{}

/// Each step that is no client's call changes what it is told to change: a loss, a stop and a restart
/// that fails count one fault of that server, a stop takes that server down and a restart brings it
/// up, with its write or without, and nothing else does (`tells`). To clients a list of steps is a
/// run of a loglet, in which a message that comes for the first time to or from an operation that
/// waits is a carry of that operation, and so are its loss and the operation's end; one that comes
/// again is a stray, and a restart is one of that server (`run`): in a cell in which of each operation
/// as much is left as it has carries to come.
pub fn moves_are_told()
    ensures tells { (cell : Cell) (came : Came) (step : CellStep) → IsStray step → IsTold cell (moved cell came step) (cell_step cell step) }
    ensures run { (steps : List CellStep) (cell : Cell) (came : Came) → IsLawful cell → IsSpelled cell → All BringsSpelled steps → length steps < 2 ^ 52
        → LogletRun (cell_view (left_for (λ t. carries_of steps cell came t)) cell) (told_of steps cell came) (cell_view (left_for (λ t. 0)) (run_cell steps cell)) }
{}
