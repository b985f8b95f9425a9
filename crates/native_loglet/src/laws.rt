//! What holds of a native loglet after any list of calls. Each function does nothing: its contract is the law.
ghost use Rattle.std.specs.Prelude.{◌≡◌, ℕ, ◌+◌, ◌<◌, ◌≤◌, List, Contains, Some};
ghost use Rattle.delos_types.specs.declared.entry.Entry as entries_of;
ghost use Rattle.loglet_api.specs.declared.call.LogletCall as calls_of;
ghost use Rattle.loglet_api.specs.declared.call.LogletCall.TheVariants.{Begin, Take};
ghost use Rattle.loglet_api.specs.declared.call.Op.TheVariants.{Append};
ghost use Rattle.loglet_api.specs.declared.call.LogletAnswer as answers_of;
ghost use Rattle.loglet_api.specs.declared.call.LogletAnswer.TheVariants.{Begun, Taken};
ghost use Rattle.loglet_api.specs.declared.call.Answer.TheVariants.{Placed, SealedTail, TrimDone, NoQuorum};
ghost use Rattle.loglet_api.specs.Run.{LogletRun};
ghost use Rattle.quorum_cell.specs.declared.operation.CellStep as steps_of;
ghost use Rattle.quorum_cell.specs.Cells.{Cell, operation};
ghost use Rattle.quorum_cell.specs.Steps.{run_cell};
ghost use Rattle.quorum_cell.specs.Outcomes.{IsTrimmed, RestsOnCauses};
ghost use Rattle.native_loglet.specs.Natives.{Native, loglet_of, IsCellOf};
ghost use Rattle.native_loglet.specs.Standing.{Stands};
ghost use Rattle.native_loglet.specs.Steps.{NativeStep, NativeRun};

/// A list of calls takes the loglet, as each cell that it may be, to that cell gone on by steps: so from its start
/// on it is a quorum cell. And it is a run of a loglet.
pub fn runs_are_of_cells()
    ensures cells { (before after : Native) (calls : List (calls_of.LogletCall × answers_of.LogletAnswer)) (cell : Cell) → IsCellOf before cell → NativeRun before calls after
        → (steps : List steps_of.CellStep) × IsCellOf after (run_cell steps cell) }
    ensures run { (before after : Native) (calls : List (calls_of.LogletCall × answers_of.LogletAnswer)) → NativeRun before calls after
        → LogletRun (loglet_of before) calls (loglet_of after) }
{}

/// The entry of an append that was answered `Placed` stands at that position, and stands there after whatever
/// calls come then.
pub fn acknowledged_entries_stand()
    ensures { (before begun waiting after later : Native) (calls more : List (calls_of.LogletCall × answers_of.LogletAnswer)) (cell : Cell) (entry : entries_of.Entry) (ticket position : ℕ) → IsCellOf before cell
        → NativeStep before (Begin (Append entry)) (Begun ticket) begun → NativeRun begun calls waiting → NativeStep waiting (Take ticket) (Taken (Some (Placed position))) after → NativeRun after more later
        → Stands after position entry × Stands later position entry }
{}

/// Each position that was ever answered `Placed` lies below each tail that was ever answered as sealed, whichever
/// was answered first.
pub fn sealed_tails_bound_positions()
    ensures { (before after : Native) (calls : List (calls_of.LogletCall × answers_of.LogletAnswer)) (cell : Cell) (append find position tail : ℕ) → IsCellOf before cell
        → NativeRun before calls after → Contains calls (Take append, Taken (Some (Placed position))) → Contains calls (Take find, Taken (Some (SealedTail tail)))
        → position < tail }
{}

/// A `NoQuorum` names just so many servers as its operation gave up, more than half: each of them answered it that
/// it was down or that its disk failed, or lost eight tries of one of its messages.
pub fn no_quorum_has_causes()
    ensures { (before after : Native) (cell : Cell) (ticket unreached : ℕ) → IsCellOf before cell
        → NativeStep before (Take ticket) (Taken (Some (NoQuorum unreached))) after → RestsOnCauses cell (operation cell ticket) unreached }
{}

/// Where a trim is done, more than half of the servers have let go of all below what it waited for: its position,
/// as far as that had been reached as it began.
pub fn trims_let_go()
    ensures { (before after : Native) (cell : Cell) (ticket : ℕ) → IsCellOf before cell
        → NativeStep before (Take ticket) (Taken (Some TrimDone)) after → IsTrimmed cell (operation cell ticket) }
{}
