//! What holds of a file loglet after any list of calls. Each function does nothing: its contract is the law.
ghost use Rattle.std.specs.Prelude.{ℕ, ◌<◌, List, Contains, Some};
ghost use Rattle.delos_types.specs.declared.entry.Entry as entries_of;
ghost use Rattle.loglet_api.specs.declared.call.LogletCall as calls_of;
ghost use Rattle.loglet_api.specs.declared.call.LogletCall.TheVariants.{Begin, Take};
ghost use Rattle.loglet_api.specs.declared.call.Op.TheVariants.{Append};
ghost use Rattle.loglet_api.specs.declared.call.LogletAnswer as answers_of;
ghost use Rattle.loglet_api.specs.declared.call.LogletAnswer.TheVariants.{Begun, Taken};
ghost use Rattle.loglet_api.specs.declared.call.Answer.TheVariants.{Placed, SealedTail, TrimDone, NoQuorum};
ghost use Rattle.loglet_api.specs.Run.{LogletRun};
ghost use Rattle.quorum_cell.specs.declared.operation.CellStep as steps_of;
ghost use Rattle.quorum_cell.specs.Cells.{Cell, operation};
ghost use Rattle.quorum_cell.specs.Steps.{run_cell};
ghost use Rattle.quorum_cell.specs.Outcomes.{IsTrimmed, RestsOnCauses};
ghost use Rattle.file_loglet.specs.File.{FileView};
ghost use Rattle.file_loglet.specs.Standing.{Stands};
ghost use Rattle.file_loglet.specs.Steps.{IsCellOf, FileStep, FileRun};

/// A list of calls takes the loglet, as each cell that it may be, to that cell gone on by steps: so from its start on it is
/// a quorum cell of one server. And it is a run of a loglet.
pub fn runs_are_of_cells()
    ensures cells { (before after : FileView) (calls : List (calls_of.LogletCall × answers_of.LogletAnswer)) (cell : Cell) → IsCellOf before cell → FileRun before calls after
        → (steps : List steps_of.CellStep) × IsCellOf after (run_cell steps cell) }
    ensures run { (before after : FileView) (calls : List (calls_of.LogletCall × answers_of.LogletAnswer)) → FileRun before calls after
        → LogletRun before.loglet calls after.loglet }
{}

/// The entry of an append that was answered `Placed` stands at that position, and stands there after whatever
/// calls come then.
pub fn acknowledged_entries_stand()
    ensures { (before begun waiting after later : FileView) (calls more : List (calls_of.LogletCall × answers_of.LogletAnswer)) (cell : Cell) (entry : entries_of.Entry) (ticket position : ℕ) → IsCellOf before cell
        → FileStep before (Begin (Append entry)) (Begun ticket) begun → FileRun begun calls waiting → FileStep waiting (Take ticket) (Taken (Some (Placed position))) after → FileRun after more later
        → Stands after position entry × Stands later position entry }
{}

/// Each position that was ever answered `Placed` lies below each tail that was ever answered as sealed, whichever
/// was answered first.
pub fn sealed_tails_bound_positions()
    ensures { (before after : FileView) (calls : List (calls_of.LogletCall × answers_of.LogletAnswer)) (cell : Cell) (append find position tail : ℕ) → IsCellOf before cell
        → FileRun before calls after → Contains calls (Take append, Taken (Some (Placed position))) → Contains calls (Take find, Taken (Some (SealedTail tail)))
        → position < tail }
{}

/// A `NoQuorum` is of an operation that gave the server up: that answered it that it was down or that its disk failed, or
/// lost eight tries of one of its messages. Of those the calls of a file loglet lose none.
pub fn no_quorum_has_causes()
    ensures { (before after : FileView) (cell : Cell) (ticket unreached : ℕ) → IsCellOf before cell
        → FileStep before (Take ticket) (Taken (Some (NoQuorum unreached))) after → RestsOnCauses cell (operation cell ticket) unreached }
{}

/// Where a trim is done, the server has let go of all below what it waited for: its position, as far as that had been
/// reached as it began.
pub fn trims_let_go()
    ensures { (before after : FileView) (cell : Cell) (ticket : ℕ) → IsCellOf before cell
        → FileStep before (Take ticket) (Taken (Some TrimDone)) after → IsTrimmed cell (operation cell ticket) }
{}
