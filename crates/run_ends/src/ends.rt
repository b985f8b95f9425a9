//! Laws of a run whose nodes have closed. Each function does nothing, or calls laws that its own rests on: its contract is
//! the law.
ghost use Rattle.std.specs.Prelude.{◌≡◌, ◌+◌, ◌++◌, ℕ, List, [], length, map, Option};
ghost use Rattle.delos_types.specs.declared.entry.Entry.{Entry};
ghost use Rattle.legal_journal.specs.declared.events.Event.{Event};
ghost use Rattle.legal_journal.specs.Journal.{IsLegal, state_of};
ghost use Rattle.journal_laws.specs.Faults.{faults_in};
ghost use Rattle.row_text.specs.declared.row.Row.{Row};
ghost use Rattle.script_text.specs.declared.asks.NamedLine.{NamedLine};
ghost use Rattle.script_text.specs.declared.faults.FaultLine.{FaultLine};
ghost use Rattle.fabric_core.specs.Fabric.{IsRegisterAsTold};
ghost use Rattle.fitting_run.specs.declared.told.Told.{Told};
ghost use Rattle.fitting_run.specs.Yard.{Shown};
ghost use Rattle.fitting_run.specs.Fits.{ChainIsRegistered};
ghost use Rattle.node_lines.specs.declared.lines.Looked.{Looked};
ghost use Rattle.turn_scopes.specs.Floors.{FloorIs};
ghost use Rattle.node_lines.specs.Workers.{MayRun};
ghost use Rattle.run_ends.specs.Rules.{may_of};
ghost use Rattle.run_laws.specs.Ended.{LineEnded, SessionEnded, AllAfter, FaultsCame, RunEnded};
ghost use Rattle.run_ends.specs.Closing.{WorkerEnd, HasClosed, IsGivenBack};
ghost use Rattle.run_ends.specs.Rows.{AreRows, CanTell, played_of};
ghost use Rattle.run_ends.specs.Ends.{end_of};
ghost use Rattle.run_ends.specs.Told.{GoesAsTold};
ghost use Rattle.node_course.specs.FaultLines.{AreOutside};
ghost use Rattle.node_course.specs.Moments.{tails};

use crate::shown::the_log_stands;
use journal_laws::faults::{
    a_fault_names_a_cell, a_lack_has_a_fault, lacks_are_counted, refusals_are_counted,
    register_faults_are_counted,
};
use legal_journal::rules::Rules;
use log_laws::texts::what_acts_is_told;
use node_course::joined::what_is_trimmed_was_told;
use replica_api::replica::Replica;

/// Each fault that came was counted, and stands in the yard.
pub fn the_faults_were_counted<P: Rules, S: Replica>()
    ensures { MayRun P.law → (lines : List NamedLine) (faults : List FaultLine) (rows : List Row) (journal : List Event) (looks : List (Option Looked)) (log : List Entry) (workers : List WorkerEnd) (o : Told) (yard : Shown)
        → (h : HasClosed P.law S.meaning lines faults journal looks log workers)
        → AreRows lines workers looks rows → IsGivenBack P.law journal workers o.chain yard
        → FaultsCame (played_of lines rows looks) h.run.faults yard }
{
    lacks_are_counted();
    a_lack_has_a_fault();
    refusals_are_counted();
    register_faults_are_counted::<P>();
    a_fault_names_a_cell::<P>();
}

/// Each line can be told: its command was answered, or its session was stopped; its read was played.
pub fn what_closed_can_be_told<P: Rules, S: Replica>()
    ensures { MayRun P.law → (lines : List NamedLine) (faults : List FaultLine) (journal : List Event) (looks : List (Option Looked)) (log : List Entry) (workers : List WorkerEnd)
        → HasClosed P.law S.meaning lines faults journal looks log workers → CanTell lines workers looks }
{}

/// Each line ended as its row says.
pub fn each_line_has_ended<P: Rules, S: Replica>()
    ensures { MayRun P.law → (lines : List NamedLine) (faults : List FaultLine) (rows : List Row) (journal : List Event) (looks : List (Option Looked)) (log : List Entry) (workers : List WorkerEnd)
        → ((who : ℕ) (e : Entry) → P.law.may who e → may_of lines who e)
        → (h : HasClosed P.law S.meaning lines faults journal looks log workers)
        → AreRows lines workers looks rows
        → AllAfter (LineEnded log (tails h.run) h.run.faults (end_of lines workers h.home h.run.when)) [] (played_of lines rows looks) }
{
    what_acts_is_told();
}

/// Each session ended, stopped by a fault or not.
pub fn each_session_has_ended<P: Rules, S: Replica>()
    ensures { MayRun P.law → (lines : List NamedLine) (faults : List FaultLine) (rows : List Row) (journal : List Event) (looks : List (Option Looked)) (log : List Entry) (workers : List WorkerEnd) (s : ℕ)
        → (h : HasClosed P.law S.meaning lines faults journal looks log workers)
        → AreRows lines workers looks rows
        → SessionEnded (played_of lines rows looks) h.run.faults h.home s (end_of lines workers h.home h.run.when s) }
{}

/// The last loglet of the chain is at least each node's number of rows that tell a version, and at most the number of all of those,
/// where no fault came. Where nothing is trimmed each loglet up to it has a segment.
pub fn each_segment_is_told<P: Rules, S: Replica>()
    ensures { (lines : List NamedLine) (faults : List FaultLine) (rows : List Row) (journal : List Event) (looks : List (Option Looked)) (log : List Entry) (workers : List WorkerEnd)
        → HasClosed P.law S.meaning lines faults journal looks log workers → AreRows lines workers looks rows
        → GoesAsTold (played_of lines rows looks) rows (length workers) (faults_in journal) (state_of journal).register.chain }
{}

/// A run whose nodes have closed has ended.
pub fn what_closed_has_ended<P: Rules, S: Replica>()
    ensures { MayRun P.law → (lines : List NamedLine) (faults : List FaultLine) (journal : List Event) (looks : List (Option Looked)) (log : List Entry) (workers : List WorkerEnd) (o : Told) (yard : Shown)
        → ((who : ℕ) (e : Entry) → P.law.may who e → may_of lines who e) → FloorIs P.law.floor (length workers)
        → HasClosed P.law S.meaning lines faults journal looks log workers
        → AreRows lines workers looks o.rows → o.end ≡ length log → IsGivenBack P.law journal workers o.chain yard
        → IsRegisterAsTold (state_of journal).register yard.register → ChainIsRegistered o yard.register
        → (map (λ t. t.line) (played_of lines o.rows looks) ≡ lines) × RunEnded (played_of lines o.rows looks) faults o yard }
{
    the_faults_were_counted::<P, S>();
    each_line_has_ended::<P, S>();
    each_session_has_ended::<P, S>();
    the_log_stands::<P>();
    what_is_trimmed_was_told::<P>();
}

/// A run whose nodes have closed stays so by events of a user that is no node: its chain is read, something is broken or mended, or an old
/// message comes again.
pub fn reads_change_nothing<P: Rules, S: Replica>()
    ensures { (lines : List NamedLine) (faults : List FaultLine) (journal more : List Event) (looks : List (Option Looked)) (log : List Entry) (workers : List WorkerEnd)
        → HasClosed P.law S.meaning lines faults journal looks log workers
        → AreOutside more → IsLegal P.law (journal ++ more)
        → HasClosed P.law S.meaning lines faults (journal ++ more) looks log workers }
{}
