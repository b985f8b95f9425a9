//! Laws of a node's lines, and of the end of a phase at it. Each function does nothing: its contract is the law.
ghost use Rattle.std.specs.Prelude.{◌≡◌, ◌≢◌, ◌<◌, ◌≤◌, ◌+◌, ℕ, List, [], Option, Some, slice_get, slice_set};
ghost use Rattle.delos_types.specs.declared.cause.Cause.{Cause};
ghost use Rattle.table_core.specs.declared.command.Command.{Command};
ghost use Rattle.table_core.specs.declared.command.Query.{Query};
ghost use Rattle.legal_journal.specs.declared.events.Event.{Event};
ghost use Rattle.virtual_log.specs.Sealing.{SealsNone};
ghost use Rattle.turn_scopes.specs.Floors.{FloorIs};
ghost use Rattle.turn_scopes.specs.Seats.{SeatView, node_of};
ghost use Rattle.script_text.specs.declared.line.Session.{Session};
ghost use Rattle.script_text.specs.declared.line.Admin.TheVariants.{Extend, Alive, Retire, Trim};
ghost use Rattle.script_text.specs.declared.asks.NamedLine.{NamedLine};
ghost use Rattle.script_text.specs.declared.asks.Asks.TheVariants as asks;
ghost use Rattle.node_lines.specs.declared.desk.Desk.{Desk};
ghost use Rattle.node_lines.specs.declared.lines.Looked.{Looked};
ghost use Rattle.node_lines.specs.Lines.{Looks};
ghost use Rattle.node_lines.specs.Extending.{Extends};
ghost use Rattle.node_lines.specs.Reporting.{Reports};
ghost use Rattle.node_lines.specs.Leaving.{Leaves};
ghost use Rattle.node_lines.specs.Trimming.{TrimsLog};
ghost use Rattle.node_lines.specs.Moving.{Moves};
ghost use Rattle.node_lines.specs.Turns.{EndsTurn, IsAnswered};
ghost use Rattle.node_lines.specs.Workers.{WorkerOk, MayRun, Logs, OwnWithin, OwnAdds, IsOfSessions, ReportAdds, LeaveAdds, TrimAdds, sent_by};
ghost use Rattle.node_course.specs.Script.{AreLines, BeginsAt};
ghost use Rattle.node_course.specs.Moments.{NodeCourse};
ghost use Rattle.node_course.specs.Workers.{NodeAt, Rests, LineWent, HasRested, CanPlay, IsNext};

use legal_journal::rules::Rules;
use replica_api::replica::Replica;

/// A line logged a command at its node.
pub fn a_command_is_logged<P: Rules, S: Replica>()
    ensures { MayRun P.law → (lines : List NamedLine) (home : ℕ → ℕ) (nodes : ℕ) (c : NodeCourse) (looks : List (Option Looked)) (n from i : ℕ) (line : NamedLine) (session : Session) (rank : ℕ) (command : Command) (seat seat' : SeatView) (desks desks' : List Desk) (journal : List Event)
        → AreLines lines home nodes
        → slice_get lines i ≡ Some line → line.node ≡ n → line.phase ≡ c.phase → line.asks ≡ asks.Logged session rank command
        → NodeAt P.law S.meaning lines home nodes c looks n from i c.phase seat desks
        → SealsNone n c.seen journal → OwnAdds n IsOfSessions c.seen journal
        → Logs P.law (node_of seat c.seen) (node_of seat' journal) session.id desks desks'
        → WorkerOk P.law S.meaning n journal seat' desks'
        → LineWent P.law S.meaning lines home nodes c looks n from (i + 1) journal seat' desks' }
{}

/// A line looked at the table at its node.
pub fn a_read_has_looked<P: Rules, S: Replica>()
    ensures { MayRun P.law → (lines : List NamedLine) (home : ℕ → ℕ) (nodes : ℕ) (c : NodeCourse) (looks : List (Option Looked)) (n from i : ℕ) (line : NamedLine) (session : Session) (query : Query) (desk : Desk) (look : Looked) (seat seat' : SeatView) (desks : List Desk) (journal : List Event)
        → AreLines lines home nodes → BeginsAt lines from c.phase
        → slice_get lines i ≡ Some line → line.node ≡ n → line.phase ≡ c.phase → line.asks ≡ asks.Look session query
        → NodeAt P.law S.meaning lines home nodes c looks n from i c.phase seat desks
        → SealsNone n c.seen journal → OwnAdds n IsOfSessions c.seen journal
        → slice_get desks session.id ≡ Some desk
        → Looks (record P.law { may = OwnWithin n P.law.may (sent_by desks) }) (node_of seat c.seen) (node_of seat' journal) desk query look
        → WorkerOk P.law S.meaning n journal seat' desks
        → LineWent P.law S.meaning lines home nodes c (slice_set looks i (Some look)) n from (i + 1) journal seat' desks }
{}

/// A line had its node replace the last loglet of the log, or find that another had.
pub fn a_node_extends<P: Rules, S: Replica>()
    ensures { MayRun P.law → (lines : List NamedLine) (home : ℕ → ℕ) (nodes : ℕ) (c : NodeCourse) (looks : List (Option Looked)) (n from i : ℕ) (line : NamedLine) (look : Looked) (seat seat' : SeatView) (desks : List Desk) (journal : List Event)
        → AreLines lines home nodes
        → slice_get lines i ≡ Some line → line.node ≡ n → line.phase ≡ c.phase → line.asks ≡ asks.Admin Extend
        → NodeAt P.law S.meaning lines home nodes c looks n from i c.phase seat desks
        → OwnAdds n IsOfSessions c.seen journal
        → Extends (record P.law { may = OwnWithin n P.law.may (sent_by desks) }) (node_of seat c.seen) (node_of seat' journal) look
        → WorkerOk P.law S.meaning n journal seat' desks
        → LineWent P.law S.meaning lines home nodes c (slice_set looks i (Some look)) n from (i + 1) journal seat' desks }
{}

/// A line had its node report how much of the log is clean.
pub fn a_node_reports<P: Rules, S: Replica>()
    ensures { MayRun P.law → (lines : List NamedLine) (home : ℕ → ℕ) (nodes : ℕ) (c : NodeCourse) (looks : List (Option Looked)) (n from i : ℕ) (line : NamedLine) (look : Looked) (seat seat' : SeatView) (desks : List Desk) (journal : List Event)
        → AreLines lines home nodes
        → slice_get lines i ≡ Some line → line.node ≡ n → line.phase ≡ c.phase → line.asks ≡ asks.Admin Alive
        → NodeAt P.law S.meaning lines home nodes c looks n from i c.phase seat desks
        → SealsNone n c.seen journal → ReportAdds n seat'.node.replica.cursor c.seen journal look
        → Reports (record P.law { may = OwnWithin n P.law.may (sent_by desks) }) (node_of seat c.seen) (node_of seat' journal) look
        → WorkerOk P.law S.meaning n journal seat' desks
        → LineWent P.law S.meaning lines home nodes c (slice_set looks i (Some look)) n from (i + 1) journal seat' desks }
{}

/// A line had its node leave.
pub fn a_node_leaves<P: Rules, S: Replica>()
    ensures { MayRun P.law → (lines : List NamedLine) (home : ℕ → ℕ) (nodes : ℕ) (c : NodeCourse) (looks : List (Option Looked)) (n from i : ℕ) (line : NamedLine) (look : Looked) (seat seat' : SeatView) (desks desks' : List Desk) (journal : List Event)
        → AreLines lines home nodes
        → slice_get lines i ≡ Some line → line.node ≡ n → line.phase ≡ c.phase → line.asks ≡ asks.Admin Retire
        → NodeAt P.law S.meaning lines home nodes c looks n from i c.phase seat desks
        → IsAnswered desks desks' → SealsNone n c.seen journal → LeaveAdds n c.seen journal
        → Leaves (record P.law { may = OwnWithin n P.law.may (sent_by desks) }) (node_of seat c.seen) (node_of seat' journal) look
        → WorkerOk P.law S.meaning n journal seat' desks'
        → LineWent P.law S.meaning lines home nodes c (slice_set looks i (Some look)) n from (i + 1) journal seat' desks' }
{}

/// A line had its node trim the log.
pub fn a_node_trims<P: Rules, S: Replica>()
    ensures { MayRun P.law → (lines : List NamedLine) (home : ℕ → ℕ) (nodes : ℕ) (c : NodeCourse) (looks : List (Option Looked)) (n from i : ℕ) (line : NamedLine) (look : Looked) (seat seat' : SeatView) (desks : List Desk) (journal : List Event)
        → AreLines lines home nodes
        → slice_get lines i ≡ Some line → line.node ≡ n → line.phase ≡ c.phase → line.asks ≡ asks.Admin Trim
        → NodeAt P.law S.meaning lines home nodes c looks n from i c.phase seat desks
        → SealsNone n c.seen journal → TrimAdds n c.seen journal
        → TrimsLog (record P.law { may = OwnWithin n P.law.may (sent_by desks) }) (node_of seat c.seen) (node_of seat' journal) look
        → WorkerOk P.law S.meaning n journal seat' desks
        → LineWent P.law S.meaning lines home nodes c (slice_set looks i (Some look)) n from (i + 1) journal seat' desks }
{}

/// The phase ended at a node, whose lines of it were played. Those of the next phase begin at `to`.
pub fn a_phase_has_ended<P: Rules, S: Replica>()
    ensures { MayRun P.law → (lines : List NamedLine) (home : ℕ → ℕ) (nodes : ℕ) (c : NodeCourse) (looks : List (Option Looked)) (n from to : ℕ) (failed : Option Cause) (seat seat' : SeatView) (desks desks' : List Desk) (journal : List Event)
        → AreLines lines home nodes
        → BeginsAt lines to (c.phase + 1)
        → NodeAt P.law S.meaning lines home nodes c looks n from to c.phase seat desks
        → SealsNone n c.seen journal → OwnAdds n IsOfSessions c.seen journal
        → EndsTurn (record P.law { may = OwnWithin n P.law.may (sent_by desks) }) (node_of seat c.seen) (node_of seat' journal) desks desks' failed
        → WorkerOk P.law S.meaning n journal seat' desks'
        → HasRested P.law S.meaning lines home nodes c looks n to (c.phase + 1) journal seat' desks' }
{}

/// A node that rests made its last calls: it stays at rest, with the same desks, and gives no cause.
pub fn a_node_finishes<P: Rules, S: Replica>()
    ensures { MayRun P.law → (lines : List NamedLine) (home : ℕ → ℕ) (nodes : ℕ) (c : NodeCourse) (looks : List (Option Looked)) (n from done : ℕ) (seat seat' : SeatView) (desks : List Desk) (journal : List Event)
        → BeginsAt lines from done → done ≤ c.phase + 1
        → Rests P.law S.meaning lines home nodes c looks n from done seat desks
        → SealsNone n c.seen journal → OwnAdds n IsOfSessions c.seen journal
        → Moves (record P.law { may = OwnWithin n P.law.may (sent_by desks) }) (node_of seat c.seen) (node_of seat' journal) [] → seat'.node.outbox ≡ seat.node.outbox
        → WorkerOk P.law S.meaning n journal seat' desks
        → HasRested P.law S.meaning lines home nodes c looks n from done journal seat' desks }
{}

/// A node's line is its session's next.
pub fn a_line_is_next<P: Rules, S: Replica>()
    ensures { (lines : List NamedLine) (home : ℕ → ℕ) (nodes : ℕ) (c : NodeCourse) (looks : List (Option Looked)) (n from i done : ℕ) (line : NamedLine) (seat : SeatView) (desks : List Desk)
        → AreLines lines home nodes → slice_get lines i ≡ Some line → line.node ≡ n
        → NodeAt P.law S.meaning lines home nodes c looks n from i done seat desks
        → IsNext desks line.asks }
{}

/// What a node's line may rest on: the node has a line to play, so it hasn't left, and it reported no more than it has applied; so the log
/// isn't trimmed above that.
pub fn a_line_can_be_played<P: Rules, S: Replica>()
    ensures { MayRun P.law → (lines : List NamedLine) (home : ℕ → ℕ) (nodes : ℕ) (c : NodeCourse) (looks : List (Option Looked)) (n from i done : ℕ) (line : NamedLine) (seat : SeatView) (desks : List Desk)
        → FloorIs P.law.floor nodes → AreLines lines home nodes → slice_get lines i ≡ Some line → line.node ≡ n
        → NodeAt P.law S.meaning lines home nodes c looks n from i done seat desks
        → CanPlay n c.seen seat }
{}

/// So it is of a node that none of its lines so far asked to leave.
pub fn a_node_keeps_the_log<P: Rules, S: Replica>()
    ensures { MayRun P.law → (lines : List NamedLine) (home : ℕ → ℕ) (nodes : ℕ) (c : NodeCourse) (looks : List (Option Looked)) (n from at done : ℕ) (seat : SeatView) (desks : List Desk)
        → FloorIs P.law.floor nodes → 1 ≤ n → n ≤ nodes
        → NodeAt P.law S.meaning lines home nodes c looks n from at done seat desks
        → ((i : ℕ) (l : NamedLine) → i < at → slice_get lines i ≡ Some l → l.node ≡ n → l.asks ≢ asks.Admin Retire)
        → CanPlay n c.seen seat }
{}
