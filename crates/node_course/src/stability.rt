//! Laws of a node between its lines. Each function does nothing: its contract is the law.
ghost use Rattle.std.specs.Prelude.{◌≡◌, ◌⊎◌, ◌==◌, ◌<◌, ◌≤◌, ◌+◌, ◌++◌, ℕ, false, List, [], length, Option, None, Some, Contains, slice_get};
ghost use Rattle.std.specs.List.{AllByRecursion};
ghost use Rattle.delos_types.specs.declared.entry.Entry.{Entry};
ghost use Rattle.legal_journal.specs.declared.events.Event.{Event};
ghost use Rattle.legal_journal.specs.Journal.{IsLegal};
ghost use Rattle.legal_journal.specs.Turns.{AreOthers};
ghost use Rattle.virtual_log.specs.Holding.{Holds};
ghost use Rattle.engine_api.specs.Acted.{asked_in};
ghost use Rattle.engine_api.specs.Order.{gap_from};
ghost use Rattle.base_engine.specs.Reading.{IsFront};
ghost use Rattle.replica_api.specs.Replica.{armed_by};
ghost use Rattle.turn_scopes.specs.Seats.{SeatView};
ghost use Rattle.script_text.specs.declared.asks.NamedLine.{NamedLine};
ghost use Rattle.node_lines.specs.declared.desk.Desk.{Desk};
ghost use Rattle.node_lines.specs.declared.lines.Looked.{Looked};
ghost use Rattle.node_lines.specs.Workers.{IsHome, MayRun, WorkerOk};
ghost use Rattle.node_course.specs.FaultLines.{IsOutside};
ghost use Rattle.node_course.specs.Script.{BeginsAt};
ghost use Rattle.node_course.specs.Moments.{NodeCourse, GoesOn, first_course, next_phase, and_then};
ghost use Rattle.node_course.specs.Telling.{AreBehind, AreTold, AsksBehind};
ghost use Rattle.node_course.specs.Workers.{HasNotBegun, NodeAt, Rests};

use legal_journal::rules::Rules;
use replica_api::replica::Replica;

/// A node that has seen nothing yet, and was asked nothing, rests before the first phase.
pub fn a_node_opens<P: Rules, S: Replica>()
    ensures { (lines : List NamedLine) (home : ℕ → ℕ) (nodes : ℕ) (looks : List (Option Looked)) (n : ℕ) (seat : SeatView) (desks : List Desk)
        → length looks ≡ length lines → AllByRecursion (λ look. look ≡ None) looks
        → seat.node.nodes ≡ nodes → HasNotBegun seat desks
        → WorkerOk P.law S.meaning n [] seat desks
        → Rests P.law S.meaning lines home nodes first_course looks n 0 0 seat desks }
{}

/// What is known of a node stays so, whatever others do, and whatever comes of their lines.
pub fn a_node_stays<P: Rules, S: Replica>()
    ensures { MayRun P.law → (lines : List NamedLine) (home : ℕ → ℕ) (nodes : ℕ) (c : NodeCourse) (looks looks' : List (Option Looked)) (n from at done : ℕ) (more : List Event) (seat : SeatView) (desks : List Desk)
        → AreOthers n more → IsLegal P.law (c.seen ++ more)
        → length looks' ≡ length looks → ((i : ℕ) (l : NamedLine) → slice_get lines i ≡ Some l → l.node ≡ n → slice_get looks' i ≡ slice_get looks i)
        → NodeAt P.law S.meaning lines home nodes c looks n from at done seat desks
        → NodeAt P.law S.meaning lines home nodes (and_then c more) looks' n from at done seat desks }
{}

/// What is known of a node stays so as its disk is armed; and a node that rests, rests on.
pub fn a_node_is_armed<P: Rules, S: Replica>()
    ensures node { (lines : List NamedLine) (home : ℕ → ℕ) (nodes : ℕ) (c : NodeCourse) (looks : List (Option Looked)) (n from at done after : ℕ) (seat : SeatView) (desks : List Desk)
        → NodeAt P.law S.meaning lines home nodes c looks n from at done seat desks
        → NodeAt P.law S.meaning lines home nodes c looks n from at done (record seat { node = record seat.node { replica = armed_by seat.node.replica after } }) desks }
    ensures rests { (lines : List NamedLine) (home : ℕ → ℕ) (nodes : ℕ) (c : NodeCourse) (looks : List (Option Looked)) (n from done after : ℕ) (seat : SeatView) (desks : List Desk)
        → Rests P.law S.meaning lines home nodes c looks n from done seat desks
        → Rests P.law S.meaning lines home nodes c looks n from done (record seat { node = record seat.node { replica = armed_by seat.node.replica after } }) desks }
{}

/// Of a session that is at home at a node no more has acted, in what the node has seen, than its desk sent.
pub fn what_has_acted_was_sent<P: Rules, S: Replica>()
    ensures { (lines : List NamedLine) (home : ℕ → ℕ) (nodes : ℕ) (c : NodeCourse) (looks : List (Option Looked)) (n from at done s : ℕ) (d : Desk) (log : List Entry) (seat : SeatView) (desks : List Desk)
        → IsHome P.law.may s n → slice_get desks s ≡ Some d → IsFront Holds c.seen log
        → NodeAt P.law S.meaning lines home nodes c looks n from at done seat desks
        → gap_from (asked_in 0 log) s 1 ≤ d.sent + 1 }
{}

/// What nodes told stands behind what it tells, still as the journal goes on by events of nodes each of which knows of its own what it told,
/// and that it asked for trims behind reports of as much; and by events of number 0, which is no node.
pub fn what_is_told_stands_behind<P: Rules>()
    ensures { MayRun P.law → (lines : List NamedLine) (looks : List (Option Looked)) (old more : List Event)
        → IsLegal P.law (old ++ more) → AreBehind old
        → ((e : Event) → Contains more e → IsOutside e ⊎ (AreTold lines looks e.who (old ++ more) × AsksBehind e.who (old ++ more)))
        → AreBehind (old ++ more) }
{}

/// A node without a line in a phase rests on.
pub fn a_phase_passes_by<P: Rules, S: Replica>()
    ensures { (lines : List NamedLine) (home : ℕ → ℕ) (nodes : ℕ) (c : NodeCourse) (looks : List (Option Looked)) (n from to : ℕ) (seat : SeatView) (desks : List Desk)
        → from ≤ to → BeginsAt lines from c.phase → BeginsAt lines to (c.phase + 1)
        → ((i : ℕ) (l : NamedLine) → from ≤ i → i < to → slice_get lines i ≡ Some l → (l.node == n) ≡ false)
        → Rests P.law S.meaning lines home nodes c looks n from c.phase seat desks
        → Rests P.law S.meaning lines home nodes c looks n to (c.phase + 1) seat desks }
{}

/// The next phase begins, with what the node has seen by now.
pub fn a_phase_begins<P: Rules, S: Replica>()
    ensures { (lines : List NamedLine) (home : ℕ → ℕ) (nodes : ℕ) (c : NodeCourse) (looks : List (Option Looked)) (n from : ℕ) (seat : SeatView) (desks : List Desk)
        → BeginsAt lines from (c.phase + 1)
        → Rests P.law S.meaning lines home nodes c looks n from (c.phase + 1) seat desks
        → Rests P.law S.meaning lines home nodes (next_phase c) looks n from (c.phase + 1) seat desks }
{}

/// A course goes on by nothing, and by one part after another.
pub fn a_course_goes_on()
    ensures none { (c : NodeCourse) → GoesOn c c }
    ensures more { (c d e : NodeCourse) → GoesOn c d → GoesOn d e → GoesOn c e }
{}
