//! Laws of a worker between two of its turns. Each function does nothing: its contract is the law.
ghost use Rattle.std.specs.Prelude.{◌≡◌, ◌<◌, ◌≤◌, ℕ, List, ◌++◌, Some, length, slice_get};
ghost use Rattle.delos_types.specs.declared.entry.Entry.{Entry};
ghost use Rattle.legal_journal.specs.declared.events.Event.{Event};
ghost use Rattle.legal_journal.specs.Journal.{IsLegal, state_of, tail_of};
ghost use Rattle.virtual_log.specs.Holding.{Holds};
ghost use Rattle.engine_api.specs.Acted.{asked_in};
ghost use Rattle.engine_api.specs.Order.{gap_from};
ghost use Rattle.engine_steps.specs.declared.layout.Kept.{Kept};
ghost use Rattle.base_engine.specs.Reading.{IsFront};
ghost use Rattle.node_lines.specs.declared.desk.Desk.{Desk};
ghost use Rattle.node_lines.specs.Answered.{AreAnswers};
ghost use Rattle.node_lines.specs.UnderWay.{HasRank};
ghost use Rattle.turn_scopes.specs.Seats.{SeatView};
ghost use Rattle.node_lines.specs.Workers.{Within, OwnWithin, WorkerOk, sent_by, sent_of};

use legal_journal::rules::Rules;
use replica_api::replica::Replica;

/// What holds of a worker holds still at a later moment, whatever others did, as long as its own events sent no rank of a session above
/// those that its desk of the session sent.
pub fn what_a_worker_has_stays<P: Rules, S: Replica>()
    ensures { (who : ℕ) (early more : List Event) (seat : SeatView) (desks : List Desk)
        → WorkerOk P.law S.meaning who early seat desks → IsLegal (record P.law { may = OwnWithin who P.law.may (sent_by desks) }) (early ++ more)
        → WorkerOk P.law S.meaning who (early ++ more) seat desks }
{}

/// A worker's journal is legal, also where what its desks sent binds what the worker appends.
pub fn a_worker_is_legal<P: Rules, S: Replica>()
    ensures within { (who : ℕ) (journal : List Event) (seat : SeatView) (desks : List Desk)
        → WorkerOk P.law S.meaning who journal seat desks → IsLegal (record P.law { may = OwnWithin who P.law.may (sent_by desks) }) journal }
    ensures legal { (who : ℕ) (journal : List Event) (seat : SeatView) (desks : List Desk)
        → WorkerOk P.law S.meaning who journal seat desks → IsLegal P.law journal }
{}

/// What is held below an early tail was sent by then. So a rank above those that were sent by then is held at no position
/// below that tail, whatever was sent later.
pub fn a_tail_bounds_what_is_sent<P: Rules>()
    ensures { ((log : List Entry) (n : ℕ) → P.law.floor log n → n ≤ length log) → (counts : List ℕ) (early late : List Event) (s r pos : ℕ) (e : Entry)
        → IsLegal (record P.law { may = Within P.law.may counts }) early → IsLegal P.law (early ++ late) → Holds (early ++ late) pos e → HasRank s r e
        → sent_of counts s < r → tail_of (state_of early) ≤ pos }
{}

/// A front of a log isn't longer than the log's tail says.
pub fn a_cursor_is_below_the_tail<P: Rules>()
    ensures { ((log : List Entry) (n : ℕ) → P.law.floor log n → n ≤ length log) → (seen : List Event) (log : List Entry) → IsLegal P.law seen → IsFront Holds seen log
        → length log ≤ tail_of (state_of seen) }
{}

/// What has acted in a front of the log has acted so in each front of a later moment that isn't shorter.
pub fn what_has_acted_stays<P: Rules>()
    ensures acted { (early late : List Event) (s n : ℕ) (front log : List Entry) → IsLegal P.law (early ++ late)
        → IsFront Holds early front → IsFront Holds (early ++ late) log → length front ≤ length log
        → n < gap_from (asked_in 0 front) s 1 → n < gap_from (asked_in 0 log) s 1 }
    ensures answers { (early late : List Event) (s : ℕ) (front log : List Entry) (answers : List Kept) → IsLegal P.law (early ++ late)
        → IsFront Holds early front → IsFront Holds (early ++ late) log → length front ≤ length log
        → AreAnswers front s answers → AreAnswers log s answers }
{}
