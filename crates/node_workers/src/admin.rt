//! A node's own lines, by the rules of a run: the last loglet of the log is replaced, the node reports, or trims the log. They are of no
//! session, and change no desk.
ghost use Rattle.std.specs.Prelude.{◌≡◌, ◌<◌, ◌≤◌, ◌^◌, ℕ, [], ◌∷◌, IfOk};
ghost use Rattle.engine_api.specs.Packing.{packed, alive_item, trim_item};
ghost use Rattle.turn_scopes.specs.Floors.{FloorIs};
ghost use Rattle.turn_scopes.specs.Seats.{node_of};
ghost use Rattle.node_lines.specs.Extending.{Extends};
ghost use Rattle.node_lines.specs.Reporting.{Reports};
ghost use Rattle.node_lines.specs.Trimming.{TrimsLog};
ghost use Rattle.node_lines.specs.Workers.{WorkerOk, MayRun, OwnWithin, OwnAdds, IsKept, IsOfSessions, ReportAdds, TrimAdds, HasNotLeft, ReportsUpTo, sent_by};
ghost use Rattle.node_lines.specs.Steps.{IsLeft};
ghost use Rattle.node_workers.specs.Lines.{MayAskTrim, extends_on};

use crate::back::Back;
use crate::line::{OwnLine, own_line};
use crate::or_back;
use crate::sent::Sent;
use crate::steps::{Clean, Cut, Extend, Least, Settle};
use crate::told::{came_to, tell, tell_and_play};
use crate::within::in_turn;
use crate::worker::Worker;
use delos_types::numbers::NodeId;
use engine_api::pack::{alive_item, trim_item};
use fate_words::chooser::Chooser;
use node_lines::lines::Looked;
use node_lines::measure::Measured;
use replica_api::replica::Replica;
use std::alloc::Global;
use turn_scopes::access::Access;
use turn_scopes::seat::Seat;

/// All that the node was given is carried to its end, and the last loglet of the log is replaced.
#[derive(Drop)]
struct ExtendLine;

impl OwnLine for ExtendLine {
    type Answer = Looked;

    ghost can = { λ law line node. Unit {0} };

    ghost seals = { Unit {0} };

    ghost adds = { λ line old new x. OwnAdds old.who IsOfSessions old.seen new.seen };

    ghost did = { λ law line old new x. Extends law old new x };

    ghost moves = { λ law line old new x h. extends_on law old new x h };

    #[tactic(auto, using(crate::proofs::Stepping::left_any))]
    fn go<A: Access, E: Sent, S: Replica, C: Chooser>(
        self,
        access: A,
        seat: Seat<S, C>,
    ) -> Back<A, Seat<S, C>, Looked> {
        let Back {
            part: seat,
            access,
            answer,
        } = in_turn::<A, E, S, C, Settle>(access, seat, Settle, &mut ());
        or_back!(seat, access, answer);
        in_turn::<A, E, S, C, Extend>(access, seat, Extend, &mut ())
    }
}

/// A line that replaces the last loglet of the log. It is of no session, and no session's cause keeps it from being tried.
pub fn extend_line<A: Access, S: Replica, C: Chooser>(
    access: A,
    worker: Worker<S, C>,
) -> Back<A, Worker<S, C>, Looked>
    requires run { MayRun A.Law.law }
    requires who { worker.seat.who ≡ A.who access }
    requires kept { IsKept A.beside A.Law.law.floor worker.seat (A.seen access) }
    requires worker { WorkerOk A.Law.law S.meaning worker.seat.who (A.seen access) worker.seat worker.desks.items }
    ensures desks { result.part.desks ≡ worker.desks }
    ensures who { A.who result.access ≡ A.who access }
    ensures left { IsLeft A.Law.law S.meaning A.beside (Unit {0}) (A.seen access) worker.seat (A.seen result.access) result.part.seat }
    ensures worker { IfOk result.answer (λ l. WorkerOk A.Law.law S.meaning worker.seat.who (A.seen result.access) result.part.seat result.part.desks.items) }
    ensures kept { IfOk result.answer (λ l. IsKept A.beside A.Law.law.floor result.part.seat (A.seen result.access)) }
    ensures adds { IfOk result.answer (λ l. OwnAdds worker.seat.who IsOfSessions (A.seen access) (A.seen result.access)) }
    ensures extends { IfOk result.answer (Extends (record A.Law.law { may = OwnWithin worker.seat.who A.Law.law.may (sent_by worker.desks.items) }) (node_of worker.seat (A.seen access)) (node_of result.part.seat (A.seen result.access))) }
{
    own_line(access, worker, ExtendLine)
}

/// How many of the log's first entries are clean is read off the node's state at a tail, and an entry that says so is appended.
struct ReportLine {
    alloc: Global,
    number: NodeId,
}

impl OwnLine for ReportLine {
    type Answer = Looked;

    ghost can = { λ law line node. (node.who ≡ line.number) × ((position : ℕ) → position < 2 ^ 64 → law.may node.who (packed node.who (alive_item node.who position ∷ []))) };

    ghost adds = { λ line old new x. ReportAdds old.who new.replica.cursor old.seen new.seen x };

    ghost did = { λ law line old new x. Reports law old new x };

    ghost moves = { λ law line old new x h. record { others = h.others; moves = h.moves; kept = h.kept } };

    fn go<A: Access, E: Sent, S: Replica, C: Chooser>(
        self,
        access: A,
        seat: Seat<S, C>,
    ) -> Back<A, Seat<S, C>, Looked> {
        let ReportLine { alloc, number } = self;
        // A report is spelled with the numbers of nodes alone.
        prove!(number.number() <= 8);
        let Back {
            part: seat,
            access,
            answer,
        } = in_turn::<A, E, S, C, Clean>(access, seat, Clean, &mut ());
        let measured = or_back!(seat, access, answer);
        let position = match measured {
            Measured::At(position) => position,
            Measured::Failed(cause) => {
                return Back {
                    part: seat,
                    access,
                    answer: Ok(Looked::Failed(cause)),
                };
            }
        };
        let item = or_back!(seat, access, alive_item(alloc, number, position));
        let Back {
            part: seat,
            access,
            answer,
        } = tell::<A, E, S, C>(access, seat, item);
        Back {
            part: seat,
            access,
            answer: came_to(answer, Looked::Reported(position)),
        }
    }
}

/// A line by which a node reports how much of the log it needs no more. It is of no session, and no session's cause keeps it
/// from being tried.
pub fn report_line<A: Access, S: Replica, C: Chooser>(
    alloc: Global,
    access: A,
    worker: Worker<S, C>,
    number: NodeId,
) -> Back<A, Worker<S, C>, Looked>
    requires run { MayRun A.Law.law }
    requires who { worker.seat.who ≡ A.who access }
    requires kept { IsKept A.beside A.Law.law.floor worker.seat (A.seen access) }
    requires worker { WorkerOk A.Law.law S.meaning worker.seat.who (A.seen access) worker.seat worker.desks.items }
    requires number { worker.seat.who ≡ number }
    requires own { (position : ℕ) → position < 2 ^ 64 → A.Law.law.may worker.seat.who (packed worker.seat.who (alive_item worker.seat.who position ∷ [])) }
    ensures desks { result.part.desks ≡ worker.desks }
    ensures who { A.who result.access ≡ A.who access }
    ensures left { IsLeft A.Law.law S.meaning A.beside ⊥ (A.seen access) worker.seat (A.seen result.access) result.part.seat }
    ensures worker { IfOk result.answer (λ l. WorkerOk A.Law.law S.meaning worker.seat.who (A.seen result.access) result.part.seat result.part.desks.items) }
    ensures kept { IfOk result.answer (λ l. IsKept A.beside A.Law.law.floor result.part.seat (A.seen result.access)) }
    ensures adds { IfOk result.answer (ReportAdds worker.seat.who result.part.seat.node.replica.cursor (A.seen access) (A.seen result.access)) }
    ensures reports { IfOk result.answer (λ l. Reports (record A.Law.law { may = OwnWithin worker.seat.who A.Law.law.may (sent_by worker.desks.items) }) (node_of worker.seat (A.seen access)) (node_of result.part.seat (A.seen result.access)) l) }
{
    own_line(access, worker, ReportLine { alloc, number })
}

/// A trim to the least position of a member is asked for, in the node's state at a tail, and played; then the log is trimmed.
struct TrimLine {
    alloc: Global,
    number: NodeId,
}

impl OwnLine for TrimLine {
    type Answer = Looked;

    ghost can = { λ law line node. MayAskTrim law line.number node };

    ghost adds = { λ line old new x. TrimAdds old.who old.seen new.seen };

    ghost did = { λ law line old new x. TrimsLog law old new x };

    ghost moves = { λ law line old new x h. record { others = h.others; moves = h.moves; kept = h.kept } };

    fn go<A: Access, E: Sent, S: Replica, C: Chooser>(
        self,
        access: A,
        seat: Seat<S, C>,
    ) -> Back<A, Seat<S, C>, Looked> {
        let TrimLine { alloc, number } = self;
        // It is one of the nodes that may leave and report.
        prove!(number.number() <= 8);
        let Back {
            part: seat,
            access,
            answer,
        } = in_turn::<A, E, S, C, Least>(access, seat, Least, &mut ());
        let measured = or_back!(seat, access, answer);
        let position = match measured {
            Measured::At(position) => position,
            Measured::Failed(cause) => {
                return Back {
                    part: seat,
                    access,
                    answer: Ok(Looked::Failed(cause)),
                };
            }
        };
        let item = or_back!(seat, access, trim_item(alloc, position));
        let Back {
            part: seat,
            access,
            answer,
        } = tell_and_play::<A, E, S, C>(access, seat, item);
        let failed = or_back!(seat, access, answer);
        if let Some(cause) = failed {
            return Back {
                part: seat,
                access,
                answer: Ok(Looked::Failed(cause)),
            };
        }
        in_turn::<A, E, S, C, Cut>(access, seat, Cut, &mut ())
    }
}

/// A line by which a node trims the log: it asks for a trim to the least position of a member, plays that, and trims the log to the
/// lesser of the trim point and the least position then. It is of no session, and no session's cause keeps it from being tried.
pub fn trim_line<A: Access, S: Replica, C: Chooser>(
    alloc: Global,
    access: A,
    worker: Worker<S, C>,
    number: NodeId,
) -> Back<A, Worker<S, C>, Looked>
    requires run { MayRun A.Law.law }
    requires who { worker.seat.who ≡ A.who access }
    requires kept { IsKept A.beside A.Law.law.floor worker.seat (A.seen access) }
    requires worker { WorkerOk A.Law.law S.meaning worker.seat.who (A.seen access) worker.seat worker.desks.items }
    requires number { worker.seat.who ≡ number }
    requires few { worker.seat.who ≤ worker.seat.node.nodes }
    requires floor { FloorIs A.Law.law.floor worker.seat.node.nodes }
    requires stays { HasNotLeft worker.seat.who (A.seen access) }
    requires upto { ReportsUpTo worker.seat.who worker.seat.node.replica.cursor (A.seen access) }
    requires own { (position : ℕ) → position < 2 ^ 64 → A.Law.law.may worker.seat.who (packed worker.seat.who (trim_item position ∷ [])) }
    ensures desks { result.part.desks ≡ worker.desks }
    ensures who { A.who result.access ≡ A.who access }
    ensures left { IsLeft A.Law.law S.meaning A.beside ⊥ (A.seen access) worker.seat (A.seen result.access) result.part.seat }
    ensures worker { IfOk result.answer (λ l. WorkerOk A.Law.law S.meaning worker.seat.who (A.seen result.access) result.part.seat result.part.desks.items) }
    ensures kept { IfOk result.answer (λ l. IsKept A.beside A.Law.law.floor result.part.seat (A.seen result.access)) }
    ensures adds { IfOk result.answer (λ l. TrimAdds worker.seat.who (A.seen access) (A.seen result.access)) }
    ensures trims { IfOk result.answer (λ l. TrimsLog (record A.Law.law { may = OwnWithin worker.seat.who A.Law.law.may (sent_by worker.desks.items) }) (node_of worker.seat (A.seen access)) (node_of result.part.seat (A.seen result.access)) l) }
{
    own_line(access, worker, TrimLine { alloc, number })
}
