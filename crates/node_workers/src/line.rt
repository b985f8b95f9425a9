//! A line of a node's own: steps one after the other, each in a turn of its own. It is of no session, and changes no desk.
ghost use Rattle.std.specs.Prelude.{◌≡◌, IfOk, OnOk};
ghost use Rattle.legal_journal.specs.Law.{Law};
ghost use Rattle.base_engine.specs.Node.{NodeView};
ghost use Rattle.turn_scopes.specs.Seats.{SeatOk, node_of};
ghost use Rattle.node_lines.specs.Moving.{CanPack};
ghost use Rattle.node_lines.specs.Workers.{WorkerOk, MayRun, OwnWithin, Sends, IsKept, sent_by};
ghost use Rattle.node_lines.specs.Steps.{IsLeft};
ghost use Rattle.node_workers.specs.Lines.{MovesOn};

use crate::back::Back;
use crate::sent::Sent;
use crate::worker::Worker;
use fate_words::chooser::Chooser;
use replica_api::replica::Replica;
use std::marker::Brand;
use turn_scopes::access::Access;
use turn_scopes::seat::Seat;

/// A line of no session. No session's cause keeps it from being tried.
pub trait OwnLine {
    /// What it comes to.
    type Answer;

    /// When it may be asked: by which law, the line, and the node.
    ghost can: { Law → Self → NodeView → Type 0 };

    /// Whether it begins a Seal.
    ghost seals: { Type 0 } = { ⊥ };

    /// What it added to the journal.
    ghost adds: { Self → NodeView → NodeView → Self.Answer → Type 0 };

    /// What it did: by which law, the node before and after, and the answer.
    ghost did: { Law → Self → NodeView → NodeView → Self.Answer → Type 0 };

    /// It keeps all sessions, and nothing waits then.
    ghost moves: { (law : Law)
        (line : Self) (old new : NodeView) (x : Self.Answer) → did law line old new x → MovesOn law old new };

    fn go<A: Access, E: Sent, S: Replica, C: Chooser>(
        self,
        access: A,
        seat: Seat<S, C>,
    ) -> Back<A, Seat<S, C>, Self::Answer>
        requires run { MayRun A.Law.law }
        requires who { seat.who ≡ A.who access }
        requires kept { IsKept A.beside A.Law.law.floor seat (A.seen access) }
        requires seat { SeatOk (record A.Law.law { may = Sends seat.who A.Law.law.may E.counts (A.seen access) }) S.meaning (A.seen access) seat }
        requires packs { CanPack seat.node.replica.kept }
        requires origin { seat.node.replica.origin ≡ seat.who }
        requires can { can A.Law.law self (node_of seat (A.seen access)) }
        ensures who { A.who result.access ≡ A.who access }
        ensures left { IsLeft A.Law.law S.meaning A.beside seals (A.seen access) seat (A.seen result.access) result.part }
        ensures ok { OnOk result.answer (SeatOk (record A.Law.law { may = Sends result.part.who A.Law.law.may E.counts (A.seen result.access) }) S.meaning (A.seen result.access) result.part) }
        ensures kept { OnOk result.answer (IsKept A.beside A.Law.law.floor result.part (A.seen result.access)) }
        ensures adds { IfOk result.answer (adds self (node_of seat (A.seen access)) (node_of result.part (A.seen result.access))) }
        ensures did { IfOk result.answer (did (record A.Law.law { may = OwnWithin seat.who A.Law.law.may E.counts }) self (node_of seat (A.seen access)) (node_of result.part (A.seen result.access))) };
}

/// A worker does a line of its node's own, where its desks sent so many commands.
fn line_by<A: Access, E: Sent, S: Replica, C: Chooser, Y: OwnLine>(
    access: A,
    worker: Worker<S, C>,
    line: Y,
) -> Back<A, Worker<S, C>, Y::Answer>
    requires sent { E.counts ≡ sent_by worker.desks.items }
    requires run { MayRun A.Law.law }
    requires who { worker.seat.who ≡ A.who access }
    requires kept { IsKept A.beside A.Law.law.floor worker.seat (A.seen access) }
    requires worker { WorkerOk A.Law.law S.meaning worker.seat.who (A.seen access) worker.seat worker.desks.items }
    requires can { Y.can A.Law.law line (node_of worker.seat (A.seen access)) }
    ensures desks { result.part.desks ≡ worker.desks }
    ensures who { A.who result.access ≡ A.who access }
    ensures left { IsLeft A.Law.law S.meaning A.beside Y.seals (A.seen access) worker.seat (A.seen result.access) result.part.seat }
    ensures worker { OnOk result.answer (WorkerOk A.Law.law S.meaning worker.seat.who (A.seen result.access) result.part.seat result.part.desks.items) }
    ensures kept { OnOk result.answer (IsKept A.beside A.Law.law.floor result.part.seat (A.seen result.access)) }
    ensures adds { IfOk result.answer (Y.adds line (node_of worker.seat (A.seen access)) (node_of result.part.seat (A.seen result.access))) }
    ensures did { IfOk result.answer (Y.did (record A.Law.law { may = OwnWithin worker.seat.who A.Law.law.may (sent_by worker.desks.items) }) line (node_of worker.seat (A.seen access)) (node_of result.part.seat (A.seen result.access))) }
{
    let Worker { seat, desks } = worker;
    let Back {
        part: seat,
        access,
        answer,
    } = line.go::<A, E, S, C>(access, seat);
    Back {
        part: Worker { seat, desks },
        access,
        answer,
    }
}

/// A worker does a line of its node's own.
pub fn own_line<A: Access, S: Replica, C: Chooser, Y: OwnLine>(
    access: A,
    worker: Worker<S, C>,
    line: Y,
) -> Back<A, Worker<S, C>, Y::Answer>
    requires run { MayRun A.Law.law }
    requires who { worker.seat.who ≡ A.who access }
    requires kept { IsKept A.beside A.Law.law.floor worker.seat (A.seen access) }
    requires worker { WorkerOk A.Law.law S.meaning worker.seat.who (A.seen access) worker.seat worker.desks.items }
    requires can { Y.can A.Law.law line (node_of worker.seat (A.seen access)) }
    ensures desks { result.part.desks ≡ worker.desks }
    ensures who { A.who result.access ≡ A.who access }
    ensures left { IsLeft A.Law.law S.meaning A.beside Y.seals (A.seen access) worker.seat (A.seen result.access) result.part.seat }
    ensures worker { OnOk result.answer (WorkerOk A.Law.law S.meaning worker.seat.who (A.seen result.access) result.part.seat result.part.desks.items) }
    ensures kept { OnOk result.answer (IsKept A.beside A.Law.law.floor result.part.seat (A.seen result.access)) }
    ensures adds { IfOk result.answer (Y.adds line (node_of worker.seat (A.seen access)) (node_of result.part.seat (A.seen result.access))) }
    ensures did { IfOk result.answer (Y.did (record A.Law.law { may = OwnWithin worker.seat.who A.Law.law.may (sent_by worker.desks.items) }) line (node_of worker.seat (A.seen access)) (node_of result.part.seat (A.seen result.access))) }
{
    line_by::<A, Brand, S, C, Y>(access, worker, line)
}
