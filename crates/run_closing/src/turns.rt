//! A node's last turns, by the rules of a run.
ghost use Rattle.std.specs.Prelude.{◌≡◌, ◌≤◌, ℕ, List, [], length, IfOk, OnOk};
ghost use Rattle.delos_types.specs.declared.entry.Entry.{Entry};
ghost use Rattle.turn_scopes.specs.Alone.{IsAlone};
ghost use Rattle.turn_scopes.specs.Beside.{Since, SealsByRight, Narrows};
ghost use Rattle.turn_scopes.specs.Seats.{SeatOk, node_of};
ghost use Rattle.node_lines.specs.Moving.{Moves};
ghost use Rattle.node_lines.specs.Workers.{WorkerOk, MayRun, OwnWithin, OwnAdds, IsOfSessions, sent_by};
ghost use Rattle.node_lines.specs.Steps.{IsLeft};
ghost use Rattle.run_closing.specs.Ending.{Finishes};
ghost use Rattle.run_closing.specs.Collecting.{CanTakeAll, TakesAll, WithinDesks};

use crate::answers::take_all;
use crate::last::{Calls, Reach, finish};
use delos_types::numbers::NodeId;
use fate_words::chooser::Chooser;
use node_lines::desk::Desk;
use node_workers::back::Back;
use node_workers::worker::Worker;
use replica_api::replica::Replica;
use std::marker::Brand;
use turn_scopes::access::Access;
use turn_scopes::seat::{Seat, rest};
use turn_scopes::terms::Scope;

/// The last calls of a worker's node, which has that number, within a scope. Answers how many entries of the log its state has then.
fn finish_within<A: Access, Q: Scope, S: Replica, C: Chooser>(
    access: A,
    worker: Worker<S, C>,
    number: NodeId,
    calls: Calls,
) -> Back<A, Worker<S, C>, Reach>
    requires floor { (log : List Entry) (n : ℕ) → Q.law.floor log n → n ≤ length log }
    requires who { worker.seat.who ≡ A.who access }
    requires narrows { Narrows Q.law A.Law.law (A.beside (A.who access)) }
    requires seat { SeatOk Q.law S.meaning (A.seen access) worker.seat }
    requires whose { Q.who ≡ A.who access }
    requires since { Q.since ≡ A.seen access }
    ensures desks { result.part.desks ≡ worker.desks }
    ensures who { A.who result.access ≡ A.who access }
    ensures sits { result.part.seat.who ≡ A.who result.access }
    ensures seat { SeatOk Q.law S.meaning (A.seen result.access) result.part.seat }
    ensures since { Since result.part.seat.who (A.beside result.part.seat.who) (A.seen access) (A.seen result.access) }
    ensures right { SealsByRight (Q.seals result.part.seat.who) result.part.seat.who (A.seen access) (A.seen result.access) }
    ensures moves { OnOk result.answer (Moves Q.law (node_of worker.seat (A.seen access)) (node_of result.part.seat (A.seen result.access)) []) }
    ensures plays { IfOk result.answer (λ reach. Finishes calls number reach.passed (node_of worker.seat (A.seen access)) (node_of result.part.seat (A.seen result.access))) }
    ensures outbox { OnOk result.answer (result.part.seat.node.outbox ≡ worker.seat.node.outbox) }
    ensures kept { OnOk result.answer (result.part.seat.node.replica.kept ≡ worker.seat.node.replica.kept) }
    ensures cursor { IfOk result.answer (λ reach. reach.cursor ≡ result.part.seat.node.replica.cursor) }
{
    let Worker { seat, desks } = worker;
    let mut node = seat.wake::<A, Q>(access);
    let answer = finish(&mut node, number, calls);
    let (seat, access) = rest(node);
    Back {
        part: Worker { seat, desks },
        access,
        answer,
    }
}

/// The last calls of a worker's node, which has that number: one that has left is passed by, where members make them; another opens its
/// store again where it is down, and plays the log to a tail. Its desks stay as they are. Answers how many entries of the log the
/// node's state has then.
pub fn finish_worker<A: Access, S: Replica, C: Chooser>(
    access: A,
    worker: Worker<S, C>,
    number: NodeId,
    calls: Calls,
) -> Back<A, Worker<S, C>, Reach>
    requires run { MayRun A.Law.law }
    requires who { worker.seat.who ≡ A.who access }
    requires alone { IsAlone (A.beside (A.who access)) }
    requires worker { WorkerOk A.Law.law S.meaning worker.seat.who (A.seen access) worker.seat worker.desks.items }
    ensures desks { result.part.desks ≡ worker.desks }
    ensures who { A.who result.access ≡ A.who access }
    ensures left { IsLeft A.Law.law S.meaning A.beside ⊥ (A.seen access) worker.seat (A.seen result.access) result.part.seat }
    ensures worker { OnOk result.answer (WorkerOk A.Law.law S.meaning worker.seat.who (A.seen result.access) result.part.seat result.part.desks.items) }
    ensures moves { OnOk result.answer (Moves (record A.Law.law { may = OwnWithin worker.seat.who A.Law.law.may (sent_by worker.desks.items) }) (node_of worker.seat (A.seen access)) (node_of result.part.seat (A.seen result.access)) []) }
    ensures plays { IfOk result.answer (λ reach. Finishes calls number reach.passed (node_of worker.seat (A.seen access)) (node_of result.part.seat (A.seen result.access))) }
    ensures outbox { OnOk result.answer (result.part.seat.node.outbox ≡ worker.seat.node.outbox) }
    ensures cursor { IfOk result.answer (λ reach. reach.cursor ≡ result.part.seat.node.replica.cursor) }
    ensures adds { OwnAdds worker.seat.who IsOfSessions (A.seen access) (A.seen result.access) }
{
    finish_within::<A, Brand, S, C>(access, worker, number, calls)
}

/// Takes the answers of all these sessions from a node's state, within a scope.
fn take_within<A: Access, Q: Scope, S: Replica, C: Chooser>(
    access: A,
    seat: Seat<S, C>,
    desks: &mut Vec<Desk>,
) -> Back<A, Seat<S, C>, ()>
    requires who { seat.who ≡ A.who access }
    requires narrows { Narrows Q.law A.Law.law (A.beside (A.who access)) }
    requires seat { SeatOk Q.law S.meaning (A.seen access) seat }
    requires whose { Q.who ≡ A.who access }
    requires since { Q.since ≡ A.seen access }
    requires desks { CanTakeAll Q.law.may (node_of seat (A.seen access)) desks.old.items }
    ensures node { node_of result.part (A.seen result.access) ≡ node_of seat (A.seen access) }
    ensures seat { SeatOk Q.law S.meaning (A.seen result.access) result.part }
    ensures takes { OnOk result.answer (TakesAll (node_of seat (A.seen access)) desks.old.items desks.new.items) }
{
    let node = seat.wake::<A, Q>(access);
    let answer = take_all(&node, desks.as_mut_slice());
    let (seat, access) = rest(node);
    Back {
        part: seat,
        access,
        answer,
    }
}

/// Takes the answers of all these sessions, of whatever node they are, from a node's state. No event is made. Nobody is beside, so the
/// scope binds all users: no rank of these sessions was sent above those that their desks sent.
pub fn take_answers<A: Access, S: Replica, C: Chooser>(
    access: A,
    seat: Seat<S, C>,
    desks: &mut Vec<Desk>,
) -> Back<A, Seat<S, C>, ()>
    requires who { seat.who ≡ A.who access }
    requires alone { IsAlone (A.beside (A.who access)) }
    requires seat { SeatOk (record A.Law.law { may = WithinDesks A.Law.law.may desks.old.items }) S.meaning (A.seen access) seat }
    requires desks { CanTakeAll (WithinDesks A.Law.law.may desks.old.items) (node_of seat (A.seen access)) desks.old.items }
    ensures node { node_of result.part (A.seen result.access) ≡ node_of seat (A.seen access) }
    ensures seat { SeatOk (record A.Law.law { may = WithinDesks A.Law.law.may desks.old.items }) S.meaning (A.seen result.access) result.part }
    ensures takes { OnOk result.answer (TakesAll (node_of seat (A.seen access)) desks.old.items desks.new.items) }
{
    take_within::<A, Brand, S, C>(access, seat, desks)
}
