//! Any step: within a scope, and in a turn by the rules of a run.
ghost use Rattle.std.specs.Prelude.{◌≡◌, ◌≤◌, ℕ, List, length, IfOk, OnOk};
ghost use Rattle.delos_types.specs.declared.entry.Entry.{Entry};
ghost use Rattle.journal_laws.specs.Changes.{TrimsUpTo};
ghost use Rattle.turn_scopes.specs.Beside.{Since, SealsByRight, Narrows};
ghost use Rattle.turn_scopes.specs.Seats.{SeatOk, node_of};
ghost use Rattle.node_lines.specs.Desks.{KeepsFrom};
ghost use Rattle.node_lines.specs.Workers.{MayRun, OwnWithin, Sends, OwnAdds, IsKept, IsOfSessions};
ghost use Rattle.node_lines.specs.Steps.{IsLeft, UpToIf};

use crate::back::Back;
use crate::sent::Sent;
use crate::step::NodeStep;
use fate_words::chooser::Chooser;
use replica_api::replica::Replica;
use std::marker::Brand;
use turn_scopes::access::Access;
use turn_scopes::seat::{Seat, rest};
use turn_scopes::terms::Scope;

/// The step is done within a scope: the node takes the access, does it, and gives the access back.
pub fn within<A: Access, Q: Scope, S: Replica, C: Chooser, X: NodeStep>(
    access: A,
    seat: Seat<S, C>,
    step: X,
    on: &mut X::On,
) -> Back<A, Seat<S, C>, X::Answer>
    requires floor { (log : List Entry) (n : ℕ) → Q.law.floor log n → n ≤ length log }
    requires who { seat.who ≡ A.who access }
    requires narrows { Narrows Q.law A.Law.law (A.beside (A.who access)) }
    requires seat { SeatOk Q.law S.meaning (A.seen access) seat }
    requires whose { Q.who ≡ A.who access }
    requires since { Q.since ≡ A.seen access }
    requires stays { X.stays → KeepsFrom Q.law seat.node.replica.cursor }
    requires right { X.seals seat.who → Q.seals seat.who }
    requires can { X.can Q.law step on.old (node_of seat (A.seen access)) }
    ensures who { A.who result.access ≡ A.who access }
    ensures sits { result.part.who ≡ A.who result.access }
    ensures seat { SeatOk Q.law S.meaning (A.seen result.access) result.part }
    ensures since { Since result.part.who (A.beside result.part.who) (A.seen access) (A.seen result.access) }
    ensures right { SealsByRight (Q.seals result.part.who) result.part.who (A.seen access) (A.seen result.access) }
    ensures did { IfOk result.answer (X.did Q.law step on.old on.new (node_of seat (A.seen access)) (node_of result.part (A.seen result.access))) }
{
    let mut node = seat.wake::<A, Q>(access);
    let answer = step.run(on, &mut node);
    let (seat, access) = rest(node);
    Back {
        part: seat,
        access,
        answer,
    }
}

/// The step is done in a turn, by the rules of a run: the node appends no rank of a session above those that it has sent, and no entry that
/// says more than commands of sessions. If the log is kept from where the node is, it isn't trimmed above that, and is kept still; a step
/// that rests on that asks for it.
pub fn in_turn<A: Access, E: Sent, S: Replica, C: Chooser, X: NodeStep>(
    access: A,
    seat: Seat<S, C>,
    step: X,
    on: &mut X::On,
) -> Back<A, Seat<S, C>, X::Answer>
    requires run { MayRun A.Law.law }
    requires who { seat.who ≡ A.who access }
    requires seat { SeatOk (record A.Law.law { may = Sends seat.who A.Law.law.may E.counts (A.seen access) }) S.meaning (A.seen access) seat }
    requires stays { X.stays → IsKept A.beside A.Law.law.floor seat (A.seen access) }
    requires can { X.can (record A.Law.law { may = Sends seat.who A.Law.law.may E.counts (A.seen access); floor = UpToIf (IsKept A.beside A.Law.law.floor seat (A.seen access)) A.Law.law.floor seat.node.replica.cursor }) step on.old (node_of seat (A.seen access)) }
    ensures who { A.who result.access ≡ A.who access }
    ensures sits { result.part.who ≡ A.who result.access }
    ensures left { IsLeft A.Law.law S.meaning A.beside (X.seals seat.who) (A.seen access) seat (A.seen result.access) result.part }

    // Nothing is trimmed above where the node was before.
    ensures low { IsKept A.beside A.Law.law.floor seat (A.seen access) → TrimsUpTo seat.node.replica.cursor (A.seen result.access) }
    ensures ok { OnOk result.answer (SeatOk (record A.Law.law { may = Sends result.part.who A.Law.law.may E.counts (A.seen result.access) }) S.meaning (A.seen result.access) result.part) }
    ensures kept { IsKept A.beside A.Law.law.floor seat (A.seen access) → OnOk result.answer (IsKept A.beside A.Law.law.floor result.part (A.seen result.access)) }
    ensures adds { OnOk result.answer (OwnAdds seat.who IsOfSessions (A.seen access) (A.seen result.access)) }
    ensures did { IfOk result.answer (X.did (record A.Law.law { may = OwnWithin seat.who A.Law.law.may E.counts }) step on.old on.new (node_of seat (A.seen access)) (node_of result.part (A.seen result.access))) }
{
    within::<A, Brand, S, C, X>(access, seat, step, on)
}
