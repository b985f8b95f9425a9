//! A node leaves, by the rules of a run. Behind its leave others may trim the log past it, so all its sessions have their answers before.
ghost use Rattle.std.specs.Prelude.{All, ◌≡◌, ◌⊎◌, [], ◌∷◌, length, IfOk, OnOk};
ghost use Rattle.journal_laws.specs.Changes.{TrimsUpTo};
ghost use Rattle.engine_api.specs.Packing.{packed, leave_item};
ghost use Rattle.turn_scopes.specs.Alone.{IsAlone};
ghost use Rattle.turn_scopes.specs.Seats.{SeatOk, node_of};
ghost use Rattle.node_lines.specs.Moving.{CanPack};
ghost use Rattle.node_lines.specs.Desks.{DesksOk, AreBound};
ghost use Rattle.node_lines.specs.Leaving.{Leaves};
ghost use Rattle.node_lines.specs.Turns.{AllAnswered, IsAnswered};
ghost use Rattle.node_lines.specs.Workers.{WorkerOk, MayRun, OwnWithin, Sends, IsKept, LeaveAdds, sent_by};
ghost use Rattle.node_lines.specs.Steps.{IsLeft};

use crate::back::Back;
use crate::or_back;
use crate::sent::Sent;
use crate::steps::AnswerAll;
use crate::told::{came_to, tell_and_play};
use crate::within::in_turn;
use crate::worker::Worker;
use delos_types::numbers::NodeId;
use engine_api::pack::leave_item;
use fate_words::chooser::Chooser;
use node_lines::desk::Desk;
use node_lines::lines::Looked;
use replica_api::replica::Replica;
use std::alloc::Global;
use std::marker::Brand;
use turn_scopes::access::Access;
use turn_scopes::seat::Seat;

/// All that the node was given is carried to its end, and its sessions' answers are taken; then an entry that says that it leaves is
/// appended and played.
fn leave_at<A: Access, E: Sent, S: Replica, C: Chooser>(
    alloc: Global,
    access: A,
    seat: Seat<S, C>,
    desks: &mut Vec<Desk>,
    number: NodeId,
) -> Back<A, Seat<S, C>, Looked>
    requires run { MayRun A.Law.law }
    requires who { seat.who ≡ A.who access }
    requires kept { IsKept A.beside A.Law.law.floor seat (A.seen access) }
    requires seat { SeatOk (record A.Law.law { may = Sends seat.who A.Law.law.may E.counts (A.seen access) }) S.meaning (A.seen access) seat }
    requires packs { CanPack seat.node.replica.kept }
    requires desks { DesksOk (node_of seat (A.seen access)) desks.old.items }
    requires bound { AreBound (Sends seat.who A.Law.law.may E.counts (A.seen access)) desks.old.items }
    requires origin { seat.node.replica.origin ≡ seat.who }
    requires number { seat.who ≡ number }
    requires own { A.Law.law.may seat.who (packed seat.who (leave_item seat.who ∷ [])) }
    ensures who { A.who result.access ≡ A.who access }
    ensures left { IsLeft A.Law.law S.meaning A.beside ⊥ (A.seen access) seat (A.seen result.access) result.part }
    ensures ok { OnOk result.answer (SeatOk (record A.Law.law { may = Sends result.part.who A.Law.law.may E.counts (A.seen result.access) }) S.meaning (A.seen result.access) result.part) }
    ensures each { OnOk result.answer (DesksOk (node_of result.part (A.seen result.access)) desks.new.items) }
    ensures desks { OnOk result.answer ((length desks.new.items ≡ length desks.old.items) × IsAnswered desks.old.items desks.new.items) }
    ensures high { IsAlone (A.beside seat.who) → OnOk result.answer (TrimsUpTo result.part.node.replica.cursor (A.seen result.access)) }
    ensures stays { OnOk result.answer (IsKept A.beside A.Law.law.floor result.part (A.seen result.access) ⊎ AllAnswered (node_of result.part (A.seen result.access)) desks.new.items) }
    ensures adds { OnOk result.answer (LeaveAdds seat.who (A.seen access) (A.seen result.access)) }
    ensures leaves { IfOk result.answer (Leaves (record A.Law.law { may = OwnWithin seat.who A.Law.law.may E.counts }) (node_of seat (A.seen access)) (node_of result.part (A.seen result.access))) }
{
    // A leave is spelled with the numbers of nodes alone.
    prove!(number.number() <= 8);
    let Back {
        part: seat,
        access,
        answer,
    } = in_turn::<A, E, S, C, AnswerAll>(access, seat, AnswerAll, desks);
    let failed = or_back!(seat, access, answer);
    if let Some(cause) = failed {
        return Back {
            part: seat,
            access,
            answer: Ok(Looked::Failed(cause)),
        };
    }
    let item = or_back!(seat, access, leave_item(alloc, number));
    let Back {
        part: seat,
        access,
        answer,
    } = tell_and_play::<A, E, S, C>(access, seat, item);
    Back {
        part: seat,
        access,
        answer: came_to(answer, Looked::Left),
    }
}

/// A line by which a node leaves. It is of no session, and no session's cause keeps it from being tried. The answers of all sessions are
/// taken before the leave is told, so that the phase can end at the node wherever others trim the log then.
pub fn leave_line<A: Access, S: Replica, C: Chooser>(
    alloc: Global,
    access: A,
    worker: Worker<S, C>,
    number: NodeId,
) -> Back<A, Worker<S, C>, Looked>
    requires run { MayRun A.Law.law }
    requires who { worker.seat.who ≡ A.who access }
    requires kept { IsKept A.beside A.Law.law.floor worker.seat (A.seen access) }
    requires worker { WorkerOk A.Law.law S.meaning worker.seat.who (A.seen access) worker.seat worker.desks.items }
    requires number { worker.seat.who ≡ number }
    requires own { A.Law.law.may worker.seat.who (packed worker.seat.who (leave_item worker.seat.who ∷ [])) }
    ensures who { A.who result.access ≡ A.who access }
    ensures left { IsLeft A.Law.law S.meaning A.beside ⊥ (A.seen access) worker.seat (A.seen result.access) result.part.seat }
    ensures worker { OnOk result.answer (WorkerOk A.Law.law S.meaning worker.seat.who (A.seen result.access) result.part.seat result.part.desks.items) }

    // The desks are as they were, but for answers that were taken.
    ensures desks { OnOk result.answer (IsAnswered worker.desks.items result.part.desks.items) }

    // If nobody is beside, no trim is above where the node is then.
    ensures high { IsAlone (A.beside worker.seat.who) → OnOk result.answer (TrimsUpTo result.part.seat.node.replica.cursor (A.seen result.access)) }

    // The phase can end then.
    ensures stays { OnOk result.answer (IsKept A.beside A.Law.law.floor result.part.seat (A.seen result.access) ⊎ AllAnswered (node_of result.part.seat (A.seen result.access)) result.part.desks.items) }
    ensures adds { OnOk result.answer (LeaveAdds worker.seat.who (A.seen access) (A.seen result.access)) }
    ensures leaves { IfOk result.answer (Leaves (record A.Law.law { may = OwnWithin worker.seat.who A.Law.law.may (sent_by worker.desks.items) }) (node_of worker.seat (A.seen access)) (node_of result.part.seat (A.seen result.access))) }
{
    let Worker { seat, desks } = worker;
    let mut desks = desks;
    let Back {
        part: seat,
        access,
        answer,
    } = leave_at::<A, Brand, S, C>(alloc, access, seat, &mut desks, number);
    Back {
        part: Worker { seat, desks },
        access,
        answer,
    }
}
