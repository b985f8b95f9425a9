//! What a worker does for its sessions by the rules of a run, and the end of a phase. Each call has scopes of its own, within which
//! the node appends no rank above those that it has sent and nothing else than commands of sessions, and the log isn't trimmed above
//! where the node was. Whoever is beside may do what the rules let it, as long as the node keeps the log.
ghost use Rattle.std.specs.Prelude.{All, ◌≡◌, ◌⊎◌, ◌<◌, ◌≤◌, ◌+◌, [], ◌∷◌, length, Some, IfOk, OnOk, slice_get, slice_set};
ghost use Rattle.table_core.specs.Spelling.{IsSpellable, command_length};
ghost use Rattle.journal_laws.specs.Changes.{TrimsUpTo};
ghost use Rattle.engine_api.specs.Packing.{packed, session_item};
ghost use Rattle.node_lines.specs.declared.desk.Desk.{Desk};
ghost use Rattle.turn_scopes.specs.Seats.{SeatOk, node_of};
ghost use Rattle.node_lines.specs.Moving.{CanPack};
ghost use Rattle.node_lines.specs.Desks.{DeskOk};
ghost use Rattle.node_lines.specs.Lines.{Looks};
ghost use Rattle.node_lines.specs.Turns.{AllAnswered, EndsTurn};
ghost use Rattle.node_lines.specs.Workers.{WorkerOk, MayRun, LogsIt, Logs, OwnWithin, IsHome, Sends, OwnAdds, IsKept, IsOfSession, IsOfSessions, sent_by, sent_of};
ghost use Rattle.node_lines.specs.Steps.{IsLeft};

use crate::back::Back;
use crate::or_back;
use crate::sent::Sent;
use crate::steps::{End, Log, Look, Ready};
use crate::within::in_turn;
use crate::worker::Worker;
use delos_types::cause::Cause;
use delos_types::numbers::SessionId;
use fate_words::chooser::Chooser;
use node_lines::desk::Desk;
use node_lines::lines::Looked;
use replica_api::replica::Replica;
use std::alloc::Global;
use std::marker::Brand;
use table_core::command::{Command, Query};
use turn_scopes::access::Access;
use turn_scopes::seat::Seat;

/// A command was asked for that isn't handed in.
fn keep(desk: &mut Desk)
    requires { desk.old.asked < 20000 }
    ensures { desk.new ≡ record desk.old { asked = desk.old.asked + 1 } }
{
    desk.asked += 1;
}

/// The session's command is asked, at its desk. Where the session has no cause, the command is handed in, in a scope that has one more of it.
fn log_at<A: Access, E: Sent, S: Replica, C: Chooser>(
    alloc: Global,
    access: A,
    seat: Seat<S, C>,
    desk: &mut Desk,
    session: SessionId,
    command: &Command,
) -> Back<A, Seat<S, C>, ()>
    requires run { MayRun A.Law.law }
    requires who { seat.who ≡ A.who access }
    requires kept { IsKept A.beside A.Law.law.floor seat (A.seen access) }
    requires seat { SeatOk (record A.Law.law { may = Sends seat.who A.Law.law.may E.counts (A.seen access) }) S.meaning (A.seen access) seat }
    requires origin { seat.node.replica.origin ≡ seat.who }
    requires packs { CanPack seat.node.replica.kept }
    requires waits { All IsOfSession seat.node.replica.kept }
    requires desk { DeskOk (node_of seat (A.seen access)) session desk.old }
    requires wide { session < length E.counts }
    requires sent { desk.old.sent ≡ sent_of E.counts session }
    requires few { desk.old.asked < 20000 }
    requires home { IsHome A.Law.law.may session seat.who }
    requires spelled { IsSpellable command.now }
    requires short { command_length command.now ≤ 984 }
    requires own { A.Law.law.may seat.who (packed seat.who (session_item session (desk.old.asked + 1) command.now ∷ [])) }
    ensures who { A.who result.access ≡ A.who access }
    ensures sits { result.part.who ≡ A.who result.access }
    ensures left { IsLeft A.Law.law S.meaning A.beside ⊥ (A.seen access) seat (A.seen result.access) result.part }
    ensures ok { OnOk result.answer (SeatOk (record A.Law.law { may = Sends result.part.who A.Law.law.may (slice_set E.counts session desk.new.sent) (A.seen result.access) }) S.meaning (A.seen result.access) result.part) }
    ensures kept { OnOk result.answer (IsKept A.beside A.Law.law.floor result.part (A.seen result.access)) }
    ensures adds { OnOk result.answer (OwnAdds seat.who IsOfSessions (A.seen access) (A.seen result.access)) }
    ensures waits { OnOk result.answer (All IsOfSession result.part.node.replica.kept) }
    ensures desk { OnOk result.answer (DeskOk (node_of result.part (A.seen result.access)) session desk.new) }
    ensures logs { OnOk result.answer (LogsIt A.Law.law (slice_set E.counts session desk.new.sent) (node_of seat (A.seen access)) (node_of result.part (A.seen result.access)) session desk.old desk.new) }
{
    let Back {
        part: seat,
        access,
        answer,
    } = in_turn::<A, E, S, C, Ready>(access, seat, Ready, desk);
    let is_ready = or_back!(seat, access, answer);
    if !is_ready {
        keep(desk);
        return Back {
            part: seat,
            access,
            answer: Ok(()),
        };
    }
    in_turn::<A, Brand, S, C, Log>(access, seat, Log { alloc, command }, desk)
}

/// The session's command is asked, where the worker's desks sent so many commands.
fn log_by<A: Access, E: Sent, S: Replica, C: Chooser>(
    alloc: Global,
    access: A,
    worker: Worker<S, C>,
    session: SessionId,
    command: &Command,
) -> Back<A, Worker<S, C>, ()>
    requires sent { E.counts ≡ sent_by worker.desks.items }
    requires run { MayRun A.Law.law }
    requires who { worker.seat.who ≡ A.who access }
    requires kept { IsKept A.beside A.Law.law.floor worker.seat (A.seen access) }
    requires worker { WorkerOk A.Law.law S.meaning worker.seat.who (A.seen access) worker.seat worker.desks.items }
    requires home { IsHome A.Law.law.may session worker.seat.who }
    requires few { (d : Desk) → slice_get worker.desks.items session ≡ Some d → d.asked < 20000 }
    requires spelled { IsSpellable command.now }
    requires short { command_length command.now ≤ 984 }
    requires own { (d : Desk) → slice_get worker.desks.items session ≡ Some d → A.Law.law.may worker.seat.who (packed worker.seat.who (session_item session (d.asked + 1) command.now ∷ [])) }
    ensures who { A.who result.access ≡ A.who access }
    ensures left { IsLeft A.Law.law S.meaning A.beside ⊥ (A.seen access) worker.seat (A.seen result.access) result.part.seat }
    ensures worker { OnOk result.answer (WorkerOk A.Law.law S.meaning worker.seat.who (A.seen result.access) result.part.seat result.part.desks.items) }
    ensures kept { OnOk result.answer (IsKept A.beside A.Law.law.floor result.part.seat (A.seen result.access)) }
    ensures adds { OnOk result.answer (OwnAdds worker.seat.who IsOfSessions (A.seen access) (A.seen result.access)) }
    ensures logs { OnOk result.answer (Logs A.Law.law (node_of worker.seat (A.seen access)) (node_of result.part.seat (A.seen result.access)) session worker.desks.items result.part.desks.items) }
{
    let i = usize::from(session.number());
    let Worker { seat, desks } = worker;
    let mut desks = desks;
    let Back {
        part: seat,
        access,
        answer,
    } = log_at::<A, E, S, C>(alloc, access, seat, &mut desks[i], session, command);
    Back {
        part: Worker { seat, desks },
        access,
        answer,
    }
}

/// A line of a session that logs a command. Where the session has no cause, the command is handed in.
pub fn log_line<A: Access, S: Replica, C: Chooser>(
    alloc: Global,
    access: A,
    worker: Worker<S, C>,
    session: SessionId,
    command: &Command,
) -> Back<A, Worker<S, C>, ()>
    requires run { MayRun A.Law.law }
    requires who { worker.seat.who ≡ A.who access }
    requires kept { IsKept A.beside A.Law.law.floor worker.seat (A.seen access) }
    requires worker { WorkerOk A.Law.law S.meaning worker.seat.who (A.seen access) worker.seat worker.desks.items }
    requires home { IsHome A.Law.law.may session worker.seat.who }
    requires few { (d : Desk) → slice_get worker.desks.items session ≡ Some d → d.asked < 20000 }
    requires spelled { IsSpellable command.now }
    requires short { command_length command.now ≤ 984 }
    requires own { (d : Desk) → slice_get worker.desks.items session ≡ Some d → A.Law.law.may worker.seat.who (packed worker.seat.who (session_item session (d.asked + 1) command.now ∷ [])) }
    ensures who { A.who result.access ≡ A.who access }
    ensures left { IsLeft A.Law.law S.meaning A.beside ⊥ (A.seen access) worker.seat (A.seen result.access) result.part.seat }
    ensures worker { OnOk result.answer (WorkerOk A.Law.law S.meaning worker.seat.who (A.seen result.access) result.part.seat result.part.desks.items) }
    ensures kept { OnOk result.answer (IsKept A.beside A.Law.law.floor result.part.seat (A.seen result.access)) }
    ensures adds { OnOk result.answer (OwnAdds worker.seat.who IsOfSessions (A.seen access) (A.seen result.access)) }
    ensures logs { OnOk result.answer (Logs A.Law.law (node_of worker.seat (A.seen access)) (node_of result.part.seat (A.seen result.access)) session worker.desks.items result.part.desks.items) }
{
    log_by::<A, Brand, S, C>(alloc, access, worker, session, command)
}

/// The session reads the table, where the worker's desks sent so many commands.
fn look_by<A: Access, E: Sent, S: Replica, C: Chooser>(
    access: A,
    worker: Worker<S, C>,
    session: SessionId,
    query: &Query,
) -> Back<A, Worker<S, C>, Looked>
    requires sent { E.counts ≡ sent_by worker.desks.items }
    requires run { MayRun A.Law.law }
    requires who { worker.seat.who ≡ A.who access }
    requires kept { IsKept A.beside A.Law.law.floor worker.seat (A.seen access) }
    requires worker { WorkerOk A.Law.law S.meaning worker.seat.who (A.seen access) worker.seat worker.desks.items }
    requires home { IsHome A.Law.law.may session worker.seat.who }
    ensures desks { result.part.desks ≡ worker.desks }
    ensures who { A.who result.access ≡ A.who access }
    ensures left { IsLeft A.Law.law S.meaning A.beside ⊥ (A.seen access) worker.seat (A.seen result.access) result.part.seat }
    ensures worker { IfOk result.answer (λ l. WorkerOk A.Law.law S.meaning worker.seat.who (A.seen result.access) result.part.seat result.part.desks.items) }
    ensures kept { IfOk result.answer (λ l. IsKept A.beside A.Law.law.floor result.part.seat (A.seen result.access)) }
    ensures adds { IfOk result.answer (λ l. OwnAdds worker.seat.who IsOfSessions (A.seen access) (A.seen result.access)) }
    ensures looks { IfOk result.answer (λ l. (d : Desk) → slice_get worker.desks.items session ≡ Some d → Looks (record A.Law.law { may = OwnWithin worker.seat.who A.Law.law.may (sent_by worker.desks.items) }) (node_of worker.seat (A.seen access)) (node_of result.part.seat (A.seen result.access)) d query.now l) }
{
    let i = usize::from(session.number());
    let Worker { seat, desks } = worker;
    let look = Look {
        desk: &desks[i],
        query,
    };
    let Back {
        part: seat,
        access,
        answer,
    } = in_turn::<A, E, S, C, Look>(access, seat, look, &mut ());
    Back {
        part: Worker { seat, desks },
        access,
        answer,
    }
}

/// A line of a session that reads the table.
pub fn look_line<A: Access, S: Replica, C: Chooser>(
    access: A,
    worker: Worker<S, C>,
    session: SessionId,
    query: &Query,
) -> Back<A, Worker<S, C>, Looked>
    requires run { MayRun A.Law.law }
    requires who { worker.seat.who ≡ A.who access }
    requires kept { IsKept A.beside A.Law.law.floor worker.seat (A.seen access) }
    requires worker { WorkerOk A.Law.law S.meaning worker.seat.who (A.seen access) worker.seat worker.desks.items }
    requires home { IsHome A.Law.law.may session worker.seat.who }
    ensures desks { result.part.desks ≡ worker.desks }
    ensures who { A.who result.access ≡ A.who access }
    ensures left { IsLeft A.Law.law S.meaning A.beside ⊥ (A.seen access) worker.seat (A.seen result.access) result.part.seat }
    ensures worker { IfOk result.answer (λ l. WorkerOk A.Law.law S.meaning worker.seat.who (A.seen result.access) result.part.seat result.part.desks.items) }
    ensures kept { IfOk result.answer (λ l. IsKept A.beside A.Law.law.floor result.part.seat (A.seen result.access)) }
    ensures adds { IfOk result.answer (λ l. OwnAdds worker.seat.who IsOfSessions (A.seen access) (A.seen result.access)) }
    ensures looks { IfOk result.answer (λ l. (d : Desk) → slice_get worker.desks.items session ≡ Some d → Looks (record A.Law.law { may = OwnWithin worker.seat.who A.Law.law.may (sent_by worker.desks.items) }) (node_of worker.seat (A.seen access)) (node_of result.part.seat (A.seen result.access)) d query.now l) }
{
    look_by::<A, Brand, S, C>(access, worker, session, query)
}

/// A phase ends at the worker's node. Answers why no tail was found, if none was. Where the log isn't kept from where the node is, as
/// behind its leave, the answers of all sessions were taken before.
pub fn end_phase<A: Access, S: Replica, C: Chooser>(
    access: A,
    worker: Worker<S, C>,
) -> Back<A, Worker<S, C>, Option<Cause>>
    requires run { MayRun A.Law.law }
    requires who { worker.seat.who ≡ A.who access }
    requires stays { IsKept A.beside A.Law.law.floor worker.seat (A.seen access) ⊎ AllAnswered (node_of worker.seat (A.seen access)) worker.desks.items }
    requires worker { WorkerOk A.Law.law S.meaning worker.seat.who (A.seen access) worker.seat worker.desks.items }
    ensures who { A.who result.access ≡ A.who access }
    ensures left { IsLeft A.Law.law S.meaning A.beside ⊥ (A.seen access) worker.seat (A.seen result.access) result.part.seat }
    ensures worker { IfOk result.answer (λ f. WorkerOk A.Law.law S.meaning worker.seat.who (A.seen result.access) result.part.seat result.part.desks.items) }
    ensures kept { IsKept A.beside A.Law.law.floor worker.seat (A.seen access) → IfOk result.answer (λ f. IsKept A.beside A.Law.law.floor result.part.seat (A.seen result.access)) }

    // Nothing is trimmed above where the node was before.
    ensures low { IsKept A.beside A.Law.law.floor worker.seat (A.seen access) → TrimsUpTo worker.seat.node.replica.cursor (A.seen result.access) }
    ensures adds { IfOk result.answer (λ f. OwnAdds worker.seat.who IsOfSessions (A.seen access) (A.seen result.access)) }
    ensures ends { IfOk result.answer (EndsTurn (record A.Law.law { may = OwnWithin worker.seat.who A.Law.law.may (sent_by worker.desks.items) }) (node_of worker.seat (A.seen access)) (node_of result.part.seat (A.seen result.access)) worker.desks.items result.part.desks.items) }
{
    let Worker { seat, desks } = worker;
    let mut desks = desks;
    let Back {
        part: seat,
        access,
        answer,
    } = in_turn::<A, Brand, S, C, End>(access, seat, End, &mut desks);
    Back {
        part: Worker { seat, desks },
        access,
        answer,
    }
}
