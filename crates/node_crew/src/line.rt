//! A line is played at its node.
ghost use Rattle.std.specs.Prelude.{◌≡◌, ◌≤◌, ◌+◌, ◌++◌, ◌∷◌, [], ℕ, List, Some, Option, Ok, OnOk, slice_get};
ghost use Rattle.base_engine.specs.Arming.{LeavesArming};
ghost use Rattle.turn_scopes.specs.Beside.{Since};
ghost use Rattle.turn_scopes.specs.Floors.{FloorIs};
ghost use Rattle.turn_scopes.specs.Seats.{SeatOk};
ghost use Rattle.script_text.specs.declared.asks.NamedLine.{NamedLine};
ghost use Rattle.script_text.specs.declared.asks.Asks.TheVariants as asks;
ghost use Rattle.node_lines.specs.declared.lines.Looked.{Looked};
ghost use Rattle.node_lines.specs.Workers.{WorkerOk, MayRun};
ghost use Rattle.node_course.specs.Moments.{NodeCourse};
ghost use Rattle.node_course.specs.Workers.{CanPlay, CanSend, IsNext, LineWent};
ghost use Rattle.node_crew.specs.Notes.{NotesLine, noted};
ghost use Rattle.node_crew.specs.Turns.{IsUnderWay, CanEnd};

use crate::note::Note;
use fate_words::chooser::Chooser;
use node_lines::lines::Looked;
use node_workers::admin::{extend_line, report_line, trim_line};
use node_workers::back::Back;
use node_workers::leaving::leave_line;
use node_workers::or_back;
use node_workers::turns::{log_line, look_line};
use node_workers::worker::Worker;
use replica_api::replica::Replica;
use script_text::asks::{Asks, NamedLine};
use script_text::line::Admin;
use std::alloc::{AllocError, Global};
use turn_scopes::access::Access;

/// What the look of line `i` came to is noted.
fn keep_look<A: Access, P>(
    looked: Back<A, P, Looked>,
    notes: &mut Vec<Note>,
    i: usize,
) -> Back<A, P, ()>
    ensures part { result.part ≡ looked.part }
    ensures access { result.access ≡ looked.access }
    ensures notes { OnOk result.answer ((look : Looked) × (looked.answer ≡ Ok look) × (notes.new.items ≡ notes.old.items ++ (record { line = i; look = look }) ∷ [])) }
    ensures line { NotesLine i notes.old.items notes.new.items }
{
    let Back {
        part,
        access,
        answer,
    } = looked;
    let look = or_back!(part, access, answer);
    match notes.push(Note { line: i, look }) {
        Ok(()) => {
            Back {
                part,
                access,
                answer: Ok(()),
            }
        }
        Err(_) => {
            Back {
                part,
                access,
                answer: Err(AllocError),
            }
        }
    }
}

/// Plays line `i`, which asks this of the worker's node itself: what it came to is noted.
fn play_admin<A: Access, S: Replica, C: Chooser>(
    alloc: Global,
    access: A,
    worker: Worker<S, C>,
    notes: &mut Vec<Note>,
    i: usize,
    line: &NamedLine,
    admin: Admin,
) -> Back<A, Worker<S, C>, ()>
    requires run { MayRun A.Law.law }
    requires who { worker.seat.who ≡ A.who access }
    requires worker { WorkerOk A.Law.law S.meaning worker.seat.who (A.seen access) worker.seat worker.desks.items }
    requires node { line.now.node ≡ worker.seat.who }
    requires asked { line.now.asks ≡ asks.Admin admin }
    requires sends { CanSend A.Law.law.may worker.seat.who (asks.Admin admin) }
    requires can { CanPlay worker.seat.who (A.seen access) worker.seat }
    requires number { (1 ≤ worker.seat.who) × (worker.seat.who ≤ worker.seat.node.nodes) }
    requires floor { FloorIs A.Law.law.floor worker.seat.node.nodes }

    // The node's course goes on.
    ensures goes { (lines : List NamedLine) (home : ℕ → ℕ) (nodes : ℕ) (c : NodeCourse) (from : ℕ) (looks : List (Option Looked)) → slice_get lines i ≡ Some line.now → line.now.phase ≡ c.phase
        → IsUnderWay A.Law.law S.meaning lines home nodes c (noted looks notes.old.items) worker.seat.who from i (A.seen access) worker.seat worker.desks.items
        → OnOk result.answer (LineWent A.Law.law S.meaning lines home nodes c (noted looks notes.new.items) worker.seat.who from (i + 1) (A.seen result.access) result.part.seat result.part.desks.items) }
    ensures notes { NotesLine i notes.old.items notes.new.items }

    // The phase can end then.
    ensures ends { OnOk result.answer (CanEnd A.beside A.Law.law.floor (A.seen result.access) result.part.seat result.part.desks.items) }
    ensures stands { SeatOk A.Law.law S.meaning (A.seen result.access) result.part.seat }

    // Nothing but a stop arms the node's disk.
    ensures arming { OnOk result.answer (LeavesArming 0 worker.seat.node.replica result.part.seat.node.replica) }
    ensures since { Since worker.seat.who (A.beside worker.seat.who) (A.seen access) (A.seen result.access) }
    ensures who { result.part.seat.who ≡ worker.seat.who }
    ensures whose { A.who result.access ≡ A.who access }
{
    match admin {
        Admin::Extend => {
            let looked = extend_line(access, worker);
            keep_look(looked, notes, i)
        }
        Admin::Alive => {
            let looked = report_line(alloc, access, worker, line.node);
            keep_look(looked, notes, i)
        }
        Admin::Retire => {
            let looked = leave_line(alloc, access, worker, line.node);
            keep_look(looked, notes, i)
        }
        Admin::Trim => {
            let looked = trim_line(alloc, access, worker, line.node);
            keep_look(looked, notes, i)
        }
    }
}

/// Plays line `i`, which is the worker's: a command is handed in, and what a read came to, or a line that asks something of the node
/// itself, is noted.
pub fn play_line<A: Access, S: Replica, C: Chooser>(
    alloc: Global,
    access: A,
    worker: Worker<S, C>,
    notes: &mut Vec<Note>,
    i: usize,
    line: &NamedLine,
) -> Back<A, Worker<S, C>, ()>
    requires run { MayRun A.Law.law }
    requires who { worker.seat.who ≡ A.who access }
    requires worker { WorkerOk A.Law.law S.meaning worker.seat.who (A.seen access) worker.seat worker.desks.items }
    requires node { line.now.node ≡ worker.seat.who }
    requires next { IsNext worker.desks.items line.now.asks }
    requires sends { CanSend A.Law.law.may worker.seat.who line.now.asks }
    requires can { CanPlay worker.seat.who (A.seen access) worker.seat }
    requires number { (1 ≤ worker.seat.who) × (worker.seat.who ≤ worker.seat.node.nodes) }
    requires floor { FloorIs A.Law.law.floor worker.seat.node.nodes }

    // The node's course goes on.
    ensures goes { (lines : List NamedLine) (home : ℕ → ℕ) (nodes : ℕ) (c : NodeCourse) (from : ℕ) (looks : List (Option Looked)) → slice_get lines i ≡ Some line.now → line.now.phase ≡ c.phase
        → IsUnderWay A.Law.law S.meaning lines home nodes c (noted looks notes.old.items) worker.seat.who from i (A.seen access) worker.seat worker.desks.items
        → OnOk result.answer (LineWent A.Law.law S.meaning lines home nodes c (noted looks notes.new.items) worker.seat.who from (i + 1) (A.seen result.access) result.part.seat result.part.desks.items) }
    ensures notes { NotesLine i notes.old.items notes.new.items }

    // The phase can end then.
    ensures ends { OnOk result.answer (CanEnd A.beside A.Law.law.floor (A.seen result.access) result.part.seat result.part.desks.items) }
    ensures stands { SeatOk A.Law.law S.meaning (A.seen result.access) result.part.seat }

    // Nothing but a stop arms the node's disk.
    ensures arming { OnOk result.answer (LeavesArming 0 worker.seat.node.replica result.part.seat.node.replica) }
    ensures since { Since worker.seat.who (A.beside worker.seat.who) (A.seen access) (A.seen result.access) }
    ensures who { result.part.seat.who ≡ worker.seat.who }
    ensures whose { A.who result.access ≡ A.who access }
{
    match &line.asks {
        Asks::Logged {
            session,
            rank: _,
            command,
        } => { log_line(alloc, access, worker, session.id, command) }
        Asks::Look { session, query } => {
            // There is a desk for each session: its number is at most 63.
            let _number = session.id.number();
            let looked = look_line(access, worker, session.id, query);
            keep_look(looked, notes, i)
        }
        Asks::Admin(admin) => { play_admin(alloc, access, worker, notes, i, line, *admin) }
    }
}
