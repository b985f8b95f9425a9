//! A node's lines of a phase, and the phase's end there.
ghost use Rattle.std.specs.Prelude.{◌≡◌, ◌<◌, ◌≤◌, ◌+◌, ℕ, List, Option, Some, length, slice_get, OnOk};
ghost use Rattle.script_text.specs.declared.asks.NamedLine.{NamedLine};
ghost use Rattle.script_text.specs.declared.faults.FaultLine.{FaultLine};
ghost use Rattle.turn_scopes.specs.Beside.{Since};
ghost use Rattle.turn_scopes.specs.Floors.{FloorIs};
ghost use Rattle.turn_scopes.specs.Seats.{SeatOk};
ghost use Rattle.node_lines.specs.Workers.{MayRun, WorkerOk};
ghost use Rattle.node_course.specs.Script.{BeginsAt};
ghost use Rattle.node_course.specs.FaultLines.{ArmedBy, AreFaultLines, AreOfPhase, stops_in};
ghost use Rattle.node_course.specs.Moments.{NodeCourse};
ghost use Rattle.node_course.specs.Workers.{CanPlay, CanSend, IsNext, LineWent, HasRested};
ghost use Rattle.node_lines.specs.declared.lines.Looked.{Looked};
ghost use Rattle.node_crew.specs.Notes.{AreNotesOf, NotesLine, noted};
ghost use Rattle.node_crew.specs.Stops.{stops_between};
ghost use Rattle.node_crew.specs.Turns.{IsPlaying, IsUnderWay, CanEnd, MaySendAll};

use crate::faults::PhaseFaults;
use crate::line::play_line;
use crate::note::Note;
use crate::stops::{arm_between, first_behind};
use delos_types::numbers::NodeId;
use fate_words::chooser::Chooser;
use node_workers::back::Back;
use node_workers::turns::end_phase;
use node_workers::worker::Worker;
use replica_api::replica::Replica;
use script_text::asks::NamedLine;
use std::alloc::Global;
use turn_scopes::access::Access;

/// Plays line `i`, which is the worker's, once the stops of its node that stand above it have armed the disk: those among the phase's
/// fault lines from `next` on, which is moved on behind them.
fn play_own<A: Access, S: Replica, C: Chooser>(
    alloc: Global,
    access: A,
    worker: Worker<S, C>,
    notes: &mut Vec<Note>,
    i: usize,
    line: &NamedLine,
    faults: &PhaseFaults,
    next: &mut usize,
) -> Back<A, Worker<S, C>, ()>
    requires run { MayRun A.Law.law }
    requires who { worker.seat.who ≡ A.who access }
    requires worker { WorkerOk A.Law.law S.meaning worker.seat.who (A.seen access) worker.seat worker.desks.items }
    requires node { line.now.node ≡ worker.seat.who }
    requires next { IsNext worker.desks.items line.now.asks }
    requires sends { CanSend A.Law.law.may worker.seat.who line.now.asks }
    requires can { CanPlay worker.seat.who (A.seen access) worker.seat }
    requires number { (1 ≤ worker.seat.who) × (worker.seat.who ≤ worker.seat.node.nodes) }
    requires floor { FloorIs A.Law.law.floor worker.seat.node.nodes }
    requires range { (next.old ≤ faults.now.to) × (faults.now.to ≤ length faults.now.lines.now) }
    ensures goes { (lines : List NamedLine) (home : ℕ → ℕ) (nodes : ℕ) (c : NodeCourse) (from : ℕ) (looks : List (Option Looked)) → slice_get lines i ≡ Some line.now → line.now.phase ≡ c.phase
        → IsUnderWay A.Law.law S.meaning lines home nodes c (noted looks notes.old.items) worker.seat.who from i (A.seen access) worker.seat worker.desks.items
        → OnOk result.answer (LineWent A.Law.law S.meaning lines home nodes c (noted looks notes.new.items) worker.seat.who from (i + 1) (A.seen result.access) result.part.seat result.part.desks.items) }
    ensures notes { NotesLine i notes.old.items notes.new.items }
    ensures ends { OnOk result.answer (CanEnd A.beside A.Law.law.floor (A.seen result.access) result.part.seat result.part.desks.items) }
    ensures stands { SeatOk A.Law.law S.meaning (A.seen result.access) result.part.seat }

    // The stops above the line, and no others, armed the disk.
    ensures range { (next.old ≤ next.new) × (next.new ≤ faults.now.to) }
    ensures above { (k : ℕ) (f : FaultLine) → slice_get faults.now.lines.now k ≡ Some f → next.old ≤ k → k < next.new → f.before ≤ i }
    ensures behind { (f : FaultLine) → next.new < faults.now.to → slice_get faults.now.lines.now next.new ≡ Some f → i < f.before }
    ensures armed { OnOk result.answer (ArmedBy (stops_between worker.seat.who next.old next.new faults.now.lines.now) worker.seat.node.replica result.part.seat.node.replica) }
    ensures since { Since worker.seat.who (A.beside worker.seat.who) (A.seen access) (A.seen result.access) }
    ensures who { result.part.seat.who ≡ worker.seat.who }
    ensures whose { A.who result.access ≡ A.who access }
{
    let from = *next;
    let to = first_behind(faults, from, i);
    *next = to;
    let mut worker = worker;
    arm_between(&mut worker.seat, line.node, faults.lines, from, to);
    play_line(alloc, access, worker, notes, i, line)
}

/// Plays the worker's lines among those from `from` up to `to`, and has the stops of the phase arm its disk, where they stand among them.
fn play_lines<A: Access, S: Replica, C: Chooser>(
    alloc: Global,
    access: A,
    worker: Worker<S, C>,
    notes: &mut Vec<Note>,
    node: NodeId,
    lines: &[NamedLine],
    from: usize,
    to: usize,
    faults: &PhaseFaults,
) -> Back<A, Worker<S, C>, ()>
    requires run { MayRun A.Law.law }
    requires node { worker.seat.who ≡ node }
    requires who { A.who access ≡ node }
    requires range { (from ≤ to) × (to ≤ length lines.now) }
    requires sends { MaySendAll A.Law.law.may lines.now }
    requires floor { FloorIs A.Law.law.floor worker.seat.node.nodes }
    requires faults { AreFaultLines lines.now faults.now.lines.now A.Law.law.shelf worker.seat.node.nodes }
    requires of_phase { AreOfPhase faults.now.lines.now faults.now.phase faults.now.from faults.now.to }
    requires playing { (looks : List (Option Looked)) × IsPlaying A.Law.law S.meaning lines.now faults.now.lines.now (noted looks notes.old.items) node from to (A.seen access) worker.seat worker.desks.items }
    requires own { AreNotesOf lines.now node notes.old.items }
    ensures goes { (home : ℕ → ℕ) (nodes : ℕ) (c : NodeCourse) (looks : List (Option Looked))
        → IsUnderWay A.Law.law S.meaning lines.now home nodes c (noted looks notes.old.items) node from from (A.seen access) worker.seat worker.desks.items → BeginsAt lines.now to (c.phase + 1)
        → OnOk result.answer (LineWent A.Law.law S.meaning lines.now home nodes c (noted looks notes.new.items) node from to (A.seen result.access) result.part.seat result.part.desks.items) }
    ensures own { AreNotesOf lines.now node notes.new.items }

    // The stops of the phase, and nothing else, armed the node's disk.
    ensures armed { OnOk result.answer (ArmedBy (stops_in node faults.now.phase faults.now.lines.now) worker.seat.node.replica result.part.seat.node.replica) }

    // The phase can end then.
    ensures ends { OnOk result.answer (CanEnd A.beside A.Law.law.floor (A.seen result.access) result.part.seat result.part.desks.items) }
    ensures stands { SeatOk A.Law.law S.meaning (A.seen result.access) result.part.seat }
    ensures since { Since worker.seat.who (A.beside worker.seat.who) (A.seen access) (A.seen result.access) }
    ensures who { result.part.seat.who ≡ worker.seat.who }
    ensures whose { A.who result.access ≡ A.who access }
{
    let mut access = access;
    let mut worker = worker;
    let mut next = faults.from;
    for i in from..to {
        let line = &lines[i];
        if line.node == node {
            let Back {
                part: played,
                access: rest,
                answer,
            } = play_own(alloc, access, worker, notes, i, line, faults, &mut next);
            worker = played;
            access = rest;
            match answer {
                Ok(()) => {}
                Err(fault) => {
                    return Back {
                        part: worker,
                        access,
                        answer: Err(fault),
                    };
                }
            }
        }
    }
    arm_between(&mut worker.seat, node, faults.lines, next, faults.to);
    Back {
        part: worker,
        access,
        answer: Ok(()),
    }
}

/// A node's turn in a phase, whose lines are those from `from` up to `to`, and whose stops arm its disk where they stand among them.
pub fn play_turn<A: Access, S: Replica, C: Chooser>(
    alloc: Global,
    access: A,
    worker: Worker<S, C>,
    notes: &mut Vec<Note>,
    node: NodeId,
    lines: &[NamedLine],
    from: usize,
    to: usize,
    faults: &PhaseFaults,
) -> Back<A, Worker<S, C>, ()>
    requires run { MayRun A.Law.law }
    requires node { worker.seat.who ≡ node }
    requires who { A.who access ≡ node }
    requires range { (from ≤ to) × (to ≤ length lines.now) }
    requires sends { MaySendAll A.Law.law.may lines.now }
    requires floor { FloorIs A.Law.law.floor worker.seat.node.nodes }
    requires faults { AreFaultLines lines.now faults.now.lines.now A.Law.law.shelf worker.seat.node.nodes }
    requires of_phase { AreOfPhase faults.now.lines.now faults.now.phase faults.now.from faults.now.to }
    requires playing { (looks : List (Option Looked)) × IsPlaying A.Law.law S.meaning lines.now faults.now.lines.now (noted looks notes.old.items) node from to (A.seen access) worker.seat worker.desks.items }
    requires own { AreNotesOf lines.now node notes.old.items }
    ensures goes { (home : ℕ → ℕ) (nodes : ℕ) (c : NodeCourse) (looks : List (Option Looked))
        → IsUnderWay A.Law.law S.meaning lines.now home nodes c (noted looks notes.old.items) node from from (A.seen access) worker.seat worker.desks.items → BeginsAt lines.now to (c.phase + 1)
        → OnOk result.answer (HasRested A.Law.law S.meaning lines.now home nodes c (noted looks notes.new.items) node to (c.phase + 1) (A.seen result.access) result.part.seat result.part.desks.items) }
    ensures own { AreNotesOf lines.now node notes.new.items }

    // The stops of the phase, and nothing else, armed the node's disk.
    ensures armed { OnOk result.answer (ArmedBy (stops_in node faults.now.phase faults.now.lines.now) worker.seat.node.replica result.part.seat.node.replica) }
    ensures stands { SeatOk A.Law.law S.meaning (A.seen result.access) result.part.seat }
    ensures since { Since worker.seat.who (A.beside worker.seat.who) (A.seen access) (A.seen result.access) }
    ensures who { result.part.seat.who ≡ worker.seat.who }
    ensures whose { A.who result.access ≡ A.who access }
{
    let Back {
        part: worker,
        access,
        answer,
    } = play_lines(alloc, access, worker, notes, node, lines, from, to, faults);
    match answer {
        Ok(()) => {}
        Err(fault) => {
            return Back {
                part: worker,
                access,
                answer: Err(fault),
            };
        }
    }
    let Back {
        part: worker,
        access,
        answer,
    } = end_phase(access, worker);
    match answer {
        Ok(_failed) => {
            Back {
                part: worker,
                access,
                answer: Ok(()),
            }
        }
        Err(fault) => {
            Back {
                part: worker,
                access,
                answer: Err(fault),
            }
        }
    }
}
