//! All phases of a run.
ghost use Rattle.std.specs.Prelude.{◌≡◌, ◌<◌, ◌≤◌, [], ℕ, length, OnOk};
ghost use Rattle.turn_scopes.specs.Floors.{FloorIs};
ghost use Rattle.node_lines.specs.Workers.{MayRun};
ghost use Rattle.node_course.specs.FaultLines.{AreFaultLines, HaveActed};
ghost use Rattle.node_crew.specs.Turns.{MaySendAll};
ghost use Rattle.node_crew.specs.Arming.{ArmedByStops};
ghost use Rattle.node_crew.specs.Crews.{CrewRests, CrewStands};
ghost use Rattle.node_threads.specs.Passes.{IsRested, journal_of};
ghost use Rattle.node_threads.specs.Phases.{EndsFaults, EndsPhase, IsNextPhase};

use crate::phase::play_phase;
use fate_words::chooser::Chooser;
use gate_points::Gate;
use legal_journal::rules::Rules;
use locked_turns::desk::Desk;
use locked_turns::room::Room;
use loglet_api::loglet::Loglet;
use node_crew::crew::{Crew, CrewBack};
use node_crew::faults::PhaseFaults;
use node_lines::lines::Looked;
use node_workers::worker::Worker;
use pass_lock::{Pass, Shared};
use register_api::Register;
use replica_api::replica::Replica;
use script_text::asks::NamedLine;
use script_text::faults::FaultLine;
use std::alloc::{AllocError, Global};
use std::marker::Brand;
use std::sync::Wait;
use std::thread::Threads;
use turn_scopes::terms::{By, Terms};

/// Where the lines of a phase end, that begin at `from`.
fn end_of_phase(lines: &[NamedLine], from: usize, phase: u64) -> usize
    requires { from ≤ length lines.now }
    ensures range { (from ≤ result) × (result ≤ length lines.now) }
    ensures ends { EndsPhase lines.now from result phase }
{
    for i in from..lines.len() {
        if lines[i].phase > phase {
            return i;
        }
    }
    lines.len()
}

/// Where the fault lines of a phase end, that begin at `next`.
fn end_of_faults(faults: &[FaultLine], next: usize, phase: u64) -> usize
    requires { next ≤ length faults.now }
    ensures range { (next ≤ result) × (result ≤ length faults.now) }
    ensures ends { EndsFaults faults.now next result phase }
{
    for i in next..faults.len() {
        if faults[i].phase > phase {
            return i;
        }
    }
    faults.len()
}

/// The phase of the line at `from` or of the fault line at `next`, of whichever comes first.
fn next_phase(lines: &[NamedLine], from: usize, faults: &[FaultLine], next: usize) -> u64
    requires some { length lines.now ≤ from → next < length faults.now }
    ensures { IsNextPhase lines.now from faults.now next result }
{
    if next >= faults.len() {
        return lines[from].phase;
    }
    if from >= lines.len() || faults[next].phase <= lines[from].phase {
        return faults[next].phase;
    }
    lines[from].phase
}

/// Plays all lines, over a lock whose name is known.
fn play_in<
    'a,
    L: Loglet + Send,
    R: Register + Send,
    P: Rules + Send,
    B: Room + Send,
    W: Threads + Wait + Sync,
    S: Replica + Send,
    C: Chooser + Send,
    G: Gate + Sync,
>(
    rt: &'a W,
    alloc: Global,
    lock: &'a Shared<Desk<L, R, P>>,
    main: &mut Pass<Desk<L, R, P>>,
    workers: &mut Vec<Worker<S, C>>,
    looks: &mut Vec<Option<Looked>>,
    lines: &[NamedLine],
    faults: &[FaultLine],
    cells: u32,
    gate: &G,
) -> Result<(), AllocError>
    requires room { lock.now ≡ B.lock }
    requires rested { IsRested B.lock main.old }
    requires run { MayRun P.law }
    requires sends { MaySendAll P.law.may lines.now }
    requires floor { FloorIs P.law.floor (length workers.old.items) }
    requires eight { length workers.old.items ≤ 8 }
    requires cells { (0 < cells) × (cells ≡ length P.law.shelf) }
    requires faults { AreFaultLines lines.now faults.now P.law.shelf (length workers.old.items) }
    requires none { journal_of main.old ≡ [] }
    requires fresh { CrewRests P.law S.meaning lines.now faults.now 0 0 (journal_of main.old) looks.old.items (λ w. w.seat) (λ w. w.desks.items) workers.old.items }
    requires stands { CrewStands P.law S.meaning (journal_of main.old) (λ w. w.seat) workers.old.items }
    ensures rested { IsRested B.lock main.new }
    ensures played { OnOk result ((phase : ℕ) × CrewRests P.law S.meaning lines.now faults.now (length lines.now) phase (journal_of main.new) looks.new.items (λ w. w.seat) (λ w. w.desks.items) workers.new.items) }
    ensures stands { CrewStands P.law S.meaning (journal_of main.new) (λ w. w.seat) workers.new.items }
    ensures size { length workers.new.items ≡ length workers.old.items }
    ensures acted { OnOk result (HaveActed cells faults.now 0 (journal_of main.new)) }
    ensures armed { OnOk result (ArmedByStops faults.now (λ w. w.seat.node.replica) workers.old.items workers.new.items) }
{
    let mut from = 0;
    let mut next = 0;
    while from < lines.len() || next < faults.len() {
        let phase = next_phase(lines, from, faults, next);
        let to = end_of_phase(lines, from, phase);
        let until = end_of_faults(faults, next, phase);
        let present = PhaseFaults {
            lines: faults,
            phase,
            from: next,
            to: until,
        };
        play_phase::<L, R, P, B, W, S, C, G>(
            rt, alloc, lock, main, workers, looks, lines, from, to, &present, cells, gate,
        )?;
        from = to;
        next = until;
    }
    Ok(())
}

/// Plays all lines: the nodes side by side over the fabric under a lock, in threads, as `play_phase` has them, and beside them what the fault lines ask for
/// of the fabric. At a phase's end all are joined.
///
/// Cost: that of the lines and of the phases' ends, of the nodes side by side; for each phase a thread for each node with a part in it but
/// one, and a look at the lines for each node; what `play_phase` says of fault lines. A turn has the lock as long as its one event takes.
pub fn play_phases<
    L: Loglet + Send,
    R: Register + Send,
    K: Terms + Send,
    W: Threads + Wait + Sync,
    S: Replica + Send,
    C: Chooser + Send,
    G: Gate + Sync,
>(
    rt: &W,
    alloc: Global,
    crew: Crew<L, R, K, S, C>,
    lines: &[NamedLine],
    faults: &[FaultLine],
    gate: &G,
) -> CrewBack<L, R, K, S, C, ()>
    requires run { MayRun K.law }
    requires sends { MaySendAll K.law.may lines.now }
    requires floor { FloorIs K.law.floor (length crew.workers.items) }
    requires eight { length crew.workers.items ≤ 8 }
    requires none { crew.fabric.journal ≡ [] }
    requires faults { AreFaultLines lines.now faults.now K.law.shelf (length crew.workers.items) }
    requires fresh { CrewRests K.law S.meaning lines.now faults.now 0 0 crew.fabric.journal crew.looks.items (λ w. w.seat) (λ w. w.desks.items) crew.workers.items }
    requires stands { CrewStands K.law S.meaning crew.fabric.journal (λ w. w.seat) crew.workers.items }
    ensures played { OnOk result.answer ((phase : ℕ) × CrewRests K.law S.meaning lines.now faults.now (length lines.now) phase result.crew.fabric.journal result.crew.looks.items (λ w. w.seat) (λ w. w.desks.items) result.crew.workers.items) }
    ensures stands { CrewStands K.law S.meaning result.crew.fabric.journal (λ w. w.seat) result.crew.workers.items }
    ensures size { length result.crew.workers.items ≡ length crew.workers.items }

    // What the fault lines ask for of the fabric was done, phase by phase, and nobody broke or mended anything else.
    ensures acted { OnOk result.answer (HaveActed (length K.law.shelf) faults.now 0 result.crew.fabric.journal) }

    // The stops of each node, phase by phase, and nothing else, armed its disk.
    ensures armed { OnOk result.answer (ArmedByStops faults.now (λ w. w.seat.node.replica) crew.workers.items result.crew.workers.items) }
{
    let Crew {
        fabric,
        workers,
        looks,
    } = crew;
    let (mut workers, mut looks) = (workers, looks);
    let cells = fabric.shelf_len();
    match Shared::new(alloc, Desk { fabric }) {
        Ok((lock, mut main)) => {
            let answer = play_in::<L, R, By<K>, Brand, W, S, C, G>(
                rt,
                alloc,
                &lock,
                &mut main,
                &mut workers,
                &mut looks,
                lines,
                faults,
                cells,
                gate,
            );
            let Desk { fabric } = lock.close(main);
            CrewBack {
                crew: Crew {
                    fabric,
                    workers,
                    looks,
                },
                answer,
            }
        }
        Err(desk) => {
            let Desk { fabric } = desk;
            CrewBack {
                crew: Crew {
                    fabric,
                    workers,
                    looks,
                },
                answer: Err(AllocError),
            }
        }
    }
}
