//! The lines of a run are played, its nodes close, and its rows are told.
ghost use Rattle.std.specs.Prelude.{◌≡◌, ◌≤◌, ℕ, List, [], length, map, IfOk};
ghost use Rattle.delos_types.specs.declared.entry.Entry.{Entry};
ghost use Rattle.turn_scopes.specs.Floors.{FloorIs};
ghost use Rattle.node_lines.specs.Workers.{MayRun};
ghost use Rattle.run_ends.specs.Rules.{may_of};
ghost use Rattle.node_course.specs.FaultLines.{AreFaultLines};
ghost use Rattle.node_crew.specs.Turns.{MaySendAll};
ghost use Rattle.node_crew.specs.Arming.{ArmedByStops};
ghost use Rattle.node_crew.specs.Crews.{CrewRests, CrewStands};
ghost use Rattle.run_ends.specs.Closing.{WorkerEnd, HasClosed};
ghost use Rattle.run_closing.specs.Finishing.{SeesAll};
ghost use Rattle.run_closing.specs.Opening.{MendsOnly};
ghost use Rattle.crew_run.specs.Acting.{HasActed};
ghost use Rattle.crew_run.specs.Telling.{FitsGivenBack};

use crate::laws::{
    a_calm_journal_tells_no_fault, a_calm_run_has_seen_all, the_chain_is_registered,
};
use fate_words::chooser::Chooser;
use fitting_run::told::Told;
use gate_points::Gate;
use last_chain::last::{Last, read_last};
use loglet_api::loglet::Loglet;
use node_crew::crew::{Crew, CrewBack};
use node_threads::phases::play_phases;
use register_api::Register;
use replica_api::replica::Replica;
use run_closing::close::close;
use run_closing::rows::rows_of;
use run_ends::ends::{
    each_segment_is_told, reads_change_nothing, what_closed_can_be_told, what_closed_has_ended,
};
use run_laws::laws::{a_calm_run_answers_all, what_ended_fits};
use script_text::asks::NamedLine;
use script_text::faults::FaultLine;
use std::alloc::{AllocError, Global};
use std::sync::Wait;
use std::thread::Threads;
use turn_scopes::terms::{By, Terms};

/// The user that reads the chain as a run closes, which is no node.
const NOBODY: u32 = 0;

/// Reads the chain a last time, and tells the rows. The nodes have closed, having played `end` entries of the log.
fn tell_closed<L: Loglet, R: Register, K: Terms, S: Replica, C: Chooser>(
    alloc: Global,
    crew: Crew<L, R, K, S, C>,
    lines: &[NamedLine],
    _faults: &[FaultLine],
    end: u64,
) -> CrewBack<L, R, K, S, C, Told>
    requires run { MayRun K.law }
    requires may { (who : ℕ) (e : Entry) → K.law.may who e → may_of lines.now who e }
    requires floor { FloorIs K.law.floor (length crew.workers.items) }
    requires closed { (log : List Entry) × (length log ≡ end) × HasClosed K.law S.meaning lines.now _faults.now crew.fabric.journal crew.looks.items log (map (λ w. record { seat = w.seat; desks = w.desks.items }) crew.workers.items) }
    requires sees { SeesAll crew.fabric.journal (λ (w : WorkerEnd). w.seat) (map (λ w. record { seat = w.seat; desks = w.desks.items }) crew.workers.items) end }
    requires stands { CrewStands K.law S.meaning crew.fabric.journal (λ w. w.seat) crew.workers.items }
    ensures told { IfOk result.answer (FitsGivenBack K.law lines.now _faults.now result.crew.fabric.journal (map (λ w. record { seat = w.seat; desks = w.desks.items }) result.crew.workers.items)) }

    // The register was opened again at most once, and nothing else was broken or mended.
    ensures mends { IfOk result.answer (λ told. MendsOnly 1 crew.fabric.journal result.crew.fabric.journal) }
    ensures workers { result.crew.workers.items ≡ crew.workers.items }
    ensures stands { CrewStands K.law S.meaning result.crew.fabric.journal (λ w. w.seat) result.crew.workers.items }
    ensures size { length result.crew.workers.items ≡ length crew.workers.items }
{
    what_closed_can_be_told::<By<K>, S>();
    reads_change_nothing::<By<K>, S>();
    what_closed_has_ended::<By<K>, S>();
    each_segment_is_told::<By<K>, S>();
    a_calm_journal_tells_no_fault::<By<K>>();
    what_ended_fits();
    a_calm_run_answers_all();
    the_chain_is_registered::<By<K>>();
    a_calm_run_has_seen_all::<By<K>>();
    let Crew {
        fabric,
        workers,
        looks,
    } = crew;
    let Last { fabric, answer } = read_last(alloc, NOBODY, fabric);
    let _told = fabric.journal();
    let rows = rows_of(alloc, lines, workers.as_slice(), looks.as_slice());
    let crew = Crew {
        fabric,
        workers,
        looks,
    };
    match (answer, rows) {
        (Ok(last), Ok(rows)) => {
            CrewBack {
                crew,
                answer: Ok(Told {
                    rows,
                    end,
                    version: last.version,
                    chain: last.chain,
                    down: last.down,
                }),
            }
        }
        _ => {
            CrewBack {
                crew,
                answer: Err(AllocError),
            }
        }
    }
}

/// Plays all lines, the nodes in threads, and what fault lines ask beside them, closes the nodes, and tells the rows and the chain.
pub fn tell<
    L: Loglet + Send,
    R: Register + Send,
    K: Terms + Send,
    W: Threads + Wait + Sync,
    S: Replica + Send,
    C: Chooser + Send,
    G: Gate + Sync,
>(
    rt: &W,
    alloc: Global,
    crew: Crew<L, R, K, S, C>,
    lines: &[NamedLine],
    faults: &[FaultLine],
    gate: &G,
) -> CrewBack<L, R, K, S, C, Told>
    requires run { MayRun K.law }
    requires may { (who : ℕ) (e : Entry) → K.law.may who e → may_of lines.now who e }
    requires floor { FloorIs K.law.floor (length crew.workers.items) }
    requires sends { MaySendAll K.law.may lines.now }
    requires faults { AreFaultLines lines.now faults.now K.law.shelf (length crew.workers.items) }
    requires eight { length crew.workers.items ≤ 8 }
    requires none { crew.fabric.journal ≡ [] }
    requires fresh { CrewRests K.law S.meaning lines.now faults.now 0 0 crew.fabric.journal crew.looks.items (λ w. w.seat) (λ w. w.desks.items) crew.workers.items }
    requires stands { CrewStands K.law S.meaning crew.fabric.journal (λ w. w.seat) crew.workers.items }
    ensures told { IfOk result.answer (FitsGivenBack K.law lines.now faults.now result.crew.fabric.journal (map (λ w. record { seat = w.seat; desks = w.desks.items }) result.crew.workers.items)) }

    // What was broken and mended is what fault lines ask, and at most two openings of the register as the nodes closed.
    ensures acted { IfOk result.answer (λ told. HasActed (length K.law.shelf) faults.now result.crew.fabric.journal) }

    // The stops of each node, phase by phase, and nothing else, armed its disk.
    ensures armed { IfOk result.answer (λ told. ArmedByStops faults.now (λ w. w.seat.node.replica) crew.workers.items result.crew.workers.items) }
    ensures stands { CrewStands K.law S.meaning result.crew.fabric.journal (λ w. w.seat) result.crew.workers.items }
    ensures size { length result.crew.workers.items ≡ length crew.workers.items }
{
    let CrewBack { crew, answer } = play_phases(rt, alloc, crew, lines, faults, gate);
    match answer {
        Ok(()) => {}
        Err(fault) => {
            return CrewBack {
                crew,
                answer: Err(fault),
            };
        }
    }
    let CrewBack { crew, answer } = close(crew, lines, faults);
    match answer {
        Ok(end) => tell_closed(alloc, crew, lines, faults, end),
        Err(fault) => {
            CrewBack {
                crew,
                answer: Err(fault),
            }
        }
    }
}
