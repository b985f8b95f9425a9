//! The nodes of a run close.
ghost use Rattle.std.specs.Prelude.{◌≡◌, ℕ, List, length, map, IfOk, OnOk};
ghost use Rattle.delos_types.specs.declared.entry.Entry.{Entry};
ghost use Rattle.turn_scopes.specs.Floors.{FloorIs};
ghost use Rattle.node_lines.specs.Workers.{MayRun};
ghost use Rattle.node_crew.specs.Arming.{NoneArmed};
ghost use Rattle.node_crew.specs.Crews.{CrewRests, CrewStands};
ghost use Rattle.run_ends.specs.Closing.{WorkerEnd, HasClosed};
ghost use Rattle.run_closing.specs.Finishing.{SeesAll};
ghost use Rattle.run_closing.specs.Opening.{MendsOnly, OpensFirst};

use crate::finish::finish_all;
use crate::open::open_register;
use crate::take::take_all_nodes;
use fate_words::chooser::Chooser;
use loglet_api::loglet::Loglet;
use node_crew::crew::{Crew, CrewBack};
use register_api::Register;
use replica_api::replica::Replica;
use script_text::asks::NamedLine;
use script_text::faults::FaultLine;
use turn_scopes::terms::Terms;

/// Closes a run whose lines are all played: the register is opened again where it is down; each node in order, but for one that has
/// left, opens its store again where it is down and plays the log to a tail, and where all have left, the one that has played most of
/// it; the answers of all sessions are then taken at the node that has played most of it. The answer is how much of the log was played.
///
/// Cost: at most two events of the register; for each node what it has still to play, and for each session that asked something a look
/// at the store for each answer that is taken, and one more.
pub fn close<L: Loglet, R: Register, K: Terms, S: Replica, C: Chooser>(
    crew: Crew<L, R, K, S, C>,
    lines: &[NamedLine],
    faults: &[FaultLine],
) -> CrewBack<L, R, K, S, C, u64>
    requires run { MayRun K.law }
    requires floor { FloorIs K.law.floor (length crew.workers.items) }
    requires rests { (phase : ℕ) × CrewRests K.law S.meaning lines.now faults.now (length lines.now) phase crew.fabric.journal crew.looks.items (λ w. w.seat) (λ w. w.desks.items) crew.workers.items }
    ensures closed { IfOk result.answer (λ end. (log : List Entry) × (length log ≡ end) × HasClosed K.law S.meaning lines.now faults.now result.crew.fabric.journal result.crew.looks.items log (map (λ w. record { seat = w.seat; desks = w.desks.items }) result.crew.workers.items)) }

    // The register was opened again first, where it was down, once. Nothing else was broken or mended.
    ensures opens { OnOk result.answer (OpensFirst crew.fabric result.crew.fabric) }
    ensures mends { OnOk result.answer (MendsOnly 1 crew.fabric.journal result.crew.fabric.journal) }

    // Where no fault came, the whole log was played.
    ensures sees { IfOk result.answer (SeesAll result.crew.fabric.journal (λ (w : WorkerEnd). w.seat) (map (λ w. record { seat = w.seat; desks = w.desks.items }) result.crew.workers.items)) }

    // No stop came: no disk was armed.
    ensures armed { OnOk result.answer (NoneArmed (λ w. w.seat.node.replica) crew.workers.items result.crew.workers.items) }
    ensures stands { CrewStands K.law S.meaning result.crew.fabric.journal (λ w. w.seat) result.crew.workers.items }
    ensures size { length result.crew.workers.items ≡ length crew.workers.items }
{
    let CrewBack { crew, answer } = open_register(crew, lines, faults);
    match answer {
        Ok(()) => {}
        Err(fault) => {
            return CrewBack {
                crew,
                answer: Err(fault),
            };
        }
    }
    let CrewBack { crew, answer } = finish_all(crew, lines, faults);
    let most = match answer {
        Ok(most) => most,
        Err(fault) => {
            return CrewBack {
                crew,
                answer: Err(fault),
            };
        }
    };
    let CrewBack { crew, answer } = take_all_nodes(crew, most, lines, faults);
    match answer {
        Ok(()) => {
            CrewBack {
                crew,
                answer: Ok(most.cursor),
            }
        }
        Err(fault) => {
            CrewBack {
                crew,
                answer: Err(fault),
            }
        }
    }
}
