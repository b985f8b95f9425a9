//! The answers of all sessions, taken at one node.
ghost use Rattle.std.specs.Prelude.{◌≡◌, ◌≢◌, ◌<◌, ◌+◌, length, OnOk};
ghost use Rattle.node_lines.specs.Workers.{MayRun};
ghost use Rattle.node_crew.specs.Arming.{NoneArmed};
ghost use Rattle.node_crew.specs.Crews.{CrewStands};
ghost use Rattle.run_closing.specs.Taking.{CrewTakes};

use crate::finish::Most;
use crate::turns::take_answers;
use fate_words::chooser::Chooser;
use loglet_api::loglet::Loglet;
use node_crew::crew::{Crew, CrewBack};
use node_workers::back::Back;
use node_workers::worker::Worker;
use register_api::Register;
use replica_api::replica::Replica;
use script_text::asks::NamedLine;
use script_text::faults::FaultLine;
use turn_scopes::lone::Lone;
use turn_scopes::terms::Terms;

/// The answers of the sessions of the node at `most` itself.
fn take_own<L: Loglet, R: Register, K: Terms, S: Replica, C: Chooser>(
    crew: Crew<L, R, K, S, C>,
    most: Most,
    _lines: &[NamedLine],
    _faults: &[FaultLine],
) -> CrewBack<L, R, K, S, C, ()>
    requires run { MayRun K.law }
    requires takes { CrewTakes K.law S.meaning _lines.now _faults.now most.node most.cursor most.node crew.fabric.journal crew.looks.items (λ w. w.seat) (λ w. w.desks.items) crew.workers.items }
    ensures takes { OnOk result.answer (CrewTakes K.law S.meaning _lines.now _faults.now most.node most.cursor (most.node + 1) result.crew.fabric.journal result.crew.looks.items (λ w. w.seat) (λ w. w.desks.items) result.crew.workers.items) }
    ensures journal { result.crew.fabric.journal ≡ crew.fabric.journal }
    ensures armed { NoneArmed (λ w. w.seat.node.replica) crew.workers.items result.crew.workers.items }
    ensures stands { CrewStands K.law S.meaning result.crew.fabric.journal (λ w. w.seat) result.crew.workers.items }
    ensures size { length result.crew.workers.items ≡ length crew.workers.items }
{
    let Crew {
        fabric,
        workers,
        looks,
    } = crew;
    let mut workers = workers;
    let Worker { seat, desks } = workers.remove(most.node);
    let mut desks = desks;
    let lone = Lone {
        who: seat.who(),
        fabric,
    };
    let Back {
        part: seat,
        access,
        answer,
    } = take_answers(lone, seat, &mut desks);
    match workers.insert(most.node, Worker { seat, desks }) {
        Ok(()) => {}
        Err(_) => unreachable!(),
    }
    CrewBack {
        crew: Crew {
            fabric: access.fabric,
            workers,
            looks,
        },
        answer,
    }
}

/// Where index `k` is once the element at `out` was taken out.
fn beside(out: usize, k: usize) -> usize
    requires { out ≢ k }
    ensures low { k < out → result ≡ k }
    ensures high { out < k → result + 1 ≡ k }
{
    if k < out {
        return k;
    }
    k - 1
}

/// The answers of the sessions of another node, at index `k`.
fn take_other<L: Loglet, R: Register, K: Terms, S: Replica, C: Chooser>(
    crew: Crew<L, R, K, S, C>,
    most: Most,
    k: usize,
    _lines: &[NamedLine],
    _faults: &[FaultLine],
) -> CrewBack<L, R, K, S, C, ()>
    requires run { MayRun K.law }
    requires there { k < length crew.workers.items }
    requires other { most.node ≢ k }
    requires takes { CrewTakes K.law S.meaning _lines.now _faults.now most.node most.cursor k crew.fabric.journal crew.looks.items (λ w. w.seat) (λ w. w.desks.items) crew.workers.items }
    ensures takes { OnOk result.answer (CrewTakes K.law S.meaning _lines.now _faults.now most.node most.cursor (k + 1) result.crew.fabric.journal result.crew.looks.items (λ w. w.seat) (λ w. w.desks.items) result.crew.workers.items) }
    ensures journal { result.crew.fabric.journal ≡ crew.fabric.journal }
    ensures armed { NoneArmed (λ w. w.seat.node.replica) crew.workers.items result.crew.workers.items }
    ensures stands { CrewStands K.law S.meaning result.crew.fabric.journal (λ w. w.seat) result.crew.workers.items }
    ensures size { length result.crew.workers.items ≡ length crew.workers.items }
{
    let Crew {
        fabric,
        workers,
        looks,
    } = crew;
    let mut workers = workers;
    let Worker { seat, desks } = workers.remove(most.node);
    let i = beside(most.node, k);
    let Worker {
        seat: other,
        desks: taken,
    } = workers.remove(i);
    let mut taken = taken;
    let lone = Lone {
        who: seat.who(),
        fabric,
    };
    let Back {
        part: seat,
        access,
        answer,
    } = take_answers(lone, seat, &mut taken);
    match workers.insert(
        i,
        Worker {
            seat: other,
            desks: taken,
        },
    ) {
        Ok(()) => {}
        Err(_) => unreachable!(),
    }
    match workers.insert(most.node, Worker { seat, desks }) {
        Ok(()) => {}
        Err(_) => unreachable!(),
    }
    CrewBack {
        crew: Crew {
            fabric: access.fabric,
            workers,
            looks,
        },
        answer,
    }
}

/// The answers of the sessions of the node at index `k`.
fn take_node<L: Loglet, R: Register, K: Terms, S: Replica, C: Chooser>(
    crew: Crew<L, R, K, S, C>,
    most: Most,
    k: usize,
    lines: &[NamedLine],
    faults: &[FaultLine],
) -> CrewBack<L, R, K, S, C, ()>
    requires run { MayRun K.law }
    requires there { k < length crew.workers.items }
    requires takes { CrewTakes K.law S.meaning lines.now faults.now most.node most.cursor k crew.fabric.journal crew.looks.items (λ w. w.seat) (λ w. w.desks.items) crew.workers.items }
    ensures takes { OnOk result.answer (CrewTakes K.law S.meaning lines.now faults.now most.node most.cursor (k + 1) result.crew.fabric.journal result.crew.looks.items (λ w. w.seat) (λ w. w.desks.items) result.crew.workers.items) }
    ensures journal { result.crew.fabric.journal ≡ crew.fabric.journal }
    ensures armed { NoneArmed (λ w. w.seat.node.replica) crew.workers.items result.crew.workers.items }
    ensures stands { CrewStands K.law S.meaning result.crew.fabric.journal (λ w. w.seat) result.crew.workers.items }
    ensures size { length result.crew.workers.items ≡ length crew.workers.items }
{
    if most.node == k {
        return take_own(crew, most, lines, faults);
    }
    take_other(crew, most, k, lines, faults)
}

/// The answers of all sessions, node by node, all taken at the one at `most`.
pub fn take_all_nodes<L: Loglet, R: Register, K: Terms, S: Replica, C: Chooser>(
    crew: Crew<L, R, K, S, C>,
    most: Most,
    lines: &[NamedLine],
    faults: &[FaultLine],
) -> CrewBack<L, R, K, S, C, ()>
    requires run { MayRun K.law }
    requires takes { CrewTakes K.law S.meaning lines.now faults.now most.node most.cursor 0 crew.fabric.journal crew.looks.items (λ w. w.seat) (λ w. w.desks.items) crew.workers.items }
    ensures takes { OnOk result.answer (CrewTakes K.law S.meaning lines.now faults.now most.node most.cursor (length result.crew.workers.items) result.crew.fabric.journal result.crew.looks.items (λ w. w.seat) (λ w. w.desks.items) result.crew.workers.items) }
    ensures journal { result.crew.fabric.journal ≡ crew.fabric.journal }
    ensures armed { NoneArmed (λ w. w.seat.node.replica) crew.workers.items result.crew.workers.items }
    ensures stands { CrewStands K.law S.meaning result.crew.fabric.journal (λ w. w.seat) result.crew.workers.items }
    ensures size { length result.crew.workers.items ≡ length crew.workers.items }
{
    let mut crew = crew;
    for k in 0..crew.workers.len() {
        let CrewBack { crew: now, answer } = take_node(crew, most, k, lines, faults);
        crew = now;
        match answer {
            Ok(()) => {}
            Err(fault) => {
                return CrewBack {
                    crew,
                    answer: Err(fault),
                };
            }
        }
    }
    CrewBack {
        crew,
        answer: Ok(()),
    }
}
