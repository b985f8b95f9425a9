//! The nodes' last calls, in order, and which node has played most of the log.
ghost use Rattle.std.specs.Prelude.{◌≡◌, ◌⊎◌, ◌<◌, ◌≤◌, ◌+◌, true, false, length, Some, IfOk, OnOk};
ghost use Rattle.turn_scopes.specs.Floors.{FloorIs};
ghost use Rattle.node_lines.specs.declared.lines.Looked.TheVariants as looked;
ghost use Rattle.node_lines.specs.Workers.{MayRun, Grows};
ghost use Rattle.node_crew.specs.Arming.{NoneArmed};
ghost use Rattle.node_crew.specs.Crews.{CrewStands};
ghost use Rattle.run_closing.specs.Finishing.{AllLeft, AreCalls, HasLeave, HasNoLeave, HasPlayed, HasFinished, HasMost, IsMost, MembersPlay, PassesBut, PassesBy, PlaysLast, SeesAll};
ghost use Rattle.run_closing.specs.Opening.{MakesNoFaults};

use crate::last::{Calls, Reach};
use crate::turns::finish_worker;
use delos_types::numbers::NodeId;
use fate_words::chooser::Chooser;
use loglet_api::loglet::Loglet;
use node_crew::crew::{Crew, CrewBack};
use node_lines::lines::Looked;
use node_workers::back::Back;
use register_api::Register;
use replica_api::replica::Replica;
use script_text::asks::NamedLine;
use script_text::faults::FaultLine;
use turn_scopes::lone::Lone;
use turn_scopes::terms::Terms;

/// A node by its index, and how many entries of the log its state has.
#[derive(Clone, Copy)]
pub struct Most {
    pub node: usize,
    pub cursor: u64,
}

/// The node that has played most, and whether all nodes were passed by.
#[derive(Clone, Copy)]
pub struct Ends {
    pub most: Most,
    pub passed: bool,
}

/// The node of before, or node `k` where it has played more.
fn most_of(most: Most, k: usize, cursor: u64) -> Most
    ensures same { cursor ≤ most.cursor → result ≡ most }
    ensures more { most.cursor < cursor → (result.node ≡ k) × (result.cursor ≡ cursor) }
{
    if cursor > most.cursor {
        return Most { node: k, cursor };
    }
    most
}

/// Whether both are so.
fn both(a: bool, b: bool) -> bool
    ensures one { result ≡ false → (a ≡ false) ⊎ (b ≡ false) }
    ensures all { result ≡ true → (a ≡ true) × (b ≡ true) }
{
    a && b
}

/// Whether that came of a line by which a node left.
fn is_leave(look: &Option<Looked>) -> bool
    ensures left { result ≡ true → look.now ≡ Some looked.Left }
    ensures other { result ≡ false → look.now ≡ Some looked.Left → ⊥ }
{
    match look {
        Some(Looked::Left) => true,
        _ => false,
    }
}

/// Whether a line of the node came to its leaving.
fn left_by_line(lines: &[NamedLine], looks: &[Option<Looked>], node: NodeId) -> bool
    requires size { length looks.now ≡ length lines.now }
    ensures left { result ≡ true → HasLeave lines.now looks.now node }
    ensures stays { result ≡ false → HasNoLeave lines.now looks.now node }
{
    for i in 0..lines.len() {
        if lines[i].node == node {
            if is_leave(&looks[i]) {
                return true;
            }
        }
    }
    false
}

/// Whose last calls the node's are: any node's, where they are the last of all, or a member's.
fn calls_of(lines: &[NamedLine], looks: &[Option<Looked>], node: NodeId, last: bool) -> Calls
    requires size { length looks.now ≡ length lines.now }
    ensures calls { AreCalls lines.now looks.now node last result }
{
    if last {
        return Calls::OfAny;
    }
    Calls::OfMembers {
        left: left_by_line(lines, looks, node),
    }
}

/// The last calls of the node at index `k`: where it has left, as its state tells, or by a line, it is passed by, unless they are the last
/// calls of all; else its store is opened again where it is down, and the log is played to a tail. Answers how many entries of the log
/// its state has then.
fn finish_node<L: Loglet, R: Register, K: Terms, S: Replica, C: Chooser>(
    crew: Crew<L, R, K, S, C>,
    k: usize,
    lines: &[NamedLine],
    _faults: &[FaultLine],
    last: bool,
) -> CrewBack<L, R, K, S, C, Reach>
    requires run { MayRun K.law }
    requires floor { FloorIs K.law.floor (length crew.workers.items) }
    requires there { k < length crew.workers.items }
    requires rests { HasPlayed K.law S.meaning lines.now _faults.now crew.fabric.journal crew.looks.items (λ w. w.seat) (λ w. w.desks.items) crew.workers.items }
    ensures rests { OnOk result.answer (HasPlayed K.law S.meaning lines.now _faults.now result.crew.fabric.journal result.crew.looks.items (λ w. w.seat) (λ w. w.desks.items) result.crew.workers.items) }
    ensures finishes { IfOk result.answer (HasFinished lines.now crew.looks.items last crew.fabric.journal result.crew.fabric.journal (λ w. w.seat) crew.workers.items result.crew.workers.items k) }

    // Where it played, and no fault came, that was the whole log.
    ensures sees { IfOk result.answer (λ reach. reach.passed ≡ false → (last ≡ true → IsMost (λ w. w.seat) crew.workers.items k) → SeesAll result.crew.fabric.journal (λ w. w.seat) result.crew.workers.items reach.cursor) }
    ensures looks { result.crew.looks.items ≡ crew.looks.items }
    ensures grows { Grows crew.fabric.journal result.crew.fabric.journal }
    ensures quiet { MakesNoFaults crew.fabric.journal result.crew.fabric.journal }
    ensures armed { OnOk result.answer (NoneArmed (λ w. w.seat.node.replica) crew.workers.items result.crew.workers.items) }
    ensures stands { CrewStands K.law S.meaning result.crew.fabric.journal (λ w. w.seat) result.crew.workers.items }
    ensures size { length result.crew.workers.items ≡ length crew.workers.items }
{
    let Some(number) = NodeId::new(k as u8 + 1) else {
        unreachable!()
    };
    let Crew {
        fabric,
        workers,
        looks,
    } = crew;
    let calls = calls_of(lines, &looks, number, last);
    let mut workers = workers;
    let worker = workers.remove(k);
    let lone = Lone {
        who: worker.seat.who(),
        fabric,
    };
    let Back {
        part: worker,
        access,
        answer,
    } = finish_worker(lone, worker, number, calls);
    match workers.insert(k, worker) {
        Ok(()) => {}
        Err(_) => unreachable!(),
    }
    CrewBack {
        crew: Crew {
            fabric: access.fabric,
            workers,
            looks,
        },
        answer,
    }
}

/// The last calls of all nodes that are members, in order. Answers which of them has played most of the log.
fn finish_each<L: Loglet, R: Register, K: Terms, S: Replica, C: Chooser>(
    crew: Crew<L, R, K, S, C>,
    lines: &[NamedLine],
    faults: &[FaultLine],
) -> CrewBack<L, R, K, S, C, Ends>
    requires run { MayRun K.law }
    requires floor { FloorIs K.law.floor (length crew.workers.items) }
    requires rests { HasPlayed K.law S.meaning lines.now faults.now crew.fabric.journal crew.looks.items (λ w. w.seat) (λ w. w.desks.items) crew.workers.items }
    ensures rests { OnOk result.answer (HasPlayed K.law S.meaning lines.now faults.now result.crew.fabric.journal result.crew.looks.items (λ w. w.seat) (λ w. w.desks.items) result.crew.workers.items) }
    ensures most { IfOk result.answer (λ ends. HasMost (λ w. w.seat) result.crew.workers.items (length result.crew.workers.items) ends.most.node ends.most.cursor) }

    // Where not all were passed by, and no fault came, that is the whole log.
    ensures sees { IfOk result.answer (λ ends. ends.passed ≡ false → SeesAll result.crew.fabric.journal (λ w. w.seat) result.crew.workers.items ends.most.cursor) }

    // A node that had left is as it was. Another played the log.
    ensures passes { OnOk result.answer (PassesBy lines.now crew.looks.items (λ w. w.seat) crew.workers.items result.crew.workers.items) }
    ensures plays { OnOk result.answer (MembersPlay lines.now crew.looks.items crew.fabric.journal result.crew.fabric.journal (λ w. w.seat) crew.workers.items result.crew.workers.items) }
    ensures all { IfOk result.answer (λ ends. ends.passed ≡ true → AllLeft lines.now crew.looks.items (λ w. w.seat) crew.workers.items) }
    ensures some { IfOk result.answer (λ ends. ends.passed ≡ false → AllLeft lines.now crew.looks.items (λ w. w.seat) crew.workers.items → ⊥) }
    ensures looks { result.crew.looks.items ≡ crew.looks.items }
    ensures grows { Grows crew.fabric.journal result.crew.fabric.journal }
    ensures quiet { MakesNoFaults crew.fabric.journal result.crew.fabric.journal }
    ensures armed { OnOk result.answer (NoneArmed (λ w. w.seat.node.replica) crew.workers.items result.crew.workers.items) }
    ensures stands { CrewStands K.law S.meaning result.crew.fabric.journal (λ w. w.seat) result.crew.workers.items }
    ensures size { length result.crew.workers.items ≡ length crew.workers.items }
{
    let mut crew = crew;
    let mut most = Most { node: 0, cursor: 0 };
    let mut passed = true;
    for k in 0..crew.workers.len() {
        let CrewBack { crew: now, answer } = finish_node(crew, k, lines, faults, false);
        crew = now;
        match answer {
            Ok(reach) => {
                most = most_of(most, k, reach.cursor);
                passed = both(passed, reach.passed);
            }
            Err(fault) => {
                return CrewBack {
                    crew,
                    answer: Err(fault),
                };
            }
        }
    }
    CrewBack {
        crew,
        answer: Ok(Ends { most, passed }),
    }
}

/// Where all nodes were passed by, the last calls of the one that has played most of the log.
fn finish_most<L: Loglet, R: Register, K: Terms, S: Replica, C: Chooser>(
    crew: Crew<L, R, K, S, C>,
    ends: Ends,
    lines: &[NamedLine],
    faults: &[FaultLine],
) -> CrewBack<L, R, K, S, C, Most>
    requires run { MayRun K.law }
    requires floor { FloorIs K.law.floor (length crew.workers.items) }
    requires rests { HasPlayed K.law S.meaning lines.now faults.now crew.fabric.journal crew.looks.items (λ w. w.seat) (λ w. w.desks.items) crew.workers.items }
    requires most { HasMost (λ w. w.seat) crew.workers.items (length crew.workers.items) ends.most.node ends.most.cursor }
    requires sees { ends.passed ≡ false → SeesAll crew.fabric.journal (λ w. w.seat) crew.workers.items ends.most.cursor }
    requires stands { CrewStands K.law S.meaning crew.fabric.journal (λ w. w.seat) crew.workers.items }
    ensures rests { OnOk result.answer (HasPlayed K.law S.meaning lines.now faults.now result.crew.fabric.journal result.crew.looks.items (λ w. w.seat) (λ w. w.desks.items) result.crew.workers.items) }
    ensures most { IfOk result.answer (λ most. (most.node ≡ ends.most.node) × HasMost (λ w. w.seat) result.crew.workers.items (length result.crew.workers.items) most.node most.cursor) }
    ensures sees { IfOk result.answer (λ most. SeesAll result.crew.fabric.journal (λ w. w.seat) result.crew.workers.items most.cursor) }
    ensures passes { OnOk result.answer (PassesBut ends.most.node lines.now crew.looks.items (λ w. w.seat) crew.workers.items result.crew.workers.items) }
    ensures plays { OnOk result.answer (ends.passed ≡ true → PlaysLast ends.most.node crew.fabric.journal result.crew.fabric.journal (λ w. w.seat) crew.workers.items result.crew.workers.items) }
    ensures still { OnOk result.answer (ends.passed ≡ false → (result.crew.workers.items ≡ crew.workers.items) × (result.crew.fabric.journal ≡ crew.fabric.journal)) }
    ensures grows { Grows crew.fabric.journal result.crew.fabric.journal }
    ensures quiet { MakesNoFaults crew.fabric.journal result.crew.fabric.journal }
    ensures armed { OnOk result.answer (NoneArmed (λ w. w.seat.node.replica) crew.workers.items result.crew.workers.items) }
    ensures stands { CrewStands K.law S.meaning result.crew.fabric.journal (λ w. w.seat) result.crew.workers.items }
    ensures size { length result.crew.workers.items ≡ length crew.workers.items }
{
    if !ends.passed {
        return CrewBack {
            crew,
            answer: Ok(ends.most),
        };
    }
    let CrewBack { crew, answer } = finish_node(crew, ends.most.node, lines, faults, true);
    match answer {
        Ok(reach) => {
            CrewBack {
                crew,
                answer: Ok(Most {
                    node: ends.most.node,
                    cursor: reach.cursor,
                }),
            }
        }
        Err(fault) => {
            CrewBack {
                crew,
                answer: Err(fault),
            }
        }
    }
}

/// The last calls of all nodes, in order; and where all of them have left, those of the one that has played most of the log. Answers which
/// of them has played most then.
pub fn finish_all<L: Loglet, R: Register, K: Terms, S: Replica, C: Chooser>(
    crew: Crew<L, R, K, S, C>,
    lines: &[NamedLine],
    faults: &[FaultLine],
) -> CrewBack<L, R, K, S, C, Most>
    requires run { MayRun K.law }
    requires floor { FloorIs K.law.floor (length crew.workers.items) }
    requires rests { HasPlayed K.law S.meaning lines.now faults.now crew.fabric.journal crew.looks.items (λ w. w.seat) (λ w. w.desks.items) crew.workers.items }
    ensures rests { OnOk result.answer (HasPlayed K.law S.meaning lines.now faults.now result.crew.fabric.journal result.crew.looks.items (λ w. w.seat) (λ w. w.desks.items) result.crew.workers.items) }
    ensures most { IfOk result.answer (λ most. HasMost (λ w. w.seat) result.crew.workers.items (length result.crew.workers.items) most.node most.cursor) }
    ensures sees { IfOk result.answer (λ most. SeesAll result.crew.fabric.journal (λ w. w.seat) result.crew.workers.items most.cursor) }

    // A node that had left is as it was. Another played the log.
    ensures passes { OnOk result.answer ((AllLeft lines.now crew.looks.items (λ w. w.seat) crew.workers.items → ⊥) → PassesBy lines.now crew.looks.items (λ w. w.seat) crew.workers.items result.crew.workers.items) }
    ensures plays { OnOk result.answer (MembersPlay lines.now crew.looks.items crew.fabric.journal result.crew.fabric.journal (λ w. w.seat) crew.workers.items result.crew.workers.items) }

    // Where all had left, so are all but the one that had played most, which played the log.
    ensures others { IfOk result.answer (λ most. PassesBut most.node lines.now crew.looks.items (λ w. w.seat) crew.workers.items result.crew.workers.items) }
    ensures greatest { IfOk result.answer (λ most. AllLeft lines.now crew.looks.items (λ w. w.seat) crew.workers.items → IsMost (λ w. w.seat) crew.workers.items most.node) }
    ensures last { IfOk result.answer (λ most. AllLeft lines.now crew.looks.items (λ w. w.seat) crew.workers.items → PlaysLast most.node crew.fabric.journal result.crew.fabric.journal (λ w. w.seat) crew.workers.items result.crew.workers.items) }
    ensures grows { Grows crew.fabric.journal result.crew.fabric.journal }
    ensures quiet { MakesNoFaults crew.fabric.journal result.crew.fabric.journal }
    ensures armed { OnOk result.answer (NoneArmed (λ w. w.seat.node.replica) crew.workers.items result.crew.workers.items) }
    ensures stands { CrewStands K.law S.meaning result.crew.fabric.journal (λ w. w.seat) result.crew.workers.items }
    ensures size { length result.crew.workers.items ≡ length crew.workers.items }
{
    let CrewBack { crew, answer } = finish_each(crew, lines, faults);
    match answer {
        Ok(ends) => finish_most(crew, ends, lines, faults),
        Err(fault) => {
            CrewBack {
                crew,
                answer: Err(fault),
            }
        }
    }
}
