//! What a node does in a phase.
ghost use Rattle.std.specs.Prelude.{◌≡◌, ◌⊎◌, ◌≤◌, ℕ, [], length, is_ok, None, IfSome};
ghost use Rattle.script_text.specs.declared.faults.FaultAsk.TheVariants as ask;
ghost use Rattle.turn_scopes.specs.Beside.{Since};
ghost use Rattle.node_lines.specs.Workers.{MayRun};
ghost use Rattle.node_course.specs.FaultLines.{AreOfPhase, HasStopIn, stops_by, stops_in};
ghost use Rattle.node_crew.specs.Turns.{HasNone, HasOne, MaySendAll};
ghost use Rattle.node_threads.specs.Parts.{CanTakePart, TookPart};

use crate::gated::Gated;
use delos_types::numbers::NodeId;
use fate_words::chooser::Chooser;
use gate_points::{Gate, Point};
use node_crew::faults::PhaseFaults;
use node_crew::note::Note;
use node_crew::turn::play_turn;
use node_workers::back::Back;
use node_workers::worker::Worker;
use replica_api::replica::Replica;
use script_text::asks::NamedLine;
use script_text::faults::FaultAsk;
use std::alloc::Global;
use turn_scopes::access::Access;

/// The node of this number, if one of the lines from `from` up to `to` is its.
fn node_with_line(lines: &[NamedLine], from: usize, to: usize, who: u32) -> Option<NodeId>
    requires { (from ≤ to) × (to ≤ length lines.now) }
    ensures none { result ≡ None → HasNone lines.now from to who }
    ensures some { IfSome result (λ node. (node ≡ who) × HasOne lines.now from to who) }
{
    for i in from..to {
        let node = lines[i].node;
        if u32::from(node.number()) == who {
            return Some(node);
        }
    }
    None
}

/// The node of this number, if a fault line asks that its disk be armed.
fn stopped_by(asks: FaultAsk, who: u32) -> Option<NodeId>
    ensures none { result ≡ None → stops_by who asks ≡ [] }
    ensures some { IfSome result (λ node. (node ≡ who) × ((after : ℕ) × (asks ≡ ask.Stop node after))) }
{
    match asks {
        FaultAsk::Stop { node, after: _ } => {
            if u32::from(node.number()) == who {
                Some(node)
            } else {
                None
            }
        }
        FaultAsk::Break {
            cell: _,
            server: _,
            after: _,
        } => None,
        FaultAsk::BreakMeta { after: _ } => None,
        FaultAsk::Mend { cell: _, server: _ } => None,
        FaultAsk::MendMeta => None,
        FaultAsk::Stir { turns: _ } => None,
    }
}

/// The node of this number, if a stop of the phase is its.
fn node_with_stop(faults: &PhaseFaults, who: u32) -> Option<NodeId>
    requires { AreOfPhase faults.now.lines.now faults.now.phase faults.now.from faults.now.to }
    ensures none { result ≡ None → stops_in who faults.now.phase faults.now.lines.now ≡ [] }
    ensures some { IfSome result (λ node. (node ≡ who) × HasStopIn faults.now.lines.now faults.now.phase who) }
{
    for k in faults.from..faults.to {
        if let Some(node) = stopped_by(faults.lines[k].asks, who) {
            return Some(node);
        }
    }
    None
}

/// The node of this number, if one of the lines from `from` up to `to` is its, or a stop of the phase.
fn node_at_work(
    lines: &[NamedLine],
    from: usize,
    to: usize,
    faults: &PhaseFaults,
    who: u32,
) -> Option<NodeId>
    requires range { (from ≤ to) × (to ≤ length lines.now) }
    requires phase { AreOfPhase faults.now.lines.now faults.now.phase faults.now.from faults.now.to }
    ensures none { result ≡ None → HasNone lines.now from to who × (stops_in who faults.now.phase faults.now.lines.now ≡ []) }
    ensures some { IfSome result (λ node. (node ≡ who) × (HasOne lines.now from to who ⊎ HasStopIn faults.now.lines.now faults.now.phase who)) }
{
    match node_with_line(lines, from, to, who) {
        Some(node) => Some(node),
        None => node_with_stop(faults, who),
    }
}

/// A node plays its lines of a phase, which are among those from `from` up to `to`, and ends the phase; its disk is armed by its stops. A node
/// without a line or a stop makes no event, and passes no gate.
pub fn take_part<A: Access, S: Replica, C: Chooser, G: Gate>(
    alloc: Global,
    access: A,
    worker: Worker<S, C>,
    notes: &mut Vec<Note>,
    lines: &[NamedLine],
    from: usize,
    to: usize,
    faults: &PhaseFaults,
    gate: &G,
) -> Back<A, Worker<S, C>, ()>
    requires run { MayRun A.Law.law }
    requires range { (from ≤ to) × (to ≤ length lines.now) }
    requires sends { MaySendAll A.Law.law.may lines.now }
    requires none { notes.old.items ≡ [] }
    requires phase { AreOfPhase faults.now.lines.now faults.now.phase faults.now.from faults.now.to }
    requires can { CanTakePart A.Law.law S.meaning lines.now faults.now.lines.now faults.now.phase from to (A.who access) (A.seen access) worker.seat worker.desks.items }
    ensures whose { A.who result.access ≡ A.who access }
    ensures since { Since (A.who access) (A.beside (A.who access)) (A.seen access) (A.seen result.access) }
    ensures took { TookPart A.Law.law S.meaning lines.now faults.now.lines.now faults.now.phase from to (A.who access) (A.seen access) worker.seat worker.desks.items (A.seen result.access) result.part.seat result.part.desks.items notes.new.items (is_ok result.answer) }
{
    let who = access.user();
    let Some(node) = node_at_work(lines, from, to, faults, who) else {
        return Back {
            part: worker,
            access,
            answer: Ok(()),
        };
    };
    gate.pass(who, Point::Started);
    let gated = Gated { access, gate };
    let Back {
        part,
        access: gated,
        answer,
    } = play_turn(alloc, gated, worker, notes, node, lines, from, to, faults);
    let Gated { access, gate: _ } = gated;
    gate.pass(who, Point::Ended);
    Back {
        part,
        access,
        answer,
    }
}
