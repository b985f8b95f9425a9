//! A run over loglets, a register and nodes that are handed in, and come back whatever comes of it.
ghost use Rattle.std.specs.Prelude.{◌≡◌, ◌<◌, ◌≤◌, ◌+◌, ℕ, All, length, map, slice_get, IfOk, Some};
ghost use Rattle.std.specs.List.{AllByRecursion};
ghost use Rattle.delos_types.specs.declared.entry.Entry.{Entry};
ghost use Rattle.loglet_api.specs.View.{IsFresh};
ghost use Rattle.loglet_api.specs.Sound.{IsSound};
ghost use Rattle.register_api.specs.View as view;
ghost use Rattle.turn_scopes.specs.Floors.{FloorIs};
ghost use Rattle.fitting_run.specs.Lines.{CanLog};
ghost use Rattle.node_lines.specs.Workers.{MayRun};
ghost use Rattle.run_ends.specs.Rules.{law_of, may_of};
ghost use Rattle.node_course.specs.FaultLines.{AreFaultLines};
ghost use Rattle.node_course.specs.Script.{AreLines};
ghost use Rattle.node_crew.specs.Arming.{ArmedByStops};
ghost use Rattle.node_crew.specs.Turns.{MaySendAll};
ghost use Rattle.crew_making.specs.Fresh.{IsNewReplica};
ghost use Rattle.crew_run.specs.Acting.{WasActedOn};
ghost use Rattle.crew_run.specs.Running.{RunTold};

use crate::tell::tell;
use crew_making::make::make_crew;
use crew_making::part::part_crew;
use fabric_core::fabric::Parts;
use fate_words::chooser::Chooser;
use fitting_run::told::Told;
use gate_points::Gate;
use loglet_api::loglet::Loglet;
use node_crew::crew::CrewBack;
use register_api::Register;
use replica_api::node::OpenNode;
use replica_api::replica::Replica;
use run_ends::line_rules::{
    a_session_is_of_one_node, leaves_are_sent, lines_are_sent, lines_may_run, reports_are_sent,
    the_floor_is, trims_are_sent,
};
use script_text::asks::NamedLine;
use script_text::faults::FaultLine;
use std::alloc::{AllocError, Global};
use std::marker::Brand;
use std::sync::Wait;
use std::thread::Threads;
use turn_scopes::terms::Terms;

/// What a run worked on, and what it told, if memory sufficed.
pub struct Ran<L: Loglet, R: Register, S: Replica, C: Chooser> {
    pub cells: Vec<L>,
    pub register: R,
    pub nodes: Vec<OpenNode<S, C>>,
    pub told: Result<Told, AllocError>,
}

/// Runs a script's lines by the rules that were picked.
fn run_by<
    L: Loglet + Send,
    R: Register + Send,
    K: Terms + Send,
    W: Threads + Wait + Sync,
    S: Replica + Send,
    C: Chooser + Send,
    G: Gate + Sync,
>(
    rt: &W,
    alloc: Global,
    cells: Vec<L>,
    register: R,
    nodes: Vec<OpenNode<S, C>>,
    lines: &[NamedLine],
    faults: &[FaultLine],
    gate: &G,
) -> Ran<L, R, S, C>
    requires run { MayRun K.law }
    requires may { (who : ℕ) (e : Entry) → K.law.may who e → may_of lines.now who e }
    requires floor { FloorIs K.law.floor (length nodes.items) }
    requires sends { MaySendAll K.law.may lines.now }
    requires least { 0 < length cells.items }
    requires most { length cells.items ≤ 64 }
    requires shelf { map (λ v. v.servers) (map L.view cells.items) ≡ K.law.shelf }
    requires kinds { map (λ v. v.kind) (map L.view cells.items) ≡ K.kinds }
    requires fresh { All (λ l. IsFresh (L.view l)) cells.items }
    requires sound { All (λ l. IsSound (L.view l)) cells.items }
    requires register { view.IsFresh (R.view register) }
    requires eight { length nodes.items ≤ 8 }
    requires nodes { (j : ℕ) (n : OpenNode S C) → slice_get nodes.items j ≡ Some n → IsNewReplica S.meaning (j + 1) (S.shows n.replica) }
    requires lines { (home : ℕ → ℕ) × AreLines lines.now home (length nodes.items) }
    requires faults { AreFaultLines lines.now faults.now K.law.shelf (length nodes.items) }
    ensures told { IfOk result.told (RunTold lines.now faults.now (record { cells = map L.view result.cells.items; register = R.view result.register; disks = map (λ n. (S.shows n.replica).faults) result.nodes.items })) }
    ensures acted { IfOk result.told (λ told. WasActedOn K.law faults.now (map L.view result.cells.items) (R.view result.register)) }
    ensures armed { IfOk result.told (λ told. ArmedByStops faults.now (λ n. S.shows n.replica) nodes.items result.nodes.items) }
    ensures size { length result.nodes.items ≡ length nodes.items }
    ensures cells { length result.cells.items ≡ length cells.items }
    ensures kinds { map (λ v. v.kind) (map L.view result.cells.items) ≡ map (λ v. v.kind) (map L.view cells.items) }
{
    let mut nodes = nodes;
    match make_crew::<L, R, K, S, C>(alloc, cells, register, &mut nodes, lines, faults) {
        Ok(crew) => {
            let CrewBack { crew, answer: told } = tell(rt, alloc, crew, lines, faults, gate);
            let Parts { cells, register } = part_crew(crew, &mut nodes);
            Ran {
                cells,
                register,
                nodes,
                told,
            }
        }
        Err(parts) => {
            let Parts { cells, register } = parts;
            Ran {
                cells,
                register,
                nodes,
                told: Err(AllocError),
            }
        }
    }
}

/// Nothing is done: what holds of every loglet is known of each of these from here on.
fn know_all<L: Loglet>(cells: &[L])
    ensures { All (λ l. IsSound (L.view l)) cells.now }
{
    for cell in cells {
        let _servers = cell.servers();
    }
}

/// Runs a script's lines: phase by phase, in each the nodes side by side in threads, each with its lines in order, and what the phase's
/// fault lines ask before and beside them; then the nodes close, and the answers are told. The loglets, the register and the nodes' parts
/// come back, whatever comes of it; nothing is told where memory was wanting.
///
/// Cost: that of the lines, and for each node what it has to play of the log, of the nodes side by side; an event for each thing that fault
/// lines break or mend, and for each old message; and in each phase a thread for each node with a part in it but one, and one where old
/// messages come again. Nothing that is kept of a line is looked at again before the end.
pub fn run_lines<
    L: Loglet + Send,
    R: Register + Send,
    W: Threads + Wait + Sync,
    S: Replica + Send,
    C: Chooser + Send,
    G: Gate + Sync,
>(
    rt: &W,
    alloc: Global,
    cells: Vec<L>,
    register: R,
    nodes: Vec<OpenNode<S, C>>,
    lines: &[NamedLine],
    faults: &[FaultLine],
    gate: &G,
) -> Ran<L, R, S, C>
    requires least { 0 < length cells.items }
    requires most { length cells.items ≤ 64 }
    requires fresh { All (λ l. IsFresh (L.view l)) cells.items }
    requires register { view.IsFresh (R.view register) }
    requires eight { length nodes.items ≤ 8 }
    requires nodes { (j : ℕ) (n : OpenNode S C) → slice_get nodes.items j ≡ Some n → IsNewReplica S.meaning (j + 1) (S.shows n.replica) }
    requires lines { (home : ℕ → ℕ) × AreLines lines.now home (length nodes.items) }
    requires faults { AreFaultLines lines.now faults.now (map (λ v. v.servers) (map L.view cells.items)) (length nodes.items) }
    requires spelled { AllByRecursion (λ l. CanLog l.asks) lines.now }

    // What is told fits the lines, the fault lines and what comes back.
    ensures told { IfOk result.told (RunTold lines.now faults.now (record { cells = map L.view result.cells.items; register = R.view result.register; disks = map (λ n. (S.shows n.replica).faults) result.nodes.items })) }

    // Number 0, which is no node, broke and mended them and had old messages come again as fault lines ask, and opened the register
    // again at most twice as the nodes closed; nobody did so besides.
    ensures acted { IfOk result.told (λ told. WasActedOn (law_of lines.now (length nodes.items) (map (λ v. v.servers) (map L.view cells.items))) faults.now (map L.view result.cells.items) (R.view result.register)) }

    // The stops of each node, phase by phase, and nothing else, armed the disk of its state machine.
    ensures armed { IfOk result.told (λ told. ArmedByStops faults.now (λ n. S.shows n.replica) nodes.items result.nodes.items) }
    ensures size { length result.nodes.items ≡ length nodes.items }
    ensures cells { length result.cells.items ≡ length cells.items }
    ensures kinds { map (λ v. v.kind) (map L.view result.cells.items) ≡ map (λ v. v.kind) (map L.view cells.items) }
{
    lines_may_run();
    the_floor_is();
    lines_are_sent();
    reports_are_sent();
    leaves_are_sent();
    trims_are_sent();
    a_session_is_of_one_node();
    know_all(cells.as_slice());
    run_by::<L, R, Brand, W, S, C, G>(rt, alloc, cells, register, nodes, lines, faults, gate)
}
