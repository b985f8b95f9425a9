//! The nodes of a run are made of their parts.
ghost use Rattle.std.specs.Prelude.{◌≡◌, ◌≤◌, ◌<◌, ◌+◌, ℕ, [], length, map, slice_get, Some, None, All, IfOk, IfErr, OnOk, OnErr};
ghost use Rattle.std.specs.List.{AllByRecursion};
ghost use Rattle.std.specs.Vec.{vec_capacity};
ghost use Rattle.legal_journal.specs.Journal.{IsLegal};
ghost use Rattle.loglet_api.specs.View.{IsFresh};
ghost use Rattle.loglet_api.specs.Sound.{IsSound};
ghost use Rattle.register_api.specs.View as view;
ghost use Rattle.node_lines.specs.Workers.{Sends};
ghost use Rattle.node_course.specs.Script.{AreLines};
ghost use Rattle.node_crew.specs.Crews.{CrewRests, CrewStands};
ghost use Rattle.crew_making.specs.Apart.{AreAsTold};
ghost use Rattle.crew_making.specs.Fresh.{AreFreshFrom, AreFreshDesks, IsFreshLog, IsNewReplica, IsNewSeat, AreNewWorkers};

use crate::berth::{Berth, leave_all, prepare_all};
use crate::early::Early;
use base_engine::node::Node;
use fabric_core::fabric::{Fabric, Parts};
use fate_words::chooser::Chooser;
use loglet_api::loglet::Loglet;
use node_crew::crew::Crew;
use node_lines::lines::Looked;
use node_workers::worker::Worker;
use register_api::Register;
use replica_api::node::OpenNode;
use replica_api::replica::Replica;
use script_text::asks::NamedLine;
use script_text::faults::FaultLine;
use std::alloc::{AllocError, Global};
use std::marker::Brand;
use turn_scopes::seat::Seat;
use turn_scopes::terms::{By, Scope, Terms, Within};
use virtual_log::rest::Rested as RestedLog;

/// A node gets its seat before there is a fabric, within a scope.
fn seat_within<K: Terms, Q: Scope, S: Replica, C: Chooser>(
    alloc: Global,
    who: u32,
    nodes: u8,
    log: RestedLog<C>,
    replica: S,
) -> Seat<S, C>
    requires eight { nodes ≤ 8 }
    requires legal { IsLegal Q.law [] }
    requires log { IsFreshLog (length Q.law.shelf) log }
    requires fresh { IsNewReplica S.meaning who (S.shows replica) }
    ensures seat { IsNewSeat Q.law S.meaning nodes who result }
    ensures replica { result.node.replica ≡ S.shows replica }
{
    let log = log.wake(Early::<Within<By<K>, Q>>::new(who));
    let (node, log) = Node::new(alloc, nodes, log, replica).rest();
    let (log, _) = log.rest();
    Seat::new(who, log, node)
}

/// All nodes get their seats, in their order, before there is a fabric. Takes no memory: there is room for them.
fn seat_all<K: Terms, S: Replica, C: Chooser>(
    alloc: Global,
    berths: Vec<Berth<S, C>>,
    workers: Vec<Worker<S, C>>,
) -> Vec<Worker<S, C>>
    requires eight { length berths.items ≤ 8 }
    requires legal { IsLegal K.law [] }
    requires logs { AllByRecursion (λ b. IsFreshLog (length K.law.shelf) b.log) berths.items }
    requires desks { AllByRecursion (λ b. AreFreshDesks b.desks.items) berths.items }
    requires fresh { AreFreshFrom S.meaning 1 (map (λ b. S.shows b.replica) berths.items) }
    requires room { (workers.items ≡ []) × (length berths.items ≤ vec_capacity workers) }
    ensures workers { AreNewWorkers (λ n. record K.law { may = Sends n K.law.may [] [] }) S.meaning (length berths.items) (λ w. w.seat) (λ w. w.desks.items) result.items }
    ensures replicas { map (λ w. w.seat.node.replica) result.items ≡ map (λ b. S.shows b.replica) berths.items }
{
    let nodes = berths.len() as u8;
    let (mut berths, mut workers) = (berths, workers);
    for k in 0..nodes {
        let Berth {
            replica,
            log,
            desks,
        } = berths.remove(0);
        let seat = seat_within::<K, Brand, S, C>(alloc, u32::from(k) + 1, nodes, log, replica);
        workers.push_reserved(Worker { seat, desks });
    }
    berths.destroy_empty();
    workers
}

/// None of the lines has looked at anything.
fn no_looks(alloc: Global, lines: usize) -> Result<Vec<Option<Looked>>, AllocError>
    ensures size { IfOk result (λ looks. length looks.items ≡ lines) }
    ensures none { IfOk result (λ looks. AllByRecursion (λ look. look ≡ None) looks.items) }
{
    let mut looks = Vec::with_capacity(alloc, lines)?;
    'line: for _ in 0..lines {
        looks.push_reserved(None);
    }
    Ok(looks)
}

/// Makes the nodes of a run of their parts, which are numbered from 1 in their order, over a fabric of these loglets and this
/// register. The nodes' vector is empty then, and has room for them. Without memory all parts come back.
pub fn make_crew<L: Loglet, R: Register, K: Terms, S: Replica, C: Chooser>(
    alloc: Global,
    cells: Vec<L>,
    register: R,
    nodes: &mut Vec<OpenNode<S, C>>,
    lines: &[NamedLine],
    _faults: &[FaultLine],
) -> Result<Crew<L, R, K, S, C>, Parts<L, R>>
    requires least { 0 < length cells.items }
    requires most { length cells.items ≤ 64 }
    requires shelf { map (λ v. v.servers) (map L.view cells.items) ≡ K.law.shelf }
    requires kinds { map (λ v. v.kind) (map L.view cells.items) ≡ K.kinds }
    requires fresh { All (λ l. IsFresh (L.view l)) cells.items }
    requires sound { All (λ l. IsSound (L.view l)) cells.items }
    requires register { view.IsFresh (R.view register) }
    requires eight { length nodes.old.items ≤ 8 }
    requires nodes { (j : ℕ) (n : OpenNode S C) → slice_get nodes.old.items j ≡ Some n → IsNewReplica S.meaning (j + 1) (S.shows n.replica) }
    requires lines { (home : ℕ → ℕ) × AreLines lines.now home (length nodes.old.items) }
    ensures rests { IfOk result (λ crew. CrewRests K.law S.meaning lines.now _faults.now 0 0 crew.fabric.journal crew.looks.items (λ w. w.seat) (λ w. w.desks.items) crew.workers.items) }
    ensures stands { IfOk result (λ crew. CrewStands K.law S.meaning crew.fabric.journal (λ w. w.seat) crew.workers.items) }
    ensures none { IfOk result (λ crew. crew.fabric.journal ≡ []) }
    ensures told { IfOk result (λ crew. AreAsTold K.law [] crew.fabric.cells crew.fabric.register) }

    // The loglets, their servers and the register are those that were handed in.
    ensures cells { IfOk result (λ crew. crew.fabric.cells ≡ map L.view cells.items) }
    ensures serving { IfOk result (λ crew. crew.fabric.serving ≡ map L.serving cells.items) }
    ensures register { IfOk result (λ crew. crew.fabric.register ≡ R.view register) }
    ensures replicas { IfOk result (λ crew. map (λ w. w.seat.node.replica) crew.workers.items ≡ map (λ n. S.shows n.replica) nodes.old.items) }
    ensures taken { OnOk result (nodes.new.items ≡ []) }

    // Nothing is lost, and there is room to put all nodes back.
    ensures parts { IfErr result (λ parts. (parts.cells ≡ cells) × (parts.register ≡ register)) }
    ensures back { OnErr result (map (λ n. n.replica) nodes.new.items ≡ map (λ n. n.replica) nodes.old.items) }
    ensures room { length nodes.old.items ≤ vec_capacity nodes.new }
{
    let Ok(looks) = no_looks(alloc, lines.len()) else {
        return Err(Parts { cells, register });
    };
    let Ok(workers) = Vec::with_capacity(alloc, nodes.len()) else {
        return Err(Parts { cells, register });
    };
    let Ok(berths) = prepare_all::<K, S, C>(alloc, nodes, cells.len() as u32) else {
        workers.destroy_empty();
        return Err(Parts { cells, register });
    };
    match Fabric::new(alloc, cells, register) {
        Ok(fabric) => {
            let workers = seat_all::<K, S, C>(alloc, berths, workers);
            // The loglets and the register are as their journal tells.
            let _told = fabric.journal();
            Ok(Crew {
                fabric,
                workers,
                looks,
            })
        }
        Err(parts) => {
            leave_all::<K, S, C>(berths, nodes);
            workers.destroy_empty();
            Err(parts)
        }
    }
}
