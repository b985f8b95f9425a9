//! The nodes' state machines are made of engines and fresh disks.
ghost use Rattle.std.specs.Prelude.{◌≡◌, ◌≤◌, ◌+◌, [], ◌∷◌, length, map, IfOk, IfErr, OnOk, OnErr};
ghost use Rattle.std.specs.List.{AllByRecursion};
ghost use Rattle.std.specs.Vec.{vec_capacity};
ghost use Rattle.local_replica.specs.Shown.{local_meaning, shown};
ghost use Rattle.replica_api.specs.Fresh.{IsFreshReplica};
ghost use Rattle.fitting_run.specs.Fresh.{IsFreshNode};
ghost use Rattle.node_opening.specs.Opened.{IsCounted, IsArmedAs, IsLeftOf, AreFreshReplicas, AreArmedAs, AreLeftOf};

use crate::closing::{close_before, put_first};
use crate::parts::NodeParts;
use delos_types::numbers::NodeId;
use disk_model::Disk;
use fate_words::chooser::Chooser;
use local_replica::layers::Layers;
use local_replica::replica::LocalReplica;
use local_store::Store;
use log_laws::state::starts_empty;
use replica_api::node::OpenNode;
use std::alloc::{AllocError, Global};

/// The engines of a node, over a store on its disk. Without memory the parts come back.
fn open_node<E: Layers, D: Disk, C: Chooser>(
    alloc: Global,
    number: NodeId,
    one: NodeParts<E, D, C>,
) -> Result<OpenNode<LocalReplica<E, D>, C>, NodeParts<E, D, C>>
    requires { IsFreshNode (E.kinds one.engines) (E.waiting one.engines) (D.view one.disk) }
    ensures fresh { IfOk result (λ n. IsFreshReplica local_meaning number (shown n.replica.store n.replica.origin (E.waiting n.replica.engines) n.replica.stops n.replica.reopenings)) }
    ensures counted { IfOk result (λ n. IsCounted (shown n.replica.store n.replica.origin (E.waiting n.replica.engines) n.replica.stops n.replica.reopenings)) }
    ensures armed { IfOk result (λ n. IsArmedAs (D.view one.disk) (shown n.replica.store n.replica.origin (E.waiting n.replica.engines) n.replica.stops n.replica.reopenings)) }
    ensures left { IfOk result (λ n. IsLeftOf (D.view one.disk) n.replica.store.disk) }
    ensures engines { IfOk result (λ n. n.replica.engines ≡ one.engines) }
    ensures chooser { IfOk result (λ n. n.chooser ≡ one.chooser) }
    ensures back { IfErr result (λ k. (k.engines ≡ one.engines) × (k.chooser ≡ one.chooser)) }
    ensures left_back { IfErr result (λ k. IsLeftOf (D.view one.disk) (D.view k.disk)) }
{
    let NodeParts {
        engines,
        disk,
        chooser,
    } = one;
    match Store::begin_on(alloc, disk) {
        Ok(store) => {
            starts_empty();
            let replica = LocalReplica::new(alloc, number, engines, store);
            Ok(OpenNode { replica, chooser })
        }
        Err(disk) => {
            Err(NodeParts {
                engines,
                disk,
                chooser,
            })
        }
    }
}

/// Makes the state machines of all nodes, which are numbered from 1 in their order, each with a store on its disk. The vector
/// of parts is empty then, and has room for them. A node whose disk fails as its store is begun is down.
///
/// Without memory all parts come back, in their order. The stores that were begun are taken off their disks again, which
/// may have been written to.
pub fn open_all<E: Layers, D: Disk, C: Chooser>(
    alloc: Global,
    parts: &mut Vec<NodeParts<E, D, C>>,
) -> Result<Vec<OpenNode<LocalReplica<E, D>, C>>, AllocError>
    requires eight { length parts.old.items ≤ 8 }
    requires fresh { AllByRecursion (λ k. IsFreshNode (E.kinds k.engines) (E.waiting k.engines) (D.view k.disk)) parts.old.items }
    ensures fresh { IfOk result (λ nodes. AreFreshReplicas (λ n. shown n.replica.store n.replica.origin (E.waiting n.replica.engines) n.replica.stops n.replica.reopenings) nodes.items) }

    // A node is down just where its disk failed, and that was counted once.
    ensures counted { IfOk result (λ nodes. AllByRecursion (λ n. IsCounted (shown n.replica.store n.replica.origin (E.waiting n.replica.engines) n.replica.stops n.replica.reopenings)) nodes.items) }

    // Opening arms no disk, and reopens none: that of a node that is up is armed where it was before, by a count of which at
    // most four were taken.
    ensures armed { IfOk result (λ nodes. AreArmedAs (λ n. shown n.replica.store n.replica.origin (E.waiting n.replica.engines) n.replica.stops n.replica.reopenings) (λ k. D.view k.disk) nodes.items parts.old.items) }
    ensures left { IfOk result (λ nodes. AreLeftOf (λ n. n.replica.store.disk) (λ k. D.view k.disk) nodes.items parts.old.items) }
    ensures engines { IfOk result (λ nodes. map (λ n. n.replica.engines) nodes.items ≡ map (λ k. k.engines) parts.old.items) }
    ensures choosers { IfOk result (λ nodes. map (λ n. n.chooser) nodes.items ≡ map (λ k. k.chooser) parts.old.items) }
    ensures size { IfOk result (λ nodes. length nodes.items ≡ length parts.old.items) }
    ensures taken { OnOk result (parts.new.items ≡ []) }

    // Nothing is lost, and there is room to put all parts back.
    ensures engines_back { OnErr result (map (λ k. k.engines) parts.new.items ≡ map (λ k. k.engines) parts.old.items) }
    ensures choosers_back { OnErr result (map (λ k. k.chooser) parts.new.items ≡ map (λ k. k.chooser) parts.old.items) }
    ensures left_back { OnErr result (AreLeftOf (λ k. D.view k.disk) (λ k. D.view k.disk) parts.new.items parts.old.items) }
    ensures size_back { OnErr result (length parts.new.items ≡ length parts.old.items) }
    ensures room { length parts.old.items ≤ vec_capacity parts.new }
{
    let mut nodes = Vec::with_capacity(alloc, parts.len())?;
    let count = parts.len() as u8;
    for k in 0..count {
        let Some(number) = NodeId::new(k + 1) else {
            unreachable!()
        };
        match open_node(alloc, number, parts.remove(0)) {
            Ok(node) => nodes.push_reserved(node),
            Err(one) => {
                put_first(parts, one);
                close_before(nodes, parts);
                return Err(AllocError);
            }
        }
    }
    Ok(nodes)
}
