//! The nodes' state machines are taken apart.
ghost use Rattle.std.specs.Prelude.{◌≡◌, ◌≤◌, ◌+◌, [], ◌∷◌, ◌++◌, length, map};
ghost use Rattle.std.specs.List.{AllByRecursion};
ghost use Rattle.std.specs.Vec.{vec_capacity};
ghost use Rattle.local_replica.specs.Shown.{shown};
ghost use Rattle.fitting_run.specs.Fresh.{five_kinds};

use crate::parts::NodeParts;
use disk_model::Disk;
use fate_words::chooser::Chooser;
use local_replica::layers::Layers;
use local_replica::replica::LocalReplica;
use replica_api::node::OpenNode;

/// The engines of a node, its disk, and what chooses for it.
fn close_node<E: Layers, D: Disk, C: Chooser>(
    node: OpenNode<LocalReplica<E, D>, C>,
) -> NodeParts<E, D, C>
    ensures engines { result.engines ≡ node.replica.engines }
    ensures kinds { E.kinds result.engines ≡ five_kinds }
    ensures disk { D.view result.disk ≡ node.replica.store.disk }
    ensures chooser { result.chooser ≡ node.chooser }
{
    let OpenNode { replica, chooser } = node;
    let (engines, store) = replica.into_parts();
    NodeParts {
        engines,
        disk: store.into_parts(),
        chooser,
    }
}

/// Puts the parts of one node before the others.
pub(crate) fn put_first<E: Layers, D: Disk, C: Chooser>(
    parts: &mut Vec<NodeParts<E, D, C>>,
    one: NodeParts<E, D, C>,
)
    requires room { length parts.old.items + 1 ≤ vec_capacity parts.old }
    ensures items { parts.new.items ≡ one ∷ parts.old.items }
    ensures room { vec_capacity parts.old ≤ vec_capacity parts.new }
{
    match parts.insert(0, one) {
        Ok(()) => {}
        Err(_) => unreachable!(),
    }
}

/// Puts the parts of all nodes before the others. Takes no memory.
pub(crate) fn close_before<E: Layers, D: Disk, C: Chooser>(
    nodes: Vec<OpenNode<LocalReplica<E, D>, C>>,
    parts: &mut Vec<NodeParts<E, D, C>>,
)
    requires room { length nodes.items + length parts.old.items ≤ vec_capacity parts.old }
    requires kinds { AllByRecursion (λ k. E.kinds k.engines ≡ five_kinds) parts.old.items }
    ensures engines { map (λ k. k.engines) parts.new.items ≡ map (λ n. n.replica.engines) nodes.items ++ map (λ k. k.engines) parts.old.items }
    ensures choosers { map (λ k. k.chooser) parts.new.items ≡ map (λ n. n.chooser) nodes.items ++ map (λ k. k.chooser) parts.old.items }
    ensures disks { map (λ k. D.view k.disk) parts.new.items ≡ map (λ n. n.replica.store.disk) nodes.items ++ map (λ k. D.view k.disk) parts.old.items }
    ensures kinds { AllByRecursion (λ k. E.kinds k.engines ≡ five_kinds) parts.new.items }
    ensures room { vec_capacity parts.old ≤ vec_capacity parts.new }
{
    let mut nodes = nodes;
    while !nodes.is_empty() {
        let node = nodes.take_last();
        put_first(parts, close_node(node));
    }
    nodes.destroy_empty();
}

/// Takes the state machines of all nodes apart, in their order. Takes no memory: there is room for the parts.
pub fn close_all<E: Layers, D: Disk, C: Chooser>(
    nodes: Vec<OpenNode<LocalReplica<E, D>, C>>,
    parts: &mut Vec<NodeParts<E, D, C>>,
)
    requires none { parts.old.items ≡ [] }
    requires room { length nodes.items ≤ vec_capacity parts.old }
    ensures engines { map (λ k. k.engines) parts.new.items ≡ map (λ n. n.replica.engines) nodes.items }
    ensures kinds { AllByRecursion (λ k. E.kinds k.engines ≡ five_kinds) parts.new.items }
    ensures choosers { map (λ k. k.chooser) parts.new.items ≡ map (λ n. n.chooser) nodes.items }

    // Each disk is as its node's store had it, and so are its faults.
    ensures disks { map (λ k. D.view k.disk) parts.new.items ≡ map (λ n. n.replica.store.disk) nodes.items }
    ensures faults { map (λ k. (D.view k.disk).faults) parts.new.items ≡ map (λ n. (shown n.replica.store n.replica.origin (E.waiting n.replica.engines) n.replica.stops n.replica.reopenings).faults) nodes.items }
    ensures size { length parts.new.items ≡ length nodes.items }
{
    close_before(nodes, parts);
}
