//! What is made of a node's parts before there is a fabric.
ghost use Rattle.std.specs.Prelude.{◌≡◌, ◌≤◌, ◌+◌, [], ◌∷◌, ◌++◌, length, map, IfOk, IfErr, OnOk, OnErr};
ghost use Rattle.std.specs.List.{AllByRecursion};
ghost use Rattle.std.specs.Vec.{vec_capacity};
ghost use Rattle.legal_journal.specs.Journal.{IsLegal};
ghost use Rattle.crew_making.specs.Fresh.{AreFreshDesks, IsFreshLog};

use crate::early::Early;
use delos_types::numbers::SessionId;
use fate_words::chooser::Chooser;
use node_lines::desk::Desk;
use replica_api::node::OpenNode;
use replica_api::replica::Replica;
use std::alloc::{AllocError, Global};
use turn_scopes::terms::{By, Terms};
use virtual_log::log::VirtualLog;
use virtual_log::rest::Rested as RestedLog;

/// A node's replica, with all that takes memory as the node is made: its log, which knows nothing yet, and a desk for each
/// session.
pub struct Berth<S: Replica, C: Chooser> {
    pub replica: S,
    pub log: RestedLog<C>,
    pub desks: Vec<Desk>,
}

/// A desk for each session, by their numbers. Nothing was asked there.
fn new_desks(alloc: Global) -> Result<Vec<Desk>, AllocError>
    ensures { IfOk result (λ desks. AreFreshDesks desks.items) }
{
    let mut desks = Vec::with_capacity(alloc, 64)?;
    for number in 0..64 {
        let Some(session) = SessionId::new(number) else {
            unreachable!()
        };
        desks.push_reserved(Desk {
            session,
            asked: 0,
            sent: 0,
            answers: Vec::new(alloc),
            stopped: None,
            answered: None,
        });
    }
    Ok(desks)
}

/// Makes a berth of a node's parts. Without memory it hands them back.
fn prepare<K: Terms, S: Replica, C: Chooser>(
    alloc: Global,
    who: u32,
    node: OpenNode<S, C>,
    shelf_len: u32,
) -> Result<Berth<S, C>, OpenNode<S, C>>
    requires legal { IsLegal K.law [] }
    requires shelf { shelf_len ≡ length K.law.shelf }
    ensures replica { IfOk result (λ b. b.replica ≡ node.replica) }
    ensures log { IfOk result (λ b. IsFreshLog (length K.law.shelf) b.log) }
    ensures desks { IfOk result (λ b. AreFreshDesks b.desks.items) }
    ensures err { IfErr result (λ n. n.replica ≡ node.replica) }
{
    let Ok(desks) = new_desks(alloc) else {
        return Err(node);
    };
    let OpenNode { replica, chooser } = node;
    match VirtualLog::new(alloc, Early::<By<K>>::new(who), chooser, shelf_len) {
        Ok(log) => {
            let (log, _) = log.rest();
            Ok(Berth {
                replica,
                log,
                desks,
            })
        }
        Err(parts) => {
            Err(OpenNode {
                replica,
                chooser: parts.chooser,
            })
        }
    }
}

/// The parts again.
fn leave<K: Terms, S: Replica, C: Chooser>(berth: Berth<S, C>) -> OpenNode<S, C>
    requires legal { IsLegal K.law [] }
    requires log { IsFreshLog (length K.law.shelf) berth.log }
    ensures { result.replica ≡ berth.replica }
{
    let Berth {
        replica,
        log,
        desks: _,
    } = berth;
    let parts = log.wake(Early::<By<K>>::new(0)).into_parts();
    OpenNode {
        replica,
        chooser: parts.chooser,
    }
}

/// Puts a node before the others.
fn put_first<S: Replica, C: Chooser>(nodes: &mut Vec<OpenNode<S, C>>, node: OpenNode<S, C>)
    requires room { length nodes.old.items + 1 ≤ vec_capacity nodes.old }
    ensures items { nodes.new.items ≡ node ∷ nodes.old.items }
    ensures room { vec_capacity nodes.old ≤ vec_capacity nodes.new }
{
    match nodes.insert(0, node) {
        Ok(()) => {}
        Err(_) => unreachable!(),
    }
}

/// Puts the parts of all berths before the others. Takes no memory.
pub fn leave_all<K: Terms, S: Replica, C: Chooser>(
    berths: Vec<Berth<S, C>>,
    nodes: &mut Vec<OpenNode<S, C>>,
)
    requires legal { IsLegal K.law [] }
    requires logs { AllByRecursion (λ b. IsFreshLog (length K.law.shelf) b.log) berths.items }
    requires room { length berths.items + length nodes.old.items ≤ vec_capacity nodes.old }
    ensures nodes { map (λ n. n.replica) nodes.new.items ≡ map (λ b. b.replica) berths.items ++ map (λ n. n.replica) nodes.old.items }
    ensures room { vec_capacity nodes.old ≤ vec_capacity nodes.new }
{
    let mut berths = berths;
    while !berths.is_empty() {
        let berth = berths.take_last();
        put_first(nodes, leave::<K, S, C>(berth));
    }
    berths.destroy_empty();
}

/// Makes berths of all nodes, in their order. Without memory they are where they were.
pub fn prepare_all<K: Terms, S: Replica, C: Chooser>(
    alloc: Global,
    nodes: &mut Vec<OpenNode<S, C>>,
    shelf_len: u32,
) -> Result<Vec<Berth<S, C>>, AllocError>
    requires legal { IsLegal K.law [] }
    requires shelf { shelf_len ≡ length K.law.shelf }
    requires eight { length nodes.old.items ≤ 8 }
    ensures replicas { IfOk result (λ berths. map (λ b. b.replica) berths.items ≡ map (λ n. n.replica) nodes.old.items) }
    ensures logs { IfOk result (λ berths. AllByRecursion (λ b. IsFreshLog (length K.law.shelf) b.log) berths.items) }
    ensures desks { IfOk result (λ berths. AllByRecursion (λ b. AreFreshDesks b.desks.items) berths.items) }
    ensures taken { OnOk result (nodes.new.items ≡ []) }
    ensures err { OnErr result (map (λ n. n.replica) nodes.new.items ≡ map (λ n. n.replica) nodes.old.items) }
    ensures room { length nodes.old.items ≤ vec_capacity nodes.new }
{
    let mut berths = Vec::with_capacity(alloc, nodes.len())?;
    let count = nodes.len() as u32;
    for k in 0..count {
        let node = nodes.remove(0);
        match prepare::<K, S, C>(alloc, k + 1, node, shelf_len) {
            Ok(berth) => berths.push_reserved(berth),
            Err(node) => {
                put_first(nodes, node);
                leave_all::<K, S, C>(berths, nodes);
                return Err(AllocError);
            }
        }
    }
    Ok(berths)
}
