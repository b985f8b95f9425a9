//! Two nodes over one fabric, which goes from one to the other.
ghost use Rattle.std.specs.Prelude.{◌≡◌, [], ◌∷◌, IfSome};
ghost use Rattle.disk_model.specs.Disk.{IsSynced, reads};
ghost use Rattle.engine_api.specs.Packing.{IsProposable};
ghost use Rattle.register_api.specs.View as register;
ghost use Rattle.legal_journal.specs.Journal.{IsLegal};
ghost use Rattle.loglet_api.specs.declared.call.Kind.TheVariants.{File};
ghost use Rattle.loglet_api.specs.View.{IsFresh};
ghost use Rattle.worked_nodes.specs.Resting.{two_nodes, Rests, IsNew};

use crate::rules::TwoNodes;
use base_engine::fault::Fault;
use base_engine::node::Node;
use delos_types::item::Item;
use delos_types::numbers::NodeId;
use disk_model::{Disk, MemDisk};
use fabric_core::fabric::Fabric;
use fabric_core::own::Own;
use fate_words::chooser::Calm;
use file_loglet::file::FileLoglet;
use file_loglet::memory::in_memory;
use local_replica::layers::Layers;
use local_replica::replica::LocalReplica;
use local_store::Store;
use log_laws::state::starts_empty;
use loglet_api::loglet::Loglet;
use meta_register::MetaRegister;
use std::alloc::{AllocError, Global};
use std::marker::Model;
use table_core::command::{Found, Query};
use virtual_log::log::VirtualLog;

/// A file loglet on a disk in memory.
pub type Cell = FileLoglet<MemDisk>;

/// A register on a disk in memory.
pub type Register = MetaRegister<MemDisk>;

/// The turns of one node.
pub type Turn = Own<Cell, Register, TwoNodes>;

/// The log of one node.
pub type Log = VirtualLog<Turn, Calm>;

/// A register to which nothing was written.
fn fresh_register(alloc: Global) -> Option<Register>
    ensures { IfSome result (λ made. register.IsFresh made.register) }
{
    match MetaRegister::open_on(alloc, MemDisk::new(alloc)) {
        Ok(register) => Some(register),
        Err(_) => None,
    }
}

/// A fabric over one loglet and a register, with no event.
fn fresh_fabric(alloc: Global) -> Option<Fabric<Cell, Register, TwoNodes>>
    ensures { IfSome result (λ made. made.journal ≡ []) }
{
    let Ok(cell) = in_memory(alloc, 100) else {
        return None;
    };
    fabric_over(alloc, cell)
}

/// A fabric over this loglet and a register, with no event.
fn fabric_over(alloc: Global, cell: Cell) -> Option<Fabric<Cell, Register, TwoNodes>>
    requires fresh { IsFresh cell.loglet }
    requires kind { cell.loglet.kind ≡ File }
    ensures { IfSome result (λ made. made.journal ≡ []) }
{
    let servers = cell.servers();
    if servers != 1 {
        return None;
    }
    let mut cells = Vec::new(alloc);
    if cells.push(cell).is_err() {
        return None;
    }
    let register = fresh_register(alloc)?;
    let Ok(fabric) = Fabric::<Cell, Register, TwoNodes>::new(alloc, cells, register) else {
        return None;
    };
    Some(fabric)
}

/// A log that knows nothing yet.
#[tactic(auto, using(crate::proofs::Resting::legal_by))]
fn fresh_log(alloc: Global, turns: Turn) -> Option<Log>
    ensures who { IfSome result (λ log. log.who ≡ turns.who) }
    ensures seen { IfSome result (λ log. log.seen ≡ turns.fabric.journal) }
    ensures legal { IfSome result (λ log. IsLegal two_nodes log.seen) }
{
    let _seen = turns.fabric.journal();
    let Ok(log) = VirtualLog::new(alloc, turns, Calm, 1) else {
        return None;
    };
    Some(log)
}

/// A store on an empty disk.
pub fn fresh_store<D: Disk>(alloc: Global, disk: D) -> Option<Store<D>>
    requires synced { IsSynced (D.view disk) }
    requires empty { reads (D.view disk) ≡ [] }
    ensures { IfSome result IsNew }
{
    let Ok(store) = Store::open_on(alloc, disk) else {
        return None;
    };
    Some(store)
}

/// A node that did nothing yet.
fn fresh_node<E: Layers, D: Disk>(
    alloc: Global,
    number: NodeId,
    engines: E,
    store: Store<D>,
    log: Log,
) -> Node<Log, LocalReplica<E, D>>
    requires kinds { E.kinds engines ≡ 1 ∷ 2 ∷ 3 ∷ 4 ∷ 5 ∷ [] }
    requires waiting { E.waiting engines ≡ [] }
    requires store { IsNew store }
    requires legal { IsLegal two_nodes log.seen }
    ensures who { result.who ≡ log.who }
    ensures seen { result.seen ≡ log.seen }
    ensures nodes { result.nodes ≡ 2 }
{
    starts_empty();
    let replica = LocalReplica::new(alloc, number, engines, store);
    Node::new(alloc, 2, log, replica)
}

/// A node without its log.
#[derive(Drop)]
pub struct Resting<E: Layers, D: Disk> {
    pub(crate) number: NodeId,
    pub(crate) node: base_engine::rest::Rested<LocalReplica<E, D>>,
    pub(crate) log: virtual_log::rest::Rested<Calm>,
}

/// Lays a node down, and gives its fabric out.
fn lay_down<E: Layers, D: Disk>(
    number: NodeId,
    node: Node<Log, LocalReplica<E, D>>,
) -> (Resting<E, D>, Fabric<Cell, Register, TwoNodes>)
    requires who { node.who ≡ number }
    requires nodes { node.nodes ≡ 2 }
    ensures seen { result.1.journal ≡ node.seen }
    ensures number { result.0.number ≡ number }
    ensures rests { Rests number node.seen result.0.node result.0.log }
{
    let (node, log) = node.rest();
    let (log, turns) = log.rest();
    let Own { who: _, fabric } = turns;
    (Resting { number, node, log }, fabric)
}

/// Takes a node up, with this fabric.
fn take_up<E: Layers, D: Disk>(
    resting: Resting<E, D>,
    fabric: Fabric<Cell, Register, TwoNodes>,
) -> Node<Log, LocalReplica<E, D>>
    requires { Rests resting.number fabric.journal resting.node resting.log }
    ensures who { result.who ≡ resting.number }
    ensures seen { result.seen ≡ fabric.journal }
    ensures nodes { result.nodes ≡ 2 }
{
    let Resting { number, node, log } = resting;
    let who = u32::from(number.number());
    let _seen = fabric.journal();
    let log = log.wake(Own { who, fabric });
    node.wake(log)
}

/// Two nodes over one fabric, of which one has it. A clause sees the number of that one.
#[derive(Drop)]
pub struct Two<E: Layers, D: Disk> {
    number: NodeId,
    node: Node<Log, LocalReplica<E, D>>,
    other: Resting<E, D>,
}

impl<E: Layers, D: Disk> Model for Two<E, D> {
    ghost use Rattle.std.specs.Prelude.{ℕ};
    ghost use Rattle.worked_nodes.specs.Resting.{AreTwo};

    ghost Value = { ℕ };

    ghost view = { λ t. t.number };

    ghost invariant = { λ t. AreTwo t.number t.node t.other.number t.other.node t.other.log };
}

impl<E: Layers, D: Disk> Two<E, D> {
    /// Two nodes that did nothing yet, over one loglet. The first has the log.
    pub fn new(
        alloc: Global,
        engines: E,
        store: Store<D>,
        other_engines: E,
        other_store: Store<D>,
    ) -> Option<Self>
        requires kinds { E.kinds engines ≡ 1 ∷ 2 ∷ 3 ∷ 4 ∷ 5 ∷ [] }
        requires waiting { E.waiting engines ≡ [] }
        requires store { IsNew store }
        requires other_kinds { E.kinds other_engines ≡ 1 ∷ 2 ∷ 3 ∷ 4 ∷ 5 ∷ [] }
        requires other_waiting { E.waiting other_engines ≡ [] }
        requires other_store { IsNew other_store }
    {
        let fabric = fresh_fabric(alloc)?;
        let other = NodeId::new(2).unwrap();
        let log = fresh_log(alloc, Own { who: 2, fabric })?;
        let node = fresh_node(alloc, other, other_engines, other_store, log);
        let (other, fabric) = lay_down(other, node);
        let number = NodeId::new(1).unwrap();
        let log = fresh_log(alloc, Own { who: 1, fabric })?;
        let node = fresh_node(alloc, number, engines, store, log);
        Some(Two {
            number,
            node,
            other,
        })
    }

    /// The node that has the log.
    pub fn number(&self) -> NodeId {
        self.number
    }

    /// The log goes to the other node.
    pub fn turned(self) -> Self {
        let Two {
            number,
            node,
            other,
        } = self;
        let (resting, fabric) = lay_down(number, node);
        let number = other.number;
        let node = take_up(other, fabric);
        Two {
            number,
            node,
            other: resting,
        }
    }

    pub fn propose(&mut self, item: Item) -> Result<(), Fault>
        requires item { IsProposable item }
    {
        self.node.propose(item)
    }

    pub fn flush(&mut self) -> Result<(), AllocError> {
        self.node.flush()
    }

    pub fn settle_all(&mut self) -> Result<(), Fault> {
        self.node.settle_all()
    }

    pub fn sync(&mut self) -> Result<u64, Fault> {
        self.node.sync()
    }

    pub fn read(&self, query: &Query) -> Result<Found, AllocError> {
        self.node.read(query)
    }
}
