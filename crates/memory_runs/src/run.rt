//! A run over the shelf and the nodes that the words name.
ghost use Rattle.std.specs.Prelude.{◌≡◌, ◌≢◌, ◌⊎◌, ◌≤◌, ◌+◌, [], ◌∷◌, ◌++◌, IfErr, IfOk, OnOk, None, Some, length, map, string_bytes};
ghost use Rattle.std.specs.List.{AllByRecursion};
ghost use Rattle.std.specs.Vec.{vec_capacity};
ghost use Rattle.script_words.specs.Plans.{IsPlan, plan_of};
ghost use Rattle.script_words.specs.declared.plan.Plan as plans;
ghost use Rattle.shelf_loglets.specs.Shelf.{AreRooms, kind_for, servers_for, serving_in, view_of};
ghost use Rattle.shelf_loglets.specs.Stripes.{new_servers};
ghost use Rattle.fitting_run.specs.Fresh.{five_kinds};
ghost use Rattle.script_runner.specs.Fresh.{AreFresh, AreFreshNodes, shown};
ghost use Rattle.register_api.specs.View.{IsFresh};
ghost use Rattle.script_runner.specs.Ends.{TakesSource};
ghost use Rattle.script_runner.specs.Standing.{HasEnded};
ghost use Rattle.memory_runs.specs.Disks.{IsFreshDisk, IsUntouched};

use crate::register::fresh_register;
use batch_engine::BatchEngine;
use disk_model::{Disk, MemDisk};
use engine_steps::engine::Engine;
use fate_words::chooser::Calm;
use gate_points::Gate;
use local_replica::layers::Layers;
use loglet_api::loglet::Loglet;
use meta_register::MetaRegister;
use node_opening::parts::NodeParts;
use outside_ends::sink::Sink;
use outside_ends::source::Source;
use script_runner::ended::{End, Ended, Status};
use script_runner::run::run_plan;
use script_runner::yard::Yard;
use script_words::plan::{Plan, WordsError, read_words};
use script_words::shelf::Kind;
use session_engine::SessionEngine;
use shelf_loglets::shelf::{Rooms, ShelfLoglet, loglet_of};
use std::alloc::{AllocError, Global};
use std::sync::Wait;
use std::thread::Threads;
use table_engine::TableEngine;
use trim_engine::TrimEngine;
use view_engine::ViewEngine;

/// The five engines of a node, from the lowest to the highest.
pub type Engines = Vec<Box<dyn Engine + Send>>;

/// How a run ended over loglets `L` and nodes on disks `D`, and what was made for it: the loglets, the register, and the disks of
/// the nodes in their order. The nodes' engines are let go.
#[derive(Drop)]
pub struct EndedOver<L: Loglet, D: Disk> {
    pub end: End,
    pub shelf: Vec<L>,
    pub register: MetaRegister<MemDisk>,
    pub disks: Vec<D>,
}

/// The plan of the words; None where they aren't taken.
fn plan_in(alloc: Global, words: &[String]) -> Result<Option<Plan>, AllocError>
    ensures is { IfOk result (λ plan. plan_of (map string_bytes words.now) ≡ plan) }
    ensures sound { IfOk result (λ plan. (p : plans.Plan) → plan ≡ Some p → IsPlan p) }
{
    match read_words(alloc, words) {
        Ok(plan) => Ok(Some(plan)),
        Err(WordsError::BadWords) => Ok(None),
        Err(WordsError::Memory) => Err(AllocError),
    }
}

/// So many empty disks in memory, none of them armed or stopped.
fn empty_disks(alloc: Global, count: u8) -> Result<Vec<MemDisk>, AllocError>
    ensures as_many { IfOk result (λ disks. length disks.items ≡ count) }
    ensures fresh { IfOk result (λ disks. AllByRecursion (λ d. IsFreshDisk d) disks.items) }
    ensures untouched { IfOk result (λ disks. AllByRecursion (λ d. IsUntouched d) disks.items) }
{
    let mut disks = Vec::new(alloc);
    'disk: for _ in 0..count {
        disks.push(MemDisk::new(alloc))?;
    }
    Ok(disks)
}

/// An empty disk in memory for each node of the plan; none where there is no plan.
fn disks_for(alloc: Global, plan: &Option<Plan>) -> Result<Vec<MemDisk>, AllocError>
    ensures as_many { IfOk result (λ disks. (p : plans.Plan) → plan.now ≡ Some p → length disks.items ≡ p.nodes) }
    ensures fresh { IfOk result (λ disks. AllByRecursion (λ d. IsFreshDisk d) disks.items) }
    ensures untouched { IfOk result (λ disks. AllByRecursion (λ d. IsUntouched d) disks.items) }
{
    match plan {
        Some(plan) => empty_disks(alloc, plan.nodes),
        None => Ok(Vec::new(alloc)),
    }
}

/// Empty loglets of these kinds, with these rooms. All of their servers are up, and nothing was asked of them.
fn loglets(alloc: Global, kinds: &[Kind], rooms: Rooms) -> Result<Vec<ShelfLoglet>, AllocError>
    requires { AreRooms rooms }
    ensures kinds { IfOk result (λ shelf. map (λ v. v.kind) (map view_of shelf.items) ≡ map kind_for kinds.now) }
    ensures servers { IfOk result (λ shelf. map serving_in shelf.items ≡ map (λ k. new_servers (servers_for k)) kinds.now) }
    ensures as_many { IfOk result (λ shelf. length shelf.items ≡ length kinds.now) }
    ensures fresh { IfOk result (λ shelf. AreFresh (map view_of shelf.items)) }
{
    let mut shelf = Vec::new(alloc);
    'kind: for kind in kinds {
        shelf.push(loglet_of(alloc, *kind, rooms)?)?;
    }
    Ok(shelf)
}

/// An empty loglet for each kind of the plan; none where there is no plan.
fn shelf_for(
    alloc: Global,
    plan: &Option<Plan>,
    rooms: Rooms,
) -> Result<Vec<ShelfLoglet>, AllocError>
    requires { AreRooms rooms }
    ensures kinds { IfOk result (λ shelf. (p : plans.Plan) → plan.now ≡ Some p → map (λ v. v.kind) (map view_of shelf.items) ≡ map kind_for p.shelf) }
    ensures servers { IfOk result (λ shelf. (p : plans.Plan) → plan.now ≡ Some p → map serving_in shelf.items ≡ map (λ k. new_servers (servers_for k)) p.shelf) }
    ensures as_many { IfOk result (λ shelf. (p : plans.Plan) → plan.now ≡ Some p → length shelf.items ≡ length p.shelf) }
    ensures fresh { IfOk result (λ shelf. AreFresh (map view_of shelf.items)) }
{
    match plan {
        Some(plan) => loglets(alloc, plan.shelf.as_slice(), rooms),
        None => Ok(Vec::new(alloc)),
    }
}

/// One more node, of these engines, which are one of each kind with the lowest first, and on this disk, which is empty. What chooses
/// for it loses no message.
pub fn add_node<E: Layers, D: Disk>(
    nodes: &mut Vec<NodeParts<E, D, Calm>>,
    engines: E,
    disk: D,
) -> Result<(), AllocError>
    requires kinds { E.kinds engines ≡ five_kinds }
    requires waiting { E.waiting engines ≡ [] }
    requires disk { IsFreshDisk (D.view disk) }
    requires fresh { AreFreshNodes (λ k. E.kinds k.engines) (λ k. E.waiting k.engines) (λ k. D.view k.disk) nodes.old.items }
    ensures fresh { AreFreshNodes (λ k. E.kinds k.engines) (λ k. E.waiting k.engines) (λ k. D.view k.disk) nodes.new.items }
    ensures count { OnOk result (length nodes.new.items ≡ length nodes.old.items + 1) }
    ensures disks { OnOk result (map (λ k. D.view k.disk) nodes.new.items ≡ map (λ k. D.view k.disk) nodes.old.items ++ D.view disk ∷ []) }
{
    nodes.push(NodeParts {
        engines,
        disk,
        chooser: Calm,
    })?;
    Ok(())
}

/// Takes the nodes' disks, in their order. Takes no memory: there is room for them.
fn take_disks<E: Layers, D: Disk>(nodes: Vec<NodeParts<E, D, Calm>>, disks: &mut Vec<D>)
    requires none { disks.old.items ≡ [] }
    requires room { length nodes.items ≤ vec_capacity disks.old }
    ensures disks { map (λ d. D.view d) disks.new.items ≡ map (λ k. D.view k.disk) nodes.items }
    ensures faults { map (λ d. (D.view d).faults) disks.new.items ≡ map (λ k. (D.view k.disk).faults) nodes.items }
{
    let mut nodes = nodes;
    while !nodes.is_empty() {
        let NodeParts {
            engines: _,
            disk,
            chooser: _,
        } = nodes.remove(0);
        disks.push_reserved(disk);
    }
    nodes.destroy_empty();
}

/// Runs the plan over these loglets and nodes, and a register on a disk in memory.
fn run_with<
    W: Threads + Wait + Sync,
    L: Loglet + Send,
    E: Layers + Send,
    D: Disk + Send,
    S: Source,
    K: Sink,
    G: Gate + Sync,
>(
    rt: &W,
    alloc: Global,
    plan: &Option<Plan>,
    shelf: Vec<L>,
    nodes: Vec<NodeParts<E, D, Calm>>,
    source: &mut S,
    sink: &mut K,
    gate: &G,
) -> Result<EndedOver<L, D>, AllocError>
    requires shelf { AreFresh (map L.view shelf.items) }
    requires nodes { AreFreshNodes (λ k. E.kinds k.engines) (λ k. E.waiting k.engines) (λ k. D.view k.disk) nodes.items }
    requires sound { (p : plans.Plan) → plan.now ≡ Some p → IsPlan p }
    requires loglets { (p : plans.Plan) → plan.now ≡ Some p → length shelf.items ≡ length p.shelf }
    requires as_many { (p : plans.Plan) → plan.now ≡ Some p → length nodes.items ≡ p.nodes }
    ensures ended { IfOk result (λ ended. HasEnded plan.now (record { left = S.left source.old; missed = S.counted source.old; held = K.held sink.old; lost = K.counted sink.old }) (record { left = S.left source.new; missed = S.counted source.new; held = K.held sink.new; lost = K.counted sink.new }) (shown L.view (λ r. r.register) (λ d. (D.view d).faults) ended.shelf.items ended.register ended.disks.items) ended.end) }
    ensures kinds { IfOk result (λ ended. map (λ v. v.kind) (map L.view ended.shelf.items) ≡ map (λ v. v.kind) (map L.view shelf.items)) }
    ensures loglets { IfOk result (λ ended. length ended.shelf.items ≡ length shelf.items) }
    ensures disks { IfOk result (λ ended. length ended.disks.items ≡ length nodes.items) }
    ensures untouched { IfOk result (λ ended. ended.end.told ≡ None → ended.end.status ≢ Status.Memory → (ended.shelf ≡ shelf) × (map (λ d. D.view d) ended.disks.items ≡ map (λ k. D.view k.disk) nodes.items) × IsFresh ended.register.register) }
    ensures untaken { IfOk result (λ _. (TakesSource plan.now → ⊥) → source.new ≡ source.old) }
    ensures silent { IfOk result (λ ended. (ended.end.status ≡ Status.SourceFault) ⊎ (ended.end.status ≡ Status.Memory) → sink.new ≡ sink.old) }
    ensures nothing { IfErr result (λ _. (sink.new ≡ sink.old) × (source.new ≡ source.old)) }
{
    let register = fresh_register(alloc)?;
    let mut disks = Vec::with_capacity(alloc, nodes.len())?;
    let yard = Yard {
        shelf,
        register,
        nodes,
    };
    let Ended { end, yard } = run_plan(rt, alloc, plan, source, sink, yard, gate);
    let Yard {
        shelf,
        register,
        nodes,
    } = yard;
    take_disks(nodes, &mut disks);
    Ok(EndedOver {
        end,
        shelf,
        register,
        disks,
    })
}

/// Runs the plan over these loglets, and over nodes on these disks, each with the five engines.
fn run_plan_over<
    W: Threads + Wait + Sync,
    L: Loglet + Send,
    D: Disk + Send,
    S: Source,
    K: Sink,
    G: Gate + Sync,
>(
    rt: &W,
    alloc: Global,
    plan: &Option<Plan>,
    shelf: Vec<L>,
    disks: Vec<D>,
    source: &mut S,
    sink: &mut K,
    gate: &G,
) -> Result<EndedOver<L, D>, AllocError>
    requires shelf { AreFresh (map L.view shelf.items) }
    requires sound { (p : plans.Plan) → plan.now ≡ Some p → IsPlan p }
    requires loglets { (p : plans.Plan) → plan.now ≡ Some p → length shelf.items ≡ length p.shelf }
    requires as_many { (p : plans.Plan) → plan.now ≡ Some p → length disks.items ≡ p.nodes }
    requires fresh { AllByRecursion (λ d. IsFreshDisk (D.view d)) disks.items }
    ensures ended { IfOk result (λ ended. HasEnded plan.now (record { left = S.left source.old; missed = S.counted source.old; held = K.held sink.old; lost = K.counted sink.old }) (record { left = S.left source.new; missed = S.counted source.new; held = K.held sink.new; lost = K.counted sink.new }) (shown L.view (λ r. r.register) (λ d. (D.view d).faults) ended.shelf.items ended.register ended.disks.items) ended.end) }
    ensures kinds { IfOk result (λ ended. map (λ v. v.kind) (map L.view ended.shelf.items) ≡ map (λ v. v.kind) (map L.view shelf.items)) }
    ensures loglets { IfOk result (λ ended. length ended.shelf.items ≡ length shelf.items) }
    ensures disks { IfOk result (λ ended. length ended.disks.items ≡ length disks.items) }
    ensures untouched { IfOk result (λ ended. ended.end.told ≡ None → ended.end.status ≢ Status.Memory → (ended.shelf ≡ shelf) × (map (λ d. D.view d) ended.disks.items ≡ map (λ d. D.view d) disks.items) × IsFresh ended.register.register) }
    ensures untaken { IfOk result (λ _. (TakesSource plan.now → ⊥) → source.new ≡ source.old) }
    ensures silent { IfOk result (λ ended. (ended.end.status ≡ Status.SourceFault) ⊎ (ended.end.status ≡ Status.Memory) → sink.new ≡ sink.old) }
    ensures nothing { IfErr result (λ _. (sink.new ≡ sink.old) × (source.new ≡ source.old)) }
{
    let count = disks.len();
    let mut disks = disks;
    let mut nodes = Vec::new(alloc);
    'node: for _ in 0..count {
        let disk = disks.remove(0);
        let mut engines: Engines = Vec::new(alloc);
        engines.push(Box::new(alloc, BatchEngine::new(alloc))?)?;
        engines.push(Box::new(alloc, SessionEngine {})?)?;
        engines.push(Box::new(alloc, ViewEngine {})?)?;
        engines.push(Box::new(alloc, TrimEngine {})?)?;
        engines.push(Box::new(alloc, TableEngine {})?)?;
        add_node(&mut nodes, engines, disk)?;
    }
    run_with(rt, alloc, plan, shelf, nodes, source, sink, gate)
}

/// Runs the script over these loglets, which may be of any kind, and over these nodes, whose engines and disks are the caller's.
/// There is one loglet for each kind that the words name, and as many nodes as they say. What the run was made over comes back, but the
/// engines. An error is want of memory before anything was read or put.
pub fn run_over<
    W: Threads + Wait + Sync,
    L: Loglet + Send,
    E: Layers + Send,
    D: Disk + Send,
    S: Source,
    K: Sink,
    G: Gate + Sync,
>(
    rt: &W,
    alloc: Global,
    words: &[String],
    shelf: Vec<L>,
    nodes: Vec<NodeParts<E, D, Calm>>,
    source: &mut S,
    sink: &mut K,
    gate: &G,
) -> Result<EndedOver<L, D>, AllocError>
    requires shelf { AreFresh (map L.view shelf.items) }
    requires nodes { AreFreshNodes (λ k. E.kinds k.engines) (λ k. E.waiting k.engines) (λ k. D.view k.disk) nodes.items }
    requires loglets { (plan : plans.Plan) → plan_of (map string_bytes words.now) ≡ Some plan → length shelf.items ≡ length plan.shelf }
    requires as_many { (plan : plans.Plan) → plan_of (map string_bytes words.now) ≡ Some plan → length nodes.items ≡ plan.nodes }
    ensures ended { IfOk result (λ ended. HasEnded (plan_of (map string_bytes words.now)) (record { left = S.left source.old; missed = S.counted source.old; held = K.held sink.old; lost = K.counted sink.old }) (record { left = S.left source.new; missed = S.counted source.new; held = K.held sink.new; lost = K.counted sink.new }) (shown L.view (λ r. r.register) (λ d. (D.view d).faults) ended.shelf.items ended.register ended.disks.items) ended.end) }
    ensures kinds { IfOk result (λ ended. map (λ v. v.kind) (map L.view ended.shelf.items) ≡ map (λ v. v.kind) (map L.view shelf.items)) }
    ensures loglets { IfOk result (λ ended. length ended.shelf.items ≡ length shelf.items) }
    ensures disks { IfOk result (λ ended. length ended.disks.items ≡ length nodes.items) }
    ensures untouched { IfOk result (λ ended. ended.end.told ≡ None → ended.end.status ≢ Status.Memory → (ended.shelf ≡ shelf) × (map (λ d. D.view d) ended.disks.items ≡ map (λ k. D.view k.disk) nodes.items) × IsFresh ended.register.register) }
    ensures untaken { IfOk result (λ _. (TakesSource (plan_of (map string_bytes words.now)) → ⊥) → source.new ≡ source.old) }
    ensures silent { IfOk result (λ ended. (ended.end.status ≡ Status.SourceFault) ⊎ (ended.end.status ≡ Status.Memory) → sink.new ≡ sink.old) }
    ensures nothing { IfErr result (λ _. (sink.new ≡ sink.old) × (source.new ≡ source.old)) }
{
    let plan = plan_in(alloc, words)?;
    run_with(rt, alloc, &plan, shelf, nodes, source, sink, gate)
}

/// Runs the script over as many loglets as the words say, of their kinds and with these rooms, on disks in memory, where no
/// message is lost and no disk fails, and over nodes on these disks, of which there is one for each. What the run was made over comes back.
pub fn run_on<W: Threads + Wait + Sync, D: Disk + Send, S: Source, K: Sink, G: Gate + Sync>(
    rt: &W,
    alloc: Global,
    words: &[String],
    rooms: Rooms,
    disks: Vec<D>,
    source: &mut S,
    sink: &mut K,
    gate: &G,
) -> Result<EndedOver<ShelfLoglet, D>, AllocError>
    requires rooms { AreRooms rooms }
    requires as_many { (plan : plans.Plan) → plan_of (map string_bytes words.now) ≡ Some plan → length disks.items ≡ plan.nodes }
    requires fresh { AllByRecursion (λ d. IsFreshDisk (D.view d)) disks.items }
    ensures ended { IfOk result (λ ended. HasEnded (plan_of (map string_bytes words.now)) (record { left = S.left source.old; missed = S.counted source.old; held = K.held sink.old; lost = K.counted sink.old }) (record { left = S.left source.new; missed = S.counted source.new; held = K.held sink.new; lost = K.counted sink.new }) (shown view_of (λ r. r.register) (λ d. (D.view d).faults) ended.shelf.items ended.register ended.disks.items) ended.end) }
    ensures kinds { (plan : plans.Plan) → plan_of (map string_bytes words.now) ≡ Some plan → IfOk result (λ ended. map (λ v. v.kind) (map view_of ended.shelf.items) ≡ map kind_for plan.shelf) }
    ensures loglets { (plan : plans.Plan) → plan_of (map string_bytes words.now) ≡ Some plan → IfOk result (λ ended. length ended.shelf.items ≡ length plan.shelf) }
    ensures disks { IfOk result (λ ended. length ended.disks.items ≡ length disks.items) }
    ensures untouched { IfOk result (λ ended. ended.end.told ≡ None → ended.end.status ≢ Status.Memory → (AreFresh (map view_of ended.shelf.items)) × (map (λ d. D.view d) ended.disks.items ≡ map (λ d. D.view d) disks.items) × IsFresh ended.register.register) }
    ensures untaken { IfOk result (λ _. (TakesSource (plan_of (map string_bytes words.now)) → ⊥) → source.new ≡ source.old) }
    ensures silent { IfOk result (λ ended. (ended.end.status ≡ Status.SourceFault) ⊎ (ended.end.status ≡ Status.Memory) → sink.new ≡ sink.old) }
    ensures nothing { IfErr result (λ _. (sink.new ≡ sink.old) × (source.new ≡ source.old)) }
{
    let plan = plan_in(alloc, words)?;
    let shelf = shelf_for(alloc, &plan, rooms)?;
    run_plan_over(rt, alloc, &plan, shelf, disks, source, sink, gate)
}

/// Runs the script over as many loglets and nodes as the words say, all on disks in memory. What the run was made over comes back.
pub fn run_in_memory<W: Threads + Wait + Sync, S: Source, K: Sink, G: Gate + Sync>(
    rt: &W,
    alloc: Global,
    words: &[String],
    rooms: Rooms,
    source: &mut S,
    sink: &mut K,
    gate: &G,
) -> Result<EndedOver<ShelfLoglet, MemDisk>, AllocError>
    requires { AreRooms rooms }
    ensures ended { IfOk result (λ ended. HasEnded (plan_of (map string_bytes words.now)) (record { left = S.left source.old; missed = S.counted source.old; held = K.held sink.old; lost = K.counted sink.old }) (record { left = S.left source.new; missed = S.counted source.new; held = K.held sink.new; lost = K.counted sink.new }) (shown view_of (λ r. r.register) (λ d. d.faults) ended.shelf.items ended.register ended.disks.items) ended.end) }
    ensures kinds { (plan : plans.Plan) → plan_of (map string_bytes words.now) ≡ Some plan → IfOk result (λ ended. map (λ v. v.kind) (map view_of ended.shelf.items) ≡ map kind_for plan.shelf) }
    ensures loglets { (plan : plans.Plan) → plan_of (map string_bytes words.now) ≡ Some plan → IfOk result (λ ended. length ended.shelf.items ≡ length plan.shelf) }
    ensures disks { (plan : plans.Plan) → plan_of (map string_bytes words.now) ≡ Some plan → IfOk result (λ ended. length ended.disks.items ≡ plan.nodes) }
    ensures untouched { IfOk result (λ ended. ended.end.told ≡ None → ended.end.status ≢ Status.Memory → (AreFresh (map view_of ended.shelf.items)) × (AllByRecursion (λ d. IsUntouched d) ended.disks.items) × IsFresh ended.register.register) }
    ensures untaken { IfOk result (λ _. (TakesSource (plan_of (map string_bytes words.now)) → ⊥) → source.new ≡ source.old) }
    ensures silent { IfOk result (λ ended. (ended.end.status ≡ Status.SourceFault) ⊎ (ended.end.status ≡ Status.Memory) → sink.new ≡ sink.old) }
    ensures nothing { IfErr result (λ _. (sink.new ≡ sink.old) × (source.new ≡ source.old)) }
{
    let plan = plan_in(alloc, words)?;
    let shelf = shelf_for(alloc, &plan, rooms)?;
    let disks = disks_for(alloc, &plan)?;
    run_plan_over(rt, alloc, &plan, shelf, disks, source, sink, gate)
}
