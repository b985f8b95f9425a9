//! The engines of one node, from the lowest to the highest.
ghost use Rattle.std.specs.Prelude.{◌≡◌, ◌≢◌, ℕ, ◌+◌, ◌≤◌, true, List, ◌++◌, [], ◌∷◌, drop, take, length, map, IfOk, OnOk, OnErr};
ghost use Rattle.std.specs.List.{list_all};
ghost use Rattle.delos_types.specs.Spaces.{SpaceMap};
ghost use Rattle.delos_types.specs.declared.place.Place.{Place};
ghost use Rattle.engine_steps.specs.Hearing.{own, Each};
ghost use Rattle.engine_api.specs.Packing.{IsProposable};
ghost use Rattle.engine_steps.specs.Steps.{BatchFlush};
ghost use Rattle.engine_steps.specs.Words.{opened_items};
ghost use Rattle.delos_types.specs.declared.entry.Entry.{Entry};
ghost use Rattle.log_laws.specs.Appearing.{IsNotAfter};
ghost use Rattle.log_laws.specs.Order.{EachPair};
ghost use Rattle.log_laws.specs.State.{IsStateOf, Grows};
ghost use Rattle.log_laws.specs.Rises.{Rises, Sinks, Applies, Proposes, placed_items, acted_in, lowest};

use crate::level::{hear, level};
use delos_types::entry::Entry;
use delos_types::item::{Item, ItemList};
use delos_types::numbers::NodeId;
use delos_types::place::Place;
use delos_types::space::Space;
use engine_steps::engine::{Down, Engine};
use engine_steps::words::session_word;
use log_laws::rising::{Acted, Rising, Told};
use std::alloc::{AllocError, Global};
use std::collections::VecDeque;

/// The engines of one node. Its calls ask for the five kinds in order: batch, session, view, trim,
/// table.
#[derive(Drop)]
pub struct Stack {
    /// The node, of which the entries are that go down.
    pub origin: NodeId,
    /// From the lowest to the highest.
    pub engines: Vec<Box<dyn Engine + Send>>,
}

impl Stack {
    /// The stack of these engines, the lowest first.
    pub fn new(origin: NodeId, engines: Vec<Box<dyn Engine + Send>>) -> Stack
        ensures engines { result.engines ≡ engines }
        ensures origin { result.origin ≡ origin }
    {
        Stack { origin, engines }
    }

    /// The engines again. It takes no memory.
    pub fn into_engines(self) -> Vec<Box<dyn Engine + Send>>
        ensures { result ≡ self.engines }
    {
        let Stack { origin: _, engines } = self;
        engines
    }

    /// An item goes down from the highest engine. It comes out as an entry with the 15 that were kept
    /// before it, or is kept with fewer.
    pub fn propose_items(&mut self, alloc: Global, item: Item) -> Result<Option<Entry>, AllocError>
        requires kinds { map (λ e. kind_of e) self.old.engines.items ≡ 1 ∷ 2 ∷ 3 ∷ 4 ∷ 5 ∷ [] }
        requires item { IsProposable item }
        ensures step { IfOk result (λ packed. Proposes self.old.origin (lowest (map (λ e. kept e) self.old.engines.items)) item packed (lowest (map (λ e. kept e) self.new.engines.items))) }
        ensures err { OnErr result (lowest (map (λ e. kept e) self.new.engines.items) ≡ lowest (map (λ e. kept e) self.old.engines.items)) }
        ensures known { (space : SpaceMap) → list_all (λ e. knows e (own (kind_of e) space)) self.old.engines.items ≡ true → list_all (λ e. knows e (own (kind_of e) space)) self.new.engines.items ≡ true }
        ensures posted { (told : List (List Place)) → Each (λ e places. posted e places) self.old.engines.items told → Each (λ e places. posted e places) self.new.engines.items told }
        ensures kinds { map (λ e. kind_of e) self.new.engines.items ≡ map (λ e. kind_of e) self.old.engines.items }
        ensures origin { self.new.origin ≡ self.old.origin }
    {
        let origin = self.origin;
        let item = descend(&mut self.engines, alloc, origin, item)?;
        pack_at(&mut self.engines[0], alloc, origin, item)
    }

    /// What is kept goes down, as one entry; none where nothing is kept.
    pub fn flush_items(&mut self, alloc: Global) -> Result<Option<Entry>, AllocError>
        requires kinds { map (λ e. kind_of e) self.old.engines.items ≡ 1 ∷ 2 ∷ 3 ∷ 4 ∷ 5 ∷ [] }
        ensures step { IfOk result (λ packed. BatchFlush self.old.origin (lowest (map (λ e. kept e) self.old.engines.items)) packed (lowest (map (λ e. kept e) self.new.engines.items))) }
        ensures err { OnErr result (lowest (map (λ e. kept e) self.new.engines.items) ≡ lowest (map (λ e. kept e) self.old.engines.items)) }
        ensures known { (space : SpaceMap) → list_all (λ e. knows e (own (kind_of e) space)) self.old.engines.items ≡ true → list_all (λ e. knows e (own (kind_of e) space)) self.new.engines.items ≡ true }
        ensures posted { (told : List (List Place)) → Each (λ e places. posted e places) self.old.engines.items told → Each (λ e places. posted e places) self.new.engines.items told }
        ensures kinds { map (λ e. kind_of e) self.new.engines.items ≡ map (λ e. kind_of e) self.old.engines.items }
        ensures origin { self.new.origin ≡ self.old.origin }
    {
        let origin = self.origin;
        flush_at(&mut self.engines[0], alloc, origin)
    }

    /// The engines go on from the states in their space, the lowest first: each knows what the space
    /// has of its kind, whatever it knew before.
    pub fn load(&mut self, space: &dyn Space) -> Result<(), AllocError>
        ensures known { OnOk result (list_all (λ e. knows e (own (kind_of e) (contents space.now))) self.new.engines.items ≡ true) }
        // Where memory runs out, those below one know the space, and those above it heard nothing.
        ensures lowest_first { OnErr result ((n : ℕ) × (list_all (λ e. knows e (own (kind_of e) (contents space.now))) (take n self.new.engines.items) ≡ true) × (drop (n + 1) self.new.engines.items ≡ drop (n + 1) self.old.engines.items)) }
        ensures posted { (told : List (List Place)) → Each (λ e places. posted e places) self.old.engines.items told → Each (λ e places. posted e places) self.new.engines.items told }
        ensures kinds { map (λ e. kind_of e) self.new.engines.items ≡ map (λ e. kind_of e) self.old.engines.items }
        ensures kept { map (λ e. kept e) self.new.engines.items ≡ map (λ e. kept e) self.old.engines.items }
        ensures origin { self.new.origin ≡ self.old.origin }
    {
        load_all(&mut self.engines, space)
    }

    /// What acted at a place is stored: each engine is told, the lowest first. It takes no memory.
    pub fn post_place(&mut self, place: Place)
        ensures known { (space : SpaceMap) → list_all (λ e. knows e (own (kind_of e) space)) self.old.engines.items ≡ true → list_all (λ e. knows e (own (kind_of e) space)) self.new.engines.items ≡ true }
        ensures posted { (told : List (List Place)) → Each (λ e places. posted e places) self.old.engines.items told → Each (λ e places. posted e places) self.new.engines.items (map (λ places. places ++ place ∷ []) told) }
        ensures kinds { map (λ e. kind_of e) self.new.engines.items ≡ map (λ e. kind_of e) self.old.engines.items }
        ensures kept { map (λ e. kept e) self.new.engines.items ≡ map (λ e. kept e) self.old.engines.items }
        ensures origin { self.new.origin ≡ self.old.origin }
    {
        post_all(&mut self.engines, place);
    }

    /// The entry at a position comes up: what acts there, in order, with its replies. The engines know
    /// the space, and go on knowing it where memory suffices. An entry that is
    /// malformed, or of which an item is, does nothing. It takes time that grows with the entry's length,
    /// and for each item, and each rank that it frees, some look-ups and changes of the space.
    pub fn apply_entry(
        &mut self,
        alloc: Global,
        txn: &mut dyn Space,
        pos: u64,
        entry: &Entry,
    ) -> Result<Vec<Acted>, AllocError>
        requires kinds { map (λ e. kind_of e) self.old.engines.items ≡ 1 ∷ 2 ∷ 3 ∷ 4 ∷ 5 ∷ [] }
        requires known { list_all (λ e. knows e (own (kind_of e) (contents txn.old))) self.old.engines.items ≡ true }
        // The space was the state of whatever log stands below the position: now it is that of the log
        // with the entry at its end, and what acts there behind what acted before is answered.
        ensures grows { IfOk result (λ acted. (log : List Entry) → length log ≡ pos → IsStateOf log (contents txn.old) → Grows log entry.now acted.items (contents txn.new)) }
        ensures step { IfOk result (λ acted. Applies (contents txn.old) pos entry.now acted.items (contents txn.new)) }
        // Of what acts none stands before one that acted earlier: those at one place stand together.
        ensures in_order { IfOk result (λ acted. EachPair (λ a b. IsNotAfter a.place b.place) acted.items) }
        ensures known { OnOk result (list_all (λ e. knows e (own (kind_of e) (contents txn.new))) self.new.engines.items ≡ true) }
        ensures posted { (told : List (List Place)) → Each (λ e places. posted e places) self.old.engines.items told → Each (λ e places. posted e places) self.new.engines.items told }
        ensures kinds { map (λ e. kind_of e) self.new.engines.items ≡ map (λ e. kind_of e) self.old.engines.items }
        ensures kept { map (λ e. kept e) self.new.engines.items ≡ map (λ e. kept e) self.old.engines.items }
        ensures origin { self.new.origin ≡ self.old.origin }
        ensures beginning { beginning txn.new ≡ beginning txn.old }
    {
        let items = open_at(&mut self.engines[0], alloc, entry)?;
        let rising = place_items(alloc, pos, items)?;
        let told = rise(&mut self.engines, alloc, txn, rising)?;
        sink(&mut self.engines, alloc, txn, told.as_slice())?;
        let out = acted(alloc, told)?;
        Ok(out)
    }
}

// The item goes down through all engines but the lowest, which pass it on as it is.
fn descend(
    engines: &mut Vec<Box<dyn Engine + Send>>,
    alloc: Global,
    origin: NodeId,
    item: Item,
) -> Result<Item, AllocError>
    requires kinds { map (λ e. kind_of e) engines.old.items ≡ 1 ∷ 2 ∷ 3 ∷ 4 ∷ 5 ∷ [] }
    requires item { IsProposable item }
    ensures item { IfOk result (λ out. out ≡ item) }
    ensures known { (space : SpaceMap) → list_all (λ e. knows e (own (kind_of e) space)) engines.old.items ≡ true → list_all (λ e. knows e (own (kind_of e) space)) engines.new.items ≡ true }
    ensures posted { (told : List (List Place)) → Each (λ e places. posted e places) engines.old.items told → Each (λ e places. posted e places) engines.new.items told }
    ensures kinds { map (λ e. kind_of e) engines.new.items ≡ map (λ e. kind_of e) engines.old.items }
    ensures kept { map (λ e. kept e) engines.new.items ≡ map (λ e. kept e) engines.old.items }
{
    let mut item = item;
    let mut k = engines.len();
    while k > 1 {
        k -= 1;
        item = through(&mut engines[k], alloc, origin, item)?;
    }
    Ok(item)
}

fn through(
    engine: &mut Box<dyn Engine + Send>,
    alloc: Global,
    origin: NodeId,
    item: Item,
) -> Result<Item, AllocError>
    requires kind { kind_of engine.old ≢ 1 }
    requires item { IsProposable item }
    ensures item { IfOk result (λ out. out ≡ item) }
    ensures known { (space : SpaceMap) → knows engine.old space ≡ true → knows engine.new space ≡ true }
    ensures posted { (places : List Place) → posted engine.old places → posted engine.new places }
    ensures kind { kind_of engine.new ≡ kind_of engine.old }
    ensures kept { kept engine.new ≡ kept engine.old }
{
    match engine.down(alloc, origin, item)? {
        Down::Pass(item) => Ok(item),
        // Only the batch engine keeps an item.
        Down::Keep => Err(AllocError),
        Down::Pack(_) => Err(AllocError),
    }
}

// The item goes to the lowest engine.
fn pack_at(
    engine: &mut Box<dyn Engine + Send>,
    alloc: Global,
    origin: NodeId,
    item: Item,
) -> Result<Option<Entry>, AllocError>
    requires kind { kind_of engine.old ≡ 1 }
    requires item { IsProposable item }
    ensures step { IfOk result (λ packed. Proposes origin (kept engine.old) item packed (kept engine.new)) }
    ensures err { OnErr result (kept engine.new ≡ kept engine.old) }
    ensures known { (space : SpaceMap) → knows engine.old space ≡ true → knows engine.new space ≡ true }
    ensures posted { (places : List Place) → posted engine.old places → posted engine.new places }
    ensures kind { kind_of engine.new ≡ kind_of engine.old }
{
    match engine.down(alloc, origin, item)? {
        Down::Pack(entry) => Ok(Some(entry)),
        Down::Keep => Ok(None),
        // The batch engine passes no item on.
        Down::Pass(_) => Err(AllocError),
    }
}

fn flush_at(
    engine: &mut Box<dyn Engine + Send>,
    alloc: Global,
    origin: NodeId,
) -> Result<Option<Entry>, AllocError>
    requires { kind_of engine.old ≡ 1 }
    ensures step { IfOk result (λ packed. BatchFlush origin (kept engine.old) packed (kept engine.new)) }
    ensures err { OnErr result (kept engine.new ≡ kept engine.old) }
    ensures known { (space : SpaceMap) → knows engine.old space ≡ true → knows engine.new space ≡ true }
    ensures posted { (places : List Place) → posted engine.old places → posted engine.new places }
    ensures kind { kind_of engine.new ≡ kind_of engine.old }
{
    let packed = engine.flush(alloc, origin)?;
    Ok(packed)
}

fn load_all(engines: &mut Vec<Box<dyn Engine + Send>>, space: &dyn Space) -> Result<(), AllocError>
    ensures known { OnOk result (list_all (λ e. knows e (own (kind_of e) (contents space.now))) engines.new.items ≡ true) }
    ensures lowest_first { OnErr result ((n : ℕ) × (list_all (λ e. knows e (own (kind_of e) (contents space.now))) (take n engines.new.items) ≡ true) × (drop (n + 1) engines.new.items ≡ drop (n + 1) engines.old.items)) }
    ensures posted { (told : List (List Place)) → Each (λ e places. posted e places) engines.old.items told → Each (λ e places. posted e places) engines.new.items told }
    ensures kinds { map (λ e. kind_of e) engines.new.items ≡ map (λ e. kind_of e) engines.old.items }
    ensures kept { map (λ e. kept e) engines.new.items ≡ map (λ e. kept e) engines.old.items }
{
    for k in 0..engines.len() {
        load_at(&mut engines[k], space)?;
    }
    Ok(())
}

fn load_at(engine: &mut Box<dyn Engine + Send>, space: &dyn Space) -> Result<(), AllocError>
    ensures known { OnOk result (knows engine.new (own (kind_of engine.new) (contents space.now)) ≡ true) }
    ensures posted { (places : List Place) → posted engine.old places → posted engine.new places }
    ensures kind { kind_of engine.new ≡ kind_of engine.old }
    ensures kept { kept engine.new ≡ kept engine.old }
{
    engine.load(space)
}

fn post_all(engines: &mut Vec<Box<dyn Engine + Send>>, place: Place)
    ensures known { (space : SpaceMap) → list_all (λ e. knows e (own (kind_of e) space)) engines.old.items ≡ true → list_all (λ e. knows e (own (kind_of e) space)) engines.new.items ≡ true }
    ensures posted { (told : List (List Place)) → Each (λ e places. posted e places) engines.old.items told → Each (λ e places. posted e places) engines.new.items (map (λ places. places ++ place ∷ []) told) }
    ensures kinds { map (λ e. kind_of e) engines.new.items ≡ map (λ e. kind_of e) engines.old.items }
    ensures kept { map (λ e. kept e) engines.new.items ≡ map (λ e. kept e) engines.old.items }
{
    for k in 0..engines.len() {
        post_at(&mut engines[k], place);
    }
}

fn post_at(engine: &mut Box<dyn Engine + Send>, place: Place)
    ensures known { (space : SpaceMap) → knows engine.old space ≡ true → knows engine.new space ≡ true }
    ensures posted { (places : List Place) → posted engine.old places → posted engine.new (places ++ place ∷ []) }
    ensures kind { kind_of engine.new ≡ kind_of engine.old }
    ensures kept { kept engine.new ≡ kept engine.old }
{
    engine.post(place);
}

fn open_at(
    engine: &mut Box<dyn Engine + Send>,
    alloc: Global,
    entry: &Entry,
) -> Result<ItemList, AllocError>
    requires { kind_of engine.old ≡ 1 }
    ensures items { IfOk result (λ items. items ≡ opened_items entry.now) }
    ensures few { IfOk result (λ items. length items ≤ 16) }
    ensures known { (space : SpaceMap) → knows engine.old space ≡ true → knows engine.new space ≡ true }
    ensures posted { (places : List Place) → posted engine.old places → posted engine.new places }
    ensures kind { kind_of engine.new ≡ kind_of engine.old }
    ensures kept { kept engine.new ≡ kept engine.old }
{
    let items = engine.open(alloc, entry)?;
    Ok(items)
}

// The items stand at one position, numbered from 0.
fn place_items(alloc: Global, pos: u64, items: ItemList) -> Result<VecDeque<Rising>, AllocError>
    requires { length items ≤ 16 }
    ensures { IfOk result (λ rising. rising.items ≡ placed_items pos 0 items) }
{
    let mut items = items.into_vec();
    let mut rising = VecDeque::with_capacity(alloc, items.len())?;
    while let Some(item) = items.pop() {
        let sub = items.len() as u16;
        let place = Place { pos, sub };
        rising.push_front(Rising { place, item })?;
    }
    Ok(rising)
}

// The items come up to all engines but the lowest.
fn rise(
    engines: &mut Vec<Box<dyn Engine + Send>>,
    alloc: Global,
    space: &mut dyn Space,
    items: VecDeque<Rising>,
) -> Result<Vec<Told>, AllocError>
    requires kinds { map (λ e. kind_of e) engines.old.items ≡ 1 ∷ 2 ∷ 3 ∷ 4 ∷ 5 ∷ [] }
    requires known { list_all (λ e. knows e (own (kind_of e) (contents space.old))) engines.old.items ≡ true }
    ensures step { IfOk result (λ told. Rises (drop 1 (map (λ e. kind_of e) engines.old.items)) (contents space.old) items.items told.items (contents space.new)) }
    ensures known { OnOk result (list_all (λ e. knows e (own (kind_of e) (contents space.new))) engines.new.items ≡ true) }
    ensures posted { (told : List (List Place)) → Each (λ e places. posted e places) engines.old.items told → Each (λ e places. posted e places) engines.new.items told }
    ensures kinds { map (λ e. kind_of e) engines.new.items ≡ map (λ e. kind_of e) engines.old.items }
    ensures kept { map (λ e. kept e) engines.new.items ≡ map (λ e. kept e) engines.old.items }
    ensures beginning { beginning space.new ≡ beginning space.old }
{
    let mut told = Vec::with_capacity(alloc, items.len())?;
    let mut items = items;
    for k in 1..engines.len() {
        items = level(&mut engines[k], alloc, space, items, &mut told)?;
    }
    Ok(told)
}

// The replies go down to all engines.
fn sink(
    engines: &mut Vec<Box<dyn Engine + Send>>,
    alloc: Global,
    space: &mut dyn Space,
    told: &[Told],
) -> Result<(), AllocError>
    requires kinds { map (λ e. kind_of e) engines.old.items ≡ 1 ∷ 2 ∷ 3 ∷ 4 ∷ 5 ∷ [] }
    requires known { list_all (λ e. knows e (own (kind_of e) (contents space.old))) engines.old.items ≡ true }
    ensures step { OnOk result (Sinks (map (λ e. kind_of e) engines.old.items) (contents space.old) told.now (contents space.new)) }
    ensures known { OnOk result (list_all (λ e. knows e (own (kind_of e) (contents space.new))) engines.new.items ≡ true) }
    ensures posted { (told : List (List Place)) → Each (λ e places. posted e places) engines.old.items told → Each (λ e places. posted e places) engines.new.items told }
    ensures kinds { map (λ e. kind_of e) engines.new.items ≡ map (λ e. kind_of e) engines.old.items }
    ensures kept { map (λ e. kept e) engines.new.items ≡ map (λ e. kept e) engines.old.items }
    ensures beginning { beginning space.new ≡ beginning space.old }
{
    let mut k = engines.len();
    while k > 0 {
        k -= 1;
        hear(&mut engines[k], alloc, space, told)?;
    }
    Ok(())
}

// What acted.
fn acted(alloc: Global, told: Vec<Told>) -> Result<Vec<Acted>, AllocError>
    ensures { IfOk result (λ acted. acted.items ≡ acted_in told.items) }
{
    let mut acted = Vec::with_capacity(alloc, told.len())?;
    for t in told {
        let Told { place, item, reply } = t;
        let Some((session, rank)) = session_word(&item) else {
            continue;
        };
        acted.push(Acted {
            place,
            session,
            rank,
            reply,
        })?;
    }
    Ok(acted)
}
