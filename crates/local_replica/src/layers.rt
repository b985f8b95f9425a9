//! The engines of a node, over the transactions of its store.
ghost use Rattle.std.specs.Prelude.{◌≡◌, ℕ, Bool, true, List, [], ◌∷◌, ◌++◌, length, map, IfOk, OnOk, OnErr};
ghost use Rattle.std.specs.List.{list_all};
ghost use Rattle.delos_types.specs.Spaces.{SpaceMap};
ghost use Rattle.delos_types.specs.declared.place.Place.{Place};
ghost use Rattle.delos_types.specs.declared.entry.Entry.{Entry};
ghost use Rattle.delos_types.specs.declared.item.Item.{Item};
ghost use Rattle.engine_api.specs.Packing.{IsProposable};
ghost use Rattle.log_laws.specs.Rises.{Proposes, lowest};
ghost use Rattle.engine_steps.specs.Hearing.{own, Each};
ghost use Rattle.engine_steps.specs.Steps.{BatchFlush};
ghost use Rattle.log_laws.specs.Appearing.{IsNotAfter};
ghost use Rattle.log_laws.specs.Order.{EachPair};
ghost use Rattle.log_laws.specs.State.{IsStateOf, Grows};
ghost use Rattle.local_store.specs.View.{contents_of};
ghost use Rattle.local_replica.specs.Posted.{places_of, new_place, is_last_place};
ghost use Rattle.replica_api.specs.Replica.{Queues, Flushes};

use delos_types::entry::Entry;
use delos_types::item::Item;
use delos_types::numbers::NodeId;
use delos_types::place::Place;
use delos_types::space::Space;
use engine_stack::stack::Stack;
use engine_steps::engine::Engine;
use local_store::Txn;
use log_laws::rising::Acted;
use std::alloc::{AllocError, Global};
use std::mem;

/// The engines of a node, from the lowest to the highest. Whoever is generic over them can keep what it knows of them,
/// which nobody can who holds boxes.
pub trait Layers: Drop {
    /// 1 batch, 2 session, 3 view, 4 trim, 5 table.
    ghost kinds: { Self → List ℕ };

    /// The items that wait in the lowest engine to be packed.
    ghost waiting: { Self → List Item };

    /// Whether each engine knows what a space has of its kind.
    ghost knows: { Self → SpaceMap → Bool };

    /// What the engines keep in memory where these places were posted to them, to each those of its list.
    ghost posted: { Self → List (List Place) → Type 0 };

    /// The engines go on from the states in a space, the lowest first: each knows what it has of its kind.
    fn load(&mut self, alloc: Global, origin: NodeId, space: &Txn) -> Result<(), AllocError>
        requires { kinds self.old ≡ 1 ∷ 2 ∷ 3 ∷ 4 ∷ 5 ∷ [] }
        ensures known { OnOk result (knows self.new (contents_of space.now) ≡ true) }
        ensures posted { (told : List (List Place)) → posted self.old told → posted self.new told }
        ensures kinds { kinds self.new ≡ kinds self.old }
        ensures waiting { waiting self.new ≡ waiting self.old };

    /// The entry at a position comes up: what acts there, in order. The engines know the transaction's space, and go on
    /// knowing it; where memory runs out they may not, and the transaction may have some of the changes.
    fn apply(
        &mut self,
        alloc: Global,
        origin: NodeId,
        txn: &mut Txn,
        pos: u64,
        entry: &Entry,
    ) -> Result<Vec<Acted>, AllocError>
        requires kinds { kinds self.old ≡ 1 ∷ 2 ∷ 3 ∷ 4 ∷ 5 ∷ [] }
        requires known { knows self.old (contents_of txn.old) ≡ true }
        ensures grows { IfOk result (λ acted. (log : List Entry) → length log ≡ pos → IsStateOf log (contents_of txn.old) → Grows log entry.now acted.items (contents_of txn.new)) }
        ensures in_order { IfOk result (λ acted. EachPair (λ a b. IsNotAfter a.place b.place) acted.items) }
        ensures base { txn.new.base ≡ txn.old.base }
        ensures known { OnOk result (knows self.new (contents_of txn.new) ≡ true) }
        ensures posted { (told : List (List Place)) → posted self.old told → posted self.new told }
        ensures kinds { kinds self.new ≡ kinds self.old }
        ensures waiting { waiting self.new ≡ waiting self.old };

    /// All that acted is stored: each engine is told of each place, in order, and once where several ranks acted at it.
    fn post(&mut self, alloc: Global, origin: NodeId, acted: &[Acted])
        requires { kinds self.old ≡ 1 ∷ 2 ∷ 3 ∷ 4 ∷ 5 ∷ [] }
        ensures known { (space : SpaceMap) → knows self.old space ≡ true → knows self.new space ≡ true }
        ensures posted { (told : List (List Place)) → posted self.old told → posted self.new (map (λ places. places ++ places_of acted.now) told) }
        ensures kinds { kinds self.new ≡ kinds self.old }
        ensures waiting { waiting self.new ≡ waiting self.old };

    /// An item goes down. It waits in the lowest engine, or is packed with the 15 that wait there.
    fn propose(
        &mut self,
        alloc: Global,
        origin: NodeId,
        item: Item,
    ) -> Result<Option<Entry>, AllocError>
        requires kinds { kinds self.old ≡ 1 ∷ 2 ∷ 3 ∷ 4 ∷ 5 ∷ [] }
        requires item { IsProposable item }
        ensures queued { IfOk result (λ packed. Queues origin (waiting self.old) item packed (waiting self.new)) }
        ensures err { OnErr result (waiting self.new ≡ waiting self.old) }
        ensures known { (space : SpaceMap) → knows self.old space ≡ true → knows self.new space ≡ true }
        ensures posted { (told : List (List Place)) → posted self.old told → posted self.new told }
        ensures kinds { kinds self.new ≡ kinds self.old };

    /// What waits is packed; none where nothing waits.
    fn flush(&mut self, alloc: Global, origin: NodeId) -> Result<Option<Entry>, AllocError>
        requires kinds { kinds self.old ≡ 1 ∷ 2 ∷ 3 ∷ 4 ∷ 5 ∷ [] }
        ensures flushed { IfOk result (λ packed. Flushes origin (waiting self.old) packed (waiting self.new)) }
        ensures err { OnErr result (waiting self.new ≡ waiting self.old) }
        ensures known { (space : SpaceMap) → knows self.old space ≡ true → knows self.new space ≡ true }
        ensures posted { (told : List (List Place)) → posted self.old told → posted self.new told }
        ensures kinds { kinds self.new ≡ kinds self.old };
}

/// The boxes that a program hands in.
impl Layers for Vec<Box<dyn Engine + Send>> {
    ghost kinds = { λ v. map (λ e. (Engine-box e).kind_of e.value) v.items };

    ghost waiting = { λ v. lowest (map (λ e. (Engine-box e).kept e.value) v.items) };

    ghost knows = { λ v m. list_all (λ e. (Engine-box e).knows e.value (own ((Engine-box e).kind_of e.value) m)) v.items };

    ghost posted = { λ v told. Each (λ e places. (Engine-box e).posted e.value places) v.items told };

    fn load(&mut self, alloc: Global, origin: NodeId, space: &Txn) -> Result<(), AllocError> {
        load_over(self, alloc, origin, space)
    }

    fn apply(
        &mut self,
        alloc: Global,
        origin: NodeId,
        txn: &mut Txn,
        pos: u64,
        entry: &Entry,
    ) -> Result<Vec<Acted>, AllocError> {
        apply_over(self, alloc, origin, txn, pos, entry)
    }

    fn post(&mut self, alloc: Global, origin: NodeId, acted: &[Acted]) {
        post_places(self, alloc, origin, acted);
    }

    fn propose(
        &mut self,
        alloc: Global,
        origin: NodeId,
        item: Item,
    ) -> Result<Option<Entry>, AllocError> {
        propose_item(self, alloc, origin, item)
    }

    fn flush(&mut self, alloc: Global, origin: NodeId) -> Result<Option<Entry>, AllocError> {
        flush_items(self, alloc, origin)
    }
}

// The transaction is lent as a space.
fn load_over(
    engines: &mut Vec<Box<dyn Engine + Send>>,
    alloc: Global,
    origin: NodeId,
    space: &Txn,
) -> Result<(), AllocError>
    requires { map (λ e. kind_of e) engines.old.items ≡ 1 ∷ 2 ∷ 3 ∷ 4 ∷ 5 ∷ [] }
    ensures known { OnOk result (list_all (λ e. knows e (own (kind_of e) (contents_of space.now))) engines.new.items ≡ true) }
    ensures posted { (told : List (List Place)) → Each (λ e places. posted e places) engines.old.items told → Each (λ e places. posted e places) engines.new.items told }
    ensures kinds { map (λ e. kind_of e) engines.new.items ≡ map (λ e. kind_of e) engines.old.items }
    ensures kept { map (λ e. kept e) engines.new.items ≡ map (λ e. kept e) engines.old.items }
{
    load_from(engines, alloc, origin, space)
}

fn load_from(
    engines: &mut Vec<Box<dyn Engine + Send>>,
    alloc: Global,
    origin: NodeId,
    space: &dyn Space,
) -> Result<(), AllocError>
    requires { map (λ e. kind_of e) engines.old.items ≡ 1 ∷ 2 ∷ 3 ∷ 4 ∷ 5 ∷ [] }
    ensures known { OnOk result (list_all (λ e. knows e (own (kind_of e) (contents space.now))) engines.new.items ≡ true) }
    ensures posted { (told : List (List Place)) → Each (λ e places. posted e places) engines.old.items told → Each (λ e places. posted e places) engines.new.items told }
    ensures kinds { map (λ e. kind_of e) engines.new.items ≡ map (λ e. kind_of e) engines.old.items }
    ensures kept { map (λ e. kept e) engines.new.items ≡ map (λ e. kept e) engines.old.items }
{
    let mut stack = Stack::new(origin, mem::replace(engines, Vec::new(alloc)));
    let loaded = stack.load(space);
    *engines = stack.into_engines();
    loaded
}

// The transaction is lent as a space.
fn apply_over(
    engines: &mut Vec<Box<dyn Engine + Send>>,
    alloc: Global,
    origin: NodeId,
    txn: &mut Txn,
    pos: u64,
    entry: &Entry,
) -> Result<Vec<Acted>, AllocError>
    requires kinds { map (λ e. kind_of e) engines.old.items ≡ 1 ∷ 2 ∷ 3 ∷ 4 ∷ 5 ∷ [] }
    requires known { list_all (λ e. knows e (own (kind_of e) (contents_of txn.old))) engines.old.items ≡ true }
    ensures grows { IfOk result (λ acted. (log : List Entry) → length log ≡ pos → IsStateOf log (contents_of txn.old) → Grows log entry.now acted.items (contents_of txn.new)) }
    ensures base { txn.new.base ≡ txn.old.base }
    ensures in_order { IfOk result (λ acted. EachPair (λ a b. IsNotAfter a.place b.place) acted.items) }
    ensures known { OnOk result (list_all (λ e. knows e (own (kind_of e) (contents_of txn.new))) engines.new.items ≡ true) }
    ensures posted { (told : List (List Place)) → Each (λ e places. posted e places) engines.old.items told → Each (λ e places. posted e places) engines.new.items told }
    ensures kinds { map (λ e. kind_of e) engines.new.items ≡ map (λ e. kind_of e) engines.old.items }
    ensures kept { map (λ e. kept e) engines.new.items ≡ map (λ e. kept e) engines.old.items }
{
    apply_entry(engines, alloc, origin, txn, pos, entry)
}

fn apply_entry(
    engines: &mut Vec<Box<dyn Engine + Send>>,
    alloc: Global,
    origin: NodeId,
    space: &mut dyn Space,
    pos: u64,
    entry: &Entry,
) -> Result<Vec<Acted>, AllocError>
    requires kinds { map (λ e. kind_of e) engines.old.items ≡ 1 ∷ 2 ∷ 3 ∷ 4 ∷ 5 ∷ [] }
    requires known { list_all (λ e. knows e (own (kind_of e) (contents space.old))) engines.old.items ≡ true }
    ensures grows { IfOk result (λ acted. (log : List Entry) → length log ≡ pos → IsStateOf log (contents space.old) → Grows log entry.now acted.items (contents space.new)) }
    ensures beginning { beginning space.new ≡ beginning space.old }
    ensures in_order { IfOk result (λ acted. EachPair (λ a b. IsNotAfter a.place b.place) acted.items) }
    ensures known { OnOk result (list_all (λ e. knows e (own (kind_of e) (contents space.new))) engines.new.items ≡ true) }
    ensures posted { (told : List (List Place)) → Each (λ e places. posted e places) engines.old.items told → Each (λ e places. posted e places) engines.new.items told }
    ensures kinds { map (λ e. kind_of e) engines.new.items ≡ map (λ e. kind_of e) engines.old.items }
    ensures kept { map (λ e. kept e) engines.new.items ≡ map (λ e. kept e) engines.old.items }
{
    let mut stack = Stack::new(origin, mem::replace(engines, Vec::new(alloc)));
    let acted = stack.apply_entry(alloc, space, pos, entry);
    *engines = stack.into_engines();
    acted
}

// Each place at which something acted is posted, once.
fn post_places(
    engines: &mut Vec<Box<dyn Engine + Send>>,
    alloc: Global,
    origin: NodeId,
    acted: &[Acted],
)
    requires { map (λ e. kind_of e) engines.old.items ≡ 1 ∷ 2 ∷ 3 ∷ 4 ∷ 5 ∷ [] }
    ensures known { (space : SpaceMap) → list_all (λ e. knows e (own (kind_of e) space)) engines.old.items ≡ true → list_all (λ e. knows e (own (kind_of e) space)) engines.new.items ≡ true }
    ensures posted { (told : List (List Place)) → Each (λ e places. posted e places) engines.old.items told → Each (λ e places. posted e places) engines.new.items (map (λ places. places ++ places_of acted.now) told) }
    ensures kinds { map (λ e. kind_of e) engines.new.items ≡ map (λ e. kind_of e) engines.old.items }
    ensures kept { map (λ e. kept e) engines.new.items ≡ map (λ e. kept e) engines.old.items }
{
    let mut last: Option<Place> = None;
    for act in acted {
        let place = act.place;
        post_new(engines, alloc, origin, last, place);
        last = Some(place);
    }
}

// The place is posted, where it isn't the last one.
fn post_new(
    engines: &mut Vec<Box<dyn Engine + Send>>,
    alloc: Global,
    origin: NodeId,
    last: Option<Place>,
    place: Place,
)
    requires { map (λ e. kind_of e) engines.old.items ≡ 1 ∷ 2 ∷ 3 ∷ 4 ∷ 5 ∷ [] }
    ensures known { (space : SpaceMap) → list_all (λ e. knows e (own (kind_of e) space)) engines.old.items ≡ true → list_all (λ e. knows e (own (kind_of e) space)) engines.new.items ≡ true }
    ensures posted { (told : List (List Place)) → Each (λ e places. posted e places) engines.old.items told → Each (λ e places. posted e places) engines.new.items (map (λ places. places ++ new_place last place) told) }
    ensures kinds { map (λ e. kind_of e) engines.new.items ≡ map (λ e. kind_of e) engines.old.items }
    ensures kept { map (λ e. kept e) engines.new.items ≡ map (λ e. kept e) engines.old.items }
{
    if is_last(last, place) {
        return;
    }
    post_place(engines, alloc, origin, place);
}

fn is_last(last: Option<Place>, place: Place) -> bool
    ensures { result ≡ is_last_place last place }
{
    match last {
        None => false,
        Some(last) => place.pos == last.pos && place.sub == last.sub,
    }
}

// All that stands at a place is stored.
fn post_place(
    engines: &mut Vec<Box<dyn Engine + Send>>,
    alloc: Global,
    origin: NodeId,
    place: Place,
)
    requires { map (λ e. kind_of e) engines.old.items ≡ 1 ∷ 2 ∷ 3 ∷ 4 ∷ 5 ∷ [] }
    ensures known { (space : SpaceMap) → list_all (λ e. knows e (own (kind_of e) space)) engines.old.items ≡ true → list_all (λ e. knows e (own (kind_of e) space)) engines.new.items ≡ true }
    ensures posted { (told : List (List Place)) → Each (λ e places. posted e places) engines.old.items told → Each (λ e places. posted e places) engines.new.items (map (λ places. places ++ place ∷ []) told) }
    ensures kinds { map (λ e. kind_of e) engines.new.items ≡ map (λ e. kind_of e) engines.old.items }
    ensures kept { map (λ e. kept e) engines.new.items ≡ map (λ e. kept e) engines.old.items }
{
    let mut stack = Stack::new(origin, mem::replace(engines, Vec::new(alloc)));
    stack.post_place(place);
    *engines = stack.into_engines();
}

fn propose_item(
    engines: &mut Vec<Box<dyn Engine + Send>>,
    alloc: Global,
    origin: NodeId,
    item: Item,
) -> Result<Option<Entry>, AllocError>
    requires kinds { map (λ e. kind_of e) engines.old.items ≡ 1 ∷ 2 ∷ 3 ∷ 4 ∷ 5 ∷ [] }
    requires item { IsProposable item }
    ensures step { IfOk result (λ packed. Proposes origin (lowest (map (λ e. kept e) engines.old.items)) item packed (lowest (map (λ e. kept e) engines.new.items))) }
    ensures err { OnErr result (lowest (map (λ e. kept e) engines.new.items) ≡ lowest (map (λ e. kept e) engines.old.items)) }
    ensures known { (space : SpaceMap) → list_all (λ e. knows e (own (kind_of e) space)) engines.old.items ≡ true → list_all (λ e. knows e (own (kind_of e) space)) engines.new.items ≡ true }
    ensures posted { (told : List (List Place)) → Each (λ e places. posted e places) engines.old.items told → Each (λ e places. posted e places) engines.new.items told }
    ensures kinds { map (λ e. kind_of e) engines.new.items ≡ map (λ e. kind_of e) engines.old.items }
{
    let mut stack = Stack::new(origin, mem::replace(engines, Vec::new(alloc)));
    let packed = stack.propose_items(alloc, item);
    *engines = stack.into_engines();
    packed
}

fn flush_items(
    engines: &mut Vec<Box<dyn Engine + Send>>,
    alloc: Global,
    origin: NodeId,
) -> Result<Option<Entry>, AllocError>
    requires { map (λ e. kind_of e) engines.old.items ≡ 1 ∷ 2 ∷ 3 ∷ 4 ∷ 5 ∷ [] }
    ensures step { IfOk result (λ packed. BatchFlush origin (lowest (map (λ e. kept e) engines.old.items)) packed (lowest (map (λ e. kept e) engines.new.items))) }
    ensures err { OnErr result (lowest (map (λ e. kept e) engines.new.items) ≡ lowest (map (λ e. kept e) engines.old.items)) }
    ensures known { (space : SpaceMap) → list_all (λ e. knows e (own (kind_of e) space)) engines.old.items ≡ true → list_all (λ e. knows e (own (kind_of e) space)) engines.new.items ≡ true }
    ensures posted { (told : List (List Place)) → Each (λ e places. posted e places) engines.old.items told → Each (λ e places. posted e places) engines.new.items told }
    ensures kinds { map (λ e. kind_of e) engines.new.items ≡ map (λ e. kind_of e) engines.old.items }
{
    let mut stack = Stack::new(origin, mem::replace(engines, Vec::new(alloc)));
    let packed = stack.flush_items(alloc);
    *engines = stack.into_engines();
    packed
}
