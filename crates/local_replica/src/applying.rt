//! How an entry is applied and kept, and a store opened again.
ghost use Rattle.std.specs.Prelude.{◌≡◌, ℕ, List, ◌+◌, ◌<◌, ◌^◌, true, false, [], ◌∷◌, length, IfOk, OnOk};
ghost use Rattle.delos_types.specs.Spaces.{SpaceMap};
ghost use Rattle.delos_types.specs.declared.place.Place.{Place};
ghost use Rattle.delos_types.specs.declared.entry.Entry.{Entry};
ghost use Rattle.delos_types.specs.declared.item.Item.{Item};
ghost use Rattle.disk_model.specs.Crash.{AnyCrash};
ghost use Rattle.log_laws.specs.Appearing.{IsNotAfter};
ghost use Rattle.log_laws.specs.Order.{EachPair};
ghost use Rattle.log_laws.specs.State.{IsStateOf, Grows};
ghost use Rattle.local_store.specs.View as view;
ghost use Rattle.local_store.specs.View.{contents_of};
ghost use Rattle.store_records.specs.Changing.{applied};
ghost use Rattle.replica_api.specs.Replica.{SpellsOne, Survives, Advances, Takes, MayFind, MayFindDuring, Reopens, armed_by};
ghost use Rattle.local_replica.specs.Posted.{Posts, is_done, told_of};
ghost use Rattle.local_replica.specs.Shown.{shown, Spells, is_up, lacks_memory};

use crate::layers::Layers;
use delos_types::entry::Entry;
use delos_types::numbers::NodeId;
use disk_model::Disk;
use journal_core::Fault;
use local_store::{CommitFault, Store, Txn};
use log_laws::rising::Acted;
use replica_api::replica::{Applied, Reopened};
use std::alloc::{AllocError, Global};

/// The entry at the cursor comes up in a transaction, which is kept with the next cursor. Engines that aren't loaded load
/// what the store shows before. They are told of what acted where it is kept; where it isn't, they are loaded no more, since
/// what they know is the space of the transaction that was let go.
pub(crate) fn apply<E: Layers, D: Disk>(
    alloc: Global,
    origin: NodeId,
    engines: &mut E,
    loaded: &mut bool,
    store: &mut Store<D>,
    entry: &Entry,
) -> Applied
    requires kinds { E.kinds engines.old ≡ 1 ∷ 2 ∷ 3 ∷ 4 ∷ 5 ∷ [] }
    requires cursor { store.old.cursor + 1 < 2 ^ 64 }
    requires known { loaded.old ≡ true → E.knows engines.old store.old.contents ≡ true }
    ensures takes { (stops reopenings : ℕ) → Takes IsStateOf (shown store.old origin (E.waiting engines.old) stops reopenings) entry.now result (shown store.new origin (E.waiting engines.new) stops reopenings) }
    ensures survives { (stops reopenings : ℕ) → Survives Spells (shown store.new origin (E.waiting engines.new) stops reopenings) }
    ensures any_crash { (stops reopenings : ℕ) → AnyCrash store.old.disk.timeline store.new.disk.timeline (SpellsOne Spells (MayFindDuring IsStateOf (shown store.old origin (E.waiting engines.old) stops reopenings) entry.now)) }
    ensures known { loaded.new ≡ true → E.knows engines.new store.new.contents ≡ true }
    ensures posted { (told : List (List Place)) → E.posted engines.old told → Posts (E.posted engines.new) told store.old.contents store.old.cursor entry.now result store.new.contents }
    ensures kinds { E.kinds engines.new ≡ E.kinds engines.old }
{
    let are_loaded = *loaded;
    *loaded = false;
    if is_down(store) {
        return Applied::Down;
    }
    let Ok(prepared) = prepare(alloc, origin, engines, are_loaded, store, entry) else {
        return Applied::Memory;
    };
    let (txn, acted) = prepared;
    let kept = keep(store, txn);
    *loaded = done(&kept);
    tell(alloc, origin, engines, &kept, acted);
    kept
}

fn is_down<D: Disk>(store: &Store<D>) -> bool
    ensures down { result ≡ store.now.down }
    ensures survives { view.Survives store.now }
{
    store.is_down()
}

/// The entry at the cursor comes up in a transaction.
fn prepare<E: Layers, D: Disk>(
    alloc: Global,
    origin: NodeId,
    engines: &mut E,
    loaded: bool,
    store: &Store<D>,
    entry: &Entry,
) -> Result<(Txn, Vec<Acted>), AllocError>
    requires kinds { E.kinds engines.old ≡ 1 ∷ 2 ∷ 3 ∷ 4 ∷ 5 ∷ [] }
    requires known { loaded ≡ true → E.knows engines.old store.now.contents ≡ true }
    ensures advances { IfOk result (λ made. Advances IsStateOf store.now.contents store.now.cursor entry.now (applied store.now.contents made.0.changes)) }
    ensures grows { IfOk result (λ made. (log : List Entry) → length log ≡ store.now.cursor → IsStateOf log store.now.contents → Grows log entry.now made.1.items (applied store.now.contents made.0.changes)) }
    ensures in_order { IfOk result (λ made. EachPair (λ a b. IsNotAfter a.place b.place) made.1.items) }
    ensures known { IfOk result (λ made. E.knows engines.new (applied store.now.contents made.0.changes) ≡ true) }
    ensures posted { (told : List (List Place)) → E.posted engines.old told → E.posted engines.new told }
    ensures kinds { E.kinds engines.new ≡ E.kinds engines.old }
    ensures waiting { E.waiting engines.new ≡ E.waiting engines.old }
{
    let txn = begin(alloc, origin, engines, loaded, store)?;
    let made = come_up(alloc, origin, engines, store, txn, entry)?;
    Ok(made)
}

/// The entry comes up at the store's cursor, to engines that know the transaction's space.
fn come_up<E: Layers, D: Disk>(
    alloc: Global,
    origin: NodeId,
    engines: &mut E,
    store: &Store<D>,
    txn: Txn,
    entry: &Entry,
) -> Result<(Txn, Vec<Acted>), AllocError>
    requires kinds { E.kinds engines.old ≡ 1 ∷ 2 ∷ 3 ∷ 4 ∷ 5 ∷ [] }
    requires known { E.knows engines.old (contents_of txn) ≡ true }
    ensures grows { IfOk result (λ made. (log : List Entry) → length log ≡ store.now.cursor → IsStateOf log (contents_of txn) → Grows log entry.now made.1.items (contents_of made.0)) }
    ensures in_order { IfOk result (λ made. EachPair (λ a b. IsNotAfter a.place b.place) made.1.items) }
    ensures base { IfOk result (λ made. made.0.base ≡ txn.base) }
    ensures known { IfOk result (λ made. E.knows engines.new (contents_of made.0) ≡ true) }
    ensures posted { (told : List (List Place)) → E.posted engines.old told → E.posted engines.new told }
    ensures kinds { E.kinds engines.new ≡ E.kinds engines.old }
    ensures waiting { E.waiting engines.new ≡ E.waiting engines.old }
{
    let mut txn = txn;
    let acted = engines.apply(alloc, origin, &mut txn, store.cursor(), entry)?;
    Ok((txn, acted))
}

/// A transaction, from which the engines go on.
fn begin<E: Layers, D: Disk>(
    alloc: Global,
    origin: NodeId,
    engines: &mut E,
    loaded: bool,
    store: &Store<D>,
) -> Result<Txn, AllocError>
    requires kinds { E.kinds engines.old ≡ 1 ∷ 2 ∷ 3 ∷ 4 ∷ 5 ∷ [] }
    requires known { loaded ≡ true → E.knows engines.old store.now.contents ≡ true }
    ensures begun { IfOk result (λ txn. txn ≡ record { base = store.now.contents; changes = [] }) }
    ensures known { IfOk result (λ txn. E.knows engines.new (contents_of txn) ≡ true) }
    ensures posted { (told : List (List Place)) → E.posted engines.old told → E.posted engines.new told }
    ensures kinds { E.kinds engines.new ≡ E.kinds engines.old }
    ensures waiting { E.waiting engines.new ≡ E.waiting engines.old }
{
    let txn = store.begin()?;
    load(alloc, origin, engines, loaded, &txn)?;
    Ok(txn)
}

/// The engines load a transaction's space, unless they know it.
fn load<E: Layers>(
    alloc: Global,
    origin: NodeId,
    engines: &mut E,
    loaded: bool,
    txn: &Txn,
) -> Result<(), AllocError>
    requires kinds { E.kinds engines.old ≡ 1 ∷ 2 ∷ 3 ∷ 4 ∷ 5 ∷ [] }
    requires known { loaded ≡ true → E.knows engines.old (contents_of txn.now) ≡ true }
    ensures known { OnOk result (E.knows engines.new (contents_of txn.now) ≡ true) }
    ensures posted { (told : List (List Place)) → E.posted engines.old told → E.posted engines.new told }
    ensures kinds { E.kinds engines.new ≡ E.kinds engines.old }
    ensures waiting { E.waiting engines.new ≡ E.waiting engines.old }
{
    if loaded {
        return Ok(());
    }
    engines.load(alloc, origin, txn)
}

/// The transaction is kept with the next cursor.
fn keep<D: Disk>(store: &mut Store<D>, txn: Txn) -> Applied
    requires { store.old.cursor + 1 < 2 ^ 64 }
    ensures takes { (origin : ℕ) (waiting : List Item) (stops reopenings : ℕ) (e : Entry) → store.old.down ≡ false → Advances IsStateOf store.old.contents store.old.cursor e (applied store.old.contents txn.changes) → Takes IsStateOf (shown store.old origin waiting stops reopenings) e result (shown store.new origin waiting stops reopenings) }
    ensures contents { is_done result ≡ true → store.new.contents ≡ applied store.old.contents txn.changes }
    ensures no_fault { lacks_memory result ≡ true → store.new.disk.faults ≡ store.old.disk.faults }
    ensures survives { (origin : ℕ) (waiting : List Item) (stops reopenings : ℕ) → Survives Spells (shown store.new origin waiting stops reopenings) }
    ensures any_crash { (origin : ℕ) (waiting : List Item) (stops reopenings : ℕ) (e : Entry) → Advances IsStateOf store.old.contents store.old.cursor e (applied store.old.contents txn.changes) → AnyCrash store.old.disk.timeline store.new.disk.timeline (SpellsOne Spells (MayFindDuring IsStateOf (shown store.old origin waiting stops reopenings) e)) }
{
    let next = store.cursor() + 1;
    match store.commit(txn, next) {
        Ok(()) => Applied::Done,
        Err(CommitFault::Disk) => Applied::DiskFault,
        Err(CommitFault::Down) => Applied::Down,
        Err(CommitFault::Memory) => Applied::Memory,
    }
}

fn done(kept: &Applied) -> bool
    ensures { result ≡ is_done kept.now }
{
    match kept {
        Applied::Done => true,
        Applied::DiskFault => false,
        Applied::Down => false,
        Applied::Memory => false,
    }
}

/// The engines are told of what acted, where it is kept.
fn tell<E: Layers>(
    alloc: Global,
    origin: NodeId,
    engines: &mut E,
    kept: &Applied,
    acted: Vec<Acted>,
)
    requires { E.kinds engines.old ≡ 1 ∷ 2 ∷ 3 ∷ 4 ∷ 5 ∷ [] }
    ensures known { (space : SpaceMap) → E.knows engines.old space ≡ true → E.knows engines.new space ≡ true }
    ensures posted { (told : List (List Place)) → E.posted engines.old told → E.posted engines.new (told_of kept.now acted.items told) }
    ensures kinds { E.kinds engines.new ≡ E.kinds engines.old }
    ensures waiting { E.waiting engines.new ≡ E.waiting engines.old }
{
    match kept {
        Applied::Done => engines.post(alloc, origin, acted.as_slice()),
        Applied::DiskFault => {}
        Applied::Down => {}
        Applied::Memory => {}
    }
}

/// Opens the store again, where it is down. It is counted, unless there was no memory.
pub(crate) fn reopen<D: Disk>(store: &mut Store<D>, reopenings: &mut u64, word: u64) -> Reopened
    ensures reopens { (origin : ℕ) (waiting : List Item) (stops : ℕ) → Reopens (shown store.old origin waiting stops reopenings.old) word result (shown store.new origin waiting stops reopenings.new) }
    ensures up { is_up result ≡ true → store.new.down ≡ false }
    ensures word { is_up result ≡ true → store.old.down ≡ true → store.new.disk.word ≡ word }
    ensures survives { (origin : ℕ) (waiting : List Item) (stops : ℕ) → Survives Spells (shown store.new origin waiting stops reopenings.new) }
    ensures any_crash { (origin : ℕ) (waiting : List Item) (stops : ℕ) → AnyCrash store.old.disk.timeline store.new.disk.timeline (SpellsOne Spells (MayFind (shown store.old origin waiting stops reopenings.old))) }
{
    if !is_down(store) {
        *reopenings = reopenings.saturating_add(1);
        return Reopened::Done;
    }
    match store.reopen(word) {
        Ok(()) => {
            *reopenings = reopenings.saturating_add(1);
            Reopened::Done
        }
        Err(Fault::Disk) => {
            *reopenings = reopenings.saturating_add(1);
            Reopened::DiskFault
        }
        Err(Fault::Memory) => Reopened::Memory,
    }
}

/// Arms the disk, where the store is up. It is counted in any case.
pub(crate) fn stop<D: Disk>(store: &mut Store<D>, stops: &mut u64, after: u64)
    ensures shows { (origin : ℕ) (waiting : List Item) (reopenings : ℕ) → shown store.new origin waiting stops.new reopenings ≡ armed_by (shown store.old origin waiting stops.old reopenings) after }
    ensures contents { store.new.contents ≡ store.old.contents }
    ensures arms { store.old.down ≡ false → store.new.disk ≡ record store.old.disk { armed = after } }
{
    store.stop(after);
    *stops = stops.saturating_add(1);
}
