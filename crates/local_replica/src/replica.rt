//! A store and the engines over it, as one replica.
ghost use Rattle.std.specs.Prelude.{◌≡◌, ◌+◌, ◌<◌, ◌^◌, true, List, [], ◌∷◌};
ghost use Rattle.delos_types.specs.declared.place.Place.{Place};
ghost use Rattle.disk_model.specs.Crash.{AnyCrash};
ghost use Rattle.log_laws.specs.State.{IsStateOf};
ghost use Rattle.replica_api.specs.Replica.{MayFindDuring, SpellsOne, Survives, Takes};
ghost use Rattle.local_replica.specs.Posted.{Posts};
ghost use Rattle.local_replica.specs.Shown.{Spells, local_meaning, shown};

use crate::applying::{apply, reopen, stop};
use crate::layers::Layers;
use crate::reading;
use delos_types::bytes::Bytes;
use delos_types::entry::Entry;
use delos_types::item::Item;
use delos_types::numbers::{NodeId, Rank, SessionId};
use disk_model::Disk;
use engine_steps::layout::Kept;
use local_store::Store;
use replica_api::replica::{Applied, Reopened, Replica};
use std::alloc::{AllocError, Global};

/// The state machine of a node: its engines, and the store in which they keep their state beside the cursor.
#[derive(Drop)]
pub struct LocalReplica<E: Layers, D: Disk> {
    alloc: Global,
    // The node, of which the entries are that go down.
    origin: NodeId,
    engines: E,
    // Whether the engines know what the store shows: they loaded it, and each transaction since then is kept.
    loaded: bool,
    store: Store<D>,
    // How many stops it was told, and how many reopenings that had memory.
    stops: u64,
    reopenings: u64,
    ghost kinds: { E.kinds engines ≡ 1 ∷ 2 ∷ 3 ∷ 4 ∷ 5 ∷ [] },
    ghost known: { loaded ≡ true → E.knows engines store.contents ≡ true },
}

impl<E: Layers, D: Disk> LocalReplica<E, D> {
    /// The engines of node `origin`, over a store. It takes no memory.
    pub fn new(alloc: Global, origin: NodeId, engines: E, store: Store<D>) -> Self
        requires kinds { E.kinds engines ≡ 1 ∷ 2 ∷ 3 ∷ 4 ∷ 5 ∷ [] }
        ensures store { result.store ≡ store }
        ensures engines { result.engines ≡ engines }
        ensures origin { result.origin ≡ origin }
        ensures none_told { (result.stops ≡ 0) × (result.reopenings ≡ 0) }
    {
        LocalReplica {
            alloc,
            origin,
            engines,
            loaded: false,
            store,
            stops: 0,
            reopenings: 0,
        }
    }

    /// The engines and the store again. It takes no memory.
    pub fn into_parts(self) -> (E, Store<D>)
        ensures store { result.1 ≡ self.store }
        ensures engines { result.0 ≡ self.engines }
        ensures kinds { E.kinds result.0 ≡ 1 ∷ 2 ∷ 3 ∷ 4 ∷ 5 ∷ [] }
    {
        let LocalReplica {
            alloc: _,
            origin: _,
            engines,
            loaded: _,
            store,
            stops: _,
            reopenings: _,
        } = self;
        (engines, store)
    }
}

impl<E: Layers, D: Disk> Replica for LocalReplica<E, D> {
    ghost shows = { λ r. shown r.store r.origin (E.waiting r.engines) r.stops r.reopenings };

    ghost meaning = { local_meaning };

    ghost state_is = { λ log m h. h };

    fn cursor(&self) -> u64 {
        self.store.cursor()
    }

    fn is_down(&self) -> bool {
        self.store.is_down()
    }

    /// The engines are told of each place at which something acts in the entry, where it is kept.
    fn apply(&mut self, entry: &Entry) -> Applied
        requires { self.old.store.cursor + 1 < 2 ^ 64 }
        ensures takes { Takes IsStateOf (shown self.old.store self.old.origin (E.waiting self.old.engines) self.old.stops self.old.reopenings) entry.now result (shown self.new.store self.new.origin (E.waiting self.new.engines) self.new.stops self.new.reopenings) }
        ensures survives { Survives Spells (shown self.new.store self.new.origin (E.waiting self.new.engines) self.new.stops self.new.reopenings) }
        ensures any_crash { AnyCrash self.old.store.disk.timeline self.new.store.disk.timeline (SpellsOne Spells (MayFindDuring IsStateOf (shown self.old.store self.old.origin (E.waiting self.old.engines) self.old.stops self.old.reopenings) entry.now)) }
        ensures posted { (told : List (List Place)) → E.posted self.old.engines told → Posts (E.posted self.new.engines) told self.old.store.contents self.old.store.cursor entry.now result self.new.store.contents }
    {
        apply(
            self.alloc,
            self.origin,
            &mut self.engines,
            &mut self.loaded,
            &mut self.store,
            entry,
        )
    }

    fn reopen(&mut self, word: u64) -> Reopened {
        self.loaded = false;
        reopen(&mut self.store, &mut self.reopenings, word)
    }

    fn send(&mut self, item: Item) -> Result<Option<Entry>, AllocError> {
        self.engines.propose(self.alloc, self.origin, item)
    }

    fn flush(&mut self) -> Result<Option<Entry>, AllocError> {
        self.engines.flush(self.alloc, self.origin)
    }

    fn stop(&mut self, after: u64) {
        stop(&mut self.store, &mut self.stops, after);
    }

    fn last_rank(&self, session: SessionId) -> Result<u64, AllocError> {
        reading::last_rank(&self.store, session)
    }

    fn reply_of(&self, session: SessionId, rank: Rank) -> Result<Option<Kept>, AllocError> {
        reading::reply_of(self.alloc, &self.store, session, rank)
    }

    fn clean(&self) -> Result<u64, AllocError> {
        reading::clean(&self.store)
    }

    fn value(&self, key: &[u8]) -> Result<Option<Bytes>, AllocError> {
        reading::value(&self.store, key)
    }

    fn key_from(&self, key: &[u8]) -> Result<Option<Bytes>, AllocError> {
        reading::key_from(&self.store, key)
    }

    fn has_left(&self, node: NodeId) -> Result<bool, AllocError> {
        reading::has_left(&self.store, node)
    }

    fn reported(&self, node: NodeId) -> Result<u64, AllocError> {
        reading::reported(&self.store, node)
    }

    fn trim_point(&self) -> Result<u64, AllocError> {
        reading::trim_point(&self.store)
    }
}
