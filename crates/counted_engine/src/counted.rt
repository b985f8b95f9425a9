//! An engine that counts the items that go down through it.
ghost use Rattle.std.specs.Prelude.{◌≡◌, ◌+◌, ◌-◌, ◌^◌, true, List, IfOk, OnErr, OnOk, min};
ghost use Rattle.delos_types.specs.Spaces.{SpaceMap};
ghost use Rattle.delos_types.specs.declared.place.Place.{Place};
ghost use Rattle.engine_api.specs.Packing.{IsProposable};
ghost use Rattle.engine_steps.specs.Steps.{DownStep};

use delos_types::entry::Entry;
use delos_types::item::{Item, ItemList};
use delos_types::numbers::NodeId;
use delos_types::place::Place;
use delos_types::space::Space;
use engine_steps::engine::{Down, Engine, Up};
use std::alloc::{AllocError, Global};

/// An engine, and how many items went down through it.
#[derive(Drop)]
pub struct Counted<E: Engine> {
    pub inner: E,
    /// How many items went down, those left out for which memory ran out. It stands still at 2^64 - 1.
    pub items: u64,
}

impl<E: Engine> Counted<E> {
    /// Counts from here on what goes down through an engine.
    pub fn new(inner: E) -> Counted<E>
        ensures { result ≡ record { inner = inner; items = 0 } }
    {
        Counted { inner, items: 0 }
    }
}

/// It is of the kind of the engine within, and keeps and knows what that does, so each of its calls is the same step.
impl<E: Engine> Engine for Counted<E> {
    ghost kind_of = { λ c. E.kind_of c.inner };

    ghost kept = { λ c. E.kept c.inner };

    ghost knows = { λ c. E.knows c.inner };

    ghost posted = { λ c. E.posted c.inner };

    fn kind(&self) -> u8 {
        self.inner.kind()
    }

    fn load(&mut self, space: &dyn Space) -> Result<(), AllocError> {
        self.inner.load(space)
    }

    /// Counts an item that goes down.
    fn down(&mut self, alloc: Global, origin: NodeId, item: Item) -> Result<Down, AllocError>
        requires { IsProposable item }
        ensures step { IfOk result (λ down. DownStep (E.kind_of self.old.inner) origin (E.kept self.old.inner) item down (E.kept self.new.inner)) }
        ensures err { OnErr result (E.kept self.new.inner ≡ E.kept self.old.inner) }
        ensures known { (space : SpaceMap) → E.knows self.old.inner space ≡ true → E.knows self.new.inner space ≡ true }
        ensures posted { (places : List Place) → E.posted self.old.inner places → E.posted self.new.inner places }
        ensures kind { E.kind_of self.new.inner ≡ E.kind_of self.old.inner }
        ensures counted { OnOk result (self.new.items ≡ min (self.old.items + 1) (2 ^ 64 - 1)) }
        ensures refused { OnErr result (self.new.items ≡ self.old.items) }
    {
        let down = self.inner.down(alloc, origin, item)?;
        self.items = self.items.saturating_add(1);
        Ok(down)
    }

    fn flush(&mut self, alloc: Global, origin: NodeId) -> Result<Option<Entry>, AllocError> {
        self.inner.flush(alloc, origin)
    }

    fn open(&mut self, alloc: Global, entry: &Entry) -> Result<ItemList, AllocError> {
        self.inner.open(alloc, entry)
    }

    fn up(
        &mut self,
        alloc: Global,
        space: &mut dyn Space,
        place: Place,
        item: &Item,
    ) -> Result<Up, AllocError> {
        self.inner.up(alloc, space, place, item)
    }

    fn back(
        &mut self,
        alloc: Global,
        space: &mut dyn Space,
        place: Place,
        item: &Item,
        reply: &[u8],
    ) -> Result<(), AllocError> {
        self.inner.back(alloc, space, place, item, reply)
    }

    fn post(&mut self, place: Place) {
        self.inner.post(place);
    }
}
