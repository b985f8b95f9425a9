//! What an engine is.
ghost use Rattle.std.specs.Prelude.{◌≡◌, ℕ, Bool, true, List, [], ◌∷◌, ◌++◌, IfOk, OnOk, OnErr};
ghost use Rattle.delos_types.specs.Spaces.{SpaceMap};
ghost use Rattle.delos_types.specs.declared.item.Item.{Item};
ghost use Rattle.delos_types.specs.declared.place.Place.{Place};
ghost use Rattle.engine_api.specs.Packing.{IsProposable};
ghost use Rattle.engine_steps.specs.Hearing.{own};
ghost use Rattle.engine_steps.specs.Steps.{DownStep, FlushStep, OpenStep, UpStep, BackStep};

use delos_types::bytes::Bytes;
use delos_types::entry::Entry;
use delos_types::item::{Item, ItemList};
use delos_types::numbers::NodeId;
use delos_types::place::Place;
use delos_types::space::Space;
use std::alloc::{AllocError, Global};

/// What becomes of an item on its way down.
#[derive(Drop)]
pub enum Down {
    /// It goes on down.
    Pass(Item),
    /// It is kept, until the engine packs it with others or is flushed.
    Keep,
    /// It is packed, last, with all that were kept.
    Pack(Entry),
}

/// What becomes of an item on its way up.
#[derive(Drop)]
pub enum Up {
    /// It goes on up, and behind it these, at its place.
    Pass(ItemList),
    /// It ends here.
    Stop,
    /// It ends here, with this reply.
    Answer(Bytes),
}

/// One layer of the stack above the log. What a call does is fixed by the engine's kind, and by the
/// space, the place and the item that it is given: an engine keeps nothing but what is in its space,
/// and the batch engine the items that it was given and hasn't packed. Where memory runs out, what
/// is kept stays, and the space may have some of the call's changes.
///
/// An engine may also keep in memory what it read of the space of its kind, and what is stored of it.
/// It says so by `knows` and `posted`, and may rest on what the calls ask for. One that keeps nothing
/// leaves both out.
pub trait Engine: Drop {
    ghost kind_of: { Self → ℕ };

    /// The items that the batch engine keeps; other engines keep none.
    ghost kept: { Self → List Item };

    /// Whether what it keeps in memory of the space of its kind is what stands there.
    ghost knows: { Self → SpaceMap → Bool } = { λ _ _. true };

    /// What it keeps in memory where these places were posted to it, in this order.
    ghost posted: { Self → List Place → Type 0 } = { λ _ _. Unit {0} };

    /// 1 batch, 2 session, 3 view, 4 trim, 5 table.
    fn kind(&self) -> u8
        ensures { result ≡ kind_of self.now };

    /// The engine goes on from the state in its space, whatever it knew before.
    fn load(&mut self, space: &dyn Space) -> Result<(), AllocError>
        ensures known { OnOk result (knows self.new (own (kind_of self.new) (contents space.now)) ≡ true) }
        ensures posted { (places : List Place) → posted self.old places → posted self.new places }
        ensures kind { kind_of self.new ≡ kind_of self.old }
        ensures kept { kept self.new ≡ kept self.old };

    /// An item on its way down, which an entry of node `origin` may hold.
    fn down(&mut self, alloc: Global, origin: NodeId, item: Item) -> Result<Down, AllocError>
        requires { IsProposable item }
        ensures step { IfOk result (λ down. DownStep (kind_of self.old) origin (kept self.old) item down (kept self.new)) }
        ensures err { OnErr result (kept self.new ≡ kept self.old) }
        ensures known { (space : SpaceMap) → knows self.old space ≡ true → knows self.new space ≡ true }
        ensures posted { (places : List Place) → posted self.old places → posted self.new places }
        ensures kind { kind_of self.new ≡ kind_of self.old };

    /// What is kept goes down now, as an entry of node `origin`.
    fn flush(&mut self, alloc: Global, origin: NodeId) -> Result<Option<Entry>, AllocError>
        ensures step { IfOk result (λ packed. FlushStep (kind_of self.old) origin (kept self.old) packed (kept self.new)) }
        ensures err { OnErr result (kept self.new ≡ kept self.old) }
        ensures known { (space : SpaceMap) → knows self.old space ≡ true → knows self.new space ≡ true }
        ensures posted { (places : List Place) → posted self.old places → posted self.new places }
        ensures kind { kind_of self.new ≡ kind_of self.old };

    /// The items of an entry, which the batch engine opens; others give none.
    fn open(&mut self, alloc: Global, entry: &Entry) -> Result<ItemList, AllocError>
        ensures step { IfOk result (OpenStep (kind_of self.old) entry.now) }
        ensures known { (space : SpaceMap) → knows self.old space ≡ true → knows self.new space ≡ true }
        ensures posted { (places : List Place) → posted self.old places → posted self.new places }
        ensures kept { kept self.new ≡ kept self.old }
        ensures kind { kind_of self.new ≡ kind_of self.old };

    /// An item on its way up, which stands at a place or is freed there. The engine knows the space, and
    /// goes on knowing it.
    fn up(
        &mut self,
        alloc: Global,
        space: &mut dyn Space,
        place: Place,
        item: &Item,
    ) -> Result<Up, AllocError>
        requires known { knows self.old (own (kind_of self.old) (contents space.old)) ≡ true }
        ensures step { IfOk result (λ up. UpStep (kind_of self.old) (contents space.old) place item.now up (contents space.new)) }
        ensures known { OnOk result (knows self.new (own (kind_of self.new) (contents space.new)) ≡ true) }
        ensures posted { (places : List Place) → posted self.old places → posted self.new places }
        ensures beginning { beginning space.new ≡ beginning space.old }
        ensures kept { kept self.new ≡ kept self.old }
        ensures kind { kind_of self.new ≡ kind_of self.old };

    /// The item that this engine passed up was answered above. The engine knows the space, and goes on
    /// knowing it.
    fn back(
        &mut self,
        alloc: Global,
        space: &mut dyn Space,
        place: Place,
        item: &Item,
        reply: &[u8],
    ) -> Result<(), AllocError>
        requires known { knows self.old (own (kind_of self.old) (contents space.old)) ≡ true }
        ensures step { OnOk result (BackStep (kind_of self.old) (contents space.old) place item.now reply.now (contents space.new)) }
        ensures known { OnOk result (knows self.new (own (kind_of self.new) (contents space.new)) ≡ true) }
        ensures posted { (places : List Place) → posted self.old places → posted self.new places }
        ensures beginning { beginning space.new ≡ beginning space.old }
        ensures kept { kept self.new ≡ kept self.old }
        ensures kind { kind_of self.new ≡ kind_of self.old };

    /// All that stands at a place was applied, and is stored: it comes once for each place at which
    /// something acted. It can't fail.
    fn post(&mut self, place: Place)
        ensures known { (space : SpaceMap) → knows self.old space ≡ true → knows self.new space ≡ true }
        ensures posted { (places : List Place) → posted self.old places → posted self.new (places ++ place ∷ []) }
        ensures kept { kept self.new ≡ kept self.old }
        ensures kind { kind_of self.new ≡ kind_of self.old };
}
