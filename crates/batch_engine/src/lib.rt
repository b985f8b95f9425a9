//! The batch engine, the lowest of the stack: it packs up to 16 items into one entry, under a header
//! that tells how many there are and how long each is, and opens entries again.
#![tactic(auto)]

ghost use Rattle.std.specs.Prelude.{◌≡◌, ◌<◌, ◌≤◌, [], All, IfOk, OnErr, length, is_some};
ghost use Rattle.engine_api.specs.Items.{contents_of};
ghost use Rattle.engine_api.specs.Packing.{IsProposable};
ghost use Rattle.engine_steps.specs.Steps.{BatchDown, BatchFlush};
ghost use Rattle.engine_steps.specs.Words.{opened_items, sound_items};
ghost use Rattle.batch_engine.specs.Kept.{proposable-prop};

use delos_types::entry::Entry;
use delos_types::item::{Item, ItemList};
use delos_types::numbers::NodeId;
use delos_types::place::Place;
use delos_types::space::Space;
use engine_api::pack::batch;
use engine_api::read::items_of;
use engine_steps::engine::{Down, Engine, Up};
use engine_steps::words::is_sound;
use std::alloc::{AllocError, Global};

/// How many items are packed together.
const LIMIT: usize = 16;

/// The items that are kept until they are packed, at most 15.
#[derive(Drop)]
pub struct BatchEngine {
    items: Vec<Item>,
    ghost few: { length items.items < 16 },
    ghost proposable: { All IsProposable items.items } by { proposable-prop items.items },
}

impl BatchEngine {
    /// The engine that keeps nothing, which takes no memory.
    pub fn new(alloc: Global) -> BatchEngine
        ensures { ⟦<BatchEngine as Engine>⟧.kept result ≡ [] }
    {
        BatchEngine {
            items: Vec::new(alloc),
        }
    }
}

impl Engine for BatchEngine {
    ghost kind_of = { λ _. 1 };

    ghost kept = { λ e. e.items.items };

    fn kind(&self) -> u8 {
        1
    }

    fn load(&mut self, _space: &dyn Space) -> Result<(), AllocError> {
        Ok(())
    }

    fn down(&mut self, alloc: Global, origin: NodeId, item: Item) -> Result<Down, AllocError> {
        keep(alloc, &mut self.items, origin, item)
    }

    fn flush(&mut self, alloc: Global, origin: NodeId) -> Result<Option<Entry>, AllocError> {
        pack(alloc, &mut self.items, origin)
    }

    fn open(&mut self, alloc: Global, entry: &Entry) -> Result<ItemList, AllocError> {
        open_entry(alloc, entry)
    }

    fn up(
        &mut self,
        alloc: Global,
        _space: &mut dyn Space,
        _place: Place,
        _item: &Item,
    ) -> Result<Up, AllocError> {
        Ok(Up::Pass(ItemList::new(alloc)))
    }

    fn back(
        &mut self,
        _alloc: Global,
        _space: &mut dyn Space,
        _place: Place,
        _item: &Item,
        _reply: &[u8],
    ) -> Result<(), AllocError> {
        Ok(())
    }

    fn post(&mut self, _place: Place) {}
}

// Keeps the item, or packs it with all that are kept where it is the sixteenth.
fn keep(
    alloc: Global,
    items: &mut Vec<Item>,
    origin: NodeId,
    item: Item,
) -> Result<Down, AllocError>
    requires few { length items.old.items < 16 }
    requires kept { All IsProposable items.old.items }
    requires item { IsProposable item }
    ensures step { IfOk result (λ down. BatchDown origin items.old.items item down items.new.items) }
    ensures err { OnErr result (items.new.items ≡ items.old.items) }
    ensures few { length items.new.items < 16 }
    ensures kept { All IsProposable items.new.items }
{
    items.push(item)?;
    if items.len() < LIMIT {
        return Ok(Down::Keep);
    }
    let Ok(entry) = batch(alloc, origin, items.as_slice()) else {
        let _ = items.pop();
        return Err(AllocError);
    };
    items.clear();
    Ok(Down::Pack(entry))
}

// Packs all that is kept.
fn pack(alloc: Global, items: &mut Vec<Item>, origin: NodeId) -> Result<Option<Entry>, AllocError>
    requires few { length items.old.items < 16 }
    requires kept { All IsProposable items.old.items }
    ensures step { IfOk result (λ packed. BatchFlush origin items.old.items packed items.new.items) }
    ensures err { OnErr result (items.new.items ≡ items.old.items) }
    ensures few { length items.new.items < 16 }
    ensures kept { All IsProposable items.new.items }
{
    if items.is_empty() {
        return Ok(None);
    }
    let entry = batch(alloc, origin, items.as_slice())?;
    items.clear();
    Ok(Some(entry))
}

// The items of an entry; none where the entry or one of them isn't well formed.
fn open_entry(alloc: Global, entry: &Entry) -> Result<ItemList, AllocError>
    ensures items { IfOk result (λ items. items ≡ opened_items entry.now) }
    ensures few { IfOk result (λ items. length items ≤ 16) }
{
    let Some(items) = items_of(alloc, entry)? else {
        return Ok(ItemList::new(alloc));
    };
    sound(alloc, items)
}

// These items, where each says something.
fn sound(alloc: Global, items: ItemList) -> Result<ItemList, AllocError>
    ensures items { IfOk result (λ out. out ≡ sound_items items) }
    ensures few { IfOk result (λ out. length out ≤ length items) }
{
    let all = are_sound(alloc, items.as_slice())?;
    if !all {
        return Ok(ItemList::new(alloc));
    }
    Ok(items)
}

fn are_sound(alloc: Global, items: &[Item]) -> Result<bool, AllocError>
    ensures { IfOk result (λ sound. sound ≡ is_some (contents_of items.now)) }
{
    match items {
        [] => Ok(true),
        [item, rest @ ..] => {
            let sound = is_sound(alloc, item)?;
            if !sound {
                return Ok(false);
            }
            are_sound(alloc, rest)
        }
    }
}
