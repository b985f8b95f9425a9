//! The trim engine: the greatest position below which a trim was asked for.
#![tactic(auto)]

ghost use Rattle.std.specs.Prelude.{◌≡◌, [], Some, IfOk, OnOk};
ghost use Rattle.engine_steps.specs.Steps.{TrimUp, TrimAt, raised_trim};

use delos_types::entry::Entry;
use delos_types::item::{Item, ItemList};
use delos_types::numbers::NodeId;
use delos_types::place::Place;
use delos_types::space::Space;
use engine_api::content::Content;
use engine_steps::engine::{Down, Engine, Up};
use engine_steps::layout::{TRIM, TRIM_KEY, set_number, trim_point};
use engine_steps::words::word;
use std::alloc::{AllocError, Global};

/// All that it knows is in its space.
#[derive(Drop)]
pub struct TrimEngine {}

impl Engine for TrimEngine {
    ghost kind_of = { λ _. 4 };

    ghost kept = { λ _. [] };

    fn kind(&self) -> u8 {
        TRIM
    }

    fn load(&mut self, _space: &dyn Space) -> Result<(), AllocError> {
        Ok(())
    }

    fn down(&mut self, _alloc: Global, _origin: NodeId, item: Item) -> Result<Down, AllocError> {
        Ok(Down::Pass(item))
    }

    fn flush(&mut self, _alloc: Global, _origin: NodeId) -> Result<Option<Entry>, AllocError> {
        Ok(None)
    }

    fn open(&mut self, alloc: Global, _entry: &Entry) -> Result<ItemList, AllocError> {
        Ok(ItemList::new(alloc))
    }

    fn up(
        &mut self,
        alloc: Global,
        space: &mut dyn Space,
        _place: Place,
        item: &Item,
    ) -> Result<Up, AllocError> {
        take(alloc, space, item)
    }

    fn back(
        &mut self,
        _alloc: Global,
        _space: &mut dyn Space,
        _place: Place,
        _item: &Item,
        _reply: &[u8],
    ) -> Result<(), AllocError> {
        Ok(())
    }

    fn post(&mut self, _place: Place) {}
}

// What becomes of an item.
fn take(alloc: Global, space: &mut dyn Space, item: &Item) -> Result<Up, AllocError>
    ensures step { IfOk result (λ up. TrimUp (contents space.old) item.now up (contents space.new)) }
    ensures beginning { beginning space.new ≡ beginning space.old }
{
    let said = word(alloc, TRIM, item)?;
    match said {
        None => Ok(Up::Pass(ItemList::new(alloc))),
        Some(content) => hear(alloc, space, &content),
    }
}

fn hear(alloc: Global, space: &mut dyn Space, content: &Content) -> Result<Up, AllocError>
    ensures step { IfOk result (λ up. TrimAt (contents space.old) (Some content.now) up (contents space.new)) }
    ensures beginning { beginning space.new ≡ beginning space.old }
{
    match content {
        Content::Trim { position } => {
            raise(space, *position)?;
            Ok(Up::Stop)
        }
        Content::Session { .. } => Ok(Up::Pass(ItemList::new(alloc))),
        Content::Alive { .. } => Ok(Up::Pass(ItemList::new(alloc))),
        Content::Leave { .. } => Ok(Up::Pass(ItemList::new(alloc))),
    }
}

// The trim point only rises.
fn raise(space: &mut dyn Space, position: u64) -> Result<(), AllocError>
    ensures step { OnOk result (contents space.new ≡ raised_trim (contents space.old) position) }
    ensures beginning { beginning space.new ≡ beginning space.old }
{
    let point = trim_point(space)?;
    if point >= position {
        return Ok(());
    }
    set_number(space, TRIM, &TRIM_KEY, position)
}
