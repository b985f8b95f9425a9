//! The view engine: which nodes are members, and how far each has got. All nodes are members at
//! first, with position 0; a report only raises a node's position, and a node that left is no member
//! any more.
#![tactic(auto)]

ghost use Rattle.std.specs.Prelude.{◌≡◌, [], Some, IfOk, OnOk};
ghost use Rattle.engine_steps.specs.Layout.{view_of};
ghost use Rattle.engine_steps.specs.Steps.{ViewUp, ViewAt, reports};

use delos_types::entry::Entry;
use delos_types::item::{Item, ItemList};
use delos_types::numbers::NodeId;
use delos_types::place::Place;
use delos_types::space::Space;
use engine_api::content::Content;
use engine_steps::engine::{Down, Engine, Up};
use engine_steps::layout::{VIEW, is_left, number_at, set, set_number, view_at};
use engine_steps::words::word;
use std::alloc::{AllocError, Global};

/// All that it knows is in its space.
#[derive(Drop)]
pub struct ViewEngine {}

impl Engine for ViewEngine {
    ghost kind_of = { λ _. 3 };

    ghost kept = { λ _. [] };

    fn kind(&self) -> u8 {
        VIEW
    }

    fn load(&mut self, _space: &dyn Space) -> Result<(), AllocError> {
        Ok(())
    }

    fn down(&mut self, _alloc: Global, _origin: NodeId, item: Item) -> Result<Down, AllocError> {
        Ok(Down::Pass(item))
    }

    fn flush(&mut self, _alloc: Global, _origin: NodeId) -> Result<Option<Entry>, AllocError> {
        Ok(None)
    }

    fn open(&mut self, alloc: Global, _entry: &Entry) -> Result<ItemList, AllocError> {
        Ok(ItemList::new(alloc))
    }

    fn up(
        &mut self,
        alloc: Global,
        space: &mut dyn Space,
        _place: Place,
        item: &Item,
    ) -> Result<Up, AllocError> {
        take(alloc, space, item)
    }

    fn back(
        &mut self,
        _alloc: Global,
        _space: &mut dyn Space,
        _place: Place,
        _item: &Item,
        _reply: &[u8],
    ) -> Result<(), AllocError> {
        Ok(())
    }

    fn post(&mut self, _place: Place) {}
}

// What becomes of an item.
fn take(alloc: Global, space: &mut dyn Space, item: &Item) -> Result<Up, AllocError>
    ensures step { IfOk result (λ up. ViewUp (contents space.old) item.now up (contents space.new)) }
    ensures beginning { beginning space.new ≡ beginning space.old }
{
    let said = word(alloc, VIEW, item)?;
    match said {
        None => Ok(Up::Pass(ItemList::new(alloc))),
        Some(content) => hear(alloc, space, &content),
    }
}

fn hear(alloc: Global, space: &mut dyn Space, content: &Content) -> Result<Up, AllocError>
    ensures step { IfOk result (λ up. ViewAt (contents space.old) (Some content.now) up (contents space.new)) }
    ensures beginning { beginning space.new ≡ beginning space.old }
{
    match content {
        Content::Alive { node, position } => {
            report(space, *node, *position)?;
            Ok(Up::Stop)
        }
        Content::Leave { node } => {
            set(space, VIEW, &[node.number()], &[])?;
            Ok(Up::Stop)
        }
        Content::Session { .. } => Ok(Up::Pass(ItemList::new(alloc))),
        Content::Trim { .. } => Ok(Up::Pass(ItemList::new(alloc))),
    }
}

// A report counts where it is greater than what is known, and its node hasn't left.
fn report(space: &mut dyn Space, node: NodeId, position: u64) -> Result<(), AllocError>
    ensures step { OnOk result (contents space.new ≡ reports (contents space.old) node position (view_of (contents space.old) node)) }
    ensures beginning { beginning space.new ≡ beginning space.old }
{
    let stored = view_at(space, node)?;
    if is_left(stored.as_ref()) || number_at(stored.as_ref()) >= position {
        return Ok(());
    }
    set_number(space, VIEW, &[node.number()], position)
}
