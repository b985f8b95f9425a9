//! The table engine, the highest of the stack: the single table, in a space.
#![tactic(auto)]

ghost use Rattle.std.specs.Prelude.{◌≡◌, ◌<◌, ◌^◌, [], Some, IfOk, OnOk, length};
ghost use Rattle.table_core.specs.Reading.{command_of};
ghost use Rattle.table_core.specs.Effect.{value_after};
ghost use Rattle.table_core.specs.Table as table;
ghost use Rattle.engine_steps.specs.Layout.{value_of};
ghost use Rattle.engine_steps.specs.Steps.{TableUp, TableDoes, with_value};

use delos_types::bytes::Bytes;
use delos_types::entry::Entry;
use delos_types::item::{Item, ItemList};
use delos_types::numbers::NodeId;
use delos_types::place::Place;
use delos_types::space::Space;
use engine_steps::engine::{Down, Engine, Up};
use engine_steps::layout::{TABLE, set, value};
use engine_steps::reply::reply_text;
use engine_steps::words::session_word;
use std::alloc::{AllocError, Global};
use table_core::command::Command;
use table_core::decide::{Change, Decision, decide};
use table_core::spell::read_command;

/// All that it knows is in its space.
#[derive(Drop)]
pub struct TableEngine {}

impl Engine for TableEngine {
    ghost kind_of = { λ _. 5 };

    ghost kept = { λ _. [] };

    fn kind(&self) -> u8 {
        TABLE
    }

    fn load(&mut self, _space: &dyn Space) -> Result<(), AllocError> {
        Ok(())
    }

    fn down(&mut self, _alloc: Global, _origin: NodeId, item: Item) -> Result<Down, AllocError> {
        Ok(Down::Pass(item))
    }

    fn flush(&mut self, _alloc: Global, _origin: NodeId) -> Result<Option<Entry>, AllocError> {
        Ok(None)
    }

    fn open(&mut self, alloc: Global, _entry: &Entry) -> Result<ItemList, AllocError> {
        Ok(ItemList::new(alloc))
    }

    fn up(
        &mut self,
        alloc: Global,
        space: &mut dyn Space,
        _place: Place,
        item: &Item,
    ) -> Result<Up, AllocError> {
        take(alloc, space, item)
    }

    fn back(
        &mut self,
        _alloc: Global,
        _space: &mut dyn Space,
        _place: Place,
        _item: &Item,
        _reply: &[u8],
    ) -> Result<(), AllocError> {
        Ok(())
    }

    fn post(&mut self, _place: Place) {}
}

// What becomes of an item.
fn take(alloc: Global, space: &mut dyn Space, item: &Item) -> Result<Up, AllocError>
    ensures step { IfOk result (λ up. TableUp (contents space.old) item.now up (contents space.new)) }
    ensures beginning { beginning space.new ≡ beginning space.old }
{
    match session_word(item) {
        None => Ok(Up::Pass(ItemList::new(alloc))),
        Some(_) => act(alloc, space, item.payload.as_slice()),
    }
}

// Does the command that a payload spells, and answers its reply; none is spelled, nothing is done.
fn act(alloc: Global, space: &mut dyn Space, payload: &[u8]) -> Result<Up, AllocError>
    ensures step { IfOk result (λ up. TableDoes (contents space.old) (command_of payload.now) up (contents space.new)) }
    ensures beginning { beginning space.new ≡ beginning space.old }
{
    let Some(command) = read_command(alloc, payload)? else {
        return Ok(Up::Answer(Bytes::new(alloc)));
    };
    let key = key_of(&command);
    let before = value(space, key.as_slice())?;
    let Decision { change, reply } = decide(alloc, &command, before.as_ref())?;
    let answer = reply_text(alloc, Some(&reply))?;
    carry_out(space, key.as_slice(), &change)?;
    Ok(Up::Answer(answer))
}

// What was decided becomes of the value at a key.
fn carry_out(space: &mut dyn Space, key: &[u8], change: &Change) -> Result<(), AllocError>
    requires { length key.now < 2 ^ 16 }
    ensures step { OnOk result (contents space.new ≡ with_value (contents space.old) key.now (value_after change.now (value_of (contents space.old) key.now))) }
    ensures beginning { beginning space.new ≡ beginning space.old }
{
    match change {
        Change::Keep => Ok(()),
        Change::Set(value) => set(space, TABLE, key, value.as_slice()),
        Change::Remove => space.del(TABLE, key),
    }
}

// The key that a command speaks of.
fn key_of(command: &Command) -> &Bytes
    ensures { result.now ≡ table.key_of command.now }
{
    match command {
        Command::Put { key, .. } => key,
        Command::Del { key } => key,
        Command::Cas { key, .. } => key,
        Command::Add { key, .. } => key,
    }
}
