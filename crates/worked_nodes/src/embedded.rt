//! Two nodes inside a program: what one puts the other finds.
ghost use Rattle.std.specs.Prelude.{◌≡◌, [], ◌∷◌, IfOk};
ghost use Rattle.worked_nodes.specs.Resting.{IsNew};

use crate::house::{Two, fresh_store};
use crate::items::put_item;
use crate::stuck::Stuck;
use crate::words::text_of;
use delos_types::bytes::Bytes;
use disk_model::MemDisk;
use local_replica::layers::Layers;
use local_store::Store;
use std::alloc::Global;
use table_core::command::{Found, Query};

/// The session that puts.
const SESSION: u8 = 0;

/// The key at which it puts a value.
const KEY: u8 = b'x';

/// The value.
const VALUE: u8 = b'1';

/// Node 1 puts the value at the key, and carries that to its end; node 2 finds a tail, and reads the key up to there.
pub(crate) fn put_and_get<E: Layers>(
    alloc: Global,
    engines: E,
    other_engines: E,
    out: &mut String,
) -> Result<(), Stuck>
    requires kinds { E.kinds engines ≡ 1 ∷ 2 ∷ 3 ∷ 4 ∷ 5 ∷ [] }
    requires waiting { E.waiting engines ≡ [] }
    requires other_kinds { E.kinds other_engines ≡ 1 ∷ 2 ∷ 3 ∷ 4 ∷ 5 ∷ [] }
    requires other_waiting { E.waiting other_engines ≡ [] }
{
    let store = store_of(alloc)?;
    let other_store = store_of(alloc)?;
    let Some(two) = Two::new(alloc, engines, store, other_engines, other_store) else {
        return Err(Stuck::Failed);
    };
    play(alloc, two, out)
}

fn play<E: Layers>(alloc: Global, two: Two<E, MemDisk>, out: &mut String) -> Result<(), Stuck> {
    let mut first = two;
    let put = put(alloc, &mut first);
    let mut second = first.turned();
    match put {
        Ok(()) => get(alloc, &mut second, out),
        Err(stuck) => Err(stuck),
    }
}

/// An empty store, on a disk in memory.
fn store_of(alloc: Global) -> Result<Store<MemDisk>, Stuck>
    ensures { IfOk result IsNew }
{
    match fresh_store(alloc, MemDisk::new(alloc)) {
        Some(store) => Ok(store),
        None => Err(Stuck::Failed),
    }
}

fn put<E: Layers>(alloc: Global, two: &mut Two<E, MemDisk>) -> Result<(), Stuck> {
    let item = put_item(alloc, SESSION, 1, KEY, VALUE)?;
    two.propose(item)?;
    two.flush()?;
    two.settle_all()?;
    two.sync()?;
    Ok(())
}

fn get<E: Layers>(alloc: Global, two: &mut Two<E, MemDisk>, out: &mut String) -> Result<(), Stuck> {
    let query = Query::Get {
        key: Bytes::from_slice(alloc, &[KEY])?,
    };
    let after = two.sync()?;
    let found = two.read(&query)?;
    let number = two.number().number();
    match found {
        Found::Value(value) => {
            let value = text_of(value.as_slice())?;
            writeln!(out, "node {number} finds {value}, after {after}")?;
            Ok(())
        }
        _ => Err(Stuck::Failed),
    }
}
