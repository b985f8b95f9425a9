//! A transaction.
ghost use Rattle.std.specs.Prelude.{◌≡◌, ◌<◌, ◌^◌, length, OnOk, OnErr, unwrap_or};
ghost use Rattle.std.specs.Option.{option_copied};
ghost use Rattle.std.specs.FinMap as map;
ghost use Rattle.local_store.specs.Slots.{slot_of, value_in};
ghost use Rattle.local_store.specs.View.{contents_of};

use crate::base::Base;
use crate::key::{Slots, SpaceKey, copied, copied_key, space_key};
use crate::seek::{first_shown, lesser};
use delos_types::bytes::Bytes;
use delos_types::space::Space;
use std::alloc::{AllocError, Global};
use std::marker::Model;
use std::sync::Arc;

/// Keys have at most so many bytes.
const MAX_KEY: usize = 65_535;

/// A transaction: the space of the store at its beginning, with changes of its own. It owns its data and borrows nothing,
/// so it may be passed on, and be let go at any time. It never shows what was committed after it began.
///
/// Contracts see it as a `TxnView`: the space at its beginning, and its changes.
///
/// Memory: its changes, and a handle of the store's space, which isn't copied. Where a transaction is committed while
/// another has such a handle, the store copies its space once.
#[derive(Drop)]
pub struct Txn {
    alloc: Global,
    base: Arc<Base>,
    changes: Slots,
}

impl Model for Txn {
    ghost use Rattle.local_store.specs.View.{TxnView, txn_code};

    ghost Value = { TxnView };

    ghost coded = { txn_code };

    ghost use Rattle.std.specs.Arc.{arc_value};
    ghost use Rattle.local_store.specs.Keeping.{txn_view_of, IsTxn};

    ghost view = { λ t. txn_view_of (arc_value t.base).slots.entries t.changes.entries };

    ghost invariant = { λ t. IsTxn (arc_value t.base).slots.entries t.changes.entries };
}

impl Txn {
    ghost use Rattle.std.specs.Prelude.{[]};
    ghost use Rattle.local_store.specs.Slots.{held, changes_of, AreShort, AreFit};
    ghost use Rattle.std.specs.Arc.{arc_value};

    /// A transaction that changed nothing yet.
    pub(crate) fn new(alloc: Global, base: Arc<Base>) -> Txn
        requires { AreShort (arc_value base).slots.entries }
        ensures begun { result ≡ record { base = held (arc_value base).slots.entries; changes = [] } }
    {
        Txn {
            alloc,
            base,
            changes: Slots::new(alloc),
        }
    }

    /// Its changes. Its handle of the store's space is let go.
    pub(crate) fn into_changes(self) -> Slots
        ensures changes { changes_of result.entries ≡ self.changes }
        ensures fit { AreFit result.entries }
    {
        let Txn {
            alloc: _,
            base: _,
            changes,
        } = self;
        changes
    }
}

impl Space for Txn {
    ghost contents = { contents_of };

    ghost beginning = { λ t. t.base };

    /// Cost: O(log n) comparisons in a space of n keys and changes, and copies of the key and the value.
    fn get(&self, kind: u8, key: &[u8]) -> Result<Option<Bytes>, AllocError> {
        let key = space_key(self.alloc, kind, key)?;
        let base: &Base = &self.base;
        copied(value_in(base, &self.changes, &key))
    }

    /// Cost: O(log n) comparisons, and as much again for each key that it passes: one that was removed or set in this
    /// transaction. It copies the key, and the key that it finds.
    fn seek(&self, kind: u8, key: &[u8]) -> Result<Option<Bytes>, AllocError> {
        let start = space_key(self.alloc, kind, key)?;
        let none = Slots::new(self.alloc);
        let kept = first_shown(self.base.slots.range(&start..), kind, &self.changes);
        let set = first_shown(self.changes.range(&start..), kind, &none);
        copied_key(self.alloc, lesser(kept, set))
    }

    /// Cost: O(log c) comparisons in a transaction of c changes, and copies of the key and the value.
    fn put(&mut self, kind: u8, key: &[u8], value: &[u8]) -> Result<(), AllocError>
        requires key_fits { length key.now < 2 ^ 16 }
        requires value_fits { length value.now < 2 ^ 32 }
        ensures ok { OnOk result (contents_of self.new ≡ map.insert (contents_of self.old) (kind, key.now) value.now) }
        ensures err { OnErr result (self.new ≡ self.old) }
        ensures beginning { self.new.base ≡ self.old.base }
    {
        let key = space_key(self.alloc, kind, key)?;
        let value = Bytes::from_slice(self.alloc, value)?;
        self.changes.insert(key, Some(value))?;
        Ok(())
    }

    /// Cost: as `put`. A key that is removed takes room until the transaction is committed or let go.
    fn del(&mut self, kind: u8, key: &[u8]) -> Result<(), AllocError>
        ensures ok { OnOk result (contents_of self.new ≡ map.remove (contents_of self.old) (kind, key.now)) }
        ensures err { OnErr result (self.new ≡ self.old) }
        ensures beginning { self.new.base ≡ self.old.base }
    {
        let _open = &self.changes;

        // No key of a space is longer.
        if key.len() > MAX_KEY {
            return Ok(());
        }
        let key = space_key(self.alloc, kind, key)?;
        self.changes.insert(key, None)?;
        Ok(())
    }
}

/// The value at a key of a space that was changed so.
fn value_in<'a>(base: &'a Base, changes: &'a Slots, key: &SpaceKey) -> Option<&'a Bytes>
    ensures { option_copied result ≡ unwrap_or (slot_of changes.now.entries key.now) (value_in (slot_of base.now.slots.entries key.now)) }
{
    match changes.get(key) {
        Some(change) => change.as_ref(),
        None => base.get(key),
    }
}
