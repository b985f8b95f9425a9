//! A space in memory and its cursor, which a store changes and its transactions share.
ghost use Rattle.std.specs.Prelude.{◌≡◌, ◌<◌, ◌^◌, if◌then◌else◌, length, [], false, OnOk, OnErr, IsSome, IfSome, None};
ghost use Rattle.std.specs.Option.{option_copied};
ghost use Rattle.std.specs.List.{AllByRecursion};
ghost use Rattle.std.specs.BTreeMap.{is_at};
ghost use Rattle.store_records.specs.Changing.{applied, set_at};
ghost use Rattle.store_records.specs.Format.{IsSpellableChange};
ghost use Rattle.local_store.specs.Keys.{KeyView, key_cmp};
ghost use Rattle.local_store.specs.Slots.{held, slot_of, value_in, changes_of, key_pair, AreFit, RoomFor};

use crate::key::{Slots, SpaceKey, space_key};
use delos_types::bytes::Bytes;
use std::alloc::{AllocError, Global};
use store_records::Change;

/// A space, and the cursor of the last transaction. A key that has no value may have a slot all the same, as room for a
/// value.
#[derive(Drop)]
pub(crate) struct Base {
    pub(crate) slots: Slots,
    pub(crate) cursor: u64,
}

impl Clone for Base {
    ghost is_clone = { λ x y. (y.slots.entries ≡ x.slots.entries) × (y.cursor ≡ x.cursor) };

    fn clone(&self) -> Result<Base, AllocError> {
        let slots = self.slots.clone()?;
        Ok(Base {
            slots,
            cursor: self.cursor,
        })
    }
}

impl Base {
    /// The empty space with cursor 0, which takes no memory.
    pub(crate) fn new(alloc: Global) -> Base
        ensures empty { result.slots.entries ≡ [] }
        ensures cursor { result.cursor ≡ 0 }
    {
        Base {
            slots: Slots::new(alloc),
            cursor: 0,
        }
    }

    /// The value at a key.
    pub(crate) fn get(&self, key: &SpaceKey) -> Option<&Bytes>
        ensures { option_copied result ≡ value_in (slot_of self.now.slots.entries key.now) }
    {
        match self.slots.get(key) {
            Some(slot) => slot.as_ref(),
            None => None,
        }
    }

    /// The key gets the value, or is removed. The cursor stays, here and below.
    fn set(&mut self, key: SpaceKey, value: Option<Bytes>) -> Result<(), AllocError>
        requires short { length key.key < 2 ^ 16 }
        requires small { IfSome value (λ v. length v < 2 ^ 32) }
        requires old { AreFit self.old.slots.entries }
        ensures ok { OnOk result (held self.new.slots.entries ≡ set_at (held self.old.slots.entries) (key_pair key) value) }
        ensures err { OnErr result (self.new.slots.entries ≡ self.old.slots.entries) }

        // Only a key without a slot takes memory; other keys keep their slots.
        ensures absent { OnErr result (slot_of self.old.slots.entries key ≡ None) }
        ensures others { (q : KeyView) → is_at (key_cmp key) q ≡ false → slot_of self.new.slots.entries q ≡ slot_of self.old.slots.entries q }
        ensures fit { AreFit self.new.slots.entries }
        ensures cursor { self.new.cursor ≡ self.old.cursor }
    {
        match value {
            Some(value) => {
                self.slots.insert(key, Some(value))?;
                Ok(())
            }
            None => {
                let _ = self.slots.remove(&key);
                Ok(())
            }
        }
    }

    /// Makes these changes, one after another; some of them where memory runs out.
    pub(crate) fn change_all(
        &mut self,
        alloc: Global,
        changes: Vec<Change>,
    ) -> Result<(), AllocError>
        requires fit { AllByRecursion IsSpellableChange changes.items }
        requires old { AreFit self.old.slots.entries }
        ensures ok { OnOk result (held self.new.slots.entries ≡ applied (held self.old.slots.entries) changes.items) }
        ensures fit { AreFit self.new.slots.entries }
        ensures cursor { self.new.cursor ≡ self.old.cursor }
    {
        for change in changes {
            let Change { kind, key, value } = change;
            let key = space_key(alloc, kind, key.as_slice())?;
            self.set(key, value)?;
        }
        Ok(())
    }

    /// A slot for each key that is changed. The space stays as it is.
    pub(crate) fn make_slots(&mut self, changes: &Slots) -> Result<(), AllocError>
        requires fit { AreFit changes.now.entries }
        requires old { AreFit self.old.slots.entries }
        ensures room { OnOk result (RoomFor self.new.slots.entries changes.now.entries) }
        ensures same { held self.new.slots.entries ≡ held self.old.slots.entries }
        ensures fit { AreFit self.new.slots.entries }
        ensures cursor { self.new.cursor ≡ self.old.cursor }
    {
        for (key, _) in changes {
            self.make_slot(key)?;
        }
        Ok(())
    }

    /// A slot for a key. The space stays as it is.
    fn make_slot(&mut self, key: &SpaceKey) -> Result<(), AllocError>
        requires short { length key.now.key < 2 ^ 16 }
        requires old { AreFit self.old.slots.entries }
        ensures room { OnOk result (IsSome (slot_of self.new.slots.entries key.now)) }
        ensures same { held self.new.slots.entries ≡ held self.old.slots.entries }
        ensures grows { (q : KeyView) → IsSome (slot_of self.old.slots.entries q) → IsSome (slot_of self.new.slots.entries q) }
        ensures fit { AreFit self.new.slots.entries }
        ensures cursor { self.new.cursor ≡ self.old.cursor }
    {
        if self.slots.get(key).is_some() {
            return Ok(());
        }
        let key = key.clone()?;
        self.slots.insert(key, None)?;
        Ok(())
    }

    /// Makes changes for whose keys there is room, which takes no memory.
    pub(crate) fn assign_all(&mut self, changes: Slots)
        requires room { RoomFor self.old.slots.entries changes.entries }
        requires fit { AreFit changes.entries }
        requires old { AreFit self.old.slots.entries }
        ensures changed { held self.new.slots.entries ≡ applied (held self.old.slots.entries) (changes_of changes.entries) }
        ensures fit { AreFit self.new.slots.entries }
        ensures cursor { self.new.cursor ≡ self.old.cursor }
    {
        let mut changes = changes;
        for (key, value) in &mut changes {
            self.assign(key, value.take());
        }
    }

    /// A key that has a slot gets the value, or is removed, which takes no memory. Other keys keep their slots.
    fn assign(&mut self, key: &SpaceKey, value: Option<Bytes>)
        requires room { IsSome (slot_of self.old.slots.entries key.now) }
        requires small { IfSome value (λ v. length v < 2 ^ 32) }
        requires old { AreFit self.old.slots.entries }
        ensures assigned { held self.new.slots.entries ≡ set_at (held self.old.slots.entries) (key_pair key.now) value }
        ensures others { (q : KeyView) → is_at (key_cmp key.now) q ≡ false → slot_of self.new.slots.entries q ≡ slot_of self.old.slots.entries q }
        ensures fit { AreFit self.new.slots.entries }
        ensures cursor { self.new.cursor ≡ self.old.cursor }
    {
        let Some(value) = value else {
            let _ = self.slots.remove(key);
            return;
        };
        fill(&mut self.slots, key, value);
    }
}

/// The slot of a key gets a value.
fn fill(slots: &mut Slots, key: &SpaceKey, value: Bytes)
    requires { IsSome (slot_of slots.old.entries key.now) }
    ensures { (q : KeyView) → slot_of slots.new.entries q ≡ (if is_at (key_cmp key.now) q then Some (Some value) else slot_of slots.old.entries q) }
{
    if let Some(slot) = slots.get_mut(key) {
        *slot = Some(value);
    }
}
