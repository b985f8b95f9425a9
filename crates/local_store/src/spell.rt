//! The record of a transaction.
ghost use Rattle.std.specs.Prelude.{◌≡◌, ◌++◌, ◌<◌, ◌^◌, IfOk, OnOk, IfSome, length, flat_map, unwrap_or};
ghost use Rattle.std.specs.List.{AllByRecursion};
ghost use Rattle.std.specs.Option.{option_copied};
ghost use Rattle.store_records.specs.Format.{SpellsCommit, IsSpellableChange, change_bytes};
ghost use Rattle.local_store.specs.Keys.{key_cmp};
ghost use Rattle.local_store.specs.Slots.{AreFit, changes_of, slot_of, set_of, set_after};
ghost use Rattle.std.specs.List.Sorted.{IsStrictlySortedBy};
ghost use Rattle.std.specs.Map.{keys_of};

use crate::key::{Slots, SpaceKey};
use delos_types::bytes::Bytes;
use std::alloc::{AllocError, Global};
use store_records::{put_change_of, put_head};

/// How many bytes stand before the changes.
const HEAD: usize = 16;

/// How many bytes a change mostly has at most.
const MOSTLY: usize = 48;

/// For how many changes room is made at once.
const MANY: usize = 1024;

/// The bytes of the record of these changes, with this cursor.
pub(crate) fn spell(alloc: Global, cursor: u64, changes: &Slots) -> Result<Vec<u8>, AllocError>
    requires { AreFit changes.now.entries }
    ensures { IfOk result (λ bytes. SpellsCommit bytes.items (record { cursor = cursor; changes = changes_of changes.now.entries })) }
{
    let mut out = Vec::with_capacity(alloc, HEAD + MOSTLY * changes.len().min(MANY))?;
    put_head(&mut out, cursor, changes.len() as u64)?;
    for (key, value) in changes {
        put_change_of(&mut out, key.kind(), key.text().as_slice(), value.as_ref())?;
    }
    Ok(out)
}

/// The bytes of the record of a whole space after these changes, for whose keys it has slots: each key that has a value
/// then gets it.
pub(crate) fn spell_after(
    alloc: Global,
    cursor: u64,
    slots: &Slots,
    changes: &Slots,
) -> Result<Vec<u8>, AllocError>
    requires slots { AreFit slots.now.entries }
    requires changes { AreFit changes.now.entries }
    ensures spelled { IfOk result (λ bytes. SpellsCommit bytes.items (record { cursor = cursor; changes = set_after changes.now.entries slots.now.entries })) }

    // A space has its keys in order.
    ensures ordered { OnOk result (IsStrictlySortedBy key_cmp (keys_of slots.now.entries)) }
{
    let mut out = Vec::with_capacity(alloc, HEAD + MOSTLY * slots.len().min(MANY))?;
    put_head(&mut out, cursor, count_after(slots, changes) as u64)?;
    for (key, slot) in slots {
        put_set(&mut out, key, value_after(slot, changes, key))?;
    }
    Ok(out)
}

/// How many keys of a space have values after these changes.
fn count_after(slots: &Slots, changes: &Slots) -> usize
    ensures { result ≡ length (set_after changes.now.entries slots.now.entries) }
{
    let mut count = slots.len();
    for (key, slot) in slots {
        if value_after(slot, changes, key).is_none() {
            count -= 1;
        }
    }
    count
}

/// The value at a key after these changes.
fn value_after<'a>(slot: &'a Option<Bytes>, changes: &'a Slots, key: &SpaceKey) -> Option<&'a Bytes>
    ensures { option_copied result ≡ unwrap_or (slot_of changes.now.entries key.now) slot.now }
{
    match changes.get(key) {
        Some(change) => change.as_ref(),
        None => slot.as_ref(),
    }
}

/// Adds the change by which a key gets a value, if there is one.
fn put_set(out: &mut Vec<u8>, key: &SpaceKey, value: Option<&Bytes>) -> Result<(), AllocError>
    requires key { length key.now.key < 2 ^ 16 }
    requires value { IfSome (option_copied value) (λ v. length v < 2 ^ 32) }
    ensures text { OnOk result (out.new.items ≡ out.old.items ++ flat_map change_bytes (set_of key.now (option_copied value.entry))) }
    ensures fits { AllByRecursion IsSpellableChange (set_of key.now (option_copied value.entry)) }
{
    match value {
        Some(value) => put_change_of(out, key.kind(), key.text().as_slice(), Some(value)),
        None => Ok(()),
    }
}
