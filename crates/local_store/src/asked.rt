//! A space as a value that a journal keeps.
ghost use Rattle.std.specs.Prelude.{◌≡◌};

use crate::base::Base;
use crate::key::Slots;
use crate::spell::{spell, spell_after};
use delos_types::bytes::Bytes;
use kept_value::KeptValue;
use std::alloc::{AllocError, Global};
use store_records::read_commit;

/// A journal of more records than this is compacted.
const MOST_RECORDS: usize = 256;

/// A transaction that is asked for: its cursor and its changes.
#[derive(Drop)]
pub(crate) struct Asked {
    pub(crate) cursor: u64,
    pub(crate) changes: Slots,
}

impl KeptValue for Base {
    ghost use Rattle.local_store.specs.Slots.{AreFit, RoomFor};
    ghost use Rattle.local_store.specs.Keeping.{base_kind, saved_with};

    type Change = Asked;

    ghost kind = { base_kind };

    ghost state = { λ b. saved_with b.slots.entries b.cursor };

    ghost IsSound = { λ b. AreFit b.slots.entries };

    ghost HasRoom = { λ b a. RoomFor b.slots.entries a.changes.entries };

    fn empty(alloc: Global) -> Result<Base, AllocError> {
        Ok(Base::new(alloc))
    }

    fn take(&mut self, alloc: Global, before: usize, bytes: &[u8]) -> Result<bool, AllocError> {
        let _other = before;
        let Some(commit) = read_commit(alloc, bytes)? else {
            return Ok(false);
        };
        if commit.cursor < self.cursor {
            return Ok(false);
        }
        self.cursor = commit.cursor;
        self.change_all(alloc, commit.changes.into_vec())?;
        Ok(true)
    }

    fn spell(&self, alloc: Global, change: &Asked) -> Result<Bytes, AllocError> {
        let bytes = spell(alloc, change.cursor, &change.changes)?;
        Ok(Bytes::from_vec(bytes))
    }

    fn make_room(&mut self, change: &Asked) -> Result<(), AllocError> {
        self.make_slots(&change.changes)
    }

    fn change(&mut self, change: Asked) {
        self.cursor = change.cursor;
        self.assign_all(change.changes);
    }

    fn compacts(change: &Asked, records: usize) -> bool {
        let _any = change;
        MOST_RECORDS < records
    }

    /// One record, by which each key that has a value gets it.
    fn compacted(&self, alloc: Global, change: &Asked) -> Result<Vec<Vec<u8>>, AllocError> {
        let whole = spell_after(alloc, change.cursor, &self.slots, &change.changes)?;
        let mut records = Vec::new(alloc);
        records.push(whole)?;
        Ok(records)
    }
}
