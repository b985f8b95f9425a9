//! What a log server holds.
ghost use Rattle.std.specs.Prelude.{◌≡◌, ◌^◌, ◌<◌, ◌≤◌, ◌++◌, ◌∷◌, true, [], drop, OnOk};
ghost use Rattle.std.specs.VecDeque.{deque_len, deque_capacity};
ghost use Rattle.quorum_cell.specs.Servers.{length_of, writes, wrote};
ghost use Rattle.server_records.specs.Spelled.{empty_server, follows, holding};

use crate::spell::{record_of_change, records_of_server};
use delos_types::bytes::Bytes;
use delos_types::entry::Entry;
use kept_value::KeptValue;
use quorum_cell::message::Ask;
use server_records::{Record, read_record};
use std::alloc::{AllocError, Global};
use std::collections::VecDeque;

/// After a trim the journal is compacted where it has more records than this.
const MOST_RECORDS: usize = 64;

/// The entries at `base`, `base + 1`, and so on; the length at which it was sealed.
#[derive(Drop)]
pub(crate) struct Held {
    pub(crate) base: u64,
    pub(crate) entries: VecDeque<Entry>,
    pub(crate) sealed_at: Option<u64>,
}

impl Held {
    ghost use Rattle.log_server.specs.Holding.{server_with};

    /// How many entries it has or had.
    pub(crate) fn len(&self) -> u64
        requires { length_of (server_with self.now) ≤ 2 ^ 32 }
        ensures { result ≡ length_of (server_with self.now) }
    {
        self.base + self.entries.len() as u64
    }

    /// Whether a server that holds this may write the record next, its first or a further one.
    fn is_next(&self, first: bool, change: &Record) -> bool
        requires { length_of (server_with self.now) ≤ 2 ^ 32 }
        ensures { result ≡ follows first (server_with self.now) change.now }
    {
        match change {
            Record::Stored(position, _) => *position == self.len(),
            Record::Sealed => self.sealed_at.is_none(),
            Record::Trimmed(position) => self.base < *position,
            Record::Compacted(_, _) => first,
        }
    }

    /// Holds a record more, which may be the next.
    fn hold(&mut self, change: Record) -> Result<(), AllocError>
        requires next { follows true (server_with self.old) change ≡ true }
        requires small { length_of (server_with self.old) ≤ 2 ^ 32 }
        ensures { OnOk result (server_with self.new ≡ holding (server_with self.old) change) }
    {
        match change {
            Record::Stored(_, entry) => {
                self.entries.reserve(1)?;
                self.add(entry);
            }
            Record::Sealed => self.seal(),
            Record::Trimmed(position) => self.trim(position),
            Record::Compacted(base, sealed_at) => {
                self.base = base;
                self.entries.clear();
                self.sealed_at = sealed_at;
            }
        }
        Ok(())
    }

    /// Holds an entry more, for which there is room.
    fn add(&mut self, entry: Entry)
        requires { deque_len self.old.entries < deque_capacity self.old.entries }
        ensures { server_with self.new ≡ record (server_with self.old) { entries = self.old.entries.items ++ entry ∷ [] } }
    {
        self.entries.push_back_reserved(entry);
    }

    fn seal(&mut self)
        requires { length_of (server_with self.old) ≤ 2 ^ 32 }
        ensures { server_with self.new ≡ wrote (server_with self.old) Ask.Seal }
    {
        self.sealed_at = Some(self.len());
    }

    /// Lets go of the entries below a place above its base.
    fn trim(&mut self, place: u64)
        requires { self.old.base < place }
        ensures { server_with self.new ≡ wrote (server_with self.old) (Ask.Trim place) }
    {
        drop_front(&mut self.entries, place - self.base);
        self.base = place;
    }
}

impl KeptValue for Held {
    ghost use Rattle.log_server.specs.Kind.{server_kind, IsSound};
    ghost use Rattle.log_server.specs.Holding.{server_with, IsRoomFor};

    type Change = Ask;

    ghost kind = { server_kind };

    ghost state = { server_with };

    ghost IsSound = { λ h. IsSound (server_with h) };

    ghost HasRoom = { IsRoomFor };

    fn empty(alloc: Global) -> Result<Held, AllocError> {
        Ok(Held {
            base: 0,
            entries: VecDeque::new(alloc),
            sealed_at: None,
        })
    }

    fn take(&mut self, alloc: Global, before: usize, bytes: &[u8]) -> Result<bool, AllocError> {
        let Some(change) = read_record(alloc, bytes)? else {
            return Ok(false);
        };
        if !self.is_next(before == 0, &change) {
            return Ok(false);
        }
        self.hold(change)?;
        Ok(true)
    }

    fn spell(&self, alloc: Global, change: &Ask) -> Result<Bytes, AllocError> {
        record_of_change(alloc, change)
    }

    fn make_room(&mut self, change: &Ask) -> Result<(), AllocError> {
        match change {
            Ask::Store(_, _) => self.entries.reserve(1),
            Ask::Repair(_, _) => self.entries.reserve(1),
            _ => Ok(()),
        }
    }

    fn change(&mut self, change: Ask) {
        match change {
            Ask::Store(_, entry) => self.add(entry),
            Ask::Repair(_, entry) => self.add(entry),
            Ask::Seal => self.seal(),
            Ask::Trim(place) => self.trim(place),
            Ask::Tail => {}
            Ask::Read(_) => {}
        }
    }

    fn compacts(change: &Ask, records: usize) -> bool {
        match change {
            Ask::Trim(_) => MOST_RECORDS < records,
            _ => false,
        }
    }

    fn compacted(&self, alloc: Global, change: &Ask) -> Result<Vec<Vec<u8>>, AllocError> {
        if let Ask::Trim(place) = change {
            let gone = (*place - self.base) as usize;
            return records_of_server(alloc, *place, self.sealed_at, &self.entries, gone);
        }
        let mut records = records_of_server(alloc, self.base, self.sealed_at, &self.entries, 0)?;
        let last = record_of_change(alloc, change)?;
        records.push(Vec::from_slice(alloc, last.as_slice())?)?;
        Ok(records)
    }
}

/// Lets go of the first entries, so many of them as there are.
fn drop_front(entries: &mut VecDeque<Entry>, count: u64)
    ensures { entries.new.items ≡ drop count entries.old.items }
{
    for _taken in 0..count {
        if entries.pop_front().is_none() {
            break;
        }
    }
}
