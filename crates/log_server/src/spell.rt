//! The records of a log server.
ghost use Rattle.std.specs.Prelude.{◌≡◌, Some, IfOk, drop};
ghost use Rattle.journal_core.specs.Records.{payloads};
ghost use Rattle.server_records.specs.Spelled.{server_of};
ghost use Rattle.log_server.specs.Kind.{CanSpell, SpellsChange, IsSound, server_at};

use delos_types::bytes::Bytes;
use delos_types::entry::Entry;
use quorum_cell::message::Ask;
use server_records::{compacted_record, sealed_record, stored_record, trimmed_record};
use std::alloc::{AllocError, Global};
use std::collections::VecDeque;

/// The record that a server writes before it answers this.
pub(crate) fn record_of_change(alloc: Global, change: &Ask) -> Result<Bytes, AllocError>
    requires { CanSpell change.now }
    ensures { IfOk result (λ bytes. SpellsChange change.now bytes) }
{
    match change {
        Ask::Store(place, entry) => stored_record(alloc, *place, entry),
        Ask::Repair(place, entry) => stored_record(alloc, *place, entry),
        Ask::Seal => sealed_record(alloc),
        Ask::Trim(place) => trimmed_record(alloc, *place),
        Ask::Tail => unreachable!(),
        Ask::Read(_) => unreachable!(),
    }
}

/// The records of a server that is sealed at this length, if it is, and holds these entries from the base on, but for the
/// first ones: what a compaction begins with, and one for each entry.
pub(crate) fn records_of_server(
    alloc: Global,
    base: u64,
    sealed_at: Option<u64>,
    entries: &VecDeque<Entry>,
    gone: usize,
) -> Result<Vec<Vec<u8>>, AllocError>
    requires { IsSound (server_at base sealed_at (drop gone entries.now.items)) }
    ensures { IfOk result (λ records. server_of (payloads records.items) ≡ Some (server_at base sealed_at (drop gone entries.now.items))) }
{
    let mut records = Vec::new(alloc);
    let first = compacted_record(alloc, base, sealed_at)?;
    records.push(Vec::from_slice(alloc, first.as_slice())?)?;
    for index in gone..entries.len() {
        let place = base + (index - gone) as u64;
        let record = stored_record(alloc, place, &entries[index])?;
        records.push(Vec::from_slice(alloc, record.as_slice())?)?;
    }
    Ok(records)
}
