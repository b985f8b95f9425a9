//! Appends to a journal.
use disk_model::MemDisk;
use journal_core::Journal;
use std::alloc::Global;

/// Appends records of so many bytes to a journal on a disk in memory, and counts those that it then has. None is want of memory.
pub(crate) fn run(alloc: Global, records: u32, bytes: usize) -> Option<u64> {
    let mut payload = Vec::new(alloc);
    payload.resize(bytes, 7u8).ok()?;
    let mut journal = Journal::open_on(alloc, MemDisk::new(alloc)).ok()?.journal;
    for _ in 0..records {
        journal.append(&payload).ok()?;
    }
    Some(journal.count() as u64)
}
