//! A change of what a log server holds.

use delos_types::entry::Entry;

/// A change of what a log server holds, as its disk keeps it. Positions count entries from 0.
#[derive(Drop)]
pub enum Record {
    /// The entry stands at this position, below 2^32.
    Stored(u64, Entry),
    /// The server is sealed.
    Sealed,
    /// The entries below this position, at most 2^32, are let go.
    Trimmed(u64),
    /// What the records of before came to but for the entries: those below this position, at most 2^32, are let go, and
    /// it is sealed at this length, at most 2^32, or isn't. It is the first record, or none.
    Compacted(u64, Option<u64>),
}
