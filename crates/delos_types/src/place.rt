//! Where an item stands in the log.

/// A position of the log, and the number of the item in the entry that stands there, from 0.
/// Places are ordered by position, and at one position by number.
#[derive(Clone, Copy, PartialEq, Eq, PartialOrd, Ord, Debug)]
pub struct Place {
    pub pos: u64,
    pub sub: u16,
}
