//! The cells that a world begins with.

/// How large a quorum cell is.
#[derive(Clone, Copy, PartialEq, Eq, Debug)]
pub struct QuorumShape {
    /// How many servers it has: 1 to 64.
    pub servers: u32,
    /// The greatest number of entries: 1 to 2^32.
    pub room: u64,
    /// The greatest number of operations: at most 2^62.
    pub limit: u64,
}

/// What a cell is made of: at most 64 servers in all, with room for at most 2^32 entries.
#[derive(Clone, Copy, PartialEq, Eq, Debug)]
pub enum Shape {
    Quorum(QuorumShape),
    /// So many stripes, 2 to 8, each such a quorum cell.
    Striped(u8, QuorumShape),
    /// So many striped cells, 2 to 8, each of so many such quorum cells, 2 to 8.
    Nested(u8, u8, QuorumShape),
}
