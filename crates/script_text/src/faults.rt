//! Lines by which a part of a run is broken or mended, or old messages come again.
use delos_types::numbers::NodeId;

/// What such a line asks for. A cell is named by its place in the shelf, a server by its number in the cell. A count `after` is that of a
/// disk's writes: the write of that number from then on stops inside itself, as in a crash; 0 takes that back.
#[derive(Clone, Copy, PartialEq, Eq, Debug, Drop)]
pub enum FaultAsk {
    /// The disk of the node's store is armed, where the line stands among the node's.
    Stop { node: NodeId, after: u64 },
    /// A disk of the cell is armed as the phase begins.
    Break { cell: u32, server: u32, after: u64 },
    /// The register's disk is armed as the phase begins.
    BreakMeta { after: u64 },
    /// The cell's server is brought up as the phase begins.
    Mend { cell: u32, server: u32 },
    /// The register is brought up as the phase begins.
    MendMeta,
    /// So many old messages come again while the phase lasts.
    Stir { turns: u64 },
}

/// A line that asks for that.
#[derive(Clone, Copy, PartialEq, Eq, Debug, Drop)]
pub struct FaultLine {
    /// The number of the line, from 1.
    pub number: u64,
    /// How many barriers stand before it.
    pub phase: u64,
    /// How many lines that name a node and ask something of it, or of a session, stand before it.
    pub before: u64,
    pub asks: FaultAsk,
}
