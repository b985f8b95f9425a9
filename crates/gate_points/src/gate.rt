//! What a node passes.

/// A point that a node passes as it plays its lines of a phase.
#[derive(Clone, Copy, PartialEq, Eq, Debug)]
pub enum Point {
    /// It begins, and has made no event of the phase.
    Started,
    /// It is about to append what it has to send.
    Appending,
    /// What it appended has its place in the log.
    Placed,
    /// It has played its lines.
    Ended,
}

/// What a node passes at each point. A pass returns, whatever other nodes do.
pub trait Gate {
    fn pass(&self, node: u32, point: Point);
}

/// Holds nobody.
#[derive(Clone, Copy, Drop)]
pub struct NoGate;

impl Gate for NoGate {
    fn pass(&self, _node: u32, _point: Point) {}
}
