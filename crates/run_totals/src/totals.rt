//! The four numbers that say what came of a run.

/// What came of a run.
#[derive(Clone, Copy, PartialEq, Eq, Debug)]
pub struct Totals {
    /// How many lines log a command.
    pub commands: u64,
    /// How many of them were placed, in their phase or late.
    pub acted: u64,
    /// The sum of all values of the table that the placed ones left; a value that is no number counts 0.
    pub sum: i128,
    /// How many segments the chain of loglets had at the end.
    pub segments: u64,
}
