//! What an operation aims at.

use crate::message::Phase;

/// What the messages of an operation, and what it comes to, depend on beside what it knows.
#[derive(Clone, Copy, Debug)]
pub struct Aims {
    pub phase: Phase,
    /// The length that an Append or a Settle waits for, the cut of a Trim.
    pub want: u64,
    /// The cut of the loglet.
    pub cut: u64,
    /// The position that a Read asks for.
    pub place: u64,
    /// The length of which an answer had spoken as it began.
    pub firm: u64,
}
