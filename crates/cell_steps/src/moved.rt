//! What steps of a cell are that are no client's call.
use delos_types::numbers::Ticket;

/// What a step was that is no client's call. Servers are named by their numbers, operations by their
/// tickets.
#[derive(Clone, Copy, PartialEq, Eq, Debug)]
pub enum Moved {
    /// Nothing that anybody sees: the step wasn't possible, or a message was only sent.
    Nothing,
    /// A message of an operation that waits came for the first time: a request to this server, or
    /// its reply.
    Carried(Ticket, u32),
    /// One more try of a message of an operation that waits was lost.
    Lost(Ticket, u32),
    /// A message to this server or from it came that had come before, or whose operation waits no
    /// more.
    Strayed(u32),
    /// A message of this operation came to this server, which stopped inside the write. The message
    /// came for the first time, and its operation waits, or it strayed.
    Stopped(Ticket, u32, bool),
    /// This server came up, with the write inside which it had stopped or without it.
    Up(u32, bool),
    /// This server didn't come up.
    Stayed(u32),
    /// This operation came to its outcome.
    Decided(Ticket),
}
