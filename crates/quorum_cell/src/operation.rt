//! Operations on a cell, and the steps that a cell can take.
ghost use Rattle.std.specs.Prelude.{◌≡◌};

use delos_types::entry::Entry;
use delos_types::numbers::Ticket;
use std::alloc::AllocError;

/// What an operation is to do.
#[derive(Drop)]
pub enum Aim {
    /// Add this entry at the end.
    Append(Entry),
    /// See that the first so many entries, or all that there are, are there for good.
    Settle(u64),
    /// Find the length of the log.
    Tail,
    /// Take no more entries.
    Seal,
    /// Give the entry at this place.
    Read(u64),
    /// Let go of the entries below this place, as far as they are there for good.
    Trim(u64),
}

impl Clone for Aim {
    ghost is_clone = { λ x y. y ≡ x };

    fn clone(&self) -> Result<Aim, AllocError> {
        match self {
            Aim::Append(entry) => Ok(Aim::Append(entry.clone()?)),
            Aim::Settle(n) => Ok(Aim::Settle(*n)),
            Aim::Tail => Ok(Aim::Tail),
            Aim::Seal => Ok(Aim::Seal),
            Aim::Read(place) => Ok(Aim::Read(*place)),
            Aim::Trim(n) => Ok(Aim::Trim(*n)),
        }
    }
}

/// What an operation comes to.
#[derive(Clone, Copy, PartialEq, Eq, Debug)]
pub enum Outcome {
    /// The length that it waits for is there for good: of an append or a settle.
    Reached,
    /// The length of a log that isn't sealed: of a tail.
    OpenTail(u64),
    /// The length of a log that is sealed: of a tail.
    SealedTail(u64),
    /// The log takes no more entries: of an append, a settle or a seal.
    Shut,
    /// A server gave the entry: of a read.
    Found,
    /// The entry is let go: of a read.
    Gone,
    /// The place is past every length that was answered as the read began.
    Beyond,
    /// More than half of the servers let go: of a trim.
    TrimDone,
    /// So many servers weren't reached, more than half.
    NoQuorum(u32),
}

/// What an operation sends to a server. Which entry it is and how far to trim is for the cell to
/// say.
#[derive(Clone, Copy, PartialEq, Eq, Debug)]
pub enum Wish {
    Store(u64),
    Seal,
    Tail,
    Repair(u64),
    Read,
    Trim,
}

/// One try of a message that was lost: the message's number among all requests, and its server.
#[derive(Clone, Copy, PartialEq, Eq, Debug)]
pub struct Loss {
    pub message: u64,
    pub server: u32,
}

/// What can happen next in a cell. A message is named by its number among all requests or all
/// replies ever sent, from 0, and so can come again. A step that isn't possible changes nothing.
#[derive(Drop)]
pub enum CellStep {
    /// An operation begins, under the next ticket. If there is no room for its entry, or no ticket
    /// left, it is refused, which counts as a fault.
    Begin(Aim),
    /// An open operation sends a message to a server.
    Send(Ticket, u32, Wish),
    /// A request comes to its server, which answers.
    RequestComes(u64),
    /// A request comes to its server, which stops inside the write.
    RequestStops(u64),
    /// A reply comes to its operation.
    ReplyComes(u64),
    /// A request, or the reply to it, is lost once more.
    Lose(u64),
    /// A server that is down comes up again, and finds the write inside which it stopped done or
    /// not.
    Restart { server: u32, kept: bool },
    /// A server that is down doesn't come up.
    RestartFails(u32),
    /// An operation comes to this, if its tally allows it.
    Decide(Ticket, Outcome),
    /// The outcome is given to the client, and the operation is closed.
    Take(Ticket),
    /// The operation is closed without it.
    Forget(Ticket),
}
