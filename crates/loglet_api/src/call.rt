//! Operations and their answers, calls and what they return, as plain values.
ghost use Rattle.std.specs.Prelude.{◌≡◌};
ghost use Rattle.loglet_api.specs.declared.call.Refused.TheVariants.{Memory};

use delos_types::entry::Entry;
use delos_types::numbers::Ticket;
use std::alloc::{AllocError, AllocFailed};
use std::error::Error;
use std::fmt;

/// What a loglet can be asked to do. Positions and lengths count entries from 0; both are at most
/// the loglet's room.
#[derive(Drop)]
pub enum Op {
    /// Add this entry at the end. Answered `Placed` or `Sealed`.
    Append(Entry),
    /// See to it that the first `n` entries, or all that there are now, are there for good.
    /// Answered `Settled` or `Sealed`.
    Settle(u64),
    /// Find a length that no earlier answer went past. Answered `OpenTail` or `SealedTail`.
    Tail,
    /// Take no more entries. Answered `SealDone`.
    Seal,
    /// Give the entry at this position. Answered `Got`, `CutAt` or `Beyond`.
    Read(u64),
    /// Let go of the entries below this position, as far as they are there for good. Answered
    /// `TrimDone`.
    Trim(u64),
}

impl Clone for Op {
    ghost is_clone = { λ x y. y ≡ x };

    fn clone(&self) -> Result<Op, AllocError> {
        match self {
            Op::Append(entry) => Ok(Op::Append(entry.clone()?)),
            Op::Settle(n) => Ok(Op::Settle(*n)),
            Op::Tail => Ok(Op::Tail),
            Op::Seal => Ok(Op::Seal),
            Op::Read(p) => Ok(Op::Read(*p)),
            Op::Trim(n) => Ok(Op::Trim(*n)),
        }
    }
}

/// What an open operation is to do: an `Op` without its entry, which stands in the log.
#[derive(Clone, Copy, PartialEq, Eq, Debug)]
pub enum Task {
    Placing,
    Settling(u64),
    Finding,
    Sealing,
    Reading(u64),
    Trimming(u64),
}

/// What an operation came to.
#[derive(Drop)]
pub enum Answer {
    /// The entry stands at this position for good.
    Placed(u64),
    /// The entries that were asked for are there for good.
    Settled,
    /// The loglet took entries as this was asked, and no earlier answer went past this length.
    OpenTail(u64),
    /// The loglet is sealed, and no later append is placed at this position or above.
    SealedTail(u64),
    /// The loglet takes no more entries.
    SealDone,
    /// The entry at the position that was asked for.
    Got(Entry),
    /// That position is trimmed: the first that isn't is this one.
    CutAt(u64),
    /// That position was at or above this length, past which no answer had gone.
    Beyond(u64),
    /// The entries are let go.
    TrimDone,
    /// The loglet is sealed. An append that is answered so may stand in the log all the same.
    Sealed,
    /// So many servers were down, failed, or weren't reached: too few were left.
    NoQuorum { unreached: u32 },
}

impl Clone for Answer {
    ghost is_clone = { λ x y. y ≡ x };

    fn clone(&self) -> Result<Answer, AllocError> {
        match self {
            Answer::Placed(p) => Ok(Answer::Placed(*p)),
            Answer::Settled => Ok(Answer::Settled),
            Answer::OpenTail(t) => Ok(Answer::OpenTail(*t)),
            Answer::SealedTail(t) => Ok(Answer::SealedTail(*t)),
            Answer::SealDone => Ok(Answer::SealDone),
            Answer::Got(entry) => Ok(Answer::Got(entry.clone()?)),
            Answer::CutAt(n) => Ok(Answer::CutAt(*n)),
            Answer::Beyond(n) => Ok(Answer::Beyond(*n)),
            Answer::TrimDone => Ok(Answer::TrimDone),
            Answer::Sealed => Ok(Answer::Sealed),
            Answer::NoQuorum { unreached } => Ok(Answer::NoQuorum {
                unreached: *unreached,
            }),
        }
    }
}

/// Why a call was refused. Nothing was done, but that the loglet counts a `Full` as a fault.
#[derive(Clone, Copy, PartialEq, Eq, Debug)]
pub enum Refused {
    /// The log has no room for another entry, or no more operations can be begun.
    Full,
    /// There was no memory.
    Memory,
}

impl fmt::Display for Refused {
    fn fmt<W: fmt::Write>(&self, f: &mut fmt::Formatter<W>) -> fmt::Result {
        match self {
            Refused::Full => write!(f, "the loglet is full"),
            Refused::Memory => write!(f, "out of memory"),
        }
    }
}

impl Error for Refused {}

impl From<AllocError> for Refused {
    ghost from_gives = { λ _ e. e ≡ Memory };

    fn from(_e: AllocError) -> Refused {
        Refused::Memory
    }
}

impl<T: Drop> From<AllocFailed<T>> for Refused {
    ghost from_gives = { λ _ e. e ≡ Memory };

    fn from(_e: AllocFailed<T>) -> Refused {
        Refused::Memory
    }
}

/// The kinds of loglet, each with the number of its servers or stripes.
#[derive(Clone, Copy, PartialEq, Eq, Debug)]
pub enum Kind {
    /// One server, whose log is one file.
    File,
    /// So many servers, of which a majority decides.
    Native(u8),
    /// So many loglets, which hold the positions in turn.
    Striped(u8),
    /// Two striped loglets, which hold the positions in turn.
    Nested,
}

/// A call of a loglet: the method and what it is given.
#[derive(Drop)]
pub enum LogletCall {
    Begin(Op),
    Carry(Ticket, u64),
    Take(Ticket),
    Forget(Ticket),
    Left(Ticket),
    Stray(u64),
    Stop(u32, u64),
    Restart(u32, u64),
}

/// What a call of a loglet returned.
#[derive(Drop)]
pub enum LogletAnswer {
    Begun(Ticket),
    Refusal(Refused),
    Carried,
    Taken(Option<Answer>),
    Forgotten,
    LeftIs(u32, u64),
    Strayed,
    Stopped,
    Restarted(bool),
    /// The call may not be made, and wasn't.
    Skipped,
}
