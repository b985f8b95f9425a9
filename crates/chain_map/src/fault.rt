//! Why bytes spell no chain.
ghost use Rattle.std.specs.Prelude.{◌≡◌};
ghost use Rattle.chain_map.specs.declared.fault.DecodeError.TheVariants.{Memory};

use std::alloc::{AllocError, AllocFailed};
use std::fmt;

/// The rules that bytes may break.
#[derive(Clone, Copy, PartialEq, Eq, Debug)]
pub enum Rule {
    /// The bytes end inside a field.
    Short,
    /// The first byte isn't 1.
    Version,
    /// The number of segments is outside 1 to 64.
    Count,
    /// An id doesn't rise, or isn't below 64.
    Id,
    /// A segment doesn't start where the one before it ends.
    Start,
    /// A segment before the last is open, or the last is closed, or the flag is neither.
    Flag,
    /// An end is below its start.
    End,
    /// The trim is below the start of the first segment.
    Trim,
    /// Bytes are left over.
    Long,
}

impl fmt::Display for Rule {
    fn fmt<W: fmt::Write>(&self, f: &mut fmt::Formatter<W>) -> Result<(), fmt::Error> {
        let word = match self {
            Rule::Short => "short",
            Rule::Version => "version",
            Rule::Count => "count",
            Rule::Id => "id",
            Rule::Start => "start",
            Rule::Flag => "flag",
            Rule::End => "end",
            Rule::Trim => "trim",
            Rule::Long => "long",
        };
        f.write_str(word)
    }
}

/// The first rule that the bytes break, and the place of the byte where they do.
#[derive(Clone, Copy, PartialEq, Eq, Debug)]
pub struct BadChain {
    pub at: usize,
    pub rule: Rule,
}

impl fmt::Display for BadChain {
    fn fmt<W: fmt::Write>(&self, f: &mut fmt::Formatter<W>) -> Result<(), fmt::Error> {
        write!(f, "{} at byte {}", self.rule, self.at)
    }
}

/// Why nothing was read.
#[derive(Clone, Copy, PartialEq, Eq, Debug)]
pub enum DecodeError {
    Memory,
    /// The bytes spell no chain.
    Bad(BadChain),
}

impl fmt::Display for DecodeError {
    fn fmt<W: fmt::Write>(&self, f: &mut fmt::Formatter<W>) -> Result<(), fmt::Error> {
        match self {
            DecodeError::Memory => f.write_str("out of memory"),
            DecodeError::Bad(bad) => bad.fmt(f),
        }
    }
}

impl From<AllocError> for DecodeError {
    ghost from_gives = { λ _ e. e ≡ Memory };

    fn from(_e: AllocError) -> DecodeError {
        DecodeError::Memory
    }
}

impl<T: Drop> From<AllocFailed<T>> for DecodeError {
    ghost from_gives = { λ _ e. e ≡ Memory };

    fn from(_e: AllocFailed<T>) -> DecodeError {
        DecodeError::Memory
    }
}
