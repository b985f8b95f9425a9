//! Why bytes spell no item or entry.
ghost use Rattle.std.specs.Prelude.{◌≡◌};
ghost use Rattle.entry_codec.specs.declared.fault.DecodeError.TheVariants.{Memory};

use std::alloc::{AllocError, AllocFailed};
use std::fmt;

/// The rules that bytes may break.
#[derive(Clone, Copy, PartialEq, Eq, Debug)]
pub enum Rule {
    /// More than 16,384 bytes.
    Size,
    /// The bytes end inside a field.
    Short,
    /// The first byte isn't 1.
    Version,
    /// The origin is no node, 1 to 8.
    Origin,
    /// A kind is 0, or doesn't rise.
    Kind,
    /// Bytes are left over.
    Long,
}

impl fmt::Display for Rule {
    fn fmt<W: fmt::Write>(&self, f: &mut fmt::Formatter<W>) -> Result<(), fmt::Error> {
        let word = match self {
            Rule::Size => "size",
            Rule::Short => "short",
            Rule::Version => "version",
            Rule::Origin => "origin",
            Rule::Kind => "kind",
            Rule::Long => "long",
        };
        f.write_str(word)
    }
}

/// The first rule that the bytes break, and the place of the byte where they do.
#[derive(Clone, Copy, PartialEq, Eq, Debug)]
pub struct BadEntry {
    pub at: usize,
    pub rule: Rule,
}

impl fmt::Display for BadEntry {
    fn fmt<W: fmt::Write>(&self, f: &mut fmt::Formatter<W>) -> Result<(), fmt::Error> {
        write!(f, "{} at byte {}", self.rule, self.at)
    }
}

/// Why nothing was read.
#[derive(Clone, Copy, PartialEq, Eq, Debug)]
pub enum DecodeError {
    Memory,
    /// The bytes spell no value.
    Bad(BadEntry),
}

impl fmt::Display for DecodeError {
    fn fmt<W: fmt::Write>(&self, f: &mut fmt::Formatter<W>) -> Result<(), fmt::Error> {
        match self {
            DecodeError::Memory => f.write_str("out of memory"),
            DecodeError::Bad(bad) => bad.fmt(f),
        }
    }
}

impl From<AllocError> for DecodeError {
    ghost from_gives = { λ _ e. e ≡ Memory };

    fn from(_e: AllocError) -> DecodeError {
        DecodeError::Memory
    }
}

impl<T: Drop> From<AllocFailed<T>> for DecodeError {
    ghost from_gives = { λ _ e. e ≡ Memory };

    fn from(_e: AllocFailed<T>) -> DecodeError {
        DecodeError::Memory
    }
}
