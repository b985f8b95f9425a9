//! A line of a script, and what is wrong with one.
ghost use Rattle.std.specs.Prelude.{◌≡◌};

use delos_types::bytes::Bytes;
use delos_types::numbers::{NodeId, SessionId};
use std::alloc::{AllocError, AllocFailed};
use table_core::command::{Command, Query};

/// The rules of the grammar, in the order in which they are tried. A script is refused for the least
/// line that breaks one, with the first that it breaks.
#[derive(Clone, Copy, Debug, PartialEq, Eq)]
pub enum Rule {
    /// Byte number 1,048,577 stands in this line.
    ScriptTooLong,
    /// This is line 20,001.
    TooManyLines,
    /// The line has more than 512 bytes before its LF.
    TooLong,
    /// A byte is outside 32 to 126.
    Byte,
    /// A word is empty in a line that isn't.
    Spaces,
    /// The line begins no form.
    Word,
    /// The number of words isn't the form's.
    Count,
    /// No node has this name.
    Node,
    /// No session may have this name.
    Session,
    /// A number isn't the decimal text of an `i64`.
    Number,
    /// A key has more than 64 bytes.
    Key,
    /// A value has more than 256 bytes.
    Value,
    /// An earlier line makes this node leave.
    Retired,
    /// An earlier line has this session at another node.
    Moved,
    /// The line names a 65th session.
    Sessions,
}

/// Why a line was not read.
#[derive(Clone, Copy, Debug, PartialEq, Eq)]
pub enum Fault {
    /// Memory ran out.
    Memory,
    /// This is the first rule that the line breaks.
    Breaks(Rule),
}

impl From<AllocError> for Fault {
    ghost use Rattle.script_text.specs.declared.line.Fault.TheVariants.{Memory};

    ghost from_gives = { λ _ e. e ≡ Memory };

    fn from(_: AllocError) -> Self {
        Fault::Memory
    }
}

impl<T: Drop> From<AllocFailed<T>> for Fault {
    ghost use Rattle.script_text.specs.declared.line.Fault.TheVariants.{Memory};

    ghost from_gives = { λ _ e. e ≡ Memory };

    fn from(_: AllocFailed<T>) -> Self {
        Fault::Memory
    }
}

/// A session by its number, which counts first lines from 0, and its name.
#[derive(Drop, Debug)]
pub struct Session {
    pub id: SessionId,
    pub name: Bytes,
}

impl Clone for Session {
    ghost is_clone = { λ x y. y ≡ x };

    fn clone(&self) -> Result<Session, AllocError> {
        let name = self.name.clone()?;
        Ok(Session { id: self.id, name })
    }
}

/// What a session asks.
#[derive(Drop, Debug)]
pub enum Ask {
    /// A command that is to be logged.
    Log(Command),
    /// A look at the table.
    Look(Query),
}

/// What is asked of a node itself.
#[derive(Clone, Copy, Debug, PartialEq, Eq)]
pub enum Admin {
    /// The chain is to go on in another loglet.
    Extend,
    /// The node is to report how much of the log it needs no more.
    Alive,
    /// The log is to be trimmed to what no node needs any more.
    Trim,
    /// The node is to leave.
    Retire,
}

/// A line of a script.
#[derive(Drop, Debug)]
pub enum Line {
    /// An empty line does nothing.
    Blank,
    /// A session asks its node.
    Session {
        node: NodeId,
        session: Session,
        ask: Ask,
    },
    /// A node itself is asked.
    Admin {
        node: NodeId,
        admin: Admin,
    },
    /// The phase ends.
    Barrier,
}
