//! Why a command is left open.

/// What kept a command from its place, a read from its answer or an admin line from its work.
#[derive(Clone, Copy, PartialEq, Eq, Debug)]
pub enum Cause {
    /// `unreached` servers of loglet `id` didn't answer, so there was no majority.
    NoQuorum { id: u32, unreached: u32 },
    /// Loglet `id` takes no more entries.
    Full { id: u32 },
    /// The register of the chain failed, or was down.
    Meta,
    /// The disk of the node failed, and so did one recovery or the work after it.
    Store,
}
