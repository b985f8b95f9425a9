//! Why a transaction wasn't committed.
ghost use Rattle.std.specs.Prelude.{◌≡◌};

use std::alloc::AllocError;
use thiserror::Error;

/// Why a transaction wasn't committed.
#[derive(Clone, Copy, Debug, PartialEq, Eq, Error)]
pub enum CommitFault {
    /// The disk failed: the store is down, and a reopening finds the transaction whole or not at all.
    #[error("the disk failed")]
    Disk,
    /// The store is down: the disk failed before.
    #[error("the store is down")]
    Down,
    /// Out of memory: nothing was committed.
    #[error("out of memory")]
    Memory,
}

impl From<AllocError> for CommitFault {
    ghost use Rattle.local_store.specs.declared.fault.CommitFault.TheVariants as commit_fault;

    ghost from_gives = { λ _ e. e ≡ commit_fault.Memory };

    fn from(_: AllocError) -> Self {
        CommitFault::Memory
    }
}
