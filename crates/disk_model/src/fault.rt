// How a disk fails.
ghost use Rattle.std.specs.Prelude.{◌≡◌};
ghost use Rattle.disk_model.specs.declared.fault.WriteFault.TheVariants.{Memory};

use std::alloc::AllocError;
use thiserror::Error;

/// The disk failed, or it is stopped.
#[derive(Clone, Copy, Debug, PartialEq, Eq, Error)]
#[error("the disk failed")]
pub struct Failed;

/// Why a write or a cut wasn't made.
#[derive(Clone, Copy, Debug, PartialEq, Eq, Error)]
pub enum WriteFault {
    /// The disk failed, or it is stopped: nothing changed, or it is stopped inside the change.
    #[error("the disk failed")]
    Failed,
    /// Out of memory: nothing changed.
    #[error("out of memory")]
    Memory,
}

impl From<AllocError> for WriteFault {
    ghost from_gives = { λ _ e. e ≡ Memory };

    fn from(_: AllocError) -> Self {
        WriteFault::Memory
    }
}
