// How a journal fails.
ghost use Rattle.std.specs.Prelude.{◌≡◌, ◌⊎◌};
ghost use Rattle.journal_core.specs.declared.fault.Fault.TheVariants.{Memory, Disk};

use disk_model::{Failed, WriteFault};
use std::alloc::{AllocError, AllocFailed};
use thiserror::Error;

/// Why a journal wasn't opened.
#[derive(Clone, Copy, Debug, PartialEq, Eq, Error)]
pub enum Fault {
    /// The disk failed.
    #[error("the disk failed")]
    Disk,
    /// Out of memory.
    #[error("out of memory")]
    Memory,
}

/// Why a record wasn't added.
#[derive(Clone, Copy, Debug, PartialEq, Eq, Error)]
pub enum AppendFault {
    /// The disk failed now: the journal is shut, and a crash may keep the record.
    #[error("the disk failed")]
    Disk,
    /// The disk failed before, and the journal wasn't reopened since.
    #[error("the journal is shut")]
    Shut,
    /// Out of memory.
    #[error("out of memory")]
    Memory,
}

/// A disk that wasn't opened, and why.
#[derive(Drop)]
pub struct Refused<D: Drop> {
    /// Why.
    pub fault: Fault,
    /// The disk.
    pub disk: D,
}

impl From<AllocError> for Fault {
    ghost from_gives = { λ _ e. e ≡ Memory };

    fn from(_: AllocError) -> Self {
        Fault::Memory
    }
}

impl<T: Drop> From<AllocFailed<T>> for Fault {
    ghost from_gives = { λ _ e. e ≡ Memory };

    fn from(_: AllocFailed<T>) -> Self {
        Fault::Memory
    }
}

impl From<Failed> for Fault {
    ghost from_gives = { λ _ e. e ≡ Disk };

    fn from(_: Failed) -> Self {
        Fault::Disk
    }
}

impl From<WriteFault> for Fault {
    ghost use Rattle.disk_model.specs.declared.fault.WriteFault.TheVariants.{Memory as NoMemory, Failed as DiskFailed};

    ghost from_gives = { λ w e. ((w ≡ NoMemory) × (e ≡ Memory)) ⊎ ((w ≡ DiskFailed) × (e ≡ Disk)) };

    fn from(fault: WriteFault) -> Self {
        match fault {
            WriteFault::Memory => Fault::Memory,
            WriteFault::Failed => Fault::Disk,
        }
    }
}

impl From<AllocError> for AppendFault {
    ghost use Rattle.journal_core.specs.declared.fault.AppendFault.TheVariants.{Memory as NoMemory};

    ghost from_gives = { λ _ e. e ≡ NoMemory };

    fn from(_: AllocError) -> Self {
        AppendFault::Memory
    }
}
