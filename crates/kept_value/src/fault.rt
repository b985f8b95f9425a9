//! Why a disk wasn't opened.
ghost use Rattle.std.specs.Prelude.{◌≡◌};
ghost use Rattle.kept_value.specs.declared.fault.OpenFault.TheVariants.{Memory};
ghost use Rattle.kept_value.specs.Faults.{open_fault_of};

use journal_core::Fault;
use std::alloc::{AllocError, AllocFailed};
use thiserror::Error;

/// Why a disk wasn't opened.
#[derive(Clone, Copy, Debug, PartialEq, Eq, Error)]
pub enum OpenFault {
    /// The disk failed.
    #[error("the disk failed")]
    Disk,
    /// Out of memory.
    #[error("out of memory")]
    Memory,
    /// This record, counted from 0, is none of this kind, or doesn't follow those before it.
    #[error("record {index} is bad")]
    BadRecord { index: usize },
}

impl From<AllocError> for OpenFault {
    ghost from_gives = { λ _ e. e ≡ Memory };

    fn from(_: AllocError) -> Self {
        OpenFault::Memory
    }
}

impl<T: Drop> From<AllocFailed<T>> for OpenFault {
    ghost from_gives = { λ _ e. e ≡ Memory };

    fn from(_: AllocFailed<T>) -> Self {
        OpenFault::Memory
    }
}

pub(crate) fn fault_of(fault: Fault) -> OpenFault
    ensures { result ≡ open_fault_of fault }
{
    match fault {
        Fault::Disk => OpenFault::Disk,
        Fault::Memory => OpenFault::Memory,
    }
}

/// A disk that wasn't opened, and why.
#[derive(Drop)]
pub struct Refused<D: Drop> {
    /// Why.
    pub fault: OpenFault,
    /// The disk.
    pub disk: D,
}
