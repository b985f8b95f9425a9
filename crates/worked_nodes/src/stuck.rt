//! Why a case has no outcome.
use base_engine::fault::Fault;
use std::alloc::{AllocError, AllocFailed};
use thiserror::Error;

/// Why a case has no outcome.
#[derive(Clone, Copy, Debug, Error)]
pub(crate) enum Stuck {
    #[error("out of memory")]
    Memory,
    #[error("a line that no case has, or not there")]
    Line,
    #[error("a disk, a register or a log failed")]
    Failed,
}

impl From<AllocError> for Stuck {
    fn from(_: AllocError) -> Self {
        Stuck::Memory
    }
}

impl<T: Drop> From<AllocFailed<T>> for Stuck {
    fn from(_: AllocFailed<T>) -> Self {
        Stuck::Memory
    }
}

impl From<Fault> for Stuck {
    fn from(fault: Fault) -> Self {
        match fault {
            Fault::Because(_) => Stuck::Failed,
            Fault::Memory => Stuck::Memory,
        }
    }
}
