//! Why a call failed.
ghost use Rattle.std.specs.Prelude.{◌≡◌};
ghost use Rattle.virtual_log.specs.declared.fault.Fault.TheVariants.{Memory};

use std::alloc::{AllocError, AllocFailed};
use std::fmt;

/// Why a call failed. What was answered before stands.
#[derive(Clone, Copy, PartialEq, Eq, Debug)]
pub enum Fault {
    /// So many servers of the loglet `id` were down, failed, or weren't reached: too few were left.
    NoQuorum { id: u32, unreached: u32 },
    /// The loglet `id` has no room for the entry, or begins no more operations.
    Full { id: u32 },
    /// The register failed, or is down.
    Meta,
    /// There was no memory.
    Memory,
}

impl fmt::Display for Fault {
    fn fmt<W: fmt::Write>(&self, f: &mut fmt::Formatter<W>) -> Result<(), fmt::Error> {
        match self {
            Fault::NoQuorum { id, unreached } => {
                write!(f, "{unreached} servers of loglet {id} weren't reached")
            }
            Fault::Full { id } => write!(f, "loglet {id} is full"),
            Fault::Meta => f.write_str("the register failed"),
            Fault::Memory => f.write_str("out of memory"),
        }
    }
}

impl From<AllocError> for Fault {
    ghost from_gives = { λ _ e. e ≡ Memory };

    fn from(_e: AllocError) -> Fault {
        Fault::Memory
    }
}

impl<T: Drop> From<AllocFailed<T>> for Fault {
    ghost from_gives = { λ _ e. e ≡ Memory };

    fn from(_e: AllocFailed<T>) -> Fault {
        Fault::Memory
    }
}
