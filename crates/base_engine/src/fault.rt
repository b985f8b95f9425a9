//! Why a call of a node failed.
ghost use Rattle.std.specs.Prelude.{◌≡◌};
ghost use Rattle.base_engine.specs.Causes as causes;
ghost use Rattle.base_engine.specs.declared.fault.Fault.TheVariants as fault;

use delos_types::cause::Cause;
use std::alloc::AllocError;
use virtual_log::fault::Fault as LogFault;

/// Why a call failed. What was answered before stands.
#[derive(Clone, Copy, PartialEq, Eq, Debug)]
pub enum Fault {
    /// For this cause.
    Because(Cause),
    /// There was no memory.
    Memory,
}

/// The fault of a log, as a node tells it.
pub fn told(fault: LogFault) -> Fault
    ensures { result ≡ causes.told fault }
{
    match fault {
        LogFault::NoQuorum { id, unreached } => Fault::Because(Cause::NoQuorum { id, unreached }),
        LogFault::Full { id } => Fault::Because(Cause::Full { id }),
        LogFault::Meta => Fault::Because(Cause::Meta),
        LogFault::Memory => Fault::Memory,
    }
}

impl From<AllocError> for Fault {
    ghost from_gives = { λ _ e. e ≡ fault.Memory };

    fn from(_: AllocError) -> Fault {
        Fault::Memory
    }
}
