//! A register that nothing was written to.
ghost use Rattle.std.specs.Prelude.{IfOk};
ghost use Rattle.register_api.specs.View.{IsFresh};

use disk_model::MemDisk;
use meta_register::MetaRegister;
use std::alloc::{AllocError, Global};

/// A register of the first chain, on a disk in memory. No call of such a disk fails before one is armed, so want of memory is
/// why there is none.
pub(crate) fn fresh_register(alloc: Global) -> Result<MetaRegister<MemDisk>, AllocError>
    ensures { IfOk result (λ made. IsFresh made.register) }
{
    match MetaRegister::open_on(alloc, MemDisk::new(alloc)) {
        Ok(register) => Ok(register),
        Err(_) => Err(AllocError),
    }
}
