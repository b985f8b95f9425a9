//! Which lock it is.
ghost use Rattle.pass_lock.specs.Pass.{LockId, nowhere};

use std::marker::Brand;

/// The name of a lock, as a constant of a type: so it isn't lost in what holds turns, of which contracts see no more than whose they
/// are and what they have seen. Each call that opens a lock picks it.
pub trait Room {
    ghost lock: { LockId };
}

impl Room for Brand {
    ghost lock = { nowhere };
}
