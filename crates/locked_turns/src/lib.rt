//! Turns at a fabric that lies under a lock, beside others.
//!
//! - `desk`: what lies under the lock.
//! - `room`: which lock it is.
//! - `locked`: the turns of one part of the lock.
#![tactic(auto)]

pub mod desk;
pub mod locked;
pub mod room;
