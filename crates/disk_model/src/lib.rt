//! Disks: what a read gives, and what a crash may leave.
//!
//! - [`Disk`]: a disk, and what is promised of it at every moment.
//! - [`MemDisk`]: a disk in memory, which picks what a crash leaves by a word.
//! - [`FailDisk`]: a disk in memory some of whose calls fail.
//! - [`write_synced`]: a write that is safe once it is answered.
#![tactic(auto)]

mod disk;
mod event;
mod failing;
mod fault;
mod image;
mod memory;
mod synced;

pub use disk::Disk;
pub use failing::FailDisk;
pub use fault::{Failed, WriteFault};
pub use memory::MemDisk;
pub use synced::write_synced;
