//! A value that a journal keeps: each change of it is a record, there for good before it is acknowledged, and the records
//! are compacted where they are many.
//!
//! - [`KeptValue`]: what is kept, how records spell it, and how it changes.
//! - [`Kept`]: what keeps it; [`Opened`]: one just opened, and the value.
//! - [`OpenFault`], [`Refused`]: why a disk wasn't opened.
//!
//! The definitions stand in `specs/`: `View` (what callers see, and what a crash leaves), `Keeping` (how a value and what
//! keeps it belong together).
#![tactic(auto)]

mod compact;
mod fault;
mod kept;
mod replay;
mod settle;
mod value;

pub use fault::{OpenFault, Refused};
pub use journal_core::Fault;
pub use kept::{Kept, Opened};
pub use value::KeptValue;
