//! The local store of a node: a space and a cursor, changed together by transactions that a crash leaves whole or absent.
//!
//! - [`Store`]: its calls. [`Txn`]: a transaction, a space of its own.
//! - [`Refused`], [`OpenFault`], [`CommitFault`]: why a disk wasn't opened, and why a transaction wasn't committed.
//!
//! The definitions stand in `specs/`: `View` (a store and a transaction as their callers see them, and what a crash leaves
//! of a store), `Slots` (how spaces and changes are kept in memory), `Keeping` (how that and the journal belong together).
#![tactic(auto)]

mod asked;
mod base;
mod fault;
mod key;
mod key_text;
mod seek;
mod spell;
mod store;
mod txn;

pub use fault::CommitFault;
pub use kept_value::{OpenFault, Refused};
pub use store::Store;
pub use txn::Txn;
