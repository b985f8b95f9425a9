//! What a node's store writes on its disk: one record for each transaction, with its cursor and its changes, and which
//! cursor and space a list of records spells.
//!
//! - `change`: transactions, as values.
//! - `spell`: a transaction in bytes, and back.
//! - `laws`: one spelling, both ways; one more record is one more transaction.
//!
//! The definitions stand in `specs/`: `Format` (how a transaction is spelled), `Reading` (the transaction that bytes
//! spell), `Changing` (what changes do to a space), `Spelled` (the cursor and space that records spell, one after another).
#![tactic(auto)]

pub mod change;
mod fields;
pub mod laws;
pub mod spell;

pub use change::{Change, Changes, Commit};
pub use spell::{put_change, put_change_of, put_head, read_commit};
