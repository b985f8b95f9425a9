//! Copies of messages that may come again.
//!
//! - `bag`: `Bag`, and what becomes of its copies.
#![tactic(auto)]

pub mod bag;
