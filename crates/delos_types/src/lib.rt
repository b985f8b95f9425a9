//! The values that every layer shares: bytes, the numbers that name things, items and entries,
//! the chain of loglets, and the space of keys that engines keep their state in.
#![tactic(auto)]

pub mod big_endian;
pub mod bytes;
pub mod cause;
pub mod chain;
pub mod entry;
pub mod item;
pub mod numbers;
pub mod place;
pub mod space;
