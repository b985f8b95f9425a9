//! An example of an engine of one's own: it hands each call on to another engine, and counts the items that go down
//! through it.
#![tactic(auto)]

pub mod counted;
