//! An example of a loglet of one's own: it hands each call on to another loglet, and counts the appends that
//! are begun.
#![tactic(auto)]

pub mod counted;
