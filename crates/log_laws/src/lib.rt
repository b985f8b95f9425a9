//! Laws of a log: what its entries do, one after another, in a space; in which order commands act, and what each is told; and what
//! members say in it.
//!
//! - `acts`: which commands act, where, and in which order.
//! - `members`: who is a member, and how much of the log members need.
//! - `reply`: a reply is read off its bytes.
//! - `rising`: what goes up the stack, and what comes out of it.
//! - `state`: the steps of each kind, over all items of an entry, keep a space that is the state of the log.
//! - `texts`: what a command that acts is told.
#![tactic(auto)]

pub mod acts;
pub mod members;
pub mod reply;
pub mod rising;
pub mod state;
pub mod texts;
