//! What the engines do with a log, as definitions that every layer above cites: which items an
//! entry holds, which command of which session acts at which place and with which reply, and who
//! is a member, how far each has got and what may be trimmed.
#![tactic(auto)]

pub mod act;
pub mod acted;
pub mod appearance;
pub mod content;
pub mod laws;
pub mod members;
pub mod order;
pub mod pack;
pub mod read;
