//! A loglet over 1, 3, 5 or 7 log servers, of which a majority decides (OSDI 2020, NativeLoglet).
//!
//! - `loglet`: the loglet: the sequencer and its servers.
//! - `replica`: one of its servers.
//! - `carrying`: how an open operation goes on by one message.
//! - `entries`: the entries that it keeps.
//! - `mail`: messages of which copies are kept.
//! - `copying`: which copy stays behind of a message that moves.
//! - `straying`: what a copy does that comes again.
//! - `opening`: how an operation begins.
//! - `closing`: how an operation is taken, and what it is answered.
//! - `marks`: what the loglet has told and counted.
//! - `memory`: a loglet on disks in memory.
//! - `laws`: what holds of it after any list of calls.
#![tactic(auto)]

pub mod carrying;
pub mod closing;
pub mod copying;
mod entries;
pub mod laws;
pub mod loglet;
pub mod mail;
pub mod marks;
pub mod memory;
pub mod opening;
pub mod replica;
pub mod straying;
