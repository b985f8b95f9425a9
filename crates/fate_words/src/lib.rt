//! The words that make the choices of a run, and what a word means for a message.
//!
//! - `chooser`: where words come from.
//! - `fates`: what becomes of a message.
//! - `words`: which message moves by a word, and its fate.
#![tactic(auto)]

pub mod chooser;
pub mod fates;
pub mod words;
