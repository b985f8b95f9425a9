//! What an engine of the stack is (SOSP 2021): a trait whose calls do what the engine's kind says,
//! over a space; the layout of each kind's space, with readers; and what each kind does, as a
//! definition.
#![tactic(auto)]

pub mod engine;
pub mod layout;
pub mod reply;
pub mod words;
