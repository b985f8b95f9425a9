//! Runs a script: its bytes come in, its commands go through the log, rows and the chain go out.
//! The run theorem is the contract of [`run::run`].
//!
//! - `yard`: what a run works on, and gives back.
//! - `ended`: how a run ended.
//! - `over`: a script's lines are run over such a yard.
//! - `lines`: the lines that a plan asks for are read or made.
//! - `compose`: they are run, and the text of what they told is made.
//! - `run`: the top call, from bytes to bytes.
#![tactic(auto)]

mod compose;
pub mod ended;
mod lines;
mod over;
pub mod run;
pub mod yard;
