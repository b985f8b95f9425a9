//! The virtual log (OSDI 2020): a log over a chain of loglets that never answers "sealed". It finishes the replacement
//! of a sealed loglet, whoever began it, and goes on.
//!
//! - `log`: the virtual log.
//! - `calls`: its calls, each over as many turns as it takes.
//! - `underway`: an append that is begun before another ends, turn by turn.
//! - `rest`: a virtual log between two times at which it has turns.
//! - `held`: what a log holds, for good.
//! - `fault`: why a call failed.
//! - `turn`: single turns.
//! - `operation`: one operation on one loglet of the chain, from its begin to its answer.
//! - `write`: a change of the chain, written until a chain stands that has it.
//! - `replace`: how the chain goes on behind a sealed loglet.
//! - `extend`: the last loglet is replaced on request.
//! - `truncate`: the trim is raised, and the loglets let go of what lies below it.
//!
//! The definitions stand in `specs/`: `Turning` (what turns bring), `Causes` (the cause of each fault), `Writing`
//! (which events write a chain), `Sealing` (which Seals a call begins), `Saying` (which words it carries with),
//! `Operating` (which operations it leaves open), `Log` (what a virtual log shows), `Next` and `Holding` (what its reads
//! say), `Changing` (how a chain comes to have a change), `Extending`, `Truncating` and `Underway` (what an append that is
//! underway rests on, and its turns).
#![tactic(auto)]

pub mod calls;
pub mod extend;
pub mod fault;
pub mod held;
pub mod log;
mod operation;
mod replace;
pub mod rest;
pub mod truncate;
mod turn;
pub mod underway;
mod write;
