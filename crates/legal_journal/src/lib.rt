//! The journal of all events of a virtual log (OSDI 2020), which journals are legal, and what follows from that alone:
//! the log goes on.
//!
//! - `events`: the calls of a fabric, their answers, and the events of its journal.
//! - `rules`: what the users of a fabric keep to, as meanings alone.
//! - `turns`: whoever takes turns at a fabric.
//! - `laws`: what holds of every legal journal.
//!
//! The definitions stand in `specs/`: `Told` (what a loglet's calls and answers tell), `Shown` (the log of a chain of
//! cells), `Moves` (what an event does), `Journal` (what a journal tells, and which event may follow), `Laws` (how the
//! log goes on), `Turns` (one turn of a user).
#![tactic(auto)]

pub mod events;
pub mod laws;
pub mod rules;
pub mod turns;
