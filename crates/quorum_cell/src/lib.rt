//! The quorum cell: a loglet whose servers each keep a copy of the log, and whose operations are
//! decided by what more than half of them answer (OSDI 2020, section on native loglets).
//!
//! * `message`: what a log server is asked, what it answers, and the messages that carry both.
//! * `operation`: what operations on a cell are to do and what they come to, and the steps that a
//!   cell can take.
//! * `laws`: what holds of every cell, whatever messages are lost, repeated or reordered, and
//!   wherever servers stop.
//!
//! The definitions stand in `specs/`. README.md says how to read them.
#![tactic(auto)]

pub mod laws;
pub mod message;
pub mod operation;
