//! A loglet whose positions stand in several loglets in turn.
//!
//! - `striped`: the loglet.
//! - `shape`: its numbers that never change, and sums over its stripes.
//! - `stripe`: one call of a stripe, with what is noted of it.
//! - `plan`: how an operation goes round the stripes.
//! - `pending`: the open operations, by ticket.
//! - `marks`: what the loglet has told and counted.
//! - `given`: what it was given.
//!
//! The definitions stand in `specs/`: `Striped` (what a striped loglet shows), `Views` (its stripes,
//! and the log in them), `Plans` (how operations go round), `State` (its fields as plain values),
//! `Going` (what holds of them), `Pendings` (changes of the open operations).
#![tactic(auto)]

pub mod given;
pub mod marks;
pub mod pending;
pub mod plan;
pub mod shape;
pub mod stripe;
pub mod striped;
