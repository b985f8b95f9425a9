//! A loglet: a log that can be sealed (OSDI 2020). What it shows, the steps that it may take, and
//! the trait that each kind of loglet meets.
//!
//! - `call`: operations, answers and calls, as plain values.
//! - `loglet`: the trait, and that a box of any loglet is a loglet.
//! - `calls`: each call of the trait through a `&mut dyn Loglet`.
//! - `rules`: the parts of a step that are the same for every kind of loglet.
//! - `laws`: what follows from the steps alone.
//!
//! The definitions stand in `specs/`: `View` (what a loglet shows), `Sound` (what holds of it at
//! every moment), `Step` (what each call does), `Run` (one step after another), `Keeps` (what
//! stays from one moment to a later one), `Says` (what the answers say).
#![tactic(auto)]

pub mod call;
pub mod calls;
pub mod laws;
pub mod loglet;
pub mod rules;
