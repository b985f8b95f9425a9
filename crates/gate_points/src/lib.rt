//! Points that a node passes as it plays its lines, and gates that can hold it there.
//!
//! - `Point`: which points there are.
//! - `Gate`: what a node passes; `NoGate` holds nobody.
//! - `HoldGate`: holds one node at a point until another has passed one of its own.
#![tactic(auto)]

mod gate;
mod hold;

pub use gate::{Gate, NoGate, Point};
pub use hold::HoldGate;
