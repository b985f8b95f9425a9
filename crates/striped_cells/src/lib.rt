//! Cells in stripes as plain lists, and their steps as a program, over any kind of cells: over
//! quorum cells, and over cells in stripes too.
//!
//! * `cell`: what every kind of cells does; `motion`: what moves that is nobody's call.
//! * `quorum`: quorum cells are such a kind.
//! * `striped`: cells in stripes are one, over any other; `pursuit`: their operations; `stripes`: lists
//!   of stripes.
//! * `laws`: what holds of them.
#![tactic(auto)]

pub mod cell;
pub mod laws;
pub mod motion;
pub mod pursuit;
pub mod quorum;
pub mod striped;
pub mod stripes;
