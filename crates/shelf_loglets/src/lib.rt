//! The loglets of a shelf, by their kinds, on disks in memory.
//!
//! - `shelf`: the loglet of a kind.
//! - `striped`: striped loglets over native ones, and a nested one.
//!
//! The definitions stand in `specs/`: `Stripes` (what a stripe shows), `Shelf` (what the loglet of a
//! kind shows).
#![tactic(auto)]

pub mod shelf;
pub mod striped;
