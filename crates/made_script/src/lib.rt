//! Scripts that are made of a seed, for loads of any size.
#![tactic(auto)]

pub mod laws;
pub mod make;
