//! What a run answers, row by row, and its text.
#![tactic(auto)]

pub mod render;
pub mod row;
pub mod text;
