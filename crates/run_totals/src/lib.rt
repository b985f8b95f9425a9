//! What came of a run, in four numbers: how many commands its lines log, how many of them acted, the sum of the table that they
//! left, and the segments of its chain.
//!
//! - `totals`: the four numbers.
//! - `counting`: how they are made of lines and of what a run tells.
//! - `text`: their text.
//! - `laws`: when all commands acted, and what adds come to.
#![tactic(auto)]

pub mod counting;
pub mod laws;
pub mod text;
pub mod totals;
