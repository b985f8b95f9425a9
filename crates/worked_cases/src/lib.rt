//! Cases in text files: a program plays each of them, and prints its calls with their answers.
//!
//! - `cases`: a file of cases, and its transcript.
//! - `bench`: what a case is played on.
//! - `words`: numbers and bytes in the words of a line, and answers in words.
//! - `entries`: entries by their payload.
#![tactic(auto)]

pub mod bench;
pub mod cases;
pub mod entries;
pub mod words;
