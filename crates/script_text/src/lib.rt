//! Scripts: their lines, the first rule that one breaks, and what each line asks of its node.
//!
//! The text of a run stands in a crate of its own, `row_text`; its call is given on here. So do the words of the command
//! line, `script_words`, on which no script depends.
#![tactic(auto)]

pub mod asks;
pub mod faults;
mod fields;
mod forms;
pub mod line;
pub mod refusal;
pub mod script;
mod seen;
mod words;

pub use row_text::render::render;
