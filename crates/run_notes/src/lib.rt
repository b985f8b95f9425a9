//! What a run says to a person, beside the text that programs read.
//!
//! - [`causes::OpenRows`]: how many rows are open, by cause, and what each cause means.
//! - [`rules::sentence`]: what a line that breaks a rule has wrong.
//! - [`picture::Picture`]: the chain, drawn over the positions of the log.
//! - [`json_rows::write_rows`]: the rows as JSON, one object a line.
#![tactic(auto)]

pub mod causes;
pub mod json_rows;
pub mod picture;
pub mod rules;
