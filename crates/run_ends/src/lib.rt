//! How a run over nodes has ended once its nodes have closed.
//!
//! - `ends`: each line, each session and each fault has its end.
//! - `line_rules`: the rules that a run over nodes picks for its log.
//! - `shown`: the log that stands in the loglets.
#![tactic(auto)]

pub mod ends;
pub mod line_rules;
pub mod shown;
