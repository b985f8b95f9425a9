//! What is known of a run over nodes once it has ended, and that what it tells fits.
#![tactic(auto)]

pub mod laws;
