//! Laws of the journal of a fabric: what its events say of faults, of entries and trims, and of the chain.
//!
//! - `appending`: what is appended, raised and trimmed, and by whose rules.
//! - `chain`: how far the chain goes on, by its Seals.
//! - `faults`: each fault that it tells was counted by the loglet or the register that it names.
//! - `own`: the faults of several users are among all that came.
//! - `seals`: how far the chain goes, by the Seals that were begun.
//! - `versions`: of two chains that were written the later has the higher version.
#![tactic(auto)]

pub mod appending;
pub mod chain;
pub mod faults;
pub mod own;
pub mod seals;
pub mod versions;
