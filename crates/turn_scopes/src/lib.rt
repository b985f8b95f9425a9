//! Turns within a scope, for a user of a fabric who is alone or has others beside it.
//!
//! - `terms`: rules whose meanings a call picks.
//! - `access`: one of the users of a fabric, with those who may come between its turns.
//! - `lone`: the one user of a fabric.
//! - `narrowed`: a user who keeps to a scope for a while.
//! - `seat`: a node between two times at which it has an access.
//! - `laws`: what others do keeps to a scope, and how far they trim.
//! - `standing`: what stood in the log at an earlier moment, and who appended it.
#![tactic(auto)]

pub mod access;
pub mod laws;
pub mod lone;
pub mod narrowed;
pub mod seat;
pub mod standing;
pub mod terms;
