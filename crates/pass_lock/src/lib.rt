//! A lock whose value keeps a journal that only grows, and passes that know how much of it they have seen.
//!
//! Turns are numbered by tickets, and a ticket is drawn where the turn before it has ended: whoever runs then has the next turn, so no turn waits for a thread that sleeps.
//! `Shared::enter` gives the value with a journal that begins with all that the pass has seen, and `Shared::leave` puts it back with what was added.
//! Each entry is signed with the number of a part, and a pass owns parts: so it knows which entries its own turns made, and that no other turn made one of them.
//! When the lock is closed, the journal is the pieces of the turns 0, 1, 2, .., each made by one pass.
//!
//! - `Chronicled`: a value with a journal.
//! - `Shared`: the lock, with `new`, `split`, `join`, `enter`, `leave` and `close`.
//! - `Pass`: the right to take turns, one after another.
#![tactic(auto)]

mod chronicled;
mod lock;
mod parts;
mod pass;
mod rule;
mod turns;
mod view;

pub use chronicled::Chronicled;
pub use lock::Shared;
pub use pass::Pass;
