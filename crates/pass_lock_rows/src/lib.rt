//! The pass lock over a value whose type is known: a desk where clerks file events, each clerk in a thread of its own.
//!
//! - `Desk`: the locked value, generic over the object that stamps its events. `Box<dyn Stamp + Send>` is one.
//! - `Clerk`: turns for one part.
//! - `run`: clerks in threads, from the empty journal to the last; `run_boxed`: the same over a boxed stamp.
#![tactic(auto)]

mod clerk;
mod desk;
mod office;

pub use clerk::Clerk;
pub use desk::{Counting, Desk, Event, Stamp};
pub use office::{run, run_boxed};
