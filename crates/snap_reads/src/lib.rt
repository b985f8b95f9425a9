//! A published map: one writer publishes changes of tables at positions, and readers in other threads look, waiting for nobody.
//! A look may be a moment old, and it never goes back.
#![tactic(auto)]

mod absorb;
mod change;
mod marks;
mod meet;
mod peeker;
mod queue;
mod rule;
mod shown;
mod snap;
mod tables;

pub use change::{Change, ChangeList, Changes, Published};
pub use peeker::{Peeker, Seen};
pub use snap::{Refused, Snap, Untold};
pub use tables::Tables;
