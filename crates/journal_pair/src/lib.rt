//! Journals over two areas of a disk, of which one is selected: records that may be replaced by others at once, each of
//! them there for good before it is acknowledged.
//!
//! - [`JournalPair`]: the records, and what a crash leaves of them; [`Opened`]: one just opened.
//! - [`Fault`], [`AppendFault`], [`Refused`]: how its calls fail, as those of a journal.
#![tactic(auto)]

mod area;
mod compact;
mod cut;
mod header;
mod layout;
mod open;
mod pair;
mod scan;
mod torn;

pub use journal_core::{AppendFault, Fault, Refused};
pub use pair::{JournalPair, Opened};
