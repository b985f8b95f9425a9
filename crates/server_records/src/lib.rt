//! What a log server writes on its disk: one record for each change of what it holds, and which server a list of
//! records spells.
//!
//! - `record`: the records, as values.
//! - `spell`: a record in bytes, and back.
//! - `laws`: one spelling, both ways; that records follow the server's own table.
//!
//! The definitions stand in `specs/`: `Format` (how records are spelled), `Reading` (the record that bytes spell),
//! `Spelled` (the server that records spell, one after another).
#![tactic(auto)]

pub mod laws;
pub mod record;
pub mod spell;

pub use record::Record;
pub use spell::{compacted_record, read_record, sealed_record, stored_record, trimmed_record};
