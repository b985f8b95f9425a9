//! Items and entries in bytes, and back. Each value has one spelling, and bytes that spell no value
//! are refused with the first rule that they break, and where.
#![tactic(auto)]

pub mod decode;
pub mod encode;
pub mod fault;
mod fields;
pub mod laws;

pub use decode::{decode_entry, decode_item};
pub use encode::{encode_entry, encode_item, encode_items, item_len};
pub use fault::{BadEntry, DecodeError, Rule};
