//! The chain of loglets: where a position lies, how the chain is changed, and its bytes (OSDI 2020).
#![tactic(auto)]

pub mod change;
pub mod decode;
pub mod encode;
pub mod fault;
mod fields;
pub mod laws;
pub mod place;

pub use change::{drop_below, extend, first_chain};
pub use decode::decode_chain;
pub use encode::encode_chain;
pub use fault::{BadChain, DecodeError, Rule};
pub use place::{Located, locate};
