//! How the operations of a native loglet go on: what they send to log servers, what they learn from
//! the answers, and what they come to (OSDI 2020, NativeLoglet).
//!
//! - `aims`: what an operation aims at.
//! - `message`: what operations send to servers, and the phases that they go through.
//! - `member`: what an operation knows of one server.
//! - `pending`: an open operation.
//! - `send`: what an operation sends next.
//! - `judge`: what an operation comes to, by what it knows.
//! - `stray`: what it learns from messages that come again.
//! - `laws`: what ties all that to the quorum cell.
#![tactic(auto)]

pub mod aims;
pub mod judge;
pub mod laws;
pub mod member;
pub mod message;
pub mod pending;
pub mod send;
pub mod stray;
