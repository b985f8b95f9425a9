//! A node of the replicated table (SOSP 2021): its log, its stack of engines and its store as one replica.
#![tactic(auto)]

pub mod fault;
pub mod node;
pub mod outbox;
pub mod over_virtual_log;
pub mod play;
pub mod propose;
pub mod read;
pub mod rest;
mod sessions;
pub mod settle;
pub mod shared_log;
pub mod trim;
