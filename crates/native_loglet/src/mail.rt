//! Messages of which copies are kept.

use native_plan::message::Errand;
use quorum_cell::message::{Ask, Told};

/// A copy of a message that came once, and may come again.
#[derive(Drop)]
pub enum Mail {
    /// What the operation of a ticket asked a server, with the entry or the position.
    Asked {
        ticket: u64,
        server: u32,
        ask: Ask,
    },
    /// What a server answered to this errand of the operation.
    Told {
        ticket: u64,
        server: u32,
        errand: Errand,
        told: Told,
    },
}
