//! What goes up the stack, and what comes out of it.
use delos_types::bytes::Bytes;
use delos_types::item::Item;
use delos_types::numbers::{Rank, SessionId};
use delos_types::place::Place;

/// An item on its way up, with the place at which it stands or was freed.
#[derive(Drop)]
pub struct Rising {
    pub place: Place,
    pub item: Item,
}

/// The reply of an item, and where it acted.
#[derive(Drop)]
pub struct Told {
    pub place: Place,
    pub item: Item,
    pub reply: Bytes,
}

/// A rank that acted, where, and its reply in bytes: none where its payload spelled no command.
#[derive(Drop)]
pub struct Acted {
    pub place: Place,
    pub session: SessionId,
    pub rank: Rank,
    pub reply: Bytes,
}
