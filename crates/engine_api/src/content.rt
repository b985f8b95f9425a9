//! What the items of an entry say, once they are read.
ghost use Rattle.std.specs.Prelude.{◌≡◌};

use delos_types::numbers::{NodeId, Rank, SessionId};
use delos_types::place::Place;
use std::marker::Model;
use table_core::command::Command;

/// What one item says.
#[derive(Drop, Debug)]
pub enum Content {
    /// A command of a session. A payload that spells no command takes its rank and does nothing.
    Session {
        session: SessionId,
        rank: Rank,
        command: Option<Command>,
    },
    /// The node has its state for the first `position` entries, and needs them no more.
    Alive {
        node: NodeId,
        position: u64,
    },
    /// The node is no member from here on.
    Leave {
        node: NodeId,
    },
    /// The entries below `position` may go, as far as the members' reports allow it.
    Trim {
        position: u64,
    },
}

/// What an item says, and where it stands.
#[derive(Drop, Debug)]
pub struct Placed {
    pub place: Place,
    pub content: Content,
}

/// What stands in a log, in order.
#[derive(Drop)]
pub struct PlacedList {
    items: Vec<Placed>,
}

impl Model for PlacedList {
    ghost use Rattle.std.specs.Prelude.{List};
    ghost use Rattle.engine_api.specs.declared.content.Placed.{Placed};

    ghost Value = { List Placed };

    ghost view = { λ a. a.items.items };
}

impl PlacedList {
    /// The list of these, which are not copied.
    pub fn from_vec(items: Vec<Placed>) -> PlacedList
        ensures { result ≡ items.items }
    {
        PlacedList { items }
    }

    /// What the list has, which is not copied.
    pub fn into_vec(self) -> Vec<Placed>
        ensures { result.items ≡ self }
    {
        let PlacedList { items } = self;
        items
    }

    pub fn as_slice(&self) -> &[Placed]
        ensures { result.now ≡ self.now }
    {
        self.items.as_slice()
    }
}
