//! What acted, and with which reply.
ghost use Rattle.std.specs.Prelude.{◌≡◌};

use delos_types::numbers::{Rank, SessionId};
use delos_types::place::Place;
use std::marker::Model;
use table_core::command::{Command, Reply};

/// A command that acted. Where its bytes spell no command there is neither a command nor a reply.
#[derive(Drop, Debug)]
pub struct Act {
    /// Where it acted: at the place of the item that freed its rank, which may be a later one than its own.
    pub place: Place,
    pub session: SessionId,
    pub rank: Rank,
    pub command: Option<Command>,
    pub reply: Option<Reply>,
}

/// What acted, in order.
#[derive(Drop)]
pub struct Acts {
    items: Vec<Act>,
}

impl Model for Acts {
    ghost use Rattle.std.specs.Prelude.{List};
    ghost use Rattle.engine_api.specs.declared.act.Act.{Act};

    ghost Value = { List Act };

    ghost view = { λ a. a.items.items };
}

impl Acts {
    /// The list of these, which are not copied.
    pub fn from_vec(items: Vec<Act>) -> Acts
        ensures { result ≡ items.items }
    {
        Acts { items }
    }

    /// What the list has, which is not copied.
    pub fn into_vec(self) -> Vec<Act>
        ensures { result.items ≡ self }
    {
        let Acts { items } = self;
        items
    }

    pub fn as_slice(&self) -> &[Act]
        ensures { result.now ≡ self.now }
    {
        self.items.as_slice()
    }
}
