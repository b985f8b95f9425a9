//! The ranks of sessions that stand in a log.
ghost use Rattle.std.specs.Prelude.{◌≡◌};

use delos_types::numbers::{Rank, SessionId};
use delos_types::place::Place;
use std::marker::Model;
use table_core::command::Command;

/// A rank of a session that stands at a place, with a command of whatever kind.
#[derive(Drop, Debug)]
pub struct Appearance<C> {
    pub place: Place,
    pub session: SessionId,
    pub rank: Rank,
    pub command: C,
}

/// A rank with a command of the table, or with bytes that spell none.
pub type Asked = Appearance<Option<Command>>;

/// Ranks of sessions, in the order in which they stand or act.
#[derive(Drop)]
pub struct Appearances {
    items: Vec<Asked>,
}

impl Model for Appearances {
    ghost use Rattle.std.specs.Prelude.{List, Option};
    ghost use Rattle.engine_api.specs.declared.appearance.Appearance.{Appearance};
    ghost use Rattle.table_core.specs.declared.command.Command.{Command};

    ghost Value = { List (Appearance (Option Command)) };

    ghost view = { λ a. a.items.items };
}

impl Appearances {
    /// The list of these, which are not copied.
    pub fn from_vec(items: Vec<Asked>) -> Appearances
        ensures { result ≡ items.items }
    {
        Appearances { items }
    }

    /// What the list has, which is not copied.
    pub fn into_vec(self) -> Vec<Asked>
        ensures { result.items ≡ self }
    {
        let Appearances { items } = self;
        items
    }

    pub fn as_slice(&self) -> &[Asked]
        ensures { result.now ≡ self.now }
    {
        self.items.as_slice()
    }
}
