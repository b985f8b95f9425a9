//! A transaction of a store, as values.
ghost use Rattle.std.specs.Prelude.{◌≡◌};

use delos_types::bytes::Bytes;
use std::marker::Model;

/// What a transaction does to one key.
#[derive(Drop)]
pub struct Change {
    /// The engine's kind.
    pub kind: u8,
    pub key: Bytes,
    /// The value that the key gets; None where it is removed.
    pub value: Option<Bytes>,
}

/// A list of changes that owns them.
#[derive(Drop)]
pub struct Changes {
    items: Vec<Change>,
}

impl Model for Changes {
    ghost use Rattle.std.specs.Prelude.{List};
    ghost use Rattle.store_records.specs.declared.change.Change.{Change};

    ghost Value = { List Change };

    ghost view = { λ a. a.items.items };
}

impl Changes {
    /// The list of these changes, which are not copied.
    pub fn from_vec(items: Vec<Change>) -> Changes
        ensures { result ≡ items.items }
    {
        Changes { items }
    }

    /// The changes, which are not copied.
    pub fn into_vec(self) -> Vec<Change>
        ensures { result.items ≡ self }
    {
        let Changes { items } = self;
        items
    }
}

/// A transaction: changes that are made one after another, and the cursor that stands with them.
#[derive(Drop)]
pub struct Commit {
    pub cursor: u64,
    pub changes: Changes,
}
