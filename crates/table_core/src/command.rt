//! What can be asked of the table, and what it answers.
use delos_types::bytes::Bytes;
use std::marker::Model;

/// A command that is logged. A key has 1 to 64 bytes and a value 1 to 256 where a script gives them.
#[derive(Clone, Drop, Debug, PartialEq, Eq)]
pub enum Command {
    /// The key has the value from here on.
    Put { key: Bytes, value: Bytes },
    /// The key has no value from here on.
    Del { key: Bytes },
    /// Where the key has the value `old`, it has `new` from here on.
    Cas { key: Bytes, old: Bytes, new: Bytes },
    /// The key's number grows by the amount; a key without a value counts as 0.
    Add { key: Bytes, amount: i64 },
}

/// What a logged command is answered.
#[derive(Clone, Drop, Debug, PartialEq, Eq)]
pub enum Reply {
    /// It was done.
    Done,
    /// There is no value at its key.
    Absent,
    /// There is another value at its key, this one; nothing was changed.
    Was(Bytes),
    /// The key's number is this one now.
    Number(i64),
    /// The sum leaves the range of `i64`; nothing was changed.
    Full,
    /// The value at its key isn't the decimal text of an `i64`; nothing was changed.
    NotNumber,
}

/// What a read asks of the table.
#[derive(Drop, Debug)]
pub enum Query {
    /// The value at a key.
    Get { key: Bytes },
    /// The keys from `low` on, below `high`, in byte order, with their values.
    Scan { low: Bytes, high: Bytes },
}

/// A key and its value.
#[derive(Drop, Debug)]
pub struct Pair {
    pub key: Bytes,
    pub value: Bytes,
}

/// Keys with their values, in byte order of the keys.
#[derive(Drop)]
pub struct Pairs {
    items: Vec<Pair>,
}

impl Model for Pairs {
    ghost use Rattle.std.specs.Prelude.{List};
    ghost use Rattle.table_core.specs.declared.command.Pair.{Pair};

    ghost Value = { List Pair };

    ghost view = { λ p. p.items.items };
}

impl Pairs {
    ghost use Rattle.std.specs.Prelude.{◌≡◌};

    /// The list of these pairs, which are not copied.
    pub fn from_vec(items: Vec<Pair>) -> Pairs
        ensures { result ≡ items.items }
    {
        Pairs { items }
    }

    pub fn as_slice(&self) -> &[Pair]
        ensures { result.now ≡ self.now }
    {
        self.items.as_slice()
    }
}

/// What a read is answered.
#[derive(Drop)]
pub enum Found {
    /// There is no value at the key.
    Nothing,
    /// The value at the key.
    Value(Bytes),
    /// What a scan found.
    All(Pairs),
}
