// The table in memory.
ghost use Rattle.std.specs.Prelude.{◌≡◌, ◌<◌, ◌^◌, length, IfOk, OnOk, OnErr};
ghost use Rattle.std.specs.Option.{option_copied};
ghost use Rattle.std.specs.FinMap as map;
ghost use Rattle.table_core.specs.Table.{Acts, key_of};
ghost use Rattle.table_core.specs.Find.{find_in, pairs_between, pairs_of};

use crate::command::{Command, Found, Pair, Pairs, Query, Reply};
use crate::decide::{Change, Decision, decide};
use delos_types::bytes::Bytes;
use std::alloc::{AllocError, Global};
use std::collections::BTreeMap;
use std::collections::btree_map::{Iter, Range};
use std::marker::Model;

/// A map from keys to values, both of them texts of bytes, in byte order of the keys.
#[derive(Drop)]
pub struct Table {
    entries: BTreeMap<Bytes, Bytes>,
}

impl Model for Table {
    ghost use Rattle.std.specs.Coded.{coded_list, coded_ℕ};
    ghost use Rattle.std.specs.FinMap as map;
    ghost use Rattle.delos_types.specs.Spaces.{text_cmp, Text};

    ghost Value = { map.FinMap text_cmp Text };

    ghost coded = { map.code (coded_list coded_ℕ) (coded_list coded_ℕ) };

    ghost view = { λ a. map.from_entries a.entries.entries };
}

impl Table {
    /// The table without a key, which takes no memory.
    pub fn new(alloc: Global) -> Table
        ensures { result ≡ map.empty }
    {
        Table {
            entries: BTreeMap::new(alloc),
        }
    }

    /// The value at a key. It takes O(log n) comparisons in a table of n keys.
    pub fn get(&self, key: &Bytes) -> Option<&Bytes>
        ensures { option_copied result ≡ map.get self.now key.now }
    {
        self.entries.get(key)
    }

    /// The keys from `low` on, below `high`, in byte order, with copies of their values; none where
    /// `high` isn't above `low`. It takes O(log n) comparisons in a table of n keys, and then time
    /// that grows with what is found.
    pub fn scan(&self, alloc: Global, low: &Bytes, high: &Bytes) -> Result<Pairs, AllocError>
        ensures { IfOk result (λ found. found ≡ pairs_between self.now low.now high.now) }
    {
        if low >= high {
            return Ok(Pairs::from_vec(Vec::new(alloc)));
        }
        copies(alloc, self.entries.range(low..high))
    }

    /// All keys in byte order, with their values. Nothing is copied.
    pub fn iter(&self) -> Iter<'_, Bytes, Bytes>
        ensures entries { result ≡ map.entries self.now }
        ensures fits { length result < 2 ^ 63 }
    {
        self.entries.iter()
    }

    /// What the table answers to a read, at the cost of `get` and a copy, or of `scan`.
    pub fn read(&self, alloc: Global, query: &Query) -> Result<Found, AllocError>
        ensures { IfOk result (λ found. found ≡ find_in self.now query.now) }
    {
        match query {
            Query::Get { key } => match self.get(key) {
                None => Ok(Found::Nothing),
                Some(value) => Ok(Found::Value(value.clone()?)),
            },
            Query::Scan { low, high } => Ok(Found::All(self.scan(alloc, low, high)?)),
        }
    }

    fn set(&mut self, key: Bytes, value: Bytes) -> Result<(), AllocError>
        ensures ok { OnOk result (self.new ≡ map.insert self.old key value) }
        ensures err { OnErr result (self.new ≡ self.old) }
    {
        self.entries.insert(key, value)?;
        Ok(())
    }

    fn remove(&mut self, key: &Bytes)
        ensures { self.new ≡ map.remove self.old key.now }
    {
        let _ = self.entries.remove(key);
    }

    /// Does a command, and answers as the table says. It takes O(log n) comparisons in a table of n
    /// keys, and time that grows with the command and the value at its key. Where memory runs out
    /// nothing has changed.
    pub fn act(&mut self, alloc: Global, command: &Command) -> Result<Reply, AllocError>
        ensures ok { IfOk result (λ reply. Acts self.old command.now reply self.new) }
        ensures err { OnErr result (self.new ≡ self.old) }
    {
        let key = key_of(command);
        let decision = decide(alloc, command, self.get(key))?;
        let Decision { change, reply } = decision;
        match change {
            Change::Keep => Ok(reply),
            Change::Set(value) => {
                let key = key.clone()?;
                self.set(key, value)?;
                Ok(reply)
            }
            Change::Remove => {
                self.remove(key);
                Ok(reply)
            }
        }
    }
}

// Copies of the entries of a range.
fn copies(alloc: Global, entries: Range<'_, Bytes, Bytes>) -> Result<Pairs, AllocError>
    ensures { IfOk result (λ pairs. pairs ≡ pairs_of entries.entry) }
{
    let mut pairs = Vec::new(alloc);
    for (key, value) in entries {
        let key = key.clone()?;
        let value = value.clone()?;
        pairs.push(Pair { key, value })?;
    }
    Ok(Pairs::from_vec(pairs))
}

// The key that a command speaks of.
fn key_of(command: &Command) -> &Bytes
    ensures { result.now ≡ key_of command.now }
{
    match command {
        Command::Put { key, .. } => key,
        Command::Del { key } => key,
        Command::Cas { key, .. } => key,
        Command::Add { key, .. } => key,
    }
}
