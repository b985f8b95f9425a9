//! The tables in memory: a map from pairs of a table and a key to values.
ghost use Rattle.std.specs.Prelude.{◌≡◌, OnOk, OnErr};
ghost use Rattle.std.specs.Option.{option_copied};
ghost use Rattle.std.specs.FinMap as map;
ghost use Rattle.snap_reads.specs.Tables.{changed};
ghost use Rattle.snap_reads.specs.Nested.{by_text, flat};

use crate::change::Change;
use delos_types::bytes::Bytes;
use std::alloc::{AllocError, Global};
use std::collections::BTreeMap;
use std::marker::Model;

/// The keys of one table with their values.
#[derive(Drop)]
pub(crate) struct Rows {
    entries: BTreeMap<Vec<u8>, Bytes>,
}

impl Model for Rows {
    ghost use Rattle.std.specs.Coded.{coded_list, coded_ℕ};
    ghost use Rattle.std.specs.FinMap as map;
    ghost use Rattle.delos_types.specs.Spaces.{text_cmp, Text};
    ghost use Rattle.snap_reads.specs.Nested.{by_text};

    ghost Value = { map.FinMap text_cmp Text };

    ghost coded = { map.code (coded_list coded_ℕ) (coded_list coded_ℕ) };

    ghost view = { λ r. map.from_entries (by_text r.entries.entries) };
}

/// Tables of keys with values. A look-up takes the names as they are borrowed, and O(log n) comparisons.
#[derive(Drop)]
pub struct Tables {
    alloc: Global,
    tables: BTreeMap<Vec<u8>, Rows>,
}

impl Model for Tables {
    ghost use Rattle.std.specs.Coded.{coded×, coded_list, coded_ℕ};
    ghost use Rattle.std.specs.FinMap as map;
    ghost use Rattle.snap_reads.specs.Tables.{TablesMap};
    ghost use Rattle.snap_reads.specs.Nested.{by_text, flat};

    ghost Value = { TablesMap };

    ghost coded = { map.code (coded× (coded_list coded_ℕ) (coded_list coded_ℕ)) (coded_list coded_ℕ) };

    ghost view = { λ t. flat (by_text t.tables.entries) };
}

impl Rows {
    fn new(alloc: Global) -> Rows
        ensures { result ≡ map.empty }
    {
        Rows {
            entries: BTreeMap::new(alloc),
        }
    }

    fn get(&self, key: &[u8]) -> Option<&Bytes>
        ensures { option_copied result ≡ map.get self.now key.now }
    {
        self.entries.get(key)
    }

    fn set(&mut self, alloc: Global, key: &[u8], value: Bytes) -> Result<(), AllocError>
        ensures ok { OnOk result (self.new ≡ map.insert self.old key.now value) }
        ensures err { OnErr result (self.new ≡ self.old) }
    {
        if let Some(place) = self.entries.get_mut(key) {
            *place = value;
            return Ok(());
        }
        let key = Vec::from_slice(alloc, key)?;
        self.entries.insert(key, value)?;
        Ok(())
    }

    fn remove(&mut self, key: &[u8])
        ensures { self.new ≡ map.remove self.old key.now }
    {
        let _ = self.entries.remove(key);
    }
}

impl Tables {
    /// No table with a key, which takes no memory.
    pub fn new(alloc: Global) -> Tables
        ensures { result ≡ map.empty }
    {
        Tables {
            alloc,
            tables: BTreeMap::new(alloc),
        }
    }

    /// The value of a key in a table.
    pub fn get(&self, table: &[u8], key: &[u8]) -> Option<&Bytes>
        ensures { option_copied result ≡ map.get self.now (table.now, key.now) }
    {
        match self.tables.get(table) {
            Some(rows) => rows.get(key),
            None => None,
        }
    }

    /// Nothing is in any table from here on.
    pub fn clear(&mut self)
        ensures { self.new ≡ map.empty }
    {
        self.tables = BTreeMap::new(self.alloc);
    }

    /// Makes one change. Where memory runs out nothing has changed.
    pub fn change(&mut self, change: &Change) -> Result<(), AllocError>
        ensures ok { OnOk result (self.new ≡ changed self.old change.now) }
        ensures err { OnErr result (self.new ≡ self.old) }
    {
        let table = change.table.as_slice();
        let key = change.key.as_slice();
        match &change.value {
            Some(value) => {
                let value = value.clone()?;
                self.set(table, key, value)
            }
            None => {
                self.remove(table, key);
                Ok(())
            }
        }
    }

    fn set(&mut self, table: &[u8], key: &[u8], value: Bytes) -> Result<(), AllocError>
        ensures ok { OnOk result (self.new ≡ map.insert self.old (table.now, key.now) value) }
        ensures err { OnErr result (self.new ≡ self.old) }
    {
        set_in(&mut self.tables, self.alloc, table, key, value)
    }

    fn remove(&mut self, table: &[u8], key: &[u8])
        ensures { self.new ≡ map.remove self.old (table.now, key.now) }
    {
        remove_in(&mut self.tables, table, key);
    }
}

type Nested = BTreeMap<Vec<u8>, Rows>;

// Only a table without a key yet is made room for.
fn set_in(
    tables: &mut Nested,
    alloc: Global,
    table: &[u8],
    key: &[u8],
    value: Bytes,
) -> Result<(), AllocError>
    ensures ok { OnOk result (flat (by_text tables.new.entries) ≡ map.insert (flat (by_text tables.old.entries)) (table.now, key.now) value) }
    ensures err { OnErr result (flat (by_text tables.new.entries) ≡ flat (by_text tables.old.entries)) }
{
    if let Some(rows) = tables.get_mut(table) {
        return rows.set(alloc, key, value);
    }
    let mut rows = Rows::new(alloc);
    rows.set(alloc, key, value)?;
    let table = Vec::from_slice(alloc, table)?;
    tables.insert(table, rows)?;
    Ok(())
}

fn remove_in(tables: &mut Nested, table: &[u8], key: &[u8])
    ensures { flat (by_text tables.new.entries) ≡ map.remove (flat (by_text tables.old.entries)) (table.now, key.now) }
{
    if let Some(rows) = tables.get_mut(table) {
        rows.remove(key);
    }
}
