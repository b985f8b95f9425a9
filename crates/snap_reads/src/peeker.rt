//! A reader's end.
ghost use Rattle.std.specs.Prelude.{◌≡◌, ◌≤◌, length, IfOk, IfSome};
ghost use Rattle.std.specs.Arc.{arc_value};
ghost use Rattle.std.specs.Option.{option_copied};
ghost use Rattle.std.specs.FinMap as map;
ghost use Rattle.left_right.specs.Sides as sides;
ghost use Rattle.snap_reads.specs.Tables.{tables_after, last_position, StartsWith};
ghost use Rattle.snap_reads.specs.Views.{peek_of};

use crate::rule::{Sees, ShownReader};
use crate::shown::Shown;
use core::mem::replace_with;
use delos_types::bytes::Bytes;
use std::alloc::AllocError;
use std::marker::Model;
use std::sync::Arc;

/// What a look sees: the position of what was published last, 0 where nothing was, and the value.
#[derive(Drop, Debug)]
pub struct Seen {
    pub pos: u64,
    pub value: Option<Bytes>,
}

/// A reader of one `Snap`, which may go to another thread. Contracts see what it was told of, and what it knows: the list that it
/// saw last, or was told of since.
#[derive(Drop)]
pub struct Peeker {
    reader: ShownReader,
    // How many it was told of.
    mark: Arc<u64>,
}

impl Model for Peeker {
    ghost use Rattle.std.specs.Prelude.{◌≡◌, length};
    ghost use Rattle.std.specs.Arc.{arc_value};
    ghost use Rattle.left_right.specs.Sides as sides;
    ghost use Rattle.snap_reads.specs.Views.{Peek, peek_of};

    ghost Value = { Peek };

    ghost view = { λ p. peek_of (sides.view p.reader.place) };

    ghost invariant = { λ p. arc_value p.mark ≡ length (sides.view p.reader.place).told };
}

impl Peeker {
    pub(crate) fn new(reader: ShownReader, mark: Arc<u64>) -> Peeker
        requires { arc_value mark ≡ length (sides.view reader.place).told }
        ensures { result ≡ peek_of (sides.view reader.place) }
    {
        Peeker { reader, mark }
    }

    /// Of how many it was told.
    pub(crate) fn told(&self) -> u64
        ensures { result ≡ length self.now.told }
    {
        *self.mark
    }

    pub(crate) fn into_reader(self) -> ShownReader
        ensures { peek_of (sides.view result.place) ≡ self }
    {
        let Peeker {
            reader,
            mark: _mark,
        } = self;
        reader
    }

    /// What the tables have at a key, and the position of what was published last, as they were shown at one moment during the
    /// call. It waits for nobody, takes the names as they are borrowed, and memory for a copy of the value alone. None where no
    /// reading was lent, of which the store underneath names no cause.
    pub fn see(&mut self, table: &[u8], key: &[u8]) -> Result<Option<Seen>, AllocError>
        ensures told { self.new.told ≡ self.old.told }
        ensures later { StartsWith self.new.knows self.old.knows }
        ensures pos { IfOk result (λ seen. IfSome seen (λ s. s.pos ≡ last_position self.new.knows)) }
        ensures value { IfOk result (λ seen. IfSome seen (λ s. s.value ≡ map.get (tables_after self.new.knows) (table.now, key.now))) }
        ensures rises { IfOk result (λ seen. IfSome seen (λ s. last_position self.old.knows ≤ s.pos)) }
    {
        let names = (table, key);
        replace_with(&mut self.reader, names, |reader, names| {
            look(reader, names.0, names.1)
        })
    }
}

// What is shown at a key.
fn seen_in(shown: &Shown, table: &[u8], key: &[u8]) -> Result<Seen, AllocError>
    ensures pos { IfOk result (λ s. s.pos ≡ shown.now.pos) }
    ensures value { IfOk result (λ s. s.value ≡ map.get shown.now.tables (table.now, key.now)) }
{
    let value = match shown.tables.get(table, key) {
        Some(value) => Some(value.clone()?),
        None => None,
    };
    Ok(Seen {
        pos: shown.pos,
        value,
    })
}

// One look.
fn look(
    reader: ShownReader,
    table: &[u8],
    key: &[u8],
) -> (ShownReader, Result<Option<Seen>, AllocError>)
    ensures told { (peek_of (sides.view result.0.place)).told ≡ (peek_of (sides.view reader.place)).told }
    ensures later { StartsWith (peek_of (sides.view result.0.place)).knows (peek_of (sides.view reader.place)).knows }
    ensures pos { IfOk result.1 (λ seen. IfSome seen (λ s. s.pos ≡ last_position (peek_of (sides.view result.0.place)).knows)) }
    ensures value { IfOk result.1 (λ seen. IfSome seen (λ s. s.value ≡ map.get (tables_after (peek_of (sides.view result.0.place)).knows) (table.now, key.now))) }
    ensures rises { IfOk result.1 (λ seen. IfSome seen (λ s. last_position (peek_of (sides.view reader.place)).knows ≤ s.pos)) }
{
    match reader.enter_as::<Sees>() {
        Ok(reading) => {
            let seen = seen_in(reading.get(), table, key);
            let reader = reading.leave();
            match seen {
                Ok(seen) => (reader, Ok(Some(seen))),
                Err(e) => (reader, Err(e)),
            }
        }
        Err(reader) => (reader, Ok(None)),
    }
}
