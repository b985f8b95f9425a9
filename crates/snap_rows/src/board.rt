//! A published map and its readers.
ghost use Rattle.std.specs.Prelude.{◌≡◌, ◌^◌, ◌<◌, ◌+◌, IfOk, IfSome};
ghost use Rattle.snap_reads.specs.Tables.{StartsWith};

use snap_reads::{Changes, Peeker, Refused, Seen, Snap, Untold};
use std::alloc::{AllocError, Global};
use std::marker::Model;
use std::sync::Wait;

/// A `Snap` that knows which position was published or owed last, or was to be.
#[derive(Drop)]
pub struct Desk<W: Wait + Drop> {
    snap: Snap<W>,
    last: u64,
}

impl<W: Wait + Drop> Model for Desk<W> {
    ghost use Rattle.std.specs.Prelude.{◌≤◌, ◌++◌};
    ghost use Rattle.snap_reads.specs.Tables.{last_position};
    ghost use Rattle.snap_reads.specs.Views.{Shelf};

    ghost Value = { Shelf };

    ghost view = { λ d. d.snap };

    ghost invariant = { λ d. last_position (d.snap.published ++ d.snap.owed) ≤ d.last };
}

/// Why nothing was published.
#[derive(Clone, Copy, Debug, PartialEq, Eq)]
pub enum Unshown {
    /// The position is below the last.
    Low,
    /// The changes were not taken up, for want of memory.
    NotTaken,
    /// They go out with the next, for want of memory.
    Owed,
}

impl<W: Wait + Drop> Desk<W> {
    /// Empty tables, with room for so many readers.
    pub fn new(alloc: Global, rt: W, readers: u32) -> Result<Desk<W>, AllocError>
        requires { readers + 1 < 2 ^ 32 }
    {
        let snap = Snap::new(alloc, rt, readers)?;
        Ok(Desk { snap, last: 0 })
    }

    /// Publishes changes at a position, unless it is below the last.
    pub fn publish(&mut self, pos: u64, changes: &Changes) -> Result<(), Unshown>
        ensures { StartsWith self.new.published self.old.published }
    {
        if pos < self.last {
            return Err(Unshown::Low);
        }
        self.last = pos;
        match self.snap.publish(pos, changes) {
            Ok(()) => Ok(()),
            Err(Refused::NotTaken) => Err(Unshown::NotTaken),
            Err(Refused::Owed) => Err(Unshown::Owed),
        }
    }

    /// A reader, where there is room.
    pub fn peeker(&mut self) -> Result<Option<Peeker>, AllocError>
        ensures same { self.new ≡ self.old }
        ensures told { IfOk result (λ peeker. IfSome peeker (λ p. p.told ≡ self.old.published)) }
    {
        self.snap.peeker()
    }

    /// Tells a reader of all that was published.
    pub fn tell(&mut self, peeker: &mut Peeker) -> Result<(), Untold>
        requires { StartsWith self.old.published peeker.old.told }
        ensures same { self.new ≡ self.old }
        ensures told { StartsWith self.new.published peeker.new.told }
    {
        self.snap.tell(peeker)
    }
}

/// A published map and its readers.
#[derive(Drop)]
pub struct Board<W: Wait + Drop> {
    desk: Desk<W>,
    readers: Vec<Peeker>,
}

impl<W: Wait + Drop> Model for Board<W> {
    ghost use Rattle.std.specs.Prelude.{All};
    ghost use Rattle.snap_reads.specs.Tables.{StartsWith};
    ghost use Rattle.snap_reads.specs.Views.{Shelf};

    ghost Value = { Shelf };

    ghost view = { λ b. b.desk };

    ghost invariant = { λ b. All (λ p. StartsWith b.desk.published p.told) b.readers.items };
}

impl<W: Wait + Drop> Board<W> {
    /// Empty tables, with room for so many readers, and no reader yet.
    pub fn new(alloc: Global, rt: W, readers: u32) -> Result<Board<W>, AllocError>
        requires { readers + 1 < 2 ^ 32 }
    {
        let desk = Desk::new(alloc, rt, readers)?;
        Ok(Board {
            desk,
            readers: Vec::new(alloc),
        })
    }

    /// One reader more, behind those that are there. None where there is no room.
    pub fn reader(&mut self) -> Result<Option<usize>, AllocError> {
        let Some(peeker) = self.desk.peeker()? else {
            return Ok(None);
        };
        let at = self.readers.len();
        self.readers.push(peeker)?;
        Ok(Some(at))
    }

    /// Lets go of the last reader, if there is one.
    pub fn let_go(&mut self) -> bool {
        self.readers.pop().is_some()
    }

    /// Publishes changes at a position, unless it is below the last.
    pub fn publish(&mut self, pos: u64, changes: &Changes) -> Result<(), Unshown> {
        self.desk.publish(pos, changes)
    }

    /// Tells a reader of all that was published. None where there is no such reader.
    pub fn tell(&mut self, at: usize) -> Option<Result<(), Untold>> {
        let peeker = self.readers.get_mut(at)?;
        Some(self.desk.tell(peeker))
    }

    /// What a reader sees. None where there is no such reader.
    pub fn see(
        &mut self,
        at: usize,
        table: &[u8],
        key: &[u8],
    ) -> Option<Result<Option<Seen>, AllocError>> {
        let peeker = self.readers.get_mut(at)?;
        Some(peeker.see(table, key))
    }
}
