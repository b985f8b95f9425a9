//! The loglet of a kind.
ghost use Rattle.std.specs.Prelude.{◌≡◌, IfOk};
ghost use Rattle.loglet_api.specs.View.{IsFresh};
ghost use Rattle.shelf_loglets.specs.Shelf.{AreRooms, IsRunning, view_of, serving_in, kind_for, room_for, servers_for};
ghost use Rattle.shelf_loglets.specs.Stripes.{new_servers};

use crate::striped::{Native, nested, striped};
use delos_types::numbers::Ticket;
use disk_model::MemDisk;
use file_loglet::file::FileLoglet;
use file_loglet::memory as file;
use loglet_api::call;
use loglet_api::call::{Answer, Op, Refused};
use loglet_api::loglet::Loglet;
use native_loglet::memory as native;
use script_words::shelf::Kind;
use std::alloc::{AllocError, Global};
use striped_loglet::striped::StripedLoglet;

/// A loglet of a shelf, on disks in memory.
#[derive(Drop)]
pub enum ShelfLoglet {
    File(FileLoglet<MemDisk>),
    Native(Native),
    Striped(StripedLoglet<Native>),
    Nested(StripedLoglet<StripedLoglet<Native>>),
}

/// A call of the loglet inside.
macro_rules! inside {
    ($shelved:expr, $loglet:ident => $call:expr) => {
        match $shelved {
            ShelfLoglet::File($loglet) => $call,
            ShelfLoglet::Native($loglet) => $call,
            ShelfLoglet::Striped($loglet) => $call,
            ShelfLoglet::Nested($loglet) => $call,
        }
    };
}

impl Loglet for ShelfLoglet {
    ghost view = { view_of };

    ghost serving = { serving_in };

    fn kind(&self) -> call::Kind {
        inside!(self, loglet => loglet.kind())
    }

    fn servers(&self) -> u32 {
        inside!(self, loglet => loglet.servers())
    }

    fn room(&self) -> u64 {
        inside!(self, loglet => loglet.room())
    }

    fn rounds(&self) -> u32 {
        inside!(self, loglet => loglet.rounds())
    }

    fn limit(&self) -> u64 {
        inside!(self, loglet => loglet.limit())
    }

    fn faults(&self) -> u64 {
        inside!(self, loglet => loglet.faults())
    }

    fn down(&self) -> u32 {
        inside!(self, loglet => loglet.down())
    }

    fn begin(&mut self, op: Op) -> Result<Ticket, Refused> {
        inside!(self, loglet => loglet.begin(op))
    }

    fn carry(&mut self, ticket: Ticket, word: u64) -> Result<(), Refused> {
        inside!(self, loglet => loglet.carry(ticket, word))
    }

    fn take(&mut self, ticket: Ticket) -> Option<Answer> {
        inside!(self, loglet => loglet.take(ticket))
    }

    fn forget(&mut self, ticket: Ticket) {
        inside!(self, loglet => loglet.forget(ticket))
    }

    fn left(&self, ticket: Ticket) -> (u32, u64) {
        inside!(self, loglet => loglet.left(ticket))
    }

    fn stray(&mut self, word: u64) -> Result<(), Refused> {
        inside!(self, loglet => loglet.stray(word))
    }

    fn stop(&mut self, server: u32, after: u64) {
        inside!(self, loglet => loglet.stop(server, after))
    }

    fn restart(&mut self, server: u32, word: u64) -> Result<bool, Refused> {
        inside!(self, loglet => loglet.restart(server, word))
    }
}

/// How many entries loglets take.
#[derive(Clone, Copy)]
pub struct Rooms {
    /// A file loglet or a native one: 1 to 2^32.
    pub single: u64,
    /// Each native loglet of a striped one: 1 to 2^29.
    pub inner: u64,
}

/// An empty loglet of a kind, on fresh disks in memory. No call of such a disk fails before one is
/// armed, so want of memory is why there is none.
pub fn loglet_of(alloc: Global, kind: Kind, rooms: Rooms) -> Result<ShelfLoglet, AllocError>
    requires rooms { AreRooms rooms }
    ensures fresh { IfOk result (λ made. IsFresh (view_of made)) }
    ensures kind { IfOk result (λ made. (view_of made).kind ≡ kind_for kind) }
    ensures room { IfOk result (λ made. (view_of made).room ≡ room_for rooms kind) }

    // It has as many servers as its kind says, all of them up, none armed, reopened or failed; nothing was asked of them or of it.
    ensures servers { IfOk result (λ made. serving_in made ≡ new_servers (servers_for kind)) }
    ensures running { IfOk result IsRunning }
{
    let Rooms { single, inner } = rooms;
    Ok(match kind {
        Kind::File => ShelfLoglet::File(file::in_memory(alloc, single)?),
        Kind::Native1 => ShelfLoglet::Native(native::in_memory(alloc, 1, single)?),
        Kind::Native3 => ShelfLoglet::Native(native::in_memory(alloc, 3, single)?),
        Kind::Native5 => ShelfLoglet::Native(native::in_memory(alloc, 5, single)?),
        Kind::Native7 => ShelfLoglet::Native(native::in_memory(alloc, 7, single)?),
        Kind::Striped2 => ShelfLoglet::Striped(striped(alloc, 2, inner)?),
        Kind::Striped3 => ShelfLoglet::Striped(striped(alloc, 3, inner)?),
        Kind::Striped4 => ShelfLoglet::Striped(striped(alloc, 4, inner)?),
        Kind::Striped5 => ShelfLoglet::Striped(striped(alloc, 5, inner)?),
        Kind::Striped6 => ShelfLoglet::Striped(striped(alloc, 6, inner)?),
        Kind::Striped7 => ShelfLoglet::Striped(striped(alloc, 7, inner)?),
        Kind::Striped8 => ShelfLoglet::Striped(striped(alloc, 8, inner)?),
        Kind::Nested => ShelfLoglet::Nested(nested(alloc, inner)?),
    })
}
