//! What a log server is asked and what it answers, and the messages that carry both.
ghost use Rattle.std.specs.Prelude.{◌≡◌};

use delos_types::entry::Entry;
use delos_types::numbers::Ticket;
use std::alloc::AllocError;

/// What a log server is asked. Places count entries from 0.
#[derive(Drop)]
pub enum Ask {
    /// To take this entry at this place, unless it is sealed.
    Store(u64, Entry),
    /// To take no more stores.
    Seal,
    /// How long its log is.
    Tail,
    /// To take this entry at this place, if it is sealed.
    Repair(u64, Entry),
    /// The entry at this place.
    Read(u64),
    /// To let go of the entries below this place.
    Trim(u64),
}

impl Clone for Ask {
    ghost is_clone = { λ x y. y ≡ x };

    fn clone(&self) -> Result<Ask, AllocError> {
        match self {
            Ask::Store(place, entry) => Ok(Ask::Store(*place, entry.clone()?)),
            Ask::Seal => Ok(Ask::Seal),
            Ask::Tail => Ok(Ask::Tail),
            Ask::Repair(place, entry) => Ok(Ask::Repair(*place, entry.clone()?)),
            Ask::Read(place) => Ok(Ask::Read(*place)),
            Ask::Trim(place) => Ok(Ask::Trim(*place)),
        }
    }
}

/// What a log server answers. A length is one more than the last place that it has or had.
#[derive(Drop)]
pub enum Told {
    /// It is down.
    Down,
    /// It is sealed, and this long.
    Sealed(u64),
    /// It isn't sealed, and this long.
    Unsealed(u64),
    /// It is only this long, so the entry would leave a gap.
    Behind(u64),
    /// It has an entry there, and is this long.
    Ack(u64),
    /// It let go of the entries below this place.
    Cut(u64),
    /// It is only this long, so it has no entry there.
    Short(u64),
    /// The entry there.
    Got(Entry),
    /// It has no entries below this place.
    Trimmed(u64),
    /// Its disk failed, and it is down.
    DiskFault,
}

impl Clone for Told {
    ghost is_clone = { λ x y. y ≡ x };

    fn clone(&self) -> Result<Told, AllocError> {
        match self {
            Told::Down => Ok(Told::Down),
            Told::Sealed(length) => Ok(Told::Sealed(*length)),
            Told::Unsealed(length) => Ok(Told::Unsealed(*length)),
            Told::Behind(length) => Ok(Told::Behind(*length)),
            Told::Ack(length) => Ok(Told::Ack(*length)),
            Told::Cut(base) => Ok(Told::Cut(*base)),
            Told::Short(length) => Ok(Told::Short(*length)),
            Told::Got(entry) => Ok(Told::Got(entry.clone()?)),
            Told::Trimmed(base) => Ok(Told::Trimmed(*base)),
            Told::DiskFault => Ok(Told::DiskFault),
        }
    }
}

/// A message of an operation to a server.
#[derive(Drop)]
pub struct Request {
    pub ticket: Ticket,
    pub server: u32,
    pub ask: Ask,
}

impl Clone for Request {
    ghost is_clone = { λ x y. y ≡ x };

    fn clone(&self) -> Result<Request, AllocError> {
        let ask = self.ask.clone()?;
        Ok(Request {
            ticket: self.ticket,
            server: self.server,
            ask,
        })
    }
}

/// The server's message back, which says what was asked too.
#[derive(Drop)]
pub struct Reply {
    pub ticket: Ticket,
    pub server: u32,
    pub ask: Ask,
    pub told: Told,
}

impl Clone for Reply {
    ghost is_clone = { λ x y. y ≡ x };

    fn clone(&self) -> Result<Reply, AllocError> {
        let ask = self.ask.clone()?;
        let told = self.told.clone()?;
        Ok(Reply {
            ticket: self.ticket,
            server: self.server,
            ask,
            told,
        })
    }
}
