//! A log server: what it holds, what it tells, and what it holds afterwards.
ghost use Rattle.std.specs.Prelude.{◌≡◌, ℕ, ◌+◌, ◌-◌, ◌^◌, ◌<◌, ◌≤◌, [], length, drop, true, false, OnOk, IfOk, None, Some};
ghost use Rattle.std.specs.Option.{ForSome};
ghost use Rattle.quorum_cell.specs.declared.message.Ask.TheVariants.{Read};
ghost use Rattle.quorum_cell.specs.Servers.{told_up, told as told_by, writes as writes_of, written, restarted as restarted_by, length_of, is_sealed as is_sealed_by, told_place as told_place_of};
ghost use Rattle.cell_steps.specs.Serving.{AskFits};

use delos_types::entry::Entry;
use quorum_cell::message::{Ask, Told};
use std::alloc::{AllocError, Global};
use std::marker::Model;

/// A log server: the entries that it holds, whether it is sealed, and whether it is up.
#[derive(Drop)]
pub struct ServerState {
    base: u64,
    entries: Vec<Entry>,
    sealed_at: Option<u64>,
    up: bool,
    torn: Option<Ask>,
}

impl Model for ServerState {
    ghost use Rattle.std.specs.Prelude.{◌≤◌, ◌^◌};
    ghost use Rattle.quorum_cell.specs.Servers.{Server};

    ghost Value = { Server };

    ghost view = { λ s. record { base = s.base; entries = s.entries.items; sealed_at = s.sealed_at; up = s.up; torn = s.torn } };

    ghost invariant = { λ s. s.base ≤ 2 ^ 32 };
}

impl Clone for ServerState {
    ghost is_clone = { λ x y. y ≡ x };

    fn clone(&self) -> Result<ServerState, AllocError> {
        let entries = self.entries.clone()?;
        let torn = self.torn.clone()?;
        Ok(ServerState {
            base: self.base,
            entries,
            sealed_at: self.sealed_at,
            up: self.up,
            torn,
        })
    }
}

impl ServerState {
    /// An empty server that is up.
    pub fn new(alloc: Global) -> ServerState
        ensures { result ≡ record { base = 0; entries = []; sealed_at = None; up = true; torn = None } }
    {
        ServerState {
            base: 0,
            entries: Vec::new(alloc),
            sealed_at: None,
            up: true,
            torn: None,
        }
    }

    /// The entries below this place were let go.
    pub fn base(&self) -> u64
        ensures { result ≡ self.now.base }
    {
        self.base
    }

    /// How long it was as it was sealed, if it was.
    pub fn sealed_at(&self) -> Option<u64>
        ensures { result ≡ self.now.sealed_at }
    {
        self.sealed_at
    }

    /// One more than the last place that it has or had.
    pub fn length(&self) -> u64
        ensures exact { result ≡ length_of self.now }
        ensures below { result + 1 < 2 ^ 64 }
    {
        self.base + self.entries.len() as u64
    }

    pub fn is_up(&self) -> bool
        ensures { result ≡ self.now.up }
    {
        self.up
    }

    pub fn is_sealed(&self) -> bool
        ensures { result ≡ is_sealed_by self.now }
    {
        self.sealed_at.is_some()
    }

    /// Its answer to what it is asked.
    pub fn told(&self, ask: &Ask) -> Result<Told, AllocError>
        ensures { IfOk result (λ told. told ≡ told_by self.now ask.now) }
    {
        if self.up {
            self.told_up(ask)
        } else {
            Ok(Told::Down)
        }
    }

    fn told_up(&self, ask: &Ask) -> Result<Told, AllocError>
        ensures { IfOk result (λ told. told ≡ told_up self.now ask.now) }
    {
        let length = self.length();
        let sealed = self.sealed_at.is_some();
        match ask {
            Ask::Store(place, _) => {
                if sealed {
                    Ok(Told::Sealed(length))
                } else {
                    Ok(told_place(*place, length))
                }
            }
            Ask::Seal => Ok(Told::Sealed(length)),
            Ask::Tail => {
                if sealed {
                    Ok(Told::Sealed(length))
                } else {
                    Ok(Told::Unsealed(length))
                }
            }
            Ask::Repair(place, _) => {
                if sealed {
                    Ok(told_place(*place, length))
                } else {
                    Ok(Told::Unsealed(length))
                }
            }
            Ask::Read(place) => self.told_entry(*place),
            Ask::Trim(place) => Ok(Told::Trimmed(self.base.max(*place))),
        }
    }

    fn told_entry(&self, place: u64) -> Result<Told, AllocError>
        ensures { IfOk result (λ told. told ≡ told_up self.now (Read place)) }
    {
        if place < self.base {
            return Ok(Told::Cut(self.base));
        }
        match self.entries.get((place - self.base) as usize) {
            Some(entry) => Ok(Told::Got(entry.clone()?)),
            None => Ok(Told::Short(self.length())),
        }
    }

    /// Whether its answer wants a write first.
    pub fn writes(&self, ask: &Ask) -> bool
        ensures { result ≡ writes_of self.now ask.now }
    {
        let sealed = self.sealed_at.is_some();
        match ask {
            Ask::Store(place, _) => !sealed && *place == self.length(),
            Ask::Seal => !sealed,
            Ask::Tail | Ask::Read(_) => false,
            Ask::Repair(place, _) => sealed && *place == self.length(),
            Ask::Trim(place) => self.base < *place,
        }
    }

    /// Makes the write that its answer wants, if any.
    pub fn write(&mut self, ask: &Ask) -> Result<(), AllocError>
        requires { AskFits ask.now }
        ensures { OnOk result (self.new ≡ written self.old ask.now) }
    {
        if !self.writes(ask) {
            return Ok(());
        }
        match ask {
            Ask::Store(_, entry) | Ask::Repair(_, entry) => self.entries.push(entry.clone()?)?,
            Ask::Seal => self.sealed_at = Some(self.length()),
            Ask::Tail | Ask::Read(_) => {}
            Ask::Trim(place) => self.let_go(*place),
        }
        Ok(())
    }

    fn let_go(&mut self, place: u64)
        requires above { self.old.base < place }
        requires fits { place ≤ 2 ^ 32 }
        ensures { self.new ≡ record self.old { base = place; entries = drop (place - self.old.base) self.old.entries } }
    {
        let all = self.entries.len();
        let below = ((place - self.base) as usize).min(all);
        self.entries.drain(..below);
        self.base = place;
    }

    /// Comes up again, with the write inside which it stopped done or not.
    pub fn restart(&mut self, kept: bool) -> Result<(), AllocError>
        requires { ForSome self.old.torn AskFits }
        ensures { OnOk result (self.new ≡ restarted_by self.old kept self.old.torn) }
    {
        self.up = true;
        if let Some(ask) = self.torn.take() {
            if kept {
                self.write(&ask)?;
            }
        }
        Ok(())
    }

    /// Stops inside the write that its answer to `ask` wants.
    pub fn stop(&mut self, ask: Ask)
        ensures { self.new ≡ record self.old { up = false; torn = Some ask } }
    {
        self.up = false;
        self.torn = Some(ask);
    }
}

/// The answer at a place of a server that takes entries.
fn told_place(place: u64, length: u64) -> Told
    requires { length + 1 < 2 ^ 64 }
    ensures { result ≡ told_place_of place length }
{
    if length < place {
        Told::Behind(length)
    } else if place < length {
        Told::Ack(length)
    } else {
        Told::Ack(length + 1)
    }
}
