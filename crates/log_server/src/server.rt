//! A log server over its disk.
ghost use Rattle.std.specs.Prelude.{◌≡◌, ◌≢◌, ◌+◌, ◌^◌, ◌<◌, ◌≤◌, ℕ, Bool, true, false, if◌then◌else◌, Some, None, Ok, IfOk, IfErr, OnErr};
ghost use Rattle.disk_model.specs.Disk.{DiskView, reads, IsSynced, bumped};
ghost use Rattle.delos_types.specs.Spelling.{IsSpellable};
ghost use Rattle.delos_types.specs.declared.entry.Entry as entry_view;
ghost use Rattle.journal_pair.specs.Records.{records_of};
ghost use Rattle.journal_pair.specs.Journal.{AnyCrashLeaves};
ghost use Rattle.quorum_cell.specs.Servers.{length_of, is_sealed, told, told_up, told_place, restarted};
ghost use Rattle.server_records.specs.Spelled.{server_of};
ghost use Rattle.kept_value.specs.View.{IsFirstBad};
ghost use Rattle.log_server.specs.View.{View, Spares, Tries, MayFind, Survives};
ghost use Rattle.log_server.specs.Answers.{Answers, MayFindDuring};
ghost use Rattle.log_server.specs.Kind.{CanWrite, server_kind};
ghost use Rattle.log_server.specs.Holding.{server_with};

use crate::held::Held;
use delos_types::entry::Entry;
use disk_model::Disk;
use kept_value::{Fault, Kept, OpenFault, Opened, Refused};
use quorum_cell::message::{Ask, Told};
use std::alloc::{AllocError, Global};
use std::marker::Model;

/// One replica of a log, kept by a journal on a disk.
///
/// Contracts see it as a `View`: the server as a quorum cell has it (what it holds, whether it is up, the write inside
/// which it stopped), its disk, whether the record of that write `stands`, and how many stops and restarts were asked for.
/// Each call answers by the server's table, the first rule that applies. After [`Told::DiskFault`] it is down, and answers
/// [`Told::Down`], until a [`LogServer::restart`] answers true. A refusal for want of memory changes nothing that it holds.
///
/// Memory: each entry from its base on once, as a value. Its record stands on the disk alone.
#[derive(Drop)]
pub struct LogServer<D: Disk> {
    kept: Kept<Held, D>,
    held: Held,
    // How many stops and restarts were asked for, up to the end of the type.
    stops: u64,
    restarts: u64,
}

impl<D: Disk> Model for LogServer<D> {
    ghost use Rattle.log_server.specs.View.{View};
    ghost use Rattle.log_server.specs.Holding.{view_of, IsHeld};

    ghost Value = { View };

    ghost view = { λ s. view_of s.held s.kept s.stops s.restarts };

    ghost invariant = { λ s. IsHeld s.held s.kept };
}

impl<D: Disk> LogServer<D> {
    /// Opens a disk on which nothing is pending: the server holds what the records spell, and is up. A refusal hands the
    /// disk back, with the same records. A crash inside leaves the same records.
    ///
    /// Cost: one pass over the records.
    pub fn open_on(alloc: Global, disk: D) -> Result<LogServer<D>, Refused<D>>
        requires { IsSynced (D.view disk) }
        ensures spelled { IfOk result (λ s. server_of (records_of (reads (D.view disk))) ≡ Some s.server) }
        ensures survives { IfOk result Survives }
        ensures any_crash { IfOk result (λ s. AnyCrashLeaves (D.view disk) s.disk (λ found. found ≡ records_of (reads (D.view disk)))) }

        // Nothing was asked of it yet. Opening makes at most four writes, and neither arms nor disarms its disk.
        ensures new { IfOk result (λ s. (s.stops ≡ 0) × (s.restarts ≡ 0)) }
        ensures spares { IfOk result (λ s. Spares 4 (D.view disk) s.disk) }
        ensures spares_refused { IfErr result (λ e. e.fault ≢ OpenFault.Disk → IsSynced (D.view e.disk) × Spares 4 (D.view disk) (D.view e.disk)) }
        ensures four_writes_refused { IfErr result (λ e. (D.view disk).armed ≤ (D.view e.disk).armed + 4) }
        ensures armed_refused { IfErr result (λ e. (D.view e.disk).armed ≤ (D.view disk).armed) }
        ensures word_refused { IfErr result (λ e. (D.view e.disk).word ≡ (D.view disk).word) }

        // The first record that is none of a server's or doesn't follow is told; a disk's fault was counted.
        ensures bad { (index : ℕ) → IfErr result (λ e. e.fault ≡ OpenFault.BadRecord index → IsFirstBad server_kind (records_of (reads (D.view disk))) index) }
        ensures failed { IfErr result (λ e. e.fault ≡ OpenFault.Disk → (D.view e.disk).faults ≡ bumped (D.view disk).faults) }
        ensures any_crash_refused { IfErr result (λ e. AnyCrashLeaves (D.view disk) (D.view e.disk) (λ found. found ≡ records_of (reads (D.view disk)))) }
    {
        let Opened { kept, value } = Kept::open_on(alloc, disk)?;
        Ok(LogServer {
            kept,
            held: value,
            stops: 0,
            restarts: 0,
        })
    }

    /// Takes an entry at a place, below 2^32, unless it is sealed.
    ///
    /// Cost: O(entry), amortised.
    pub fn store(&mut self, place: u64, entry: &Entry) -> Result<Told, AllocError>
        requires place { place < 2 ^ 32 }
        requires entry { IsSpellable entry.now }
        ensures answers { IfOk result (λ answer. Answers self.old (Ask.Store place entry.now) answer self.new) }
        ensures memory { OnErr result (self.new ≡ record self.old { disk = self.new.disk }) }
        ensures spared { OnErr result (Spares 1 self.old.disk self.new.disk) }
        ensures any_crash { AnyCrashLeaves self.old.disk self.new.disk (MayFindDuring self.old (Ask.Store place entry.now)) }
        ensures survives { Survives self.new }
        ensures faults { self.old.disk.faults ≤ self.new.disk.faults }
    {
        if !self.is_up() {
            return Ok(Told::Down);
        }
        let len = self.len();
        if self.is_sealed() {
            return Ok(Told::Sealed(len));
        }
        if len != place {
            return Ok(place_told(place, len));
        }
        let kept = entry.clone()?;
        self.write(Ask::Store(place, kept), Told::Ack(len + 1))
    }

    /// Takes no more stores from now on. Cost: constant, amortised.
    pub fn seal(&mut self) -> Result<Told, AllocError>
        ensures answers { IfOk result (λ answer. Answers self.old Ask.Seal answer self.new) }
        ensures memory { OnErr result (self.new ≡ record self.old { disk = self.new.disk }) }
        ensures spared { OnErr result (Spares 1 self.old.disk self.new.disk) }
        ensures any_crash { AnyCrashLeaves self.old.disk self.new.disk (MayFindDuring self.old Ask.Seal) }
        ensures survives { Survives self.new }
        ensures faults { self.old.disk.faults ≤ self.new.disk.faults }
    {
        if !self.is_up() {
            return Ok(Told::Down);
        }
        let len = self.len();
        if self.is_sealed() {
            return Ok(Told::Sealed(len));
        }
        self.write(Ask::Seal, Told::Sealed(len))
    }

    /// How many entries it has or had. Takes no memory, and constant time.
    pub fn tail(&self) -> Told
        ensures answer { result ≡ told self.now.server Ask.Tail }
        ensures survives { Survives self.now }
    {
        if !self.is_up() {
            return Told::Down;
        }
        let len = self.len();
        if self.is_sealed() {
            Told::Sealed(len)
        } else {
            Told::Unsealed(len)
        }
    }

    /// Takes an entry at a place, below 2^32, if it is sealed.
    ///
    /// Cost: O(entry), amortised.
    pub fn repair(&mut self, place: u64, entry: &Entry) -> Result<Told, AllocError>
        requires place { place < 2 ^ 32 }
        requires entry { IsSpellable entry.now }
        ensures answers { IfOk result (λ answer. Answers self.old (Ask.Repair place entry.now) answer self.new) }
        ensures memory { OnErr result (self.new ≡ record self.old { disk = self.new.disk }) }
        ensures spared { OnErr result (Spares 1 self.old.disk self.new.disk) }
        ensures any_crash { AnyCrashLeaves self.old.disk self.new.disk (MayFindDuring self.old (Ask.Repair place entry.now)) }
        ensures survives { Survives self.new }
        ensures faults { self.old.disk.faults ≤ self.new.disk.faults }
    {
        if !self.is_up() {
            return Ok(Told::Down);
        }
        let len = self.len();
        if !self.is_sealed() {
            return Ok(Told::Unsealed(len));
        }
        if place != len {
            return Ok(place_told(place, len));
        }
        let kept = entry.clone()?;
        self.write(Ask::Repair(place, kept), Told::Ack(len + 1))
    }

    /// The entry at a place. Cost: O(entry), which is copied.
    pub fn read(&self, place: u64) -> Result<Told, AllocError>
        ensures answer { IfOk result (λ answer. answer ≡ told self.now.server (Ask.Read place)) }
        ensures survives { Survives self.now }
    {
        if !self.is_up() {
            return Ok(Told::Down);
        }
        entry_told(&self.held, place)
    }

    /// Lets go of the entries below a place, at most 2^32. Where the journal has more than 64 records then, it is compacted to
    /// one for each entry that is left, behind one that says where they begin.
    ///
    /// Where the disk fails in the compaction, each restart finds the trim done. A compaction for which memory is wanting is
    /// left to the next trim that writes. Cost: constant, amortised over the entries that it let go; with a compaction the
    /// bytes of those that are left, and of the records of before.
    pub fn trim(&mut self, place: u64) -> Result<Told, AllocError>
        requires { place ≤ 2 ^ 32 }
        ensures answers { IfOk result (λ answer. Answers self.old (Ask.Trim place) answer self.new) }
        ensures memory { OnErr result (self.new ≡ record self.old { disk = self.new.disk }) }
        ensures spared { OnErr result (Spares 1 self.old.disk self.new.disk) }
        ensures any_crash { AnyCrashLeaves self.old.disk self.new.disk (MayFindDuring self.old (Ask.Trim place)) }
        ensures survives { Survives self.new }
        ensures faults { self.old.disk.faults ≤ self.new.disk.faults }
    {
        if !self.is_up() {
            return Ok(Told::Down);
        }
        let base = self.base();
        if place <= base {
            return Ok(Told::Trimmed(base));
        }
        self.write(Ask::Trim(place), Told::Trimmed(place))
    }

    /// Brings the server up, with the write inside which it stopped or without, as the word may pick; with it where its
    /// record stands. True and nothing done but counted where it is up; false only where the disk failed, and then it stays
    /// down. Where memory is wanting it stays down too, and the restart isn't counted.
    ///
    /// Cost: one pass over the records.
    pub fn restart(&mut self, word: u64) -> Result<bool, AllocError>
        ensures up { self.old.server.up ≡ true → (result ≡ Ok true) × (self.new ≡ record self.old { restarts = bumped self.old.restarts }) }
        ensures restarted { result ≡ Ok true → (kept : Bool) × (self.new.server ≡ restarted self.old.server kept self.old.server.torn) }
        ensures stands { result ≡ Ok true → self.old.stands ≡ true → self.new.server ≡ restarted self.old.server true self.old.server.torn }
        ensures failed { result ≡ Ok false → (self.new ≡ record self.old { disk = self.new.disk; restarts = bumped self.old.restarts }) × (self.new.disk.faults ≡ bumped self.old.disk.faults) × Tries word self.old.disk self.new.disk }
        ensures memory { OnErr result ((self.old.server.up ≡ false) × (self.new ≡ record self.old { disk = self.new.disk }) × (self.new.disk.faults ≡ self.old.disk.faults) × Tries word self.old.disk self.new.disk) }
        ensures any_crash { AnyCrashLeaves self.old.disk self.new.disk (MayFind self.old) }
        ensures survives { Survives self.new }
        ensures faults { self.old.disk.faults ≤ self.new.disk.faults }

        // A disk that is opened again is opened by the word, and isn't armed; no fault is counted but where it is told.
        ensures no_fault { result ≡ Ok true → self.new.disk.faults ≡ self.old.disk.faults }
        ensures word { result ≡ Ok true → self.old.server.up ≡ false → self.new.disk.word ≡ word }
        ensures disarmed { result ≡ Ok true → self.old.server.up ≡ false → self.new.disk.armed ≡ 0 }

        // Each restart that is answered is counted.
        ensures counted { result ≡ Ok true → self.new.restarts ≡ bumped self.old.restarts }
        ensures stops { self.new.stops ≡ self.old.stops }
    {
        if self.is_up() {
            self.restarts = self.restarts.saturating_add(1);
            return Ok(true);
        }
        match self.kept.reopen(&mut self.held, word) {
            Ok(()) => {
                self.restarts = self.restarts.saturating_add(1);
                Ok(true)
            }
            Err(Fault::Memory) => Err(AllocError),
            Err(Fault::Disk) => {
                self.restarts = self.restarts.saturating_add(1);
                Ok(false)
            }
        }
    }

    /// Arms the disk: its write number `after` from now on stops inside itself; 0 takes that back. The stop is counted.
    pub fn stop(&mut self, after: u64)
        ensures stops { self.new ≡ record self.old { disk = if self.old.disk.stopped then self.old.disk else record self.old.disk { armed = after }; stops = bumped self.old.stops } }
        ensures survives { Survives self.new }
        ensures arms { self.old.server.up ≡ true → self.new.disk.armed ≡ after }
    {
        self.kept.stop(after);
        self.stops = self.stops.saturating_add(1);
    }

    /// How often the disk has failed.
    pub fn disk_faults(&self) -> u64
        ensures { result ≡ self.now.disk.faults }
    {
        self.kept.disk_faults()
    }

    /// Whether it answers anything but `Down`.
    pub fn is_up(&self) -> bool
        ensures value { result ≡ self.now.server.up }
        ensures survives { Survives self.now }
        ensures whole { self.now.server.up ≡ true → self.now.server.torn ≡ None }
        ensures running { self.now.server.up ≡ true → self.now.disk.stopped ≡ false }
    {
        !self.kept.is_shut()
    }

    /// Makes a change that the table wants, once its record is written.
    fn write(&mut self, ask: Ask, answer: Told) -> Result<Told, AllocError>
        requires up { self.old.server.up ≡ true }
        requires can { CanWrite self.old.server ask }
        requires told { answer ≡ told self.old.server ask }
        ensures answers { IfOk result (λ given. Answers self.old ask given self.new) }
        ensures memory { OnErr result (self.new ≡ record self.old { disk = self.new.disk }) }
        ensures spared { OnErr result (Spares 1 self.old.disk self.new.disk) }
        ensures any_crash { AnyCrashLeaves self.old.disk self.new.disk (MayFindDuring self.old ask) }
        ensures survives { Survives self.new }
        ensures faults { self.old.disk.faults ≤ self.new.disk.faults }
    {
        match self.kept.write(&mut self.held, ask) {
            Ok(()) => Ok(answer),
            Err(Fault::Disk) => Ok(Told::DiskFault),
            Err(Fault::Memory) => Err(AllocError),
        }
    }

    fn is_sealed(&self) -> bool
        ensures { result ≡ is_sealed self.now.server }
    {
        self.held.sealed_at.is_some()
    }

    fn base(&self) -> u64
        ensures value { result ≡ self.now.server.base }
        ensures small { length_of self.now.server ≤ 2 ^ 32 }
    {
        self.held.base
    }

    fn len(&self) -> u64
        ensures value { result ≡ length_of self.now.server }
        ensures small { result ≤ 2 ^ 32 }
    {
        self.held.len()
    }
}

/// What a server that is up and takes entries tells of a place other than its length.
fn place_told(place: u64, len: u64) -> Told
    requires { place ≢ len }
    ensures { result ≡ told_place place len }
{
    if len < place {
        Told::Behind(len)
    } else {
        Told::Ack(len)
    }
}

/// What a server that is up and holds this tells of the entry at a place.
fn entry_told(held: &Held, place: u64) -> Result<Told, AllocError>
    requires { length_of (server_with held.now) ≤ 2 ^ 32 }
    ensures { IfOk result (λ answer. answer ≡ told_up (server_with held.now) (Ask.Read place)) }
{
    if place < held.base {
        return Ok(Told::Cut(held.base));
    }
    match held.entries.get((place - held.base) as usize) {
        Some(entry) => {
            let copied = entry.clone()?;
            Ok(Told::Got(copied))
        }
        None => Ok(Told::Short(held.len())),
    }
}
