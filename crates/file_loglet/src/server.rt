//! The server of a file loglet.
ghost use Rattle.std.specs.Prelude.{◌≡◌, ℕ, Bool, true, false, ◌^◌, ◌<◌, ◌≤◌, IfOk, IfErr, IsOk, [], if◌then◌else◌};
ghost use Rattle.delos_types.specs.Spelling.{IsSpellable};
ghost use Rattle.disk_model.specs.Disk.{reads, IsSynced, bumped};
ghost use Rattle.disk_model.specs.Armed.{Spends};
ghost use Rattle.journal_core.specs.Records.{records_of};
ghost use Rattle.journal_core.specs.Journal.{AnyCrashLeaves, LeavesRecords};
ghost use Rattle.quorum_cell.specs.declared.message.Ask.TheVariants.{Store, Seal, Trim};
ghost use Rattle.quorum_cell.specs.Servers.{length_of, is_sealed, writes, restarted};
ghost use Rattle.server_records.specs.Spelled.{empty_server, server_of};
ghost use Rattle.file_loglet.specs.Held.{ask_of, Changes, Writes, Restores};

use crate::extent::{Change, Extent};
use delos_types::entry::Entry;
use disk_model::Disk;
use journal_core::{AppendFault, Fault, Journal, Refused};
use server_records::{sealed_record, stored_record, trimmed_record};
use std::alloc::Global;
use std::marker::Model;

/// A log server whose copy of the log is a journal on a disk: one record for each entry, for the
/// seal, and for each trim. Contracts see what it holds, and its disk.
///
/// It is down from a write in which the disk failed to a restart, which finds that write done or
/// not.
///
/// Memory: a few numbers. The records stand on the disk alone.
#[derive(Drop)]
pub struct FileServer<D: Disk> {
    alloc: Global,
    journal: Journal<D>,
    extent: Extent,
    /// What the record was to change in whose write the disk failed.
    torn: Option<Change>,
}

impl<D: Disk> Model for FileServer<D> {
    ghost use Rattle.file_loglet.specs.Held.{Held, held_by, IsHeldBy};

    ghost Value = { Held };

    ghost view = { λ s. held_by s.journal };

    ghost invariant = { λ s. IsHeldBy s.journal s.extent s.torn };
}

impl<D: Disk> FileServer<D> {
    /// A server that holds nothing, on a disk that has no records and nothing pending. A refusal
    /// hands the disk back, on which a crash leaves no records either.
    pub fn new(alloc: Global, disk: D) -> Result<FileServer<D>, Refused<D>>
        requires synced { IsSynced (D.view disk) }
        requires empty { records_of (reads (D.view disk)) ≡ [] }
        ensures empty { IfOk result (λ s. s.server ≡ empty_server) }
        ensures no_fault { IfOk result (λ s. s.disk.faults ≡ (D.view disk).faults) }
        ensures word { IfOk result (λ s. s.disk.word ≡ (D.view disk).word) }
        ensures running { IfOk result (λ s. s.disk.stopped ≡ false) }
        ensures spends { IfOk result (λ s. Spends 1 (D.view disk).armed s.disk.armed) }
        ensures memory { IfErr result (λ e. e.fault ≡ Fault.Memory → ((D.view e.disk).timeline ≡ (D.view disk).timeline) × ((D.view e.disk).faults ≡ (D.view disk).faults)) }
        ensures failed { IfErr result (λ e. e.fault ≡ Fault.Disk → (D.view e.disk).faults ≡ bumped (D.view disk).faults) }
        ensures word_refused { IfErr result (λ e. (D.view e.disk).word ≡ (D.view disk).word) }
        ensures any_crash { IfErr result (λ e. AnyCrashLeaves (D.view disk) (D.view e.disk) (λ found. found ≡ [])) }
    {
        let journal = Journal::open_on(alloc, disk)?.journal;
        let extent = Extent {
            base: 0,
            length: 0,
            sealed: false,
        };
        Ok(FileServer {
            alloc,
            journal,
            extent,
            torn: None,
        })
    }

    /// How many entries there are, trimmed ones included.
    pub fn length(&self) -> u64
        ensures length { result ≡ length_of self.now.server }
        ensures small { result ≤ 2 ^ 32 }
    {
        self.extent.length
    }

    pub fn is_sealed(&self) -> bool
        ensures { result ≡ is_sealed self.now.server }
    {
        self.extent.sealed
    }

    pub fn is_up(&self) -> bool
        ensures { result ≡ self.now.server.up }
    {
        !self.journal.is_shut()
    }

    /// How often the disk has failed.
    pub fn disk_faults(&self) -> u64
        ensures { result ≡ self.now.disk.faults }
    {
        self.journal.disk_faults()
    }

    /// Stores an entry behind the others, on a server that is up and isn't sealed. O(size of the
    /// entry), amortised.
    pub fn store(&mut self, entry: &Entry) -> Result<(), Fault>
        requires up { self.old.server.up ≡ true }
        requires unsealed { is_sealed self.old.server ≡ false }
        requires room { length_of self.old.server < 2 ^ 32 }
        requires entry { IsSpellable entry.now }
        ensures { Writes self.old (Store (length_of self.old.server) entry.now) result self.new }
    {
        let bytes = stored_record(self.alloc, self.extent.length, entry)?;
        self.write(bytes.as_slice(), Change::Storing)
    }

    /// Seals a server that is up and isn't sealed.
    pub fn seal(&mut self) -> Result<(), Fault>
        requires up { self.old.server.up ≡ true }
        requires unsealed { is_sealed self.old.server ≡ false }
        ensures { Writes self.old Seal result self.new }
    {
        let bytes = sealed_record(self.alloc)?;
        self.write(bytes.as_slice(), Change::Sealing)
    }

    /// Lets go of the entries below a position, on a server that is up. It writes nothing where
    /// they are gone.
    pub fn trim(&mut self, position: u64) -> Result<(), Fault>
        requires up { self.old.server.up ≡ true }
        requires within { position ≤ length_of self.old.server }
        ensures above { self.old.server.base < position → Writes self.old (Trim position) result self.new }
        ensures gone { position ≤ self.old.server.base → IsOk result × (self.new ≡ self.old) }
    {
        if position <= self.extent.base {
            return Ok(());
        }
        let bytes = trimmed_record(self.alloc, position)?;
        self.write(bytes.as_slice(), Change::Trimming(position))
    }

    /// Writes the record of a change.
    fn write(&mut self, bytes: &[u8], change: Change) -> Result<(), Fault>
        requires up { self.old.server.up ≡ true }
        requires writes { writes self.old.server (ask_of bytes.now) ≡ true }
        requires changes { Changes self.old.server (ask_of bytes.now) change }
        ensures { Writes self.old (ask_of bytes.now) result self.new }
    {
        match self.journal.append(bytes) {
            Ok(()) => {
                self.extent = self.extent.after(change);
                Ok(())
            }
            Err(AppendFault::Memory) => Err(Fault::Memory),
            Err(AppendFault::Disk) => {
                self.torn = Some(change);
                Err(Fault::Disk)
            }
            Err(AppendFault::Shut) => Err(Fault::Disk),
        }
    }

    /// Brings up a server that is down. Its disk is reopened by the word, which may pick whether the torn write was done.
    pub fn restart(&mut self, word: u64) -> Result<(), Fault>
        requires down { self.old.server.up ≡ false }
        ensures { Restores word self.old result self.new }
    {
        let count = self.journal.count();
        self.journal.reopen(word)?;
        let kept = self.journal.count() > count;
        self.extent = self.extent.restarted(kept, self.torn);
        self.torn = None;
        Ok(())
    }

    /// Arms the disk: its write number `after` from now on stops inside itself; 0 takes that back.
    pub fn stop(&mut self, after: u64)
        ensures server { self.new.server ≡ self.old.server }
        ensures disk { self.new.disk ≡ (if self.old.disk.stopped then self.old.disk else record self.old.disk { armed = after }) }
        ensures armed { self.old.server.up ≡ true → self.new.disk ≡ record self.old.disk { armed = after } }
    {
        self.journal.stop(after);
    }

    /// The disk. Its records spell what the server holds, with the torn write or without.
    pub fn into_disk(self) -> D
        ensures disk { D.view result ≡ self.disk }
        ensures running { self.server.up ≡ true → self.disk.stopped ≡ false }
        ensures left { LeavesRecords self.disk (λ found. (kept : Bool) × (server_of found ≡ Some (restarted self.server kept self.server.torn))) }
    {
        let FileServer {
            alloc: _,
            journal,
            extent: _,
            torn: _,
        } = self;
        journal.into_parts()
    }
}
