//! A journal over two areas: records on a disk, and in memory beside it how many they are.
ghost use Rattle.std.specs.Prelude.{◌≡◌, ◌≢◌, ◌⊎◌, ◌+◌, ◌-◌, ◌^◌, ◌<◌, ◌≤◌, ◌↔◌, ℕ, Some, None, [], ◌∷◌, ◌++◌, length, true, false, if◌then◌else◌, IfOk, IfErr, OnOk, OnErr, IsErrOf, slice_index_or};
ghost use Rattle.disk_model.specs.Disk.{DiskView, reads, IsSynced, bumped};
ghost use Rattle.disk_model.specs.Armed.{Spends, TakesRecord};
ghost use Rattle.journal_core.specs.Records.{payloads};
ghost use Rattle.journal_pair.specs.Records.{records_of};
ghost use Rattle.journal_pair.specs.Journal.{View, MayFind, LeavesRecords, AnyCrashLeaves, Survives};

use crate::area::{Area, FIRST};
use crate::compact::{Unplaced, replace};
use crate::layout::add;
use crate::open::{find, find_count, record_of};
use crate::torn::Torn;
use disk_model::Disk;
use journal_core::{AppendFault, Fault, Refused};
use std::alloc::Global;
use std::marker::Model;

/// A list of records on a disk, each of them there for good before it is acknowledged, that may be replaced by another
/// list at once.
///
/// Contracts see it as a `View`: its `records`; the `other` ones, of the call in which the disk failed, which a crash may
/// leave in their place; whether it is `shut`; and its `disk`.
///
/// Memory: constant. The records are kept on the disk alone; those of before and the given ones also in memory where the
/// disk failed in a compaction, until a reopening succeeds, and the record of an append in which it failed.
#[derive(Drop)]
pub struct JournalPair<D: Disk> {
    alloc: Global,
    disk: D,
    // How many records there are.
    count: usize,
    // Where they lie on the disk.
    area: Area,
    torn: Option<Torn>,
    shut: bool,
}

impl<D: Disk> Model for JournalPair<D> {
    ghost use Rattle.disk_model.specs.Disk.{reads};
    ghost use Rattle.journal_pair.specs.Journal.{View};
    ghost use Rattle.journal_pair.specs.Kept.{other_of, records_in, IsKept};

    ghost Value = { View };

    ghost view = { λ j. record { records = records_in j.count j.torn (reads (D.view j.disk)); other = other_of (records_in j.count j.torn (reads (D.view j.disk))) j.torn; shut = j.shut; disk = D.view j.disk } };

    ghost invariant = { λ j. IsKept j.count j.torn j.area j.shut (D.view j.disk).stopped (D.view j.disk).timeline };
}

/// A journal just opened, and its records, which it doesn't keep.
#[derive(Drop)]
pub struct Opened<D: Disk> {
    /// The journal.
    pub journal: JournalPair<D>,
    /// Its records, the first of them first.
    pub records: Vec<Vec<u8>>,
}

impl<D: Disk> JournalPair<D> {
    /// Opens a disk on which nothing is pending: its journal has the records of the disk's selected area, which are handed
    /// out, and none where the disk isn't ready, which it is made then. A refusal hands the disk back. A crash inside leaves the same records.
    ///
    /// Cost: three reads a record and three more, and at most four writes.
    pub fn open_on(alloc: Global, mut disk: D) -> Result<Opened<D>, Refused<D>>
        requires { IsSynced (D.view disk) }
        ensures records { IfOk result (λ o. o.journal.records ≡ records_of (reads (D.view disk))) }
        ensures handed { IfOk result (λ o. payloads o.records.items ≡ o.journal.records) }
        ensures opened { IfOk result (λ o. (o.journal.other ≡ None) × (o.journal.shut ≡ false)) }
        ensures survives { IfOk result (λ o. Survives o.journal) }
        ensures any_crash { IfOk result (λ o. AnyCrashLeaves (D.view disk) o.journal.disk (λ found. found ≡ records_of (reads (D.view disk)))) }
        ensures no_fault { IfOk result (λ o. o.journal.disk.faults ≡ (D.view disk).faults) }
        ensures word { IfOk result (λ o. o.journal.disk.word ≡ (D.view disk).word) }

        // At most four writes were made: it is armed where it was, and one that fails may have reached the armed write.
        ensures spends { IfOk result (λ o. Spends 4 (D.view disk).armed o.journal.disk.armed) }
        ensures four_writes_refused { IfErr result (λ e. (D.view disk).armed ≤ (D.view e.disk).armed + 4) }

        // A disk that is handed back has the same records, and failed where that is said.
        ensures memory { IfErr result (λ e. e.fault ≡ Fault.Memory → IsSynced (D.view e.disk) × ((D.view e.disk).faults ≡ (D.view disk).faults) × Spends 4 (D.view disk).armed (D.view e.disk).armed) }
        ensures failed { IfErr result (λ e. e.fault ≡ Fault.Disk → (D.view e.disk).faults ≡ bumped (D.view disk).faults) }
        ensures any_crash_refused { IfErr result (λ e. AnyCrashLeaves (D.view disk) (D.view e.disk) (λ found. found ≡ records_of (reads (D.view disk)))) }
        ensures word_refused { IfErr result (λ e. (D.view e.disk).word ≡ (D.view disk).word) }
        ensures faults_refused { IfErr result (λ e. (D.view disk).faults ≤ (D.view e.disk).faults) }
        ensures armed_refused { IfErr result (λ e. (D.view e.disk).armed ≤ (D.view disk).armed) }
    {
        let (records, area) = match find(alloc, &mut disk) {
            Ok(found) => found,
            Err(fault) => return Err(Refused { fault, disk }),
        };
        let journal = JournalPair {
            alloc,
            disk,
            count: records.len(),
            area,
            torn: None,
            shut: false,
        };
        Ok(Opened { journal, records })
    }

    /// The journal of a disk without records that couldn't be opened: it has none, and is shut until a reopening succeeds.
    /// It takes no memory.
    pub fn shut_on(alloc: Global, disk: D) -> JournalPair<D>
        requires { LeavesRecords (D.view disk) (λ found. found ≡ []) }
        ensures shut { result ≡ record { records = []; other = None; shut = true; disk = D.view disk } }
        ensures survives { Survives result }
    {
        JournalPair {
            alloc,
            disk,
            count: 0,
            area: FIRST,
            torn: None,
            shut: true,
        }
    }

    /// Adds a record. After `Ok` every crash leaves it.
    ///
    /// After `Disk` the journal is shut, shows the records of before, and a crash leaves them with the new one or
    /// without. After `Memory` nothing changed but that the disk may have been written to behind the records. `Shut`
    /// comes just where the journal is shut, and changes nothing.
    ///
    /// Cost: O(payload): two writes and two syncs, and no read or copy of what is there.
    pub fn append(&mut self, payload: &[u8]) -> Result<(), AppendFault>
        ensures ok { OnOk result (self.new ≡ record { records = self.old.records ++ payload.now ∷ []; other = None; shut = false; disk = self.new.disk }) }
        ensures durable { OnOk result (LeavesRecords self.new.disk (λ found. found ≡ self.new.records)) }
        ensures shut { IsErrOf result AppendFault.Shut ↔ (self.old.shut ≡ true) }
        ensures shut_same { IsErrOf result AppendFault.Shut → self.new ≡ self.old }
        ensures memory { IsErrOf result AppendFault.Memory → (self.new ≡ record self.old { disk = self.new.disk }) × (self.new.disk.faults ≡ self.old.disk.faults) }
        ensures disk { IsErrOf result AppendFault.Disk → (self.new ≡ record self.old { other = Some (self.old.records ++ payload.now ∷ []); shut = true; disk = self.new.disk }) × (self.new.disk.faults ≡ bumped self.old.disk.faults) }

        // A crash inside it leaves what one before it may leave, with the new record or without.
        ensures any_crash { AnyCrashLeaves self.old.disk self.new.disk (λ found. MayFind self.old found ⊎ (found ≡ self.old.records ++ payload.now ∷ [])) }
        ensures survives { Survives self.new }
        ensures faults { self.old.disk.faults ≤ self.new.disk.faults }
        ensures no_fault { OnOk result (self.new.disk.faults ≡ self.old.disk.faults) }
        ensures armed { self.new.disk.armed ≤ self.old.disk.armed }

        // It is two of the writes that an armed disk counts, and one at most where memory doesn't suffice.
        ensures counted { OnOk result (TakesRecord 0 self.old.disk.armed self.new.disk.armed) }
        ensures spends_memory { IsErrOf result AppendFault.Memory → Spends 1 self.old.disk.armed self.new.disk.armed }
        ensures word { self.new.disk.word ≡ self.old.disk.word }
    {
        if self.shut {
            return Err(AppendFault::Shut);
        }
        let kept = payload.to_vec(self.alloc)?;
        match add(self.alloc, &mut self.disk, self.area, payload) {
            Ok(area) => {
                self.area = area;
                self.count += 1;
                Ok(())
            }
            Err(Fault::Memory) => Err(AppendFault::Memory),
            Err(Fault::Disk) => {
                self.torn = Some(Torn::Added(kept));
                self.shut = true;
                Err(AppendFault::Disk)
            }
        }
    }

    /// Puts these records in the place of all that are there. After `Ok` every crash leaves them, and what lay behind them
    /// on the disk is cut, unless that was refused for want of memory.
    ///
    /// After `Disk` the journal is shut, shows the records of before, and a crash leaves them or the given ones, never a
    /// mixture. After `Memory` nothing changed but that the disk may have been written to beside the records. `Shut`
    /// comes just where the journal is shut, and changes nothing.
    ///
    /// Cost: O(payloads) of the records of before, which are read once and held until it ends, and of the given ones, whose
    /// bytes it takes memory for once more: three reads a record of before, and at most four writes and four syncs.
    pub fn compact(&mut self, records: Vec<Vec<u8>>) -> Result<(), AppendFault>
        ensures ok { OnOk result (self.new ≡ record { records = payloads records.items; other = None; shut = false; disk = self.new.disk }) }
        ensures durable { OnOk result (LeavesRecords self.new.disk (λ found. found ≡ self.new.records)) }
        ensures shut { IsErrOf result AppendFault.Shut ↔ (self.old.shut ≡ true) }
        ensures shut_same { IsErrOf result AppendFault.Shut → self.new ≡ self.old }
        ensures memory { IsErrOf result AppendFault.Memory → (self.new ≡ record self.old { disk = self.new.disk }) × (self.new.disk.faults ≡ self.old.disk.faults) }
        ensures disk { IsErrOf result AppendFault.Disk → (self.new ≡ record self.old { other = Some (payloads records.items); shut = true; disk = self.new.disk }) × (self.new.disk.faults ≡ bumped self.old.disk.faults) }

        // A crash inside it leaves what one before it may leave, or the given records.
        ensures any_crash { AnyCrashLeaves self.old.disk self.new.disk (λ found. MayFind self.old found ⊎ (found ≡ payloads records.items)) }
        ensures survives { Survives self.new }
        ensures faults { self.old.disk.faults ≤ self.new.disk.faults }
        ensures no_fault { OnOk result (self.new.disk.faults ≡ self.old.disk.faults) }
        ensures armed { self.new.disk.armed ≤ self.old.disk.armed }

        // It is at most four of the writes that an armed disk counts.
        ensures four_writes { self.old.disk.armed ≤ self.new.disk.armed + 4 }
        ensures spends { OnOk result (Spends 4 self.old.disk.armed self.new.disk.armed) }
        ensures spends_memory { IsErrOf result AppendFault.Memory → Spends 2 self.old.disk.armed self.new.disk.armed }
        ensures word { self.new.disk.word ≡ self.old.disk.word }
    {
        if self.shut {
            return Err(AppendFault::Shut);
        }
        match replace(self.alloc, &mut self.disk, self.area, &records) {
            Ok(area) => {
                self.area = area;
                self.count = records.len();
                Ok(())
            }
            Err(Unplaced::Memory) => Err(AppendFault::Memory),
            Err(Unplaced::Unwritten) => {
                self.torn = Some(Torn::Unwritten(records));
                self.shut = true;
                Err(AppendFault::Disk)
            }
            Err(Unplaced::Torn(before)) => {
                self.torn = Some(Torn::Given {
                    before,
                    given: records,
                });
                self.shut = true;
                Err(AppendFault::Disk)
            }
        }
    }

    /// Opens the disk again, as after a crash, with an image that the word may pick: the records of before, or the others
    /// where the disk failed in an `append` or a `compact`.
    ///
    /// After `Disk` the journal is shut, and shows what it showed; after `Memory` it shows that and is shut or not as
    /// before. Cost: two reads of nine bytes in all for each record and four more, and at most four writes.
    pub fn reopen(&mut self, word: u64) -> Result<(), Fault>
        ensures ok { OnOk result ((self.new ≡ record { records = self.new.records; other = None; shut = false; disk = self.new.disk }) × MayFind self.old self.new.records) }
        ensures durable { OnOk result (LeavesRecords self.new.disk (λ found. found ≡ self.new.records)) }
        ensures same { self.old.shut ≡ false → OnOk result (self.new.records ≡ self.old.records) }
        ensures memory { IsErrOf result Fault.Memory → (self.new ≡ record self.old { disk = self.new.disk }) × (self.new.disk.faults ≡ self.old.disk.faults) }
        ensures disk { IsErrOf result Fault.Disk → (self.new ≡ record self.old { shut = true; disk = self.new.disk }) × (self.new.disk.faults ≡ bumped self.old.disk.faults) }

        // A crash inside it leaves what one before it may leave.
        ensures any_crash { AnyCrashLeaves self.old.disk self.new.disk (MayFind self.old) }
        ensures survives { Survives self.new }
        ensures faults { self.old.disk.faults ≤ self.new.disk.faults }
        ensures no_fault { OnOk result (self.new.disk.faults ≡ self.old.disk.faults) }
        ensures armed { self.new.disk.armed ≤ self.old.disk.armed }

        // Nothing is armed then, unless the disk itself refused, and stays as it was.
        ensures disarmed { OnOk result (self.new.disk.armed ≡ 0) }
        ensures disarmed_memory { IsErrOf result Fault.Memory → (self.new.disk.armed ≡ 0) × (self.new.disk.stopped ≡ false) }
        ensures disarmed_or_same { IsErrOf result Fault.Disk → (self.new.disk.armed ≡ 0) ⊎ ((self.new.disk.armed ≡ self.old.disk.armed) × (self.new.disk.stopped ≡ self.old.disk.stopped)) }

        // The disk is opened by this word, unless it refused.
        ensures word { OnOk result (self.new.disk.word ≡ word) }
        ensures word_memory { IsErrOf result Fault.Memory → self.new.disk.word ≡ word }
        ensures word_disk { IsErrOf result Fault.Disk → (self.new.disk.word ≡ word) ⊎ (self.new.disk.word ≡ self.old.disk.word) }
    {
        if self.disk.reopen(word).is_err() {
            self.shut = true;
            return Err(Fault::Disk);
        }
        match find_count(&mut self.disk) {
            Ok((count, area)) => {
                self.count = count;
                self.area = area;
                self.torn = None;
                self.shut = false;
                Ok(())
            }
            Err(Fault::Memory) => Err(Fault::Memory),
            Err(Fault::Disk) => {
                self.shut = true;
                Err(Fault::Disk)
            }
        }
    }

    /// How many records there are.
    pub fn count(&self) -> usize
        ensures count { result ≡ length self.now.records }
        ensures survives { Survives self.now }
    {
        self.count
    }

    /// The i-th record, from 0 on, read from the disk, or from memory where the disk failed in a compaction. It changes
    /// nothing but the count of the disk's faults, and doesn't shut the journal.
    ///
    /// Cost: two reads, two of nine bytes in all for each record before it, and three for it.
    pub fn get(&mut self, i: usize) -> Result<Vec<u8>, Fault>
        requires { i < length self.old.records }
        ensures record { IfOk result (λ v. v.items ≡ slice_index_or self.old.records i []) }
        ensures same { self.new ≡ record self.old { disk = record self.old.disk { faults = self.new.disk.faults } } }
        ensures failed { IsErrOf result Fault.Disk → self.new.disk.faults ≡ bumped self.old.disk.faults }
        ensures no_fault { OnOk result (self.new.disk.faults ≡ self.old.disk.faults) }
        ensures no_fault_memory { IsErrOf result Fault.Memory → self.new.disk.faults ≡ self.old.disk.faults }
        ensures survives { Survives self.new }
    {
        if let Some(Torn::Given { before, given: _ }) = &self.torn {
            let record = before[i].to_vec(self.alloc)?;
            return Ok(record);
        }
        record_of(self.alloc, &mut self.disk, i)
    }

    /// The disk failed in some call since the last reopening that succeeded: no record is added until one does.
    pub fn is_shut(&self) -> bool
        ensures { result ≡ self.now.shut }
    {
        self.shut
    }

    /// How often the disk has failed.
    pub fn disk_faults(&self) -> u64
        ensures { result ≡ self.now.disk.faults }
    {
        self.disk.faults()
    }

    /// Arms the disk: its write number `after` from now on stops inside itself, as in a crash; 0 takes that back.
    pub fn stop(&mut self, after: u64)
        ensures stops { self.new ≡ record self.old { disk = if self.old.disk.stopped then self.old.disk else record self.old.disk { armed = after } } }
        ensures arms { self.old.shut ≡ false → self.new.disk ≡ record self.old.disk { armed = after } }
        ensures survives { Survives self.new }
    {
        self.disk.arm(after);
    }

    /// The disk.
    pub fn into_parts(self) -> D
        ensures disk { D.view result ≡ self.disk }
        ensures survives { Survives self }
    {
        let JournalPair {
            alloc: _,
            disk,
            count: _,
            area: _,
            torn: _,
            shut: _,
        } = self;
        disk
    }
}
