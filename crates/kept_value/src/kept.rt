//! What keeps a value.
ghost use Rattle.std.specs.Prelude.{◌≡◌, ◌≢◌, ◌⊎◌, ◌+◌, ◌-◌, ◌^◌, ◌<◌, ◌≤◌, ℕ, Bool, Some, None, [], ◌∷◌, ◌++◌, length, nat_lt, true, false, if◌then◌else◌, Ok, IfOk, IfErr, OnOk, IsErrOf};
ghost use Rattle.disk_model.specs.Disk.{reads, IsSynced, bumped};
ghost use Rattle.journal_pair.specs.Records.{records_of};
ghost use Rattle.journal_pair.specs.Journal.{LeavesRecords, AnyCrashLeaves};
ghost use Rattle.journal_pair.specs.Journal as pair;
ghost use Rattle.kept_value.specs.View.{Kind, View, calm, reopened_by, MayFind, BeforeOrAfter, AddsOne, Spares, TakesWrite, Tries, IsFirstBad};
ghost use Rattle.kept_value.specs.Keeping.{IsKept};

use crate::compact::compact;
use crate::fault::{OpenFault, Refused, fault_of};
use crate::replay::replay;
use crate::settle::{is_done, make_room, settle};
use crate::value::KeptValue;
use disk_model::{Disk, Failed};
use journal_core::{AppendFault, Fault};
use journal_pair::{JournalPair, Opened as OpenedJournal};
use std::alloc::Global;
use std::marker::Model;

/// What keeps a value: the journal of its changes, over two areas of a disk.
///
/// The value itself is its owner's, and each call that reads or changes it is given it: `IsKept` says that the two belong
/// together. Contracts see what keeps it as a `View`: its `journal`; the change that was `asked` for as the disk failed; and
/// whether its record `stands`.
///
/// Memory: constant, but for the change in which the disk failed.
#[derive(Drop)]
pub struct Kept<V: KeptValue, D: Disk> {
    alloc: Global,
    journal: JournalPair<D>,
    asked: Option<V::Change>,
    stands: bool,
}

impl<V: KeptValue, D: Disk> Model for Kept<V, D> {
    ghost use Rattle.kept_value.specs.View.{View};

    ghost Value = { View V.Change };

    ghost view = { λ k. record { journal = k.journal; asked = k.asked; stands = k.stands } };
}

/// What keeps a value, just opened, and the value.
#[derive(Drop)]
pub struct Opened<V: KeptValue, D: Disk> {
    /// What keeps it.
    pub kept: Kept<V, D>,
    /// The value.
    pub value: V,
}

impl<V: KeptValue, D: Disk> Kept<V, D> {
    /// Opens a disk on which nothing is pending: the value is what its records spell. A refusal hands the disk back, with
    /// the same records. A crash inside leaves the same records.
    ///
    /// Cost: one pass over the records, and at most four writes.
    pub fn open_on(alloc: Global, disk: D) -> Result<Opened<V, D>, Refused<D>>
        requires { IsSynced (D.view disk) }
        ensures spelled { IfOk result (λ o. V.kind.spelled (records_of (reads (D.view disk))) ≡ Some (V.state o.value)) }
        ensures sound { IfOk result (λ o. V.IsSound o.value) }
        ensures kept { IfOk result (λ o. IsKept V.kind (V.state o.value) o.kept) }
        ensures opened { IfOk result (λ o. (o.kept ≡ calm o.kept.journal) × (o.kept.journal.shut ≡ false)) }
        ensures records { IfOk result (λ o. o.kept.journal.records ≡ records_of (reads (D.view disk))) }
        ensures any_crash { IfOk result (λ o. AnyCrashLeaves (D.view disk) o.kept.journal.disk (λ found. found ≡ records_of (reads (D.view disk)))) }

        // At most four writes were made, and one that failed may have been the armed one. It is reopened by no word.
        ensures spares { IfOk result (λ o. Spares 4 (D.view disk) o.kept.journal.disk) }
        ensures spares_refused { IfErr result (λ e. e.fault ≢ OpenFault.Disk → IsSynced (D.view e.disk) × Spares 4 (D.view disk) (D.view e.disk)) }
        ensures four_writes_refused { IfErr result (λ e. (D.view disk).armed ≤ (D.view e.disk).armed + 4) }
        ensures armed_refused { IfErr result (λ e. (D.view e.disk).armed ≤ (D.view disk).armed) }
        ensures word_refused { IfErr result (λ e. (D.view e.disk).word ≡ (D.view disk).word) }

        // The first record that is none of this kind or doesn't follow is told; a disk's fault was counted.
        ensures bad { (index : ℕ) → IfErr result (λ e. e.fault ≡ OpenFault.BadRecord index → IsFirstBad V.kind (records_of (reads (D.view disk))) index) }
        ensures failed { IfErr result (λ e. e.fault ≡ OpenFault.Disk → (D.view e.disk).faults ≡ bumped (D.view disk).faults) }
        ensures faults_refused { IfErr result (λ e. (D.view disk).faults ≤ (D.view e.disk).faults) }
        ensures any_crash_refused { IfErr result (λ e. AnyCrashLeaves (D.view disk) (D.view e.disk) (λ found. found ≡ records_of (reads (D.view disk)))) }
    {
        let OpenedJournal { journal, records } = match JournalPair::open_on(alloc, disk) {
            Ok(opened) => opened,
            Err(refused) => {
                return Err(Refused {
                    fault: fault_of(refused.fault),
                    disk: refused.disk,
                });
            }
        };
        match replay(alloc, records) {
            Ok(value) => Ok(Opened {
                kept: Kept {
                    alloc,
                    journal,
                    asked: None,
                    stands: false,
                },
                value,
            }),
            Err(fault) => Err(Refused {
                fault,
                disk: journal.into_parts(),
            }),
        }
    }

    /// What keeps the value of a disk without records that couldn't be opened: it is shut until a reopening succeeds. It
    /// takes no memory.
    pub fn shut_on(alloc: Global, disk: D) -> Kept<V, D>
        requires { LeavesRecords (D.view disk) (λ found. found ≡ []) }
        ensures shut { result ≡ calm (record { records = []; other = None; shut = true; disk = D.view disk }) }
        ensures kept { (s : V.kind.State) → V.kind.spelled [] ≡ Some s → IsKept V.kind s result }
    {
        Kept {
            alloc,
            journal: JournalPair::shut_on(alloc, disk),
            asked: None,
            stands: false,
        }
    }

    /// Makes a change of the value, whose record stands then. After `Ok` every crash leaves it.
    ///
    /// After `Disk` it is shut, the value is as it was, and a reopening finds the change done or not; done in any case
    /// where the disk failed as the journal was compacted. After `Memory` nothing changed. A compaction for which memory
    /// is wanting is left to the next such change, and this one answers as without it.
    ///
    /// Cost: the record's bytes: two writes and two syncs. Where the journal is compacted, the bytes of all its records
    /// and of those that it is compacted to, and four writes more.
    pub fn write(&mut self, value: &mut V, change: V::Change) -> Result<(), Fault>
        requires up { self.old.journal.shut ≡ false }
        requires sound { V.IsSound value.old }
        requires kept { IsKept V.kind (V.state value.old) self.old }
        requires can { V.kind.CanChange (V.state value.old) change }
        ensures sound { V.IsSound value.new }
        ensures kept { IsKept V.kind (V.state value.new) self.new }
        ensures ok { OnOk result ((V.state value.new ≡ V.kind.changed (V.state value.old) change) × (self.new ≡ calm self.new.journal) × (self.new.journal.shut ≡ false)) }

        // It is just two writes where the journal isn't compacted, and at most six where it is.
        ensures writes { OnOk result (TakesWrite 4 self.old.journal.disk self.new.journal.disk) }
        ensures one_more { V.kind.compacts change (length self.old.journal.records + 1) ≡ false → OnOk result (AddsOne self.old.journal self.new.journal) }
        ensures memory { IsErrOf result Fault.Memory → (V.state value.new ≡ V.state value.old) × (self.new ≡ record self.old { journal = record self.old.journal { disk = self.new.journal.disk } }) × Spares 1 self.old.journal.disk self.new.journal.disk }
        ensures disk { IsErrOf result Fault.Disk → (V.state value.new ≡ V.state value.old) × (self.new.asked ≡ Some change) × (self.new.journal.shut ≡ true) × (self.new.journal.disk.faults ≡ bumped self.old.journal.disk.faults) }
        ensures word { self.new.journal.disk.word ≡ self.old.journal.disk.word }
        ensures faults { self.old.journal.disk.faults ≤ self.new.journal.disk.faults }
        ensures armed { self.new.journal.disk.armed ≤ self.old.journal.disk.armed }

        // A crash inside it leaves what was kept before it, or after it.
        ensures any_crash { AnyCrashLeaves self.old.journal.disk self.new.journal.disk (BeforeOrAfter V.kind (V.state value.old) change) }
    {
        value.make_room(&change)?;
        let bytes = value.spell(self.alloc, &change)?;
        match self.journal.append(bytes.as_slice()) {
            Ok(()) => self.make(value, change),
            Err(AppendFault::Disk) => {
                self.asked = Some(change);
                Err(Fault::Disk)
            }
            Err(AppendFault::Memory) => Err(Fault::Memory),
            Err(AppendFault::Shut) => unreachable!(),
        }
    }

    // Makes a change whose record stands, once the journal is compacted where it is to be.
    fn make(&mut self, value: &mut V, change: V::Change) -> Result<(), Fault>
        requires up { self.old.journal.shut ≡ false }
        requires calm { self.old ≡ calm self.old.journal }
        requires sound { V.IsSound value.old }
        requires can { V.kind.CanChange (V.state value.old) change }
        requires room { V.HasRoom value.old change }
        requires spelled { V.kind.spelled self.old.journal.records ≡ Some (V.kind.changed (V.state value.old) change) }
        requires survives { pair.Survives self.old.journal }
        ensures sound { V.IsSound value.new }
        ensures kept { IsKept V.kind (V.state value.new) self.new }
        ensures ok { OnOk result ((V.state value.new ≡ V.kind.changed (V.state value.old) change) × (self.new ≡ calm self.new.journal) × (self.new.journal.shut ≡ false)) }
        ensures spares { OnOk result (Spares 4 self.old.journal.disk self.new.journal.disk) }
        ensures same { V.kind.compacts change (length self.old.journal.records) ≡ false → (result ≡ Ok tt) × (self.new.journal ≡ self.old.journal) }
        ensures memory { IsErrOf result Fault.Memory → ⊥ }
        ensures disk { IsErrOf result Fault.Disk → (V.state value.new ≡ V.state value.old) × (self.new.asked ≡ Some change) × (self.new.journal.shut ≡ true) × (self.new.journal.disk.faults ≡ bumped self.old.journal.disk.faults) }
        ensures word { self.new.journal.disk.word ≡ self.old.journal.disk.word }
        ensures faults { self.old.journal.disk.faults ≤ self.new.journal.disk.faults }
        ensures armed { self.new.journal.disk.armed ≤ self.old.journal.disk.armed }
        ensures any_crash { AnyCrashLeaves self.old.journal.disk self.new.journal.disk (λ found. V.kind.spelled found ≡ Some (V.kind.changed (V.state value.old) change)) }
    {
        match compact(self.alloc, &mut self.journal, value, &change) {
            Ok(()) => {
                value.change(change);
                Ok(())
            }
            Err(Failed) => {
                self.asked = Some(change);
                self.stands = true;
                Err(Fault::Disk)
            }
        }
    }

    /// Opens the disk again, as after a crash, with an image that the word may pick: the value with the change in which
    /// the disk failed, or without.
    ///
    /// After `Disk` it is shut, and the value is as it was; after `Memory` it is that and shut or not as before.
    /// Cost: two reads of nine bytes a record and four reads more, and at most four writes.
    pub fn reopen(&mut self, value: &mut V, word: u64) -> Result<(), Fault>
        requires sound { V.IsSound value.old }
        requires kept { IsKept V.kind (V.state value.old) self.old }
        ensures sound { V.IsSound value.new }
        ensures kept { IsKept V.kind (V.state value.new) self.new }
        ensures ok { OnOk result ((self.new ≡ calm self.new.journal) × (self.new.journal.shut ≡ false)) }
        ensures found { OnOk result ((done : Bool) × (self.old.stands ≡ true → done ≡ true) × (V.state value.new ≡ reopened_by V.kind (V.state value.old) self.old.asked done)) }
        ensures no_fault { OnOk result (self.new.journal.disk.faults ≡ self.old.journal.disk.faults) }
        ensures disarmed { OnOk result (self.new.journal.disk.armed ≡ 0) }
        ensures memory { IsErrOf result Fault.Memory → (V.state value.new ≡ V.state value.old) × (self.new ≡ record self.old { journal = record self.old.journal { disk = self.new.journal.disk } }) × (self.new.journal.disk.faults ≡ self.old.journal.disk.faults) }
        ensures disk { IsErrOf result Fault.Disk → (V.state value.new ≡ V.state value.old) × (self.new ≡ record self.old { journal = record self.old.journal { shut = true; disk = self.new.journal.disk } }) × (self.new.journal.disk.faults ≡ bumped self.old.journal.disk.faults) }

        // Its disk was reopened by the word; where memory was wanting or the disk failed it may not have been.
        ensures word { OnOk result (self.new.journal.disk.word ≡ word) }
        ensures word_memory { IsErrOf result Fault.Memory → Tries word self.old.journal.disk self.new.journal.disk }
        ensures word_disk { IsErrOf result Fault.Disk → Tries word self.old.journal.disk self.new.journal.disk }
        ensures faults { self.old.journal.disk.faults ≤ self.new.journal.disk.faults }
        ensures armed { self.new.journal.disk.armed ≤ self.old.journal.disk.armed }

        // A crash inside it leaves what one before it may leave.
        ensures any_crash { AnyCrashLeaves self.old.journal.disk self.new.journal.disk (MayFind V.kind (V.state value.old) self.old) }
    {
        make_room(value, &self.asked)?;
        let before = self.journal.count();
        match self.journal.reopen(word) {
            Ok(()) => {
                let done = is_done(self.stands, before, self.journal.count());
                let asked = self.asked.take();
                self.stands = false;
                settle(value, asked, done);
                Ok(())
            }
            Err(Fault::Memory) => Err(Fault::Memory),
            Err(Fault::Disk) => Err(Fault::Disk),
        }
    }

    /// How many records its journal has.
    pub fn count(&self) -> usize
        ensures { result ≡ length self.now.journal.records }
    {
        self.journal.count()
    }

    /// The disk failed in some call since the last reopening that succeeded: nothing is written until one does.
    pub fn is_shut(&self) -> bool
        ensures { result ≡ self.now.journal.shut }
    {
        self.journal.is_shut()
    }

    /// How often the disk has failed.
    pub fn disk_faults(&self) -> u64
        ensures { result ≡ self.now.journal.disk.faults }
    {
        self.journal.disk_faults()
    }

    /// Arms the disk: its write number `after` from now on stops inside itself, as in a crash; 0 takes that back.
    pub fn stop(&mut self, after: u64)
        ensures stops { self.new ≡ record self.old { journal = record self.old.journal { disk = if self.old.journal.disk.stopped then self.old.journal.disk else record self.old.journal.disk { armed = after } } } }
        ensures kept { (s : V.kind.State) → IsKept V.kind s self.old → IsKept V.kind s self.new }
        ensures arms { (s : V.kind.State) → IsKept V.kind s self.old → self.old.journal.shut ≡ false → self.new.journal.disk ≡ record self.old.journal.disk { armed = after } }
    {
        self.journal.stop(after);
    }

    /// The disk.
    pub fn into_parts(self) -> D
        ensures { D.view result ≡ self.journal.disk }
    {
        let Kept {
            alloc: _,
            journal,
            asked: _,
            stands: _,
        } = self;
        journal.into_parts()
    }
}
