//! A store over its disk.
ghost use Rattle.std.specs.Prelude.{◌≡◌, ◌≢◌, ◌⊎◌, ℕ, ◌+◌, ◌≤◌, ◌↔◌, Bool, true, false, Some, None, Ok, [], IfOk, IfErr, OnOk, IsErrOf, length, if◌then◌else◌};
ghost use Rattle.disk_model.specs.Disk.{reads, IsSynced, bumped};
ghost use Rattle.disk_model.specs.Armed.{Spends};
ghost use Rattle.journal_pair.specs.Records.{records_of};
ghost use Rattle.journal_pair.specs.Journal.{LeavesRecords, AnyCrashLeaves};
ghost use Rattle.store_records.specs.Spelled.{nothing_saved, committed, saved_of, IsFirstBad};
ghost use Rattle.kept_value.specs.View.{Spares};
ghost use Rattle.kept_value.specs.Keeping as keeping;
ghost use Rattle.local_store.specs.Keeping.{base_kind};
ghost use Rattle.local_store.specs.View.{View, txn_commit, saved_in, reopened, up_with, MayFind, MayFindDuring, Survives, CountsWrites};

use crate::asked::Asked;
use crate::base::Base;
use crate::fault::CommitFault;
use crate::txn::Txn;
use disk_model::Disk;
use kept_value::{Fault, Kept, OpenFault, Opened, Refused};
use std::alloc::{AllocError, Global};
use std::marker::Model;
use std::sync::Arc;

/// The space of a node and a cursor, over a journal of two areas on a disk.
///
/// Contracts see it as a `View`: the cursor and the space; the transaction in which the disk failed, and whether its record
/// stands; whether it is down; and its disk. A crash leaves what a reopening may find, and while the store is up just what it shows.
///
/// Memory: the space. The records of the transactions stand on the disk alone, and a transaction after which there are more
/// than 256 of them puts one in their place, by which each key that has a value gets it.
#[derive(Drop)]
pub struct Store<D: Disk> {
    alloc: Global,
    kept: Kept<Base, D>,
    base: Arc<Base>,
}

impl<D: Disk> Model for Store<D> {
    ghost use Rattle.local_store.specs.View.{View, view_code};

    ghost Value = { View };

    ghost coded = { view_code };

    ghost use Rattle.std.specs.Arc.{arc_value};
    ghost use Rattle.local_store.specs.Keeping.{view_of, IsKept};

    ghost view = { λ s. view_of (arc_value s.base) s.kept };

    ghost invariant = { λ s. IsKept (arc_value s.base) s.kept };
}

impl<D: Disk> Store<D> {
    /// Opens a disk on which nothing is pending: the store keeps what its records spell, and is up. An empty disk has
    /// cursor 0 and the empty space. A refusal hands the disk back, with the same records. A crash inside leaves the same
    /// records.
    ///
    /// Cost: one pass over the records, with O(log n) comparisons for each change of a space of n keys.
    pub fn open_on(alloc: Global, disk: D) -> Result<Store<D>, Refused<D>>
        requires { IsSynced (D.view disk) }
        ensures spelled { IfOk result (λ s. saved_of (records_of (reads (D.view disk))) ≡ Some (saved_in s)) }
        ensures up { IfOk result (λ s. s.down ≡ false) }
        ensures survives { IfOk result Survives }
        ensures any_crash { IfOk result (λ s. AnyCrashLeaves (D.view disk) s.disk (λ found. found ≡ records_of (reads (D.view disk)))) }
        ensures faults { IfOk result (λ s. s.disk.faults ≡ (D.view disk).faults) }
        ensures word { IfOk result (λ s. s.disk.word ≡ (D.view disk).word) }

        // At most four writes were made: it is armed where it was, and one that fails may have reached the armed write.
        ensures spends { IfOk result (λ s. Spends 4 (D.view disk).armed s.disk.armed) }
        ensures four_writes_refused { IfErr result (λ e. (D.view disk).armed ≤ (D.view e.disk).armed + 4) }
        ensures spends_refused { IfErr result (λ e. e.fault ≢ OpenFault.Disk → Spends 4 (D.view disk).armed (D.view e.disk).armed) }
        ensures word_refused { IfErr result (λ e. (D.view e.disk).word ≡ (D.view disk).word) }
        ensures no_fault_refused { IfErr result (λ e. e.fault ≢ OpenFault.Disk → (D.view e.disk).faults ≡ (D.view disk).faults) }

        // The first record that is none of a store's or whose cursor falls is told; a disk's fault was counted.
        ensures bad { (index : ℕ) → IfErr result (λ e. e.fault ≡ OpenFault.BadRecord index → IsFirstBad (records_of (reads (D.view disk))) index) }
        ensures failed { IfErr result (λ e. e.fault ≡ OpenFault.Disk → (D.view e.disk).faults ≡ bumped (D.view disk).faults) }
        ensures any_crash_refused { IfErr result (λ e. AnyCrashLeaves (D.view disk) (D.view e.disk) (λ found. found ≡ records_of (reads (D.view disk)))) }
    {
        let Opened { kept, value } = Kept::open_on(alloc, disk)?;
        match Arc::new(alloc, value) {
            Ok(base) => Ok(Store { alloc, kept, base }),
            Err(_) => Err(Refused {
                fault: OpenFault::Memory,
                disk: kept.into_parts(),
            }),
        }
    }

    /// Begins a store on a disk that has no records and on which nothing is pending: cursor 0, and the empty space. Where
    /// the disk fails as it is opened, the store is down until a reopening succeeds. Without memory the disk comes back, which
    /// may have been written to: it still has no records. A crash inside leaves no record.
    ///
    /// Cost: four writes of a few bytes at most, and their syncs; the memory of an empty space.
    pub fn begin_on(alloc: Global, disk: D) -> Result<Store<D>, D>
        requires synced { IsSynced (D.view disk) }
        requires empty { records_of (reads (D.view disk)) ≡ [] }
        ensures start { IfOk result (λ s. saved_in s ≡ nothing_saved) }
        ensures none_asked { IfOk result (λ s. (s.asked ≡ None) × (s.stands ≡ false)) }
        ensures survives { IfOk result Survives }
        ensures any_crash { IfOk result (λ s. AnyCrashLeaves (D.view disk) s.disk (λ found. found ≡ [])) }
        ensures word { IfOk result (λ s. s.disk.word ≡ (D.view disk).word) }
        ensures faults { IfOk result (λ s. (D.view disk).faults ≤ s.disk.faults) }

        // It is down just where the disk failed, and then that was counted.
        ensures down { IfOk result (λ s. s.down ≡ true → s.disk.faults ≡ bumped (D.view disk).faults) }
        ensures up { IfOk result (λ s. s.down ≡ false → s.disk.faults ≡ (D.view disk).faults) }
        ensures spends { IfOk result (λ s. s.down ≡ false → Spends 4 (D.view disk).armed s.disk.armed) }
        ensures four_writes { IfOk result (λ s. (D.view disk).armed ≤ s.disk.armed + 4) }

        // The disk that comes back is one on which a store may be begun, and no fault of it was counted.
        ensures synced_back { IfErr result (λ d. IsSynced (D.view d)) }
        ensures empty_back { IfErr result (λ d. records_of (reads (D.view d)) ≡ []) }
        ensures memory { IfErr result (λ d. Spares 4 (D.view disk) (D.view d)) }
        ensures any_crash_back { IfErr result (λ d. AnyCrashLeaves (D.view disk) (D.view d) (λ found. found ≡ [])) }
    {
        let Ok(base) = Arc::new(alloc, Base::new(alloc)) else {
            return Err(disk);
        };
        match begin_kept(alloc, disk) {
            Ok(kept) => Ok(Store { alloc, kept, base }),
            Err(disk) => Err(disk),
        }
    }

    /// A transaction that begins with what the store shows, also where it is down. Cost: constant; nothing is copied.
    pub fn begin(&self) -> Result<Txn, AllocError>
        ensures begun { IfOk result (λ txn. txn ≡ record { base = self.now.contents; changes = [] }) }
        ensures survives { Survives self.now }
    {
        let base = Arc::try_clone(&self.base)?;
        Ok(Txn::new(self.alloc, base))
    }

    /// Makes the changes of a transaction, with a cursor that doesn't fall. After `Ok` every crash leaves them, whole and
    /// with the cursor. The store makes them in what it shows: where that is still what the transaction began with, it
    /// then has what the transaction had as a space.
    ///
    /// A refused transaction is let go, with its changes. After `Disk` the store is down, shows what it showed, and a
    /// reopening finds the transaction whole or not at all. `Down` comes just where the store is down, and changes nothing.
    /// After `Memory` it shows what it showed.
    ///
    /// Cost: O(log n) comparisons for each change in a space of n keys, and the record's bytes; nothing else is copied, but
    /// for the space once where another transaction that has begun hasn't ended. Every 256th or so spells the space once.
    pub fn commit(&mut self, txn: Txn, cursor: u64) -> Result<(), CommitFault>
        requires { self.old.cursor ≤ cursor }
        ensures ok { OnOk result (self.new ≡ up_with (committed (saved_in self.old) (txn_commit cursor txn)) self.new.disk) }
        ensures durable { OnOk result (LeavesRecords self.new.disk (λ found. saved_of found ≡ Some (saved_in self.new))) }
        ensures down { IsErrOf result CommitFault.Down ↔ (self.old.down ≡ true) }
        ensures down_same { IsErrOf result CommitFault.Down → self.new ≡ self.old }
        ensures memory { IsErrOf result CommitFault.Memory → self.new ≡ record self.old { disk = self.new.disk } }
        ensures disk { IsErrOf result CommitFault.Disk → (self.new ≡ record self.old { asked = Some (txn_commit cursor txn); stands = self.new.stands; down = true; disk = self.new.disk }) × (self.new.disk.faults ≡ bumped self.old.disk.faults) }

        // A crash inside it leaves what one before it may leave, or the transaction, whole and with its cursor.
        ensures any_crash { AnyCrashLeaves self.old.disk self.new.disk (MayFindDuring self.old (txn_commit cursor txn)) }
        ensures survives { Survives self.new }
        ensures faults { self.old.disk.faults ≤ self.new.disk.faults }
        ensures no_fault { IsErrOf result CommitFault.Memory → self.new.disk.faults ≡ self.old.disk.faults }
        ensures ok_faults { OnOk result (self.new.disk.faults ≡ self.old.disk.faults) }

        // It is the two writes of a record, and up to six where it compacts; one at most without memory.
        ensures counted { OnOk result (CountsWrites self.old.disk self.new.disk) }
        ensures spends { IsErrOf result CommitFault.Memory → Spends 1 self.old.disk.armed self.new.disk.armed }
        ensures word { self.new.disk.word ≡ self.old.disk.word }
    {
        if self.kept.is_shut() {
            return Err(CommitFault::Down);
        }
        let changes = txn.into_changes();
        let base = Arc::make_mut(&mut self.base)?;
        match self.kept.write(base, Asked { cursor, changes }) {
            Ok(()) => return Ok(()),
            Err(Fault::Disk) => return Err(CommitFault::Disk),
            Err(Fault::Memory) => return Err(CommitFault::Memory),
        }
    }

    /// Brings the store up, with the transaction in which the disk failed or without, as the word may pick; with it where
    /// its record stands. A store that is up stays as it is. After `Disk` and after `Memory` it shows what it showed, and is still down.
    ///
    /// Cost: one pass over the journal, and as a commit.
    pub fn reopen(&mut self, word: u64) -> Result<(), Fault>
        ensures up { self.old.down ≡ false → (result ≡ Ok tt) × (self.new ≡ self.old) }
        ensures ok { OnOk result ((kept : Bool) × (self.old.stands ≡ true → kept ≡ true) × (self.new ≡ up_with (reopened self.old kept) self.new.disk)) }
        ensures durable { OnOk result (LeavesRecords self.new.disk (λ found. saved_of found ≡ Some (saved_in self.new))) }
        ensures memory { IsErrOf result Fault.Memory → (self.new ≡ record self.old { disk = self.new.disk }) × (self.new.disk.faults ≡ self.old.disk.faults) }
        ensures disk { IsErrOf result Fault.Disk → (self.new ≡ record self.old { disk = self.new.disk }) × (self.new.disk.faults ≡ bumped self.old.disk.faults) }

        // The disk of one that was down was reopened by this word, or refused.
        ensures word { self.old.down ≡ true → OnOk result (self.new.disk.word ≡ word) }
        ensures word_refused { (self.new.disk.word ≡ word) ⊎ (self.new.disk.word ≡ self.old.disk.word) }

        // A crash inside it leaves what one before it may leave.
        ensures any_crash { AnyCrashLeaves self.old.disk self.new.disk (MayFind self.old) }
        ensures survives { Survives self.new }
        ensures faults { self.old.disk.faults ≤ self.new.disk.faults }
        ensures disarmed { self.old.down ≡ true → OnOk result ((self.new.disk.armed ≡ 0) × (self.new.disk.faults ≡ self.old.disk.faults)) }
    {
        if !self.kept.is_shut() {
            return Ok(());
        }
        let base = Arc::make_mut(&mut self.base)?;
        self.kept.reopen(base, word)?;
        Ok(())
    }

    /// The cursor of the last transaction; 0 where there was none.
    pub fn cursor(&self) -> u64
        ensures cursor { result ≡ self.now.cursor }
        ensures survives { Survives self.now }
    {
        self.base.cursor
    }

    /// Whether every commit answers `Down`: the disk failed in one, and no reopening succeeded since.
    pub fn is_down(&self) -> bool
        ensures down { result ≡ self.now.down }
        ensures survives { Survives self.now }
    {
        self.kept.is_shut()
    }

    /// How many records its journal has. Constant time.
    pub fn records(&self) -> usize
        ensures { self.now.down ≡ false → result ≡ length (records_of (reads self.now.disk)) }
    {
        self.kept.count()
    }

    /// How often the disk has failed.
    pub fn disk_faults(&self) -> u64
        ensures { result ≡ self.now.disk.faults }
    {
        self.kept.disk_faults()
    }

    /// Arms the disk: its write number `after` from now on stops inside itself, as in a crash; 0 takes that back.
    pub fn stop(&mut self, after: u64)
        ensures stops { self.new ≡ record self.old { disk = if self.old.disk.stopped then self.old.disk else record self.old.disk { armed = after } } }
        ensures arms { self.old.down ≡ false → self.new.disk ≡ record self.old.disk { armed = after } }
        ensures survives { Survives self.new }
    {
        self.kept.stop(after);
    }

    /// The disk.
    pub fn into_parts(self) -> D
        ensures disk { D.view result ≡ self.disk }
        ensures survives { Survives self }
    {
        let Store {
            alloc: _,
            kept,
            base: _,
        } = self;
        kept.into_parts()
    }
}

/// What keeps the empty space, on a disk without records. Where the disk fails as it is opened, it is shut.
fn begin_kept<D: Disk>(alloc: Global, disk: D) -> Result<Kept<Base, D>, D>
    requires synced { IsSynced (D.view disk) }
    requires empty { records_of (reads (D.view disk)) ≡ [] }
    ensures kept { IfOk result (keeping.IsKept base_kind nothing_saved) }
    ensures none_asked { IfOk result (λ k. (k.asked ≡ None) × (k.stands ≡ false)) }
    ensures any_crash { IfOk result (λ k. AnyCrashLeaves (D.view disk) k.journal.disk (λ found. found ≡ [])) }
    ensures word { IfOk result (λ k. k.journal.disk.word ≡ (D.view disk).word) }
    ensures faults { IfOk result (λ k. (D.view disk).faults ≤ k.journal.disk.faults) }
    ensures shut { IfOk result (λ k. k.journal.shut ≡ true → k.journal.disk.faults ≡ bumped (D.view disk).faults) }
    ensures opened { IfOk result (λ k. k.journal.shut ≡ false → Spares 4 (D.view disk) k.journal.disk) }
    ensures four_writes { IfOk result (λ k. (D.view disk).armed ≤ k.journal.disk.armed + 4) }
    ensures synced_back { IfErr result (λ d. IsSynced (D.view d)) }
    ensures empty_back { IfErr result (λ d. records_of (reads (D.view d)) ≡ []) }
    ensures memory { IfErr result (λ d. Spares 4 (D.view disk) (D.view d)) }
    ensures any_crash_back { IfErr result (λ d. AnyCrashLeaves (D.view disk) (D.view d) (λ found. found ≡ [])) }
{
    match Kept::<Base, D>::open_on(alloc, disk) {
        Ok(opened) => Ok(opened.kept),
        Err(refused) => match refused.fault {
            OpenFault::Disk => Ok(Kept::shut_on(alloc, refused.disk)),
            OpenFault::Memory => Err(refused.disk),
            OpenFault::BadRecord { index: _ } => unreachable!(),
        },
    }
}
