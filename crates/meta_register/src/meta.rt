//! A register over its disk.
ghost use Rattle.std.specs.Prelude.{◌≡◌, ◌≢◌, ◌⊎◌, ℕ, ◌+◌, ◌-◌, ◌^◌, ◌<◌, ◌≤◌, true, false, if◌then◌else◌, Some, None, [], length, IfOk, IfErr, OnErr, Ok};
ghost use Rattle.disk_model.specs.Disk.{reads, IsSynced, bumped};
ghost use Rattle.disk_model.specs.Armed.{Spends};
ghost use Rattle.journal_pair.specs.Records.{records_of};
ghost use Rattle.journal_pair.specs.Journal.{AnyCrashLeaves};
ghost use Rattle.chain_map.specs.Chain.{IsChain};
ghost use Rattle.register_api.specs.View.{IsFresh, armed_by};
ghost use Rattle.register_api.specs.Calls.{Reads, Writes, Reopens};
ghost use Rattle.meta_register.specs.Records.{standing_of, IsFirstBad};
ghost use Rattle.meta_register.specs.View.{View, MayFind, MayFindDuring, Survives, standing_in_view, counted, downs_after, CountsWrites};

use crate::counts::Counts;
use crate::standing::{Standing, remember};
use delos_types::chain::Chain;
use disk_model::Disk;
use kept_value::{Fault, Kept, OpenFault, Opened, Refused};
use register_api::{ReadAnswer, Register, WriteAnswer};
use std::alloc::{AllocError, Global};
use std::marker::Model;

/// A register over a journal of two areas on a disk. Its faults are those of its disk, and its `Down` answers.
///
/// Contracts see it as a `View`: what every register shows, and its disk. A crash leaves what a reopening may find; while
/// it is up, just what stands.
///
/// Cost: a read copies the chain, a write copies and spells it: at most 64 segments. A write after which there are more than
/// 64 records puts the last one in the place of all, which reads them once. A reopening goes over the records. Memory: three
/// chains at most.
#[derive(Drop)]
pub struct MetaRegister<D: Disk> {
    kept: Kept<Standing, D>,
    standing: Standing,
    /// What was given last, where that isn't what stands.
    older: Option<Standing>,
    counts: Counts,
}

impl<D: Disk> Model for MetaRegister<D> {
    ghost use Rattle.meta_register.specs.View.{View};
    ghost use Rattle.meta_register.specs.Keeping.{view_of, IsKept};

    ghost Value = { View };

    ghost view = { λ r. view_of r.standing r.older r.counts r.kept };

    ghost invariant = { λ r. IsKept r.standing r.older r.kept };
}

impl<D: Disk> MetaRegister<D> {
    /// Opens a disk on which nothing is pending: what its records spell stands, and was given last. An empty disk is a
    /// fresh register. A refusal hands the disk back, with the same records. A crash inside leaves the same records.
    ///
    /// Cost: one pass over the records.
    pub fn open_on(alloc: Global, disk: D) -> Result<MetaRegister<D>, Refused<D>>
        requires { IsSynced (D.view disk) }
        ensures spelled { IfOk result (λ r. standing_of (records_of (reads (D.view disk))) ≡ Some (standing_in_view r.register)) }
        ensures up { IfOk result (λ r. (r.register.down ≡ false) × (r.register.given ≡ r.register.version) × (r.register.misses ≡ 0)) }
        ensures fresh { records_of (reads (D.view disk)) ≡ [] → (D.view disk).faults ≡ 0 → (D.view disk).armed ≡ 0 → IfOk result (λ r. IsFresh r.register) }
        ensures empty { reads (D.view disk) ≡ [] → (D.view disk).faults ≡ 0 → (D.view disk).armed ≡ 0 → IfOk result (λ r. IsFresh r.register) }
        ensures survives { IfOk result Survives }
        ensures any_crash { IfOk result (λ r. AnyCrashLeaves (D.view disk) r.disk (λ found. found ≡ records_of (reads (D.view disk)))) }
        ensures faults { IfOk result (λ r. r.disk.faults ≡ (D.view disk).faults) }
        ensures word { IfOk result (λ r. (r.disk.word ≡ (D.view disk).word) × (r.register.word ≡ (D.view disk).word)) }
        ensures uncounted { IfOk result (λ r. (r.downs ≡ 0) × (r.register.stops ≡ 0) × (r.register.reopenings ≡ 0)) }

        // At most four writes were made: it is armed where it was, and one that fails may have reached the armed write.
        ensures spends { IfOk result (λ r. Spends 4 (D.view disk).armed r.disk.armed) }
        ensures armed { IfOk result (λ r. r.register.armed ≡ r.disk.armed) }
        ensures four_writes_refused { IfErr result (λ e. (D.view disk).armed ≤ (D.view e.disk).armed + 4) }
        ensures spends_refused { IfErr result (λ e. e.fault ≢ OpenFault.Disk → Spends 4 (D.view disk).armed (D.view e.disk).armed) }
        ensures word_refused { IfErr result (λ e. (D.view e.disk).word ≡ (D.view disk).word) }
        ensures no_fault_refused { IfErr result (λ e. e.fault ≢ OpenFault.Disk → (D.view e.disk).faults ≡ (D.view disk).faults) }

        // The first record that is none of a register's or doesn't follow is told; a disk's fault was counted.
        ensures bad { (index : ℕ) → IfErr result (λ e. e.fault ≡ OpenFault.BadRecord index → IsFirstBad (records_of (reads (D.view disk))) index) }
        ensures failed { IfErr result (λ e. e.fault ≡ OpenFault.Disk → (D.view e.disk).faults ≡ bumped (D.view disk).faults) }
        ensures any_crash_refused { IfErr result (λ e. AnyCrashLeaves (D.view disk) (D.view e.disk) (λ found. found ≡ records_of (reads (D.view disk)))) }
    {
        match Kept::open_on(alloc, disk) {
            Ok(Opened { kept, value }) => Ok(MetaRegister {
                kept,
                standing: value,
                older: None,
                counts: Counts::NONE,
            }),
            Err(refused) => Err(refused),
        }
    }

    /// Writes a chain under the next version.
    fn replace(&mut self, chain: &Chain) -> Result<WriteAnswer, AllocError>
        requires up { self.old.register.down ≡ false }
        requires small { self.old.register.version < 2 ^ 48 }
        requires chain { IsChain chain.now }
        ensures writes { Writes self.old.register self.old.register.version chain.now result self.new.register }
        ensures counted { (next : ℕ) → result ≡ Ok (WriteAnswer.Written next) → CountsWrites self.old.disk self.new.disk }
        ensures downs { self.new.downs ≡ self.old.downs }
        ensures any_crash { AnyCrashLeaves self.old.disk self.new.disk (MayFindDuring self.old.register chain.now) }
        ensures survives { Survives self.new }
    {
        let _open = &self.standing;
        let given = chain.clone()?;
        match self.kept.write(&mut self.standing, given) {
            Ok(()) => {
                self.older = None;
                Ok(WriteAnswer::Written(self.standing.version))
            }
            Err(Fault::Disk) => Ok(WriteAnswer::MetaFault),
            Err(Fault::Memory) => Err(AllocError),
        }
    }

    /// How many records its journal has. Constant time.
    pub fn records(&self) -> usize
        ensures { self.now.register.down ≡ false → result ≡ length (records_of (reads self.now.disk)) }
    {
        self.kept.count()
    }

    /// The disk.
    pub fn into_parts(self) -> D
        ensures disk { D.view result ≡ self.disk }
        ensures survives { Survives self }
    {
        let MetaRegister {
            kept,
            standing: _,
            older: _,
            counts: _,
        } = self;
        kept.into_parts()
    }
}

impl<D: Disk> Register for MetaRegister<D> {
    ghost view = { λ r. r.register };

    fn read(&mut self) -> Result<ReadAnswer, AllocError>
        ensures reads { Reads self.old.register result self.new.register }
        ensures disk { self.new.disk ≡ self.old.disk }
        ensures downs { self.new.downs ≡ downs_after self.old }
    {
        if self.kept.is_shut() {
            self.counts = self.counts.with_down();
            return Ok(ReadAnswer::Down);
        }
        let chain = self.standing.chain.clone()?;
        self.older = None;
        Ok(ReadAnswer::At(self.standing.version, chain))
    }

    fn write(&mut self, expected: u64, chain: &Chain) -> Result<WriteAnswer, AllocError>
        requires version { self.old.register.version < 2 ^ 48 }
        requires chain { IsChain chain.now }
        ensures writes { Writes self.old.register expected chain.now result self.new.register }
        ensures downs { self.new.downs ≡ downs_after self.old }

        // A good write is the two writes of a record, and up to six where it compacts; what isn't to write leaves the disk
        // as it was.
        ensures counted { (next : ℕ) → result ≡ Ok (WriteAnswer.Written next) → CountsWrites self.old.disk self.new.disk }
        ensures conflict { expected ≢ self.old.register.version → self.new.disk ≡ self.old.disk }
        ensures down { self.old.register.down ≡ true → self.new.disk ≡ self.old.disk }

        // A crash inside it leaves what one before it may leave, or the chain under the next version.
        ensures any_crash { AnyCrashLeaves self.old.disk self.new.disk (MayFindDuring self.old.register chain.now) }
        ensures wrong { expected ≢ self.old.register.version → AnyCrashLeaves self.old.disk self.new.disk (MayFind self.old.register) }
        ensures survives { Survives self.new }
    {
        if self.kept.is_shut() {
            self.counts = self.counts.with_down();
            return Ok(WriteAnswer::Down);
        }
        let version = self.standing.version;
        if expected != version {
            let standing = self.standing.chain.clone()?;
            self.older = None;
            return Ok(WriteAnswer::Conflict(version, standing));
        }
        self.replace(chain)
    }

    fn stop(&mut self, after: u64)
        ensures stops { self.new.register ≡ armed_by self.old.register after }
        ensures disk { self.new ≡ record self.old { register = self.new.register; disk = if self.old.disk.stopped then self.old.disk else record self.old.disk { armed = after } } }
        ensures arms { self.old.register.down ≡ false → self.new.disk ≡ record self.old.disk { armed = after } }
        ensures survives { Survives self.new }
    {
        self.counts = self.counts.with_stop();
        self.kept.stop(after);
    }

    fn reopen(&mut self, word: u64) -> Result<bool, AllocError>
        ensures reopens { Reopens self.old.register word result self.new.register }
        ensures downs { self.new.downs ≡ self.old.downs }

        // Where it is up the disk stays as it was; else, where it succeeds, nothing is armed, it was reopened by this word, and no
        // fault was counted.
        ensures idle { self.old.register.down ≡ false → self.new.disk ≡ self.old.disk }
        ensures disarmed { self.old.register.down ≡ true → IfOk result (λ up. up ≡ true → self.new.disk.armed ≡ 0) }
        ensures word { self.old.register.down ≡ true → IfOk result (λ up. up ≡ true → self.new.disk.word ≡ word) }
        ensures no_fault { IfOk result (λ up. up ≡ true → self.new.disk.faults ≡ self.old.disk.faults) }
        ensures no_fault_memory { OnErr result (self.new.disk.faults ≡ self.old.disk.faults) }

        // A crash inside it leaves what one before it may leave.
        ensures any_crash { AnyCrashLeaves self.old.disk self.new.disk (MayFind self.old.register) }
        ensures survives { Survives self.new }
    {
        if !self.kept.is_shut() {
            self.counts = self.counts.with_reopening();
            return Ok(true);
        }
        let before = Standing {
            version: self.standing.version,
            chain: self.standing.chain.clone()?,
        };
        match self.kept.reopen(&mut self.standing, word) {
            Ok(()) => {
                remember(&mut self.older, before, &self.standing);
                self.counts = self.counts.with_reopening();
                Ok(true)
            }
            Err(Fault::Memory) => Err(AllocError),
            Err(Fault::Disk) => {
                self.counts = self.counts.with_miss();
                Ok(false)
            }
        }
    }

    fn version(&self) -> u64 {
        match &self.older {
            Some(older) => older.version,
            None => self.standing.version,
        }
    }

    fn faults(&self) -> u64
        ensures value { result ≡ self.now.register.faults }
        ensures both { result ≡ counted self.now.disk.faults self.now.downs }
    {
        self.kept.disk_faults().saturating_add(self.counts.downs)
    }

    fn misses(&self) -> u64 {
        self.counts.misses
    }

    fn is_down(&self) -> bool {
        self.kept.is_shut()
    }
}
