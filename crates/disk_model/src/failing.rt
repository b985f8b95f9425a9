// A disk in memory some of whose calls fail.
ghost use Rattle.std.specs.Prelude.{◌≡◌, ◌≢◌, ◌⊎◌, ◌↔◌, ◌+◌, ◌-◌, ◌^◌, ◌<◌, ◌≤◌, ℕ, true, false, [], length, take, drop, min, if◌then◌else◌, IsTrue, IsErr, OnOk, OnErr, IsErrOf};
ghost use Rattle.disk_model.specs.Disk.{Written, CutTo, with_change, at_rest, OneStep, reads, bumped};
ghost use Rattle.disk_model.specs.Crash.{IsImage};
ghost use Rattle.disk_model.specs.Memory.{image};
ghost use Rattle.disk_model.specs.Failing.{shown, next_call, IsListed, refused};

use crate::{Disk, Failed, MemDisk, WriteFault};
use std::marker::Model;

/// A [`MemDisk`] whose calls with given numbers answer `Failed`, each raising the count of faults.
///
/// Calls are numbered from 1 on; `len`, `arm`, `stopped` and `faults` aren't counted. A call that fails so doesn't reach
/// the disk inside. Cost: each call looks through the list of numbers.
#[derive(Drop)]
pub struct FailDisk {
    disk: MemDisk,
    failing: Vec<u64>,
    calls: u64,
    failed: u64,
}

impl Model for FailDisk {
    ghost use Rattle.disk_model.specs.Failing.{FailView};

    ghost Value = { FailView };

    ghost view = { λ d. record { disk = d.disk; failing = d.failing.items; calls = d.calls; failed = d.failed } };
}

impl FailDisk {
    /// The calls with these numbers fail.
    pub fn new(disk: MemDisk, failing: Vec<u64>) -> FailDisk
        ensures { result ≡ record { disk = disk; failing = failing.items; calls = 0; failed = 0 } }
    {
        FailDisk {
            disk,
            failing,
            calls: 0,
            failed: 0,
        }
    }

    // Counts a call, and says whether it fails by its number.
    fn fails(&mut self) -> bool
        ensures listed { (result ≡ true) ↔ IsListed self.old }
        ensures counted { self.new ≡ (if result then refused self.old else record self.old { calls = next_call self.old }) }
    {
        self.calls = self.calls.saturating_add(1);
        if self.failing.contains(&self.calls) {
            self.failed = self.failed.saturating_add(1);
            return true;
        }
        false
    }
}

// Each call repeats the promises of every disk, and adds those of this one.
impl Disk for FailDisk {
    ghost view = { shown };

    fn len(&self) -> u64 {
        self.disk.len()
    }

    fn read(&mut self, at: u64, buf: &mut [u8]) -> Result<(), Failed>
        requires { at + length buf.old ≤ length (reads (shown self.old)) }
        ensures bytes { OnOk result (buf.new ≡ take (length buf.old) (drop at (reads (shown self.old)))) }
        ensures same { (shown self.new).timeline ≡ (shown self.old).timeline }
        ensures state { ((shown self.new).stopped ≡ (shown self.old).stopped) × ((shown self.new).armed ≡ (shown self.old).armed) }
        ensures word { (shown self.new).word ≡ (shown self.old).word }
        ensures faults { (shown self.old).faults ≤ (shown self.new).faults }
        ensures failed { OnErr result ((shown self.new).faults ≡ bumped (shown self.old).faults) }
        ensures no_fault { OnOk result ((shown self.new).faults ≡ (shown self.old).faults) }
        ensures stopped { (shown self.old).stopped ≡ true → IsErr result }

        // It counts the call, and fails just where it must.
        ensures numbered { ¬ (IsListed self.old) → self.new ≡ record self.old { disk = self.new.disk; calls = next_call self.old } }
        ensures listed { IsListed self.old → IsErr result × (self.new ≡ refused self.old) }
        ensures causes { OnErr result (IsListed self.old ⊎ (self.old.disk.stopped ≡ true)) }
    {
        if self.fails() {
            return Err(Failed);
        }
        self.disk.read(at, buf)
    }

    fn write_at(&mut self, at: u64, bytes: &[u8]) -> Result<(), WriteFault>
        ensures time { OneStep (shown self.old).timeline (with_change (shown self.old).timeline.now (Written at bytes.now)) (shown self.new).timeline }
        ensures ok { OnOk result (((shown self.new).timeline.now ≡ with_change (shown self.old).timeline.now (Written at bytes.now)) × ((shown self.new).stopped ≡ false)) }
        ensures fits { OnOk result (at + length bytes.now ≤ 2 ^ 48) }
        ensures failed { IsErrOf result WriteFault.Failed → (((shown self.new).timeline ≡ (shown self.old).timeline) ⊎ ((shown self.new).stopped ≡ true)) × ((shown self.new).faults ≡ bumped (shown self.old).faults) }
        ensures no_fault { OnOk result ((shown self.new).faults ≡ (shown self.old).faults) }
        ensures memory { IsErrOf result WriteFault.Memory → shown self.new ≡ shown self.old }
        ensures faults { (shown self.old).faults ≤ (shown self.new).faults }
        ensures stopped { (shown self.old).stopped ≡ true → IsErrOf result WriteFault.Failed × ((shown self.new).timeline ≡ (shown self.old).timeline) × ((shown self.new).stopped ≡ true) }
        ensures counted { OnOk result (((shown self.old).armed ≢ 1) × ((shown self.new).armed ≡ (shown self.old).armed - 1)) }
        ensures armed { ((shown self.new).armed ≡ (shown self.old).armed) ⊎ ((shown self.new).armed ≡ (shown self.old).armed - 1) }
        ensures word { (shown self.new).word ≡ (shown self.old).word }
        ensures stops { (shown self.new).stopped ≡ true → ((shown self.old).stopped ≡ true) ⊎ ((shown self.old).armed ≡ 1) }

        // It counts the call, and fails just where it must.
        ensures numbered { ¬ (IsListed self.old) → self.new ≡ record self.old { disk = self.new.disk; calls = next_call self.old } }
        ensures listed { IsListed self.old → IsErrOf result WriteFault.Failed × (self.new ≡ refused self.old) }
        ensures causes { IsErrOf result WriteFault.Failed → IsListed self.old ⊎ ((self.old.disk.stopped ≡ true) ⊎ ((self.old.disk.armed ≡ 1) ⊎ (2 ^ 48 < at + length bytes.now))) }
    {
        if self.fails() {
            return Err(WriteFault::Failed);
        }
        self.disk.write_at(at, bytes)
    }

    fn cut(&mut self, len: u64) -> Result<(), WriteFault>
        ensures time { OneStep (shown self.old).timeline (with_change (shown self.old).timeline.now (CutTo len)) (shown self.new).timeline }
        ensures ok { OnOk result (((shown self.new).timeline.now ≡ with_change (shown self.old).timeline.now (CutTo len)) × ((shown self.new).stopped ≡ false)) }
        ensures failed { IsErrOf result WriteFault.Failed → (((shown self.new).timeline ≡ (shown self.old).timeline) ⊎ ((shown self.new).stopped ≡ true)) × ((shown self.new).faults ≡ bumped (shown self.old).faults) }
        ensures no_fault { OnOk result ((shown self.new).faults ≡ (shown self.old).faults) }
        ensures memory { IsErrOf result WriteFault.Memory → shown self.new ≡ shown self.old }
        ensures faults { (shown self.old).faults ≤ (shown self.new).faults }
        ensures stopped { (shown self.old).stopped ≡ true → IsErrOf result WriteFault.Failed × ((shown self.new).timeline ≡ (shown self.old).timeline) × ((shown self.new).stopped ≡ true) }
        ensures counted { OnOk result (((shown self.old).armed ≢ 1) × ((shown self.new).armed ≡ (shown self.old).armed - 1)) }
        ensures armed { ((shown self.new).armed ≡ (shown self.old).armed) ⊎ ((shown self.new).armed ≡ (shown self.old).armed - 1) }
        ensures word { (shown self.new).word ≡ (shown self.old).word }
        ensures stops { (shown self.new).stopped ≡ true → ((shown self.old).stopped ≡ true) ⊎ ((shown self.old).armed ≡ 1) }

        // It counts the call, and fails just where it must.
        ensures numbered { ¬ (IsListed self.old) → self.new ≡ record self.old { disk = self.new.disk; calls = next_call self.old } }
        ensures listed { IsListed self.old → IsErrOf result WriteFault.Failed × (self.new ≡ refused self.old) }
        ensures causes { IsErrOf result WriteFault.Failed → IsListed self.old ⊎ ((self.old.disk.stopped ≡ true) ⊎ (self.old.disk.armed ≡ 1)) }
    {
        if self.fails() {
            return Err(WriteFault::Failed);
        }
        self.disk.cut(len)
    }

    fn sync(&mut self) -> Result<(), Failed>
        ensures time { OneStep (shown self.old).timeline (at_rest (reads (shown self.old))) (shown self.new).timeline }
        ensures ok { OnOk result ((shown self.new).timeline.now ≡ at_rest (reads (shown self.old))) }
        ensures failed { OnErr result (((shown self.new).timeline ≡ (shown self.old).timeline) × ((shown self.new).faults ≡ bumped (shown self.old).faults)) }
        ensures no_fault { OnOk result ((shown self.new).faults ≡ (shown self.old).faults) }
        ensures state { ((shown self.new).stopped ≡ (shown self.old).stopped) × ((shown self.new).armed ≡ (shown self.old).armed) }
        ensures word { (shown self.new).word ≡ (shown self.old).word }
        ensures faults { (shown self.old).faults ≤ (shown self.new).faults }
        ensures stopped { (shown self.old).stopped ≡ true → IsErr result }

        // It counts the call, and fails just where it must.
        ensures numbered { ¬ (IsListed self.old) → self.new ≡ record self.old { disk = self.new.disk; calls = next_call self.old } }
        ensures listed { IsListed self.old → IsErr result × (self.new ≡ refused self.old) }
        ensures causes { OnErr result (IsListed self.old ⊎ (self.old.disk.stopped ≡ true)) }
    {
        if self.fails() {
            return Err(Failed);
        }
        self.disk.sync()
    }

    fn arm(&mut self, n: u64) {
        self.disk.arm(n);
    }

    fn reopen(&mut self, word: u64) -> Result<(), Failed>
        ensures time { OneStep (shown self.old).timeline (at_rest (reads (shown self.new))) (shown self.new).timeline }
        ensures ok { OnOk result (((shown self.new).timeline.now ≡ at_rest (reads (shown self.new))) × IsImage (shown self.old).timeline.now (reads (shown self.new)) × ((shown self.new).stopped ≡ false) × ((shown self.new).armed ≡ 0)) }
        ensures failed { OnErr result (((shown self.new).timeline ≡ (shown self.old).timeline) × ((shown self.new).stopped ≡ (shown self.old).stopped) × ((shown self.new).armed ≡ (shown self.old).armed) × ((shown self.new).faults ≡ bumped (shown self.old).faults)) }
        ensures word { OnOk result ((shown self.new).word ≡ word) }
        ensures same_word { OnErr result ((shown self.new).word ≡ (shown self.old).word) }
        ensures no_fault { OnOk result ((shown self.new).faults ≡ (shown self.old).faults) }
        ensures faults { (shown self.old).faults ≤ (shown self.new).faults }

        // It counts the call, and fails just where it must.
        ensures numbered { ¬ (IsListed self.old) → self.new ≡ record self.old { disk = self.new.disk; calls = next_call self.old } }
        ensures listed { IsListed self.old → IsErr result × (self.new ≡ refused self.old) }
        ensures causes { OnErr result (IsListed self.old) }
        ensures picked { OnOk result (reads self.new.disk ≡ image word self.old.disk.timeline.now) }
    {
        if self.fails() {
            return Err(Failed);
        }
        self.disk.reopen(word)
    }

    fn stopped(&self) -> bool {
        self.disk.stopped()
    }

    fn faults(&self) -> u64 {
        self.disk.faults().saturating_add(self.failed)
    }
}
