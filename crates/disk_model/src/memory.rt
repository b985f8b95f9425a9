// A disk in memory. It keeps a record of all that was done to it.
ghost use Rattle.std.specs.Prelude.{◌≡◌, ◌≢◌, ◌⊎◌, ◌+◌, ◌-◌, ◌^◌, ◌<◌, ◌≤◌, ℕ, true, false, [], length, take, drop, min, OnOk, OnErr, IsOk, IsErr, IsErrOf};
ghost use Rattle.disk_model.specs.Disk.{Written, CutTo, content, with_change, at_rest, followed, OneStep, reads, bumped, fresh};
ghost use Rattle.disk_model.specs.Crash.{IsImage};
ghost use Rattle.disk_model.specs.Memory.{image};

use crate::event::Event;
use crate::image::{pick, put, replay};
use crate::{Disk, Failed, WriteFault};
use std::alloc::{AllocError, Global};
use std::marker::Model;

// The greatest length of a disk.
const LIMIT: u64 = 1 << 48;

/// A disk in memory, whose [`Disk::reopen`] picks by its word what a crash leaves.
///
/// | `word % 4` | of the writes and cuts since the last sync |
/// |---|---|
/// | 0 | none happened |
/// | 1 | all happened, a stopped one whole |
/// | 2 | all but the last happened, and of a last write the first half of its bytes |
/// | 3 | all happened, but each byte that was written and is still there is `word / 4 % 256` |
///
/// Every write and cut that finds it running counts for [`Disk::arm`], also one past byte 2^48, which is refused; one
/// that answers `Memory` doesn't.
///
/// Cost: a write of n bytes takes time O(n), amortized, and O(gap) where it begins past the end; a sync as much as was
/// written since the one before; a reopening O(length). The disk holds its bytes twice, as read and as synced, and its
/// record holds each written byte once more and some 40 bytes for each write, cut, sync and reopening, for good: so
/// what was the case at each moment is a function of what it holds. Only writes and cuts take memory.
#[derive(Drop)]
pub struct MemDisk {
    // What a read gives.
    live: Vec<u8>,
    // The bytes of the last sync.
    synced: Vec<u8>,
    // All that was done.
    events: Vec<Event>,
    // Where the changes since the last sync begin among the events.
    pending: usize,
    armed: u64,
    stopped: bool,
    faults: u64,
    // By which it was reopened last.
    word: u64,
    alloc: Global,
}

impl Model for MemDisk {
    ghost use Rattle.disk_model.specs.Disk.{DiskView};
    ghost use Rattle.disk_model.specs.Memory.{timeline_of};
    ghost use Rattle.disk_model.specs.MemoryKept.{Keeps};

    ghost Value = { DiskView };

    ghost view = { λ d. record { timeline = timeline_of d.events.items; faults = d.faults; stopped = d.stopped; armed = d.armed; word = d.word } };

    ghost invariant = { Keeps };
}

impl MemDisk {
    /// An empty disk.
    pub fn new(alloc: Global) -> MemDisk
        ensures { result ≡ fresh }
    {
        MemDisk {
            live: Vec::new(alloc),
            synced: Vec::new(alloc),
            events: Vec::new(alloc),
            pending: 0,
            armed: 0,
            stopped: false,
            faults: 0,
            word: 0,
            alloc,
        }
    }

    // Counts a fault.
    fn count_fault(&mut self)
        ensures { self.new ≡ record self.old { faults = bumped self.old.faults } }
    {
        self.faults = self.faults.saturating_add(1);
    }

    // Counts a change that has reached the disk, and stops inside the armed one.
    fn count_change(&mut self) -> Result<(), WriteFault>
        ensures same { self.new.timeline ≡ self.old.timeline }
        ensures running { OnOk result (self.new.stopped ≡ self.old.stopped) }
        ensures ok { OnOk result ((self.old.armed ≢ 1) × (self.new ≡ record self.old { armed = self.old.armed - 1 })) }
        ensures stops { IsErrOf result WriteFault.Failed → (self.old.armed ≡ 1) × (self.new ≡ record self.old { armed = 0; stopped = true; faults = bumped self.old.faults }) }
        ensures memory { IsErrOf result WriteFault.Memory → ⊥ }
    {
        if self.armed == 1 {
            self.armed = 0;
            self.stopped = true;
            self.count_fault();
            return Err(WriteFault::Failed);
        }
        self.armed = self.armed.saturating_sub(1);
        Ok(())
    }
}

// Each call repeats the promises of every disk, and adds those of this one.
impl Disk for MemDisk {
    ghost view = { λ d. d };

    fn len(&self) -> u64 {
        self.live.len() as u64
    }

    fn read(&mut self, at: u64, buf: &mut [u8]) -> Result<(), Failed>
        requires { at + length buf.old ≤ length (reads self.old) }
        ensures bytes { OnOk result (buf.new ≡ take (length buf.old) (drop at (reads self.old))) }
        ensures same { self.new.timeline ≡ self.old.timeline }
        ensures state { (self.new.stopped ≡ self.old.stopped) × (self.new.armed ≡ self.old.armed) }
        ensures word { self.new.word ≡ self.old.word }
        ensures faults { self.old.faults ≤ self.new.faults }
        ensures failed { OnErr result (self.new.faults ≡ bumped self.old.faults) }
        ensures stopped { self.old.stopped ≡ true → IsErr result }

        // It fails just where it must.
        ensures causes { OnErr result (self.old.stopped ≡ true) }
        ensures no_fault { OnOk result (self.new.faults ≡ self.old.faults) }
    {
        if self.stopped {
            self.count_fault();
            return Err(Failed);
        }
        let at = at as usize;
        buf.copy_from_slice(&self.live[at..at + buf.len()]);
        Ok(())
    }

    fn write_at(&mut self, at: u64, bytes: &[u8]) -> Result<(), WriteFault>
        ensures time { OneStep self.old.timeline (with_change self.old.timeline.now (Written at bytes.now)) self.new.timeline }
        ensures ok { OnOk result ((self.new.timeline.now ≡ with_change self.old.timeline.now (Written at bytes.now)) × (self.new.stopped ≡ false)) }
        ensures fits { OnOk result (at + length bytes.now ≤ 2 ^ 48) }
        ensures failed { IsErrOf result WriteFault.Failed → ((self.new.timeline ≡ self.old.timeline) ⊎ (self.new.stopped ≡ true)) × (self.new.faults ≡ bumped self.old.faults) }
        ensures memory { IsErrOf result WriteFault.Memory → self.new ≡ self.old }
        ensures faults { self.old.faults ≤ self.new.faults }
        ensures stopped { self.old.stopped ≡ true → IsErrOf result WriteFault.Failed × (self.new.timeline ≡ self.old.timeline) × (self.new.stopped ≡ true) }
        ensures counted { OnOk result ((self.old.armed ≢ 1) × (self.new.armed ≡ self.old.armed - 1)) }
        ensures armed { (self.new.armed ≡ self.old.armed) ⊎ (self.new.armed ≡ self.old.armed - 1) }
        ensures word { self.new.word ≡ self.old.word }
        ensures stops { self.new.stopped ≡ true → (self.old.stopped ≡ true) ⊎ (self.old.armed ≡ 1) }

        // It fails just where it must, and the armed change stops it, and is pending.
        ensures causes { IsErrOf result WriteFault.Failed → (self.old.stopped ≡ true) ⊎ ((self.old.armed ≡ 1) ⊎ (2 ^ 48 < at + length bytes.now)) }
        ensures made { self.old.stopped ≡ false → at + length bytes.now ≤ 2 ^ 48 → IsErrOf result WriteFault.Memory ⊎ (self.new.timeline ≡ followed self.old.timeline (with_change self.old.timeline.now (Written at bytes.now))) }
        ensures stops_inside { self.old.stopped ≡ false → self.old.armed ≡ 1 → IsErrOf result WriteFault.Memory ⊎ (self.new.stopped ≡ true) }
        ensures no_fault { OnOk result (self.new.faults ≡ self.old.faults) }
    {
        if self.stopped {
            self.count_fault();
            return Err(WriteFault::Failed);
        }
        if at > LIMIT || bytes.len() as u64 > LIMIT - at {
            self.count_change()?;
            self.count_fault();
            return Err(WriteFault::Failed);
        }
        let kept = bytes.to_vec(self.alloc)?;
        let end = at as usize + bytes.len();
        self.live.reserve(end.saturating_sub(self.live.len()))?;
        self.synced
            .reserve(end.max(self.live.len()).saturating_sub(self.synced.len()))?;
        self.events.reserve(2)?;
        put(&mut self.live, at, bytes);
        self.events.push_reserved(Event::Write(at, kept));
        self.count_change()
    }

    fn cut(&mut self, len: u64) -> Result<(), WriteFault>
        ensures time { OneStep self.old.timeline (with_change self.old.timeline.now (CutTo len)) self.new.timeline }
        ensures ok { OnOk result ((self.new.timeline.now ≡ with_change self.old.timeline.now (CutTo len)) × (self.new.stopped ≡ false)) }
        ensures failed { IsErrOf result WriteFault.Failed → ((self.new.timeline ≡ self.old.timeline) ⊎ (self.new.stopped ≡ true)) × (self.new.faults ≡ bumped self.old.faults) }
        ensures memory { IsErrOf result WriteFault.Memory → self.new ≡ self.old }
        ensures faults { self.old.faults ≤ self.new.faults }
        ensures stopped { self.old.stopped ≡ true → IsErrOf result WriteFault.Failed × (self.new.timeline ≡ self.old.timeline) × (self.new.stopped ≡ true) }
        ensures counted { OnOk result ((self.old.armed ≢ 1) × (self.new.armed ≡ self.old.armed - 1)) }
        ensures armed { (self.new.armed ≡ self.old.armed) ⊎ (self.new.armed ≡ self.old.armed - 1) }
        ensures word { self.new.word ≡ self.old.word }
        ensures stops { self.new.stopped ≡ true → (self.old.stopped ≡ true) ⊎ (self.old.armed ≡ 1) }

        // It fails just where it must, and the armed change stops it, and is pending.
        ensures causes { IsErrOf result WriteFault.Failed → (self.old.stopped ≡ true) ⊎ (self.old.armed ≡ 1) }
        ensures made { self.old.stopped ≡ false → IsErrOf result WriteFault.Memory ⊎ (self.new.timeline ≡ followed self.old.timeline (with_change self.old.timeline.now (CutTo len))) }
        ensures stops_inside { self.old.stopped ≡ false → self.old.armed ≡ 1 → IsErrOf result WriteFault.Memory ⊎ (self.new.stopped ≡ true) }
        ensures no_fault { OnOk result (self.new.faults ≡ self.old.faults) }
    {
        if self.stopped {
            self.count_fault();
            return Err(WriteFault::Failed);
        }
        self.events.reserve(2)?;
        self.live.truncate(len as usize);
        self.events.push_reserved(Event::Cut(len));
        self.count_change()
    }

    fn sync(&mut self) -> Result<(), Failed>
        ensures time { OneStep self.old.timeline (at_rest (reads self.old)) self.new.timeline }
        ensures ok { OnOk result (self.new.timeline.now ≡ at_rest (reads self.old)) }
        ensures failed { OnErr result ((self.new.timeline ≡ self.old.timeline) × (self.new.faults ≡ bumped self.old.faults)) }
        ensures state { (self.new.stopped ≡ self.old.stopped) × (self.new.armed ≡ self.old.armed) }
        ensures word { self.new.word ≡ self.old.word }
        ensures faults { self.old.faults ≤ self.new.faults }
        ensures stopped { self.old.stopped ≡ true → IsErr result }

        // It fails just where it must.
        ensures causes { OnErr result (self.old.stopped ≡ true) }
        ensures no_fault { OnOk result (self.new.faults ≡ self.old.faults) }
    {
        if self.stopped {
            self.count_fault();
            return Err(Failed);
        }
        let end = self.events.len();
        if self.pending == end {
            return Ok(());
        }
        replay(&mut self.synced, &self.events[self.pending..]);
        self.events.push_reserved(Event::Sync);
        self.pending = end + 1;
        Ok(())
    }

    fn arm(&mut self, n: u64) {
        if !self.stopped {
            self.armed = n;
        }
    }

    fn reopen(&mut self, word: u64) -> Result<(), Failed>
        ensures time { OneStep self.old.timeline (at_rest (reads self.new)) self.new.timeline }
        ensures ok { OnOk result ((self.new.timeline.now ≡ at_rest (reads self.new)) × IsImage self.old.timeline.now (reads self.new) × (self.new.stopped ≡ false) × (self.new.armed ≡ 0)) }
        ensures failed { OnErr result ((self.new.timeline ≡ self.old.timeline) × (self.new.stopped ≡ self.old.stopped) × (self.new.armed ≡ self.old.armed) × (self.new.faults ≡ bumped self.old.faults)) }
        ensures faults { self.old.faults ≤ self.new.faults }

        // It never fails, and the word picks the image.
        ensures succeeds { IsOk result }
        ensures picked { reads self.new ≡ image word self.old.timeline.now }
        ensures word { OnOk result (self.new.word ≡ word) }
        ensures same_word { OnErr result (self.new.word ≡ self.old.word) }
        ensures no_fault { OnOk result (self.new.faults ≡ self.old.faults) }
    {
        self.stopped = false;
        self.armed = 0;
        self.word = word;
        let end = self.events.len();
        if self.pending == end {
            return Ok(());
        }
        pick(&mut self.synced, &self.events[self.pending..], word);
        self.live.clear();
        self.live.extend_from_slice(&self.synced).unwrap();
        self.events.push_reserved(Event::Reopen(word));
        self.pending = end + 1;
        Ok(())
    }

    fn stopped(&self) -> bool {
        self.stopped
    }

    fn faults(&self) -> u64 {
        self.faults
    }
}
