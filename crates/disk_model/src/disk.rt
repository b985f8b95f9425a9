// A disk: what a read gives, and what a crash may leave.
ghost use Rattle.std.specs.Prelude.{◌≡◌, ◌≢◌, ◌⊎◌, ◌+◌, ◌-◌, ◌^◌, ◌<◌, ◌≤◌, ℕ, Bool, true, false, [], IsTrue, IsErr, length, take, drop, OnOk, OnErr, IsErrOf, if◌then◌else◌};
ghost use Rattle.disk_model.specs.Disk.{Change, Written, CutTo, Moment, content, with_change, at_rest, OneStep, DiskView, reads, bumped};
ghost use Rattle.disk_model.specs.Crash.{IsImage};

use crate::{Failed, WriteFault};

/// A disk, or a file, whose bytes outlast a crash once they are synced.
///
/// Contracts see it as a `DiskView`. A crash at a moment may leave any image whose length is one that the disk had since
/// its last sync, and which has the synced bytes where no write since touched them; what lies past the shortest of
/// these lengths may be anything. After a sync with nothing written since, that image is what a read gives.
///
/// [`Disk::faults`] rises by one in each call that answers `Failed`, and in no other. A disk that was stopped inside a change answers `Failed` and does
/// nothing until [`Disk::reopen`].
pub trait Disk: Drop {
    /// The disk as contracts see it.
    ghost view: { Self → DiskView };

    /// How many bytes the disk has, from 0 to 2^48.
    fn len(&self) -> u64
        ensures { result ≡ length (reads (view self.now)) };

    /// Fills the buffer with the bytes from an offset on. All of them lie in the disk.
    fn read(&mut self, at: u64, buf: &mut [u8]) -> Result<(), Failed>
        requires { at + length buf.old ≤ length (reads (view self.old)) }
        ensures bytes { OnOk result (buf.new ≡ take (length buf.old) (drop at (reads (view self.old)))) }
        ensures same { (view self.new).timeline ≡ (view self.old).timeline }
        ensures state { ((view self.new).stopped ≡ (view self.old).stopped) × ((view self.new).armed ≡ (view self.old).armed) }
        ensures word { (view self.new).word ≡ (view self.old).word }
        ensures faults { (view self.old).faults ≤ (view self.new).faults }
        ensures failed { OnErr result ((view self.new).faults ≡ bumped (view self.old).faults) }
        ensures no_fault { OnOk result ((view self.new).faults ≡ (view self.old).faults) }
        ensures stopped { (view self.old).stopped ≡ true → IsErr result };

    /// Writes over what is there, and past the end: a gap before the offset reads as zeros. Until a sync, a crash may
    /// leave any bytes in the range. A write past byte 2^48 fails.
    fn write_at(&mut self, at: u64, bytes: &[u8]) -> Result<(), WriteFault>
        ensures time { OneStep (view self.old).timeline (with_change (view self.old).timeline.now (Written at bytes.now)) (view self.new).timeline }
        ensures ok { OnOk result (((view self.new).timeline.now ≡ with_change (view self.old).timeline.now (Written at bytes.now)) × ((view self.new).stopped ≡ false)) }
        ensures fits { OnOk result (at + length bytes.now ≤ 2 ^ 48) }
        ensures failed { IsErrOf result WriteFault.Failed → (((view self.new).timeline ≡ (view self.old).timeline) ⊎ ((view self.new).stopped ≡ true)) × ((view self.new).faults ≡ bumped (view self.old).faults) }
        ensures no_fault { OnOk result ((view self.new).faults ≡ (view self.old).faults) }
        ensures memory { IsErrOf result WriteFault.Memory → view self.new ≡ view self.old }
        ensures faults { (view self.old).faults ≤ (view self.new).faults }
        ensures stopped { (view self.old).stopped ≡ true → IsErrOf result WriteFault.Failed × ((view self.new).timeline ≡ (view self.old).timeline) × ((view self.new).stopped ≡ true) }

        // It stops inside the armed change and no other.
        ensures counted { OnOk result (((view self.old).armed ≢ 1) × ((view self.new).armed ≡ (view self.old).armed - 1)) }
        ensures armed { ((view self.new).armed ≡ (view self.old).armed) ⊎ ((view self.new).armed ≡ (view self.old).armed - 1) }
        ensures word { (view self.new).word ≡ (view self.old).word }
        ensures stops { (view self.new).stopped ≡ true → ((view self.old).stopped ≡ true) ⊎ ((view self.old).armed ≡ 1) };

    /// Cuts the disk to a length, and leaves it as long as it is where it isn't longer.
    fn cut(&mut self, len: u64) -> Result<(), WriteFault>
        ensures time { OneStep (view self.old).timeline (with_change (view self.old).timeline.now (CutTo len)) (view self.new).timeline }
        ensures ok { OnOk result (((view self.new).timeline.now ≡ with_change (view self.old).timeline.now (CutTo len)) × ((view self.new).stopped ≡ false)) }
        ensures failed { IsErrOf result WriteFault.Failed → (((view self.new).timeline ≡ (view self.old).timeline) ⊎ ((view self.new).stopped ≡ true)) × ((view self.new).faults ≡ bumped (view self.old).faults) }
        ensures no_fault { OnOk result ((view self.new).faults ≡ (view self.old).faults) }
        ensures memory { IsErrOf result WriteFault.Memory → view self.new ≡ view self.old }
        ensures faults { (view self.old).faults ≤ (view self.new).faults }
        ensures stopped { (view self.old).stopped ≡ true → IsErrOf result WriteFault.Failed × ((view self.new).timeline ≡ (view self.old).timeline) × ((view self.new).stopped ≡ true) }

        // It stops inside the armed change and no other.
        ensures counted { OnOk result (((view self.old).armed ≢ 1) × ((view self.new).armed ≡ (view self.old).armed - 1)) }
        ensures armed { ((view self.new).armed ≡ (view self.old).armed) ⊎ ((view self.new).armed ≡ (view self.old).armed - 1) }
        ensures word { (view self.new).word ≡ (view self.old).word }
        ensures stops { (view self.new).stopped ≡ true → ((view self.old).stopped ≡ true) ⊎ ((view self.old).armed ≡ 1) };

    /// Makes all changes so far outlast a crash.
    fn sync(&mut self) -> Result<(), Failed>
        ensures time { OneStep (view self.old).timeline (at_rest (reads (view self.old))) (view self.new).timeline }
        ensures ok { OnOk result ((view self.new).timeline.now ≡ at_rest (reads (view self.old))) }
        ensures failed { OnErr result (((view self.new).timeline ≡ (view self.old).timeline) × ((view self.new).faults ≡ bumped (view self.old).faults)) }
        ensures no_fault { OnOk result ((view self.new).faults ≡ (view self.old).faults) }
        ensures state { ((view self.new).stopped ≡ (view self.old).stopped) × ((view self.new).armed ≡ (view self.old).armed) }
        ensures word { (view self.new).word ≡ (view self.old).word }
        ensures faults { (view self.old).faults ≤ (view self.new).faults }
        ensures stopped { (view self.old).stopped ≡ true → IsErr result };

    /// Lets the n-th later write or cut stop inside itself, as in a crash; 0 takes that back. On a stopped disk nothing
    /// changes. Every write and cut that reaches the disk counts, but for those that answer `Memory`.
    fn arm(&mut self, n: u64)
        ensures { view self.new ≡ (if (view self.old).stopped then view self.old else record (view self.old) { armed = n }) };

    /// Opens the disk as after a crash: with one of the images that a crash may leave now, which the word may pick.
    fn reopen(&mut self, word: u64) -> Result<(), Failed>
        ensures time { OneStep (view self.old).timeline (at_rest (reads (view self.new))) (view self.new).timeline }
        ensures ok { OnOk result (((view self.new).timeline.now ≡ at_rest (reads (view self.new))) × IsImage (view self.old).timeline.now (reads (view self.new)) × ((view self.new).stopped ≡ false) × ((view self.new).armed ≡ 0)) }
        ensures failed { OnErr result (((view self.new).timeline ≡ (view self.old).timeline) × ((view self.new).stopped ≡ (view self.old).stopped) × ((view self.new).armed ≡ (view self.old).armed) × ((view self.new).faults ≡ bumped (view self.old).faults)) }
        ensures word { OnOk result ((view self.new).word ≡ word) }
        ensures same_word { OnErr result ((view self.new).word ≡ (view self.old).word) }
        ensures no_fault { OnOk result ((view self.new).faults ≡ (view self.old).faults) }
        ensures faults { (view self.old).faults ≤ (view self.new).faults };

    /// It was stopped inside a change, and hasn't been reopened since.
    fn stopped(&self) -> bool
        ensures { result ≡ (view self.now).stopped };

    /// How often the disk has failed. At 2^64 - 1 the count stands still.
    fn faults(&self) -> u64
        ensures { result ≡ (view self.now).faults };
}
