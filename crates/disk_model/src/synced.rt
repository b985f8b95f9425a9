// A write and a sync, one after the other.
ghost use Rattle.std.specs.Prelude.{◌≡◌, ◌≢◌, ◌⊎◌, ◌+◌, ◌-◌, ◌^◌, ◌<◌, ◌≤◌, ℕ, false, [], length, OnOk, OnErr, IsErrOf};
ghost use Rattle.disk_model.specs.Disk.{Written, changed, at_rest, reads, IsSynced, bumped};
ghost use Rattle.disk_model.specs.Crash.{AnyCrash};
ghost use Rattle.disk_model.specs.Torn.{IsTorn};

use crate::{Disk, WriteFault};

/// Writes, and then syncs, on a disk on which nothing is pending: one write and one sync.
///
/// A crash inside it leaves the bytes of before but for the range, which may hold any; after `Ok` each crash leaves what
/// was written. After `Memory` nothing changed. After `Failed` the write may be pending, or the disk be stopped.
pub fn write_synced<D: Disk>(disk: &mut D, at: u64, bytes: &[u8]) -> Result<(), WriteFault>
    requires inside { at ≤ length (reads (D.view disk.old)) }
    requires synced { IsSynced (D.view disk.old) }
    ensures ok { OnOk result ((D.view disk.new).timeline.now ≡ at_rest (changed (Written at bytes.now) (reads (D.view disk.old)))) }
    ensures fits { OnOk result (at + length bytes.now ≤ 2 ^ 48) }
    ensures any_crash { AnyCrash (D.view disk.old).timeline (D.view disk.new).timeline (IsTorn (reads (D.view disk.old)) at (length bytes.now)) }
    ensures memory { IsErrOf result WriteFault.Memory → D.view disk.new ≡ D.view disk.old }
    ensures failed { IsErrOf result WriteFault.Failed → (D.view disk.new).faults ≡ bumped (D.view disk.old).faults }
    ensures faults { (D.view disk.old).faults ≤ (D.view disk.new).faults }
    ensures no_fault { OnOk result ((D.view disk.new).faults ≡ (D.view disk.old).faults) }
    ensures word { (D.view disk.new).word ≡ (D.view disk.old).word }
    ensures armed { (D.view disk.new).armed ≤ (D.view disk.old).armed }

    // It is one write of the count that the disk is armed with.
    ensures counted { OnOk result (((D.view disk.old).armed ≢ 1) × ((D.view disk.new).armed ≡ (D.view disk.old).armed - 1)) }
    ensures running { OnOk result (((D.view disk.old).stopped ≡ false) × ((D.view disk.new).stopped ≡ false)) }
    ensures one_write { ((D.view disk.new).armed ≡ (D.view disk.old).armed) ⊎ ((D.view disk.new).armed ≡ (D.view disk.old).armed - 1) }
{
    disk.write_at(at, bytes)?;
    if disk.sync().is_err() {
        return Err(WriteFault::Failed);
    }
    Ok(())
}
