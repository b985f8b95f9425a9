//! A cut and a sync, one after the other.
ghost use Rattle.std.specs.Prelude.{◌≡◌, ◌≢◌, ◌⊎◌, ◌+◌, ◌-◌, ◌≤◌, false, [], take, length, OnOk, IsErrOf};
ghost use Rattle.disk_model.specs.Disk.{at_rest, reads, IsSynced, bumped};
ghost use Rattle.disk_model.specs.Armed.{Spends};
ghost use Rattle.disk_model.specs.Crash.{AnyCrash};
ghost use Rattle.journal_pair.specs.Cut.{IsCut};

use disk_model::{Disk, WriteFault};

/// Cuts, and then syncs, a disk on which nothing is pending: one cut and one sync. After `Memory` nothing changed.
pub(crate) fn cut_synced<D: Disk>(disk: &mut D, len: u64) -> Result<(), WriteFault>
    requires { IsSynced (D.view disk.old) }
    ensures ok { OnOk result ((D.view disk.new).timeline.now ≡ at_rest (take len (reads (D.view disk.old)))) }
    ensures any_crash { AnyCrash (D.view disk.old).timeline (D.view disk.new).timeline (IsCut (reads (D.view disk.old)) len) }
    ensures memory { IsErrOf result WriteFault.Memory → D.view disk.new ≡ D.view disk.old }
    ensures failed { IsErrOf result WriteFault.Failed → (D.view disk.new).faults ≡ bumped (D.view disk.old).faults }
    ensures faults { (D.view disk.old).faults ≤ (D.view disk.new).faults }
    ensures no_fault { OnOk result ((D.view disk.new).faults ≡ (D.view disk.old).faults) }
    ensures word { (D.view disk.new).word ≡ (D.view disk.old).word }
    ensures armed { (D.view disk.new).armed ≤ (D.view disk.old).armed }
    ensures within { (D.view disk.old).armed ≤ (D.view disk.new).armed + 1 }
    ensures spends { OnOk result (Spends 1 (D.view disk.old).armed (D.view disk.new).armed) }
    ensures running { OnOk result ((D.view disk.new).stopped ≡ false) }
{
    disk.cut(len)?;
    if disk.sync().is_err() {
        return Err(WriteFault::Failed);
    }
    Ok(())
}
