// A record on its way to the disk.
ghost use Rattle.std.specs.Prelude.{◌≡◌, ◌≢◌, ◌⊎◌, ◌+◌, ◌-◌, ◌^◌, ◌<◌, ◌≤◌, ℕ, false, [], ◌∷◌, ◌++◌, length, OnOk, IsErrOf};
ghost use Rattle.disk_model.specs.Disk.{reads, IsSynced, bumped};
ghost use Rattle.disk_model.specs.Armed.{Spends, TakesRecord};
ghost use Rattle.disk_model.specs.Crash.{AnyCrash};
ghost use Rattle.journal_core.specs.Records.{records_of};
ghost use Rattle.journal_core.specs.Layout.{EndsAt, BeforeOrWith};

use crate::Fault;
use crate::gates::{OPEN, frame};
use disk_model::{Disk, write_synced};
use std::alloc::Global;

// Adds a record where the records end, in two writes: all but its gate, and then the gate. So a crash in between, or
// inside either, leaves a gate that is closed or a record that is whole.
pub(crate) fn add<D: Disk>(
    alloc: Global,
    disk: &mut D,
    end: u64,
    payload: &[u8],
) -> Result<(), Fault>
    requires end_fits { end + 1 < 2 ^ 64 }
    requires ends { EndsAt (records_of (reads (D.view disk.old))) end (reads (D.view disk.old)) }
    requires synced { IsSynced (D.view disk.old) }
    ensures ok { OnOk result (EndsAt (records_of (reads (D.view disk.old)) ++ payload.now ∷ []) (end + (9 + length payload.now)) (reads (D.view disk.new))) }
    ensures fits { OnOk result (end + (9 + length payload.now) < 2 ^ 48) }
    ensures any_crash { AnyCrash (D.view disk.old).timeline (D.view disk.new).timeline (BeforeOrWith (records_of (reads (D.view disk.old))) payload.now) }
    ensures held { BeforeOrWith (records_of (reads (D.view disk.old))) payload.now (reads (D.view disk.new)) }
    ensures memory { IsErrOf result Fault.Memory → EndsAt (records_of (reads (D.view disk.old))) end (reads (D.view disk.new)) }
    ensures ok_synced { OnOk result (IsSynced (D.view disk.new)) }
    ensures memory_synced { IsErrOf result Fault.Memory → IsSynced (D.view disk.new) }
    ensures failed { IsErrOf result Fault.Disk → (D.view disk.new).faults ≡ bumped (D.view disk.old).faults }
    ensures faults { (D.view disk.old).faults ≤ (D.view disk.new).faults }
    ensures no_fault { OnOk result ((D.view disk.new).faults ≡ (D.view disk.old).faults) }
    ensures no_fault_memory { IsErrOf result Fault.Memory → (D.view disk.new).faults ≡ (D.view disk.old).faults }
    ensures word { (D.view disk.new).word ≡ (D.view disk.old).word }
    ensures armed { (D.view disk.new).armed ≤ (D.view disk.old).armed }
    ensures counted { OnOk result (TakesRecord 0 (D.view disk.old).armed (D.view disk.new).armed) }
    ensures spends_memory { IsErrOf result Fault.Memory → Spends 1 (D.view disk.old).armed (D.view disk.new).armed }
    ensures running { OnOk result ((D.view disk.new).stopped ≡ false) }
    ensures memory_running { (D.view disk.old).stopped ≡ false → IsErrOf result Fault.Memory → (D.view disk.new).stopped ≡ false }
{
    let behind = frame(alloc, payload)?;
    write_synced(disk, end + 1, &behind)?;
    write_synced(disk, end, &[OPEN])?;
    Ok(())
}
