//! A record on its way to the disk.
ghost use Rattle.std.specs.Prelude.{◌≡◌, ◌≢◌, ◌⊎◌, ◌+◌, ◌-◌, ◌^◌, ◌<◌, ◌≤◌, ℕ, false, [], ◌∷◌, ◌++◌, length, IfOk, OnOk, IsErrOf};
ghost use Rattle.disk_model.specs.Disk.{reads, IsSynced, bumped};
ghost use Rattle.disk_model.specs.Armed.{Spends, TakesRecord};
ghost use Rattle.disk_model.specs.Crash.{AnyCrash};
ghost use Rattle.journal_pair.specs.Records.{records_of};
ghost use Rattle.journal_pair.specs.Layout.{Stands, BeforeOrWith};

use crate::area::Area;
use disk_model::{Disk, write_synced};
use journal_core::Fault;
use journal_core::gates::{OPEN, OVERHEAD, frame};
use std::alloc::Global;

// Adds a record to the selected area, in two writes: all but its gate, and then the gate. So a crash in between, or
// inside either, leaves a gate that is closed or a record that is whole.
pub(crate) fn add<D: Disk>(
    alloc: Global,
    disk: &mut D,
    area: Area,
    payload: &[u8],
) -> Result<Area, Fault>
    requires fits { area.base + area.len + 1 < 2 ^ 64 }
    requires stands { Stands (records_of (reads (D.view disk.old))) area (reads (D.view disk.old)) }
    requires synced { IsSynced (D.view disk.old) }
    ensures ok { IfOk result (λ next. Stands (records_of (reads (D.view disk.old)) ++ payload.now ∷ []) next (reads (D.view disk.new))) }
    ensures fits { IfOk result (λ next. next.base + next.len + 1 < 2 ^ 64) }
    ensures any_crash { AnyCrash (D.view disk.old).timeline (D.view disk.new).timeline (BeforeOrWith (records_of (reads (D.view disk.old))) payload.now) }
    ensures memory { IsErrOf result Fault.Memory → Stands (records_of (reads (D.view disk.old))) area (reads (D.view disk.new)) }
    ensures ok_synced { OnOk result (IsSynced (D.view disk.new)) }
    ensures memory_synced { IsErrOf result Fault.Memory → IsSynced (D.view disk.new) }
    ensures failed { IsErrOf result Fault.Disk → (D.view disk.new).faults ≡ bumped (D.view disk.old).faults }
    ensures faults { (D.view disk.old).faults ≤ (D.view disk.new).faults }
    ensures no_fault { OnOk result ((D.view disk.new).faults ≡ (D.view disk.old).faults) }
    ensures no_fault_memory { IsErrOf result Fault.Memory → (D.view disk.new).faults ≡ (D.view disk.old).faults }
    ensures word { (D.view disk.new).word ≡ (D.view disk.old).word }
    ensures armed { (D.view disk.new).armed ≤ (D.view disk.old).armed }
    ensures counted { OnOk result (TakesRecord 0 (D.view disk.old).armed (D.view disk.new).armed) }
    ensures spends_memory { IsErrOf result Fault.Memory → Spends 1 (D.view disk.old).armed (D.view disk.new).armed }
    ensures running { OnOk result ((D.view disk.new).stopped ≡ false) }
    ensures memory_running { (D.view disk.old).stopped ≡ false → IsErrOf result Fault.Memory → (D.view disk.new).stopped ≡ false }
{
    let end = area.base + area.len;
    let behind = frame(alloc, payload)?;
    write_synced(disk, end + 1, &behind)?;
    write_synced(disk, end, &[OPEN])?;
    Ok(Area {
        second: area.second,
        base: area.base,
        len: area.len + OVERHEAD + payload.len() as u64,
    })
}
