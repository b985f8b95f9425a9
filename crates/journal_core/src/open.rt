// Counts the records of a disk, and closes the gate where they end.
ghost use Rattle.std.specs.Prelude.{◌≡◌, ◌≢◌, ◌⊎◌, ◌+◌, ◌-◌, ◌^◌, ◌<◌, ◌≤◌, ℕ, false, length, slice_index, IfOk, OnOk, IsErrOf};
ghost use Rattle.disk_model.specs.Disk.{reads, IsSynced, bumped};
ghost use Rattle.disk_model.specs.Armed.{Spends};
ghost use Rattle.disk_model.specs.Crash.{AnyCrash};
ghost use Rattle.journal_core.specs.Records.{records_of};
ghost use Rattle.journal_core.specs.Layout.{EndsAt, IsEnd};

use crate::Fault;
use crate::gates::{CLOSED, count_records, gate_is_open};
use disk_model::{Disk, write_synced};

// Counts the records, closes the gate behind them where it isn't closed, and says where that stands.
pub(crate) fn scan<D: Disk>(disk: &mut D) -> Result<(usize, u64), Fault>
    requires { IsSynced (D.view disk.old) }
    ensures counted { IfOk result (λ r. r.0 ≡ length (records_of (reads (D.view disk.old)))) }
    ensures few { IfOk result (λ r. r.0 ≤ r.1) }
    ensures ends { IfOk result (λ r. EndsAt (records_of (reads (D.view disk.old))) r.1 (reads (D.view disk.new))) }
    ensures fits { IfOk result (λ r. r.1 + 1 < 2 ^ 64) }
    ensures kept { records_of (reads (D.view disk.new)) ≡ records_of (reads (D.view disk.old)) }
    ensures synced { OnOk result (IsSynced (D.view disk.new)) }
    ensures any_crash { AnyCrash (D.view disk.old).timeline (D.view disk.new).timeline (λ bytes. records_of bytes ≡ records_of (reads (D.view disk.old))) }
    ensures memory { IsErrOf result Fault.Memory → (D.view disk.new).timeline ≡ (D.view disk.old).timeline }
    ensures failed { IsErrOf result Fault.Disk → (D.view disk.new).faults ≡ bumped (D.view disk.old).faults }
    ensures faults { (D.view disk.old).faults ≤ (D.view disk.new).faults }
    ensures no_fault { OnOk result ((D.view disk.new).faults ≡ (D.view disk.old).faults) }
    ensures no_fault_memory { IsErrOf result Fault.Memory → (D.view disk.new).faults ≡ (D.view disk.old).faults }
    ensures word { (D.view disk.new).word ≡ (D.view disk.old).word }
    ensures armed { (D.view disk.new).armed ≤ (D.view disk.old).armed }
    ensures running { OnOk result ((D.view disk.new).stopped ≡ false) }
    ensures memory_state { IsErrOf result Fault.Memory → ((D.view disk.new).stopped ≡ (D.view disk.old).stopped) × ((D.view disk.new).armed ≡ (D.view disk.old).armed) }
{
    let (count, end) = count_records(disk, 0)?;
    close_end(disk, end)?;
    Ok((count, end))
}

// Closes the gate where the records end, where it isn't closed.
pub(crate) fn close_end<D: Disk>(disk: &mut D, end: u64) -> Result<(), Fault>
    requires synced { IsSynced (D.view disk.old) }
    requires ends { IsEnd end (reads (D.view disk.old)) }
    ensures ends { OnOk result (EndsAt (records_of (reads (D.view disk.old))) end (reads (D.view disk.new))) }
    ensures kept { records_of (reads (D.view disk.new)) ≡ records_of (reads (D.view disk.old)) }
    ensures synced { OnOk result (IsSynced (D.view disk.new)) }
    ensures any_crash { AnyCrash (D.view disk.old).timeline (D.view disk.new).timeline (λ bytes. records_of bytes ≡ records_of (reads (D.view disk.old))) }
    ensures memory { IsErrOf result Fault.Memory → (D.view disk.new).timeline ≡ (D.view disk.old).timeline }
    ensures failed { IsErrOf result Fault.Disk → (D.view disk.new).faults ≡ bumped (D.view disk.old).faults }
    ensures faults { (D.view disk.old).faults ≤ (D.view disk.new).faults }
    ensures no_fault { OnOk result ((D.view disk.new).faults ≡ (D.view disk.old).faults) }
    ensures no_fault_memory { IsErrOf result Fault.Memory → (D.view disk.new).faults ≡ (D.view disk.old).faults }
    ensures word { (D.view disk.new).word ≡ (D.view disk.old).word }
    ensures armed { (D.view disk.new).armed ≤ (D.view disk.old).armed }
    ensures running { OnOk result ((D.view disk.new).stopped ≡ false) }
    ensures memory_state { IsErrOf result Fault.Memory → ((D.view disk.new).stopped ≡ (D.view disk.old).stopped) × ((D.view disk.new).armed ≡ (D.view disk.old).armed) }
    ensures one_write { ((D.view disk.new).armed ≡ (D.view disk.old).armed) ⊎ ((D.view disk.new).armed ≡ (D.view disk.old).armed - 1) }
    ensures spends { OnOk result (Spends 1 (D.view disk.old).armed (D.view disk.new).armed) }
{
    if !gate_is_open(disk, end)? {
        return Ok(());
    }
    close_gate(disk, end)
}

// Writes a closed gate where the records end.
fn close_gate<D: Disk>(disk: &mut D, end: u64) -> Result<(), Fault>
    requires synced { IsSynced (D.view disk.old) }
    requires opened { end < length (reads (D.view disk.old)) → slice_index (reads (D.view disk.old)) end ≡ 1 }
    requires ends { IsEnd end (reads (D.view disk.old)) }
    ensures ends { OnOk result (EndsAt (records_of (reads (D.view disk.old))) end (reads (D.view disk.new))) }
    ensures fits { OnOk result (end < 2 ^ 48) }
    ensures synced { OnOk result (IsSynced (D.view disk.new)) }
    ensures any_crash { AnyCrash (D.view disk.old).timeline (D.view disk.new).timeline (λ bytes. records_of bytes ≡ records_of (reads (D.view disk.old))) }
    ensures memory { IsErrOf result Fault.Memory → D.view disk.new ≡ D.view disk.old }
    ensures failed { IsErrOf result Fault.Disk → (D.view disk.new).faults ≡ bumped (D.view disk.old).faults }
    ensures faults { (D.view disk.old).faults ≤ (D.view disk.new).faults }
    ensures no_fault { OnOk result ((D.view disk.new).faults ≡ (D.view disk.old).faults) }
    ensures word { (D.view disk.new).word ≡ (D.view disk.old).word }
    ensures armed { (D.view disk.new).armed ≤ (D.view disk.old).armed }
    ensures running { OnOk result ((D.view disk.new).stopped ≡ false) }
    ensures one_write { ((D.view disk.new).armed ≡ (D.view disk.old).armed) ⊎ ((D.view disk.new).armed ≡ (D.view disk.old).armed - 1) }
    ensures spends { OnOk result (Spends 1 (D.view disk.old).armed (D.view disk.new).armed) }
{
    write_synced(disk, end, &[CLOSED])?;
    Ok(())
}
