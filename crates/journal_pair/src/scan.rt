//! Reads the records of an area, and closes the gate where they end.
ghost use Rattle.std.specs.Prelude.{◌≡◌, ◌≢◌, ◌⊎◌, ◌+◌, ◌-◌, ◌^◌, ◌<◌, ◌≤◌, ℕ, false, length, drop, IfOk, OnOk, IsErrOf};
ghost use Rattle.disk_model.specs.Disk.{reads, IsSynced, bumped};
ghost use Rattle.disk_model.specs.Armed.{Spends};
ghost use Rattle.disk_model.specs.Crash.{AnyCrash};
ghost use Rattle.journal_core.specs.Records.{payloads};
ghost use Rattle.journal_core.specs.Layout.{IsEnd};
ghost use Rattle.journal_pair.specs.Records.{records_of};
ghost use Rattle.journal_pair.specs.Layout.{Selects, Stands, IsOpenAt};

use crate::area::Area;
use disk_model::{Disk, write_synced};
use journal_core::Fault;
use journal_core::gates::{CLOSED, count_records, gate_is_open, read_records};
use std::alloc::Global;

/// What an opening finds: the records, and the area in which they stand.
pub(crate) type Found = (Vec<Vec<u8>>, Area);

/// What a reopening finds: how many records there are, and the area in which they stand.
pub(crate) type Counted = (usize, Area);

// Reads all records of the selected area, and closes the gate behind them where it isn't closed.
pub(crate) fn scan<D: Disk>(
    alloc: Global,
    disk: &mut D,
    second: bool,
    base: u64,
) -> Result<Found, Fault>
    requires synced { IsSynced (D.view disk.old) }
    requires selects { Selects second base (reads (D.view disk.old)) }
    requires fits { base + 1 < 2 ^ 64 }
    ensures records { IfOk result (λ r. payloads r.0.items ≡ records_of (reads (D.view disk.old))) }
    ensures stands { IfOk result (λ r. Stands (records_of (reads (D.view disk.old))) r.1 (reads (D.view disk.new))) }
    ensures fits { IfOk result (λ r. r.1.base + r.1.len + 1 < 2 ^ 64) }
    ensures synced { OnOk result (IsSynced (D.view disk.new)) }
    ensures any_crash { AnyCrash (D.view disk.old).timeline (D.view disk.new).timeline (λ bytes. records_of bytes ≡ records_of (reads (D.view disk.old))) }
    ensures memory { IsErrOf result Fault.Memory → (D.view disk.new).timeline ≡ (D.view disk.old).timeline }
    ensures failed { IsErrOf result Fault.Disk → (D.view disk.new).faults ≡ bumped (D.view disk.old).faults }
    ensures faults { (D.view disk.old).faults ≤ (D.view disk.new).faults }
    ensures no_fault { OnOk result ((D.view disk.new).faults ≡ (D.view disk.old).faults) }
    ensures no_fault_memory { IsErrOf result Fault.Memory → (D.view disk.new).faults ≡ (D.view disk.old).faults }
    ensures word { (D.view disk.new).word ≡ (D.view disk.old).word }
    ensures armed { (D.view disk.new).armed ≤ (D.view disk.old).armed }
    ensures within { (D.view disk.old).armed ≤ (D.view disk.new).armed + 1 }
    ensures running { OnOk result ((D.view disk.new).stopped ≡ false) }
    ensures memory_state { IsErrOf result Fault.Memory → ((D.view disk.new).stopped ≡ (D.view disk.old).stopped) × ((D.view disk.new).armed ≡ (D.view disk.old).armed) }
    ensures spends { OnOk result (Spends 1 (D.view disk.old).armed (D.view disk.new).armed) }
{
    let (found, len) = read_records(alloc, disk, base)?;
    let area = Area { second, base, len };
    close_end(disk, area)?;
    Ok((found, area))
}

// Counts the records of the selected area, and closes the gate behind them where it isn't closed.
pub(crate) fn count<D: Disk>(disk: &mut D, second: bool, base: u64) -> Result<Counted, Fault>
    requires synced { IsSynced (D.view disk.old) }
    requires selects { Selects second base (reads (D.view disk.old)) }
    requires fits { base + 1 < 2 ^ 64 }
    ensures counted { IfOk result (λ r. r.0 ≡ length (records_of (reads (D.view disk.old)))) }
    ensures stands { IfOk result (λ r. Stands (records_of (reads (D.view disk.old))) r.1 (reads (D.view disk.new))) }
    ensures fits { IfOk result (λ r. r.1.base + r.1.len + 1 < 2 ^ 64) }
    ensures synced { OnOk result (IsSynced (D.view disk.new)) }
    ensures any_crash { AnyCrash (D.view disk.old).timeline (D.view disk.new).timeline (λ bytes. records_of bytes ≡ records_of (reads (D.view disk.old))) }
    ensures memory { IsErrOf result Fault.Memory → (D.view disk.new).timeline ≡ (D.view disk.old).timeline }
    ensures failed { IsErrOf result Fault.Disk → (D.view disk.new).faults ≡ bumped (D.view disk.old).faults }
    ensures faults { (D.view disk.old).faults ≤ (D.view disk.new).faults }
    ensures no_fault { OnOk result ((D.view disk.new).faults ≡ (D.view disk.old).faults) }
    ensures no_fault_memory { IsErrOf result Fault.Memory → (D.view disk.new).faults ≡ (D.view disk.old).faults }
    ensures word { (D.view disk.new).word ≡ (D.view disk.old).word }
    ensures armed { (D.view disk.new).armed ≤ (D.view disk.old).armed }
    ensures within { (D.view disk.old).armed ≤ (D.view disk.new).armed + 1 }
    ensures running { OnOk result ((D.view disk.new).stopped ≡ false) }
    ensures memory_state { IsErrOf result Fault.Memory → ((D.view disk.new).stopped ≡ (D.view disk.old).stopped) × ((D.view disk.new).armed ≡ (D.view disk.old).armed) }
    ensures spends { OnOk result (Spends 1 (D.view disk.old).armed (D.view disk.new).armed) }
{
    let (count, len) = count_records(disk, base)?;
    let area = Area { second, base, len };
    close_end(disk, area)?;
    Ok((count, area))
}

// Closes the gate where the records of the selected area end, where it isn't closed.
fn close_end<D: Disk>(disk: &mut D, area: Area) -> Result<(), Fault>
    requires synced { IsSynced (D.view disk.old) }
    requires selects { Selects area.second area.base (reads (D.view disk.old)) }
    requires ends { IsEnd area.len (drop area.base (reads (D.view disk.old))) }
    requires fits { area.base + area.len + 1 < 2 ^ 64 }
    ensures stands { OnOk result (Stands (records_of (reads (D.view disk.old))) area (reads (D.view disk.new))) }
    ensures synced { OnOk result (IsSynced (D.view disk.new)) }
    ensures any_crash { AnyCrash (D.view disk.old).timeline (D.view disk.new).timeline (λ bytes. records_of bytes ≡ records_of (reads (D.view disk.old))) }
    ensures memory { IsErrOf result Fault.Memory → (D.view disk.new).timeline ≡ (D.view disk.old).timeline }
    ensures failed { IsErrOf result Fault.Disk → (D.view disk.new).faults ≡ bumped (D.view disk.old).faults }
    ensures faults { (D.view disk.old).faults ≤ (D.view disk.new).faults }
    ensures no_fault { OnOk result ((D.view disk.new).faults ≡ (D.view disk.old).faults) }
    ensures no_fault_memory { IsErrOf result Fault.Memory → (D.view disk.new).faults ≡ (D.view disk.old).faults }
    ensures word { (D.view disk.new).word ≡ (D.view disk.old).word }
    ensures armed { (D.view disk.new).armed ≤ (D.view disk.old).armed }
    ensures within { (D.view disk.old).armed ≤ (D.view disk.new).armed + 1 }
    ensures running { OnOk result ((D.view disk.new).stopped ≡ false) }
    ensures memory_state { IsErrOf result Fault.Memory → ((D.view disk.new).stopped ≡ (D.view disk.old).stopped) × ((D.view disk.new).armed ≡ (D.view disk.old).armed) }
    ensures spends { OnOk result (Spends 1 (D.view disk.old).armed (D.view disk.new).armed) }
{
    if !gate_is_open(disk, area.base + area.len)? {
        return Ok(());
    }
    close_gate(disk, area)
}

// Writes a closed gate where the records end.
fn close_gate<D: Disk>(disk: &mut D, area: Area) -> Result<(), Fault>
    requires synced { IsSynced (D.view disk.old) }
    requires opened { IsOpenAt (records_of (reads (D.view disk.old))) area (reads (D.view disk.old)) }
    requires fits { area.base + area.len + 1 < 2 ^ 64 }
    ensures stands { OnOk result (Stands (records_of (reads (D.view disk.old))) area (reads (D.view disk.new))) }
    ensures fits { OnOk result (area.base + area.len < 2 ^ 48) }
    ensures synced { OnOk result (IsSynced (D.view disk.new)) }
    ensures any_crash { AnyCrash (D.view disk.old).timeline (D.view disk.new).timeline (λ bytes. records_of bytes ≡ records_of (reads (D.view disk.old))) }
    ensures memory { IsErrOf result Fault.Memory → D.view disk.new ≡ D.view disk.old }
    ensures failed { IsErrOf result Fault.Disk → (D.view disk.new).faults ≡ bumped (D.view disk.old).faults }
    ensures faults { (D.view disk.old).faults ≤ (D.view disk.new).faults }
    ensures no_fault { OnOk result ((D.view disk.new).faults ≡ (D.view disk.old).faults) }
    ensures word { (D.view disk.new).word ≡ (D.view disk.old).word }
    ensures armed { (D.view disk.new).armed ≤ (D.view disk.old).armed }
    ensures within { (D.view disk.old).armed ≤ (D.view disk.new).armed + 1 }
    ensures spends { OnOk result (Spends 1 (D.view disk.old).armed (D.view disk.new).armed) }
    ensures running { OnOk result ((D.view disk.new).stopped ≡ false) }
{
    write_synced(disk, area.base + area.len, &[CLOSED])?;
    Ok(())
}
