//! Records in the place of others.
ghost use Rattle.std.specs.Prelude.{◌≡◌, ◌≢◌, ◌⊎◌, ◌+◌, ◌-◌, ◌^◌, ◌<◌, ◌≤◌, ℕ, true, false, not, [], length, Vec, IfOk, OnOk, IsErrOf};
ghost use Rattle.std.specs.declared.alloc.Global.{Global};
ghost use Rattle.disk_model.specs.Disk.{reads, IsSynced, bumped};
ghost use Rattle.disk_model.specs.Armed.{Spends};
ghost use Rattle.disk_model.specs.Crash.{AnyCrash};
ghost use Rattle.journal_core.specs.Records.{payloads};
ghost use Rattle.journal_pair.specs.Records.{records_of};
ghost use Rattle.journal_pair.specs.Layout.{Stands, BothLie, IsFree, spelled};

use crate::area::{Area, HEADER};
use crate::cut::cut_synced;
use crate::header::{SELECTOR, selector, write_slot};
use disk_model::{Disk, WriteFault, write_synced};
use journal_core::Fault;
use journal_core::gates::{CLOSED, OPEN, read_records};
use std::alloc::{AllocError, Global};

/// Why records weren't put in the place of others.
pub(crate) enum Unplaced {
    /// Out of memory.
    Memory,
    /// The disk failed before anything was written.
    Unwritten,
    /// It failed in a write. These were there before.
    Torn(Vec<Vec<u8>>),
}

// Puts these records in the place of all that are there: at most four writes. Those of before are read first, since the
// disk may fail when they are cut already.
pub(crate) fn replace<D: Disk>(
    alloc: Global,
    disk: &mut D,
    area: Area,
    records: &[Vec<u8>],
) -> Result<Area, Unplaced>
    requires fits { area.base + area.len + 1 < 2 ^ 64 }
    requires stands { Stands (records_of (reads (D.view disk.old))) area (reads (D.view disk.old)) }
    requires synced { IsSynced (D.view disk.old) }
    ensures ok { IfOk result (λ next. Stands (payloads records.now) next (reads (D.view disk.new))) }
    ensures fits { IfOk result (λ next. next.base + next.len + 1 < 2 ^ 64) }
    ensures any_crash { AnyCrash (D.view disk.old).timeline (D.view disk.new).timeline (λ bytes. (records_of bytes ≡ records_of (reads (D.view disk.old))) ⊎ (records_of bytes ≡ payloads records.now)) }
    ensures memory { IsErrOf result Unplaced.Memory → Stands (records_of (reads (D.view disk.old))) area (reads (D.view disk.new)) }
    ensures unwritten { IsErrOf result Unplaced.Unwritten → (D.view disk.new).timeline ≡ (D.view disk.old).timeline }
    ensures before { (before : Vec (Vec ℕ Global) Global) → IsErrOf result (Unplaced.Torn before) → payloads before.items ≡ records_of (reads (D.view disk.old)) }
    ensures synced { OnOk result (IsSynced (D.view disk.new)) }
    ensures memory_synced { IsErrOf result Unplaced.Memory → IsSynced (D.view disk.new) }
    ensures failed_unwritten { IsErrOf result Unplaced.Unwritten → (D.view disk.new).faults ≡ bumped (D.view disk.old).faults }
    ensures failed { (before : Vec (Vec ℕ Global) Global) → IsErrOf result (Unplaced.Torn before) → (D.view disk.new).faults ≡ bumped (D.view disk.old).faults }
    ensures faults { (D.view disk.old).faults ≤ (D.view disk.new).faults }
    ensures no_fault { OnOk result ((D.view disk.new).faults ≡ (D.view disk.old).faults) }
    ensures no_fault_memory { IsErrOf result Unplaced.Memory → (D.view disk.new).faults ≡ (D.view disk.old).faults }
    ensures word { (D.view disk.new).word ≡ (D.view disk.old).word }
    ensures armed { (D.view disk.new).armed ≤ (D.view disk.old).armed }
    ensures within { (D.view disk.old).armed ≤ (D.view disk.new).armed + 4 }
    ensures spends { OnOk result (Spends 4 (D.view disk.old).armed (D.view disk.new).armed) }
    ensures spends_memory { IsErrOf result Unplaced.Memory → Spends 2 (D.view disk.old).armed (D.view disk.new).armed }
    ensures running { OnOk result ((D.view disk.new).stopped ≡ false) }
    ensures memory_running { (D.view disk.old).stopped ≡ false → IsErrOf result Unplaced.Memory → (D.view disk.new).stopped ≡ false }
{
    let before = match read_records(alloc, disk, area.base) {
        Ok((before, _)) => before,
        Err(Fault::Memory) => return Err(Unplaced::Memory),
        Err(Fault::Disk) => return Err(Unplaced::Unwritten),
    };
    match select_other(alloc, disk, area, records) {
        Ok(next) => Ok(next),
        Err(Fault::Memory) => Err(Unplaced::Memory),
        Err(Fault::Disk) => Err(Unplaced::Torn(before)),
    }
}

// Lays these records into an area of their own, and then selects it: so a crash leaves the area of before whole, or the
// new one. At most four writes.
fn select_other<D: Disk>(
    alloc: Global,
    disk: &mut D,
    area: Area,
    records: &[Vec<u8>],
) -> Result<Area, Fault>
    requires fits { area.base + area.len + 1 < 2 ^ 64 }
    requires stands { Stands (records_of (reads (D.view disk.old))) area (reads (D.view disk.old)) }
    requires synced { IsSynced (D.view disk.old) }
    ensures ok { IfOk result (λ next. Stands (payloads records.now) next (reads (D.view disk.new))) }
    ensures fits { IfOk result (λ next. next.base + next.len + 1 < 2 ^ 64) }
    ensures any_crash { AnyCrash (D.view disk.old).timeline (D.view disk.new).timeline (λ bytes. (records_of bytes ≡ records_of (reads (D.view disk.old))) ⊎ (records_of bytes ≡ payloads records.now)) }
    ensures memory { IsErrOf result Fault.Memory → Stands (records_of (reads (D.view disk.old))) area (reads (D.view disk.new)) }
    ensures synced { OnOk result (IsSynced (D.view disk.new)) }
    ensures memory_synced { IsErrOf result Fault.Memory → IsSynced (D.view disk.new) }
    ensures failed { IsErrOf result Fault.Disk → (D.view disk.new).faults ≡ bumped (D.view disk.old).faults }
    ensures faults { (D.view disk.old).faults ≤ (D.view disk.new).faults }
    ensures no_fault { OnOk result ((D.view disk.new).faults ≡ (D.view disk.old).faults) }
    ensures no_fault_memory { IsErrOf result Fault.Memory → (D.view disk.new).faults ≡ (D.view disk.old).faults }
    ensures word { (D.view disk.new).word ≡ (D.view disk.old).word }
    ensures armed { (D.view disk.new).armed ≤ (D.view disk.old).armed }
    ensures within { (D.view disk.old).armed ≤ (D.view disk.new).armed + 4 }
    ensures spends { OnOk result (Spends 4 (D.view disk.old).armed (D.view disk.new).armed) }
    ensures spends_memory { IsErrOf result Fault.Memory → Spends 2 (D.view disk.old).armed (D.view disk.new).armed }
    ensures running { OnOk result ((D.view disk.new).stopped ≡ false) }
    ensures memory_running { (D.view disk.old).stopped ≡ false → IsErrOf result Fault.Memory → (D.view disk.new).stopped ≡ false }
{
    let next = lay(alloc, disk, area, records)?;
    write_synced(disk, SELECTOR, &[selector(next.second)])?;
    cut_behind(disk, next)?;
    Ok(next)
}

// Lays these records into the area that isn't selected.
fn lay<D: Disk>(alloc: Global, disk: &mut D, area: Area, records: &[Vec<u8>]) -> Result<Area, Fault>
    requires fits { area.base + area.len + 1 < 2 ^ 64 }
    requires stands { Stands (records_of (reads (D.view disk.old))) area (reads (D.view disk.old)) }
    requires synced { IsSynced (D.view disk.old) }
    ensures ok { IfOk result (λ next. BothLie (records_of (reads (D.view disk.old))) area (payloads records.now) next (reads (D.view disk.new))) }
    ensures still { OnOk result (Stands (records_of (reads (D.view disk.old))) area (reads (D.view disk.new))) }
    ensures fits { IfOk result (λ next. next.base + next.len + 1 < 2 ^ 64) }
    ensures any_crash { AnyCrash (D.view disk.old).timeline (D.view disk.new).timeline (λ bytes. records_of bytes ≡ records_of (reads (D.view disk.old))) }
    ensures memory { IsErrOf result Fault.Memory → Stands (records_of (reads (D.view disk.old))) area (reads (D.view disk.new)) }
    ensures synced { OnOk result (IsSynced (D.view disk.new)) }
    ensures memory_synced { IsErrOf result Fault.Memory → IsSynced (D.view disk.new) }
    ensures failed { IsErrOf result Fault.Disk → (D.view disk.new).faults ≡ bumped (D.view disk.old).faults }
    ensures faults { (D.view disk.old).faults ≤ (D.view disk.new).faults }
    ensures no_fault { OnOk result ((D.view disk.new).faults ≡ (D.view disk.old).faults) }
    ensures no_fault_memory { IsErrOf result Fault.Memory → (D.view disk.new).faults ≡ (D.view disk.old).faults }
    ensures word { (D.view disk.new).word ≡ (D.view disk.old).word }
    ensures armed { (D.view disk.new).armed ≤ (D.view disk.old).armed }
    ensures within { (D.view disk.old).armed ≤ (D.view disk.new).armed + 2 }
    ensures spends { OnOk result (Spends 2 (D.view disk.old).armed (D.view disk.new).armed) }
    ensures spends_memory { IsErrOf result Fault.Memory → Spends 1 (D.view disk.old).armed (D.view disk.new).armed }
    ensures running { OnOk result ((D.view disk.new).stopped ≡ false) }
    ensures memory_running { (D.view disk.old).stopped ≡ false → IsErrOf result Fault.Memory → (D.view disk.new).stopped ≡ false }
{
    let bytes = spell(alloc, records)?;
    let next = beside(area, bytes.len() as u64);
    write_synced(disk, next.base, &bytes)?;
    write_slot(disk, next)?;
    Ok(next)
}

// An area of n bytes that leaves the bytes of the other one alone: before it where there is room, else right behind it.
fn beside(area: Area, n: u64) -> Area
    requires fits { area.base + area.len + 1 < 2 ^ 64 }
    requires gate { 1 ≤ n }
    requires short { n < 2 ^ 63 }
    ensures slots { result.second ≡ not area.second }
    ensures free { IsFree area result.base n }
    ensures length { result.len + 1 ≡ n }
{
    let base = if HEADER + n <= area.base {
        HEADER
    } else {
        area.base + area.len + 1
    };
    Area {
        second: !area.second,
        base,
        len: n - 1,
    }
}

// The bytes of an area with these records.
fn spell(alloc: Global, records: &[Vec<u8>]) -> Result<Vec<u8>, AllocError>
    ensures { IfOk result (λ v. v.items ≡ spelled (payloads records.now)) }
{
    let mut bytes = Vec::new(alloc);
    for record in records {
        bytes.push(OPEN)?;
        bytes.extend_from_slice(&(record.len() as u64).to_be_bytes())?;
        bytes.extend_from_slice(record)?;
    }
    bytes.push(CLOSED)?;
    Ok(bytes)
}

// Cuts what lies behind the selected area. Where that is refused for want of memory it stays.
fn cut_behind<D: Disk>(disk: &mut D, area: Area) -> Result<(), Fault>
    requires fits { area.base + area.len + 1 < 2 ^ 64 }
    requires stands { Stands (records_of (reads (D.view disk.old))) area (reads (D.view disk.old)) }
    requires synced { IsSynced (D.view disk.old) }
    requires running { (D.view disk.old).stopped ≡ false }
    ensures ok { OnOk result (Stands (records_of (reads (D.view disk.old))) area (reads (D.view disk.new))) }
    ensures any_crash { AnyCrash (D.view disk.old).timeline (D.view disk.new).timeline (λ bytes. records_of bytes ≡ records_of (reads (D.view disk.old))) }
    ensures memory { IsErrOf result Fault.Memory → ⊥ }
    ensures synced { OnOk result (IsSynced (D.view disk.new)) }
    ensures failed { IsErrOf result Fault.Disk → (D.view disk.new).faults ≡ bumped (D.view disk.old).faults }
    ensures faults { (D.view disk.old).faults ≤ (D.view disk.new).faults }
    ensures no_fault { OnOk result ((D.view disk.new).faults ≡ (D.view disk.old).faults) }
    ensures word { (D.view disk.new).word ≡ (D.view disk.old).word }
    ensures armed { (D.view disk.new).armed ≤ (D.view disk.old).armed }
    ensures within { (D.view disk.old).armed ≤ (D.view disk.new).armed + 1 }
    ensures spends { OnOk result (Spends 1 (D.view disk.old).armed (D.view disk.new).armed) }
    ensures running { OnOk result ((D.view disk.new).stopped ≡ false) }
{
    let end = area.base + area.len + 1;
    if disk.len() <= end {
        return Ok(());
    }
    match cut_synced(disk, end) {
        Ok(()) => Ok(()),
        Err(WriteFault::Memory) => Ok(()),
        Err(WriteFault::Failed) => Err(Fault::Disk),
    }
}
