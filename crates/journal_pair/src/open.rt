//! Opens a disk: reads or counts the records of one that is ready, and makes any other ready.
ghost use Rattle.std.specs.Prelude.{◌≡◌, ◌≢◌, ◌⊎◌, ◌+◌, ◌-◌, ◌^◌, ◌<◌, ◌≤◌, ℕ, true, false, [], length, slice_index_or, IfOk, OnOk, IsErrOf};
ghost use Rattle.disk_model.specs.Disk.{reads, IsSynced, bumped};
ghost use Rattle.disk_model.specs.Armed.{Spends};
ghost use Rattle.disk_model.specs.Crash.{AnyCrash};
ghost use Rattle.journal_core.specs.Records.{payloads};
ghost use Rattle.journal_pair.specs.Records.{is_ready, records_of};
ghost use Rattle.journal_pair.specs.Layout.{Stands};

use crate::area::FIRST;
use crate::header::{make_ready, read_header};
use crate::scan::{Counted, Found, count, scan};
use disk_model::Disk;
use journal_core::Fault;
use journal_core::gates::record_at;
use std::alloc::Global;

/// The records of a disk, and the area in which they stand. A crash inside leaves the same records.
pub(crate) fn find<D: Disk>(alloc: Global, disk: &mut D) -> Result<Found, Fault>
    requires { IsSynced (D.view disk.old) }
    ensures records { IfOk result (λ r. payloads r.0.items ≡ records_of (reads (D.view disk.old))) }
    ensures stands { IfOk result (λ r. Stands (records_of (reads (D.view disk.old))) r.1 (reads (D.view disk.new))) }
    ensures fits { IfOk result (λ r. r.1.base + r.1.len + 1 < 2 ^ 64) }
    ensures any_crash { AnyCrash (D.view disk.old).timeline (D.view disk.new).timeline (λ bytes. records_of bytes ≡ records_of (reads (D.view disk.old))) }
    ensures memory { IsErrOf result Fault.Memory → is_ready (reads (D.view disk.old)) ≡ true → (D.view disk.new).timeline ≡ (D.view disk.old).timeline }
    ensures synced { OnOk result (IsSynced (D.view disk.new)) }
    ensures memory_synced { IsErrOf result Fault.Memory → IsSynced (D.view disk.new) }
    ensures failed { IsErrOf result Fault.Disk → (D.view disk.new).faults ≡ bumped (D.view disk.old).faults }
    ensures faults { (D.view disk.old).faults ≤ (D.view disk.new).faults }
    ensures no_fault { OnOk result ((D.view disk.new).faults ≡ (D.view disk.old).faults) }
    ensures no_fault_memory { IsErrOf result Fault.Memory → (D.view disk.new).faults ≡ (D.view disk.old).faults }
    ensures word { (D.view disk.new).word ≡ (D.view disk.old).word }
    ensures armed { (D.view disk.new).armed ≤ (D.view disk.old).armed }
    ensures within { (D.view disk.old).armed ≤ (D.view disk.new).armed + 4 }
    ensures spends { OnOk result (Spends 4 (D.view disk.old).armed (D.view disk.new).armed) }
    ensures spends_memory { IsErrOf result Fault.Memory → Spends 4 (D.view disk.old).armed (D.view disk.new).armed }
    ensures running { OnOk result ((D.view disk.new).stopped ≡ false) }
    ensures memory_running { (D.view disk.old).stopped ≡ false → IsErrOf result Fault.Memory → (D.view disk.new).stopped ≡ false }
{
    let Some((second, base)) = read_header(disk)? else {
        make_ready(disk)?;
        return Ok((Vec::new(alloc), FIRST));
    };
    scan(alloc, disk, second, base)
}

/// How many records a disk has, and the area in which they stand. A crash inside leaves the same records.
pub(crate) fn find_count<D: Disk>(disk: &mut D) -> Result<Counted, Fault>
    requires { IsSynced (D.view disk.old) }
    ensures counted { IfOk result (λ r. r.0 ≡ length (records_of (reads (D.view disk.old)))) }
    ensures stands { IfOk result (λ r. Stands (records_of (reads (D.view disk.old))) r.1 (reads (D.view disk.new))) }
    ensures fits { IfOk result (λ r. r.1.base + r.1.len + 1 < 2 ^ 64) }
    ensures any_crash { AnyCrash (D.view disk.old).timeline (D.view disk.new).timeline (λ bytes. records_of bytes ≡ records_of (reads (D.view disk.old))) }
    ensures memory { IsErrOf result Fault.Memory → is_ready (reads (D.view disk.old)) ≡ true → (D.view disk.new).timeline ≡ (D.view disk.old).timeline }
    ensures synced { OnOk result (IsSynced (D.view disk.new)) }
    ensures memory_synced { IsErrOf result Fault.Memory → IsSynced (D.view disk.new) }
    ensures failed { IsErrOf result Fault.Disk → (D.view disk.new).faults ≡ bumped (D.view disk.old).faults }
    ensures faults { (D.view disk.old).faults ≤ (D.view disk.new).faults }
    ensures no_fault { OnOk result ((D.view disk.new).faults ≡ (D.view disk.old).faults) }
    ensures no_fault_memory { IsErrOf result Fault.Memory → (D.view disk.new).faults ≡ (D.view disk.old).faults }
    ensures word { (D.view disk.new).word ≡ (D.view disk.old).word }
    ensures armed { (D.view disk.new).armed ≤ (D.view disk.old).armed }
    ensures within { (D.view disk.old).armed ≤ (D.view disk.new).armed + 4 }
    ensures spends { OnOk result (Spends 4 (D.view disk.old).armed (D.view disk.new).armed) }
    ensures spends_memory { IsErrOf result Fault.Memory → Spends 4 (D.view disk.old).armed (D.view disk.new).armed }
    ensures running { OnOk result ((D.view disk.new).stopped ≡ false) }
    ensures memory_running { (D.view disk.old).stopped ≡ false → IsErrOf result Fault.Memory → (D.view disk.new).stopped ≡ false }
{
    let Some((second, base)) = read_header(disk)? else {
        make_ready(disk)?;
        return Ok((0, FIRST));
    };
    count(disk, second, base)
}

/// The i-th record of a disk, from 0 on.
pub(crate) fn record_of<D: Disk>(alloc: Global, disk: &mut D, i: usize) -> Result<Vec<u8>, Fault>
    requires { i < length (records_of (reads (D.view disk.old))) }
    ensures record { IfOk result (λ v. v.items ≡ slice_index_or (records_of (reads (D.view disk.old))) i []) }
    ensures same { (D.view disk.new).timeline ≡ (D.view disk.old).timeline }
    ensures failed { IsErrOf result Fault.Disk → (D.view disk.new).faults ≡ bumped (D.view disk.old).faults }
    ensures faults { (D.view disk.old).faults ≤ (D.view disk.new).faults }
    ensures no_fault { OnOk result ((D.view disk.new).faults ≡ (D.view disk.old).faults) }
    ensures no_fault_memory { IsErrOf result Fault.Memory → (D.view disk.new).faults ≡ (D.view disk.old).faults }
    ensures state { ((D.view disk.new).stopped ≡ (D.view disk.old).stopped) × ((D.view disk.new).armed ≡ (D.view disk.old).armed) }
    ensures word { (D.view disk.new).word ≡ (D.view disk.old).word }
{
    match read_header(disk)? {
        Some((_, base)) => record_at(alloc, disk, base, i),
        None => unreachable!(),
    }
}
