//! The header of a disk: whether it is ready, which of two slots is selected, and the bases in them.
ghost use Rattle.std.specs.Prelude.{◌≡◌, ◌≢◌, ◌⊎◌, ◌+◌, ◌-◌, ◌^◌, ◌<◌, ◌≤◌, ◌==◌, ℕ, true, false, [], ◌∷◌, length, slice_index, IfOk, IfSome, OnOk, IsErrOf, MatchOption, if◌then◌else◌};
ghost use Rattle.disk_model.specs.Disk.{Written, changed, at_rest, reads, IsSynced, bumped};
ghost use Rattle.disk_model.specs.Torn.{IsTorn};
ghost use Rattle.std.specs.Int.{w64, to_be_bytes};
ghost use Rattle.disk_model.specs.Armed.{Spends};
ghost use Rattle.disk_model.specs.Crash.{AnyCrash};
ghost use Rattle.journal_pair.specs.Records.{is_ready, records_of, slot_at};
ghost use Rattle.journal_pair.specs.Layout.{Selects, Stands, first_area};

use crate::area::{Area, HEADER};
use crate::cut::cut_synced;
use disk_model::{Disk, write_synced};
use journal_core::Fault;

// The first byte of a disk that is ready; any other is that of one that isn't.
const READY: u8 = 1;

// The first byte of a disk that is being made ready.
const UNREADY: u8 = 0;

// Where the byte stands that selects a slot.
pub(crate) const SELECTOR: u64 = 1;

// It selects the second slot; any other byte, as this one, the first.
const SECOND: u8 = 1;

const FIRST_SLOT: u8 = 0;

// What stands behind the first byte of a disk that was made ready: the first slot is selected, both bases are 18, and the
// area there is a gate that is closed.
const EMPTY: [u8; 18] = [0, 0, 0, 0, 0, 0, 0, 0, 18, 0, 0, 0, 0, 0, 0, 0, 18, 0];

/// The byte that selects a slot.
pub(crate) fn selector(second: bool) -> u8
    ensures { (result == 1) ≡ second }
{
    if second { SECOND } else { FIRST_SLOT }
}

// Where a slot stands.
fn slot(second: bool) -> u64
    ensures { result ≡ slot_at second }
{
    if second { 10 } else { 2 }
}

/// The slot that is selected, and the base in it, where the disk is ready.
pub(crate) fn read_header<D: Disk>(disk: &mut D) -> Result<Option<(bool, u64)>, Fault>
    ensures value { IfOk result (λ o. MatchOption o (is_ready (reads (D.view disk.old)) ≡ false) (λ h. Selects h.0 h.1 (reads (D.view disk.old)))) }
    ensures fits { IfOk result (λ o. IfSome o (λ h. h.1 + 1 < 2 ^ 64)) }
    ensures same { (D.view disk.new).timeline ≡ (D.view disk.old).timeline }
    ensures failed { IsErrOf result Fault.Disk → (D.view disk.new).faults ≡ bumped (D.view disk.old).faults }
    ensures memory { IsErrOf result Fault.Memory → ⊥ }
    ensures faults { (D.view disk.old).faults ≤ (D.view disk.new).faults }
    ensures no_fault { OnOk result ((D.view disk.new).faults ≡ (D.view disk.old).faults) }
    ensures state { ((D.view disk.new).stopped ≡ (D.view disk.old).stopped) × ((D.view disk.new).armed ≡ (D.view disk.old).armed) }
    ensures word { (D.view disk.new).word ≡ (D.view disk.old).word }
{
    let len = disk.len();
    if len <= HEADER {
        return Ok(None);
    }
    let mut front = [0u8; 2];
    disk.read(0, &mut front)?;
    let second = front[1] == SECOND;
    let mut base = [0u8; 8];
    disk.read(slot(second), &mut base)?;
    let base = u64::from_be_bytes(base);
    if front[0] != READY || base < HEADER || base >= len {
        return Ok(None);
    }
    Ok(Some((second, base)))
}

/// Writes an area's base into its slot.
pub(crate) fn write_slot<D: Disk>(disk: &mut D, area: Area) -> Result<(), Fault>
    requires synced { IsSynced (D.view disk.old) }
    requires inside { 18 ≤ length (reads (D.view disk.old)) }
    ensures ok { OnOk result ((D.view disk.new).timeline.now ≡ at_rest (changed (Written (slot_at area.second) (to_be_bytes w64 area.base)) (reads (D.view disk.old)))) }
    ensures any_crash { AnyCrash (D.view disk.old).timeline (D.view disk.new).timeline (IsTorn (reads (D.view disk.old)) (slot_at area.second) 8) }
    ensures memory { IsErrOf result Fault.Memory → D.view disk.new ≡ D.view disk.old }
    ensures failed { IsErrOf result Fault.Disk → (D.view disk.new).faults ≡ bumped (D.view disk.old).faults }
    ensures faults { (D.view disk.old).faults ≤ (D.view disk.new).faults }
    ensures no_fault { OnOk result ((D.view disk.new).faults ≡ (D.view disk.old).faults) }
    ensures word { (D.view disk.new).word ≡ (D.view disk.old).word }
    ensures armed { (D.view disk.new).armed ≤ (D.view disk.old).armed }
    ensures within { (D.view disk.old).armed ≤ (D.view disk.new).armed + 1 }
    ensures spends { OnOk result (Spends 1 (D.view disk.old).armed (D.view disk.new).armed) }
    ensures running { OnOk result ((D.view disk.new).stopped ≡ false) }
{
    write_synced(disk, slot(area.second), &area.base.to_be_bytes())?;
    Ok(())
}

/// Makes a disk that isn't ready one that is, without records: at most four writes.
pub(crate) fn make_ready<D: Disk>(disk: &mut D) -> Result<(), Fault>
    requires synced { IsSynced (D.view disk.old) }
    requires unready { is_ready (reads (D.view disk.old)) ≡ false }
    ensures stands { OnOk result (Stands [] first_area (reads (D.view disk.new))) }
    ensures any_crash { AnyCrash (D.view disk.old).timeline (D.view disk.new).timeline (λ bytes. records_of bytes ≡ []) }
    ensures synced { OnOk result (IsSynced (D.view disk.new)) }
    ensures memory_synced { IsErrOf result Fault.Memory → IsSynced (D.view disk.new) }
    ensures failed { IsErrOf result Fault.Disk → (D.view disk.new).faults ≡ bumped (D.view disk.old).faults }
    ensures faults { (D.view disk.old).faults ≤ (D.view disk.new).faults }
    ensures no_fault { OnOk result ((D.view disk.new).faults ≡ (D.view disk.old).faults) }
    ensures no_fault_memory { IsErrOf result Fault.Memory → (D.view disk.new).faults ≡ (D.view disk.old).faults }
    ensures word { (D.view disk.new).word ≡ (D.view disk.old).word }
    ensures armed { (D.view disk.new).armed ≤ (D.view disk.old).armed }
    ensures within { (D.view disk.old).armed ≤ (D.view disk.new).armed + 4 }
    ensures spends { OnOk result (Spends 4 (D.view disk.old).armed (D.view disk.new).armed) }
    ensures spends_memory { IsErrOf result Fault.Memory → Spends 3 (D.view disk.old).armed (D.view disk.new).armed }
    ensures running { OnOk result ((D.view disk.new).stopped ≡ false) }
    ensures memory_running { (D.view disk.old).stopped ≡ false → IsErrOf result Fault.Memory → (D.view disk.new).stopped ≡ false }
{
    write_unready(disk)?;
    cut_behind_first(disk)?;
    write_synced(disk, SELECTOR, &EMPTY)?;
    write_synced(disk, 0, &[READY])?;
    Ok(())
}

// Writes that the disk isn't ready, where it is empty or says that it is.
fn write_unready<D: Disk>(disk: &mut D) -> Result<(), Fault>
    requires synced { IsSynced (D.view disk.old) }
    requires unready { is_ready (reads (D.view disk.old)) ≡ false }
    ensures begun { OnOk result (1 ≤ length (reads (D.view disk.new))) }
    ensures closed { OnOk result (slice_index (reads (D.view disk.new)) 0 ≢ 1) }
    ensures any_crash { AnyCrash (D.view disk.old).timeline (D.view disk.new).timeline (λ bytes. is_ready bytes ≡ false) }
    ensures synced { OnOk result (IsSynced (D.view disk.new)) }
    ensures memory_synced { IsErrOf result Fault.Memory → IsSynced (D.view disk.new) }
    ensures failed { IsErrOf result Fault.Disk → (D.view disk.new).faults ≡ bumped (D.view disk.old).faults }
    ensures faults { (D.view disk.old).faults ≤ (D.view disk.new).faults }
    ensures no_fault { OnOk result ((D.view disk.new).faults ≡ (D.view disk.old).faults) }
    ensures no_fault_memory { IsErrOf result Fault.Memory → (D.view disk.new).faults ≡ (D.view disk.old).faults }
    ensures word { (D.view disk.new).word ≡ (D.view disk.old).word }
    ensures armed { (D.view disk.new).armed ≤ (D.view disk.old).armed }
    ensures within { (D.view disk.old).armed ≤ (D.view disk.new).armed + 1 }
    ensures spends { OnOk result (Spends 1 (D.view disk.old).armed (D.view disk.new).armed) }
    ensures spends_memory { IsErrOf result Fault.Memory → Spends 0 (D.view disk.old).armed (D.view disk.new).armed }
    ensures still_running { (D.view disk.old).stopped ≡ false → OnOk result ((D.view disk.new).stopped ≡ false) }
    ensures memory_running { (D.view disk.old).stopped ≡ false → IsErrOf result Fault.Memory → (D.view disk.new).stopped ≡ false }
{
    if says_unready(disk)? {
        return Ok(());
    }
    write_synced(disk, 0, &[UNREADY])?;
    Ok(())
}

// There is a first byte, and it says that the disk isn't ready.
fn says_unready<D: Disk>(disk: &mut D) -> Result<bool, Fault>
    ensures said { IfOk result (λ b. b ≡ true → (1 ≤ length (reads (D.view disk.old))) × (slice_index (reads (D.view disk.old)) 0 ≢ 1)) }
    ensures unsaid { IfOk result (λ b. b ≡ false → 1 ≤ length (reads (D.view disk.old)) → slice_index (reads (D.view disk.old)) 0 ≡ 1) }
    ensures same { (D.view disk.new).timeline ≡ (D.view disk.old).timeline }
    ensures failed { IsErrOf result Fault.Disk → (D.view disk.new).faults ≡ bumped (D.view disk.old).faults }
    ensures memory { IsErrOf result Fault.Memory → ⊥ }
    ensures faults { (D.view disk.old).faults ≤ (D.view disk.new).faults }
    ensures no_fault { OnOk result ((D.view disk.new).faults ≡ (D.view disk.old).faults) }
    ensures state { ((D.view disk.new).stopped ≡ (D.view disk.old).stopped) × ((D.view disk.new).armed ≡ (D.view disk.old).armed) }
    ensures word { (D.view disk.new).word ≡ (D.view disk.old).word }
{
    if disk.len() == 0 {
        return Ok(false);
    }
    let mut first = [0u8; 1];
    disk.read(0, &mut first)?;
    Ok(first[0] != READY)
}

// Leaves the first byte alone.
fn cut_behind_first<D: Disk>(disk: &mut D) -> Result<(), Fault>
    requires synced { IsSynced (D.view disk.old) }
    requires begun { 1 ≤ length (reads (D.view disk.old)) }
    requires closed { slice_index (reads (D.view disk.old)) 0 ≢ 1 }
    ensures alone { OnOk result (length (reads (D.view disk.new)) ≡ 1) }
    ensures still_closed { OnOk result (slice_index (reads (D.view disk.new)) 0 ≢ 1) }
    ensures any_crash { AnyCrash (D.view disk.old).timeline (D.view disk.new).timeline (λ bytes. is_ready bytes ≡ false) }
    ensures synced { OnOk result (IsSynced (D.view disk.new)) }
    ensures memory_synced { IsErrOf result Fault.Memory → IsSynced (D.view disk.new) }
    ensures failed { IsErrOf result Fault.Disk → (D.view disk.new).faults ≡ bumped (D.view disk.old).faults }
    ensures faults { (D.view disk.old).faults ≤ (D.view disk.new).faults }
    ensures no_fault { OnOk result ((D.view disk.new).faults ≡ (D.view disk.old).faults) }
    ensures no_fault_memory { IsErrOf result Fault.Memory → (D.view disk.new).faults ≡ (D.view disk.old).faults }
    ensures word { (D.view disk.new).word ≡ (D.view disk.old).word }
    ensures armed { (D.view disk.new).armed ≤ (D.view disk.old).armed }
    ensures within { (D.view disk.old).armed ≤ (D.view disk.new).armed + 1 }
    ensures spends { OnOk result (Spends 1 (D.view disk.old).armed (D.view disk.new).armed) }
    ensures spends_memory { IsErrOf result Fault.Memory → Spends 0 (D.view disk.old).armed (D.view disk.new).armed }
    ensures still_running { (D.view disk.old).stopped ≡ false → OnOk result ((D.view disk.new).stopped ≡ false) }
    ensures memory_running { (D.view disk.old).stopped ≡ false → IsErrOf result Fault.Memory → (D.view disk.new).stopped ≡ false }
{
    if disk.len() > 1 {
        cut_synced(disk, 1)?;
    }
    Ok(())
}
