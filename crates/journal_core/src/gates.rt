//! Gates and records in the bytes of a disk, wherever they lie: for journals that share a disk with something else.
ghost use Rattle.std.specs.Prelude.{◌≡◌, ◌≢◌, ◌+◌, ◌^◌, ◌<◌, ◌≤◌, ℕ, Some, None, true, false, [], length, take, drop, slice_index, slice_index_or, IfOk, IfSome, OnOk, OnErr, IsErrOf, MatchOption};
ghost use Rattle.disk_model.specs.Disk.{reads, bumped};
ghost use Rattle.journal_core.specs.Records.{first_record, records_of, payloads};
ghost use Rattle.journal_core.specs.Layout.{IsEnd, framed};

use crate::Fault;
use disk_model::{Disk, Failed};
use std::alloc::{AllocError, Global};

/// The bytes beside a payload: its gate and its length.
pub const OVERHEAD: u64 = 9;

/// A gate that is open; any other byte is a closed one.
pub const OPEN: u8 = 1;

/// A gate that is closed.
pub const CLOSED: u8 = 0;

/// What stands behind a gate: length, payload, and the next gate, which is closed. Cost: O(payload).
pub fn frame(alloc: Global, payload: &[u8]) -> Result<Vec<u8>, AllocError>
    ensures framed { IfOk result (λ v. v.items ≡ framed payload.now) }
    ensures short { length payload.now < 2 ^ 64 }
{
    let mut bytes = Vec::new(alloc);
    bytes.extend_from_slice(&(payload.len() as u64).to_be_bytes())?;
    bytes.extend_from_slice(payload)?;
    bytes.push(CLOSED)?;
    Ok(bytes)
}

/// All records from a base on, and how many bytes behind it they end. `Disk` comes with just one fault of the disk.
///
/// Cost: three reads a record, and one more.
pub fn read_records<D: Disk>(
    alloc: Global,
    disk: &mut D,
    base: u64,
) -> Result<(Vec<Vec<u8>>, u64), Fault>
    requires inside { base ≤ length (reads (D.view disk.old)) }
    requires fits { base + 1 < 2 ^ 64 }
    ensures records { IfOk result (λ r. payloads r.0.items ≡ records_of (drop base (reads (D.view disk.old)))) }
    ensures few { IfOk result (λ r. length r.0.items ≤ r.1) }
    ensures ends { IfOk result (λ r. IsEnd r.1 (drop base (reads (D.view disk.old)))) }
    ensures fits { IfOk result (λ r. base + r.1 + 1 < 2 ^ 64) }
    ensures same { (D.view disk.new).timeline ≡ (D.view disk.old).timeline }
    ensures failed { IsErrOf result Fault.Disk → (D.view disk.new).faults ≡ bumped (D.view disk.old).faults }
    ensures faults { (D.view disk.old).faults ≤ (D.view disk.new).faults }
    ensures no_fault { OnOk result ((D.view disk.new).faults ≡ (D.view disk.old).faults) }
    ensures no_fault_memory { IsErrOf result Fault.Memory → (D.view disk.new).faults ≡ (D.view disk.old).faults }
    ensures state { ((D.view disk.new).stopped ≡ (D.view disk.old).stopped) × ((D.view disk.new).armed ≡ (D.view disk.old).armed) }
    ensures word { (D.view disk.new).word ≡ (D.view disk.old).word }
{
    let mut found = Vec::new(alloc);
    let mut end = 0;
    while let Some(payload) = read_record(alloc, disk, base + end)? {
        end += OVERHEAD + payload.len() as u64;
        found.push(payload)?;
    }
    Ok((found, end))
}

/// How many records there are from a base on, and how many bytes behind it they end. `Failed` comes with just one fault
/// of the disk.
///
/// Cost: two reads of nine bytes in all for each record, and one or two more. It takes no memory.
pub fn count_records<D: Disk>(disk: &mut D, base: u64) -> Result<(usize, u64), Failed>
    requires inside { base ≤ length (reads (D.view disk.old)) }
    requires fits { base + 1 < 2 ^ 64 }
    ensures counted { IfOk result (λ r. r.0 ≡ length (records_of (drop base (reads (D.view disk.old))))) }
    ensures few { IfOk result (λ r. r.0 ≤ r.1) }
    ensures ends { IfOk result (λ r. IsEnd r.1 (drop base (reads (D.view disk.old)))) }
    ensures fits { IfOk result (λ r. base + r.1 + 1 < 2 ^ 64) }
    ensures same { (D.view disk.new).timeline ≡ (D.view disk.old).timeline }
    ensures failed { OnErr result ((D.view disk.new).faults ≡ bumped (D.view disk.old).faults) }
    ensures faults { (D.view disk.old).faults ≤ (D.view disk.new).faults }
    ensures no_fault { OnOk result ((D.view disk.new).faults ≡ (D.view disk.old).faults) }
    ensures state { ((D.view disk.new).stopped ≡ (D.view disk.old).stopped) × ((D.view disk.new).armed ≡ (D.view disk.old).armed) }
    ensures word { (D.view disk.new).word ≡ (D.view disk.old).word }
{
    let mut count = 0;
    let mut end = 0;
    while let Some(size) = size_at(disk, base + end)? {
        end += OVERHEAD + size;
        count += 1;
    }
    Ok((count, end))
}

/// The i-th record from a base on, from 0 on. `Disk` comes with just one fault of the disk.
///
/// Cost: two reads of nine bytes in all for each record before it, and three for it.
pub fn record_at<D: Disk>(
    alloc: Global,
    disk: &mut D,
    base: u64,
    i: usize,
) -> Result<Vec<u8>, Fault>
    requires inside { base ≤ length (reads (D.view disk.old)) }
    requires there { i < length (records_of (drop base (reads (D.view disk.old)))) }
    ensures record { IfOk result (λ v. v.items ≡ slice_index_or (records_of (drop base (reads (D.view disk.old)))) i []) }
    ensures same { (D.view disk.new).timeline ≡ (D.view disk.old).timeline }
    ensures failed { IsErrOf result Fault.Disk → (D.view disk.new).faults ≡ bumped (D.view disk.old).faults }
    ensures faults { (D.view disk.old).faults ≤ (D.view disk.new).faults }
    ensures no_fault { OnOk result ((D.view disk.new).faults ≡ (D.view disk.old).faults) }
    ensures no_fault_memory { IsErrOf result Fault.Memory → (D.view disk.new).faults ≡ (D.view disk.old).faults }
    ensures state { ((D.view disk.new).stopped ≡ (D.view disk.old).stopped) × ((D.view disk.new).armed ≡ (D.view disk.old).armed) }
    ensures word { (D.view disk.new).word ≡ (D.view disk.old).word }
{
    let mut place = base;
    for _before in 0..i {
        match size_at(disk, place)? {
            Some(size) => place += OVERHEAD + size,
            None => unreachable!(),
        }
    }
    match read_record(alloc, disk, place)? {
        Some(payload) => Ok(payload),
        None => unreachable!(),
    }
}

// The record at a place, if there is one: its gate is open, and it and the next gate lie whole in the disk.
fn read_record<D: Disk>(alloc: Global, disk: &mut D, at: u64) -> Result<Option<Vec<u8>>, Fault>
    requires { at ≤ length (reads (D.view disk.old)) }
    ensures some { IfOk result (λ o. MatchOption o (first_record (drop at (reads (D.view disk.old))) ≡ None) (λ v. first_record (drop at (reads (D.view disk.old))) ≡ Some v.items)) }
    ensures inside { IfOk result (λ o. IfSome o (λ v. at + (10 + length v.items) ≤ length (reads (D.view disk.old)))) }
    ensures fits { IfOk result (λ o. IfSome o (λ v. at + (10 + length v.items) < 2 ^ 64)) }
    ensures same { (D.view disk.new).timeline ≡ (D.view disk.old).timeline }
    ensures failed { IsErrOf result Fault.Disk → (D.view disk.new).faults ≡ bumped (D.view disk.old).faults }
    ensures faults { (D.view disk.old).faults ≤ (D.view disk.new).faults }
    ensures no_fault { OnOk result ((D.view disk.new).faults ≡ (D.view disk.old).faults) }
    ensures no_fault_memory { IsErrOf result Fault.Memory → (D.view disk.new).faults ≡ (D.view disk.old).faults }
    ensures state { ((D.view disk.new).stopped ≡ (D.view disk.old).stopped) × ((D.view disk.new).armed ≡ (D.view disk.old).armed) }
    ensures word { (D.view disk.new).word ≡ (D.view disk.old).word }
{
    let Some(size) = size_at(disk, at)? else {
        return Ok(None);
    };
    let payload = payload_at(alloc, disk, at + OVERHEAD, size)?;
    Ok(Some(payload))
}

// How long the payload of the record at a place is, if there is one: its gate is open, and it and the next gate lie
// whole in the disk.
fn size_at<D: Disk>(disk: &mut D, at: u64) -> Result<Option<u64>, Failed>
    requires { at ≤ length (reads (D.view disk.old)) }
    ensures some { IfOk result (λ o. MatchOption o (first_record (drop at (reads (D.view disk.old))) ≡ None) (λ n. first_record (drop at (reads (D.view disk.old))) ≡ Some (take n (drop (at + 9) (reads (D.view disk.old)))))) }
    ensures inside { IfOk result (λ o. IfSome o (λ n. at + (10 + n) ≤ length (reads (D.view disk.old)))) }
    ensures fits { IfOk result (λ o. IfSome o (λ n. at + (10 + n) < 2 ^ 64)) }
    ensures same { (D.view disk.new).timeline ≡ (D.view disk.old).timeline }
    ensures failed { OnErr result ((D.view disk.new).faults ≡ bumped (D.view disk.old).faults) }
    ensures faults { (D.view disk.old).faults ≤ (D.view disk.new).faults }
    ensures no_fault { OnOk result ((D.view disk.new).faults ≡ (D.view disk.old).faults) }
    ensures state { ((D.view disk.new).stopped ≡ (D.view disk.old).stopped) × ((D.view disk.new).armed ≡ (D.view disk.old).armed) }
    ensures word { (D.view disk.new).word ≡ (D.view disk.old).word }
{
    let left = disk.len() - at;
    if left < OVERHEAD + 1 {
        return Ok(None);
    }
    let mut gate = [0u8; 1];
    disk.read(at, &mut gate)?;
    if gate[0] != OPEN {
        return Ok(None);
    }
    let mut size = [0u8; 8];
    disk.read(at + 1, &mut size)?;
    let size = u64::from_be_bytes(size);
    if size > left - (OVERHEAD + 1) {
        return Ok(None);
    }
    Ok(Some(size))
}

/// The bytes from a place on, so many.
fn payload_at<D: Disk>(alloc: Global, disk: &mut D, at: u64, size: u64) -> Result<Vec<u8>, Fault>
    requires { at + size ≤ length (reads (D.view disk.old)) }
    ensures bytes { IfOk result (λ v. v.items ≡ take size (drop at (reads (D.view disk.old)))) }
    ensures same { (D.view disk.new).timeline ≡ (D.view disk.old).timeline }
    ensures failed { IsErrOf result Fault.Disk → (D.view disk.new).faults ≡ bumped (D.view disk.old).faults }
    ensures faults { (D.view disk.old).faults ≤ (D.view disk.new).faults }
    ensures no_fault { OnOk result ((D.view disk.new).faults ≡ (D.view disk.old).faults) }
    ensures no_fault_memory { IsErrOf result Fault.Memory → (D.view disk.new).faults ≡ (D.view disk.old).faults }
    ensures state { ((D.view disk.new).stopped ≡ (D.view disk.old).stopped) × ((D.view disk.new).armed ≡ (D.view disk.old).armed) }
    ensures word { (D.view disk.new).word ≡ (D.view disk.old).word }
{
    let mut payload = Vec::new(alloc);
    payload.resize(size as usize, 0)?;
    disk.read(at, &mut payload)?;
    Ok(payload)
}

/// The gate where the records end isn't there, or isn't closed. `Failed` comes with just one fault of the disk. Cost: one
/// read of a byte at most.
pub fn gate_is_open<D: Disk>(disk: &mut D, end: u64) -> Result<bool, Failed>
    requires { end ≤ length (reads (D.view disk.old)) }
    ensures closed { IfOk result (λ b. b ≡ false → (end < length (reads (D.view disk.old))) × (slice_index (reads (D.view disk.old)) end ≢ 1)) }
    ensures opened { IfOk result (λ b. b ≡ true → end < length (reads (D.view disk.old)) → slice_index (reads (D.view disk.old)) end ≡ 1) }
    ensures same { (D.view disk.new).timeline ≡ (D.view disk.old).timeline }
    ensures failed { OnErr result ((D.view disk.new).faults ≡ bumped (D.view disk.old).faults) }
    ensures faults { (D.view disk.old).faults ≤ (D.view disk.new).faults }
    ensures no_fault { OnOk result ((D.view disk.new).faults ≡ (D.view disk.old).faults) }
    ensures state { ((D.view disk.new).stopped ≡ (D.view disk.old).stopped) × ((D.view disk.new).armed ≡ (D.view disk.old).armed) }
    ensures word { (D.view disk.new).word ≡ (D.view disk.old).word }
    ensures running { IfOk result (λ b. b ≡ false → (D.view disk.old).stopped ≡ false) }
{
    if end == disk.len() {
        return Ok(true);
    }
    let mut gate = [0u8; 1];
    disk.read(end, &mut gate)?;
    Ok(gate[0] == OPEN)
}
