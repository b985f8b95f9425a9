//! Records in bytes, and back.
ghost use Rattle.std.specs.Prelude.{◌≡◌, ◌<◌, ◌≤◌, ◌^◌, IfOk, IfSome, Some, None};
ghost use Rattle.std.specs.Option.{ForSome};
ghost use Rattle.delos_types.specs.Spelling.{IsSpellable};
ghost use Rattle.server_records.specs.Format.{SpellsRecord};
ghost use Rattle.server_records.specs.Reading.{record_of, record_with, stored_by, trimmed_by, sealed_by, compacted_by, seal_by, flagged, last_position, split_position};
ghost use Rattle.server_records.specs.declared.record.Record as view;

use crate::record::Record;
use delos_types::big_endian::{put_u64, split_u64};
use delos_types::bytes::Bytes;
use delos_types::entry::Entry;
use entry_codec::{DecodeError, decode_entry, encode_entry};
use std::alloc::{AllocError, Global};

/// Positions of entries are below this; a trim, a base and a length are at most this.
const POSITIONS: u64 = 0x1_0000_0000;

/// The bytes of the record that the entry stands at this position.
pub fn stored_record(alloc: Global, position: u64, entry: &Entry) -> Result<Bytes, AllocError>
    requires position { position < 2 ^ 32 }
    requires entry { IsSpellable entry.now }
    ensures { IfOk result (λ bytes. SpellsRecord bytes (Record.Stored position entry.now)) }
{
    let spelled = encode_entry(alloc, entry)?;
    let mut out = Vec::new(alloc);
    out.push(1)?;
    put_u64(&mut out, position)?;
    out.extend_from_slice(spelled.as_slice())?;
    Ok(Bytes::from_vec(out))
}

/// The bytes of the record that the server is sealed.
pub fn sealed_record(alloc: Global) -> Result<Bytes, AllocError>
    ensures { IfOk result (λ bytes. SpellsRecord bytes Record.Sealed) }
{
    Bytes::from_slice(alloc, &[2])
}

/// The bytes of the record that the entries below this position are let go.
pub fn trimmed_record(alloc: Global, position: u64) -> Result<Bytes, AllocError>
    requires { position ≤ 2 ^ 32 }
    ensures { IfOk result (λ bytes. SpellsRecord bytes (Record.Trimmed position)) }
{
    let mut out = Vec::new(alloc);
    out.push(3)?;
    put_u64(&mut out, position)?;
    Ok(Bytes::from_vec(out))
}

/// The bytes of the record that a compaction begins with: the entries below the base are let go, and the server is sealed
/// at this length or isn't.
pub fn compacted_record(
    alloc: Global,
    base: u64,
    sealed_at: Option<u64>,
) -> Result<Bytes, AllocError>
    requires base { base ≤ 2 ^ 32 }
    requires sealed { ForSome sealed_at (λ n. n ≤ 2 ^ 32) }
    ensures { IfOk result (λ bytes. SpellsRecord bytes (Record.Compacted base sealed_at)) }
{
    let mut out = Vec::new(alloc);
    out.push(4)?;
    put_u64(&mut out, base)?;
    out.push(if sealed_at.is_some() { 1 } else { 0 })?;
    put_u64(&mut out, sealed_at.unwrap_or(0))?;
    Ok(Bytes::from_vec(out))
}

/// The record that the bytes spell, and None exactly where they spell none.
pub fn read_record(alloc: Global, bytes: &[u8]) -> Result<Option<Record>, AllocError>
    ensures value { IfOk result (λ read. read ≡ record_of bytes.now) }

    // What is read is spelled so, and what is spelled so is read.
    ensures found { IfOk result (λ read. IfSome read (SpellsRecord bytes.now)) }
    ensures only { (r : view.Record) → SpellsRecord bytes.now r → IfOk result (λ read. read ≡ Some r) }
{
    read(alloc, bytes)
}

#[tactic(auto, unfolding(crate::specs::Reading::record_of))]
fn read(alloc: Global, bytes: &[u8]) -> Result<Option<Record>, AllocError>
    ensures { IfOk result (λ read. read ≡ record_of bytes.now) }
{
    match bytes.split_first() {
        Some((tag, rest)) => read_tagged(alloc, *tag, rest),
        None => Ok(None),
    }
}

// The record of a tag, where the bytes are what stands behind it.
fn read_tagged(alloc: Global, tag: u8, bytes: &[u8]) -> Result<Option<Record>, AllocError>
    ensures { IfOk result (λ read. read ≡ record_with tag bytes.now) }
{
    match tag {
        1 => stored_in(alloc, bytes),
        2 => Ok(sealed_in(bytes)),
        3 => Ok(trimmed_in(bytes)),
        4 => Ok(compacted_in(bytes)),
        _ => Ok(None),
    }
}

fn stored_in(alloc: Global, bytes: &[u8]) -> Result<Option<Record>, AllocError>
    ensures { IfOk result (λ read. read ≡ stored_by (split_position bytes.now)) }
{
    let Some((position, rest)) = split_u64(bytes) else {
        return Ok(None);
    };
    if position >= POSITIONS {
        return Ok(None);
    }
    match decode_entry(alloc, rest) {
        Ok(entry) => Ok(Some(Record::Stored(position, entry))),
        Err(DecodeError::Memory) => Err(AllocError),
        Err(DecodeError::Bad(_)) => Ok(None),
    }
}

fn sealed_in(bytes: &[u8]) -> Option<Record>
    ensures { result ≡ sealed_by bytes.now }
{
    if bytes.is_empty() {
        Some(Record::Sealed)
    } else {
        None
    }
}

fn trimmed_in(bytes: &[u8]) -> Option<Record>
    ensures { result ≡ trimmed_by (split_position bytes.now) }
{
    Some(Record::Trimmed(last_in(bytes)?))
}

fn compacted_in(bytes: &[u8]) -> Option<Record>
    ensures { result ≡ compacted_by (split_position bytes.now) }
{
    let (base, rest) = split_u64(bytes)?;
    if base > POSITIONS {
        return None;
    }
    Some(Record::Compacted(base, seal_in(rest)?))
}

/// The length at which a server is sealed, behind the flag that says whether it is.
fn seal_in(bytes: &[u8]) -> Option<Option<u64>>
    ensures { result ≡ seal_by bytes.now }
{
    let (flag, rest) = bytes.split_first()?;
    flagged_as(*flag, last_in(rest)?)
}

fn flagged_as(flag: u8, length: u64) -> Option<Option<u64>>
    ensures { result ≡ flagged flag (Some length) }
{
    match flag {
        0 if length == 0 => Some(None),
        1 => Some(Some(length)),
        _ => None,
    }
}

/// The number that the bytes spell, at most 2^32, if they spell just one.
fn last_in(bytes: &[u8]) -> Option<u64>
    ensures { result ≡ last_position (split_position bytes.now) }
{
    let (position, rest) = split_u64(bytes)?;
    if position <= POSITIONS && rest.is_empty() {
        Some(position)
    } else {
        None
    }
}
