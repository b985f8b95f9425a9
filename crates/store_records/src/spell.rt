//! Transactions in bytes, and back.
ghost use Rattle.std.specs.Prelude.{◌≡◌, ◌<◌, ◌^◌, ◌++◌, length, IfOk, IfSome, OnOk, Some};
ghost use Rattle.std.specs.Option.{option_copied};
ghost use Rattle.store_records.specs.Format.{SpellsCommit, IsSpellableChange, head_bytes, value_bytes, change_bytes};
ghost use Rattle.store_records.specs.Reading.{commit_of, commit_fields, Gives};
ghost use Rattle.store_records.specs.declared.change.Commit as view;

use crate::change::{Changes, Commit};
use crate::fields::{Stop, changes_at, end_at, u64_at};
use delos_types::big_endian::put_u64;
use delos_types::bytes::Bytes;
use std::alloc::{AllocError, Global};

/// The flag of a key that is removed.
const REMOVED: u8 = 0;

/// The flag of a key that gets a value.
const SET: u8 = 1;

/// Adds what a transaction begins with: its cursor, and the number of its changes.
pub fn put_head(out: &mut Vec<u8>, cursor: u64, count: u64) -> Result<(), AllocError>
    ensures text { OnOk result (out.new.items ≡ out.old.items ++ head_bytes cursor count) }
    ensures fits { (cursor < 2 ^ 64) × (count < 2 ^ 64) }
{
    put_u64(out, cursor)?;
    put_u64(out, count)?;
    Ok(())
}

/// Adds a change: a key of at most 65,535 bytes gets a value of less than 2^32 bytes, or is removed where there is none.
pub fn put_change(
    out: &mut Vec<u8>,
    kind: u8,
    key: &Bytes,
    value: Option<&Bytes>,
) -> Result<(), AllocError>
    requires key { length key.now < 2 ^ 16 }
    requires value { IfSome (option_copied value) (λ v. length v < 2 ^ 32) }
    ensures text { OnOk result (out.new.items ≡ out.old.items ++ change_bytes (record { kind = kind; key = key.now; value = option_copied value.entry })) }
    ensures fits { IsSpellableChange (record { kind = kind; key = key.now; value = option_copied value.entry }) }
{
    put_change_of(out, kind, key.as_slice(), value)
}

/// The same, of a key whose bytes are kept elsewhere.
#[tactic(auto, unfolding(delos_types::specs::Numbers::u16_bytes))]
pub fn put_change_of(
    out: &mut Vec<u8>,
    kind: u8,
    key: &[u8],
    value: Option<&Bytes>,
) -> Result<(), AllocError>
    requires key { length key.now < 2 ^ 16 }
    requires value { IfSome (option_copied value) (λ v. length v < 2 ^ 32) }
    ensures text { OnOk result (out.new.items ≡ out.old.items ++ change_bytes (record { kind = kind; key = key.now; value = option_copied value.entry })) }
    ensures fits { IsSpellableChange (record { kind = kind; key = key.now; value = option_copied value.entry }) }
{
    let size = (key.len() as u16).to_be_bytes();
    out.extend_from_slice(&[kind, size[0], size[1]])?;
    out.extend_from_slice(key)?;
    put_value(out, value)
}

#[tactic(auto, unfolding(delos_types::specs::Numbers::u32_bytes))]
fn put_value(out: &mut Vec<u8>, value: Option<&Bytes>) -> Result<(), AllocError>
    requires { IfSome (option_copied value) (λ v. length v < 2 ^ 32) }
    ensures { OnOk result (out.new.items ≡ out.old.items ++ value_bytes (option_copied value.entry)) }
{
    match value {
        None => out.push(REMOVED)?,
        Some(value) => {
            let size = (value.len() as u32).to_be_bytes();
            out.extend_from_slice(&[SET, size[0], size[1], size[2], size[3]])?;
            out.extend_from_slice(value.as_slice())?;
        }
    }
    Ok(())
}

/// The transaction that the bytes spell, and None exactly where they spell none.
///
/// Cost: it copies the keys and the values.
pub fn read_commit(alloc: Global, bytes: &[u8]) -> Result<Option<Commit>, AllocError>
    ensures value { IfOk result (λ read. read ≡ commit_of bytes.now) }

    // What is read is spelled so, and what is spelled so is read.
    ensures found { IfOk result (λ read. IfSome read (SpellsCommit bytes.now)) }
    ensures only { (c : view.Commit) → SpellsCommit bytes.now c → IfOk result (λ read. read ≡ Some c) }
{
    match commit_in(alloc, bytes) {
        Ok(commit) => Ok(Some(commit)),
        Err(Stop::Memory) => Err(AllocError),
        Err(Stop::NoCommit) => Ok(None),
    }
}

#[tactic(auto, unfolding(crate::specs::Reading::commit_fields, delos_types::specs::Fields::ended))]
fn commit_in(alloc: Global, bytes: &[u8]) -> Result<Commit, Stop>
    ensures { Gives result (commit_fields bytes.now) }
{
    let (cursor, rest) = u64_at(bytes)?;
    let (count, rest) = u64_at(rest)?;
    let (changes, rest) = changes_at(alloc, count, rest)?;
    end_at(rest)?;
    Ok(Commit {
        cursor,
        changes: Changes::from_vec(changes),
    })
}
