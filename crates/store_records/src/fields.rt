// The fields of a transaction. Each reader takes the bytes that are left to read; it gives a field's value, and what is
// left after it.
ghost use Rattle.std.specs.Prelude.{◌≡◌, ◌≤◌, length, IfOk};
ghost use Rattle.delos_types.specs.Fields.{u8_field, u16_field, u32_field, u64_field, text_field, short_text_field, long_text_field, ended};
ghost use Rattle.store_records.specs.Reading.{Gives, GivesBy, flagged, change_field, changes_from};
ghost use Rattle.store_records.specs.declared.fields.Stop.TheVariants as stop;

use crate::change::Change;
use delos_types::big_endian::{split_u16, split_u32, split_u64};
use delos_types::bytes::Bytes;
use std::alloc::{AllocError, AllocFailed, Global};

/// Why nothing was read.
#[derive(Clone, Copy)]
pub(crate) enum Stop {
    Memory,
    /// The bytes spell no transaction.
    NoCommit,
}

impl From<AllocError> for Stop {
    ghost from_gives = { λ _ e. e ≡ stop.Memory };

    fn from(_: AllocError) -> Stop {
        Stop::Memory
    }
}

impl<T: Drop> From<AllocFailed<T>> for Stop {
    ghost from_gives = { λ _ e. e ≡ stop.Memory };

    fn from(_: AllocFailed<T>) -> Stop {
        Stop::Memory
    }
}

#[tactic(auto, unfolding(delos_types::specs::Fields::u8_field))]
fn u8_at(bytes: &[u8]) -> Result<(u8, &[u8]), Stop>
    ensures { GivesBy (λ x. (x.0, x.1.now)) result (u8_field stop.NoCommit bytes.now) }
{
    match bytes {
        [] => Err(Stop::NoCommit),
        [byte, rest @ ..] => Ok((*byte, rest)),
    }
}

#[tactic(auto, unfolding(delos_types::specs::Fields::u16_field))]
fn u16_at(bytes: &[u8]) -> Result<(u16, &[u8]), Stop>
    ensures { GivesBy (λ x. (x.0, x.1.now)) result (u16_field stop.NoCommit bytes.now) }
{
    let Some((number, rest)) = split_u16(bytes) else {
        return Err(Stop::NoCommit);
    };
    Ok((number, rest))
}

#[tactic(auto, unfolding(delos_types::specs::Fields::u32_field))]
fn u32_at(bytes: &[u8]) -> Result<(u32, &[u8]), Stop>
    ensures { GivesBy (λ x. (x.0, x.1.now)) result (u32_field stop.NoCommit bytes.now) }
{
    let Some((number, rest)) = split_u32(bytes) else {
        return Err(Stop::NoCommit);
    };
    Ok((number, rest))
}

#[tactic(auto, unfolding(delos_types::specs::Fields::u64_field))]
pub(crate) fn u64_at(bytes: &[u8]) -> Result<(u64, &[u8]), Stop>
    ensures { GivesBy (λ x. (x.0, x.1.now)) result (u64_field stop.NoCommit bytes.now) }
{
    let Some((number, rest)) = split_u64(bytes) else {
        return Err(Stop::NoCommit);
    };
    Ok((number, rest))
}

// A copy of so many bytes.
#[tactic(auto, unfolding(delos_types::specs::Fields::text_field))]
fn text_at(alloc: Global, len: usize, bytes: &[u8]) -> Result<(Bytes, &[u8]), Stop>
    ensures { GivesBy (λ x. (x.0, x.1.now)) result (text_field stop.NoCommit len bytes.now) }
{
    if bytes.len() < len {
        return Err(Stop::NoCommit);
    }
    let (text, rest) = bytes.split_at(len);
    let text = Bytes::from_slice(alloc, text)?;
    Ok((text, rest))
}

// A copy of the text behind two bytes of length.
#[tactic(auto, unfolding(delos_types::specs::Fields::short_text_field))]
fn short_text_at(alloc: Global, bytes: &[u8]) -> Result<(Bytes, &[u8]), Stop>
    ensures { GivesBy (λ x. (x.0, x.1.now)) result (short_text_field stop.NoCommit bytes.now) }
{
    let (len, rest) = u16_at(bytes)?;
    let (text, rest) = text_at(alloc, usize::from(len), rest)?;
    Ok((text, rest))
}

// A copy of the text behind four bytes of length.
#[tactic(auto, unfolding(delos_types::specs::Fields::long_text_field))]
fn long_text_at(alloc: Global, bytes: &[u8]) -> Result<(Bytes, &[u8]), Stop>
    ensures { GivesBy (λ x. (x.0, x.1.now)) result (long_text_field stop.NoCommit bytes.now) }
{
    let (len, rest) = u32_at(bytes)?;
    let (text, rest) = text_at(alloc, len as usize, rest)?;
    Ok((text, rest))
}

// The value that a flag announces.
#[tactic(auto, unfolding(crate::specs::Reading::flagged))]
fn flagged_at(alloc: Global, flag: u8, bytes: &[u8]) -> Result<(Option<Bytes>, &[u8]), Stop>
    ensures { GivesBy (λ x. (x.0, x.1.now)) result (flagged flag bytes.now) }
{
    match flag {
        0 => Ok((None, bytes)),
        1 => {
            let (value, rest) = long_text_at(alloc, bytes)?;
            Ok((Some(value), rest))
        }
        _ => Err(Stop::NoCommit),
    }
}

#[tactic(auto, unfolding(crate::specs::Reading::change_field))]
fn change_at(alloc: Global, bytes: &[u8]) -> Result<(Change, &[u8]), Stop>
    ensures { GivesBy (λ x. (x.0, x.1.now)) result (change_field bytes.now) }
{
    let (kind, rest) = u8_at(bytes)?;
    let (key, rest) = short_text_at(alloc, rest)?;
    let (flag, rest) = u8_at(rest)?;
    let (value, rest) = flagged_at(alloc, flag, rest)?;
    Ok((Change { kind, key, value }, rest))
}

// So many changes. A count that is too great ends where the bytes do.
pub(crate) fn changes_at(
    alloc: Global,
    count: u64,
    bytes: &[u8],
) -> Result<(Vec<Change>, &[u8]), Stop>
    ensures { GivesBy (λ x. (x.0.items, x.1.now)) result (changes_from count bytes.now) }
{
    let mut changes = Vec::new(alloc);
    let mut rest = bytes;
    for _ in 0..count {
        let (change, after) = change_at(alloc, rest)?;
        changes.push(change)?;
        rest = after;
    }
    Ok((changes, rest))
}

// Nothing is left over.
#[tactic(auto, unfolding(delos_types::specs::Fields::ended))]
pub(crate) fn end_at(rest: &[u8]) -> Result<(), Stop>
    ensures { Gives result (ended stop.NoCommit rest.now tt) }
{
    if !rest.is_empty() {
        return Err(Stop::NoCommit);
    }
    Ok(())
}
