// The fields of a chain. Each reader takes how many bytes there are in all, and those that are left to
// read; it gives a field's value, and what is left after it.
ghost use Rattle.std.specs.Prelude.{◌≡◌, ◌≤◌, ◌<◌, ◌-◌, length, IfOk, None};
ghost use Rattle.delos_types.specs.Fields.{u8_field, u16_field, u32_field, u64_field, ended};
ghost use Rattle.chain_map.specs.declared.fault.Rule.TheVariants as rule;
ghost use Rattle.chain_map.specs.Reading.{Gives, GivesBy, fault, short, version_field, count_field, id_field, start_field, flag_field, end_field, closed_field, open_field, segments_from};

use crate::fault::{BadChain, DecodeError, Rule};
use delos_types::big_endian::{split_u16, split_u32, split_u64};
use delos_types::chain::Segment;
use std::alloc::Global;

// The bytes break this rule at this place.
fn bad(at: usize, rule: Rule) -> DecodeError
    ensures { result ≡ DecodeError.Bad (record { at = at; rule = rule }) }
{
    DecodeError::Bad(BadChain { at, rule })
}

#[tactic(auto, unfolding(delos_types::specs::Fields::u8_field))]
fn u8_at(size: usize, bytes: &[u8]) -> Result<(u8, &[u8]), DecodeError>
    ensures gives { GivesBy (λ x. (x.0, x.1.now)) result (u8_field (short size) bytes.now) }
    ensures rest { IfOk result (λ x. length x.1.now ≤ length bytes.now) }
{
    match bytes {
        [] => Err(bad(size, Rule::Short)),
        [byte, rest @ ..] => Ok((*byte, rest)),
    }
}

#[tactic(auto, unfolding(delos_types::specs::Fields::u16_field))]
fn u16_at(size: usize, bytes: &[u8]) -> Result<(u16, &[u8]), DecodeError>
    ensures gives { GivesBy (λ x. (x.0, x.1.now)) result (u16_field (short size) bytes.now) }
    ensures rest { IfOk result (λ x. length x.1.now ≤ length bytes.now) }
{
    let Some((number, rest)) = split_u16(bytes) else {
        return Err(bad(size, Rule::Short));
    };
    Ok((number, rest))
}

#[tactic(auto, unfolding(delos_types::specs::Fields::u32_field))]
fn u32_at(size: usize, bytes: &[u8]) -> Result<(u32, &[u8]), DecodeError>
    ensures gives { GivesBy (λ x. (x.0, x.1.now)) result (u32_field (short size) bytes.now) }
    ensures rest { IfOk result (λ x. length x.1.now ≤ length bytes.now) }
{
    let Some((number, rest)) = split_u32(bytes) else {
        return Err(bad(size, Rule::Short));
    };
    Ok((number, rest))
}

#[tactic(auto, unfolding(delos_types::specs::Fields::u64_field))]
pub fn u64_at(size: usize, bytes: &[u8]) -> Result<(u64, &[u8]), DecodeError>
    ensures gives { GivesBy (λ x. (x.0, x.1.now)) result (u64_field (short size) bytes.now) }
    ensures rest { IfOk result (λ x. length x.1.now ≤ length bytes.now) }
{
    let Some((number, rest)) = split_u64(bytes) else {
        return Err(bad(size, Rule::Short));
    };
    Ok((number, rest))
}

#[tactic(auto, unfolding(crate::specs::Reading::version_field))]
pub fn version_at(size: usize, bytes: &[u8]) -> Result<(u8, &[u8]), DecodeError>
    ensures gives { GivesBy (λ x. (x.0, x.1.now)) result (version_field size bytes.now) }
    ensures rest { IfOk result (λ x. length x.1.now ≤ length bytes.now) }
{
    let (version, rest) = u8_at(size, bytes)?;
    if version != 1 {
        return Err(bad(0, Rule::Version));
    }
    Ok((version, rest))
}

// How many segments there are.
#[tactic(auto, unfolding(crate::specs::Reading::count_field))]
pub fn count_at(size: usize, bytes: &[u8]) -> Result<(u16, &[u8]), DecodeError>
    ensures gives { GivesBy (λ x. (x.0, x.1.now)) result (count_field size bytes.now) }
    ensures rest { IfOk result (λ x. length x.1.now ≤ length bytes.now) }
    ensures some { IfOk result (λ x. 1 ≤ x.0) }
{
    let (count, rest) = u16_at(size, bytes)?;
    if !(1..=64).contains(&count) {
        return Err(bad(9, Rule::Count));
    }
    Ok((count, rest))
}

// An id, which is at least this.
#[tactic(auto, unfolding(crate::specs::Reading::id_field))]
fn id_at(size: usize, least: u32, bytes: &[u8]) -> Result<(u32, &[u8]), DecodeError>
    requires { length bytes.now ≤ size }
    ensures gives { GivesBy (λ x. (x.0, x.1.now)) result (id_field size least bytes.now) }
    ensures rest { IfOk result (λ x. length x.1.now ≤ length bytes.now) }
    ensures small { IfOk result (λ x. x.0 < 64) }
{
    let (id, rest) = u32_at(size, bytes)?;
    if id < least || id >= 64 {
        return Err(bad(size - bytes.len(), Rule::Id));
    }
    Ok((id, rest))
}

// A start: the former end, or at the first segment at most the trim.
#[tactic(auto, unfolding(crate::specs::Reading::start_field))]
fn start_at(
    size: usize,
    trim: u64,
    former: Option<u64>,
    bytes: &[u8],
) -> Result<(u64, &[u8]), DecodeError>
    requires { length bytes.now ≤ size }
    ensures gives { GivesBy (λ x. (x.0, x.1.now)) result (start_field size trim former bytes.now) }
    ensures rest { IfOk result (λ x. length x.1.now ≤ length bytes.now) }
{
    let (start, rest) = u64_at(size, bytes)?;
    match former {
        None => {
            if trim < start {
                return Err(bad(1, Rule::Trim));
            }
        }
        Some(end) => {
            if start != end {
                return Err(bad(size - bytes.len(), Rule::Start));
            }
        }
    }
    Ok((start, rest))
}

// The flag of a segment, which is to be this.
#[tactic(auto, unfolding(crate::specs::Reading::flag_field))]
fn flag_at(size: usize, wanted: u8, bytes: &[u8]) -> Result<(u8, &[u8]), DecodeError>
    requires { length bytes.now ≤ size }
    ensures gives { GivesBy (λ x. (x.0, x.1.now)) result (flag_field size wanted bytes.now) }
    ensures rest { IfOk result (λ x. length x.1.now ≤ length bytes.now) }
{
    let (flag, rest) = u8_at(size, bytes)?;
    if flag != wanted {
        return Err(bad(size - bytes.len(), Rule::Flag));
    }
    Ok((flag, rest))
}

#[tactic(auto, unfolding(crate::specs::Reading::end_field))]
fn end_at(size: usize, start: u64, bytes: &[u8]) -> Result<(u64, &[u8]), DecodeError>
    requires { length bytes.now ≤ size }
    ensures gives { GivesBy (λ x. (x.0, x.1.now)) result (end_field size start bytes.now) }
    ensures rest { IfOk result (λ x. length x.1.now ≤ length bytes.now) }
{
    let (end, rest) = u64_at(size, bytes)?;
    if end < start {
        return Err(bad(size - bytes.len(), Rule::End));
    }
    Ok((end, rest))
}

#[tactic(auto, unfolding(crate::specs::Reading::closed_field))]
fn closed_at(
    size: usize,
    trim: u64,
    former: Option<u64>,
    least: u32,
    bytes: &[u8],
) -> Result<(Segment, &[u8]), DecodeError>
    requires { length bytes.now ≤ size }
    ensures gives { GivesBy (λ x. (x.0, x.1.now)) result (closed_field size trim former least bytes.now) }
    ensures rest { IfOk result (λ x. length x.1.now ≤ length bytes.now) }
    ensures small { IfOk result (λ x. x.0.id < 64) }
{
    let (id, rest) = id_at(size, least, bytes)?;
    let (start, rest) = start_at(size, trim, former, rest)?;
    let (_, rest) = flag_at(size, 1, rest)?;
    let (end, rest) = end_at(size, start, rest)?;
    let end = Some(end);
    Ok((Segment { id, start, end }, rest))
}

#[tactic(auto, unfolding(crate::specs::Reading::open_field))]
fn open_at(
    size: usize,
    trim: u64,
    former: Option<u64>,
    least: u32,
    bytes: &[u8],
) -> Result<(Segment, &[u8]), DecodeError>
    requires { length bytes.now ≤ size }
    ensures gives { GivesBy (λ x. (x.0, x.1.now)) result (open_field size trim former least bytes.now) }
    ensures rest { IfOk result (λ x. length x.1.now ≤ length bytes.now) }
{
    let (id, rest) = id_at(size, least, bytes)?;
    let (start, rest) = start_at(size, trim, former, rest)?;
    let (_, rest) = flag_at(size, 0, rest)?;
    let end = None;
    Ok((Segment { id, start, end }, rest))
}

// So many segments, of which the last is open.
pub fn segments_at(
    alloc: Global,
    size: usize,
    trim: u64,
    count: u16,
    bytes: &[u8],
) -> Result<(Vec<Segment>, &[u8]), DecodeError>
    requires within { length bytes.now ≤ size }
    requires some { 1 ≤ count }
    ensures gives { GivesBy (λ x. (x.0.items, x.1.now)) result (segments_from size trim None 0 (count - 1) bytes.now) }
    ensures rest { IfOk result (λ x. length x.1.now ≤ length bytes.now) }
{
    let mut segments = Vec::with_capacity(alloc, usize::from(count))?;
    let mut former = None;
    let mut least = 0;
    let mut rest = bytes;
    for _ in 1..count {
        let (segment, after) = closed_at(size, trim, former, least, rest)?;
        former = segment.end;
        least = segment.id + 1;
        segments.push(segment)?;
        rest = after;
    }
    let (last, rest) = open_at(size, trim, former, least, rest)?;
    segments.push(last)?;
    Ok((segments, rest))
}

// Nothing is left over.
#[tactic(auto, unfolding(delos_types::specs::Fields::ended))]
pub fn nothing_at(size: usize, rest: &[u8]) -> Result<(), DecodeError>
    requires { length rest.now ≤ size }
    ensures { Gives result (ended (fault (size - length rest.now) rule.Long) rest.now tt) }
{
    if !rest.is_empty() {
        return Err(bad(size - rest.len(), Rule::Long));
    }
    Ok(())
}
