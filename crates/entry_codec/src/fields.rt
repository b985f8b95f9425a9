// The fields of items and entries. Each reader takes how many bytes there are in all, and those that
// are left to read; it gives a field's value, and what is left after it.
ghost use Rattle.std.specs.Prelude.{◌≡◌, ◌≤◌, ◌-◌, List, length, IfOk};
ghost use Rattle.delos_types.specs.Fields.{u8_field, u16_field, u32_field, text_field, short_text_field, long_text_field, ended};
ghost use Rattle.entry_codec.specs.declared.fault.Rule.TheVariants.{Long};
ghost use Rattle.entry_codec.specs.Reading.{Gives, GivesBy, fault, short, version_field, origin_in, kind_field, header_field, headers_from, headers_field};

use crate::fault::{BadEntry, DecodeError, Rule};
use delos_types::big_endian::{split_u16, split_u32};
use delos_types::bytes::Bytes;
use delos_types::item::{Header, Headers};
use delos_types::numbers::NodeId;
use std::alloc::Global;

// The bytes break this rule at this place.
fn bad(at: usize, rule: Rule) -> DecodeError
    ensures { result ≡ DecodeError.Bad (record { at = at; rule = rule }) }
{
    DecodeError::Bad(BadEntry { at, rule })
}

#[tactic(auto, unfolding(delos_types::specs::Fields::u8_field))]
pub fn u8_at(size: usize, bytes: &[u8]) -> Result<(u8, &[u8]), DecodeError>
    ensures gives { GivesBy (λ x. (x.0, x.1.now)) result (u8_field (short size) bytes.now) }
    ensures rest { IfOk result (λ x. length x.1.now ≤ length bytes.now) }
{
    match bytes {
        [] => Err(bad(size, Rule::Short)),
        [byte, rest @ ..] => Ok((*byte, rest)),
    }
}

#[tactic(auto, unfolding(delos_types::specs::Fields::u16_field))]
fn u16_at(size: usize, bytes: &[u8]) -> Result<(u16, &[u8]), DecodeError>
    ensures gives { GivesBy (λ x. (x.0, x.1.now)) result (u16_field (short size) bytes.now) }
    ensures rest { IfOk result (λ x. length x.1.now ≤ length bytes.now) }
{
    let Some((number, rest)) = split_u16(bytes) else {
        return Err(bad(size, Rule::Short));
    };
    Ok((number, rest))
}

#[tactic(auto, unfolding(delos_types::specs::Fields::u32_field))]
fn u32_at(size: usize, bytes: &[u8]) -> Result<(u32, &[u8]), DecodeError>
    ensures gives { GivesBy (λ x. (x.0, x.1.now)) result (u32_field (short size) bytes.now) }
    ensures rest { IfOk result (λ x. length x.1.now ≤ length bytes.now) }
{
    let Some((number, rest)) = split_u32(bytes) else {
        return Err(bad(size, Rule::Short));
    };
    Ok((number, rest))
}

// A copy of so many bytes.
#[tactic(auto, unfolding(delos_types::specs::Fields::text_field))]
fn text_at(
    alloc: Global,
    size: usize,
    len: usize,
    bytes: &[u8],
) -> Result<(Bytes, &[u8]), DecodeError>
    ensures gives { GivesBy (λ x. (x.0, x.1.now)) result (text_field (short size) len bytes.now) }
    ensures rest { IfOk result (λ x. length x.1.now ≤ length bytes.now) }
{
    if bytes.len() < len {
        return Err(bad(size, Rule::Short));
    }
    let (text, rest) = bytes.split_at(len);
    let text = Bytes::from_slice(alloc, text)?;
    Ok((text, rest))
}

// A copy of the text behind two bytes of length.
#[tactic(auto, unfolding(delos_types::specs::Fields::short_text_field))]
pub fn short_text_at(
    alloc: Global,
    size: usize,
    bytes: &[u8],
) -> Result<(Bytes, &[u8]), DecodeError>
    ensures gives { GivesBy (λ x. (x.0, x.1.now)) result (short_text_field (short size) bytes.now) }
    ensures rest { IfOk result (λ x. length x.1.now ≤ length bytes.now) }
{
    let (len, rest) = u16_at(size, bytes)?;
    let (text, rest) = text_at(alloc, size, usize::from(len), rest)?;
    Ok((text, rest))
}

// A copy of the text behind four bytes of length.
#[tactic(auto, unfolding(delos_types::specs::Fields::long_text_field))]
pub fn long_text_at(alloc: Global, size: usize, bytes: &[u8]) -> Result<(Bytes, &[u8]), DecodeError>
    ensures gives { GivesBy (λ x. (x.0, x.1.now)) result (long_text_field (short size) bytes.now) }
    ensures rest { IfOk result (λ x. length x.1.now ≤ length bytes.now) }
{
    let (len, rest) = u32_at(size, bytes)?;
    let (text, rest) = text_at(alloc, size, len as usize, rest)?;
    Ok((text, rest))
}

#[tactic(auto, unfolding(crate::specs::Reading::version_field))]
pub fn version_at(size: usize, bytes: &[u8]) -> Result<(u8, &[u8]), DecodeError>
    ensures gives { GivesBy (λ x. (x.0, x.1.now)) result (version_field size bytes.now) }
    ensures rest { IfOk result (λ x. length x.1.now ≤ length bytes.now) }
{
    let (version, rest) = u8_at(size, bytes)?;
    if version != 1 {
        return Err(bad(0, Rule::Version));
    }
    Ok((version, rest))
}

// The node of this number, which stands at the place 1.
#[tactic(auto, unfolding(crate::specs::Reading::origin_in))]
pub fn origin_of(number: u8) -> Result<NodeId, DecodeError>
    ensures { Gives result (origin_in number) }
{
    let Some(origin) = NodeId::new(number) else {
        return Err(bad(1, Rule::Origin));
    };
    Ok(origin)
}

// A kind, which is at least this.
#[tactic(auto, unfolding(crate::specs::Reading::kind_field))]
fn kind_at(size: usize, least: u16, bytes: &[u8]) -> Result<(u8, &[u8]), DecodeError>
    requires { length bytes.now ≤ size }
    ensures gives { GivesBy (λ x. (x.0, x.1.now)) result (kind_field size least bytes.now) }
    ensures rest { IfOk result (λ x. length x.1.now ≤ length bytes.now) }
{
    let (kind, rest) = u8_at(size, bytes)?;
    if u16::from(kind) < least {
        return Err(bad(size - bytes.len(), Rule::Kind));
    }
    Ok((kind, rest))
}

#[tactic(auto, unfolding(crate::specs::Reading::header_field))]
fn header_at(
    alloc: Global,
    size: usize,
    least: u16,
    bytes: &[u8],
) -> Result<(Header, &[u8]), DecodeError>
    requires { length bytes.now ≤ size }
    ensures gives { GivesBy (λ x. (x.0, x.1.now)) result (header_field size least bytes.now) }
    ensures rest { IfOk result (λ x. length x.1.now ≤ length bytes.now) }
{
    let (kind, rest) = kind_at(size, least, bytes)?;
    let (body, rest) = short_text_at(alloc, size, rest)?;
    Ok((Header { kind, body }, rest))
}

// The number of the headers, and the headers.
#[tactic(auto, unfolding(crate::specs::Reading::headers_field))]
pub fn headers_at(alloc: Global, size: usize, bytes: &[u8]) -> Result<(Headers, &[u8]), DecodeError>
    requires { length bytes.now ≤ size }
    ensures gives { GivesBy (λ x. (x.0, x.1.now)) result (headers_field size bytes.now) }
    ensures rest { IfOk result (λ x. length x.1.now ≤ length bytes.now) }
{
    let (count, rest) = u8_at(size, bytes)?;
    let (headers, rest) = headers_of(alloc, size, count, rest)?;
    Ok((Headers::from_vec(headers), rest))
}

// So many headers, whose kinds rise from 1 on.
fn headers_of(
    alloc: Global,
    size: usize,
    count: u8,
    bytes: &[u8],
) -> Result<(Vec<Header>, &[u8]), DecodeError>
    requires { length bytes.now ≤ size }
    ensures gives { GivesBy (λ x. (x.0.items, x.1.now)) result (headers_from size 1 count bytes.now) }
    ensures rest { IfOk result (λ x. length x.1.now ≤ length bytes.now) }
{
    let mut headers = Vec::new(alloc);
    let mut least = 1;
    let mut rest = bytes;
    for _ in 0..count {
        let (header, after) = header_at(alloc, size, least, rest)?;
        least = u16::from(header.kind) + 1;
        headers.push(header)?;
        rest = after;
    }
    Ok((headers, rest))
}

// Nothing is left over.
#[tactic(auto, unfolding(delos_types::specs::Fields::ended))]
pub fn end_at(size: usize, rest: &[u8]) -> Result<(), DecodeError>
    requires { length rest.now ≤ size }
    ensures { Gives result (ended (fault (size - length rest.now) Long) rest.now tt) }
{
    if !rest.is_empty() {
        return Err(bad(size - rest.len(), Rule::Long));
    }
    Ok(())
}
