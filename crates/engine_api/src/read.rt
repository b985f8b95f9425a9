//! Reading what an entry says.
ghost use Rattle.std.specs.Prelude.{◌≡◌, ◌≤◌, ◌==◌, ◌*◌, false, true, IfOk, IfSome, MatchOption, None, Some, length};
ghost use Rattle.delos_types.specs.Numbers.{u64_of};
ghost use Rattle.entry_codec.specs.Reading.{item_of};
ghost use Rattle.engine_api.specs.Items as reading;

use crate::content::{Content, Placed, PlacedList};
use delos_types::big_endian::{split_u16, split_u64};
use delos_types::entry::Entry;
use delos_types::item::{Item, ItemList};
use delos_types::numbers::{NodeId, Rank, SessionId};
use delos_types::place::Place;
use entry_codec::{DecodeError, decode_item};
use std::alloc::{AllocError, Global};
use table_core::spell::read_command;

/// What the entry at a position says: each of its items in order, numbered from 0. An entry whose
/// headers, item lengths, items or bodies of headers aren't as the formats say holds nothing.
/// Takes time that grows with the entry's length.
pub fn unpack(alloc: Global, pos: u64, entry: &Entry) -> Result<PlacedList, AllocError>
    ensures { IfOk result (λ placed. placed ≡ reading.unpack pos entry.now) }
{
    let Some(items) = items_of(alloc, entry)? else {
        return Ok(PlacedList::from_vec(Vec::new(alloc)));
    };
    place_all(alloc, pos, items.as_slice())
}

fn place_all(alloc: Global, pos: u64, items: &[Item]) -> Result<PlacedList, AllocError>
    requires { length items.now ≤ 16 }
    ensures { IfOk result (λ placed. placed ≡ reading.placed_at pos (reading.contents_of items.now)) }
{
    let mut placed = Vec::new(alloc);
    for (sub, item) in items.iter().enumerate() {
        let Some(content) = content_of(alloc, item)? else {
            return Ok(PlacedList::from_vec(Vec::new(alloc)));
        };
        let place = Place {
            pos,
            sub: sub as u16,
        };
        placed.push(Placed { place, content })?;
    }
    Ok(PlacedList::from_vec(placed))
}

/// The items of an entry in order, of which there are at most 16; None where it isn't well formed.
pub fn items_of(alloc: Global, entry: &Entry) -> Result<Option<ItemList>, AllocError>
    ensures value { IfOk result (λ found. found ≡ reading.items_of entry.now) }
    ensures few { IfOk result (λ found. IfSome found (λ list. length list ≤ 16)) }
{
    let [header] = entry.headers.as_slice() else {
        return Ok(None);
    };
    if header.kind != 1 {
        return Ok(None);
    }
    let Some(lengths) = batch_lengths(header.body.as_slice()) else {
        return Ok(None);
    };
    items_from(alloc, lengths, entry.payload.as_slice())
}

// The lengths of the items under a batch header, two bytes each.
fn batch_lengths(body: &[u8]) -> Option<&[u8]>
    ensures value { MatchOption result (reading.batch_lengths body.now ≡ None) (λ bytes. reading.batch_lengths body.now ≡ Some (reading.lengths_of bytes.now)) }
    ensures few { IfSome result (λ bytes. length bytes.now ≤ 32) }
{
    let (count, rest) = body.split_first()?;
    if *count < 1 || *count > 16 || rest.len() != 2 * usize::from(*count) {
        return None;
    }
    Some(rest)
}

fn items_from(alloc: Global, lengths: &[u8], bytes: &[u8]) -> Result<Option<ItemList>, AllocError>
    ensures value { IfOk result (λ found. found ≡ reading.items_from (reading.lengths_of lengths.now) bytes.now) }
    ensures few { IfOk result (λ found. IfSome found (λ list. 2 * length list ≤ length lengths.now)) }
{
    let mut items = ItemList::new(alloc);
    let mut left = lengths;
    let mut rest = bytes;
    while let Some((len, others)) = split_u16(left) {
        let len = usize::from(len);
        if len > rest.len() {
            return Ok(None);
        }
        let (front, after) = rest.split_at(len);
        let Some(item) = read_item(alloc, front)? else {
            return Ok(None);
        };
        items.push(item)?;
        left = others;
        rest = after;
    }
    if !rest.is_empty() {
        return Ok(None);
    }
    Ok(Some(items))
}

fn read_item(alloc: Global, bytes: &[u8]) -> Result<Option<Item>, AllocError>
    ensures { IfOk result (λ found. found ≡ item_of bytes.now) }
{
    match decode_item(alloc, bytes) {
        Ok(item) => Ok(Some(item)),
        Err(DecodeError::Memory) => Err(AllocError),
        Err(DecodeError::Bad(_)) => Ok(None),
    }
}

/// What an item says; None where it isn't well formed.
pub fn content_of(alloc: Global, item: &Item) -> Result<Option<Content>, AllocError>
    ensures { IfOk result (λ found. found ≡ reading.content_of item.now) }
{
    let [header] = item.headers.as_slice() else {
        return Ok(None);
    };
    let body = header.body.as_slice();
    let payload = item.payload.as_slice();
    match header.kind {
        2 => session_content(alloc, body, payload),
        3 => Ok(view_content(body, payload)),
        4 => Ok(trim_content(body, payload)),
        _ => Ok(None),
    }
}

fn session_content(
    alloc: Global,
    body: &[u8],
    payload: &[u8],
) -> Result<Option<Content>, AllocError>
    ensures { IfOk result (λ found. found ≡ reading.session_content body.now payload.now) }
{
    let Some((session, rank)) = session_body(body) else {
        return Ok(None);
    };
    let command = read_command(alloc, payload)?;
    Ok(Some(Content::Session {
        session,
        rank,
        command,
    }))
}

fn session_body(body: &[u8]) -> Option<(SessionId, Rank)>
    ensures { MatchOption result (reading.is_session_body body.now ≡ false) (λ p. (reading.is_session_body body.now ≡ true) × (p.0 ≡ reading.session_in body.now) × (p.1 ≡ reading.rank_in body.now)) }
{
    let (session, rest) = split_u16(body)?;
    let rank = whole_u64(rest)?;
    let session = SessionId::new(session)?;
    let rank = Rank::new(rank)?;
    Some((session, rank))
}

fn view_content(body: &[u8], payload: &[u8]) -> Option<Content>
    ensures { result ≡ reading.without_payload payload.now (reading.view_body body.now) }
{
    let ([], [tag, node, position @ ..]) = (payload, body) else {
        return None;
    };
    let position = whole_u64(position)?;
    let node = NodeId::new(*node)?;
    match *tag {
        1 => Some(Content::Alive { node, position }),
        2 if position == 0 => Some(Content::Leave { node }),
        _ => None,
    }
}

fn trim_content(body: &[u8], payload: &[u8]) -> Option<Content>
    ensures { result ≡ reading.without_payload payload.now (reading.trim_body body.now) }
{
    let [] = payload else {
        return None;
    };
    let position = whole_u64(body)?;
    Some(Content::Trim { position })
}

// The number that eight bytes spell.
fn whole_u64(bytes: &[u8]) -> Option<u64>
    ensures { MatchOption result ((length bytes.now == 8) ≡ false) (λ n. ((length bytes.now == 8) ≡ true) × (n ≡ u64_of bytes.now)) }
{
    if bytes.len() != 8 {
        return None;
    }
    let (number, _) = split_u64(bytes)?;
    Some(number)
}
