//! What the engines keep in their space: keys, and readers of it.
ghost use Rattle.std.specs.Prelude.{◌≡◌, ◌==◌, ◌<◌, ◌≤◌, ◌^◌, ◌&&◌, nat_le, false, true, IfOk, OnOk, OnErr, IfSome, MatchOption, None, Some, length};
ghost use Rattle.std.specs.FinMap as map;
ghost use Rattle.std.specs.Option.{option_copied};
ghost use Rattle.delos_types.specs.Numbers.{u64_of, u64_bytes};
ghost use Rattle.engine_steps.specs.Layout as layout;

use delos_types::big_endian::{split_u16, split_u64};
use delos_types::bytes::Bytes;
use delos_types::numbers::{NodeId, Rank, SessionId};
use delos_types::place::Place;
use delos_types::space::Space;
use std::alloc::{AllocError, Global};

/// The session engine's kind.
pub const SESSION: u8 = 2;
/// The view engine's kind.
pub const VIEW: u8 = 3;
/// The trim engine's kind.
pub const TRIM: u8 = 4;
/// The table engine's kind.
pub const TABLE: u8 = 5;

const LAST: u8 = 1;

const REPLY: u8 = 2;

const CLEAN: u8 = 3;

const HELD: u8 = 4;

/// Where the session engine keeps the clean position.
pub const CLEAN_KEY: [u8; 1] = [CLEAN];
/// Where the trim engine keeps the trim point.
pub const TRIM_KEY: [u8; 1] = [1];

/// Where a rank acted, and what it was answered.
#[derive(Drop, Debug)]
pub struct Kept {
    pub place: Place,
    pub reply: Bytes,
}

/// Sets a value. One of 2^32 bytes or more, which no space holds, is answered as want of memory.
pub fn set(space: &mut dyn Space, kind: u8, key: &[u8], value: &[u8]) -> Result<(), AllocError>
    requires { length key.now < 2 ^ 16 }
    ensures ok { OnOk result (contents space.new ≡ map.insert (contents space.old) (kind, key.now) value.now) }
    ensures err { OnErr result (contents space.new ≡ contents space.old) }
    ensures beginning { beginning space.new ≡ beginning space.old }
{
    if value.len() > 0xffff_ffff {
        return Err(AllocError);
    }
    space.put(kind, key, value)
}

/// Sets a value to a number in eight bytes.
#[tactic(auto, unfolding(delos_types::specs::Numbers::u64_bytes))]
pub fn set_number(
    space: &mut dyn Space,
    kind: u8,
    key: &[u8],
    number: u64,
) -> Result<(), AllocError>
    requires { length key.now < 2 ^ 16 }
    ensures ok { OnOk result (contents space.new ≡ map.insert (contents space.old) (kind, key.now) (u64_bytes number)) }
    ensures err { OnErr result (contents space.new ≡ contents space.old) }
    ensures beginning { beginning space.new ≡ beginning space.old }
{
    set(space, kind, key, &number.to_be_bytes())
}

/// Where the last rank of a session that acted is kept.
#[tactic(auto, unfolding(delos_types::specs::Numbers::u16_bytes))]
pub fn last_key(session: SessionId) -> [u8; 3]
    ensures { result ≡ layout.last_key session }
{
    let s = session.number().to_be_bytes();
    [LAST, s[0], s[1]]
}

/// Where the reply of a rank is kept, until the rank 64 above it was answered.
#[tactic(auto, unfolding(delos_types::specs::Numbers::u16_bytes))]
pub fn reply_key(session: SessionId, rank: Rank) -> [u8; 4]
    ensures { result ≡ layout.reply_key session rank }
{
    let s = session.number().to_be_bytes();
    [REPLY, s[0], s[1], (rank.number() % 64) as u8]
}

/// Where the payload of a rank is kept that waits for an earlier one.
#[tactic(auto, unfolding(delos_types::specs::Numbers::u16_bytes, delos_types::specs::Numbers::u64_bytes))]
pub fn held_key(session: SessionId, rank: u64) -> [u8; 11]
    ensures { result ≡ layout.held_key session rank }
{
    let s = session.number().to_be_bytes();
    let r = rank.to_be_bytes();
    [
        HELD, s[0], s[1], r[0], r[1], r[2], r[3], r[4], r[5], r[6], r[7],
    ]
}

/// A slot of replies: the rank, where it acted, and its reply.
#[tactic(auto, unfolding(delos_types::specs::Numbers::u16_bytes, delos_types::specs::Numbers::u64_bytes))]
pub fn slot_text(alloc: Global, place: Place, rank: Rank, reply: &[u8]) -> Result<Bytes, AllocError>
    ensures { IfOk result (λ slot. slot ≡ layout.slot_text place rank reply.now) }
{
    let r = rank.number().to_be_bytes();
    let p = place.pos.to_be_bytes();
    let s = place.sub.to_be_bytes();
    let front = [
        r[0], r[1], r[2], r[3], r[4], r[5], r[6], r[7], p[0], p[1], p[2], p[3], p[4], p[5], p[6],
        p[7], s[0], s[1],
    ];
    let mut slot = Bytes::from_slice(alloc, &front)?;
    slot.extend_from_slice(reply)?;
    Ok(slot)
}

/// The number that eight bytes spell, 0 for none or for other bytes.
pub fn number_at(stored: Option<&Bytes>) -> u64
    ensures { result ≡ layout.number_at (option_copied stored.entry) }
{
    match stored {
        None => 0,
        Some(bytes) => whole_u64(bytes.as_slice()).unwrap_or(0),
    }
}

// The number that eight bytes spell.
fn whole_u64(bytes: &[u8]) -> Option<u64>
    ensures { MatchOption result ((length bytes.now == 8) ≡ false) (λ n. ((length bytes.now == 8) ≡ true) × (n ≡ u64_of bytes.now)) }
{
    if bytes.len() != 8 {
        return None;
    }
    let (number, _) = split_u64(bytes)?;
    Some(number)
}

/// The last rank of a session that acted, 0 where none did.
pub fn last_rank(space: &dyn Space, session: SessionId) -> Result<u64, AllocError>
    ensures { IfOk result (λ rank. rank ≡ layout.last_of (contents space.now) session) }
{
    let key = last_key(session);
    let stored = space.get(SESSION, &key)?;
    Ok(number_at(stored.as_ref()))
}

/// The payload of a rank that waits for an earlier one.
#[tactic(auto, using(crate::proofs::Held::held_of_fits))]
pub fn held(space: &dyn Space, session: SessionId, rank: u64) -> Result<Option<Bytes>, AllocError>
    ensures { IfOk result (λ payload. payload ≡ layout.held_of (contents space.now) session rank) }
{
    let key = held_key(session, rank);
    let payload = space.get(SESSION, &key)?;
    Ok(payload)
}

/// Whether some rank waits for an earlier one.
pub fn is_holding(space: &dyn Space) -> Result<bool, AllocError>
    ensures { IfOk result (λ holding. holding ≡ layout.is_holding (contents space.now)) }
{
    let found = space.seek(SESSION, &[HELD])?;
    Ok(found.is_some())
}

/// How many first entries are clean, where the first `cursor` entries were applied: each rank that
/// stands in them has acted in them.
pub fn clean_position(space: &dyn Space, cursor: u64) -> Result<u64, AllocError>
    ensures { IfOk result (λ clean. clean ≡ layout.clean_of (contents space.now) cursor) }
{
    let holding = is_holding(space)?;
    if !holding {
        return Ok(cursor);
    }
    let stored = space.get(SESSION, &CLEAN_KEY)?;
    Ok(number_at(stored.as_ref()))
}

/// Where a rank acted and what it was answered; None where it hasn't acted, or a rank 64 or more
/// above it has.
pub fn reply_of(
    alloc: Global,
    space: &dyn Space,
    session: SessionId,
    rank: Rank,
) -> Result<Option<Kept>, AllocError>
    ensures { IfOk result (λ kept. kept ≡ layout.reply_of (contents space.now) session rank) }
{
    let key = reply_key(session, rank);
    match space.get(SESSION, &key)? {
        None => Ok(None),
        Some(slot) => slot_read(alloc, rank, slot.as_slice()),
    }
}

fn slot_read(alloc: Global, rank: Rank, slot: &[u8]) -> Result<Option<Kept>, AllocError>
    ensures { IfOk result (λ kept. kept ≡ layout.slot_read rank (Some slot.now)) }
{
    let Some((of, rest)) = split_u64(slot) else {
        return Ok(None);
    };
    if of != rank.number() {
        return Ok(None);
    }
    behind_rank(alloc, rest)
}

fn behind_rank(alloc: Global, slot: &[u8]) -> Result<Option<Kept>, AllocError>
    ensures { IfOk result (λ kept. kept ≡ layout.behind_rank slot.now) }
{
    let Some((pos, rest)) = split_u64(slot) else {
        return Ok(None);
    };
    behind_sub(alloc, pos, rest)
}

fn behind_sub(alloc: Global, pos: u64, slot: &[u8]) -> Result<Option<Kept>, AllocError>
    ensures { IfOk result (λ kept. kept ≡ layout.behind_sub pos slot.now) }
{
    let Some((sub, reply)) = split_u16(slot) else {
        return Ok(None);
    };
    let reply = Bytes::from_slice(alloc, reply)?;
    Ok(Some(Kept {
        place: Place { pos, sub },
        reply,
    }))
}

/// What is kept of a node: the position that it reported in eight bytes, no bytes once it has left.
pub fn view_at(space: &dyn Space, node: NodeId) -> Result<Option<Bytes>, AllocError>
    ensures { IfOk result (λ stored. stored ≡ layout.view_of (contents space.now) node) }
{
    let stored = space.get(VIEW, &[node.number()])?;
    Ok(stored)
}

/// Whether no bytes are kept.
pub fn is_left(stored: Option<&Bytes>) -> bool
    ensures { result ≡ layout.is_left (option_copied stored.entry) }
{
    match stored {
        None => false,
        Some(bytes) => bytes.as_slice().is_empty(),
    }
}

/// Whether a node has left.
pub fn has_left(space: &dyn Space, node: NodeId) -> Result<bool, AllocError>
    ensures { IfOk result (λ left. left ≡ layout.has_left_in (contents space.now) node) }
{
    let stored = view_at(space, node)?;
    Ok(is_left(stored.as_ref()))
}

/// The greatest position that a node reported, 0 where it reported none.
pub fn reported(space: &dyn Space, node: NodeId) -> Result<u64, AllocError>
    ensures { IfOk result (λ position. position ≡ layout.reported_of (contents space.now) node) }
{
    let stored = view_at(space, node)?;
    Ok(number_at(stored.as_ref()))
}

/// The greatest position below which a trim was asked for, 0 where none was.
pub fn trim_point(space: &dyn Space) -> Result<u64, AllocError>
    ensures { IfOk result (λ position. position ≡ layout.trim_of (contents space.now)) }
{
    let stored = space.get(TRIM, &TRIM_KEY)?;
    Ok(number_at(stored.as_ref()))
}

/// The value at a key of the table.
pub fn value(space: &dyn Space, key: &[u8]) -> Result<Option<Bytes>, AllocError>
    ensures { IfOk result (λ value. value ≡ layout.value_of (contents space.now) key.now) }
{
    let value = space.get(TABLE, key)?;
    Ok(value)
}
