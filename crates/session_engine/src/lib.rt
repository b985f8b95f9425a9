//! The session engine: each rank of a session acts once, in order. A rank that comes too soon waits
//! for those before it, and one that acted is ignored. The last 64 replies of a session are kept.
#![tactic(auto)]

ghost use Rattle.std.specs.Prelude.{◌≡◌, ◌+◌, ◌++◌, List, [], length, Some, None, IfOk, OnOk};
ghost use Rattle.engine_api.specs.declared.content.Content.TheVariants as content;
ghost use Rattle.delos_types.specs.declared.item.Item.{Item};
ghost use Rattle.engine_steps.specs.Layout.{held_of};
ghost use Rattle.engine_steps.specs.Steps.{opening, Frees, Acts, RankStep, SessionUp, waits, RepliesAt};
ghost use Rattle.engine_steps.specs.Words.{under};

use delos_types::entry::Entry;
use delos_types::item::{Item, ItemList};
use delos_types::numbers::{NodeId, Rank, SessionId};
use delos_types::place::Place;
use delos_types::space::Space;
use engine_steps::engine::{Down, Engine, Up};
use engine_steps::layout::{
    CLEAN_KEY, SESSION, held, held_key, is_holding, last_key, last_rank, reply_key, set,
    set_number, slot_text,
};
use engine_steps::words::{ranked_item, session_word};
use std::alloc::{AllocError, Global};

/// All that it knows is in its space.
#[derive(Drop)]
pub struct SessionEngine {}

impl Engine for SessionEngine {
    ghost kind_of = { λ _. 2 };

    ghost kept = { λ _. [] };

    fn kind(&self) -> u8 {
        SESSION
    }

    fn load(&mut self, _space: &dyn Space) -> Result<(), AllocError> {
        Ok(())
    }

    fn down(&mut self, _alloc: Global, _origin: NodeId, item: Item) -> Result<Down, AllocError> {
        Ok(Down::Pass(item))
    }

    fn flush(&mut self, _alloc: Global, _origin: NodeId) -> Result<Option<Entry>, AllocError> {
        Ok(None)
    }

    fn open(&mut self, alloc: Global, _entry: &Entry) -> Result<ItemList, AllocError> {
        Ok(ItemList::new(alloc))
    }

    fn up(
        &mut self,
        alloc: Global,
        space: &mut dyn Space,
        place: Place,
        item: &Item,
    ) -> Result<Up, AllocError> {
        take(alloc, space, place, item)
    }

    fn back(
        &mut self,
        alloc: Global,
        space: &mut dyn Space,
        place: Place,
        item: &Item,
        reply: &[u8],
    ) -> Result<(), AllocError> {
        keep_reply(alloc, space, place, item, reply)
    }

    fn post(&mut self, _place: Place) {}
}

// What becomes of an item.
fn take(alloc: Global, space: &mut dyn Space, place: Place, item: &Item) -> Result<Up, AllocError>
    ensures step { IfOk result (λ up. SessionUp (contents space.old) place item.now up (contents space.new)) }
    ensures beginning { beginning space.new ≡ beginning space.old }
{
    note_clean(space, place)?;
    match session_word(item) {
        None => Ok(Up::Pass(ItemList::new(alloc))),
        Some((session, rank)) => {
            at_rank(
                alloc,
                space,
                session,
                rank.number(),
                item.payload.as_slice(),
            )
        }
    }
}

// Where the first item of an entry finds no rank waiting, the entries before it are clean.
fn note_clean(space: &mut dyn Space, place: Place) -> Result<(), AllocError>
    ensures step { OnOk result (contents space.new ≡ opening (contents space.old) place) }
    ensures beginning { beginning space.new ≡ beginning space.old }
{
    if place.sub != 0 {
        return Ok(());
    }
    let holding = is_holding(space)?;
    if holding {
        return Ok(());
    }
    set_number(space, SESSION, &CLEAN_KEY, place.pos)
}

fn at_rank(
    alloc: Global,
    space: &mut dyn Space,
    session: SessionId,
    rank: u64,
    payload: &[u8],
) -> Result<Up, AllocError>
    ensures step { IfOk result (λ up. RankStep (contents space.old) session rank payload.now up (contents space.new)) }
    ensures beginning { beginning space.new ≡ beginning space.old }
{
    let last = last_rank(space, session)?;
    if rank <= last {
        return Ok(Up::Stop);
    }
    if rank - last > 1 {
        hold(space, session, rank, payload)?;
        return Ok(Up::Stop);
    }
    act(alloc, space, session, rank)
}

// Keeps the payload of a later rank, unless one is kept already.
fn hold(
    space: &mut dyn Space,
    session: SessionId,
    rank: u64,
    payload: &[u8],
) -> Result<(), AllocError>
    ensures step { OnOk result (contents space.new ≡ waits (contents space.old) session rank payload.now (held_of (contents space.old) session rank)) }
    ensures beginning { beginning space.new ≡ beginning space.old }
{
    match held(space, session, rank)? {
        Some(_) => return Ok(()),
        None => {}
    }
    let key = held_key(session, rank);
    set(space, SESSION, &key, payload)
}

// The rank acts, and those behind it that waited.
fn act(
    alloc: Global,
    space: &mut dyn Space,
    session: SessionId,
    rank: u64,
) -> Result<Up, AllocError>
    ensures step { IfOk result (λ up. Acts (contents space.old) session rank up (contents space.new)) }
    ensures beginning { beginning space.new ≡ beginning space.old }
{
    let mut freed = ItemList::new(alloc);
    let last = free(alloc, space, session, rank, &mut freed)?;
    let key = last_key(session);
    set_number(space, SESSION, &key, last)?;
    Ok(Up::Pass(freed))
}

// Takes the waiting ranks behind `rank` out, up to the first gap, and answers the last one.
fn free(
    alloc: Global,
    space: &mut dyn Space,
    session: SessionId,
    rank: u64,
    out: &mut ItemList,
) -> Result<u64, AllocError>
    ensures step { IfOk result (λ last. (freed : List Item) × Frees (contents space.old) session (rank + 1) freed (contents space.new) × (out.new ≡ out.old ++ freed) × (last ≡ rank + length freed)) }
    ensures beginning { beginning space.new ≡ beginning space.old }
{
    let mut last = rank;
    while last < u64::MAX {
        let next = last + 1;
        match held(space, session, next)? {
            None => break,
            Some(payload) => {
                let key = held_key(session, next);
                space.del(SESSION, &key)?;
                let item = ranked_item(alloc, session, next, payload)?;
                out.push(item)?;
                last = next;
            }
        }
    }
    Ok(last)
}

// The reply of a session's item takes its slot.
fn keep_reply(
    alloc: Global,
    space: &mut dyn Space,
    place: Place,
    item: &Item,
    reply: &[u8],
) -> Result<(), AllocError>
    ensures step { OnOk result (RepliesAt (contents space.old) place (under 2 item.now) reply.now (contents space.new)) }
    ensures beginning { beginning space.new ≡ beginning space.old }
{
    match session_word(item) {
        None => Ok(()),
        Some((session, rank)) => put_reply(alloc, space, place, session, rank, reply),
    }
}

fn put_reply(
    alloc: Global,
    space: &mut dyn Space,
    place: Place,
    session: SessionId,
    rank: Rank,
    reply: &[u8],
) -> Result<(), AllocError>
    ensures step { OnOk result (RepliesAt (contents space.old) place (Some (content.Session session rank None)) reply.now (contents space.new)) }
    ensures beginning { beginning space.new ≡ beginning space.old }
{
    let key = reply_key(session, rank);
    let slot = slot_text(alloc, place, rank, reply)?;
    set(space, SESSION, &key, slot.as_slice())
}
