//! Items that put a value at a key.
ghost use Rattle.std.specs.Prelude.{IfOk};
ghost use Rattle.engine_api.specs.Packing.{IsProposable};

use crate::stuck::Stuck;
use delos_types::bytes::Bytes;
use delos_types::item::Item;
use delos_types::numbers::{Rank, SessionId};
use engine_api::pack::session_item;
use std::alloc::Global;
use table_core::command::Command;

/// A session, and one of its ranks.
pub(crate) fn rank_of(session: u8, rank: u64) -> Result<(SessionId, Rank), Stuck> {
    match (SessionId::new(u16::from(session)), Rank::new(rank)) {
        (Some(session), Some(rank)) => Ok((session, rank)),
        _ => Err(Stuck::Line),
    }
}

/// The item by which a session puts a value at a key, each of one byte.
pub(crate) fn put_item(
    alloc: Global,
    session: u8,
    rank: u64,
    key: u8,
    value: u8,
) -> Result<Item, Stuck>
    ensures { IfOk result IsProposable }
{
    if key < 33 || key > 126 {
        return Err(Stuck::Line);
    }
    let (session, rank) = rank_of(session, rank)?;
    let key = Bytes::from_slice(alloc, &[key])?;
    let value = Bytes::from_slice(alloc, &[value])?;
    let item = session_item(alloc, session, rank, &Command::Put { key, value })?;
    Ok(item)
}
