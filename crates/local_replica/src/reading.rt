//! What the engines keep in the space of a store.
ghost use Rattle.std.specs.Prelude.{◌≡◌, IfOk};
ghost use Rattle.delos_types.specs.Spaces.{least_key_from};
ghost use Rattle.engine_steps.specs.Layout as layout;

use delos_types::bytes::Bytes;
use delos_types::numbers::{NodeId, Rank, SessionId};
use delos_types::space::Space;
use disk_model::Disk;
use engine_steps::layout;
use engine_steps::layout::Kept;
use local_store::Store;
use std::alloc::{AllocError, Global};

/// The last rank of a session that acted, 0 where none did.
pub(crate) fn last_rank<D: Disk>(store: &Store<D>, session: SessionId) -> Result<u64, AllocError>
    ensures { IfOk result (λ rank. rank ≡ layout.last_of store.now.contents session) }
{
    let txn = store.begin()?;
    let rank = layout::last_rank(&txn, session)?;
    Ok(rank)
}

/// Where a rank acted and what it was answered, while that is kept.
pub(crate) fn reply_of<D: Disk>(
    alloc: Global,
    store: &Store<D>,
    session: SessionId,
    rank: Rank,
) -> Result<Option<Kept>, AllocError>
    ensures { IfOk result (λ kept. kept ≡ layout.reply_of store.now.contents session rank) }
{
    let txn = store.begin()?;
    let kept = layout::reply_of(alloc, &txn, session, rank)?;
    Ok(kept)
}

/// How many first entries are clean.
pub(crate) fn clean<D: Disk>(store: &Store<D>) -> Result<u64, AllocError>
    ensures { IfOk result (λ clean. clean ≡ layout.clean_of store.now.contents store.now.cursor) }
{
    let txn = store.begin()?;
    let clean = layout::clean_position(&txn, store.cursor())?;
    Ok(clean)
}

/// The value at a key of the table.
pub(crate) fn value<D: Disk>(store: &Store<D>, key: &[u8]) -> Result<Option<Bytes>, AllocError>
    ensures { IfOk result (λ value. value ≡ layout.value_of store.now.contents key.now) }
{
    let txn = store.begin()?;
    let value = layout::value(&txn, key)?;
    Ok(value)
}

/// The least key of the table that is at or above this one.
pub(crate) fn key_from<D: Disk>(store: &Store<D>, key: &[u8]) -> Result<Option<Bytes>, AllocError>
    ensures { IfOk result (λ found. found ≡ least_key_from store.now.contents 5 key.now) }
{
    let txn = store.begin()?;
    let found = txn.seek(layout::TABLE, key)?;
    Ok(found)
}

/// Whether a node has left.
pub(crate) fn has_left<D: Disk>(store: &Store<D>, node: NodeId) -> Result<bool, AllocError>
    ensures { IfOk result (λ left. left ≡ layout.has_left_in store.now.contents node) }
{
    let txn = store.begin()?;
    let left = layout::has_left(&txn, node)?;
    Ok(left)
}

/// The greatest position that a node reported, 0 where it reported none.
pub(crate) fn reported<D: Disk>(store: &Store<D>, node: NodeId) -> Result<u64, AllocError>
    ensures { IfOk result (λ position. position ≡ layout.reported_of store.now.contents node) }
{
    let txn = store.begin()?;
    let position = layout::reported(&txn, node)?;
    Ok(position)
}

/// The greatest position below which a trim was asked for, 0 where none was.
pub(crate) fn trim_point<D: Disk>(store: &Store<D>) -> Result<u64, AllocError>
    ensures { IfOk result (λ position. position ≡ layout.trim_of store.now.contents) }
{
    let txn = store.begin()?;
    let position = layout::trim_point(&txn)?;
    Ok(position)
}
