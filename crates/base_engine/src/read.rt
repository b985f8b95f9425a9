//! What a node reads of its table.
ghost use Rattle.std.specs.Prelude.{◌≡◌, ◌++◌, ◌∷◌, [], IfOk};
ghost use Rattle.std.specs.FinMap as map;
ghost use Rattle.table_core.specs.Find.{value_found, pairs_between};
ghost use Rattle.base_engine.specs.Querying.{found_in, table_in, IsNextPair};

use delos_types::bytes::Bytes;
use replica_api::replica::Replica;
use std::alloc::{AllocError, Global};
use table_core::command::{Found, Pair, Pairs, Query};

/// What the table answers to a read.
///
/// Cost: a look at the space, and as much for each key that a scan finds.
pub fn read<R: Replica>(alloc: Global, replica: &R, query: &Query) -> Result<Found, AllocError>
    ensures { IfOk result (λ found. found ≡ found_in (R.shows replica.now).contents query.now) }
{
    match query {
        Query::Get { key } => get(replica, key),
        Query::Scan { low, high } => Ok(Found::All(scan(alloc, replica, low, high)?)),
    }
}

/// The value at a key.
#[tactic(auto, using(crate::proofs::Scanning::table_value))]
fn get<R: Replica>(replica: &R, key: &Bytes) -> Result<Found, AllocError>
    ensures { IfOk result (λ found. found ≡ value_found (map.get (table_in (R.shows replica.now).contents) key.now)) }
{
    match replica.value(key.as_slice())? {
        None => Ok(Found::Nothing),
        Some(value) => Ok(Found::Value(value)),
    }
}

/// The keys from `low` on and below `high`, in byte order, with their values.
fn scan<R: Replica>(
    alloc: Global,
    replica: &R,
    low: &Bytes,
    high: &Bytes,
) -> Result<Pairs, AllocError>
    ensures { IfOk result (λ pairs. pairs ≡ pairs_between (table_in (R.shows replica.now).contents) low.now high.now) }
{
    let mut pairs = Vec::new(alloc);
    let mut from = low.clone()?;
    'pair: while let Some(pair) = next_pair(replica, &from, high)? {
        from = text_behind(&pair.key)?;
        pairs.push(pair)?;
    }
    Ok(Pairs::from_vec(pairs))
}

/// The first key from `from` on and below `high`, with its value.
fn next_pair<R: Replica>(
    replica: &R,
    from: &Bytes,
    high: &Bytes,
) -> Result<Option<Pair>, AllocError>
    ensures { IfOk result (IsNextPair (R.shows replica.now).contents from.now high.now) }
{
    let Some(key) = replica.key_from(from.as_slice())? else {
        return Ok(None);
    };
    if &key >= high {
        return Ok(None);
    }
    let Some(value) = replica.value(key.as_slice())? else {
        unreachable!()
    };
    Ok(Some(Pair { key, value }))
}

/// The least text above this one.
fn text_behind(text: &Bytes) -> Result<Bytes, AllocError>
    ensures { IfOk result (λ next. next ≡ text.now ++ 0 ∷ []) }
{
    let mut next = text.clone()?;
    next.extend_from_slice(&[0])?;
    Ok(next)
}
