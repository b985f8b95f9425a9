//! Entries by their payload.
ghost use Rattle.std.specs.Prelude.{IfOk};
ghost use Rattle.delos_types.specs.Spelling.{IsSpellable};

use anyhow::{Context, Result, bail};
use delos_types::bytes::Bytes;
use delos_types::entry::Entry;
use delos_types::item::Headers;
use delos_types::numbers::NodeId;
use std::alloc::Global;

/// No case has a longer payload.
const MOST_BYTES: usize = 99;

/// The entry of node 1 with no headers and this payload.
pub fn entry(alloc: Global, payload: &[u8]) -> Result<Entry>
    ensures { IfOk result IsSpellable }
{
    if payload.len() > MOST_BYTES {
        bail!("no case has so long a payload");
    }
    let origin = NodeId::new(1).context("no node 1")?;
    let payload = Bytes::from_slice(alloc, payload)?;
    Ok(Entry {
        origin,
        headers: Headers::new(alloc),
        payload,
    })
}
