//! Entries that are applied to a node's replica. They are of four sessions in turn, whose commands add to one of sixteen keys.
ghost use Rattle.std.specs.Prelude.{◌≡◌, ◌<◌, [], ◌∷◌};

use batch_engine::BatchEngine;
use delos_types::big_endian::{put_u16, put_u64};
use delos_types::bytes::Bytes;
use delos_types::entry::Entry;
use delos_types::item::{Header, Headers};
use delos_types::numbers::{NodeId, SessionId};
use disk_model::MemDisk;
use engine_steps::engine::Engine;
use local_replica::layers::Layers;
use local_replica::replica::LocalReplica;
use local_store::Store;
use replica_api::replica::{Applied, Replica};
use session_engine::SessionEngine;
use std::alloc::{AllocError, Global};
use table_engine::TableEngine;
use trim_engine::TrimEngine;
use view_engine::ViewEngine;

/// How many sessions there are.
const SESSIONS: u16 = 4;

/// How many commands an entry has.
const ITEMS: u8 = 16;

/// How many bytes the command of an item has.
const COMMAND: u16 = 12;

/// Applies so many entries of 16 commands each to a new replica of the five engines, over a store on a disk in memory, and counts the commands
/// that acted.
pub(crate) fn run(alloc: Global, entries: u32) -> Result<u64, AllocError> {
    let mut engines: Vec<Box<dyn Engine + Send>> = Vec::new(alloc);
    engines.push(Box::new(alloc, BatchEngine::new(alloc))?)?;
    engines.push(Box::new(alloc, SessionEngine {})?)?;
    engines.push(Box::new(alloc, ViewEngine {})?)?;
    engines.push(Box::new(alloc, TrimEngine {})?)?;
    engines.push(Box::new(alloc, TableEngine {})?)?;
    run_over(alloc, engines, entries)
}

/// The same, by these engines. A disk in memory doesn't fail.
fn run_over<E: Layers>(alloc: Global, engines: E, entries: u32) -> Result<u64, AllocError>
    requires { E.kinds engines ≡ 1 ∷ 2 ∷ 3 ∷ 4 ∷ 5 ∷ [] }
{
    let Some(origin) = NodeId::new(1) else {
        return Err(AllocError);
    };
    let Ok(store) = Store::open_on(alloc, MemDisk::new(alloc)) else {
        return Err(AllocError);
    };
    let mut replica = LocalReplica::new(alloc, origin, engines, store);
    for number in 0..entries {
        let entry = entry(alloc, origin, number)?;
        apply(&mut replica, &entry)?;
    }
    acted(&replica)
}

fn apply<R: Replica>(replica: &mut R, entry: &Entry) -> Result<(), AllocError> {
    if replica.cursor() > u64::from(u32::MAX) {
        return Err(AllocError);
    }
    match replica.apply(entry) {
        Applied::Done => Ok(()),
        Applied::DiskFault | Applied::Down | Applied::Memory => Err(AllocError),
    }
}

/// How many commands of all sessions acted: they act in the order of their ranks.
fn acted<R: Replica>(replica: &R) -> Result<u64, AllocError> {
    let mut acted = 0u64;
    for number in 0..SESSIONS {
        let Some(session) = SessionId::new(number) else {
            return Err(AllocError);
        };
        let last = replica.last_rank(session)?;
        acted = acted.saturating_add(last);
    }
    Ok(acted)
}

/// The entry of this number: the next commands of its session.
fn entry(alloc: Global, origin: NodeId, number: u32) -> Result<Entry, AllocError> {
    let session = (number % u32::from(SESSIONS)) as u16;
    let before = u64::from(number / u32::from(SESSIONS)) * u64::from(ITEMS);
    let mut body = Vec::new(alloc);
    let mut payload = Vec::new(alloc);
    body.push(ITEMS)?;
    for k in 0..ITEMS {
        put_u16(&mut body, 16 + COMMAND)?;
        put_item(&mut payload, session, before + u64::from(k) + 1, k)?;
    }
    let body = Bytes::from_vec(body);
    Ok(Entry {
        origin,
        headers: Headers::one(alloc, Header { kind: 1, body })?,
        payload: Bytes::from_vec(payload),
    })
}

/// The item of a rank, which adds 1 to a key.
fn put_item(out: &mut Vec<u8>, session: u16, rank: u64, key: u8) -> Result<(), AllocError>
    requires { key < 16 }
{
    out.extend_from_slice(&[1, 2, 0, 10])?;
    put_u16(out, session)?;
    put_u64(out, rank)?;
    put_u16(out, COMMAND)?;
    out.extend_from_slice(&[4, 2, b'k', b'a' + key, 0, 0, 0, 0, 0, 0, 0, 1])?;
    Ok(())
}
