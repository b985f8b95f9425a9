//! Logs of a case: the entries of its items, in one loglet.
ghost use Rattle.std.specs.Prelude.{◌≡◌, ◌≤◌, ◌<◌, ◌^◌, All, IfOk, IsTrue, FitsSigned};
ghost use Rattle.std.specs.Int.{w64};
ghost use Rattle.engine_api.specs.Packing.{IsProposable};
ghost use Rattle.table_core.specs.Spelling.{IsKey, IsSpellable, command_length};

use anyhow::{Context, bail, ensure};
use delos_types::chain::{Chain, Segment, Segments};
use delos_types::entry::Entry;
use delos_types::item::Item;
use delos_types::numbers::NodeId;
use engine_api::content::{Content, Placed};
use engine_api::pack::{alive_item, batch, leave_item, session_item, trim_item};
use fitting_run::yard::CellShown;
use std::alloc::{AllocError, Global};
use table_core::command::Command;

/// Each byte of a key can be printed.
fn is_key(key: &[u8]) -> bool
    ensures { IsTrue result → IsKey key.now }
{
    key.len() < 256 && key.iter().all(|b| 33 <= *b && *b <= 126)
}

/// The amount is one of 64 bits, as each of its type is.
fn is_amount(amount: i64) -> bool
    ensures { IsTrue result → FitsSigned w64 amount }
{
    i64::MIN <= amount && amount <= i64::MAX
}

/// An entry may hold the command.
fn is_loggable(command: &Command) -> bool
    ensures { IsTrue result → IsSpellable command.now × (command_length command.now ≤ 984) }
{
    match command {
        Command::Put { key, value } => is_key(key.as_slice()) && value.as_slice().len() <= 256,
        Command::Del { key } => is_key(key.as_slice()),
        Command::Cas { key, old, new } => {
            is_key(key.as_slice()) && old.as_slice().len() <= 256 && new.as_slice().len() <= 256
        }
        Command::Add { key, amount } => is_key(key.as_slice()) && is_amount(*amount),
    }
}

/// The item that says this.
fn item_of(alloc: Global, content: &Content) -> anyhow::Result<Item>
    ensures { IfOk result IsProposable }
{
    match content {
        Content::Session {
            session,
            rank,
            command: Some(command),
        } => {
            if !is_loggable(command) {
                bail!("an entry can't hold that");
            }
            Ok(session_item(alloc, *session, *rank, command)?)
        }
        Content::Session { .. } => bail!("no command"),
        Content::Alive { node, position } => Ok(alive_item(alloc, *node, *position)?),
        Content::Leave { node } => Ok(leave_item(alloc, *node)?),
        Content::Trim { position } => Ok(trim_item(alloc, *position)?),
    }
}

/// What stands at a position, in order.
fn items_at(alloc: Global, pos: u64, items: &[Placed]) -> anyhow::Result<Vec<Item>>
    ensures { IfOk result (λ here. All IsProposable here.items) }
{
    let mut here = Vec::new(alloc);
    for item in items {
        if item.place.pos != pos {
            continue;
        }
        ensure!(
            usize::from(item.place.sub) == here.len(),
            "items of an entry stand one behind another"
        );
        here.push(item_of(alloc, &item.content)?)?;
    }
    Ok(here)
}

/// The node that proposed what stands at a position.
fn proposer_at(pos: u64, items: &[Placed], by: &[NodeId]) -> Option<NodeId> {
    for (item, node) in items.iter().zip(by.iter()) {
        if item.place.pos == pos {
            return Some(*node);
        }
    }
    None
}

/// The entry at a position.
fn entry_at(alloc: Global, pos: u64, items: &[Placed], by: &[NodeId]) -> anyhow::Result<Entry> {
    let origin = proposer_at(pos, items, by).context("entries stand one behind another")?;
    let here = items_at(alloc, pos, items)?;
    if here.is_empty() || 16 < here.len() {
        bail!("an entry has 1 to 16 items");
    }
    Ok(batch(alloc, origin, here.as_slice())?)
}

/// The entries of these items, which stand at one position after another from the trim on, each proposed by one of these nodes.
fn entries_of(
    alloc: Global,
    trim: u64,
    items: &[Placed],
    by: &[NodeId],
) -> anyhow::Result<Vec<Entry>> {
    let mut entries = Vec::new(alloc);
    let Some(last) = items.last() else {
        return Ok(entries);
    };
    ensure!(
        trim <= last.place.pos && last.place.pos - trim < items.len() as u64,
        "entries stand one behind another"
    );
    for pos in trim..=last.place.pos {
        entries.push(entry_at(alloc, pos, items, by)?)?;
    }
    Ok(entries)
}

/// One open loglet that has these items, from the trim on, in entries that these nodes proposed.
pub(crate) fn cells_of(
    alloc: Global,
    trim: u64,
    items: &[Placed],
    by: &[NodeId],
) -> anyhow::Result<Vec<CellShown>> {
    let log = entries_of(alloc, trim, items, by)?;
    let reach = trim.saturating_add(log.len() as u64);
    let mut cells = Vec::new(alloc);
    cells.push(CellShown {
        servers: 1,
        quorum: 1,
        room: reach,
        limit: reach,
        cut: trim,
        log,
        reach,
        begun: reach,
        faults: 0,
        lacks: 0,
    })?;
    Ok(cells)
}

/// The chain of one open loglet.
pub(crate) fn first_chain(alloc: Global, trim: u64) -> Result<Chain, AllocError> {
    let mut segments = Vec::new(alloc);
    segments.push(Segment {
        id: 0,
        start: 0,
        end: None,
    })?;
    Ok(Chain {
        trim,
        segments: Segments::from_vec(segments),
    })
}
