//! Making items that say something, and entries of items.
ghost use Rattle.std.specs.Prelude.{◌≡◌, ◌≤◌, ◌∷◌, [], ℕ, IfOk, Some, filter_map};
ghost use Rattle.delos_types.specs.Spelling.{IsSpellable};
ghost use Rattle.table_core.specs.Spelling as command_spelling;
ghost use Rattle.engine_api.specs.Items.{content_of, placed_from, unpack};
ghost use Rattle.engine_api.specs.Packing as packing;

use crate::content::Content;
use delos_types::big_endian::{put_u16, put_u64};
use delos_types::bytes::Bytes;
use delos_types::entry::Entry;
use delos_types::item::{Header, Headers, Item};
use delos_types::numbers::{NodeId, Rank, SessionId};
use entry_codec::{encode_items, item_len};
use std::alloc::{AllocError, Global};
use table_core::command::Command;
use table_core::spell::spell_command;

/// The item of a session's command. It asks for a command that some bytes spell, at most 984 of
/// them, so that an entry may hold the item.
pub fn session_item(
    alloc: Global,
    session: SessionId,
    rank: Rank,
    command: &Command,
) -> Result<Item, AllocError>
    requires spellable { command_spelling.IsSpellable command.now }
    requires small { command_spelling.command_length command.now ≤ 984 }
    ensures item { IfOk result (λ item. item ≡ packing.session_item session rank command.now) }
    ensures says { IfOk result (λ item. content_of item ≡ Some (Content.Session session rank (Some command.now))) }
    ensures proposable { IfOk result packing.IsProposable }
{
    let mut body = Vec::new(alloc);
    put_u16(&mut body, session.number())?;
    put_u64(&mut body, rank.number())?;
    let payload = spell_command(alloc, command)?;
    item_under(alloc, 2, body, payload)
}

/// The item by which a node tells that it has its state for the entries below a position.
pub fn alive_item(alloc: Global, node: NodeId, position: u64) -> Result<Item, AllocError>
    ensures item { IfOk result (λ item. item ≡ packing.alive_item node position) }
    ensures says { IfOk result (λ item. content_of item ≡ Some (Content.Alive node position)) }
    ensures proposable { IfOk result packing.IsProposable }
{
    let body = view_body(alloc, 1, node.number(), position)?;
    item_under(alloc, 3, body, Bytes::new(alloc))
}

/// The item by which a node leaves.
pub fn leave_item(alloc: Global, node: NodeId) -> Result<Item, AllocError>
    ensures item { IfOk result (λ item. item ≡ packing.leave_item node) }
    ensures says { IfOk result (λ item. content_of item ≡ Some (Content.Leave node)) }
    ensures proposable { IfOk result packing.IsProposable }
{
    let body = view_body(alloc, 2, node.number(), 0)?;
    item_under(alloc, 3, body, Bytes::new(alloc))
}

/// The item that asks for a trim of the entries below a position.
pub fn trim_item(alloc: Global, position: u64) -> Result<Item, AllocError>
    ensures item { IfOk result (λ item. item ≡ packing.trim_item position) }
    ensures says { IfOk result (λ item. content_of item ≡ Some (Content.Trim position)) }
    ensures proposable { IfOk result packing.IsProposable }
{
    let mut body = Vec::new(alloc);
    put_u64(&mut body, position)?;
    item_under(alloc, 4, body, Bytes::new(alloc))
}

fn view_body(alloc: Global, tag: u8, node: u8, position: u64) -> Result<Vec<u8>, AllocError>
    ensures { IfOk result (λ body. body.items ≡ packing.view_body tag node position) }
{
    let mut body = Vec::new(alloc);
    body.push(tag)?;
    body.push(node)?;
    put_u64(&mut body, position)?;
    Ok(body)
}

fn item_under(alloc: Global, kind: u8, body: Vec<u8>, payload: Bytes) -> Result<Item, AllocError>
    ensures { IfOk result (λ item. item ≡ packing.item_under kind body.items payload) }
{
    let body = Bytes::from_vec(body);
    let headers = Headers::one(alloc, Header { kind, body })?;
    Ok(Item { headers, payload })
}

/// The entry of these items, 1 to 16 of them, each one that an entry may hold.
pub fn batch(alloc: Global, origin: NodeId, items: &[Item]) -> Result<Entry, AllocError>
    requires { packing.IsBatch items.now }
    ensures entry { IfOk result (λ entry. entry ≡ packing.packed origin items.now) }
    ensures spellable { IfOk result IsSpellable }
    ensures holds { IfOk result (λ entry. (pos : ℕ) → unpack pos entry ≡ placed_from pos 0 (filter_map content_of items.now)) }
{
    // The bytes of an entry have room for the numbers of nodes alone.
    prove!(origin.number() <= 8);
    let body = batch_body(alloc, items)?;
    let headers = Headers::one(alloc, Header { kind: 1, body })?;
    let payload = encode_items(alloc, items)?;
    Ok(Entry {
        origin,
        headers,
        payload,
    })
}

/// The entry of one item.
pub fn batch_of_one(alloc: Global, origin: NodeId, item: Item) -> Result<Entry, AllocError>
    requires { packing.IsProposable item }
    ensures entry { IfOk result (λ entry. entry ≡ packing.packed origin (item ∷ [])) }
    ensures spellable { IfOk result IsSpellable }
    ensures holds { IfOk result (λ entry. (pos : ℕ) → unpack pos entry ≡ placed_from pos 0 (filter_map content_of (item ∷ []))) }
{
    batch(alloc, origin, &[item])
}

// How many items there are, and the length of each.
fn batch_body(alloc: Global, items: &[Item]) -> Result<Bytes, AllocError>
    requires { packing.IsBatch items.now }
    ensures { IfOk result (λ body. body ≡ packing.batch_body items.now) }
{
    let mut body = Vec::new(alloc);
    body.push(items.len() as u8)?;
    for item in items {
        put_u16(&mut body, item_len(item) as u16)?;
    }
    Ok(Bytes::from_vec(body))
}
