//! What entries hold: commands of sessions, and words of engines.
ghost use Rattle.std.specs.Prelude.{◌≡◌, ◌∷◌, [], IfOk};
ghost use Rattle.engine_api.specs.Packing.{IsProposable};

use crate::commands::print_command;
use crate::text::{
    name_and_rest, node_of, numbers_in, out_of_memory, print_bytes, read_bytes, unknown,
};
use delos_types::bytes::Bytes;
use delos_types::entry::Entry;
use delos_types::item::Item;
use delos_types::numbers::{Rank, SessionId};
use engine_api::content::Content;
use engine_api::pack::{alive_item, batch_of_one, leave_item, session_item, trim_item};
use engine_api::read::unpack;
use entry_codec::{DecodeError, decode_entry, encode_entry, encode_item};
use std::alloc::{AllocError, Global};
use std::io;
use table_core::command::Command;

/// `put x 1`
fn put_x(alloc: Global) -> Result<Command, AllocError>
    ensures { IfOk result (λ c. c ≡ Command.Put (120 ∷ []) (49 ∷ [])) }
{
    let key = Bytes::from_slice(alloc, &[120])?;
    let value = Bytes::from_slice(alloc, &[49])?;
    Ok(Command::Put { key, value })
}

/// `put x 1` of session 0, with this rank.
pub(crate) fn put_item(alloc: Global, rank: u64) -> io::Result<Item>
    ensures { IfOk result IsProposable }
{
    let (Some(session), Some(rank)) = (SessionId::new(0), Rank::new(rank)) else {
        return Err(unknown());
    };
    let command = put_x(alloc)?;
    Ok(session_item(alloc, session, rank, &command)?)
}

fn print_content(rt: &HostRuntime, content: &Content) -> io::Result<()> {
    match content {
        Content::Session {
            session,
            rank,
            command,
        } => {
            let session = session.number();
            let rank = rank.number();
            print!(rt; "session {session}, rank {rank}: ")?;
            match command {
                Some(command) => print_command(rt, command),
                None => println!(rt; "no command"),
            }
        }
        Content::Alive { node, position } => {
            let node = node.number();
            println!(rt; "node {node} alive {position}")
        }
        Content::Leave { node } => {
            let node = node.number();
            println!(rt; "node {node} leaves")
        }
        Content::Trim { position } => println!(rt; "trim {position}"),
    }
}

/// Prints what an entry holds.
fn print_items(rt: &HostRuntime, entry: &Entry) -> io::Result<()> {
    let placed = unpack(rt.alloc(), 7, entry)?;
    for item in placed.as_slice() {
        print_content(rt, &item.content)?;
    }
    if placed.as_slice().is_empty() {
        println!(rt; "nothing")?;
    }
    Ok(())
}

/// Prints `put x 1` of session 0, as an item and as an entry, in bytes.
fn show_put(rt: &HostRuntime, rank: u64, node: u64) -> io::Result<()> {
    let alloc = rt.alloc();
    let item = put_item(alloc, rank)?;
    print_bytes(rt, "item", encode_item(alloc, &item)?.as_slice())?;
    let entry = batch_of_one(alloc, node_of(node)?, item)?;
    print_bytes(rt, "entry", encode_entry(alloc, &entry)?.as_slice())
}

fn read_entry(alloc: Global, input: &[&str]) -> io::Result<Entry> {
    match decode_entry(alloc, read_bytes(alloc, input)?.as_slice()) {
        Ok(entry) => Ok(entry),
        Err(DecodeError::Memory) => Err(out_of_memory()),
        Err(_) => Err(unknown()),
    }
}

/// The entry by which a node leaves, reports a position, or asks for a trim.
fn node_entry(alloc: Global, line: &str, numbers: &[u64]) -> io::Result<Entry> {
    let [node, rest @ ..] = numbers else {
        return Err(unknown());
    };
    let node = node_of(*node)?;
    Ok(match rest {
        [] => batch_of_one(alloc, node, leave_item(alloc, node)?)?,
        [position] if line.contains("alive") => {
            batch_of_one(alloc, node, alive_item(alloc, node, *position)?)?
        }
        [position] => batch_of_one(alloc, node, trim_item(alloc, *position)?)?,
        _ => return Err(unknown()),
    })
}

/// Packs an item, or unpacks an entry.
pub(crate) fn show_items(rt: &HostRuntime, input: &[&str]) -> io::Result<()> {
    let alloc = rt.alloc();
    let [first, ..] = input else {
        return Err(unknown());
    };
    let (name, _) = name_and_rest(first);
    let numbers = numbers_in(alloc, first)?;
    match (name, numbers.as_slice()) {
        ("bytes", _) => print_items(rt, &read_entry(alloc, input)?),
        ("put", [1, 0, rank, node]) => show_put(rt, *rank, *node),
        ("node", numbers) => print_items(rt, &node_entry(alloc, first, numbers)?),
        _ => Err(unknown()),
    }
}
