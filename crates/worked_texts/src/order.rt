//! Where commands of a session act in a log, and how much of it is clean.
ghost use Rattle.std.specs.Prelude.{◌≤◌, length};

use crate::items::put_item;
use crate::tables::print_reply;
use crate::text::{name_and_rest, node_of, numbers_in, unknown};
use delos_types::bytes::Bytes;
use delos_types::entry::Entry;
use delos_types::item::Headers;
use engine_api::acted::acted_log;
use engine_api::members::clean_position;
use engine_api::pack::batch;
use std::alloc::{AllocError, Global};
use std::io;
use table_core::table::Table;

/// How many commands an entry takes.
const ENTRY_ROOM: usize = 16;

/// Above what a case needs: how many entries, and from which position on.
const MOST: u64 = 100;

/// The entry of node 1 with these ranks of session 0; without ranks one that holds nothing.
fn entry(alloc: Global, ranks: &[u64]) -> io::Result<Entry>
    requires { length ranks.now ≤ 16 }
{
    let origin = node_of(1)?;
    if ranks.is_empty() {
        return Ok(Entry {
            origin,
            headers: Headers::new(alloc),
            payload: Bytes::new(alloc),
        });
    }
    let mut items = Vec::new(alloc);
    for rank in ranks {
        let item = put_item(alloc, *rank)?;
        items.push(item)?;
    }
    Ok(batch(alloc, origin, items.as_slice())?)
}

/// The ranks of a line: `entry 1 2 5`, or `entry 17 to 32`.
fn ranks_in(alloc: Global, line: &str) -> Result<Vec<u64>, AllocError> {
    let numbers = numbers_in(alloc, line)?;
    match numbers.as_slice() {
        [first, last] if line.contains(" to ") => (*first..=*last).collect(alloc),
        _ => Ok(numbers),
    }
}

/// The entries of these lines.
fn entries_in(alloc: Global, lines: &[&str]) -> io::Result<Vec<Entry>> {
    let mut entries = Vec::new(alloc);
    for line in lines {
        let ranks = ranks_in(alloc, line)?;
        if ranks.len() > ENTRY_ROOM {
            return Err(unknown());
        }
        entries.push(entry(alloc, ranks.as_slice())?)?;
    }
    Ok(entries)
}

/// Prints where each rank acts, where the first of the entries stands at this position.
fn show_acts(rt: &HostRuntime, pos: u64, entries: &[Entry]) -> io::Result<()> {
    let alloc = rt.alloc();
    if pos > MOST || entries.len() as u64 > MOST {
        return Err(unknown());
    }
    let done = acted_log(alloc, Table::new(alloc), &[], pos, entries)?;
    for act in done.acts.as_slice() {
        let rank = act.rank.number();
        let pos = act.place.pos;
        let sub = act.place.sub;
        print!(rt; "rank {rank} at {pos}.{sub}: ")?;
        match &act.reply {
            Some(reply) => print_reply(rt, reply)?,
            None => println!(rt; "no reply")?,
        }
    }
    Ok(())
}

/// Prints where the commands of a log act, or how many entries from the front are clean. Each rank is a command `put x 1` of
/// one session.
pub(crate) fn show_order(rt: &HostRuntime, input: &[&str]) -> io::Result<()> {
    let alloc = rt.alloc();
    let [first, lines @ ..] = input else {
        return Err(unknown());
    };
    let entries = entries_in(alloc, lines)?;
    let (name, _) = name_and_rest(first);
    let numbers = numbers_in(alloc, first)?;
    match (name, numbers.as_slice()) {
        ("acts", [pos]) => show_acts(rt, *pos, entries.as_slice()),
        ("clean", []) => {
            let clean = clean_position(alloc, entries.as_slice())?;
            println!(rt; "{clean}")
        }
        _ => Err(unknown()),
    }
}
