//! Appends to a striped loglet.
ghost use Rattle.std.specs.Prelude.{◌≤◌, IfOk};
ghost use Rattle.delos_types.specs.Spelling.{IsSpellable};
ghost use Rattle.loglet_runs.specs.Runs.{BringsSpellable};

use crate::appends::{entry, placed};
use delos_types::entry::Entry;
use delos_types::numbers::Ticket;
use loglet_api::call::{LogletCall, Op};
use shelf_loglets::striped::{nested, striped};
use std::alloc::{AllocError, Global};

/// The room of each native loglet: 2^28 entries.
const ROOM: u64 = 0x1000_0000;

/// The words that carry an append to its end on its own native loglet: its message to each of the three servers, in their
/// order, and the answers of two of them.
const OWN: [u64; 5] = [0, 8, 16, 0, 0];

/// How many carries settle another native loglet for the positions below: one begins, and two servers are asked, one after
/// another, and answer.
const SETTLE: usize = 5;

/// How many stripes a striped loglet of this kind has.
fn count_of(kind: &str) -> usize
    ensures { (2 ≤ result) × (result ≤ 8) }
{
    match kind {
        "striped3" => 3,
        "striped4" => 4,
        "striped5" => 5,
        "striped6" => 6,
        "striped7" => 7,
        "striped8" => 8,
        _ => 2,
    }
}

/// Appends entries of so many bytes to a new loglet of this kind, `striped2` to `striped8` or `nested`, over native loglets of three log servers on
/// disks in memory, and counts those that were placed. None is want of memory.
pub(crate) fn run(alloc: Global, kind: &str, appends: u32, bytes: usize) -> Option<u64>
    requires bytes { bytes ≤ 16000 }
{
    let entry = entry(alloc, bytes)?;
    if kind == "nested" {
        // The other stripe of the own pair is settled, and then the other pair: one carry begins, and each of its stripes is settled.
        let Ok(calls) = calls(alloc, &entry, appends, 3 * SETTLE + 1) else {
            return None;
        };
        let Ok(mut loglet) = nested(alloc, ROOM) else {
            return None;
        };
        return placed(alloc, &mut loglet, calls.as_slice());
    }
    let count = count_of(kind);
    let Ok(calls) = calls(alloc, &entry, appends, (count - 1) * SETTLE) else {
        return None;
    };
    let Ok(mut loglet) = striped(alloc, count, ROOM) else {
        return None;
    };
    placed(alloc, &mut loglet, calls.as_slice())
}

/// So many appends of the entry, one after another. Each is carried to its end on its own native loglet, and so many times
/// more.
fn calls(
    alloc: Global,
    entry: &Entry,
    appends: u32,
    more: usize,
) -> Result<Vec<LogletCall>, AllocError>
    requires spelled { IsSpellable entry.now }
    ensures { IfOk result (λ calls. BringsSpellable calls.items) }
{
    let mut calls = Vec::new(alloc);
    for number in 0..appends {
        let ticket = Ticket::new(u64::from(number));
        calls.push(LogletCall::Begin(Op::Append(entry.clone()?)))?;
        for word in OWN {
            calls.push(LogletCall::Carry(ticket, word))?;
        }
        for _carry in 0..more {
            calls.push(LogletCall::Carry(ticket, 0))?;
        }
        calls.push(LogletCall::Take(ticket))?;
    }
    Ok(calls)
}
