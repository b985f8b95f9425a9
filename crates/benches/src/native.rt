//! Appends to a native loglet.
ghost use Rattle.std.specs.Prelude.{◌≤◌, IfOk};
ghost use Rattle.delos_types.specs.Spelling.{IsSpellable};
ghost use Rattle.loglet_runs.specs.Runs.{BringsSpellable};
ghost use Rattle.native_loglet.specs.Natives.{IsCount};

use crate::appends::{entry, placed};
use delos_types::entry::Entry;
use delos_types::numbers::Ticket;
use loglet_api::call::{LogletCall, Op};
use native_loglet::memory::in_memory;
use std::alloc::{AllocError, Global};

/// The greatest room of a loglet: 2^32 entries.
const ROOM: u64 = 0x1_0000_0000;

/// Of how many servers a loglet is: 1, 3, 5 or 7.
pub(crate) fn count(servers: u32) -> usize
    ensures { IsCount result }
{
    match servers {
        1 => 1,
        5 => 5,
        7 => 7,
        _ => 3,
    }
}

/// Appends entries of so many bytes to a new loglet of so many log servers on disks in memory, and counts those that were placed.
/// None is want of memory.
pub(crate) fn run(alloc: Global, servers: usize, appends: u32, bytes: usize) -> Option<u64>
    requires servers { IsCount servers }
    requires bytes { bytes ≤ 16000 }
{
    let entry = entry(alloc, bytes)?;
    let Ok(calls) = calls(alloc, &entry, servers, appends) else {
        return None;
    };
    let Ok(mut loglet) = in_memory(alloc, servers, ROOM) else {
        return None;
    };
    placed(alloc, &mut loglet, calls.as_slice())
}

/// So many appends of the entry, one after another. Each comes to all servers, in their order, and
/// hears more than half of them.
fn calls(
    alloc: Global,
    entry: &Entry,
    servers: usize,
    appends: u32,
) -> Result<Vec<LogletCall>, AllocError>
    requires spelled { IsSpellable entry.now }
    requires servers { IsCount servers }
    ensures { IfOk result (λ calls. BringsSpellable calls.items) }
{
    let mut calls = Vec::new(alloc);
    for number in 0..appends {
        let ticket = Ticket::new(u64::from(number));
        calls.push(LogletCall::Begin(Op::Append(entry.clone()?)))?;
        for server in 0..servers {
            calls.push(LogletCall::Carry(ticket, 8 * server as u64))?;
        }
        for _heard in 0..servers / 2 + 1 {
            calls.push(LogletCall::Carry(ticket, 0))?;
        }
        calls.push(LogletCall::Take(ticket))?;
    }
    Ok(calls)
}
