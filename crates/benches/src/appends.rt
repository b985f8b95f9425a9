//! Appends to a loglet, one after another.
ghost use Rattle.std.specs.Prelude.{◌≤◌, IfSome};
ghost use Rattle.delos_types.specs.Spelling.{IsSpellable};
ghost use Rattle.loglet_runs.specs.Runs.{BringsSpellable, IsClosed};

use delos_types::bytes::Bytes;
use delos_types::entry::Entry;
use delos_types::item::Headers;
use delos_types::numbers::NodeId;
use loglet_api::call::{Answer, LogletAnswer, LogletCall};
use loglet_api::loglet::Loglet;
use loglet_runs::runs::run_ops;
use std::alloc::Global;

/// An entry with a payload of so many bytes. None is want of memory.
pub(crate) fn entry(alloc: Global, bytes: usize) -> Option<Entry>
    requires { bytes ≤ 16000 }
    ensures { IfSome result IsSpellable }
{
    let origin = NodeId::new(1)?;
    let mut payload = Vec::new(alloc);
    payload.resize(bytes, 7u8).ok()?;
    Some(Entry {
        origin,
        headers: Headers::new(alloc),
        payload: Bytes::from_vec(payload),
    })
}

/// Makes the calls, and counts the entries that were placed. None is want of memory.
pub(crate) fn placed(alloc: Global, loglet: &mut dyn Loglet, calls: &[LogletCall]) -> Option<u64>
    requires closed { IsClosed (view loglet.old) }
    requires spelled { BringsSpellable calls.now }
{
    let answers = run_ops(alloc, loglet, calls).ok()?;
    let placed = answers
        .iter()
        .filter(|answer| matches!(answer, LogletAnswer::Taken(Some(Answer::Placed(_)))))
        .count();
    Some(placed as u64)
}
