//! What is read of a yard once a run has ended, as plain values, and the log that its loglets show.
ghost use Rattle.std.specs.Prelude.{◌≡◌, ◌↔◌, IsTrue, ◌<◌, ◌≤◌, ◌^◌, ◌-◌, ◌++◌, ◌&&◌, nat_le, nat_lt, IfOk, OnOk, MatchOption, is_some, map, slice_get};
ghost use Rattle.std.specs.List.{list_all};
ghost use Rattle.std.specs.Option.{option_copied, option_and_then, option_to_list};
ghost use Rattle.chain_map.specs.Chain.{last_of_segments};
ghost use Rattle.fabric_core.specs.Log as virtual;
ghost use Rattle.fitting_run.specs.Cells.{cell_of};

use delos_types::chain::{Chain, Segment};
use delos_types::entry::Entry;
use std::alloc::{AllocError, Global};

/// What is read of a loglet of the shelf.
#[derive(Drop)]
pub struct CellShown {
    pub servers: u64,
    /// The fewest servers whose silence may leave an operation without its answer.
    pub quorum: u64,
    /// The greatest length of its log.
    pub room: u64,
    /// How many operations may be begun.
    pub limit: u64,
    /// Positions below are trimmed.
    pub cut: u64,
    /// The entries from the cut on.
    pub log: Vec<Entry>,
    /// The greatest length that was answered.
    pub reach: u64,
    /// How many operations were begun.
    pub begun: u64,
    pub faults: u64,
    /// How often it was answered that no quorum was reached.
    pub lacks: u64,
}

fn reach_of(cells: &[CellShown], id: u32) -> u64
    ensures { result ≡ virtual.reach_of (slice_get (map cell_of cells.now) id) }
{
    match cells.get(id as usize) {
        Some(cell) => cell.reach,
        None => 0,
    }
}

/// The last segment, and an empty one of the first loglet where there is none.
pub(crate) fn last_segment(segments: &[Segment]) -> Segment
    ensures { result ≡ last_of_segments segments.now }
{
    match segments {
        [] => Segment {
            id: 0,
            start: 0,
            end: None,
        },
        [last] => *last,
        [_, rest @ ..] => last_segment(rest),
    }
}

/// Where the log ends that these loglets show; None where that is at 2^64 or above.
pub fn tail(chain: &Chain, cells: &[CellShown]) -> Option<u64>
    ensures { MatchOption result (2 ^ 64 ≤ virtual.virtual_tail chain.now (map cell_of cells.now)) (λ tail. tail ≡ virtual.virtual_tail chain.now (map cell_of cells.now)) }
{
    let last = last_segment(chain.segments.as_slice());
    match last.end {
        Some(end) => Some(end),
        None => last.start.checked_add(reach_of(cells, last.id)),
    }
}

/// The log that these loglets show ends below 2^64.
pub fn has_tail(chain: &Chain, cells: &[CellShown]) -> bool
    ensures { IsTrue result ↔ (virtual.virtual_tail chain.now (map cell_of cells.now) < 2 ^ 64) }
{
    tail(chain, cells).is_some()
}

fn holds(cells: &[CellShown], segment: &Segment, pos: u64) -> bool
    ensures { result ≡ (nat_le segment.now.start pos && nat_lt pos (virtual.end_of (map cell_of cells.now) segment.now)) }
{
    if pos < segment.start {
        return false;
    }
    match segment.end {
        Some(end) => pos < end,
        None => pos - segment.start < reach_of(cells, segment.id),
    }
}

fn entry_of(cell: &CellShown, index: u64) -> Option<&Entry>
    ensures { option_copied result ≡ virtual.entry_of_cell index (cell_of cell.now) }
{
    if index < cell.cut {
        return None;
    }
    cell.log.as_slice().get((index - cell.cut) as usize)
}

fn entry_at(cells: &[CellShown], id: u32, index: u64) -> Option<&Entry>
    ensures { option_copied result ≡ option_and_then (virtual.entry_of_cell index) (slice_get (map cell_of cells.now) id) }
{
    let cell = cells.get(id as usize)?;
    entry_of(cell, index)
}

fn entry_in<'a>(cells: &'a [CellShown], segments: &[Segment], pos: u64) -> Option<&'a Entry>
    ensures { option_copied result ≡ virtual.entry_in (map cell_of cells.now) segments.now pos }
{
    match segments {
        [] => None,
        [segment, rest @ ..] => {
            if holds(cells, segment, pos) {
                return entry_at(cells, segment.id, pos - segment.start);
            }
            entry_in(cells, rest, pos)
        }
    }
}

fn has_entry(chain: &Chain, cells: &[CellShown], pos: u64) -> bool
    ensures { result ≡ is_some (virtual.virtual_log_at chain.now (map cell_of cells.now) pos) }
{
    entry_in(cells, chain.segments.as_slice(), pos).is_some()
}

fn has_entries_below(chain: &Chain, cells: &[CellShown], end: u64) -> bool
    ensures { result ≡ list_all (λ pos. is_some (virtual.virtual_log_at chain.now (map cell_of cells.now) pos)) (virtual.numbers chain.now.trim (end - chain.now.trim)) }
{
    for pos in chain.trim..end {
        if !has_entry(chain, cells, pos) {
            return false;
        }
    }
    true
}

/// No position from the trim up to the tail lacks its entry.
pub fn log_is_whole(chain: &Chain, cells: &[CellShown]) -> bool
    requires { virtual.virtual_tail chain.now (map cell_of cells.now) < 2 ^ 64 }
    ensures { result ≡ virtual.has_no_gap chain.now (map cell_of cells.now) }
{
    match tail(chain, cells) {
        Some(tail) => has_entries_below(chain, cells, tail),
        None => unreachable!(),
    }
}

/// The log that these loglets show reaches so far.
pub fn end_is_within(chain: &Chain, cells: &[CellShown], end: u64) -> bool
    ensures { result ≡ nat_le end (virtual.virtual_tail chain.now (map cell_of cells.now)) }
{
    match tail(chain, cells) {
        Some(tail) => end <= tail,
        None => true,
    }
}

fn push_copy(log: &mut Vec<Entry>, entry: Option<&Entry>) -> Result<(), AllocError>
    ensures { OnOk result (log.new.items ≡ log.old.items ++ option_to_list (option_copied entry.entry)) }
{
    if let Some(entry) = entry {
        log.push(entry.clone()?)?;
    }
    Ok(())
}

/// The entries of the log from one position up to another, in order.
pub fn virtual_log(
    alloc: Global,
    chain: &Chain,
    cells: &[CellShown],
    from: u64,
    end: u64,
) -> Result<Vec<Entry>, AllocError>
    ensures { IfOk result (λ log. log.items ≡ virtual.virtual_log chain.now (map cell_of cells.now) from end) }
{
    let mut log = Vec::new(alloc);
    for pos in from..end {
        push_copy(&mut log, entry_in(cells, chain.segments.as_slice(), pos))?;
    }
    Ok(log)
}
