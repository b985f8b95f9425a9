//! Turns of the pass lock.
use pass_lock_rows::{Counting, run as run_clerks};
use std::alloc::Global;
use std::sync::Wait;
use std::thread::Threads;

/// Each of so many clerks in threads files so many events at one desk, one in a turn. Counts the events of the journal then. None is
/// want of memory.
pub(crate) fn run<W: Threads + Wait + Sync>(
    rt: &W,
    alloc: Global,
    threads: u32,
    turns: u32,
) -> Option<u64> {
    let threads = threads.min(u32::from(u16::MAX)) as u16;
    let (_stamp, events) = run_clerks(rt, alloc, Counting { count: 0 }, threads, u64::from(turns))?;
    Some(events.len() as u64)
}
