//! Clerks in threads: what they came to, in whatever order they ran.
use anyhow::{Context, Result, bail};
use pass_lock_rows::{Counting, Event, Stamp, run, run_boxed};
use std::alloc::Global;
use std::sync::Wait;
use std::thread::Threads;

/// How many events each clerk files.
const TURNS: u64 = 10_000;

/// A row for each, with what it came to.
pub fn rows<W: Threads + Wait + Sync>(rt: &W, alloc: Global) -> Result<String> {
    let two = clerks(rt, alloc, 2)?;
    let eight = boxed_clerks(rt, alloc, 8)?;
    Ok(format!(in alloc; "2 clerks: {two}\n8 clerks, over a boxed stamp: {eight}\n")?)
}

/// So many clerks file their events.
fn clerks<W: Threads + Wait + Sync>(rt: &W, alloc: Global, count: u16) -> Result<String> {
    let stamp = Counting { count: 0 };
    let (stamp, events) = run(rt, alloc, stamp, count, TURNS).context("no clerks")?;
    filed(alloc, stamp.pressed(), events.as_slice(), count)
}

/// The same over a boxed stamp.
fn boxed_clerks<W: Threads + Wait + Sync>(rt: &W, alloc: Global, count: u16) -> Result<String> {
    let stamp: Box<dyn Stamp + Send> = Box::new(alloc, Counting { count: 0 })?;
    let (stamp, events) = run_boxed(rt, alloc, stamp, count, TURNS).context("no clerks")?;
    filed(alloc, stamp.pressed(), events.as_slice(), count)
}

/// How often the stamp was pressed, and how many clerks have each of their events in the journal, once and in order.
fn filed(alloc: Global, pressed: u64, events: &[Event], count: u16) -> Result<String> {
    let mut next = vec![in alloc; 0u64; usize::from(count)]?;
    for event in events {
        let who = usize::try_from(event.who).unwrap_or(usize::MAX);
        let expected = next.get_mut(who).context("an event of nobody")?;
        if *expected != event.n {
            bail!("event {} of clerk {} is out of order", event.n, event.who);
        }
        *expected = expected.saturating_add(1);
    }
    let whole = next.iter().filter(|n| **n == TURNS).count();
    Ok(format!(in alloc; "stamped {pressed}, whole {whole}")?)
}
