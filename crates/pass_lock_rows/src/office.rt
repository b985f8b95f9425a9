//! Clerks in threads, from the empty journal to the last.
ghost use Rattle.std.specs.Prelude.{◌≡◌, ◌-◌, ℕ, ◌<◌, ◌≤◌, [], length, vec_capacity, IfSome, All};
ghost use Rattle.pass_lock.specs.Pass.{whole, numbered, all_parts};
ghost use Rattle.pass_lock_rows.specs.Turns.{Worked, IsDone};
ghost use Rattle.pass_lock_rows.specs.Office.{AllFresh, AllWorked, AllEnded};

use crate::clerk::Clerk;
use crate::desk::{Desk, Event, Stamp};
use pass_lock::{Pass, Shared};
use std::alloc::Global;
use std::sync::Wait;
use std::thread;
use std::thread::Threads;

// A clerk for each of the parts below `count`, which are cut off the first pass.
fn hire<'a, T: Stamp, R: Wait>(
    rt: &'a R,
    lock: &'a Shared<Desk<T>>,
    main: &mut Pass<Desk<T>>,
    clerks: &mut Vec<Clerk<'a, T, R>>,
    count: u16,
)
    requires whole { main.old ≡ whole lock.now }
    requires empty { clerks.old.items ≡ [] }
    requires room { count ≤ vec_capacity clerks.old }
    ensures main { main.new ≡ record main.old { parts = numbered count (all_parts - count) } }
    ensures count { length clerks.new.items ≡ count }
    ensures fresh { AllFresh lock.now clerks.new.items }
{
    for k in 0..count {
        let pass = lock.split(main, 1);
        clerks.push_reserved(Clerk::new(rt, lock, pass, u64::from(k)));
    }
}

// Each clerk works in a thread of its own.
fn work_all<'a, T: Stamp + Send, R: Threads + Wait + Sync>(
    rt: &R,
    clerks: &mut [Clerk<'a, T, R>],
    turns: u64,
)
    ensures { AllWorked turns clerks.old clerks.new }
{
    let threads = clerks.len().max(1);
    thread::for_each_mut(
        rt,
        clerks,
        threads,
        &|_, clerk: &mut Clerk<T, R>|
            ensures { Worked turns clerk.entry.now clerk.exit.now }
        { clerk.work(turns) },
    );
}

// Clerks with the parts below `count` work beside each other, and the first pass takes in what they have, the last one's first.
fn run_clerks<'a, T: Stamp + Send, R: Threads + Wait + Sync>(
    rt: &'a R,
    lock: &'a Shared<Desk<T>>,
    main: &mut Pass<Desk<T>>,
    mut clerks: Vec<Clerk<'a, T, R>>,
    count: u16,
    turns: u64,
)
    requires whole { main.old ≡ whole lock.now }
    requires empty { clerks.items ≡ [] }
    requires room { count ≤ vec_capacity clerks }
    ensures { AllEnded lock.now count turns main.new }
{
    hire(rt, lock, main, &mut clerks, count);
    work_all(rt, clerks.as_mut_slice(), turns);
    while let Some(clerk) = clerks.pop() {
        lock.join(main, clerk.into_pass());
    }
    clerks.destroy_empty();
}

/// Clerks 0, 1, .. below `count` each file the events 0, 1, .. below `turns`, each clerk in a thread of its own.
/// It gives the stamp and the events. A clerk that finds no memory for an event stops before it.
///
/// `None` comes only where there is no memory for the lock or the clerks.
pub fn run<T: Stamp + Send, R: Threads + Wait + Sync>(
    rt: &R,
    alloc: Global,
    stamp: T,
    count: u16,
    turns: u64,
) -> Option<(T, Vec<Event>)>
    ensures done { IfSome result (λ r. (who : ℕ) → who < count → IsDone turns who r.1.items) }
    ensures nobody_else { IfSome result (λ r. All (λ e. e.who < count) r.1.items) }
{
    let (lock, mut main) = Shared::new(alloc, Desk::new(alloc, stamp)).ok()?;
    let Ok(clerks) = Vec::with_capacity(alloc, usize::from(count)) else {
        drop(lock.close(main));
        return None;
    };
    run_clerks(rt, &lock, &mut main, clerks, count, turns);
    Some(lock.close(main).into_parts())
}

/// The same over a boxed stamp, which goes through the lock and the threads with the desk.
pub fn run_boxed<R: Threads + Wait + Sync>(
    rt: &R,
    alloc: Global,
    stamp: Box<dyn Stamp + Send>,
    count: u16,
    turns: u64,
) -> Option<(Box<dyn Stamp + Send>, Vec<Event>)>
    ensures done { IfSome result (λ r. (who : ℕ) → who < count → IsDone turns who r.1.items) }
    ensures nobody_else { IfSome result (λ r. All (λ e. e.who < count) r.1.items) }
{
    run(rt, alloc, stamp, count, turns)
}
