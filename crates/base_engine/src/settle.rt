//! Outstanding entries are carried to their end, one after another.
ghost use Rattle.std.specs.Prelude.{◌≡◌, ℕ, ◌<◌, ◌≤◌, ◌+◌, [], ◌++◌, All, length, drop, None, IfErr, OnOk, OnErr, vec_len, vec_capacity};
ghost use Rattle.delos_types.specs.declared.cause.Cause.{Cause};
ghost use Rattle.legal_journal.specs.Journal.{IsLegal};
ghost use Rattle.virtual_log.specs.Turning.{Later};
ghost use Rattle.base_engine.specs.Settling.{view_of, Carried, Settled, Lands, LandsOldest, Begins, BeginsEachOnce, MaySend, Lost, first_of, given_to, Answers, Failing};

use crate::fault::{Fault, told};
use crate::outbox::{Given, Outbox, SessionList};
use crate::sessions::sessions_of;
use crate::shared_log::SharedLog;
use delos_types::cause::Cause;
use std::alloc::{AllocError, Global};

/// Carries the oldest outstanding entry to its end. Without memory it is outstanding still.
pub fn carry_oldest<L: SharedLog>(
    alloc: Global,
    log: &mut L,
    outbox: &mut Outbox,
) -> Result<(), AllocError>
    requires legal { IsLegal L.Law.law (L.seen log.old) }
    requires some { 0 < length outbox.old.entries.items }
    requires may { All (λ e. MaySend L.Law.law.may (L.who log.old) e) outbox.old.entries.items }
    ensures later { Later L.Law.law (L.seen log.old) (L.seen log.new) }
    ensures who { L.who log.new ≡ L.who log.old }
    ensures known { L.reaches log.old ≤ L.reaches log.new }
    ensures carried { OnOk result (Carried L.holds (L.who log.old) (L.seen log.old) (view_of outbox.old) (L.seen log.new) (view_of outbox.new)) }
    ensures landed { OnOk result (outbox.new.unsettled ≡ None → LandsOldest L.holds (L.who log.old) (L.seen log.old) outbox.old.entries.items (L.seen log.new) outbox.new.entries.items (L.reaches log.new)) }
    ensures once { (n : ℕ) × (n ≤ 1) × Begins (L.who log.old) n (L.seen log.old) (L.seen log.new) }
    ensures begun { OnOk result (outbox.new.unsettled ≡ None → Begins (L.who log.old) 1 (L.seen log.old) (L.seen log.new)) }
    ensures same { OnErr result (view_of outbox.new ≡ view_of outbox.old) }
    ensures may { All (λ e. MaySend L.Law.law.may (L.who log.new) e) outbox.new.entries.items }
{
    let sessions = sessions_of(alloc, &outbox.entries[0])?;
    outbox.given.reserve(1)?;
    match log.append(&outbox.entries[0]) {
        Ok(_) => {
            let _landed = outbox.entries.remove(0);
            Ok(())
        }
        Err(fault) => match told(fault) {
            Fault::Memory => Err(AllocError),
            Fault::Because(cause) => {
                lose(outbox, sessions, cause);
                Ok(())
            }
        },
    }
}

// The oldest entry failed for this cause.
fn lose(outbox: &mut Outbox, sessions: SessionList, cause: Cause)
    requires some { 0 < length outbox.old.entries.items }
    requires room { vec_len outbox.old.given < vec_capacity outbox.old.given }
    ensures entries { outbox.new.entries.items ≡ drop 1 outbox.old.entries.items }
    ensures given { outbox.new.given.items ≡ outbox.old.given.items ++ given_to sessions cause }
    ensures unsettled { outbox.new.unsettled ≡ first_of outbox.old.unsettled (Lost cause) }
{
    let _lost = outbox.entries.remove(0);
    give(&mut outbox.given, sessions, cause);
    if outbox.unsettled.is_none() {
        outbox.unsettled = Some(cause);
    }
}

// These sessions are given the cause. An entry of no session gives its cause to nobody.
fn give(given: &mut Vec<Given>, sessions: SessionList, cause: Cause)
    requires room { vec_len given.old < vec_capacity given.old }
    ensures given { given.new.items ≡ given.old.items ++ given_to sessions cause }
{
    if sessions.as_slice().is_empty() {
        return;
    }
    let Ok(()) = given.push(Given { sessions, cause }) else {
        unreachable!()
    };
}

/// Carries all outstanding entries to their end. Without memory the rest are outstanding still.
pub fn carry_all<L: SharedLog>(
    alloc: Global,
    log: &mut L,
    outbox: &mut Outbox,
) -> Result<(), AllocError>
    requires may { All (λ e. MaySend L.Law.law.may (L.who log.old) e) outbox.old.entries.items }
    requires legal { IsLegal L.Law.law (L.seen log.old) }
    ensures later { Later L.Law.law (L.seen log.old) (L.seen log.new) }
    ensures who { L.who log.new ≡ L.who log.old }
    ensures known { L.reaches log.old ≤ L.reaches log.new }
    ensures settled { Settled L.holds (L.who log.old) (L.seen log.old) (view_of outbox.old) (L.seen log.new) (view_of outbox.new) }
    ensures landed { OnOk result (outbox.new.unsettled ≡ None → Lands L.holds (L.who log.old) (L.seen log.old) outbox.old.entries.items (L.seen log.new) (L.reaches log.new)) }
    ensures once { BeginsEachOnce (L.who log.old) (L.seen log.old) outbox.old.entries.items (L.seen log.new) }
    ensures begun { OnOk result (outbox.new.unsettled ≡ None → Begins (L.who log.old) (length outbox.old.entries.items) (L.seen log.old) (L.seen log.new)) }
    ensures none { OnOk result (outbox.new.entries.items ≡ []) }
    ensures may { All (λ e. MaySend L.Law.law.may (L.who log.new) e) outbox.new.entries.items }
{
    'entry: while !outbox.entries.is_empty() {
        carry_oldest(alloc, log, outbox)?;
    }
    Ok(())
}

/// Carries all outstanding entries to their end, and answers the first cause since the last settling.
pub fn settle_all<L: SharedLog>(
    alloc: Global,
    log: &mut L,
    outbox: &mut Outbox,
) -> Result<(), Fault>
    requires may { All (λ e. MaySend L.Law.law.may (L.who log.old) e) outbox.old.entries.items }
    requires few { length outbox.old.entries.items ≤ 4 }
    requires legal { IsLegal L.Law.law (L.seen log.old) }
    ensures later { Later L.Law.law (L.seen log.old) (L.seen log.new) }
    ensures who { L.who log.new ≡ L.who log.old }
    ensures known { L.reaches log.old ≤ L.reaches log.new }
    ensures calm { OnOk result (Answers L.holds (L.who log.old) (L.seen log.old) (view_of outbox.old) None (L.seen log.new) (view_of outbox.new)) }
    ensures landed { OnOk result (Lands L.holds (L.who log.old) (L.seen log.old) outbox.old.entries.items (L.seen log.new) (L.reaches log.new)) }
    ensures once { BeginsEachOnce (L.who log.old) (L.seen log.old) outbox.old.entries.items (L.seen log.new) }
    ensures begun { OnOk result (Begins (L.who log.old) (length outbox.old.entries.items) (L.seen log.old) (L.seen log.new)) }
    ensures failing { IfErr result (λ f. Failing L.holds (L.who log.old) (L.seen log.old) (view_of outbox.old) f (L.seen log.new) (view_of outbox.new)) }
    ensures may { All (λ e. MaySend L.Law.law.may (L.who log.new) e) outbox.new.entries.items }
    ensures few { length outbox.new.entries.items ≤ 4 }
{
    match carry_all(alloc, log, outbox) {
        Ok(()) => {}
        Err(_) => return Err(Fault::Memory),
    }
    let Some(cause) = outbox.unsettled else {
        return Ok(());
    };
    outbox.unsettled = None;
    Err(Fault::Because(cause))
}
