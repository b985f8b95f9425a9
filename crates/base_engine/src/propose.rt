//! Items go down through the engines, and the entries that come out become outstanding.
ghost use Rattle.std.specs.Prelude.{◌≡◌, ◌≢◌, ◌<◌, ◌≤◌, ◌+◌, ◌↔◌, true, [], ◌∷◌, ◌++◌, All, length, IfOk, IfErr, OnOk, OnErr, vec_len, vec_capacity};
ghost use Rattle.disk_model.specs.Crash.{AnyCrash};
ghost use Rattle.engine_api.specs.Packing.{IsProposable, packed};
ghost use Rattle.engine_steps.specs.Layout as layout;
ghost use Rattle.legal_journal.specs.Journal.{IsLegal};
ghost use Rattle.virtual_log.specs.Turning.{Later};
ghost use Rattle.base_engine.specs.Causes.{Blames};
ghost use Rattle.base_engine.specs.Arming.{LeavesArming, FailsOnce, RecoversOnce, StoreTwice};
ghost use Rattle.base_engine.specs.Following.{Follows, IsKnown, IsFound};
ghost use Rattle.replica_api.specs.Replica.{SpellsOne, Queues, Flushes};
ghost use Rattle.base_engine.specs.Settling.{view_of, Settled, MaySend};
ghost use Rattle.base_engine.specs.Proposing.{Sent, Proposed, Refused, CaughtUp, GaveUp, Readied, IsNearBy, IsNear};

use crate::fault::Fault;
use crate::outbox::{Given, Outbox, SessionList};
use crate::play::sync;
use crate::settle::{carry_all, carry_oldest};
use crate::shared_log::SharedLog;
use delos_types::item::Item;
use delos_types::numbers::{Rank, SessionId};
use engine_steps::words::session_word;
use replica_api::replica::Replica;
use std::alloc::{AllocError, Global};

/// So many entries at most are outstanding.
const MOST: usize = 4;

/// Where 4 entries are outstanding, the oldest is carried to its end.
fn leave_three<L: SharedLog>(
    alloc: Global,
    log: &mut L,
    outbox: &mut Outbox,
) -> Result<(), AllocError>
    requires legal { IsLegal L.Law.law (L.seen log.old) }
    requires may { All (λ e. MaySend L.Law.law.may (L.who log.old) e) outbox.old.entries.items }
    requires few { length outbox.old.entries.items ≤ 4 }
    ensures later { Later L.Law.law (L.seen log.old) (L.seen log.new) }
    ensures who { L.who log.new ≡ L.who log.old }
    ensures known { L.reaches log.old ≤ L.reaches log.new }
    ensures settled { Settled L.holds (L.who log.old) (L.seen log.old) (view_of outbox.old) (L.seen log.new) (view_of outbox.new) }
    ensures may { All (λ e. MaySend L.Law.law.may (L.who log.new) e) outbox.new.entries.items }
    ensures few { length outbox.new.entries.items ≤ 4 }
    ensures room { OnOk result (length outbox.new.entries.items ≤ 3) }
{
    if outbox.entries.len() < MOST {
        return Ok(());
    }
    match carry_oldest(alloc, log, outbox) {
        Ok(()) => Ok(()),
        Err(fault) => Err(fault),
    }
}

/// Makes room for one more outstanding entry.
fn make_room<L: SharedLog>(
    alloc: Global,
    log: &mut L,
    outbox: &mut Outbox,
) -> Result<(), AllocError>
    requires legal { IsLegal L.Law.law (L.seen log.old) }
    requires may { All (λ e. MaySend L.Law.law.may (L.who log.old) e) outbox.old.entries.items }
    requires few { length outbox.old.entries.items ≤ 4 }
    ensures later { Later L.Law.law (L.seen log.old) (L.seen log.new) }
    ensures who { L.who log.new ≡ L.who log.old }
    ensures known { L.reaches log.old ≤ L.reaches log.new }
    ensures settled { Settled L.holds (L.who log.old) (L.seen log.old) (view_of outbox.old) (L.seen log.new) (view_of outbox.new) }
    ensures may { All (λ e. MaySend L.Law.law.may (L.who log.new) e) outbox.new.entries.items }
    ensures few { length outbox.new.entries.items ≤ 4 }
    ensures room { OnOk result (length outbox.new.entries.items ≤ 3) }
    ensures space { OnOk result (vec_len outbox.new.entries < vec_capacity outbox.new.entries) }
{
    leave_three(alloc, log, outbox)?;
    outbox.entries.reserve(1)?;
    Ok(())
}

/// An item goes down; where it is packed with 15 others, their entry is outstanding.
///
/// Cost: that of the item; with each sixteenth item that of their entry, and with a fifth entry an append.
fn send<L: SharedLog, R: Replica>(
    alloc: Global,
    log: &mut L,
    replica: &mut R,
    outbox: &mut Outbox,
    item: Item,
) -> Result<(), AllocError>
    requires legal { IsLegal L.Law.law (L.seen log.old) }
    requires may { All (λ e. MaySend L.Law.law.may (L.who log.old) e) outbox.old.entries.items }
    requires few { length outbox.old.entries.items ≤ 4 }
    requires item { IsProposable item }
    requires own { L.Law.law.may (L.who log.old) (packed (R.shows replica.old).origin ((R.shows replica.old).kept ++ item ∷ [])) }
    ensures later { Later L.Law.law (L.seen log.old) (L.seen log.new) }
    ensures who { L.who log.new ≡ L.who log.old }
    ensures known { L.reaches log.old ≤ L.reaches log.new }
    ensures sent { OnOk result (Sent L.holds (L.who log.old) (L.seen log.old) (view_of outbox.old) (λ packed. Queues (R.shows replica.old).origin (R.shows replica.old).kept item packed (R.shows replica.new).kept) (L.seen log.new) (view_of outbox.new)) }
    ensures rest { R.shows replica.new ≡ record (R.shows replica.old) { kept = (R.shows replica.new).kept } }
    ensures unsent { OnErr result (Settled L.holds (L.who log.old) (L.seen log.old) (view_of outbox.old) (L.seen log.new) (view_of outbox.new)) }
    ensures same { OnErr result (R.shows replica.new ≡ R.shows replica.old) }
    ensures may { All (λ e. MaySend L.Law.law.may (L.who log.new) e) outbox.new.entries.items }
    ensures few { length outbox.new.entries.items ≤ 4 }
{
    make_room(alloc, log, outbox)?;
    let Some(entry) = replica.send(item)? else {
        return Ok(());
    };
    let Ok(()) = outbox.entries.push(entry) else {
        unreachable!()
    };
    Ok(())
}

/// What waits is packed, and is outstanding then.
pub fn flush<L: SharedLog, R: Replica>(
    alloc: Global,
    log: &mut L,
    replica: &mut R,
    outbox: &mut Outbox,
) -> Result<(), AllocError>
    requires legal { IsLegal L.Law.law (L.seen log.old) }
    requires may { All (λ e. MaySend L.Law.law.may (L.who log.old) e) outbox.old.entries.items }
    requires few { length outbox.old.entries.items ≤ 4 }
    requires own { (R.shows replica.old).kept ≢ [] → L.Law.law.may (L.who log.old) (packed (R.shows replica.old).origin (R.shows replica.old).kept) }
    ensures later { Later L.Law.law (L.seen log.old) (L.seen log.new) }
    ensures who { L.who log.new ≡ L.who log.old }
    ensures known { L.reaches log.old ≤ L.reaches log.new }
    ensures sent { OnOk result (Sent L.holds (L.who log.old) (L.seen log.old) (view_of outbox.old) (λ packed. Flushes (R.shows replica.old).origin (R.shows replica.old).kept packed (R.shows replica.new).kept) (L.seen log.new) (view_of outbox.new)) }
    ensures rest { R.shows replica.new ≡ record (R.shows replica.old) { kept = (R.shows replica.new).kept } }
    ensures unsent { OnErr result (Settled L.holds (L.who log.old) (L.seen log.old) (view_of outbox.old) (L.seen log.new) (view_of outbox.new)) }
    ensures waiting { (R.shows replica.new).kept ≢ [] → L.Law.law.may (L.who log.old) (packed (R.shows replica.old).origin (R.shows replica.new).kept) }
    ensures same { OnErr result (R.shows replica.new ≡ R.shows replica.old) }
    ensures may { All (λ e. MaySend L.Law.law.may (L.who log.new) e) outbox.new.entries.items }
    ensures few { length outbox.new.entries.items ≤ 4 }
{
    match make_room(alloc, log, outbox) {
        Ok(()) => {}
        Err(fault) => return Err(fault),
    }
    let packed = match replica.flush() {
        Ok(packed) => packed,
        Err(fault) => return Err(fault),
    };
    let Some(entry) = packed else {
        return Ok(());
    };
    let Ok(()) = outbox.entries.push(entry) else {
        unreachable!()
    };
    Ok(())
}

/// Whether a rank is at most 64 above the last of its session that acted.
fn is_near<R: Replica>(replica: &R, session: SessionId, rank: Rank) -> Result<bool, AllocError>
    ensures { IfOk result (IsNearBy (R.shows replica.now).contents session rank) }
{
    let last = replica.last_rank(session)?;
    Ok(rank.number().saturating_sub(64) <= last)
}

fn only(alloc: Global, session: SessionId) -> Result<SessionList, AllocError>
    ensures { IfOk result (λ sessions. sessions ≡ session ∷ []) }
{
    let mut sessions = SessionList::new(alloc);
    sessions.push(session)?;
    Ok(sessions)
}

/// Carries all that is outstanding to its end, and plays up to a tail. Where that fails, the session is given the cause.
fn catch_up<L: SharedLog, R: Replica>(
    alloc: Global,
    log: &mut L,
    replica: &mut R,
    outbox: &mut Outbox,
    session: SessionId,
) -> Result<(), Fault>
    requires legal { IsLegal L.Law.law (L.seen log.old) }
    requires may { All (λ e. MaySend L.Law.law.may (L.who log.old) e) outbox.old.entries.items }
    requires few { length outbox.old.entries.items ≤ 4 }
    requires follows { Follows L.holds R.meaning (L.seen log.old) (R.shows replica.old) }
    requires bounded { IsKnown (L.reaches log.old) (R.shows replica.old) }
    ensures later { Later L.Law.law (L.seen log.old) (L.seen log.new) }
    ensures who { L.who log.new ≡ L.who log.old }
    ensures known { L.reaches log.old ≤ L.reaches log.new }
    ensures may { All (λ e. MaySend L.Law.law.may (L.who log.new) e) outbox.new.entries.items }
    ensures few { length outbox.new.entries.items ≤ 4 }
    ensures follows { Follows L.holds R.meaning (L.seen log.new) (R.shows replica.new) }
    ensures bounded { IsKnown (L.reaches log.new) (R.shows replica.new) }
    ensures forward { (R.shows replica.old).cursor ≤ (R.shows replica.new).cursor }
    ensures counts { (R.shows replica.old).faults ≤ (R.shows replica.new).faults }
    ensures origin { (R.shows replica.new).origin ≡ (R.shows replica.old).origin }
    ensures any_crash { AnyCrash (R.shows replica.old).disk (R.shows replica.new).disk (SpellsOne R.meaning.spells (IsFound L.holds R.meaning.state (L.seen log.new) (R.shows replica.old).cursor)) }
    ensures blames { IfErr result (λ f. Blames (L.who log.old) (L.seen log.old) (R.shows replica.old).faults f (L.seen log.new) (R.shows replica.new).faults) }
    ensures caught { OnOk result (CaughtUp L.holds (L.who log.old) (L.seen log.old) (view_of outbox.old) (L.seen log.new) (view_of outbox.new) (R.shows replica.new)) }
    ensures gave_up { IfErr result (λ f. GaveUp L.holds (L.who log.old) (L.seen log.old) (view_of outbox.old) session f (L.seen log.new) (view_of outbox.new)) }
    ensures kept { (R.shows replica.new).kept ≡ (R.shows replica.old).kept }
    ensures arming { LeavesArming 0 (R.shows replica.old) (R.shows replica.new) }
    ensures twice { IfErr result (λ f. StoreTwice (R.shows replica.old) f (R.shows replica.new)) }
    ensures once { OnOk result (FailsOnce (R.shows replica.old) (R.shows replica.new)) }
    ensures once_refused { IfErr result (λ f. RecoversOnce (R.shows replica.old) f (R.shows replica.new)) }
{
    carry_all(alloc, log, outbox)?;
    let sessions = only(alloc, session)?;
    outbox.given.reserve(1)?;
    match sync(log, replica) {
        Ok(_) => return Ok(()),
        Err(fault) => match fault {
            Fault::Memory => return Err(Fault::Memory),
            Fault::Because(cause) => {
                let Ok(()) = outbox.given.push(Given { sessions, cause }) else {
                    unreachable!()
                };
                return Err(Fault::Because(cause));
            }
        },
    }
}

/// Whether an item may go down. Where its rank is more than 64 above the last that acted, the node catches up first.
fn is_ready<L: SharedLog, R: Replica>(
    alloc: Global,
    log: &mut L,
    replica: &mut R,
    outbox: &mut Outbox,
    item: &Item,
) -> Result<bool, Fault>
    requires legal { IsLegal L.Law.law (L.seen log.old) }
    requires may { All (λ e. MaySend L.Law.law.may (L.who log.old) e) outbox.old.entries.items }
    requires few { length outbox.old.entries.items ≤ 4 }
    requires follows { Follows L.holds R.meaning (L.seen log.old) (R.shows replica.old) }
    requires bounded { IsKnown (L.reaches log.old) (R.shows replica.old) }
    ensures later { Later L.Law.law (L.seen log.old) (L.seen log.new) }
    ensures who { L.who log.new ≡ L.who log.old }
    ensures known { L.reaches log.old ≤ L.reaches log.new }
    ensures may { All (λ e. MaySend L.Law.law.may (L.who log.new) e) outbox.new.entries.items }
    ensures few { length outbox.new.entries.items ≤ 4 }
    ensures follows { Follows L.holds R.meaning (L.seen log.new) (R.shows replica.new) }
    ensures bounded { IsKnown (L.reaches log.new) (R.shows replica.new) }
    ensures forward { (R.shows replica.old).cursor ≤ (R.shows replica.new).cursor }
    ensures counts { (R.shows replica.old).faults ≤ (R.shows replica.new).faults }
    ensures origin { (R.shows replica.new).origin ≡ (R.shows replica.old).origin }
    ensures any_crash { AnyCrash (R.shows replica.old).disk (R.shows replica.new).disk (SpellsOne R.meaning.spells (IsFound L.holds R.meaning.state (L.seen log.new) (R.shows replica.old).cursor)) }
    ensures blames { IfErr result (λ f. Blames (L.who log.old) (L.seen log.old) (R.shows replica.old).faults f (L.seen log.new) (R.shows replica.new).faults) }
    ensures near { IsNear (R.shows replica.old).contents item.now → IfOk result (λ ready. ready ≡ true) × IfErr result (λ f. f ≡ Fault.Memory) × (L.seen log.new ≡ L.seen log.old) × (view_of outbox.new ≡ view_of outbox.old) × (R.shows replica.new ≡ R.shows replica.old) }
    ensures ready { IfOk result (λ ready. Readied L.holds (L.who log.old) (L.seen log.old) (view_of outbox.old) item.now ready (L.seen log.new) (view_of outbox.new) (R.shows replica.new)) }
    ensures refused { IfErr result (λ f. Refused L.holds (L.who log.old) (L.seen log.old) (view_of outbox.old) item.now f (L.seen log.new) (view_of outbox.new)) }
    ensures kept { (R.shows replica.new).kept ≡ (R.shows replica.old).kept }
    ensures arming { LeavesArming 0 (R.shows replica.old) (R.shows replica.new) }
    ensures twice { IfErr result (λ f. StoreTwice (R.shows replica.old) f (R.shows replica.new)) }
    ensures once { OnOk result (FailsOnce (R.shows replica.old) (R.shows replica.new)) }
    ensures once_refused { IfErr result (λ f. RecoversOnce (R.shows replica.old) f (R.shows replica.new)) }
{
    let Some(word) = session_word(item) else {
        return Ok(true);
    };
    let near = match is_near(replica, word.0, word.1) {
        Ok(near) => near,
        Err(_) => return Err(Fault::Memory),
    };
    if near {
        return Ok(true);
    }
    match catch_up(alloc, log, replica, outbox, word.0) {
        Ok(()) => {}
        Err(fault) => return Err(fault),
    }
    match is_near(replica, word.0, word.1) {
        Ok(again) => Ok(again),
        Err(_) => Err(Fault::Memory),
    }
}

/// Proposes an item: it goes down, where its rank isn't more than 64 above the last of its session that acted. Where it
/// is, all that is outstanding is carried to its end and played first; where it still is, the item is left out.
///
/// Cost: that of the item; with each sixteenth item that of their entry, and with a fifth entry an append.
pub fn propose<L: SharedLog, R: Replica>(
    alloc: Global,
    log: &mut L,
    replica: &mut R,
    outbox: &mut Outbox,
    item: Item,
) -> Result<(), Fault>
    requires legal { IsLegal L.Law.law (L.seen log.old) }
    requires may { All (λ e. MaySend L.Law.law.may (L.who log.old) e) outbox.old.entries.items }
    requires few { length outbox.old.entries.items ≤ 4 }
    requires follows { Follows L.holds R.meaning (L.seen log.old) (R.shows replica.old) }
    requires bounded { IsKnown (L.reaches log.old) (R.shows replica.old) }
    requires item { IsProposable item }
    requires own { L.Law.law.may (L.who log.old) (packed (R.shows replica.old).origin ((R.shows replica.old).kept ++ item ∷ [])) }
    requires waits { (R.shows replica.old).kept ≢ [] → L.Law.law.may (L.who log.old) (packed (R.shows replica.old).origin (R.shows replica.old).kept) }
    ensures later { Later L.Law.law (L.seen log.old) (L.seen log.new) }
    ensures who { L.who log.new ≡ L.who log.old }
    ensures known { L.reaches log.old ≤ L.reaches log.new }
    ensures may { All (λ e. MaySend L.Law.law.may (L.who log.new) e) outbox.new.entries.items }
    ensures few { length outbox.new.entries.items ≤ 4 }
    ensures follows { Follows L.holds R.meaning (L.seen log.new) (R.shows replica.new) }
    ensures bounded { IsKnown (L.reaches log.new) (R.shows replica.new) }
    ensures forward { (R.shows replica.old).cursor ≤ (R.shows replica.new).cursor }
    ensures counts { (R.shows replica.old).faults ≤ (R.shows replica.new).faults }
    ensures origin { (R.shows replica.new).origin ≡ (R.shows replica.old).origin }
    ensures any_crash { AnyCrash (R.shows replica.old).disk (R.shows replica.new).disk (SpellsOne R.meaning.spells (IsFound L.holds R.meaning.state (L.seen log.new) (R.shows replica.old).cursor)) }
    ensures blames { IfErr result (λ f. Blames (L.who log.old) (L.seen log.old) (R.shows replica.old).faults f (L.seen log.new) (R.shows replica.new).faults) }
    ensures proposed { OnOk result (Proposed L.holds (L.who log.old) (L.seen log.old) (view_of outbox.old) (R.shows replica.old) item (L.seen log.new) (view_of outbox.new) (R.shows replica.new)) }
    ensures refused { IfErr result (λ f. Refused L.holds (L.who log.old) (L.seen log.old) (view_of outbox.old) item f (L.seen log.new) (view_of outbox.new)) }

    // An item that is near as it is proposed goes down, and nothing is played.
    ensures near { IsNear (R.shows replica.old).contents item → OnOk result (Sent L.holds (L.who log.old) (L.seen log.old) (view_of outbox.old) (λ packed. Queues (R.shows replica.old).origin (R.shows replica.old).kept item packed (R.shows replica.new).kept) (L.seen log.new) (view_of outbox.new)) × IfErr result (λ f. f ≡ Fault.Memory) × (R.shows replica.new ≡ record (R.shows replica.old) { kept = (R.shows replica.new).kept }) }
    ensures waiting { (R.shows replica.new).kept ≢ [] → L.Law.law.may (L.who log.old) (packed (R.shows replica.old).origin (R.shows replica.new).kept) }
    ensures same { OnErr result ((R.shows replica.new).kept ≡ (R.shows replica.old).kept) }
    ensures arming { LeavesArming 0 (R.shows replica.old) (R.shows replica.new) }
    ensures twice { IfErr result (λ f. StoreTwice (R.shows replica.old) f (R.shows replica.new)) }
    ensures once { OnOk result (FailsOnce (R.shows replica.old) (R.shows replica.new)) }
    ensures once_refused { IfErr result (λ f. RecoversOnce (R.shows replica.old) f (R.shows replica.new)) }
{
    let ready = match is_ready(alloc, log, replica, outbox, &item) {
        Ok(ready) => ready,
        Err(fault) => return Err(fault),
    };
    if !ready {
        return Ok(());
    }
    match send(alloc, log, replica, outbox, item) {
        Ok(()) => Ok(()),
        Err(_) => Err(Fault::Memory),
    }
}
