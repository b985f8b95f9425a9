//! The log goes on in its next loglet, and is trimmed up to where no member needs it.
ghost use Rattle.std.specs.Prelude.{◌≡◌, ◌≢◌, ◌⊎◌, ◌<◌, ◌≤◌, ◌^◌, ℕ, List, [], ◌∷◌, ◌++◌, None, All, length, min, unwrap_or, IfOk, IfErr, OnOk};
ghost use Rattle.std.specs.Option.{option_map};
ghost use Rattle.delos_types.specs.declared.entry.Entry.{Entry};
ghost use Rattle.disk_model.specs.Crash.{AnyCrash};
ghost use Rattle.engine_api.specs.Packing.{IsProposable, packed, trim_item};
ghost use Rattle.engine_steps.specs.Words.{under};
ghost use Rattle.legal_journal.specs.Journal.{IsLegal};
ghost use Rattle.virtual_log.specs.Truncating.{IsPrefixTrimmed};
ghost use Rattle.virtual_log.specs.Turning.{Later};
ghost use Rattle.virtual_log.specs.Sealing.{SealsLast};
ghost use Rattle.replica_api.specs.Replica.{SpellsOne};
ghost use Rattle.base_engine.specs.Causes.{Blames};
ghost use Rattle.base_engine.specs.Arming.{LeavesArming, StoreTwice};
ghost use Rattle.base_engine.specs.Reading.{IsFront, IsExtendedBy};
ghost use Rattle.base_engine.specs.Following.{Follows, IsKnown, IsFound};
ghost use Rattle.base_engine.specs.Settling.{view_of, MaySend};
ghost use Rattle.base_engine.specs.Trimming.{least_of, trim_to, IsFloor, ShowsAll, IsLeastAtTail, HasLanded, TrimsBelow, Trims, GoesThrough, Unpushed, AsksThrough, Untrimmed, IsEarlier};

use crate::fault::{Fault, told};
use crate::outbox::Outbox;
use crate::play::{play, sync};
use crate::propose::{flush, propose};
use crate::settle::settle_all;
use crate::shared_log::SharedLog;
use delos_types::item::Item;
use delos_types::numbers::NodeId;
use engine_api::pack::trim_item;
use replica_api::replica::Replica;
use std::alloc::{AllocError, Global};
use virtual_log::extend::Extension;

/// The least of the positions that the members among the nodes 1 to `nodes` reported, 0 where none is a member.
pub fn least<R: Replica>(replica: &R, nodes: u8) -> Result<u64, AllocError>
    requires { nodes ≤ 8 }
    ensures { IfOk result (λ least. least ≡ least_of nodes (R.shows replica.now).contents) }
{
    let mut least = None;
    for number in 1..=nodes {
        let Some(node) = NodeId::new(number) else {
            continue;
        };
        let left = replica.has_left(node)?;
        if left {
            continue;
        }
        let position = replica.reported(node)?;
        least = Some(lesser(least, position));
    }
    Ok(least.unwrap_or(0))
}

// The least so far, with one more position.
fn lesser(least: Option<u64>, position: u64) -> u64
    ensures { result ≡ unwrap_or (option_map (λ q. min q position) least) position }
{
    match least {
        None => position,
        Some(least) => least.min(position),
    }
}

/// Finds a tail, plays up to it, and answers the least position of a member then.
fn find_least<L: SharedLog, R: Replica>(
    log: &mut L,
    replica: &mut R,
    nodes: u8,
) -> Result<u64, Fault>
    requires nodes { nodes ≤ 8 }
    requires legal { IsLegal L.Law.law (L.seen log.old) }
    requires follows { Follows L.holds R.meaning (L.seen log.old) (R.shows replica.old) }
    requires bounded { IsKnown (L.reaches log.old) (R.shows replica.old) }
    ensures later { Later L.Law.law (L.seen log.old) (L.seen log.new) }
    ensures who { L.who log.new ≡ L.who log.old }
    ensures known { L.reaches log.old ≤ L.reaches log.new }
    ensures follows { Follows L.holds R.meaning (L.seen log.new) (R.shows replica.new) }
    ensures bounded { IsKnown (L.reaches log.new) (R.shows replica.new) }
    ensures forward { (R.shows replica.old).cursor ≤ (R.shows replica.new).cursor }
    ensures counts { (R.shows replica.old).faults ≤ (R.shows replica.new).faults }
    ensures kept { (R.shows replica.new).kept ≡ (R.shows replica.old).kept }
    ensures origin { (R.shows replica.new).origin ≡ (R.shows replica.old).origin }
    ensures arming { LeavesArming 0 (R.shows replica.old) (R.shows replica.new) }
    ensures twice { IfErr result (λ f. StoreTwice (R.shows replica.old) f (R.shows replica.new)) }
    ensures any_crash { AnyCrash (R.shows replica.old).disk (R.shows replica.new).disk (SpellsOne R.meaning.spells (IsFound L.holds R.meaning.state (L.seen log.new) (R.shows replica.old).cursor)) }
    ensures blames { IfErr result (λ f. Blames (L.who log.old) (L.seen log.old) (R.shows replica.old).faults f (L.seen log.new) (R.shows replica.new).faults) }
    ensures found { IfOk result (IsLeastAtTail L.holds R.meaning.state nodes (L.who log.old) (L.seen log.old) (L.seen log.new) (R.shows replica.new)) }
{
    match sync(log, replica) {
        Ok(_) => {}
        Err(fault) => return Err(fault),
    }
    match least(replica, nodes) {
        Ok(position) => Ok(position),
        Err(_) => Err(Fault::Memory),
    }
}

/// An item goes down that isn't a session's; what waits is packed, and all that is outstanding is carried to its end.
fn push_through<L: SharedLog, R: Replica>(
    alloc: Global,
    log: &mut L,
    replica: &mut R,
    outbox: &mut Outbox,
    item: Item,
) -> Result<(), Fault>
    requires legal { IsLegal L.Law.law (L.seen log.old) }
    requires may { All (λ e. MaySend L.Law.law.may (L.who log.old) e) outbox.old.entries.items }
    requires few { length outbox.old.entries.items ≤ 4 }
    requires follows { Follows L.holds R.meaning (L.seen log.old) (R.shows replica.old) }
    requires bounded { IsKnown (L.reaches log.old) (R.shows replica.old) }
    requires item { IsProposable item }
    requires plain { under 2 item ≡ None }
    requires own { L.Law.law.may (L.who log.old) (packed (R.shows replica.old).origin ((R.shows replica.old).kept ++ item ∷ [])) }
    requires waits { (R.shows replica.old).kept ≢ [] → L.Law.law.may (L.who log.old) (packed (R.shows replica.old).origin (R.shows replica.old).kept) }
    ensures later { Later L.Law.law (L.seen log.old) (L.seen log.new) }
    ensures who { L.who log.new ≡ L.who log.old }
    ensures known { L.reaches log.old ≤ L.reaches log.new }
    ensures may { All (λ e. MaySend L.Law.law.may (L.who log.new) e) outbox.new.entries.items }
    ensures few { length outbox.new.entries.items ≤ 4 }
    ensures follows { Follows L.holds R.meaning (L.seen log.new) (R.shows replica.new) }
    ensures bounded { IsKnown (L.reaches log.new) (R.shows replica.new) }
    ensures forward { (R.shows replica.old).cursor ≤ (R.shows replica.new).cursor }
    ensures counts { (R.shows replica.old).faults ≤ (R.shows replica.new).faults }
    ensures origin { (R.shows replica.new).origin ≡ (R.shows replica.old).origin }
    ensures arming { LeavesArming 0 (R.shows replica.old) (R.shows replica.new) }
    ensures waiting { (R.shows replica.new).kept ≢ [] → L.Law.law.may (L.who log.old) (packed (R.shows replica.old).origin (R.shows replica.new).kept) }
    ensures any_crash { AnyCrash (R.shows replica.old).disk (R.shows replica.new).disk (SpellsOne R.meaning.spells (IsFound L.holds R.meaning.state (L.seen log.new) (R.shows replica.old).cursor)) }
    ensures landed { OnOk result (HasLanded L.holds (L.who log.old) (R.shows replica.old).origin (L.seen log.old) item (L.seen log.new)) }
    ensures through { OnOk result (GoesThrough L.holds (L.who log.old) (R.shows replica.old).origin (L.seen log.old) (view_of outbox.old) (R.shows replica.old).kept item None (L.seen log.new) (view_of outbox.new) (R.shows replica.new).kept) }
    ensures unpushed { IfErr result (λ f. Unpushed L.holds (L.who log.old) (R.shows replica.old).origin (L.seen log.old) (view_of outbox.old) (R.shows replica.old).kept item f (L.seen log.new) (view_of outbox.new) (R.shows replica.new).kept) }
    ensures blames { (view_of outbox.old).unsettled ≡ None → IfErr result (λ f. Blames (L.who log.old) (L.seen log.old) (R.shows replica.old).faults f (L.seen log.new) (R.shows replica.new).faults) }
    ensures twice { (view_of outbox.old).unsettled ≡ None → IfErr result (λ f. StoreTwice (R.shows replica.old) f (R.shows replica.new)) }
{
    match propose(alloc, log, replica, outbox, item) {
        Ok(()) => {}
        Err(fault) => return Err(fault),
    }
    match flush(alloc, log, replica, outbox) {
        Ok(()) => {}
        Err(_) => return Err(Fault::Memory),
    }
    match settle_all(alloc, log, outbox) {
        Ok(()) => Ok(()),
        Err(fault) => Err(fault),
    }
}

/// Up to where the log may be trimmed: to its trim point, but not past a member's position, nor past what was applied.
fn lowest<R: Replica>(replica: &R, nodes: u8) -> Result<u64, AllocError>
    requires { nodes ≤ 8 }
    ensures { IfOk result (λ position. position ≡ trim_to nodes (R.shows replica.now)) }
{
    let position = least(replica, nodes)?;
    let point = replica.trim_point()?;
    Ok(replica.cursor().min(point.min(position)))
}

/// Trims the log to the lesser of its trim point and the least position of a member, in the state of what was applied, but
/// not past that. Answers the trim.
pub fn trim_applied<L: SharedLog, R: Replica>(
    log: &mut L,
    replica: &R,
    nodes: u8,
) -> Result<u64, Fault>
    requires nodes { nodes ≤ 8 }
    requires shown { ShowsAll L.Law.law L.holds }
    requires legal { IsLegal L.Law.law (L.seen log.old) }
    requires follows { Follows L.holds R.meaning (L.seen log.old) (R.shows replica.now) }
    requires bounded { IsKnown (L.reaches log.old) (R.shows replica.now) }
    requires free { (front : List Entry) → IsFront L.holds (L.seen log.old) front → length front ≡ (R.shows replica.now).cursor → L.Law.law.floor front (trim_to nodes (R.shows replica.now)) }
    ensures later { Later L.Law.law (L.seen log.old) (L.seen log.new) }
    ensures who { L.who log.new ≡ L.who log.old }
    ensures known { L.reaches log.new ≡ L.reaches log.old }
    ensures blames { IfErr result (λ f. (faults faults' : ℕ) → Blames (L.who log.old) (L.seen log.old) faults f (L.seen log.new) faults') }
    ensures trims { IfOk result (λ trim. IsPrefixTrimmed (L.who log.old) (L.seen log.old) (trim_to nodes (R.shows replica.now)) trim (L.seen log.new)) }
{
    let position = match lowest(replica, nodes) {
        Ok(position) => position,
        Err(_) => return Err(Fault::Memory),
    };
    match log.prefix_trim(position) {
        Ok(trim) => Ok(trim),
        Err(fault) => Err(told(fault)),
    }
}

/// Plays the log as far as it is known, and trims it up to its trim point, but not past a member's position, nor past what
/// was applied.
fn trim_below<L: SharedLog, R: Replica>(
    log: &mut L,
    replica: &mut R,
    nodes: u8,
) -> Result<u64, Fault>
    requires nodes { nodes ≤ 8 }
    requires floor { IsFloor R.meaning.state L.Law.law.floor nodes }
    requires shown { ShowsAll L.Law.law L.holds }
    requires legal { IsLegal L.Law.law (L.seen log.old) }
    requires follows { Follows L.holds R.meaning (L.seen log.old) (R.shows replica.old) }
    requires bounded { IsKnown (L.reaches log.old) (R.shows replica.old) }
    ensures later { Later L.Law.law (L.seen log.old) (L.seen log.new) }
    ensures who { L.who log.new ≡ L.who log.old }
    ensures known { L.reaches log.new ≡ L.reaches log.old }
    ensures follows { Follows L.holds R.meaning (L.seen log.new) (R.shows replica.new) }
    ensures bounded { IsKnown (L.reaches log.new) (R.shows replica.new) }
    ensures forward { (R.shows replica.old).cursor ≤ (R.shows replica.new).cursor }
    ensures counts { (R.shows replica.old).faults ≤ (R.shows replica.new).faults }
    ensures kept { (R.shows replica.new).kept ≡ (R.shows replica.old).kept }
    ensures origin { (R.shows replica.new).origin ≡ (R.shows replica.old).origin }
    ensures arming { LeavesArming 0 (R.shows replica.old) (R.shows replica.new) }
    ensures twice { IfErr result (λ f. StoreTwice (R.shows replica.old) f (R.shows replica.new)) }
    ensures any_crash { AnyCrash (R.shows replica.old).disk (R.shows replica.new).disk (SpellsOne R.meaning.spells (IsFound L.holds R.meaning.state (L.seen log.new) (R.shows replica.old).cursor)) }
    ensures blames { IfErr result (λ f. Blames (L.who log.old) (L.seen log.old) (R.shows replica.old).faults f (L.seen log.new) (R.shows replica.new).faults) }
    ensures trims { IfOk result (TrimsBelow nodes (L.who log.old) (L.seen log.old) (L.seen log.new) (R.shows replica.new) (L.reaches log.new)) }
{
    let end = log.known();
    match play(log, replica, end) {
        Ok(()) => {}
        Err(fault) => return Err(fault),
    }
    match trim_applied(log, replica, nodes) {
        Ok(trim) => Ok(trim),
        Err(fault) => Err(fault),
    }
}

/// Finds a tail and plays up to it; asks for a trim to the least position of a member then, by an entry that is appended
/// with all that is outstanding; plays the log as far as it is known, and trims it up to its trim point, but not past a
/// member's position, nor past what was applied. Answers the trim.
///
/// Cost: that of a `sync`, an append for each outstanding entry and one more, and a trim of each loglet.
pub fn trim_now<L: SharedLog, R: Replica>(
    alloc: Global,
    log: &mut L,
    replica: &mut R,
    outbox: &mut Outbox,
    nodes: u8,
) -> Result<u64, Fault>
    requires nodes { nodes ≤ 8 }
    requires floor { IsFloor R.meaning.state L.Law.law.floor nodes }
    requires shown { ShowsAll L.Law.law L.holds }
    requires legal { IsLegal L.Law.law (L.seen log.old) }
    requires may { All (λ e. MaySend L.Law.law.may (L.who log.old) e) outbox.old.entries.items }
    requires few { length outbox.old.entries.items ≤ 4 }
    requires follows { Follows L.holds R.meaning (L.seen log.old) (R.shows replica.old) }
    requires bounded { IsKnown (L.reaches log.old) (R.shows replica.old) }
    requires own { (position : ℕ) → position < 2 ^ 64 → L.Law.law.may (L.who log.old) (packed (R.shows replica.old).origin ((R.shows replica.old).kept ++ trim_item position ∷ [])) }
    requires waits { (R.shows replica.old).kept ≢ [] → L.Law.law.may (L.who log.old) (packed (R.shows replica.old).origin (R.shows replica.old).kept) }
    ensures later { Later L.Law.law (L.seen log.old) (L.seen log.new) }
    ensures who { L.who log.new ≡ L.who log.old }
    ensures known { L.reaches log.old ≤ L.reaches log.new }
    ensures may { All (λ e. MaySend L.Law.law.may (L.who log.new) e) outbox.new.entries.items }
    ensures few { length outbox.new.entries.items ≤ 4 }
    ensures follows { Follows L.holds R.meaning (L.seen log.new) (R.shows replica.new) }
    ensures bounded { IsKnown (L.reaches log.new) (R.shows replica.new) }
    ensures forward { (R.shows replica.old).cursor ≤ (R.shows replica.new).cursor }
    ensures counts { (R.shows replica.old).faults ≤ (R.shows replica.new).faults }
    ensures origin { (R.shows replica.new).origin ≡ (R.shows replica.old).origin }
    ensures arming { LeavesArming 0 (R.shows replica.old) (R.shows replica.new) }
    ensures waiting { (R.shows replica.new).kept ≢ [] → L.Law.law.may (L.who log.old) (packed (R.shows replica.old).origin (R.shows replica.new).kept) }
    ensures any_crash { AnyCrash (R.shows replica.old).disk (R.shows replica.new).disk (SpellsOne R.meaning.spells (IsFound L.holds R.meaning.state (L.seen log.new) (R.shows replica.old).cursor)) }
    ensures trims { IfOk result (Trims L.holds R.meaning.state nodes (L.who log.old) (R.shows replica.old).origin (L.seen log.old) (L.seen log.new) (R.shows replica.new) (L.reaches log.new)) }
    ensures through { OnOk result (AsksThrough L.holds (L.who log.old) (R.shows replica.old).origin (L.seen log.old) (view_of outbox.old) (R.shows replica.old).kept None (L.seen log.new) (view_of outbox.new) (R.shows replica.new).kept) }
    ensures untrimmed { IfErr result (λ f. Untrimmed L.holds (L.who log.old) (R.shows replica.old).origin (L.seen log.old) (view_of outbox.old) (R.shows replica.old).kept f (L.seen log.new) (view_of outbox.new) (R.shows replica.new).kept) }
    ensures blames { IfErr result (λ f. IsEarlier (view_of outbox.old).unsettled f ⊎ Blames (L.who log.old) (L.seen log.old) (R.shows replica.old).faults f (L.seen log.new) (R.shows replica.new).faults) }
    ensures twice { IfErr result (λ f. IsEarlier (view_of outbox.old).unsettled f ⊎ StoreTwice (R.shows replica.old) f (R.shows replica.new)) }
{
    let position = match find_least(log, replica, nodes) {
        Ok(position) => position,
        Err(fault) => return Err(fault),
    };
    let item = match trim_item(alloc, position) {
        Ok(item) => item,
        Err(_) => return Err(Fault::Memory),
    };
    match push_through(alloc, log, replica, outbox, item) {
        Ok(()) => {}
        Err(fault) => return Err(fault),
    }
    match trim_below(log, replica, nodes) {
        Ok(trim) => Ok(trim),
        Err(fault) => Err(fault),
    }
}

/// Lets the log go on in its next loglet, if it has one. It is for those alone who may seal.
pub fn extend<L: SharedLog>(log: &mut L) -> Result<Extension, Fault>
    requires right { L.Law.seals (L.who log.old) }
    ensures later { Later L.Law.law (L.seen log.old) (L.seen log.new) }
    ensures who { L.who log.new ≡ L.who log.old }
    ensures known { L.reaches log.old ≤ L.reaches log.new }
    ensures seals { SealsLast (L.who log.old) (L.seen log.old) (L.seen log.new) }
    ensures extension { IfOk result (IsExtendedBy (length L.Law.law.shelf) (L.who log.old) (L.seen log.old) (L.reaches log.old) (L.reaches log.new) (L.seen log.new)) }
    ensures blames { IfErr result (λ f. (faults faults' : ℕ) → Blames (L.who log.old) (L.seen log.old) faults f (L.seen log.new) faults') }
{
    match log.extend() {
        Ok(extension) => Ok(extension),
        Err(fault) => Err(told(fault)),
    }
}
