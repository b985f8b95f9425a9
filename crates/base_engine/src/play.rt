//! A replica follows its log.
ghost use Rattle.std.specs.Prelude.{◌≡◌, ◌≢◌, ◌+◌, false, ◌<◌, ◌≤◌, ℕ, max, List, IfOk, OnOk, OnErr, IfErr};
ghost use Rattle.legal_journal.specs.declared.events.Event.{Event};
ghost use Rattle.legal_journal.specs.Journal.{state_of, tail_of, IsLegal};
ghost use Rattle.virtual_log.specs.Turning.{Later, IsAbove};
ghost use Rattle.disk_model.specs.Disk.{Rose};
ghost use Rattle.disk_model.specs.Crash.{AnyCrash};
ghost use Rattle.replica_api.specs.Replica.{ReplicaView, SpellsOne, MayFind, Survives, Recovered, saved_in};
ghost use Rattle.base_engine.specs.Following.{Follows, IsKnown, Plays, Reaches, IsAt, IsFound, GoesOn, KeepsTail, EndsBy};
ghost use Rattle.base_engine.specs.Causes.{Blames};
ghost use Rattle.base_engine.specs.Arming.{LeavesArming, FailsOnce, RecoversOnce, StoreTwice, StaysShut, FailsToOpen};

use crate::fault::{Fault, told};
use crate::shared_log::SharedLog;
use delos_types::cause::Cause;
use replica_api::replica::{Applied, Reopened, Replica};
use virtual_log::calls::Next;

/// What becomes of the entry at the cursor.
#[derive(Drop)]
pub enum Played {
    Applied,
    /// It is trimmed.
    Trimmed,
    /// The disk failed, or had failed before.
    Broken,
}

/// Applies the entry at the cursor, which is below `to`.
pub fn apply_next<L: SharedLog, R: Replica>(
    log: &mut L,
    replica: &mut R,
    to: u64,
) -> Result<Played, Fault>
    requires legal { IsLegal L.Law.law (L.seen log.old) }
    requires follows { Follows L.holds R.meaning (L.seen log.old) (R.shows replica.old) }
    requires below { (R.shows replica.old).cursor < to }
    requires within { to ≤ L.reaches log.old }
    requires bounded { IsKnown (L.reaches log.old) (R.shows replica.old) }
    ensures later { Later L.Law.law (L.seen log.old) (L.seen log.new) }
    ensures who { L.who log.new ≡ L.who log.old }
    ensures known { L.reaches log.new ≡ L.reaches log.old }
    ensures follows { Follows L.holds R.meaning (L.seen log.new) (R.shows replica.new) }
    ensures bounded { IsKnown (L.reaches log.new) (R.shows replica.new) }
    ensures plays { IfOk result (λ p. Plays p (R.shows replica.old) (R.shows replica.new) (L.seen log.new)) }
    ensures quiet { OnOk result (KeepsTail (L.who log.old) (R.shows replica.old).cursor (L.seen log.old) (L.seen log.new)) }
    ensures forward { (R.shows replica.old).cursor ≤ (R.shows replica.new).cursor }
    ensures goes_on { GoesOn L.holds R.meaning.state (L.seen log.new) (saved_in (R.shows replica.old)) (saved_in (R.shows replica.new)) }
    ensures blames { IfErr result (λ f. Blames (L.who log.old) (L.seen log.old) (R.shows replica.old).faults f (L.seen log.new) (R.shows replica.new).faults) }
    ensures calm { IfErr result (λ f. ((R.shows replica.new).faults ≡ (R.shows replica.old).faults) × ((R.shows replica.new).cursor ≡ (R.shows replica.old).cursor)) }
    ensures kept { (R.shows replica.new).kept ≡ (R.shows replica.old).kept }
    ensures origin { (R.shows replica.new).origin ≡ (R.shows replica.old).origin }
    ensures arming { LeavesArming 0 (R.shows replica.old) (R.shows replica.new) }
    ensures never_store { IfErr result (λ f. f ≢ Fault.Because Cause.Store) }

    // A crash inside it leaves the state of some of the log's first entries, and of no fewer than before.
    ensures any_crash { AnyCrash (R.shows replica.old).disk (R.shows replica.new).disk (SpellsOne R.meaning.spells (IsFound L.holds R.meaning.state (L.seen log.new) (R.shows replica.old).cursor)) }
{
    let position = replica.cursor();
    let next = match log.read_next(position, to) {
        Ok(next) => next,
        Err(fault) => return Err(told(fault)),
    };
    match next {
        Next::Nothing => return Ok(Played::Trimmed),
        Next::Trimmed(_) => return Ok(Played::Trimmed),
        Next::Found(found, entry) => {
            if found != position {
                return Ok(Played::Trimmed);
            }
            match replica.apply(&entry) {
                Applied::Done => return Ok(Played::Applied),
                Applied::DiskFault => return Ok(Played::Broken),
                Applied::Down => return Ok(Played::Broken),
                Applied::Memory => return Err(Fault::Memory),
            }
        }
    }
}

/// Opens the store again. The word chooses what a stopped commit left.
pub fn recover<R: Replica>(replica: &mut R, word: u64) -> Result<(), Fault>
    ensures up { OnOk result (Recovered word (R.shows replica.old) (R.shows replica.new)) }
    ensures down { OnErr result (StaysShut (R.shows replica.old) (R.shows replica.new)) }
    ensures fails { IfErr result (λ f. FailsToOpen word (R.shows replica.old) f (R.shows replica.new)) }
    ensures arming { LeavesArming word (R.shows replica.old) (R.shows replica.new) }
    ensures twice { IfErr result (λ f. StoreTwice (R.shows replica.old) f (R.shows replica.new)) }
    ensures rose { IfErr result (λ f. f ≡ Fault.Because Cause.Store → Rose (R.shows replica.old).faults (R.shows replica.new).faults) }
    ensures blames { IfErr result (λ f. (who : ℕ) (old new : List Event) → Blames who old (R.shows replica.old).faults f new (R.shows replica.new).faults) }
    ensures survives { Survives R.meaning.spells (R.shows replica.new) }
    ensures any_crash { AnyCrash (R.shows replica.old).disk (R.shows replica.new).disk (SpellsOne R.meaning.spells (MayFind (R.shows replica.old))) }
{
    match replica.reopen(word) {
        Reopened::Done => Ok(()),
        Reopened::DiskFault => Err(Fault::Because(Cause::Store)),
        Reopened::Memory => Err(Fault::Memory),
    }
}

/// Opens the store again, as the calls do that come to a store which failed or is down: with word 0.
fn open_again<R: Replica>(replica: &mut R) -> Result<(), Fault>
    ensures up { OnOk result (Recovered 0 (R.shows replica.old) (R.shows replica.new)) }
    ensures down { OnErr result (StaysShut (R.shows replica.old) (R.shows replica.new)) }
    ensures fails { IfErr result (λ f. FailsToOpen 0 (R.shows replica.old) f (R.shows replica.new)) }
    ensures arming { LeavesArming 0 (R.shows replica.old) (R.shows replica.new) }
    ensures twice { IfErr result (λ f. StoreTwice (R.shows replica.old) f (R.shows replica.new)) }
    ensures blames { IfErr result (λ f. (who : ℕ) (old new : List Event) → Blames who old (R.shows replica.old).faults f new (R.shows replica.new).faults) }
    ensures survives { Survives R.meaning.spells (R.shows replica.new) }
    ensures any_crash { AnyCrash (R.shows replica.old).disk (R.shows replica.new).disk (SpellsOne R.meaning.spells (MayFind (R.shows replica.old))) }
{
    recover(replica, 0)
}

/// Opens the store of a replica that follows its log. The word chooses what a stopped commit left.
pub fn restore<L: SharedLog, R: Replica>(_log: &L, replica: &mut R, word: u64) -> Result<(), Fault>
    requires follows { Follows L.holds R.meaning (L.seen _log.now) (R.shows replica.old) }
    requires bounded { IsKnown (L.reaches _log.now) (R.shows replica.old) }
    ensures follows { Follows L.holds R.meaning (L.seen _log.now) (R.shows replica.new) }
    ensures bounded { IsKnown (L.reaches _log.now) (R.shows replica.new) }
    ensures forward { (R.shows replica.old).cursor ≤ (R.shows replica.new).cursor }
    ensures near { (R.shows replica.new).cursor ≤ (R.shows replica.old).cursor + 1 }
    ensures goes_on { GoesOn L.holds R.meaning.state (L.seen _log.now) (saved_in (R.shows replica.old)) (saved_in (R.shows replica.new)) }
    ensures up { OnOk result ((R.shows replica.new).down ≡ false) }
    ensures blames { IfErr result (λ f. Blames (L.who _log.now) (L.seen _log.now) (R.shows replica.old).faults f (L.seen _log.now) (R.shows replica.new).faults) }
    ensures counts { (R.shows replica.old).faults ≤ (R.shows replica.new).faults }
    ensures kept { (R.shows replica.new).kept ≡ (R.shows replica.old).kept }
    ensures origin { (R.shows replica.new).origin ≡ (R.shows replica.old).origin }
    ensures recovered { OnOk result (Recovered word (R.shows replica.old) (R.shows replica.new)) }
    ensures fails { IfErr result (λ f. FailsToOpen word (R.shows replica.old) f (R.shows replica.new)) }
    ensures arming { LeavesArming word (R.shows replica.old) (R.shows replica.new) }
    ensures twice { IfErr result (λ f. StoreTwice (R.shows replica.old) f (R.shows replica.new)) }
    ensures any_crash { AnyCrash (R.shows replica.old).disk (R.shows replica.new).disk (SpellsOne R.meaning.spells (IsFound L.holds R.meaning.state (L.seen _log.now) (R.shows replica.old).cursor)) }
{
    match recover(replica, word) {
        Ok(()) => Ok(()),
        Err(fault) => Err(fault),
    }
}

/// Applies entries until the cursor is at `to`. A store that fails, or is down, is opened again once, with word 0, where
/// there is an entry to apply.
///
/// Cost: one read of the log and one commit for each entry.
pub fn play<L: SharedLog, R: Replica>(log: &mut L, replica: &mut R, to: u64) -> Result<(), Fault>
    requires legal { IsLegal L.Law.law (L.seen log.old) }
    requires follows { Follows L.holds R.meaning (L.seen log.old) (R.shows replica.old) }
    requires within { to ≤ L.reaches log.old }
    requires bounded { IsKnown (L.reaches log.old) (R.shows replica.old) }
    ensures later { Later L.Law.law (L.seen log.old) (L.seen log.new) }
    ensures who { L.who log.new ≡ L.who log.old }
    ensures known { L.reaches log.new ≡ L.reaches log.old }
    ensures follows { Follows L.holds R.meaning (L.seen log.new) (R.shows replica.new) }
    ensures bounded { IsKnown (L.reaches log.new) (R.shows replica.new) }
    ensures reaches { OnOk result (Reaches to (R.shows replica.old) (R.shows replica.new) (L.seen log.new)) }
    ensures within { (R.shows replica.new).cursor ≤ max (R.shows replica.old).cursor to }
    ensures quiet { OnOk result (KeepsTail (L.who log.old) (R.shows replica.old).cursor (L.seen log.old) (L.seen log.new)) }
    ensures forward { (R.shows replica.old).cursor ≤ (R.shows replica.new).cursor }
    ensures goes_on { GoesOn L.holds R.meaning.state (L.seen log.new) (saved_in (R.shows replica.old)) (saved_in (R.shows replica.new)) }
    ensures blames { IfErr result (λ f. Blames (L.who log.old) (L.seen log.old) (R.shows replica.old).faults f (L.seen log.new) (R.shows replica.new).faults) }
    ensures counts { (R.shows replica.old).faults ≤ (R.shows replica.new).faults }
    ensures kept { (R.shows replica.new).kept ≡ (R.shows replica.old).kept }
    ensures origin { (R.shows replica.new).origin ≡ (R.shows replica.old).origin }
    ensures arming { LeavesArming 0 (R.shows replica.old) (R.shows replica.new) }
    ensures twice { IfErr result (λ f. StoreTwice (R.shows replica.old) f (R.shows replica.new)) }
    ensures once { OnOk result (FailsOnce (R.shows replica.old) (R.shows replica.new)) }
    ensures once_refused { IfErr result (λ f. RecoversOnce (R.shows replica.old) f (R.shows replica.new)) }
    ensures any_crash { AnyCrash (R.shows replica.old).disk (R.shows replica.new).disk (SpellsOne R.meaning.spells (IsFound L.holds R.meaning.state (L.seen log.new) (R.shows replica.old).cursor)) }
{
    let mut spare = true;
    'entry: while replica.cursor() < to {
        match apply_next(log, replica, to) {
            Ok(Played::Applied) => {}
            Ok(Played::Trimmed) => return Ok(()),
            Ok(Played::Broken) => {
                if !spare {
                    return Err(Fault::Because(Cause::Store));
                }
                match open_again(replica) {
                    Ok(()) => {}
                    Err(fault) => return Err(fault),
                }
                spare = false;
            }
            Err(fault) => return Err(fault),
        }
    }
    Ok(())
}

/// Finds a tail of the log, and plays up to it.
pub fn sync<L: SharedLog, R: Replica>(log: &mut L, replica: &mut R) -> Result<u64, Fault>
    requires legal { IsLegal L.Law.law (L.seen log.old) }
    requires follows { Follows L.holds R.meaning (L.seen log.old) (R.shows replica.old) }
    requires bounded { IsKnown (L.reaches log.old) (R.shows replica.old) }
    ensures later { Later L.Law.law (L.seen log.old) (L.seen log.new) }
    ensures who { L.who log.new ≡ L.who log.old }
    ensures known { L.reaches log.old ≤ L.reaches log.new }
    ensures follows { Follows L.holds R.meaning (L.seen log.new) (R.shows replica.new) }
    ensures bounded { IsKnown (L.reaches log.new) (R.shows replica.new) }

    // The position is above each append, and not below any tail, that was answered before the call's first event.
    ensures synced { IfOk result (λ tail. IsAbove (L.who log.old) (L.seen log.old) tail (L.seen log.new)) }
    ensures cursor { IfOk result (λ tail. IsAt tail (R.shows replica.new) (L.seen log.new)) }
    ensures within { IfOk result (λ tail. (R.shows replica.new).cursor ≤ tail) }

    // It is the log's tail, where no event of another came meanwhile and nothing was trimmed that wasn't played.
    ensures exact { IfOk result (λ tail. EndsBy (L.who log.old) (R.shows replica.old).cursor (L.seen log.old) tail (L.seen log.new)) }
    ensures forward { (R.shows replica.old).cursor ≤ (R.shows replica.new).cursor }
    ensures goes_on { GoesOn L.holds R.meaning.state (L.seen log.new) (saved_in (R.shows replica.old)) (saved_in (R.shows replica.new)) }
    ensures blames { IfErr result (λ f. Blames (L.who log.old) (L.seen log.old) (R.shows replica.old).faults f (L.seen log.new) (R.shows replica.new).faults) }
    ensures counts { (R.shows replica.old).faults ≤ (R.shows replica.new).faults }
    ensures kept { (R.shows replica.new).kept ≡ (R.shows replica.old).kept }
    ensures origin { (R.shows replica.new).origin ≡ (R.shows replica.old).origin }
    ensures arming { LeavesArming 0 (R.shows replica.old) (R.shows replica.new) }
    ensures twice { IfErr result (λ f. StoreTwice (R.shows replica.old) f (R.shows replica.new)) }
    ensures once { OnOk result (FailsOnce (R.shows replica.old) (R.shows replica.new)) }
    ensures once_refused { IfErr result (λ f. RecoversOnce (R.shows replica.old) f (R.shows replica.new)) }
    ensures any_crash { AnyCrash (R.shows replica.old).disk (R.shows replica.new).disk (SpellsOne R.meaning.spells (IsFound L.holds R.meaning.state (L.seen log.new) (R.shows replica.old).cursor)) }
{
    let tail = match log.check_tail() {
        Ok(tail) => tail,
        Err(fault) => return Err(told(fault)),
    };
    match play(log, replica, tail) {
        Ok(()) => Ok(tail),
        Err(fault) => Err(fault),
    }
}
