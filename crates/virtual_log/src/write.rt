//! A change of the chain: it is written under the condition that the chain is the one that is known, and where another
//! chain stands by then, over that one, until a chain stands that has the change.
ghost use Rattle.std.specs.Prelude.{◌≡◌, ◌≤◌, IfOk, OnOk, IfErr, None, IsTrue, ◌↔◌};
ghost use Rattle.chain_map.specs.Chain.{IsChain, last_segment};
ghost use Rattle.legal_journal.specs.Journal.{state_of, IsLegal};
ghost use Rattle.legal_journal.specs.Turns.{MayTurn, IsTurn};
ghost use Rattle.virtual_log.specs.Turning.{Later};
ghost use Rattle.virtual_log.specs.Causes.{HasCause, CalmSince};
ghost use Rattle.virtual_log.specs.declared.fault.Fault.TheVariants.{Memory};
ghost use Rattle.virtual_log.specs.Changing.{with_change, Lacks, Has, Admits, IsGranted, told_by, Settles};
ghost use Rattle.virtual_log.specs.Log.{GoesBy};
ghost use Rattle.virtual_log.specs.Sealing.{SealsNone};
ghost use Rattle.virtual_log.specs.Saying.{SaysNone};
ghost use Rattle.virtual_log.specs.Operating.{Operates};
ghost use Rattle.virtual_log.specs.Attempts.{Idles};

use crate::calls::Known;
use crate::fault::Fault;
use crate::replace::last_of;
use chain_map::change::{drop_below, extend};
use delos_types::chain::{Chain, Segment};
use legal_journal::events::{FabricAnswer, FabricCall};
use legal_journal::rules::Rules;
use legal_journal::turns::Turns;
use std::alloc::{AllocError, Global};

/// A change of a chain.
#[derive(Clone, Copy)]
pub(crate) enum Change {
    /// The last segment, which is this one, is closed at this length, and the chain goes on behind it.
    Close { last: Segment, length: u64 },
    /// The trim is raised to this position, and the segments below it are dropped.
    Raise(u64),
}

impl Change {
    /// The chain with the change.
    fn made(self, alloc: Global, chain: &Chain) -> Result<Chain, AllocError>
        requires chain { IsChain chain.now }
        requires fits { Admits self chain.now }
        ensures { IfOk result (λ made. made ≡ with_change self chain.now) }
    {
        match self {
            Change::Close { last: _, length } => extend(alloc, chain, length),
            Change::Raise(n) => drop_below(alloc, chain, n),
        }
    }

    /// Whether the chain has the change.
    fn is_in(self, chain: &Chain) -> bool
        ensures { IsTrue result ↔ Has self chain.now }
    {
        match self {
            Change::Close { last, length: _ } => last_of(chain).id > last.id,
            Change::Raise(n) => n <= chain.trim,
        }
    }
}

/// How it came that the chain has a change.
#[derive(Clone, Copy)]
pub(crate) enum Settled {
    /// This user wrote it.
    Written,
    /// It has the change by what others wrote.
    Found,
}

/// What the register answers to a write.
#[derive(Drop)]
enum Reply {
    /// The chain stands under this version.
    Written(u64),
    /// Under this version another chain stands.
    Conflict(u64, Chain),
}

/// Writes a chain over the one of this version.
fn write_over<T: Turns>(turns: &mut T, expected: u64, next: Chain) -> Result<Reply, Fault>
    requires may { MayTurn T.Law.law (T.who turns.old) (T.seen turns.old) (FabricCall.WriteChain expected next) }
    ensures later { Later T.Law.law (T.seen turns.old) (T.seen turns.new) }
    ensures who { T.who turns.new ≡ T.who turns.old }
    ensures ok { IfOk result (λ reply. IsTurn T.Law.law (T.who turns.old) (T.seen turns.old) (FabricCall.WriteChain expected next) (told_by reply) (T.seen turns.new)) }
    ensures unsealed { SealsNone (T.who turns.old) (T.seen turns.old) (T.seen turns.new) }
    ensures idle { Idles (T.who turns.old) (T.seen turns.old) (T.seen turns.new) }
    ensures silent { SaysNone (T.who turns.old) (T.seen turns.old) (T.seen turns.new) }
    ensures err { IfErr result (λ fault. HasCause (T.who turns.old) (T.seen turns.old) fault (T.seen turns.new)) }
    ensures calm { OnOk result (CalmSince (T.who turns.old) (T.seen turns.old) (T.seen turns.new)) }
    ensures memory { IfErr result (λ fault. fault ≡ Memory → CalmSince (T.who turns.old) (T.seen turns.old) (T.seen turns.new)) }
    ensures closes { Operates (T.who turns.old) None None (T.seen turns.old) (T.seen turns.new) }
{
    match turns.turn(FabricCall::WriteChain(expected, next)) {
        FabricAnswer::Written(version) => Ok(Reply::Written(version)),
        FabricAnswer::Conflict(version, chain) => Ok(Reply::Conflict(version, chain)),
        FabricAnswer::MetaFault => Err(Fault::Meta),
        FabricAnswer::Down => Err(Fault::Meta),
        FabricAnswer::Memory => Err(Fault::Memory),
        _ => unreachable!(),
    }
}

/// Writes the known chain with a change that it lacks. Where it isn't the current one any more, does so with the current
/// one, unless that has the change.
pub(crate) fn write<T: Turns>(
    turns: &mut T,
    alloc: Global,
    known: &mut Known,
    change: Change,
) -> Result<Settled, Fault>
    requires legal { IsLegal T.Law.law (T.seen turns.old) }
    requires goes_by { GoesBy (state_of (T.seen turns.old)) known.old.version known.old.chain known.old.tail }
    requires granted { IsGranted T.Law.law.floor (state_of (T.seen turns.old)) known.old.tail change }
    requires lacks { Lacks change known.old.chain }
    ensures later { Later T.Law.law (T.seen turns.old) (T.seen turns.new) }
    ensures who { T.who turns.new ≡ T.who turns.old }
    ensures goes_by { GoesBy (state_of (T.seen turns.new)) known.new.version known.new.chain known.new.tail }
    ensures known { known.new.tail ≡ known.old.tail }
    ensures has { OnOk result (Has change known.new.chain) }
    ensures settled { IfOk result (Settles (T.who turns.old) (T.seen turns.old) change known.new.version known.new.chain (T.seen turns.new)) }
    ensures unsealed { SealsNone (T.who turns.old) (T.seen turns.old) (T.seen turns.new) }
    ensures idle { Idles (T.who turns.old) (T.seen turns.old) (T.seen turns.new) }
    ensures silent { SaysNone (T.who turns.old) (T.seen turns.old) (T.seen turns.new) }
    ensures err { IfErr result (λ fault. HasCause (T.who turns.old) (T.seen turns.old) fault (T.seen turns.new)) }
    ensures calm { OnOk result (CalmSince (T.who turns.old) (T.seen turns.old) (T.seen turns.new)) }
    ensures memory { IfErr result (λ fault. fault ≡ Memory → CalmSince (T.who turns.old) (T.seen turns.old) (T.seen turns.new)) }
    ensures closes { Operates (T.who turns.old) None None (T.seen turns.old) (T.seen turns.new) }
    ensures rises { (last_segment known.old.chain).id ≤ (last_segment known.new.chain).id }
{
    'write: loop {
        let next = change.made(alloc, &known.chain)?;
        let copy = next.clone()?;
        match write_over(turns, known.version, next)? {
            Reply::Written(version) => {
                known.version = version;
                known.chain = copy;
                return Ok(Settled::Written);
            }
            Reply::Conflict(version, chain) => {
                known.version = version;
                known.chain = chain;
                if change.is_in(&known.chain) {
                    return Ok(Settled::Found);
                }
            }
        }
    }
}
