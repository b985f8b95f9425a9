//! One operation on one loglet of the chain, from its begin to its answer.
ghost use Rattle.std.specs.Prelude.{◌≡◌, ◌<◌, ◌≤◌, ◌+◌, ◌-◌, length, slice_get, IfOk, OnOk, IfErr, IfSome, IfNone, Some, Contains, true};
ghost use Rattle.delos_types.specs.Spelling.{IsSpellable};
ghost use Rattle.legal_journal.specs.Journal.{state_of, IsLegal, tail_of};
ghost use Rattle.legal_journal.specs.Laws.{Stands};
ghost use Rattle.virtual_log.specs.Turning.{Later, FirstTurn, IsAbove};
ghost use Rattle.virtual_log.specs.Causes.{HasCause, CalmSince};
ghost use Rattle.virtual_log.specs.declared.fault.Fault.TheVariants.{Memory};
ghost use Rattle.virtual_log.specs.Tails.{IsFound, IsSealedTail};
ghost use Rattle.virtual_log.specs.Writing.{WroteNone};
ghost use Rattle.virtual_log.specs.Sealing.{SealsNone, SealsAt};
ghost use Rattle.virtual_log.specs.Saying.{DrawsOwn};
ghost use Rattle.virtual_log.specs.Operating.{ClosesOwn};
ghost use Rattle.virtual_log.specs.Attempts.{AppendsOnce, AppendsNone, AppendsAtMostOnce, Idles};

use crate::fault::Fault;
use crate::turn::{begin, carry_on};
use delos_types::chain::Segment;
use delos_types::entry::Entry;
use fate_words::chooser::Chooser;
use legal_journal::rules::Rules;
use legal_journal::turns::Turns;
use loglet_api::call::{Answer, Op};

/// Appends to the loglet of this segment, which some chain had. None: that loglet is sealed.
pub fn append_to<T: Turns, C: Chooser>(
    turns: &mut T,
    chooser: &mut C,
    segment: Segment,
    entry: &Entry,
) -> Result<Option<u64>, Fault>
    requires legal { IsLegal T.Law.law (T.seen turns.old) }
    requires started { (state_of (T.seen turns.old)).starts segment.id ≡ Some segment.start }
    requires may { T.Law.law.may (T.who turns.old) entry.now }
    requires spelled { IsSpellable entry.now }
    ensures later { Later T.Law.law (T.seen turns.old) (T.seen turns.new) }
    ensures who { T.who turns.new ≡ T.who turns.old }
    ensures sealed { IfOk result (λ o. IfNone o (((state_of (T.seen turns.new)).cells segment.id).told.sealed ≡ true)) }
    ensures retry { IfOk result (λ o. IfNone o (FirstTurn (T.who turns.old) (T.seen turns.old) (T.seen turns.new))) }
    ensures stands { IfOk result (λ o. IfSome o (λ pos. Stands (state_of (T.seen turns.new)) pos entry.now)) }
    ensures above { IfOk result (λ o. IfSome o (λ pos. IsAbove (T.who turns.old) (T.seen turns.old) pos (T.seen turns.new))) }
    ensures start { IfOk result (λ o. IfSome o (λ pos. segment.start ≤ pos)) }
    ensures placed { IfOk result (λ o. IfSome o (λ pos. slice_get ((state_of (T.seen turns.new)).cells segment.id).entries (pos - segment.start) ≡ Some entry.now)) }
    ensures reached { IfOk result (λ o. IfSome o (λ pos. pos + 1 ≤ segment.start + ((state_of (T.seen turns.new)).cells segment.id).told.reach)) }
    ensures draws { DrawsOwn C.gives (T.who turns.old) (C.at chooser.old) (T.seen turns.old) result (C.at chooser.new) (T.seen turns.new) }
    ensures err { IfErr result (λ fault. HasCause (T.who turns.old) (T.seen turns.old) fault (T.seen turns.new)) }
    ensures unsealed { SealsNone (T.who turns.old) (T.seen turns.old) (T.seen turns.new) }
    ensures once { IfOk result (λ o. IfSome o (λ pos. AppendsOnce (T.who turns.old) entry.now (T.seen turns.old) (T.seen turns.new))) }
    ensures refused { IfOk result (λ o. IfNone o (AppendsNone (T.who turns.old) entry.now (T.seen turns.old) (T.seen turns.new))) }
    ensures at_most { IfErr result (λ fault. AppendsAtMostOnce (T.who turns.old) entry.now (T.seen turns.old) fault (T.seen turns.new)) }
    ensures calm { OnOk result (CalmSince (T.who turns.old) (T.seen turns.old) (T.seen turns.new)) }
    ensures memory { IfErr result (λ fault. fault ≡ Memory → CalmSince (T.who turns.old) (T.seen turns.old) (T.seen turns.new)) }
    ensures closes { ClosesOwn (T.who turns.old) (T.seen turns.old) result (T.seen turns.new) }
{
    let copy = entry.clone()?;
    let ticket = begin(turns, segment.id, Op::Append(copy))?;
    match carry_on(turns, chooser, segment.id, ticket)? {
        Answer::Placed(place) => Ok(Some(segment.start + place)),
        Answer::Sealed => Ok(None),
        Answer::NoQuorum { unreached } => {
            Err(Fault::NoQuorum {
                id: segment.id,
                unreached,
            })
        }
        _ => unreachable!(),
    }
}

/// The tail of a loglet.
#[derive(Clone, Copy, PartialEq, Eq, Debug)]
pub enum FoundTail {
    /// The loglet takes entries. Its tail is this position of the log.
    Open(u64),
    /// The loglet is sealed at this length.
    Sealed(u64),
}

/// Finds the tail of the loglet of this segment, which some chain had.
pub fn find_tail<T: Turns, C: Chooser>(
    turns: &mut T,
    chooser: &mut C,
    segment: Segment,
) -> Result<FoundTail, Fault>
    requires legal { IsLegal T.Law.law (T.seen turns.old) }
    requires started { (state_of (T.seen turns.old)).starts segment.id ≡ Some segment.start }
    ensures later { Later T.Law.law (T.seen turns.old) (T.seen turns.new) }
    ensures who { T.who turns.new ≡ T.who turns.old }
    ensures found { IfOk result (IsFound (T.who turns.old) (T.seen turns.old) segment (T.seen turns.new)) }
    ensures shut { ((state_of (T.seen turns.old)).cells segment.id).told.sealed ≡ true → IfOk result IsSealedTail }
    ensures quiet { IfOk result (λ x. WroteNone (T.who turns.old) (T.seen turns.old) (T.seen turns.new)) }
    ensures unsealed { SealsNone (T.who turns.old) (T.seen turns.old) (T.seen turns.new) }
    ensures idle { Idles (T.who turns.old) (T.seen turns.old) (T.seen turns.new) }
    ensures draws { DrawsOwn C.gives (T.who turns.old) (C.at chooser.old) (T.seen turns.old) result (C.at chooser.new) (T.seen turns.new) }
    ensures err { IfErr result (λ fault. HasCause (T.who turns.old) (T.seen turns.old) fault (T.seen turns.new)) }
    ensures calm { OnOk result (CalmSince (T.who turns.old) (T.seen turns.old) (T.seen turns.new)) }
    ensures memory { IfErr result (λ fault. fault ≡ Memory → CalmSince (T.who turns.old) (T.seen turns.old) (T.seen turns.new)) }
    ensures closes { ClosesOwn (T.who turns.old) (T.seen turns.old) result (T.seen turns.new) }
{
    let ticket = begin(turns, segment.id, Op::Tail)?;
    match carry_on(turns, chooser, segment.id, ticket)? {
        Answer::OpenTail(length) => Ok(FoundTail::Open(segment.start + length)),
        Answer::SealedTail(length) => Ok(FoundTail::Sealed(length)),
        Answer::NoQuorum { unreached } => {
            Err(Fault::NoQuorum {
                id: segment.id,
                unreached,
            })
        }
        _ => unreachable!(),
    }
}

/// Seals a loglet, behind which the shelf has another. It is for those alone who have the right to.
pub fn seal<T: Turns, C: Chooser>(turns: &mut T, chooser: &mut C, id: u32) -> Result<(), Fault>
    requires legal { IsLegal T.Law.law (T.seen turns.old) }
    requires spare { id + 1 < length T.Law.law.shelf }
    requires right { T.Law.seals (T.who turns.old) }
    ensures later { Later T.Law.law (T.seen turns.old) (T.seen turns.new) }
    ensures who { T.who turns.new ≡ T.who turns.old }
    ensures sealed { OnOk result (((state_of (T.seen turns.new)).cells id).told.sealed ≡ true) }
    ensures quiet { OnOk result (WroteNone (T.who turns.old) (T.seen turns.old) (T.seen turns.new)) }
    ensures seals { SealsAt (T.who turns.old) id (T.seen turns.old) (T.seen turns.new) }
    ensures draws { DrawsOwn C.gives (T.who turns.old) (C.at chooser.old) (T.seen turns.old) result (C.at chooser.new) (T.seen turns.new) }
    ensures err { IfErr result (λ fault. HasCause (T.who turns.old) (T.seen turns.old) fault (T.seen turns.new)) }
    ensures calm { OnOk result (CalmSince (T.who turns.old) (T.seen turns.old) (T.seen turns.new)) }
    ensures memory { IfErr result (λ fault. fault ≡ Memory → CalmSince (T.who turns.old) (T.seen turns.old) (T.seen turns.new)) }
    ensures closes { ClosesOwn (T.who turns.old) (T.seen turns.old) result (T.seen turns.new) }
{
    let ticket = begin(turns, id, Op::Seal)?;
    match carry_on(turns, chooser, id, ticket)? {
        Answer::SealDone => Ok(()),
        Answer::NoQuorum { unreached } => Err(Fault::NoQuorum { id, unreached }),
        _ => unreachable!(),
    }
}
