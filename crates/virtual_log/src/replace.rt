//! How the chain goes on behind a sealed loglet (OSDI 2020): its sealed tail is found, and the chain is written that
//! closes it there. Whoever comes first wins; the others take the chain that they find.
ghost use Rattle.std.specs.Prelude.{◌≡◌, ◌<◌, IfOk, IfErr, OnOk, Some, true};
ghost use Rattle.chain_map.specs.Chain.{last_of_segments, last_segment};
ghost use Rattle.legal_journal.specs.Journal.{state_of, IsLegal};
ghost use Rattle.virtual_log.specs.Turning.{Later};
ghost use Rattle.virtual_log.specs.Log.{GoesBy};
ghost use Rattle.virtual_log.specs.Causes.{HasCause, CalmSince};
ghost use Rattle.virtual_log.specs.declared.fault.Fault.TheVariants.{Memory};
ghost use Rattle.virtual_log.specs.Sealing.{SealsNone};
ghost use Rattle.virtual_log.specs.Saying.{DrawsOwn};
ghost use Rattle.virtual_log.specs.Operating.{ClosesOwn};
ghost use Rattle.virtual_log.specs.Attempts.{Idles};

use crate::calls::Known;
use crate::fault::Fault;
use crate::operation::{FoundTail, find_tail};
use crate::turn::look;
use crate::write::{Change, write};
use delos_types::chain::{Chain, Segment};
use fate_words::chooser::Chooser;
use legal_journal::rules::Rules;
use legal_journal::turns::Turns;
use std::alloc::Global;

/// The last segment of a chain.
pub fn last_of(chain: &Chain) -> Segment
    ensures { result ≡ last_segment chain.now }
{
    match chain.segments.as_slice().last() {
        Some(segment) => *segment,
        None => Segment {
            id: 0,
            start: 0,
            end: None,
        },
    }
}

/// Lets the known chain go on behind its last loglet, which is sealed: finds the sealed tail, and writes.
fn finish<T: Turns, C: Chooser>(
    turns: &mut T,
    chooser: &mut C,
    alloc: Global,
    known: &mut Known,
) -> Result<(), Fault>
    requires legal { IsLegal T.Law.law (T.seen turns.old) }
    requires goes_by { GoesBy (state_of (T.seen turns.old)) known.old.version known.old.chain known.old.tail }
    requires sealed { ((state_of (T.seen turns.old)).cells (last_segment known.old.chain).id).told.sealed ≡ true }
    ensures later { Later T.Law.law (T.seen turns.old) (T.seen turns.new) }
    ensures who { T.who turns.new ≡ T.who turns.old }
    ensures ok { OnOk result ((last_segment known.old.chain).id < (last_segment (state_of (T.seen turns.new)).register.chain).id) }
    ensures draws { DrawsOwn C.gives (T.who turns.old) (C.at chooser.old) (T.seen turns.old) result (C.at chooser.new) (T.seen turns.new) }
    ensures err { IfErr result (λ fault. HasCause (T.who turns.old) (T.seen turns.old) fault (T.seen turns.new)) }
    ensures unsealed { SealsNone (T.who turns.old) (T.seen turns.old) (T.seen turns.new) }
    ensures idle { Idles (T.who turns.old) (T.seen turns.old) (T.seen turns.new) }
    ensures calm { OnOk result (CalmSince (T.who turns.old) (T.seen turns.old) (T.seen turns.new)) }
    ensures memory { IfErr result (λ fault. fault ≡ Memory → CalmSince (T.who turns.old) (T.seen turns.old) (T.seen turns.new)) }
    ensures closes { ClosesOwn (T.who turns.old) (T.seen turns.old) result (T.seen turns.new) }
{
    let last = last_of(&known.chain);
    let FoundTail::Sealed(length) = find_tail(turns, chooser, last)? else {
        unreachable!()
    };
    write(turns, alloc, known, Change::Close { last, length })?;
    Ok(())
}

/// The chain behind the loglet of this segment, which is sealed. Where nobody let the chain go on,
/// this does.
pub fn chain_behind<T: Turns, C: Chooser>(
    turns: &mut T,
    chooser: &mut C,
    alloc: Global,
    segment: Segment,
) -> Result<(u64, Chain), Fault>
    requires legal { IsLegal T.Law.law (T.seen turns.old) }
    requires started { (state_of (T.seen turns.old)).starts segment.id ≡ Some segment.start }
    requires sealed { ((state_of (T.seen turns.old)).cells segment.id).told.sealed ≡ true }
    ensures later { Later T.Law.law (T.seen turns.old) (T.seen turns.new) }
    ensures who { T.who turns.new ≡ T.who turns.old }
    ensures given { IfOk result (λ x. (state_of (T.seen turns.new)).register.given x.0 ≡ Some x.1) }
    ensures behind { IfOk result (λ x. segment.id < (last_of_segments x.1.segments).id) }
    ensures draws { DrawsOwn C.gives (T.who turns.old) (C.at chooser.old) (T.seen turns.old) result (C.at chooser.new) (T.seen turns.new) }
    ensures err { IfErr result (λ fault. HasCause (T.who turns.old) (T.seen turns.old) fault (T.seen turns.new)) }
    ensures unsealed { SealsNone (T.who turns.old) (T.seen turns.old) (T.seen turns.new) }
    ensures idle { Idles (T.who turns.old) (T.seen turns.old) (T.seen turns.new) }
    ensures calm { OnOk result (CalmSince (T.who turns.old) (T.seen turns.old) (T.seen turns.new)) }
    ensures memory { IfErr result (λ fault. fault ≡ Memory → CalmSince (T.who turns.old) (T.seen turns.old) (T.seen turns.new)) }
    ensures closes { ClosesOwn (T.who turns.old) (T.seen turns.old) result (T.seen turns.new) }
{
    let (version, chain) = look(turns)?;
    if last_of(&chain).id > segment.id {
        return Ok((version, chain));
    }
    let mut known = Known {
        version,
        chain,
        tail: 0,
    };
    finish(turns, chooser, alloc, &mut known)?;
    let (newer, current) = look(turns)?;
    Ok((newer, current))
}
