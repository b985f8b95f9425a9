//! The last loglet of the chain is replaced on request (OSDI 2020): it is sealed, its tail is found, and the chain is
//! written that closes it there. Whoever writes first wins.
ghost use Rattle.std.specs.Prelude.{◌≡◌, ◌<◌, ◌≤◌, ◌+◌, length, IfOk, OnOk, IfErr, OnErr, None, Contains};
ghost use Rattle.chain_map.specs.Chain.{last_segment};
ghost use Rattle.legal_journal.specs.Journal.{state_of, IsLegal};
ghost use Rattle.virtual_log.specs.Turning.{Later};
ghost use Rattle.virtual_log.specs.Causes.{HasCause, CalmSince};
ghost use Rattle.virtual_log.specs.declared.fault.Fault.TheVariants.{Memory};
ghost use Rattle.virtual_log.specs.Log.{GoesBy};
ghost use Rattle.virtual_log.specs.Extending.{Closes, IsExtension};
ghost use Rattle.virtual_log.specs.Sealing.{SealsNone, SealsLast};
ghost use Rattle.virtual_log.specs.Saying.{DrawsOwn, SaysNone};
ghost use Rattle.virtual_log.specs.Operating.{Operates, ClosesOwn};

use crate::calls::Known;
use crate::fault::Fault;
use crate::operation::{FoundTail, find_tail, seal};
use crate::replace::last_of;
use crate::turn::look;
use crate::write::{Change, Settled, write};
use fate_words::chooser::Chooser;
use legal_journal::rules::Rules;
use legal_journal::turns::Turns;
use std::alloc::Global;

/// What a replacement comes to.
#[derive(Clone, Copy, PartialEq, Eq, Debug)]
pub enum Extension {
    /// The chain goes on in the next loglet: under this version, from this position on.
    Extended { version: u64, start: u64 },
    /// Another wrote a chain, of this version, that goes on behind the loglet.
    Moved { version: u64 },
    /// The shelf has no next loglet. Nothing was sealed.
    NoSpare,
}

/// Closes the last segment of the known chain at a sealed tail of its loglet, unless another chain has
/// closed it.
fn close_at<T: Turns>(
    turns: &mut T,
    alloc: Global,
    known: &mut Known,
    length: u64,
) -> Result<Extension, Fault>
    requires legal { IsLegal T.Law.law (T.seen turns.old) }
    requires goes_by { GoesBy (state_of (T.seen turns.old)) known.old.version known.old.chain known.old.tail }
    requires told { Contains ((state_of (T.seen turns.old)).cells (last_segment known.old.chain).id).ends length }
    ensures later { Later T.Law.law (T.seen turns.old) (T.seen turns.new) }
    ensures who { T.who turns.new ≡ T.who turns.old }
    ensures goes_by { GoesBy (state_of (T.seen turns.new)) known.new.version known.new.chain known.new.tail }
    ensures closed { IfOk result (Closes (T.who turns.old) (T.seen turns.old) (last_segment known.old.chain) known.old.tail known.new.tail known.new.version (T.seen turns.new)) }
    ensures unsealed { SealsNone (T.who turns.old) (T.seen turns.old) (T.seen turns.new) }
    ensures unknown { OnErr result (known.new.tail ≡ known.old.tail) }
    ensures silent { SaysNone (T.who turns.old) (T.seen turns.old) (T.seen turns.new) }
    ensures err { IfErr result (λ fault. HasCause (T.who turns.old) (T.seen turns.old) fault (T.seen turns.new)) }
    ensures calm { OnOk result (CalmSince (T.who turns.old) (T.seen turns.old) (T.seen turns.new)) }
    ensures memory { IfErr result (λ fault. fault ≡ Memory → CalmSince (T.who turns.old) (T.seen turns.old) (T.seen turns.new)) }
    ensures closes { Operates (T.who turns.old) None None (T.seen turns.old) (T.seen turns.new) }
    ensures rises { (last_segment known.old.chain).id ≤ (last_segment known.new.chain).id }
{
    let last = last_of(&known.chain);
    match write(turns, alloc, known, Change::Close { last, length })? {
        Settled::Written => {
            let start = last.start + length;
            known.tail = known.tail.max(start);
            Ok(Extension::Extended {
                version: known.version,
                start,
            })
        }
        Settled::Found => {
            Ok(Extension::Moved {
                version: known.version,
            })
        }
    }
}

/// Seals the last loglet, and lets the chain go on in the next one of the shelf, if there is one. It is for those alone
/// who may seal.
pub fn extend_on<T: Turns, C: Chooser>(
    turns: &mut T,
    chooser: &mut C,
    alloc: Global,
    shelf_len: u32,
    known: &mut Known,
) -> Result<Extension, Fault>
    requires legal { IsLegal T.Law.law (T.seen turns.old) }
    requires goes_by { GoesBy (state_of (T.seen turns.old)) known.old.version known.old.chain known.old.tail }
    requires shelf { shelf_len ≡ length T.Law.law.shelf }
    requires right { T.Law.seals (T.who turns.old) }
    ensures later { Later T.Law.law (T.seen turns.old) (T.seen turns.new) }
    ensures who { T.who turns.new ≡ T.who turns.old }
    ensures goes_by { GoesBy (state_of (T.seen turns.new)) known.new.version known.new.chain known.new.tail }
    ensures extension { IfOk result (IsExtension (length T.Law.law.shelf) (T.who turns.old) (T.seen turns.old) known.old.tail known.new.tail known.new.version (T.seen turns.new)) }
    ensures seals { SealsLast (T.who turns.old) (T.seen turns.old) (T.seen turns.new) }
    ensures unknown { OnErr result (known.new.tail ≡ known.old.tail) }
    ensures draws { DrawsOwn C.gives (T.who turns.old) (C.at chooser.old) (T.seen turns.old) result (C.at chooser.new) (T.seen turns.new) }
    ensures err { IfErr result (λ fault. HasCause (T.who turns.old) (T.seen turns.old) fault (T.seen turns.new)) }
    ensures calm { OnOk result (CalmSince (T.who turns.old) (T.seen turns.old) (T.seen turns.new)) }
    ensures memory { IfErr result (λ fault. fault ≡ Memory → CalmSince (T.who turns.old) (T.seen turns.old) (T.seen turns.new)) }
    ensures closes { ClosesOwn (T.who turns.old) (T.seen turns.old) result (T.seen turns.new) }
    ensures rises { (last_segment known.old.chain).id ≤ (last_segment known.new.chain).id }
{
    let (version, chain) = look(turns)?;
    known.version = version;
    known.chain = chain;
    let last = last_of(&known.chain);
    if last.id + 1 == shelf_len {
        return Ok(Extension::NoSpare);
    }
    seal(turns, chooser, last.id)?;
    let FoundTail::Sealed(length) = find_tail(turns, chooser, last)? else {
        unreachable!()
    };
    let closed = close_at(turns, alloc, known, length)?;
    Ok(closed)
}
