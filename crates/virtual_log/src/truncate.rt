//! The trim of the chain is raised, and the loglets let go of what lies below it.
ghost use Rattle.std.specs.Prelude.{◌≡◌, ◌<◌, ◌≤◌, ℕ, None, Some, slice_get, IfOk, OnOk, IfErr};
ghost use Rattle.chain_map.specs.Chain.{last_segment};
ghost use Rattle.delos_types.specs.declared.chain.Segment.{Segment};
ghost use Rattle.legal_journal.specs.Journal.{state_of, trim_of, IsLegal, IsFree};
ghost use Rattle.virtual_log.specs.Turning.{Later};
ghost use Rattle.virtual_log.specs.Causes.{HasCause, CalmSince};
ghost use Rattle.virtual_log.specs.declared.fault.Fault.TheVariants.{Memory};
ghost use Rattle.virtual_log.specs.Sealing.{SealsNone};
ghost use Rattle.virtual_log.specs.Log.{GoesBy};
ghost use Rattle.virtual_log.specs.Truncating.{IsTruncated, length_below, LetsGo, AreTrimmed, IsPrefixTrimmed, Spares, TrimsLooked};
ghost use Rattle.virtual_log.specs.Saying.{DrawsOwn, SaysNone};
ghost use Rattle.virtual_log.specs.Operating.{Operates, ClosesOwn};

use crate::calls::Known;
use crate::fault::Fault;
use crate::turn::{begin, carry_on, look};
use crate::write::{Change, write};
use delos_types::chain::Segment;
use fate_words::chooser::Chooser;
use legal_journal::rules::Rules;
use legal_journal::turns::Turns;
use loglet_api::call::{Answer, Op};
use std::alloc::Global;

/// Raises the trim of the chain to `n`, and drops the segments below it. Writes nothing where the trim
/// is as high already.
pub fn truncate_on<T: Turns>(
    turns: &mut T,
    alloc: Global,
    known: &mut Known,
    n: u64,
) -> Result<(u64, u64), Fault>
    requires legal { IsLegal T.Law.law (T.seen turns.old) }
    requires goes_by { GoesBy (state_of (T.seen turns.old)) known.old.version known.old.chain known.old.tail }
    requires known { n ≤ known.old.tail }
    requires free { IsFree (state_of (T.seen turns.old)).shown T.Law.law.floor n }
    ensures later { Later T.Law.law (T.seen turns.old) (T.seen turns.new) }
    ensures who { T.who turns.new ≡ T.who turns.old }
    ensures goes_by { GoesBy (state_of (T.seen turns.new)) known.new.version known.new.chain known.new.tail }
    ensures known { known.new.tail ≡ known.old.tail }
    ensures truncated { IfOk result (λ x. IsTruncated (T.who turns.old) (T.seen turns.old) n x.0 x.1 (T.seen turns.new)) }
    ensures stands { IfOk result (λ x. (x.0 ≡ known.new.version) × (x.1 ≡ known.new.chain.trim)) }
    ensures spares { Spares (T.who turns.old) (T.seen turns.old) n (T.seen turns.new) }
    ensures silent { SaysNone (T.who turns.old) (T.seen turns.old) (T.seen turns.new) }
    ensures err { IfErr result (λ fault. HasCause (T.who turns.old) (T.seen turns.old) fault (T.seen turns.new)) }
    ensures unsealed { SealsNone (T.who turns.old) (T.seen turns.old) (T.seen turns.new) }
    ensures calm { OnOk result (CalmSince (T.who turns.old) (T.seen turns.old) (T.seen turns.new)) }
    ensures memory { IfErr result (λ fault. fault ≡ Memory → CalmSince (T.who turns.old) (T.seen turns.old) (T.seen turns.new)) }
    ensures closes { Operates (T.who turns.old) None None (T.seen turns.old) (T.seen turns.new) }
    ensures rises { (last_segment known.old.chain).id ≤ (last_segment known.new.chain).id }
{
    let (version, chain) = look(turns)?;
    known.version = version;
    known.chain = chain;
    if n <= known.chain.trim {
        return Ok((known.version, known.chain.trim));
    }
    write(turns, alloc, known, Change::Raise(n))?;
    Ok((known.version, known.chain.trim))
}

/// How much of a segment lies below `n`.
fn length_below(segment: Segment, n: u64) -> u64
    ensures { result ≡ length_below segment n }
{
    match segment.end {
        None => n.saturating_sub(segment.start),
        Some(end) => end.min(n).saturating_sub(segment.start),
    }
}

/// Lets the loglet of a segment go of what lies below `n`, if the segment starts there. With Ok it answered that it did.
fn trim_segment<T: Turns, C: Chooser>(
    turns: &mut T,
    chooser: &mut C,
    segment: Segment,
    n: u64,
) -> Result<(), Fault>
    requires legal { IsLegal T.Law.law (T.seen turns.old) }
    requires started { (state_of (T.seen turns.old)).starts segment.id ≡ Some segment.start }
    requires trim { n ≤ trim_of (state_of (T.seen turns.old)) }
    ensures later { Later T.Law.law (T.seen turns.old) (T.seen turns.new) }
    ensures who { T.who turns.new ≡ T.who turns.old }
    ensures trimmed { OnOk result (segment.start < n → LetsGo (T.who turns.old) (T.seen turns.old) segment n (T.seen turns.new)) }
    ensures draws { DrawsOwn C.gives (T.who turns.old) (C.at chooser.old) (T.seen turns.old) result (C.at chooser.new) (T.seen turns.new) }
    ensures err { IfErr result (λ fault. HasCause (T.who turns.old) (T.seen turns.old) fault (T.seen turns.new)) }
    ensures unsealed { SealsNone (T.who turns.old) (T.seen turns.old) (T.seen turns.new) }
    ensures calm { OnOk result (CalmSince (T.who turns.old) (T.seen turns.old) (T.seen turns.new)) }
    ensures memory { IfErr result (λ fault. fault ≡ Memory → CalmSince (T.who turns.old) (T.seen turns.old) (T.seen turns.new)) }
    ensures closes { ClosesOwn (T.who turns.old) (T.seen turns.old) result (T.seen turns.new) }
{
    if segment.start >= n {
        return Ok(());
    }
    let id = segment.id;
    let length = length_below(segment, n);
    let ticket = begin(turns, id, Op::Trim(length))?;
    match carry_on(turns, chooser, id, ticket)? {
        Answer::TrimDone => Ok(()),
        Answer::NoQuorum { unreached } => Err(Fault::NoQuorum { id, unreached }),
        _ => unreachable!(),
    }
}

/// Lets the loglets of these segments go of what lies below `n`.
fn trim_segments<T: Turns, C: Chooser>(
    turns: &mut T,
    chooser: &mut C,
    segments: &[Segment],
    n: u64,
) -> Result<(), Fault>
    requires legal { IsLegal T.Law.law (T.seen turns.old) }
    requires started { (k : ℕ) (s : Segment) → slice_get segments.now k ≡ Some s → (state_of (T.seen turns.old)).starts s.id ≡ Some s.start }
    requires trim { n ≤ trim_of (state_of (T.seen turns.old)) }
    ensures later { Later T.Law.law (T.seen turns.old) (T.seen turns.new) }
    ensures who { T.who turns.new ≡ T.who turns.old }
    ensures trimmed { OnOk result (AreTrimmed (T.who turns.old) (T.seen turns.old) segments.now n (T.seen turns.new)) }
    ensures draws { DrawsOwn C.gives (T.who turns.old) (C.at chooser.old) (T.seen turns.old) result (C.at chooser.new) (T.seen turns.new) }
    ensures err { IfErr result (λ fault. HasCause (T.who turns.old) (T.seen turns.old) fault (T.seen turns.new)) }
    ensures unsealed { SealsNone (T.who turns.old) (T.seen turns.old) (T.seen turns.new) }
    ensures calm { OnOk result (CalmSince (T.who turns.old) (T.seen turns.old) (T.seen turns.new)) }
    ensures memory { IfErr result (λ fault. fault ≡ Memory → CalmSince (T.who turns.old) (T.seen turns.old) (T.seen turns.new)) }
    ensures closes { ClosesOwn (T.who turns.old) (T.seen turns.old) result (T.seen turns.new) }
{
    'segment: for segment in segments {
        trim_segment(turns, chooser, *segment, n)?;
    }
    Ok(())
}

/// Raises the trim of the chain to `n`, and lets the loglets go of what lies below it.
pub fn prefix_trim_on<T: Turns, C: Chooser>(
    turns: &mut T,
    chooser: &mut C,
    alloc: Global,
    known: &mut Known,
    n: u64,
) -> Result<u64, Fault>
    requires legal { IsLegal T.Law.law (T.seen turns.old) }
    requires goes_by { GoesBy (state_of (T.seen turns.old)) known.old.version known.old.chain known.old.tail }
    requires known { n ≤ known.old.tail }
    requires free { IsFree (state_of (T.seen turns.old)).shown T.Law.law.floor n }
    ensures later { Later T.Law.law (T.seen turns.old) (T.seen turns.new) }
    ensures who { T.who turns.new ≡ T.who turns.old }
    ensures goes_by { GoesBy (state_of (T.seen turns.new)) known.new.version known.new.chain known.new.tail }
    ensures known { known.new.tail ≡ known.old.tail }
    ensures trimmed { IfOk result (λ trim. IsPrefixTrimmed (T.who turns.old) (T.seen turns.old) n trim (T.seen turns.new)) }
    ensures looked { OnOk result (TrimsLooked (T.who turns.old) (T.seen turns.old) n (T.seen turns.new)) }
    ensures stands { IfOk result (λ trim. trim ≡ known.new.chain.trim) }
    ensures draws { DrawsOwn C.gives (T.who turns.old) (C.at chooser.old) (T.seen turns.old) result (C.at chooser.new) (T.seen turns.new) }
    ensures err { IfErr result (λ fault. HasCause (T.who turns.old) (T.seen turns.old) fault (T.seen turns.new)) }
    ensures unsealed { SealsNone (T.who turns.old) (T.seen turns.old) (T.seen turns.new) }
    ensures calm { OnOk result (CalmSince (T.who turns.old) (T.seen turns.old) (T.seen turns.new)) }
    ensures memory { IfErr result (λ fault. fault ≡ Memory → CalmSince (T.who turns.old) (T.seen turns.old) (T.seen turns.new)) }
    ensures closes { ClosesOwn (T.who turns.old) (T.seen turns.old) result (T.seen turns.new) }
    ensures rises { (last_segment known.old.chain).id ≤ (last_segment known.new.chain).id }
{
    let (version, chain) = look(turns)?;
    known.version = version;
    known.chain = chain;
    let looked = known.chain.segments.clone()?;
    let (_, trim) = truncate_on(turns, alloc, known, n)?;
    trim_segments(turns, chooser, looked.as_slice(), n)?;
    Ok(trim)
}
