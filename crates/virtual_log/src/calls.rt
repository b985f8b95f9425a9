//! Appends, tails and reads of a log, each over as many turns as it takes.
ghost use Rattle.std.specs.Prelude.{◌≡◌, ◌<◌, ◌≤◌, ◌+◌, max, IfOk, OnOk, IfErr, OnErr, IfSome, IfNone, Some};
ghost use Rattle.chain_map.specs.Chain.{last_segment, last_id};
ghost use Rattle.delos_types.specs.Spelling.{IsSpellable};
ghost use Rattle.legal_journal.specs.Journal.{state_of, IsLegal, tail_of, trim_of};
ghost use Rattle.legal_journal.specs.Laws.{Stands};
ghost use Rattle.virtual_log.specs.Turning.{OnlyOwn, Later, IsAbove};
ghost use Rattle.virtual_log.specs.Causes.{HasCause, CalmSince};
ghost use Rattle.virtual_log.specs.declared.fault.Fault.TheVariants.{Memory};
ghost use Rattle.virtual_log.specs.Sealing.{SealsNone};
ghost use Rattle.virtual_log.specs.Log.{GoesBy};
ghost use Rattle.virtual_log.specs.Next.{IsNext};
ghost use Rattle.virtual_log.specs.Holding.{Holds, Reads};
ghost use Rattle.virtual_log.specs.Saying.{DrawsOwn};
ghost use Rattle.virtual_log.specs.Operating.{ClosesOwn};
ghost use Rattle.virtual_log.specs.Attempts.{AppendsOnce, AppendsAtMostOnce};

use crate::fault::Fault;
use crate::operation::{FoundTail, append_to, find_tail};
use crate::replace::{chain_behind, last_of};
use crate::turn::{begin, carry_on, look};
use chain_map::place::{Located, locate};
use delos_types::chain::Chain;
use delos_types::entry::Entry;
use fate_words::chooser::Chooser;
use legal_journal::rules::Rules;
use legal_journal::turns::Turns;
use loglet_api::call::{Answer, Op};
use std::alloc::Global;

/// The chain that a virtual log goes by, and how much of the log it knows.
#[derive(Drop)]
pub struct Known {
    pub version: u64,
    pub chain: Chain,
    /// The greatest position + 1 or tail that was answered.
    pub tail: u64,
}

/// Appends an entry to the open loglet. Where that is sealed, lets the chain go on behind it, and
/// appends again.
pub fn append_on<T: Turns, C: Chooser>(
    turns: &mut T,
    chooser: &mut C,
    alloc: Global,
    known: &mut Known,
    entry: &Entry,
) -> Result<u64, Fault>
    requires legal { IsLegal T.Law.law (T.seen turns.old) }
    requires goes_by { GoesBy (state_of (T.seen turns.old)) known.old.version known.old.chain known.old.tail }
    requires may { T.Law.law.may (T.who turns.old) entry.now }
    requires spelled { IsSpellable entry.now }
    ensures later { Later T.Law.law (T.seen turns.old) (T.seen turns.new) }
    ensures who { T.who turns.new ≡ T.who turns.old }
    ensures goes_by { GoesBy (state_of (T.seen turns.new)) known.new.version known.new.chain known.new.tail }
    ensures stands { IfOk result (λ pos. Stands (state_of (T.seen turns.new)) pos entry.now) }
    ensures held { IfOk result (λ pos. Holds (T.seen turns.new) pos entry.now) }
    ensures above { IfOk result (λ pos. IsAbove (T.who turns.old) (T.seen turns.old) pos (T.seen turns.new)) }
    ensures known { IfOk result (λ pos. known.new.tail ≡ max known.old.tail (pos + 1)) }
    ensures unknown { OnErr result (known.new.tail ≡ known.old.tail) }
    ensures draws { DrawsOwn C.gives (T.who turns.old) (C.at chooser.old) (T.seen turns.old) result (C.at chooser.new) (T.seen turns.new) }
    ensures err { IfErr result (λ fault. HasCause (T.who turns.old) (T.seen turns.old) fault (T.seen turns.new)) }
    ensures unsealed { SealsNone (T.who turns.old) (T.seen turns.old) (T.seen turns.new) }
    ensures once { OnOk result (AppendsOnce (T.who turns.old) entry.now (T.seen turns.old) (T.seen turns.new)) }
    ensures at_most { IfErr result (λ fault. AppendsAtMostOnce (T.who turns.old) entry.now (T.seen turns.old) fault (T.seen turns.new)) }
    ensures calm { OnOk result (CalmSince (T.who turns.old) (T.seen turns.old) (T.seen turns.new)) }
    ensures memory { IfErr result (λ fault. fault ≡ Memory → CalmSince (T.who turns.old) (T.seen turns.old) (T.seen turns.new)) }
    ensures closes { ClosesOwn (T.who turns.old) (T.seen turns.old) result (T.seen turns.new) }
    ensures rises { (last_segment known.old.chain).id ≤ (last_segment known.new.chain).id }
{
    'segment: loop {
        let last = last_of(&known.chain);
        if let Some(position) = append_to(turns, chooser, last, entry)? {
            known.tail = known.tail.max(position + 1);
            return Ok(position);
        }
        let (version, chain) = chain_behind(turns, chooser, alloc, last)?;
        known.version = version;
        known.chain = chain;
    }
}

/// Finds the tail of the open loglet. Where that is sealed, lets the chain go on behind it, and looks
/// there.
pub fn tail_on<T: Turns, C: Chooser>(
    turns: &mut T,
    chooser: &mut C,
    alloc: Global,
    known: &mut Known,
) -> Result<u64, Fault>
    requires legal { IsLegal T.Law.law (T.seen turns.old) }
    requires goes_by { GoesBy (state_of (T.seen turns.old)) known.old.version known.old.chain known.old.tail }
    ensures later { Later T.Law.law (T.seen turns.old) (T.seen turns.new) }
    ensures who { T.who turns.new ≡ T.who turns.old }
    ensures goes_by { GoesBy (state_of (T.seen turns.new)) known.new.version known.new.chain known.new.tail }
    ensures within { IfOk result (λ tail. tail ≤ tail_of (state_of (T.seen turns.new))) }
    ensures above { IfOk result (λ tail. IsAbove (T.who turns.old) (T.seen turns.old) tail (T.seen turns.new)) }
    ensures forward { IfOk result (λ tail. known.old.tail ≤ tail) }
    ensures exact { IfOk result (λ tail. OnlyOwn (T.who turns.old) (T.seen turns.old) (T.seen turns.new) → tail_of (state_of (T.seen turns.new)) ≤ tail) }
    ensures known { IfOk result (λ tail. known.new.tail ≡ max known.old.tail tail) }
    ensures unknown { OnErr result (known.new.tail ≡ known.old.tail) }
    ensures draws { DrawsOwn C.gives (T.who turns.old) (C.at chooser.old) (T.seen turns.old) result (C.at chooser.new) (T.seen turns.new) }
    ensures err { IfErr result (λ fault. HasCause (T.who turns.old) (T.seen turns.old) fault (T.seen turns.new)) }
    ensures unsealed { SealsNone (T.who turns.old) (T.seen turns.old) (T.seen turns.new) }
    ensures calm { OnOk result (CalmSince (T.who turns.old) (T.seen turns.old) (T.seen turns.new)) }
    ensures memory { IfErr result (λ fault. fault ≡ Memory → CalmSince (T.who turns.old) (T.seen turns.old) (T.seen turns.new)) }
    ensures closes { ClosesOwn (T.who turns.old) (T.seen turns.old) result (T.seen turns.new) }
    ensures rises { (last_segment known.old.chain).id ≤ (last_segment known.new.chain).id }
{
    'segment: loop {
        let last = last_of(&known.chain);
        if let FoundTail::Open(tail) = find_tail(turns, chooser, last)? {
            known.tail = known.tail.max(tail);
            return Ok(tail);
        }
        let (version, chain) = chain_behind(turns, chooser, alloc, last)?;
        known.version = version;
        known.chain = chain;
    }
}

/// What a read comes to.
#[derive(Drop)]
pub enum Next {
    /// Nothing is known that is left to read.
    Nothing,
    /// All of it is below this trim.
    Trimmed(u64),
    /// The first entry that isn't trimmed, and its position.
    Found(u64, Entry),
}

/// Reads one position. None: it was trimmed meanwhile.
fn read_at<T: Turns, C: Chooser>(
    turns: &mut T,
    chooser: &mut C,
    known: &Known,
    pos: u64,
) -> Result<Option<Entry>, Fault>
    requires legal { IsLegal T.Law.law (T.seen turns.old) }
    requires goes_by { GoesBy (state_of (T.seen turns.old)) known.now.version known.now.chain known.now.tail }
    requires trim { known.now.chain.trim ≤ pos }
    requires tail { pos < known.now.tail }
    ensures later { Later T.Law.law (T.seen turns.old) (T.seen turns.new) }
    ensures who { T.who turns.new ≡ T.who turns.old }
    ensures found { IfOk result (λ o. IfSome o (λ e. Stands (state_of (T.seen turns.old)) pos e)) }
    ensures held { IfOk result (λ o. IfSome o (λ e. Holds (T.seen turns.new) pos e)) }
    ensures cut { IfOk result (λ o. IfNone o (pos < trim_of (state_of (T.seen turns.new)))) }
    ensures quiet { OnOk result (OnlyOwn (T.who turns.old) (T.seen turns.old) (T.seen turns.new) → tail_of (state_of (T.seen turns.new)) ≡ tail_of (state_of (T.seen turns.old))) }
    ensures draws { DrawsOwn C.gives (T.who turns.old) (C.at chooser.old) (T.seen turns.old) result (C.at chooser.new) (T.seen turns.new) }
    ensures err { IfErr result (λ fault. HasCause (T.who turns.old) (T.seen turns.old) fault (T.seen turns.new)) }
    ensures unsealed { SealsNone (T.who turns.old) (T.seen turns.old) (T.seen turns.new) }
    ensures calm { OnOk result (CalmSince (T.who turns.old) (T.seen turns.old) (T.seen turns.new)) }
    ensures memory { IfErr result (λ fault. fault ≡ Memory → CalmSince (T.who turns.old) (T.seen turns.old) (T.seen turns.new)) }
    ensures closes { ClosesOwn (T.who turns.old) (T.seen turns.old) result (T.seen turns.new) }
{
    let Located::Inside { id, index } = locate(&known.chain, pos) else {
        unreachable!()
    };
    let ticket = begin(turns, id, Op::Read(index))?;
    match carry_on(turns, chooser, id, ticket)? {
        Answer::Got(entry) => Ok(Some(entry)),
        Answer::CutAt(_) => Ok(None),
        Answer::NoQuorum { unreached } => Err(Fault::NoQuorum { id, unreached }),
        _ => unreachable!(),
    }
}

/// The first entry from position `min` on and below `m` that isn't trimmed.
pub fn read_from<T: Turns, C: Chooser>(
    turns: &mut T,
    chooser: &mut C,
    known: &mut Known,
    min: u64,
    m: u64,
) -> Result<Next, Fault>
    requires legal { IsLegal T.Law.law (T.seen turns.old) }
    requires goes_by { GoesBy (state_of (T.seen turns.old)) known.old.version known.old.chain known.old.tail }
    requires some { min < m }
    requires tail { m ≤ known.old.tail }
    ensures later { Later T.Law.law (T.seen turns.old) (T.seen turns.new) }
    ensures who { T.who turns.new ≡ T.who turns.old }
    ensures goes_by { GoesBy (state_of (T.seen turns.new)) known.new.version known.new.chain known.new.tail }
    ensures known { known.new.tail ≡ known.old.tail }
    ensures next { IfOk result (IsNext (T.seen turns.old) (T.seen turns.new) min m known.new.chain.trim) }
    ensures reads { IfOk result (Reads Holds (T.seen turns.new) min m) }
    ensures quiet { OnOk result (trim_of (state_of (T.seen turns.new)) ≤ min → OnlyOwn (T.who turns.old) (T.seen turns.old) (T.seen turns.new)
        → tail_of (state_of (T.seen turns.new)) ≡ tail_of (state_of (T.seen turns.old))) }
    ensures draws { DrawsOwn C.gives (T.who turns.old) (C.at chooser.old) (T.seen turns.old) result (C.at chooser.new) (T.seen turns.new) }
    ensures err { IfErr result (λ fault. HasCause (T.who turns.old) (T.seen turns.old) fault (T.seen turns.new)) }
    ensures unsealed { SealsNone (T.who turns.old) (T.seen turns.old) (T.seen turns.new) }
    ensures calm { OnOk result (CalmSince (T.who turns.old) (T.seen turns.old) (T.seen turns.new)) }
    ensures memory { IfErr result (λ fault. fault ≡ Memory → CalmSince (T.who turns.old) (T.seen turns.old) (T.seen turns.new)) }
    ensures closes { ClosesOwn (T.who turns.old) (T.seen turns.old) result (T.seen turns.new) }
    ensures rises { (last_segment known.old.chain).id ≤ (last_segment known.new.chain).id }
{
    'trim: loop {
        let trim = known.chain.trim;
        if m <= trim {
            return Ok(Next::Trimmed(trim));
        }
        let pos = min.max(trim);
        if let Some(entry) = read_at(turns, chooser, known, pos)? {
            return Ok(Next::Found(pos, entry));
        }
        let (version, chain) = look(turns)?;
        known.version = version;
        known.chain = chain;
    }
}
