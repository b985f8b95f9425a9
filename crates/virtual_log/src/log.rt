//! The virtual log.
ghost use Rattle.std.specs.Prelude.{◌≡◌, ◌≤◌, ◌<◌, ◌+◌, length, min, max, IfOk, OnOk, IfErr, OnErr, None};
ghost use Rattle.delos_types.specs.Spelling.{IsSpellable};
ghost use Rattle.chain_map.specs.Chain.{first_chain, last_segment};
ghost use Rattle.legal_journal.specs.Journal.{state_of, IsLegal, IsFree, tail_of, trim_of};
ghost use Rattle.legal_journal.specs.Laws.{Stands};
ghost use Rattle.virtual_log.specs.Turning.{OnlyOwn, Later, IsAbove};
ghost use Rattle.virtual_log.specs.Causes.{HasCause, CalmSince};
ghost use Rattle.virtual_log.specs.declared.fault.Fault.TheVariants.{Memory};
ghost use Rattle.virtual_log.specs.Next.{IsNext};
ghost use Rattle.virtual_log.specs.Holding.{Holds, Reads};
ghost use Rattle.virtual_log.specs.Log.{LogView, GoesBy};
ghost use Rattle.virtual_log.specs.Extending.{IsExtension};
ghost use Rattle.virtual_log.specs.Sealing.{SealsNone, SealsLast};
ghost use Rattle.virtual_log.specs.Saying.{DrawsOwn, SaysNone};
ghost use Rattle.virtual_log.specs.Operating.{Operates, ClosesOwn};
ghost use Rattle.virtual_log.specs.Attempts.{AppendsOnce, AppendsAtMostOnce};
ghost use Rattle.virtual_log.specs.Truncating.{IsTruncated, IsPrefixTrimmed, Spares, TrimsLooked};

use crate::calls::{Known, Next, append_on, read_from, tail_on};
use crate::extend::{Extension, extend_on};
use crate::fault::Fault;
use crate::rest::Rested;
use crate::truncate::{prefix_trim_on, truncate_on};
use chain_map::change::first_chain;
use delos_types::entry::Entry;
use fate_words::chooser::Chooser;
use legal_journal::rules::Rules;
use legal_journal::turns::Turns;
use std::alloc::Global;
use std::marker::Model;

/// A log over a chain of loglets. It never answers "sealed": it finishes the replacement of a sealed
/// loglet, whoever began it, and goes on.
#[derive(Drop)]
pub struct VirtualLog<T: Turns, C: Chooser> {
    pub(crate) alloc: Global,
    pub(crate) turns: T,
    pub(crate) chooser: C,
    pub(crate) shelf_len: u32,
    pub(crate) known: Known,
}

/// What a virtual log was made of.
#[derive(Drop)]
pub struct Parts<T, C> {
    pub turns: T,
    pub chooser: C,
}

impl<T: Turns, C: Chooser> Model for VirtualLog<T, C> {
    ghost use Rattle.virtual_log.specs.Log.{LogView, LogOk};

    ghost Value = { LogView };

    ghost view = { λ l. record { who = T.who l.turns; seen = T.seen l.turns; known = l.known.tail; version = l.known.version; chain = l.known.chain; words = C.at l.chooser } };

    ghost invariant = { λ l. LogOk T.Law.law (record { who = T.who l.turns; seen = T.seen l.turns; known = l.known.tail; version = l.known.version; chain = l.known.chain; words = C.at l.chooser }) l.shelf_len };
}

impl<T: Turns, C: Chooser> VirtualLog<T, C> {
    /// A virtual log that knows nothing yet but the first chain, over a shelf of so many loglets. Makes
    /// no event. Without memory it hands the parts back.
    pub fn new(alloc: Global, turns: T, chooser: C, shelf_len: u32) -> Result<Self, Parts<T, C>>
        requires legal { IsLegal T.Law.law (T.seen turns) }
        requires shelf { shelf_len ≡ length T.Law.law.shelf }
        ensures ok { IfOk result (λ l. l ≡ record { who = T.who turns; seen = T.seen turns; known = 0; version = 1; chain = first_chain; words = C.at chooser }) }
        ensures err { IfErr result (λ p. (p.turns ≡ turns) × (p.chooser ≡ chooser)) }
    {
        let Ok(chain) = first_chain(alloc) else {
            return Err(Parts { turns, chooser });
        };
        let known = Known {
            version: 1,
            chain,
            tail: 0,
        };
        Ok(VirtualLog {
            alloc,
            turns,
            chooser,
            shelf_len,
            known,
        })
    }

    /// The turns, with all that was seen. Takes no memory, and makes no event.
    pub fn into_parts(self) -> Parts<T, C>
        ensures who { T.who result.turns ≡ self.who }
        ensures seen { T.seen result.turns ≡ self.seen }
        ensures words { C.at result.chooser ≡ self.words }
    {
        let VirtualLog {
            alloc: _,
            turns,
            chooser,
            shelf_len: _,
            known: _,
        } = self;
        Parts { turns, chooser }
    }

    /// Gives the turns out, until `Rested::wake`. Takes no memory, and makes no event.
    pub fn rest(self) -> (Rested<C>, T)
        ensures rested { result.0 ≡ record { known = self.known; version = self.version; chain = self.chain; shelf_len = length T.Law.law.shelf; words = self.words } }
        ensures goes_by { GoesBy (state_of self.seen) self.version self.chain self.known }
        ensures who { T.who result.1 ≡ self.who }
        ensures seen { T.seen result.1 ≡ self.seen }
    {
        let VirtualLog {
            alloc,
            turns,
            chooser,
            shelf_len,
            known,
        } = self;
        let rested = Rested {
            alloc,
            chooser,
            shelf_len,
            known,
        };
        (rested, turns)
    }

    /// The greatest position + 1, tail or start that this value was answered. Takes no memory.
    pub fn known(&self) -> u64
        ensures value { result ≡ self.now.known }
        ensures within { result ≤ tail_of (state_of self.now.seen) }
    {
        self.known.tail
    }

    /// Appends an entry, which is this user's to append. Where the last loglet is sealed, lets the
    /// chain go on behind it, and appends again.
    ///
    /// Cost: one begin and its carries; after a replacement a few events more.
    pub fn append(&mut self, entry: &Entry) -> Result<u64, Fault>
        requires may { T.Law.law.may self.old.who entry.now }
        requires spelled { IsSpellable entry.now }
        ensures later { Later T.Law.law self.old.seen self.new.seen }
        ensures who { self.new.who ≡ self.old.who }

        // The entry stands at its position: now, and by the laws of a legal journal for good, until
        // it is trimmed there.
        ensures stands { IfOk result (λ pos. Stands (state_of self.new.seen) pos entry.now) }

        // A loglet holds it there, for good, whether the log shows it or was trimmed before.
        ensures held { IfOk result (λ pos. Holds self.new.seen pos entry.now) }

        // The position is above each one, and not below any tail, that was answered before the first
        // event of this call.
        ensures above { IfOk result (λ pos. IsAbove self.old.who self.old.seen pos self.new.seen) }
        ensures known { IfOk result (λ pos. self.new.known ≡ max self.old.known (pos + 1)) }

        // Each fault but `Memory` was an own event of this call.
        ensures err { IfErr result (λ fault. HasCause self.old.who self.old.seen fault self.new.seen) }

        // It began as many appends as were refused, by loglets that were sealed, and one more, each of this entry. Where a
        // loglet had no room or the register failed, it began no more than were refused; after another fault at most one.
        ensures once { OnOk result (AppendsOnce self.old.who entry.now self.old.seen self.new.seen) }
        ensures at_most { IfErr result (λ fault. AppendsAtMostOnce self.old.who entry.now self.old.seen fault self.new.seen) }

        // It began no Seal. Where it is answered Ok, and where memory was wanting, no own event told of a fault.
        ensures unsealed { SealsNone self.old.who self.old.seen self.new.seen }
        ensures calm { OnOk result (CalmSince self.old.who self.old.seen self.new.seen) }
        ensures memory { IfErr result (λ fault. fault ≡ Memory → CalmSince self.old.who self.old.seen self.new.seen) }
        ensures unknown { OnErr result (self.new.known ≡ self.old.known) }

        // The words with which it carried are those that the chooser gave, in that order, and it gave no other. Want of
        // memory may leave the last one: a carry for which memory is wanting is no event.
        ensures draws { DrawsOwn C.gives self.old.who self.old.words self.old.seen result self.new.words self.new.seen }

        // Each own carry and closing is of an operation that this call began, one after another, and none of them is left
        // open. Want of memory may leave the last one: a carry and a closing for which memory is wanting are no events.
        ensures closes { ClosesOwn self.old.who self.old.seen result self.new.seen }

        // The chain that it goes by ends with no earlier loglet than before.
        ensures rises { (last_segment self.old.chain).id ≤ (last_segment self.new.chain).id }
    {
        append_on(
            &mut self.turns,
            &mut self.chooser,
            self.alloc,
            &mut self.known,
            entry,
        )
    }

    /// A tail of the log.
    pub fn check_tail(&mut self) -> Result<u64, Fault>
        ensures later { Later T.Law.law self.old.seen self.new.seen }
        ensures who { self.new.who ≡ self.old.who }

        // No entry of the log stands above its tail, and this is no higher.
        ensures within { IfOk result (λ tail. tail ≤ tail_of (state_of self.new.seen)) }

        // It is above each position, and not below any tail, that was answered before the first event
        // of this call.
        ensures above { IfOk result (λ tail. IsAbove self.old.who self.old.seen tail self.new.seen) }
        ensures known { IfOk result (λ tail. self.new.known ≡ max self.old.known tail) }

        // It isn't below what this value was answered before.
        ensures forward { IfOk result (λ tail. self.old.known ≤ tail) }

        // Where no event of another came meanwhile it isn't below the log's tail either.
        ensures exact { IfOk result (λ tail. OnlyOwn self.old.who self.old.seen self.new.seen → tail_of (state_of self.new.seen) ≤ tail) }
        ensures err { IfErr result (λ fault. HasCause self.old.who self.old.seen fault self.new.seen) }
        ensures unsealed { SealsNone self.old.who self.old.seen self.new.seen }
        ensures draws { DrawsOwn C.gives self.old.who self.old.words self.old.seen result self.new.words self.new.seen }
        ensures calm { OnOk result (CalmSince self.old.who self.old.seen self.new.seen) }
        ensures memory { IfErr result (λ fault. fault ≡ Memory → CalmSince self.old.who self.old.seen self.new.seen) }
        ensures unknown { OnErr result (self.new.known ≡ self.old.known) }

        // Each own carry and closing is of an operation that this call began, and none is left open, as with `append`.
        ensures closes { ClosesOwn self.old.who self.old.seen result self.new.seen }
        ensures rises { (last_segment self.old.chain).id ≤ (last_segment self.new.chain).id }
    {
        tail_on(
            &mut self.turns,
            &mut self.chooser,
            self.alloc,
            &mut self.known,
        )
    }

    /// Seals the last loglet, and lets the chain go on in the next one of the shelf. Where another does so
    /// first, answers `Moved`; where the shelf has no next loglet, `NoSpare`, and nothing is sealed.
    ///
    /// It is for those alone who may seal. No other call asks for that right, so no other call begins a Seal.
    ///
    /// Cost: a read of the chain, a seal, a tail and a write. A write is tried again where others raised
    /// the trim meanwhile.
    pub fn extend(&mut self) -> Result<Extension, Fault>
        requires right { T.Law.seals self.old.who }
        ensures later { Later T.Law.law self.old.seen self.new.seen }
        ensures who { self.new.who ≡ self.old.who }

        // By the chain of this call's first look: there is no next loglet exactly with `NoSpare`, which
        // makes no other event. `Extended`: an own write stands, which closes that chain's last segment
        // and goes on at `start`. `Moved`: an own write was refused, in the chain that stands under that
        // version that segment is closed, and since the look another wrote a chain that goes on behind it.
        ensures extension { IfOk result (IsExtension (length T.Law.law.shelf) self.old.who self.old.seen self.old.known self.new.known self.new.version self.new.seen) }

        // Whatever comes of it, it begins no Seal, or one of the last loglet of that chain.
        ensures seals { SealsLast self.old.who self.old.seen self.new.seen }
        ensures err { IfErr result (λ fault. HasCause self.old.who self.old.seen fault self.new.seen) }
        ensures draws { DrawsOwn C.gives self.old.who self.old.words self.old.seen result self.new.words self.new.seen }
        ensures calm { OnOk result (CalmSince self.old.who self.old.seen self.new.seen) }
        ensures memory { IfErr result (λ fault. fault ≡ Memory → CalmSince self.old.who self.old.seen self.new.seen) }
        ensures unknown { OnErr result (self.new.known ≡ self.old.known) }

        // Each own carry and closing is of an operation that this call began, and none is left open, as with `append`.
        ensures closes { ClosesOwn self.old.who self.old.seen result self.new.seen }
        ensures rises { (last_segment self.old.chain).id ≤ (last_segment self.new.chain).id }
    {
        extend_on(
            &mut self.turns,
            &mut self.chooser,
            self.alloc,
            self.shelf_len,
            &mut self.known,
        )
    }

    /// Raises the trim of the chain to `n`, which is known and may be trimmed, and drops the segments
    /// below it. Answers the version and the trim of the chain then. Writes nothing where the trim is
    /// as high already.
    ///
    /// Cost: a read of the chain and a write, which is tried again where others changed the chain
    /// meanwhile.
    pub fn truncate(&mut self, n: u64) -> Result<(u64, u64), Fault>
        requires known { n ≤ self.old.known }
        requires free { IsFree (state_of self.old.seen).shown T.Law.law.floor n }
        ensures later { Later T.Law.law self.old.seen self.new.seen }
        ensures who { self.new.who ≡ self.old.who }
        ensures known { self.new.known ≡ self.old.known }

        // An own write raised the trim to n; or the register told a chain whose trim isn't below n.
        ensures truncated { IfOk result (λ x. IsTruncated self.old.who self.old.seen n x.0 x.1 self.new.seen) }
        ensures stands { IfOk result (λ x. (x.0 ≡ self.new.version) × (x.1 ≡ self.new.chain.trim)) }

        // It writes only where the chain of this call's first look has a lower trim.
        ensures spares { Spares self.old.who self.old.seen n self.new.seen }
        ensures err { IfErr result (λ fault. HasCause self.old.who self.old.seen fault self.new.seen) }
        ensures unsealed { SealsNone self.old.who self.old.seen self.new.seen }
        ensures silent { SaysNone self.old.who self.old.seen self.new.seen }
        ensures same { self.new.words ≡ self.old.words }
        ensures calm { OnOk result (CalmSince self.old.who self.old.seen self.new.seen) }
        ensures memory { IfErr result (λ fault. fault ≡ Memory → CalmSince self.old.who self.old.seen self.new.seen) }

        // It leaves no operation open, and neither carries nor closes one that it did not begin.
        ensures closes { Operates self.old.who None None self.old.seen self.new.seen }
        ensures rises { (last_segment self.old.chain).id ≤ (last_segment self.new.chain).id }
    {
        truncate_on(&mut self.turns, self.alloc, &mut self.known, n)
    }

    /// Raises the trim of the chain to `n`, as `truncate` does, and lets the loglets go of what lies
    /// below it. Answers the trim.
    ///
    /// Cost: two reads of the chain, a write, and a trim of each loglet whose segment starts below `n`.
    pub fn prefix_trim(&mut self, n: u64) -> Result<u64, Fault>
        requires known { n ≤ self.old.known }
        requires free { IsFree (state_of self.old.seen).shown T.Law.law.floor n }
        ensures later { Later T.Law.law self.old.seen self.new.seen }
        ensures who { self.new.who ≡ self.old.who }
        ensures known { self.new.known ≡ self.old.known }

        // Each segment, of the chain that was looked at first, that starts below n was trimmed up to n or
        // to its end.
        ensures trimmed { IfOk result (λ trim. IsPrefixTrimmed self.old.who self.old.seen n trim self.new.seen) }

        // That chain is the one of this call's first own event, which comes before the trim is raised.
        ensures looked { OnOk result (TrimsLooked self.old.who self.old.seen n self.new.seen) }
        ensures stands { IfOk result (λ trim. trim ≡ self.new.chain.trim) }
        ensures err { IfErr result (λ fault. HasCause self.old.who self.old.seen fault self.new.seen) }
        ensures unsealed { SealsNone self.old.who self.old.seen self.new.seen }
        ensures draws { DrawsOwn C.gives self.old.who self.old.words self.old.seen result self.new.words self.new.seen }
        ensures calm { OnOk result (CalmSince self.old.who self.old.seen self.new.seen) }
        ensures memory { IfErr result (λ fault. fault ≡ Memory → CalmSince self.old.who self.old.seen self.new.seen) }

        // Each own carry and closing is of an operation that this call began, and none is left open, as with `append`.
        ensures closes { ClosesOwn self.old.who self.old.seen result self.new.seen }
        ensures rises { (last_segment self.old.chain).id ≤ (last_segment self.new.chain).id }
    {
        prefix_trim_on(
            &mut self.turns,
            &mut self.chooser,
            self.alloc,
            &mut self.known,
            n,
        )
    }

    /// The first entry from position `least` on that isn't trimmed, below `most` and below what is
    /// known.
    ///
    /// Cost: one read of a loglet; the chain is read where others trimmed past what was known of it.
    pub fn read_next(&mut self, least: u64, most: u64) -> Result<Next, Fault>
        ensures later { Later T.Law.law self.old.seen self.new.seen }
        ensures who { self.new.who ≡ self.old.who }
        ensures known { self.new.known ≡ self.old.known }

        // The trim is that of the chain that this value goes by now.
        ensures next { IfOk result (IsNext self.old.seen self.new.seen least (min most self.old.known) self.new.chain.trim) }

        // An entry that is answered is held for good, also where the log was trimmed before it showed it.
        // `Trimmed`, and an entry further on, come only where `least` is trimmed.
        ensures reads { IfOk result (Reads Holds self.new.seen least (min most self.old.known)) }

        // Where no event of another came meanwhile, and the log isn't trimmed above `least`, its tail stays.
        ensures quiet { OnOk result (trim_of (state_of self.new.seen) ≤ least → OnlyOwn self.old.who self.old.seen self.new.seen
            → tail_of (state_of self.new.seen) ≡ tail_of (state_of self.old.seen)) }
        ensures err { IfErr result (λ fault. HasCause self.old.who self.old.seen fault self.new.seen) }
        ensures unsealed { SealsNone self.old.who self.old.seen self.new.seen }
        ensures draws { DrawsOwn C.gives self.old.who self.old.words self.old.seen result self.new.words self.new.seen }
        ensures calm { OnOk result (CalmSince self.old.who self.old.seen self.new.seen) }
        ensures memory { IfErr result (λ fault. fault ≡ Memory → CalmSince self.old.who self.old.seen self.new.seen) }

        // Each own carry and closing is of an operation that this call began, and none is left open, as with `append`.
        ensures closes { ClosesOwn self.old.who self.old.seen result self.new.seen }
        ensures rises { (last_segment self.old.chain).id ≤ (last_segment self.new.chain).id }
    {
        let end = most.min(self.known.tail);
        if end <= least {
            return Ok(Next::Nothing);
        }
        read_from(
            &mut self.turns,
            &mut self.chooser,
            &mut self.known,
            least,
            end,
        )
    }
}
