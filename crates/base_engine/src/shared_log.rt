//! The log that nodes share.
ghost use Rattle.std.specs.Prelude.{◌≡◌, ℕ, ◌+◌, ◌≤◌, min, max, List, length, IfOk, OnOk, IfErr, OnErr};
ghost use Rattle.delos_types.specs.Spelling.{IsSpellable};
ghost use Rattle.delos_types.specs.declared.entry.Entry.{Entry};
ghost use Rattle.legal_journal.specs.declared.events.Event.{Event};
ghost use Rattle.legal_journal.specs.Journal.{state_of, tail_of, IsFree};
ghost use Rattle.legal_journal.specs.Laws.{Stands};
ghost use Rattle.virtual_log.specs.Turning.{OnlyOwn, Later, IsAbove};
ghost use Rattle.virtual_log.specs.Causes.{HasCause};
ghost use Rattle.virtual_log.specs.Truncating.{IsPrefixTrimmed};
ghost use Rattle.virtual_log.specs.Attempts.{AppendsOnce, AppendsAtMostOnce};
ghost use Rattle.virtual_log.specs.Holding.{Reads, Stays};
ghost use Rattle.virtual_log.specs.Sealing.{SealsLast};
ghost use Rattle.base_engine.specs.Reading.{IsExtendedBy};
ghost use Rattle.base_engine.specs.Following.{KeepsTail};

use delos_types::entry::Entry;
use legal_journal::rules::Rules;
use virtual_log::calls::Next;
use virtual_log::extend::Extension;
use virtual_log::fault::Fault;

/// A log to which others append too.
pub trait SharedLog {
    /// The rules of its users.
    type Law: Rules;

    /// By whom its events are.
    ghost who: { Self → ℕ };

    /// The journal, as far as it was seen.
    ghost seen: { Self → List Event };

    /// The greatest position + 1 or tail that it was answered.
    ghost reaches: { Self → ℕ };

    /// By this journal, the log holds the entry at the position, trimmed or not.
    ghost holds: { List Event → ℕ → Entry → Type 0 };

    fn known(&self) -> u64
        ensures value { result ≡ reaches self.now };

    /// Appends an entry, and answers its position.
    fn append(&mut self, entry: &Entry) -> Result<u64, Fault>
        requires may { Self.Law.law.may (who self.old) entry.now }
        requires spelled { IsSpellable entry.now }
        ensures later { Later Self.Law.law (seen self.old) (seen self.new) }
        ensures who { who self.new ≡ who self.old }
        ensures stands { IfOk result (λ pos. Stands (state_of (seen self.new)) pos entry.now) }
        ensures held { IfOk result (λ pos. holds (seen self.new) pos entry.now) }
        ensures above { IfOk result (λ pos. IsAbove (who self.old) (seen self.old) pos (seen self.new)) }
        ensures known { IfOk result (λ pos. reaches self.new ≡ max (reaches self.old) (pos + 1)) }

        // It began as many appends as were refused, and one more, of this entry alone; with a fault at most one more.
        ensures once { OnOk result (AppendsOnce (who self.old) entry.now (seen self.old) (seen self.new)) }
        ensures at_most { IfErr result (λ fault. AppendsAtMostOnce (who self.old) entry.now (seen self.old) fault (seen self.new)) }
        ensures err { IfErr result (λ fault. HasCause (who self.old) (seen self.old) fault (seen self.new)) }
        ensures unknown { OnErr result (reaches self.new ≡ reaches self.old) };

    /// A tail of the log.
    fn check_tail(&mut self) -> Result<u64, Fault>
        ensures later { Later Self.Law.law (seen self.old) (seen self.new) }
        ensures who { who self.new ≡ who self.old }
        ensures within { IfOk result (λ tail. tail ≤ tail_of (state_of (seen self.new))) }
        ensures above { IfOk result (λ tail. IsAbove (who self.old) (seen self.old) tail (seen self.new)) }
        ensures known { IfOk result (λ tail. reaches self.new ≡ max (reaches self.old) tail) }

        // It isn't below what was answered before.
        ensures forward { IfOk result (λ tail. reaches self.old ≤ tail) }

        // Where no event of another came meanwhile it isn't below the log's tail either.
        ensures exact { IfOk result (λ tail. OnlyOwn (who self.old) (seen self.old) (seen self.new) → tail_of (state_of (seen self.new)) ≤ tail) }
        ensures err { IfErr result (λ fault. HasCause (who self.old) (seen self.old) fault (seen self.new)) }
        ensures unknown { OnErr result (reaches self.new ≡ reaches self.old) };

    /// The first entry from position `least` on that isn't trimmed, below `most` and below what is known.
    fn read_next(&mut self, least: u64, most: u64) -> Result<Next, Fault>
        ensures later { Later Self.Law.law (seen self.old) (seen self.new) }
        ensures who { who self.new ≡ who self.old }
        ensures known { reaches self.new ≡ reaches self.old }
        ensures next { IfOk result (Reads holds (seen self.new) least (min most (reaches self.old))) }
        ensures quiet { OnOk result (KeepsTail (who self.old) least (seen self.old) (seen self.new)) }
        ensures err { IfErr result (λ fault. HasCause (who self.old) (seen self.old) fault (seen self.new)) };

    /// Lets the log go on in its next loglet. Where another does so first, answers `Moved`; where there is no next
    /// loglet, `NoSpare`, and nothing is sealed. It is for those alone who may seal.
    fn extend(&mut self) -> Result<Extension, Fault>
        requires right { Self.Law.seals (who self.old) }
        ensures later { Later Self.Law.law (seen self.old) (seen self.new) }
        ensures who { who self.new ≡ who self.old }
        ensures extension { IfOk result (IsExtendedBy (length Self.Law.law.shelf) (who self.old) (seen self.old) (reaches self.old) (reaches self.new) (seen self.new)) }

        // Whatever comes of it, it begins no Seal, or one of the loglet that its first look had as the last one.
        ensures seals { SealsLast (who self.old) (seen self.old) (seen self.new) }
        ensures known { reaches self.old ≤ reaches self.new }
        ensures err { IfErr result (λ fault. HasCause (who self.old) (seen self.old) fault (seen self.new)) };

    /// Raises the trim to `n`, which is known and may be trimmed, and lets the loglets go of what lies below it. Answers
    /// the trim.
    fn prefix_trim(&mut self, n: u64) -> Result<u64, Fault>
        requires known { n ≤ reaches self.old }
        requires free { IsFree (state_of (seen self.old)).shown Self.Law.law.floor n }
        ensures later { Later Self.Law.law (seen self.old) (seen self.new) }
        ensures who { who self.new ≡ who self.old }
        ensures known { reaches self.new ≡ reaches self.old }
        ensures trimmed { IfOk result (λ trim. IsPrefixTrimmed (who self.old) (seen self.old) n trim (seen self.new)) }
        ensures err { IfErr result (λ fault. HasCause (who self.old) (seen self.old) fault (seen self.new)) };

    /// What it holds it holds for good.
    ghost stays: { Stays Self.Law.law holds };
}
