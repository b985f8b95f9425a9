//! What stands in a log that users share, and stood there at an earlier moment. Each function does nothing: its contract is the law.
ghost use Rattle.std.specs.Prelude.{◌<◌, ◌≤◌, ℕ, List, ◌++◌, length};
ghost use Rattle.delos_types.specs.declared.entry.Entry.{Entry};
ghost use Rattle.legal_journal.specs.declared.events.Event.{Event};
ghost use Rattle.legal_journal.specs.Journal.{IsLegal, state_of, tail_of, trim_of};
ghost use Rattle.legal_journal.specs.Laws.{Stands};
ghost use Rattle.virtual_log.specs.Holding.{Holds};

use legal_journal::rules::Rules;

/// What a log holds was somebody's to append.
pub fn what_is_held_was_sent<P: Rules>()
    ensures { (seen : List Event) (pos : ℕ) (e : Entry) → IsLegal P.law seen → Holds seen pos e → (who : ℕ) × P.law.may who e }
{}

/// Where nothing is trimmed that wasn't shown, the log holds an entry at each position below its tail.
pub fn what_is_below_the_tail_is_held<P: Rules>()
    ensures { ((log : List Entry) (n : ℕ) → P.law.floor log n → n ≤ length log) → (seen : List Event) (pos : ℕ) → IsLegal P.law seen
        → pos < tail_of (state_of seen) → (e : Entry) × Holds seen pos e }
{}

/// What a log holds below the tail of an earlier moment it held then. So an entry that is appended later comes to no
/// position below that tail.
pub fn what_is_below_the_tail_stays<P: Rules>()
    ensures { ((log : List Entry) (n : ℕ) → P.law.floor log n → n ≤ length log) → (early late : List Event) (pos : ℕ) (e : Entry) → IsLegal P.law (early ++ late)
        → pos < tail_of (state_of early) → Holds (early ++ late) pos e → Holds early pos e }
{}

/// Where nothing is trimmed that wasn't shown, the trim isn't above the tail, and what stands in the log stands below it.
pub fn what_stands_is_below_the_tail<P: Rules>()
    ensures trim { ((log : List Entry) (n : ℕ) → P.law.floor log n → n ≤ length log) → (seen : List Event) → IsLegal P.law seen
        → trim_of (state_of seen) ≤ tail_of (state_of seen) }
    ensures stands { ((log : List Entry) (n : ℕ) → P.law.floor log n → n ≤ length log) → (seen : List Event) (pos : ℕ) (e : Entry) → IsLegal P.law seen
        → Stands (state_of seen) pos e → pos < tail_of (state_of seen) }
{}
