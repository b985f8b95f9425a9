//! Laws of the chain of every legal journal. Each function does nothing: its contract is the law.
ghost use Rattle.std.specs.Prelude.{◌<◌, ◌≤◌, ℕ, List, count_by, Contains};
ghost use Rattle.legal_journal.specs.declared.events.Event.{Event};
ghost use Rattle.legal_journal.specs.Journal.{IsLegal, state_of, ends};
ghost use Rattle.legal_journal.specs.Sealing.{begins_seal_on};

use legal_journal::rules::Rules;

/// A loglet began no more Seals than its events ask for.
pub fn seals_are_counted()
    ensures { (events : List Event) (i : ℕ) → ((state_of events).cells i).told.seals ≤ count_by (begins_seal_on i) events }
{}

/// A sealed tail is answered only where a Seal was begun on the loglet.
pub fn a_sealed_tail_was_asked<P: Rules>()
    ensures { (events : List Event) (i tail : ℕ) → IsLegal P.law events → Contains (ends (state_of events).cells i) tail
        → 0 < ((state_of events).cells i).told.seals }
{}
