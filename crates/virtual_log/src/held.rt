//! What a log holds at a position. Each function does nothing: its contract is the law.
ghost use Rattle.std.specs.Prelude.{◌≡◌, ℕ, List};
ghost use Rattle.delos_types.specs.declared.entry.Entry.{Entry};
ghost use Rattle.legal_journal.specs.declared.events.Event.{Event};
ghost use Rattle.legal_journal.specs.Journal.{state_of, IsLegal};
ghost use Rattle.legal_journal.specs.Laws.{Stands};
ghost use Rattle.virtual_log.specs.Holding.{Holds, Stays};

use legal_journal::rules::Rules;

/// What is held at a moment of a legal journal is held at every later one.
pub fn what_is_held_stays<P: Rules>()
    ensures { Stays P.law Holds }
{}

/// What is held at a position is one entry, by whatever chains it is held there.
pub fn what_is_held_agrees<P: Rules>()
    ensures { (events : List Event) (pos : ℕ) (e f : Entry) → IsLegal P.law events
        → Holds events pos e → Holds events pos f → e ≡ f }
{}

/// What is held stands in the log, or was trimmed there.
pub fn what_is_held_stands<P: Rules>()
    ensures { (events : List Event) (pos : ℕ) (e : Entry) → IsLegal P.law events
        → Holds events pos e → Stands (state_of events) pos e }
{}
