//! Laws of every legal journal. Each function does nothing: its contract is the law.
ghost use Rattle.std.specs.Prelude.{◌≡◌, ℕ, ◌<◌, ◌≤◌, ◌⊎◌, List, ◌++◌, Some, IsSome};
ghost use Rattle.delos_types.specs.declared.entry.Entry.{Entry};
ghost use Rattle.delos_types.specs.declared.chain.Chain.{Chain};
ghost use Rattle.chain_map.specs.Chain.{IsChain};
ghost use Rattle.legal_journal.specs.declared.events.Event.{Event};
ghost use Rattle.legal_journal.specs.Journal.{IsLegal, state_of, log_at, trim_of, tail_of};
ghost use Rattle.legal_journal.specs.Laws.{Continues, Stands, IsClosedAtTails};

use crate::rules::Rules;

/// The log of a later moment has what an earlier one has, but for what was trimmed since; its tail
/// is no lower.
pub fn log_goes_on<P: Rules>()
    ensures { (early late : List Event) → IsLegal P.law (early ++ late)
        → Continues (state_of early) (state_of (early ++ late)) }
{}

/// On each position that an earlier log and a later one both have, they agree.
pub fn logs_agree<P: Rules>()
    ensures { (early late : List Event) (pos : ℕ) (e f : Entry) → IsLegal P.law (early ++ late)
        → log_at (state_of early) pos ≡ Some e → log_at (state_of (early ++ late)) pos ≡ Some f → e ≡ f }
{}

/// Each position from the trim up to the tail has an entry.
pub fn log_is_whole<P: Rules>()
    ensures { (events : List Event) (pos : ℕ) → IsLegal P.law events
        → trim_of (state_of events) ≤ pos → pos < tail_of (state_of events) → IsSome (log_at (state_of events) pos) }
{}

/// An entry that stands at a position stands there for good, until it is trimmed.
pub fn entries_stay<P: Rules>()
    ensures { (early late : List Event) (pos : ℕ) (e : Entry) → IsLegal P.law (early ++ late)
        → Stands (state_of early) pos e → Stands (state_of (early ++ late)) pos e }
{}

/// Each chain that the register gave is one, and each of its closed segments ends at a sealed tail
/// that its cell answered.
pub fn chains_are_joined<P: Rules>()
    ensures joined { (events : List Event) (version : ℕ) (c : Chain) → IsLegal P.law events
        → (state_of events).register.given version ≡ Some c → IsChain c }
    ensures closed { (events : List Event) (version : ℕ) (c : Chain) → IsLegal P.law events
        → (state_of events).register.given version ≡ Some c → IsClosedAtTails (state_of events) c }
{}
