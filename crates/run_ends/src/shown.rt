//! Laws of the log that stands in the loglets. Each function does nothing: its contract is the law.
ghost use Rattle.std.specs.Prelude.{◌≡◌, ◌≤◌, ◌++◌, ℕ, List, length, take, true};
ghost use Rattle.delos_types.specs.declared.entry.Entry.{Entry};
ghost use Rattle.loglet_api.specs.View.{LogletView};
ghost use Rattle.legal_journal.specs.declared.events.Event.{Event};
ghost use Rattle.legal_journal.specs.Journal.{IsLegal, state_of, log_at, trim_of, tail_of};
ghost use Rattle.fabric_core.specs.Log.{virtual_log_at, virtual_tail};
ghost use Rattle.virtual_log.specs.Holding.{Holds};
ghost use Rattle.engine_api.specs.Acted.{asked_in};
ghost use Rattle.engine_api.specs.Order.{is_clean};
ghost use Rattle.base_engine.specs.Reading.{IsFront};
ghost use Rattle.run_laws.specs.Ended.{LogStands};

use legal_journal::rules::Rules;

/// A front of the log that reaches the trim, and no further than the tail, stands in the loglets from the trim on.
pub fn the_log_stands<P: Rules>()
    ensures { (seen : List Event) (log : List Entry) (cells : List LogletView) → IsLegal P.law seen
        → IsFront Holds seen log → length log ≤ tail_of (state_of seen) → trim_of (state_of seen) ≤ length log
        → ((pos : ℕ) → trim_of (state_of seen) ≤ pos → virtual_log_at (state_of seen).register.chain cells pos ≡ log_at (state_of seen) pos)
        → virtual_tail (state_of seen).register.chain cells ≡ tail_of (state_of seen)
        → is_clean (λ s. 1) (asked_in 0 (take (trim_of (state_of seen)) log)) ≡ true
        → LogStands log (state_of seen).register.chain cells }
{}

/// Where nothing is trimmed that wasn't shown, a front of the log goes no further than its tail.
pub fn a_front_is_below_the_tail<P: Rules>()
    ensures { ((log : List Entry) (n : ℕ) → P.law.floor log n → n ≤ length log) → (seen : List Event) (log : List Entry) → IsLegal P.law seen
        → IsFront Holds seen log → length log ≤ tail_of (state_of seen) }
{}

/// A front of the log is one at every later moment.
pub fn a_front_grows<P: Rules>()
    ensures { (early late : List Event) (log : List Entry) → IsLegal P.law (early ++ late)
        → IsFront Holds early log → IsFront Holds (early ++ late) log }
{}

/// Of two fronts of the log, the one that isn't longer is how the other begins.
pub fn two_fronts_agree<P: Rules>()
    ensures { (seen : List Event) (log log' : List Entry) → IsLegal P.law seen
        → IsFront Holds seen log → IsFront Holds seen log' → length log ≤ length log' → log ≡ take (length log) log' }
{}
