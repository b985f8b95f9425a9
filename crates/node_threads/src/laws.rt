//! Laws of the journal under the lock. Each function does nothing: its contract is the law.
ghost use Rattle.std.specs.Prelude.{ℕ, List};
ghost use Rattle.legal_journal.specs.declared.events.Event.{Event};
ghost use Rattle.legal_journal.specs.Journal.{IsLegal, state_of};
ghost use Rattle.pass_lock.specs.Journal.{Follows};
ghost use Rattle.node_threads.specs.Passes.{signer};
ghost use Rattle.node_threads.specs.Running.{LogGoesOn};

use legal_journal::rules::Rules;

/// Whatever was seen with a part of the lock, the log that a later turn finds there goes on from it, whoever made the events between.
pub fn the_running_log_goes_on<P: Rules>()
    ensures { (part : ℕ) (seen journal : List Event) → Follows signer part seen journal → IsLegal P.law journal
        → LogGoesOn (state_of seen) (state_of journal) }
{}
