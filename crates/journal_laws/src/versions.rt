//! Laws of the versions of a chain that several users write. Each function does nothing: its contract is the law.
ghost use Rattle.std.specs.Prelude.{◌<◌, ℕ, List, ◌++◌, ◌∷◌};
ghost use Rattle.delos_types.specs.declared.chain.Chain.{Chain};
ghost use Rattle.chain_map.specs.Chain.{last_id};
ghost use Rattle.legal_journal.specs.declared.events.Event.{Event};
ghost use Rattle.legal_journal.specs.Journal.{IsLegal, state_of};
ghost use Rattle.journal_laws.specs.Versions.{write, refusal, IsFurther};

use legal_journal::rules::Rules;

/// Of two chains that were written, by whomever, the later has the higher version.
pub fn later_writes_have_higher_versions<P: Rules>()
    ensures { (who other expected wanted version second : ℕ) (chain next : Chain) (before between after : List Event)
        → IsLegal P.law ((before ++ write who expected chain version ∷ between) ++ write other wanted next second ∷ after)
        → version < second }
{}

/// A write was refused, and the chain that stood in its way goes on behind the loglet that was the last one at an earlier moment: that
/// chain has a higher version than the one of that moment, and the last id has risen since.
pub fn a_refusal_goes_further<P: Rules>()
    ensures { (who expected version : ℕ) (asked chain : Chain) (looked before after : List Event)
        → IsLegal P.law ((looked ++ before) ++ refusal who expected asked version chain ∷ after)
        → last_id (state_of looked).register.chain < last_id chain
        → IsFurther (state_of looked).register (state_of ((looked ++ before) ++ refusal who expected asked version chain ∷ after)).register version }
{}
