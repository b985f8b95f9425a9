//! Laws of the chain of a log that users share by their turns. Each function does nothing: its contract is the law.
ghost use Rattle.std.specs.Prelude.{◌+◌, ◌≤◌, ℕ, List, ◌++◌, length};
ghost use Rattle.chain_map.specs.Chain.{first_start, last_id};
ghost use Rattle.legal_journal.specs.declared.events.Event.{Event};
ghost use Rattle.legal_journal.specs.Journal.{IsLegal, state_of};
ghost use Rattle.node_lines.specs.Chains.{HasStarted};

use legal_journal::rules::Rules;

/// Neither the version of the chain, nor its last loglet, nor the first position that it holds is ever an earlier one; a
/// position at which a segment started stays one, as long as it isn't below that first position.
pub fn a_chain_goes_on<P: Rules>()
    ensures version { (early late : List Event) → IsLegal P.law (early ++ late)
        → (state_of early).register.version ≤ (state_of (early ++ late)).register.version }
    ensures last { (early late : List Event) → IsLegal P.law (early ++ late)
        → last_id (state_of early).register.chain ≤ last_id (state_of (early ++ late)).register.chain }
    ensures first { (early late : List Event) → IsLegal P.law (early ++ late)
        → first_start (state_of early).register.chain ≤ first_start (state_of (early ++ late)).register.chain }
    ensures started { (early late : List Event) (pos : ℕ) → IsLegal P.law (early ++ late)
        → HasStarted (state_of early).register.chain pos → HasStarted (state_of (early ++ late)).register.chain pos }
{}

/// The last loglet of the chain is one of the shelf.
pub fn a_last_loglet_is_of_the_shelf<P: Rules>()
    ensures { (seen : List Event) → IsLegal P.law seen
        → last_id (state_of seen).register.chain + 1 ≤ length P.law.shelf }
{}
