//! Laws of how far the chain goes. Each function does nothing: its contract is the law.
ghost use Rattle.std.specs.Prelude.{◌≡◌, ◌<◌, ◌≤◌, ℕ, List, length, count_by, Contains};
ghost use Rattle.chain_map.specs.Chain.{last_id};
ghost use Rattle.legal_journal.specs.declared.events.Event.{Event};
ghost use Rattle.legal_journal.specs.Journal.{IsLegal, state_of};
ghost use Rattle.legal_journal.specs.Sealing.{begins_seal};
ghost use Rattle.journal_laws.specs.Seals.{seals_in};

use legal_journal::rules::Rules;

/// The Seals that were begun stand in a list with one element for each. Each loglet below the last one of the chain is in it, so the last
/// id is at most their number.
pub fn a_chain_goes_as_far_as_seals<P: Rules>()
    ensures each { (events : List Event) (id : ℕ) → IsLegal P.law events → id < last_id (state_of events).register.chain → Contains (seals_in events) id }
    ensures one_each { (events : List Event) → length (seals_in events) ≡ count_by begins_seal events }
    ensures most { (events : List Event) → IsLegal P.law events → last_id (state_of events).register.chain ≤ count_by begins_seal events }
{}

/// A list that has each number below n has at least n elements.
pub fn a_list_with_all_numbers_is_as_long()
    ensures { (n : ℕ) (numbers : List ℕ) → ((id : ℕ) → id < n → Contains numbers id) → n ≤ length numbers }
{}
