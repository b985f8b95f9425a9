//! Laws of what a legal journal changed. Each function does nothing: its contract is the law.
ghost use Rattle.std.specs.Prelude.{◌≡◌, ◌⊎◌, ◌<◌, ◌≤◌, ◌+◌, ◌++◌, ℕ, List, Some, Contains};
ghost use Rattle.delos_types.specs.declared.entry.Entry.{Entry};
ghost use Rattle.delos_types.specs.declared.chain.Chain.{Chain};
ghost use Rattle.legal_journal.specs.declared.events.Event.{Event};
ghost use Rattle.legal_journal.specs.Journal.{IsLegal, state_of, trim_of};
ghost use Rattle.virtual_log.specs.Holding.{Holds, IsTrimmed};
ghost use Rattle.journal_laws.specs.Changes.{appended, raised, TrimsUpTo, Frees};

use legal_journal::rules::Rules;

/// Each entry that was appended is one that somebody may append.
pub fn what_is_appended_may_be<P: Rules>()
    ensures { (events : List Event) (e : Entry) → IsLegal P.law events → Contains (appended events) e → (who : ℕ) × P.law.may who e }
{}

/// An entry that the log holds, or shows, was appended.
pub fn what_stands_was_appended<P: Rules>()
    ensures held { (seen : List Event) (pos : ℕ) (e : Entry) → IsLegal P.law seen → Holds seen pos e → Contains (appended seen) e }
    ensures shown { (seen : List Event) (pos : ℕ) (e : Entry) → IsLegal P.law seen → (state_of seen).shown pos ≡ Some e → Contains (appended seen) e }
{}

/// A journal is legal by other rules too, where they let who appended an entry append it, and the log be trimmed where it was.
pub fn other_rules_let_it<P: Rules, Q: Rules>()
    ensures { (events : List Event) → IsLegal P.law events
        → ((who : ℕ) (e : Entry) → Contains (appended events) e → P.law.may who e → Q.law.may who e)
        → ((log : List Entry) (n : ℕ) → Contains (raised events) n → P.law.floor log n → Q.law.floor log n)
        → Q.law.shelf ≡ P.law.shelf → IsLegal Q.law events }
{}

/// A trim that was written, or may have been, is none, or the log may be trimmed so.
pub fn what_is_raised_was_free<P: Rules>()
    ensures { (seen : List Event) (n : ℕ) → IsLegal P.law seen → Contains (raised seen) n → (n ≡ 0) ⊎ Frees P.law.floor seen n }
{}

/// The trim of a chain that the register gave is none, or was written.
pub fn what_is_given_was_raised<P: Rules>()
    ensures given { (seen : List Event) (version : ℕ) (chain : Chain) → IsLegal P.law seen → (state_of seen).register.given version ≡ Some chain
        → (chain.trim ≡ 0) ⊎ Contains (raised seen) chain.trim }
    ensures trim { (seen : List Event) → IsLegal P.law seen → (trim_of (state_of seen) ≡ 0) ⊎ Contains (raised seen) (trim_of (state_of seen)) }
    ensures trimmed { (seen : List Event) (pos : ℕ) → IsLegal P.law seen → IsTrimmed seen pos → (n : ℕ) × Contains (raised seen) n × (pos < n) }
{}

/// Where the rules let no log be trimmed above m, nothing is.
pub fn a_low_floor_keeps<P: Rules>()
    ensures upto { (m : ℕ) → ((log : List Entry) (n : ℕ) → P.law.floor log n → n ≤ m) → (seen : List Event) → IsLegal P.law seen → TrimsUpTo m seen }
    ensures below { (m : ℕ) → ((log : List Entry) (n : ℕ) → P.law.floor log n → n ≤ m) → (seen : List Event) (pos : ℕ) → IsLegal P.law seen → IsTrimmed seen pos → pos + 1 ≤ m }
{}
