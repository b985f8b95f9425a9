//! Laws of the faults that a journal tells. Each function does nothing: its contract is the law.
ghost use Rattle.std.specs.Prelude.{◌≡◌, ◌≤◌, ◌<◌, ◌^◌, ◌-◌, ◌⊎◌, ℕ, List, ◌++◌, length, filter, count_by, min, Contains};
ghost use Rattle.delos_types.specs.declared.cause.Cause.{Cause};
ghost use Rattle.delos_types.specs.declared.cause.Cause.TheVariants as cause;
ghost use Rattle.legal_journal.specs.declared.events.Event.{Event};
ghost use Rattle.legal_journal.specs.Journal.{IsLegal};
ghost use Rattle.loglet_api.specs.View.{LogletView, size_of};
ghost use Rattle.register_api.specs.View.{RegisterView};
ghost use Rattle.fabric_core.specs.Runs.{HasRun, HasRegisterRun, is_on_register};
ghost use Rattle.journal_laws.specs.Faults.{faults_in, is_lack_of, is_full_of, is_meta};

use legal_journal::rules::Rules;

/// The faults of a journal are those of its parts.
pub fn faults_come_in_order()
    ensures { (early late : List Event) → faults_in (early ++ late) ≡ faults_in early ++ faults_in late }
{}

/// Where a loglet's events are a run of it, it counted each answer by which too few servers were reached.
pub fn lacks_are_counted()
    ensures { (i : ℕ) (events : List Event) (now : LogletView) → HasRun i events now
        → count_by (is_lack_of i) (faults_in events) ≤ now.lacks }
{}

/// Such an answer names at least one server, and a fault of the loglet was counted by then.
pub fn a_lack_has_a_fault()
    ensures { (i unreached : ℕ) (events : List Event) (now : LogletView) → HasRun i events now
        → Contains (faults_in events) (cause.NoQuorum i unreached) → (1 ≤ unreached) × (1 ≤ now.lacks) × (1 ≤ now.faults) }
{}

/// It counted each operation that it refused as full, up to the end of the count's type, and is full still.
pub fn refusals_are_counted()
    ensures counted { (i : ℕ) (events : List Event) (now : LogletView) → HasRun i events now
        → min (count_by (is_full_of i) (faults_in events)) (2 ^ 64 - 1) ≤ now.faults }
    ensures full { (i : ℕ) (events : List Event) (now : LogletView) → HasRun i events now
        → Contains (faults_in events) (cause.Full i) → (size_of now ≡ now.room) ⊎ (now.begun ≡ now.limit) }
{}

/// Where its events are a run of it, the register counted each write in which it failed, and each call while it was down,
/// up to the end of the count's type.
pub fn a_register_counts_its_faults()
    ensures { (events : List Event) (now : RegisterView) → HasRegisterRun events now
        → min (count_by is_meta (faults_in (filter (λ e. is_on_register e.call) events))) (2 ^ 64 - 1) ≤ now.faults }
{}

/// In a legal journal no call but a register's is answered so, so these are all that the journal tells.
pub fn register_faults_are_counted<P: Rules>()
    ensures { (events : List Event) (now : RegisterView) → IsLegal P.law events → HasRegisterRun events now
        → min (count_by is_meta (faults_in events)) (2 ^ 64 - 1) ≤ now.faults }
{}

/// A loglet that a fault of a legal journal names is in the shelf.
pub fn a_fault_names_a_cell<P: Rules>()
    ensures lack { (i unreached : ℕ) (events : List Event) → IsLegal P.law events
        → Contains (faults_in events) (cause.NoQuorum i unreached) → i < length P.law.shelf }
    ensures full { (i : ℕ) (events : List Event) → IsLegal P.law events
        → Contains (faults_in events) (cause.Full i) → i < length P.law.shelf }
{}
