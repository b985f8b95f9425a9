//! Laws of the faults of several users. Each function does nothing: its contract is the law.
ghost use Rattle.std.specs.Prelude.{◌≢◌, ◌≤◌, ℕ, Bool, List, AllPairs, sum_by, count_by};
ghost use Rattle.delos_types.specs.declared.cause.Cause.{Cause};
ghost use Rattle.legal_journal.specs.declared.events.Event.{Event};
ghost use Rattle.journal_laws.specs.Faults.{faults_in};
ghost use Rattle.journal_laws.specs.Own.{faults_of};

/// Of faults of one kind, those that the events of different users tell add up to at most all that the journal tells.
pub fn own_faults_add_up_to_at_most_all()
    ensures { (kind : Cause → Bool) (users : List ℕ) (events : List Event) → AllPairs (λ user other. user ≢ other) users
        → sum_by (λ user. count_by kind (faults_of user events)) users ≤ count_by kind (faults_in events) }
{}
