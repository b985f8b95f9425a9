//! Laws of a run that has ended. Each function does nothing: its contract is the law.
ghost use Rattle.std.specs.Prelude.{◌≡◌, ◌≤◌, ℕ, List, map, true};
ghost use Rattle.delos_types.specs.declared.chain.Chain.{Chain};
ghost use Rattle.loglet_api.specs.View.{LogletView};
ghost use Rattle.script_text.specs.declared.asks.NamedLine.{NamedLine};
ghost use Rattle.script_text.specs.declared.faults.FaultLine.{FaultLine};
ghost use Rattle.fitting_run.specs.declared.answered.Answered.{Answered};
ghost use Rattle.fitting_run.specs.declared.told.Told.{Told};
ghost use Rattle.fitting_run.specs.Yard.{Shown};
ghost use Rattle.fitting_run.specs.Fits.{Fits};
ghost use Rattle.fitting_run.specs.Acts.{ActsOnce};
ghost use Rattle.fitting_run.specs.Turns.{ActsAreShown};
ghost use Rattle.fitting_run.specs.Calm.{IsCalm, all_answered};
ghost use Rattle.run_laws.specs.Ended.{Played, RunEnded};

/// What a run tells fits its script, its fault lines and the yard that it gave back.
pub fn what_ended_fits()
    ensures { (played : List Played) (fault_lines : List FaultLine) (o : Told) (yard : Shown) → RunEnded played fault_lines o yard → Fits (map (λ t. t.line) played) fault_lines o yard }
{}

/// Where no fault was counted, each line has its own answer.
pub fn a_calm_run_answers_all()
    ensures { (played : List Played) (fault_lines : List FaultLine) (o : Told) (yard : Shown) → RunEnded played fault_lines o yard → IsCalm yard → all_answered o.rows ≡ true }
{}

/// Of acts that a log lets act once, what the rows and the part of the log that isn't trimmed tell holds too: the tests of the plain
/// programs.
pub fn acts_once_are_shown()
    ensures { (lines : List NamedLine) (told : List Answered) (chain : Chain) (cells : List LogletView) (end : ℕ)
        → ActsOnce lines told chain cells end → chain.trim ≤ end → ActsAreShown lines told chain cells end }
{}
