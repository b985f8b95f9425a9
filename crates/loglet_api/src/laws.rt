//! What holds of every step and every run of a loglet, of whatever kind. Each function does
//! nothing: its contract is the law.
ghost use Rattle.std.specs.Prelude.{ℕ, ◌<◌, ◌^◌, List};
ghost use Rattle.loglet_api.specs.View.{LogletView};
ghost use Rattle.loglet_api.specs.Step.{LogletStep, IsBelow};
ghost use Rattle.loglet_api.specs.Run.{LogletRun};
ghost use Rattle.loglet_api.specs.Keeps.{Keeps, work_of};
ghost use Rattle.loglet_api.specs.Says.{GotIsThere, BeyondWasUnspoken, PlacedBeforeSeal, LackHasCause, SealedTailCovers, TrimStopsAtReach};
ghost use Rattle.loglet_api.specs.Promises.{PlacedStays, PlacedIsRead, TailIsAbove, SealedTailIsAbove, NothingAboveSealedTail};

use crate::call::{LogletAnswer, LogletCall};

/// Nothing that was answered goes back, no entry changes, and carrying an operation lowers what
/// is left of it as one number.
pub fn later_moments()
    ensures step { (old : LogletView) (call : LogletCall) (answer : LogletAnswer) (new : LogletView)
        → LogletStep old call answer new → Keeps old new }
    ensures run { (old : LogletView) (steps : List (LogletCall × LogletAnswer)) (new : LogletView)
        → LogletRun old steps new → Keeps old new }
    ensures work { (a b : ℕ × ℕ) → IsBelow a b → a.1 < 2 ^ 59 → work_of a < work_of b }
{}

/// What each answer says.
pub fn answers()
    ensures got { GotIsThere }
    ensures beyond { BeyondWasUnspoken }
    ensures placed { PlacedBeforeSeal }
    ensures lack { LackHasCause }
    ensures sealed_tail { SealedTailCovers }
    ensures trimmed { TrimStopsAtReach }
{}

/// What is promised for good, whatever is called in between (OSDI 2020): an acknowledged entry
/// stays, is read, and is covered by each later tail; nothing is acknowledged above a sealed tail.
pub fn promises()
    ensures stays { PlacedStays }
    ensures is_read { PlacedIsRead }
    ensures open_tail { TailIsAbove }
    ensures sealed_tail { SealedTailIsAbove }
    ensures sealed_for_good { NothingAboveSealedTail }
{}
