//! Whoever has access to a fabric, alone or beside others.
ghost use Rattle.std.specs.Prelude.{◌≡◌, ◌≢◌, ℕ, List};
ghost use Rattle.legal_journal.specs.declared.events.Event.{Event};
ghost use Rattle.turn_scopes.specs.Beside.{MayTake, IsTaken};

use legal_journal::events::{FabricAnswer, FabricCall};
use legal_journal::rules::Rules;

/// One of the users of a fabric, with those who may take turns beside it.
pub trait Access {
    /// The rules of the fabric.
    type Law: Rules;

    /// Who may take turns between those of this user.
    ghost beside: { ℕ → ℕ → Type 0 };

    /// They are others.
    ghost apart: { (who user : ℕ) → beside who user → user ≢ who };

    /// By whom its events are.
    ghost who: { Self → ℕ };

    /// The journal, as far as it was seen.
    ghost seen: { Self → List Event };

    /// The number by which its events are.
    fn user(&self) -> u32
        ensures { result ≡ who self.now };

    /// Makes one event, after any of those beside. `Memory` makes none, but as `FabricAnswer` says.
    fn take(&mut self, call: FabricCall) -> FabricAnswer
        requires may { MayTake Self.Law.law (beside (who self.old)) (who self.old) (seen self.old) call }
        ensures taken { IsTaken Self.Law.law (beside (who self.old)) (who self.old) (seen self.old) call result (seen self.new) }
        ensures who { who self.new ≡ who self.old };
}
