//! Whoever takes turns at a fabric.
ghost use Rattle.std.specs.Prelude.{◌≡◌, ℕ, List};
ghost use Rattle.legal_journal.specs.declared.events.Event.{Event};
ghost use Rattle.legal_journal.specs.Turns.{MayTurn, HasRight, IsTurn};

use crate::events::{FabricAnswer, FabricCall};
use crate::rules::Rules;

/// One of the users of a fabric. Others may take turns between any two of its own.
pub trait Turns {
    /// The rules of the fabric.
    type Law: Rules;

    /// By whom its events are.
    ghost who: { Self → ℕ };

    /// The journal, as far as it was seen.
    ghost seen: { Self → List Event };

    /// Makes one event, after any of others. `Memory` makes none, but as `FabricAnswer` says.
    fn turn(&mut self, call: FabricCall) -> FabricAnswer
        requires may { MayTurn Self.Law.law (who self.old) (seen self.old) call }

        // A Seal is begun by those alone who have the right to, and a fault is nobody's turn.
        requires right { HasRight Self.Law.seals (who self.old) call }
        ensures turn { IsTurn Self.Law.law (who self.old) (seen self.old) call result (seen self.new) }
        ensures who { who self.new ≡ who self.old };
}
