//! The one user of a fabric.
ghost use Rattle.std.specs.Prelude.{◌≡◌};

use crate::access::Access;
use fabric_core::fabric::Fabric;
use legal_journal::events::{FabricAnswer, FabricCall};
use legal_journal::rules::Rules;
use loglet_api::loglet::Loglet;
use register_api::Register;

/// A fabric, and by whom its events are. Nobody takes turns beside it.
#[derive(Drop)]
pub struct Lone<L: Loglet, R: Register, P: Rules> {
    pub who: u32,
    pub fabric: Fabric<L, R, P>,
}

impl<L: Loglet, R: Register, P: Rules> Access for Lone<L, R, P> {
    type Law = P;

    ghost beside = { λ _ _. ⊥ };

    ghost apart = { λ who user h. absurd h };

    ghost who = { λ o. o.who };

    ghost seen = { λ o. o.fabric.journal };

    fn user(&self) -> u32 {
        self.who
    }

    #[tactic(auto, using(crate::proofs::Alone::taken_at_once, crate::proofs::Alone::adds_taken))]
    fn take(&mut self, call: FabricCall) -> FabricAnswer {
        // The journal so far is legal.
        let _seen = self.fabric.journal();
        self.fabric.apply(self.who, call)
    }
}
