//! Turns of one thread.

use crate::fabric::Fabric;
use legal_journal::events::{FabricAnswer, FabricCall};
use legal_journal::rules::Rules;
use legal_journal::turns::Turns;
use loglet_api::loglet::Loglet;
use register_api::Register;

/// The one user of a fabric, under its number.
#[derive(Drop)]
pub struct Own<L: Loglet, R: Register, P: Rules> {
    pub who: u32,
    pub fabric: Fabric<L, R, P>,
}

impl<L: Loglet, R: Register, P: Rules> Turns for Own<L, R, P> {
    type Law = P;

    ghost who = { λ o. o.who };

    ghost seen = { λ o. o.fabric.journal };

    fn turn(&mut self, call: FabricCall) -> FabricAnswer {
        // The journal so far is legal.
        let _seen = self.fabric.journal();
        self.fabric.apply(self.who, call)
    }
}
