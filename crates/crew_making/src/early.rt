//! A user of a fabric that isn't there yet.
ghost use Rattle.std.specs.Prelude.{◌≡◌, []};
ghost use Rattle.legal_journal.specs.Journal.{IsLegal};

use legal_journal::events::{FabricAnswer, FabricCall};
use legal_journal::rules::Rules;
use legal_journal::turns::Turns;
use std::marker::{Model, PhantomData};

/// A user before there is a fabric. It has seen nothing, and a call that it makes comes to no event.
#[derive(Drop)]
pub struct Early<P: Rules> {
    who: u32,
    rules: PhantomData<P>,
}

impl<P: Rules> Model for Early<P> {
    ghost use Rattle.std.specs.Prelude.{ℕ, []};
    ghost use Rattle.legal_journal.specs.Journal.{IsLegal};

    ghost Value = { ℕ };

    ghost view = { λ e. e.who };

    ghost invariant = { λ e. IsLegal P.law [] };
}

impl<P: Rules> Early<P> {
    pub fn new(who: u32) -> Self
        requires legal { IsLegal P.law [] }
        ensures { result ≡ who }
    {
        Early {
            who,
            rules: PhantomData,
        }
    }
}

impl<P: Rules> Turns for Early<P> {
    type Law = P;

    ghost who = { λ e. e };

    ghost seen = { λ _. [] };

    fn turn(&mut self, _call: FabricCall) -> FabricAnswer {
        // By the rules, no event is legal.
        let _who = self.who;
        FabricAnswer::Memory
    }
}
