//! The turns of a first user, between two of whose events a second one acts.
ghost use Rattle.legal_journal.specs.Journal.{IsLegal};
ghost use Rattle.worked_nodes.specs.Apart.{ActsApart};

use crate::second::{Act, Second};
use crate::shelf::Free;
use legal_journal::events::{FabricAnswer, FabricCall};
use legal_journal::rules::Rules;
use legal_journal::turns::Turns;

/// The first user, and what the second one does once, before this user's event of that number from here on.
#[derive(Drop)]
pub(crate) struct First {
    pub second: Second,
    pub act: Option<Act>,
    pub before: u64,
}

impl First {
    /// The journal so far is legal.
    pub fn see(&self)
        ensures { IsLegal ⟦<Free as Rules>⟧.law self.now.second.journal }
    {
        self.second.see()
    }

    /// The second user acts, if now is the time.
    fn let_act(&mut self)
        ensures { ActsApart ⟦<Free as Rules>⟧.law self.old.second.journal self.new.second.journal }
    {
        if self.before > 0 {
            self.before -= 1;
            return self.second.wait();
        }
        match self.act.take() {
            Some(act) => self.second.act(act),
            None => self.second.wait(),
        }
    }
}

impl Turns for First {
    type Law = Free;

    ghost who = { λ _. 1 };

    ghost seen = { λ f. f.second.journal };

    fn turn(&mut self, call: FabricCall) -> FabricAnswer {
        self.let_act();
        self.second.first(call)
    }
}
