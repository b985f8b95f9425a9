//! A second user of a fabric, who acts between two events of the first one.
ghost use Rattle.std.specs.Prelude.{◌≡◌, ◌+◌, ◌⊎◌, length};
ghost use Rattle.legal_journal.specs.Journal.{state_of, IsLegal};
ghost use Rattle.legal_journal.specs.Turns.{MayCall};
ghost use Rattle.fabric_core.specs.Fabric.{Adds};
ghost use Rattle.virtual_log.specs.Turning.{Later};
ghost use Rattle.worked_nodes.specs.Apart.{ActsApart};

use crate::shelf::{Cell, Free, Register};
use chain_map::change::first_chain;
use fabric_core::fabric::Fabric;
use fate_words::chooser::Calm;
use legal_journal::events::{FabricAnswer, FabricCall};
use legal_journal::rules::Rules;
use legal_journal::turns::Turns;
use std::alloc::Global;
use std::marker::Model;
use virtual_log::calls::{Known, tail_on};
use virtual_log::extend::extend_on;
use virtual_log::truncate::truncate_on;

/// What a second user does.
#[derive(Clone, Copy)]
pub(crate) enum Act {
    /// Replaces the last loglet.
    Extend,
    /// Raises the trim to 1, where the log is that long.
    Trim,
}

/// A fabric and its second user. So that a call of a log tells that all its events are by that user, its number says since
/// when it is alone: it is 2 more than the number of events before then, or 0, of which nothing is said.
#[derive(Drop)]
pub(crate) struct Second {
    alloc: Global,
    fabric: Fabric<Cell, Register, Free>,
    who: u32,
}

impl Model for Second {
    ghost use Rattle.worked_nodes.specs.Apart.{SecondView, IsAlone};

    ghost Value = { SecondView };

    ghost view = { λ s. record { who = s.who; journal = s.fabric.journal } };

    ghost invariant = { λ s. IsAlone s.who s.fabric.journal };
}

impl Turns for Second {
    type Law = Free;

    ghost who = { λ s. s.who };

    ghost seen = { λ s. s.journal };

    fn turn(&mut self, call: FabricCall) -> FabricAnswer {
        // The journal so far is legal.
        let _seen = self.fabric.journal();
        self.fabric.apply(self.who, call)
    }
}

/// The number of a user who is alone behind so many events.
fn number_after(count: usize) -> u32
    ensures { (result ≡ 0) ⊎ (result ≡ count + 2) }
{
    if count < 1000 { count as u32 + 2 } else { 0 }
}

impl Second {
    #[tactic(auto, using(crate::proofs::Alone::numbered))]
    pub fn new(alloc: Global, fabric: Fabric<Cell, Register, Free>) -> Second
        ensures { result.journal ≡ fabric.journal }
    {
        let who = number_after(fabric.journal().len());
        Second { alloc, fabric, who }
    }

    /// The journal so far is legal.
    pub fn see(&self)
        ensures { IsLegal ⟦<Free as Rules>⟧.law self.now.journal }
    {
        let _seen = self.fabric.journal();
    }

    /// An event of the first user.
    #[tactic(auto, using(crate::proofs::Alone::numbered))]
    pub fn first(&mut self, call: FabricCall) -> FabricAnswer
        requires { MayCall (state_of self.old.journal) ⟦<Free as Rules>⟧.law 1 call }
        ensures adds { Adds self.old.journal 1 call result self.new.journal }
        ensures legal { IsLegal ⟦<Free as Rules>⟧.law self.new.journal }
    {
        let answer = self.fabric.apply(1, call);
        self.who = number_after(self.fabric.journal().len());
        answer
    }

    /// The second user does nothing.
    #[tactic(auto, using(crate::proofs::Alone::nothing_apart))]
    pub fn wait(&mut self)
        ensures { ActsApart ⟦<Free as Rules>⟧.law self.old.journal self.new.journal }
    {
        let _seen = self.fabric.journal();
    }

    /// The second user acts.
    pub fn act(&mut self, act: Act)
        ensures { ActsApart ⟦<Free as Rules>⟧.law self.old.journal self.new.journal }
    {
        self.renumber();
        if self.who == 0 {
            return;
        }
        self.call(act);

        // All since then is by this number.
        let _alone = self.who;
    }

    /// The second user is alone from here on, or its number is 0.
    #[tactic(auto, using(crate::proofs::Alone::numbered))]
    fn renumber(&mut self)
        ensures journal { self.new.journal ≡ self.old.journal }
        ensures alone { (self.new.who ≡ 0) ⊎ (self.new.who ≡ length self.new.journal + 2) }
        ensures legal { IsLegal ⟦<Free as Rules>⟧.law self.new.journal }
    {
        self.who = number_after(self.fabric.journal().len());
    }

    fn call(&mut self, act: Act)
        requires { IsLegal ⟦<Free as Rules>⟧.law self.old.journal }
        ensures later { Later ⟦<Free as Rules>⟧.law self.old.journal self.new.journal }
        ensures who { self.new.who ≡ self.old.who }
    {
        match act {
            Act::Extend => self.extend(),
            Act::Trim => self.trim(),
        }
    }

    /// Replaces the last loglet, as one that knows of no chain but the first.
    fn extend(&mut self)
        requires { IsLegal ⟦<Free as Rules>⟧.law self.old.journal }
        ensures later { Later ⟦<Free as Rules>⟧.law self.old.journal self.new.journal }
        ensures who { self.new.who ≡ self.old.who }
    {
        let alloc = self.alloc;
        let Ok(chain) = first_chain(alloc) else {
            return;
        };
        let mut known = Known {
            version: 1,
            chain,
            tail: 0,
        };
        let _ = extend_on(self, &mut Calm, alloc, 3, &mut known);
    }

    /// Finds the tail, and raises the trim to 1 if the log is that long.
    fn trim(&mut self)
        requires { IsLegal ⟦<Free as Rules>⟧.law self.old.journal }
        ensures later { Later ⟦<Free as Rules>⟧.law self.old.journal self.new.journal }
        ensures who { self.new.who ≡ self.old.who }
    {
        let alloc = self.alloc;
        let Ok(chain) = first_chain(alloc) else {
            return;
        };
        let mut known = Known {
            version: 1,
            chain,
            tail: 0,
        };
        if tail_on(self, &mut Calm, alloc, &mut known).is_err() {
            return;
        }
        if known.tail == 0 {
            return;
        }
        let _ = truncate_on(self, alloc, &mut known, 1);
    }
}
