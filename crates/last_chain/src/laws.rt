//! Laws of what a journal tells of its register. Each function does nothing: its contract is the law.
ghost use Rattle.std.specs.Prelude.{◌≡◌, ◌-◌, ◌^◌, List, min};
ghost use Rattle.legal_journal.specs.declared.events.Event.{Event};
ghost use Rattle.legal_journal.specs.Journal.{state_of};
ghost use Rattle.register_api.specs.View.{RegisterView};
ghost use Rattle.fabric_core.specs.Runs.{HasRegisterRun};
ghost use Rattle.last_chain.specs.Gifts.{given_last, misses_in};

/// Where its events are a run of it, a register counted just the reopenings that failed, up to the end of the count's type.
pub fn misses_are_counted()
    ensures { (events : List Event) (now : RegisterView) → HasRegisterRun events now → now.misses ≡ min (misses_in events) (2 ^ 64 - 1) }
{}

/// The version and the chain that a journal knows are those that the register gave last.
pub fn what_was_given_last_is_known()
    ensures version { (events : List Event) → (state_of events).register.version ≡ (given_last events).0 }
    ensures chain { (events : List Event) → (state_of events).register.chain ≡ (given_last events).1 }
{}
