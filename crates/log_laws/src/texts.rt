//! Laws of the replies that commands are given. A law is a function that does nothing, with the
//! law as its contract.
ghost use Rattle.std.specs.Prelude.{List};
ghost use Rattle.std.specs.List.{AllByRecursion};
ghost use Rattle.delos_types.specs.declared.entry.Entry.{Entry};
ghost use Rattle.log_laws.specs.State.{acts_in};
ghost use Rattle.log_laws.specs.Told.{IsTold};

/// Each reply that a command is given as it acts, in any log, reads back from its text.
pub fn what_acts_is_told()
    ensures { (log : List Entry) → AllByRecursion (λ a. IsTold a.reply) (acts_in log) }
{}
