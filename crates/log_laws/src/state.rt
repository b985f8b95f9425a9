//! Laws of what the engines do together: functions that do nothing, each with a law as its contract.
ghost use Rattle.std.specs.Prelude.{[]};
ghost use Rattle.std.specs.FinMap as map;
ghost use Rattle.log_laws.specs.Laws.{ActsInSessionOrder, GrowsByAnEntry};
ghost use Rattle.log_laws.specs.State.{IsStateOf};

/// The empty space is the state of the empty log.
pub fn starts_empty()
    ensures { IsStateOf [] map.empty }
{}

/// For every list of items, the session engine lets act what session order says.
pub fn acts_in_session_order()
    ensures { ActsInSessionOrder }
{}

/// An entry that is applied to the state of a log leaves the state of the log with it at its end,
/// and tells what acted.
pub fn grows_by_an_entry()
    ensures { GrowsByAnEntry }
{}
