//! Laws of what acts in a log. Each function does nothing: its contract is the law.
ghost use Rattle.std.specs.Prelude.{◌≡◌, ◌<◌, ◌≤◌, ℕ, List, ◌++◌, length, find, is_some, nat_lt, ◌==◌, ◌&&◌, filter};
ghost use Rattle.std.specs.List.{AllByRecursion};
ghost use Rattle.delos_types.specs.declared.entry.Entry.{Entry};
ghost use Rattle.engine_api.specs.Acted.{asked_in};
ghost use Rattle.engine_api.specs.Order.{gap_from};
ghost use Rattle.log_laws.specs.State.{acts_in};
ghost use Rattle.log_laws.specs.Order.{EachPair, ActsBefore, acts_below};
ghost use Rattle.log_laws.specs.Appearing.{HasAppeared, StandsIn};

/// What acts comes in the order of its places; at one place the ranks of one session act, in order.
pub fn acts_are_in_order()
    ensures { (log : List Entry) → EachPair ActsBefore (acts_in log) }
{}

/// What acts has the command of the first appearance of its rank, which isn't behind its place.
pub fn an_act_has_appeared()
    ensures { (log : List Entry) → AllByRecursion (HasAppeared (asked_in 0 log)) (acts_in log) }
{}

/// What acts in a front of a log is what acts in the log below the front's end.
pub fn a_front_acts_as_before()
    ensures { (log more : List Entry) → acts_in log ≡ acts_below (length log) (acts_in (log ++ more)) }
{}

/// Of each session those ranks act before which none is missing.
pub fn ranks_act_in_turn()
    ensures { (log : List Entry) (s q : ℕ) → 1 ≤ q
        → is_some (find (λ a. (a.session == s) && (a.rank == q)) (acts_in log)) ≡ nat_lt q (gap_from (asked_in 0 log) s 1) }
{}

/// Each rank that appears is an item of the entry at its position.
pub fn what_appears_stands()
    ensures { (log : List Entry) → AllByRecursion (StandsIn log) (asked_in 0 log) }
{}
