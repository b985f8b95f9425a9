//! Laws of what a log does: functions that do nothing, each with a law as its contract.
ghost use Rattle.engine_api.specs.Laws.{ActsWhereItStands, GrowsAtItsEnd};

/// Where the ranks of each session come one after another, each once, each acts where it stands.
pub fn acts_where_it_stands()
    ensures { ActsWhereItStands }
{}

/// What more entries do comes behind what those before them do, and changes nothing of it.
pub fn grows_at_its_end()
    ensures { GrowsAtItsEnd }
{}
