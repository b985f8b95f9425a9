//! Laws of a node's state. Each function does nothing: its contract is the law.
ghost use Rattle.std.specs.Prelude.{◌≡◌, ℕ, List};
ghost use Rattle.delos_types.specs.Spaces.{SpaceMap};
ghost use Rattle.delos_types.specs.declared.entry.Entry.{Entry};
ghost use Rattle.engine_api.specs.Acted.{unpack_all};
ghost use Rattle.engine_api.specs.Members.{least_position, trim_point};
ghost use Rattle.engine_steps.specs.Layout as layout;
ghost use Rattle.log_laws.specs.State.{IsStateOf};
ghost use Rattle.base_engine.specs.Trimming.{least_of};

/// In a space that is the state of a log, the least position of a member and the trim point are the log's.
pub fn a_state_has_the_positions_of_its_log()
    ensures least { (nodes : ℕ) (log : List Entry) (m : SpaceMap) → IsStateOf log m → least_of nodes m ≡ least_position nodes (unpack_all 0 log) }
    ensures point { (log : List Entry) (m : SpaceMap) → IsStateOf log m → layout.trim_of m ≡ trim_point (unpack_all 0 log) }
{}
