//! Laws of members and their positions. Each function does nothing: its contract is the law.
ghost use Rattle.std.specs.Prelude.{◌≡◌, ◌⊎◌, ◌<◌, ◌≤◌, ◌++◌, ℕ, true, false, List, Contains};
ghost use Rattle.delos_types.specs.declared.entry.Entry.{Entry};
ghost use Rattle.engine_api.specs.declared.content.Content.TheVariants.{Alive, Leave, Trim};
ghost use Rattle.engine_api.specs.declared.content.Placed.{Placed};
ghost use Rattle.engine_api.specs.Acted.{unpack_all};
ghost use Rattle.engine_api.specs.Members.{has_left, position_of, least_position, trim_point};
ghost use Rattle.log_laws.specs.Least.{IsLeast};

/// A node has left exactly where its leave stands in the log.
pub fn who_left_said_so()
    ensures says { (placed : List Placed) (node : ℕ) → has_left placed node ≡ true → (p : Placed) × Contains placed p × (p.content ≡ Leave node) }
    ensures left { (placed : List Placed) (p : Placed) (node : ℕ) → Contains placed p → p.content ≡ Leave node → has_left placed node ≡ true }
{}

/// A node's position is none, or one that it reported, and none that it reported is above it.
pub fn a_position_was_reported()
    ensures says { (placed : List Placed) (node : ℕ) → (position_of placed node ≡ 0) ⊎ ((p : Placed) × Contains placed p × (p.content ≡ Alive node (position_of placed node))) }
    ensures most { (placed : List Placed) (p : Placed) (node n : ℕ) → Contains placed p → p.content ≡ Alive node n → n ≤ position_of placed node }
{}

/// The trim point is none, or one that was asked for, and none that was asked for is above it.
pub fn a_trim_point_was_asked_for()
    ensures says { (placed : List Placed) → (trim_point placed ≡ 0) ⊎ ((p : Placed) × Contains placed p × (p.content ≡ Trim (trim_point placed))) }
    ensures most { (placed : List Placed) (p : Placed) (n : ℕ) → Contains placed p → p.content ≡ Trim n → n ≤ trim_point placed }
{}

/// The least position is at most that of each member, and where there is one it is that of one.
pub fn the_least_is_a_members()
    ensures upto { (nodes node : ℕ) (placed : List Placed) → 1 ≤ node → node ≤ nodes → has_left placed node ≡ false → least_position nodes placed ≤ position_of placed node }
    ensures at { (nodes node : ℕ) (placed : List Placed) → 1 ≤ node → node ≤ nodes → has_left placed node ≡ false → IsLeast nodes placed }
    ensures some { (nodes : ℕ) (placed : List Placed) → 0 < least_position nodes placed → IsLeast nodes placed }
{}

/// As a log grows its trim point doesn't fall, nor the least position, as long as somebody is a member.
pub fn a_longer_log_needs_less()
    ensures point { (log more : List Entry) → trim_point (unpack_all 0 log) ≤ trim_point (unpack_all 0 (log ++ more)) }
    ensures least { (nodes node : ℕ) (log more : List Entry) → 1 ≤ node → node ≤ nodes → has_left (unpack_all 0 (log ++ more)) node ≡ false
        → least_position nodes (unpack_all 0 log) ≤ least_position nodes (unpack_all 0 (log ++ more)) }
{}
