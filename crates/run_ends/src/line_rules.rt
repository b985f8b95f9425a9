//! Laws of the rules that a run over nodes picks for its log. Each function does nothing: its contract is the law.
ghost use Rattle.std.specs.Prelude.{◌≡◌, ◌≤◌, ◌<◌, ◌^◌, ℕ, List, [], ◌∷◌, Some, Contains, slice_get};
ghost use Rattle.delos_types.specs.declared.entry.Entry.{Entry};
ghost use Rattle.table_core.specs.declared.command.Command.{Command};
ghost use Rattle.table_core.specs.Spelling.{IsSpellable, command_length};
ghost use Rattle.engine_api.specs.Packing.{packed, session_item, alive_item, leave_item, trim_item};
ghost use Rattle.engine_api.specs.Acted.{Asked, asked_in};
ghost use Rattle.turn_scopes.specs.Floors.{MayTrim, FloorIs};
ghost use Rattle.node_lines.specs.Workers.{IsHome, MayRun};
ghost use Rattle.node_course.specs.Script.{AreLines};
ghost use Rattle.script_text.specs.declared.asks.NamedLine.{NamedLine};
ghost use Rattle.script_text.specs.declared.line.Session.{Session};
ghost use Rattle.script_text.specs.declared.line.Admin.TheVariants.{Alive, Retire, Trim};
ghost use Rattle.script_text.specs.declared.asks.Asks.TheVariants as asks;
ghost use Rattle.run_ends.specs.Rules.{law_of, may_of, AreOfLines, IsAskedBy};

/// A run may go by these rules: items of lines may be packed together, the log is trimmed no further than it goes, and of no node
/// another says that it leaves, or how much of the log it needs no more.
pub fn lines_may_run()
    ensures { (lines : List NamedLine) (nodes : ℕ) (shelf : List ℕ) → MayRun (law_of lines nodes shelf) }
{}

/// Of a session the node where its lines are may append commands, and no other.
pub fn a_session_is_of_one_node()
    ensures { (lines : List NamedLine) (home : ℕ → ℕ) (nodes : ℕ) → AreLines lines home nodes → (s : ℕ) → IsHome (may_of lines) s (home s) }
{}

/// The rules let the log be trimmed to where nobody needs it again, and to nowhere else.
pub fn the_floor_is()
    ensures { (nodes : ℕ) → FloorIs (MayTrim nodes) nodes }
{}

/// A line's command may be appended by the line's node, in an entry of its own.
pub fn lines_are_sent()
    ensures { (lines : List NamedLine) (at : ℕ) (line : NamedLine) (session : Session) (rank : ℕ) (command : Command)
        → slice_get lines at ≡ Some line → line.asks ≡ asks.Logged session rank command
        → session.id ≤ 63 → 1 ≤ rank → rank < 2 ^ 64 → IsSpellable command → command_length command ≤ 984
        → may_of lines line.node (packed line.node (session_item session.id rank command ∷ [])) }
{}

/// Where a line asks its node for a report, the node may append one of any position, in an entry of its own.
pub fn reports_are_sent()
    ensures { (lines : List NamedLine) (at : ℕ) (line : NamedLine) → slice_get lines at ≡ Some line → line.asks ≡ asks.Admin Alive
        → (position : ℕ) → position < 2 ^ 64 → may_of lines line.node (packed line.node (alive_item line.node position ∷ [])) }
{}

/// Where a line asks its node to leave, the node may append that it does, in an entry of its own.
pub fn leaves_are_sent()
    ensures { (lines : List NamedLine) (at : ℕ) (line : NamedLine) → slice_get lines at ≡ Some line → line.asks ≡ asks.Admin Retire
        → may_of lines line.node (packed line.node (leave_item line.node ∷ [])) }
{}

/// Where a line asks its node for a trim, the node may append that it asks for one, to any position, in an entry of its own.
pub fn trims_are_sent()
    ensures { (lines : List NamedLine) (at : ℕ) (line : NamedLine) → slice_get lines at ≡ Some line → line.asks ≡ asks.Admin Trim
        → (position : ℕ) → position < 2 ^ 64 → may_of lines line.node (packed line.node (trim_item position ∷ [])) }
{}

/// Each command in a log of lines is one of them.
pub fn what_is_asked_is_a_lines()
    ensures { (lines : List NamedLine) (log : List Entry) → AreOfLines lines log
        → (x : Asked) → Contains (asked_in 0 log) x → IsAskedBy lines x }
{}
