//! Laws. Their functions do nothing: their contracts are the laws.
ghost use Rattle.std.specs.Prelude.{◌≡◌, ◌↔◌, ℕ, List, true, map};
ghost use Rattle.delos_types.specs.declared.chain.Chain.{Chain};
ghost use Rattle.loglet_api.specs.View.{LogletView};
ghost use Rattle.fabric_core.specs.Log.{has_no_gap, virtual_log, virtual_tail};
ghost use Rattle.script_text.specs.declared.line.Line.{Line};
ghost use Rattle.script_text.specs.Lines.{lines_of};
ghost use Rattle.script_text.specs.Spelling.{IsScript};
ghost use Rattle.fitting_run.specs.declared.answered.Answered.{Answered};
ghost use Rattle.fitting_run.specs.Cells.{read_of};
ghost use Rattle.fitting_run.specs.Faults.{FaultsAreCounted};
ghost use Rattle.fitting_run.specs.Lines.{are_not_retired};
ghost use Rattle.fitting_run.specs.Yard.{Shown};

/// No line of a script names a node that an earlier line asks to leave.
pub fn who_left_is_named_no_more()
    ensures { (nodes : ℕ) (bytes : List ℕ) (ls : List Line) → IsScript nodes bytes ls → are_not_retired (lines_of ls) ≡ true }
{}

/// The log that loglets show, and whether what was counted is enough, rest on what is read of them alone.
pub fn nothing_else_is_read()
    ensures tail { (chain : Chain) (cells : List LogletView) → virtual_tail chain (map read_of cells) ≡ virtual_tail chain cells }
    ensures whole { (chain : Chain) (cells : List LogletView) → has_no_gap chain (map read_of cells) ≡ has_no_gap chain cells }
    ensures log { (chain : Chain) (cells : List LogletView) (from end : ℕ) → virtual_log chain (map read_of cells) from end ≡ virtual_log chain cells from end }
    ensures counted { (told : List Answered) (yard : Shown) → FaultsAreCounted told (record yard { cells = map read_of yard.cells }) ↔ FaultsAreCounted told yard }
{}
