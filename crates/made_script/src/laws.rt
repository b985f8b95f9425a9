//! Laws of a made script. Each function does nothing: its contract is the law.
ghost use Rattle.std.specs.Prelude.{◌≡◌, ◌≤◌, ◌+◌, ◌/◌, ℕ, All, count_by};
ghost use Rattle.std.specs.List.{sum_by};
ghost use Rattle.script_text.specs.Lines.{lines_of};
ghost use Rattle.script_text.specs.Spelling.{IsScript};
ghost use Rattle.made_script.specs.Made.{made_lines, made_text, amounts};
ghost use Rattle.made_script.specs.Asked.{logs_something, extends, added, AddsOrExtends};

/// What is made is a script of these lines, so whoever reads it finds them.
pub fn a_made_script_is_one()
    ensures { (seed count nodes : ℕ) → 1 ≤ nodes → nodes ≤ 8 → count ≤ 15000
        → IsScript nodes (made_text seed count nodes) (made_lines seed count nodes) }
{}

/// So many of its lines log a command, each of which adds an amount of 0 to 99; the others extend the
/// chain, one for each command whose number ends in 51.
pub fn its_lines_log_amounts()
    ensures logged { (seed count nodes : ℕ) → count_by logs_something (lines_of (made_lines seed count nodes)) ≡ count }
    ensures extended { (seed count nodes : ℕ) → count_by extends (lines_of (made_lines seed count nodes)) ≡ (count + 49) / 100 }
    ensures no_others { (seed count nodes : ℕ) → All (λ l. AddsOrExtends l.asks) (lines_of (made_lines seed count nodes)) }
    ensures summed { (seed count nodes : ℕ) → sum_by added (lines_of (made_lines seed count nodes)) ≡ amounts seed count }
{}
