//! Laws of totals. Each function does nothing: its contract is the law.
ghost use Rattle.std.specs.Prelude.{◌≡◌, List, false};
ghost use Rattle.std.specs.List.{list_any};
ghost use Rattle.script_text.specs.declared.asks.NamedLine.{NamedLine};
ghost use Rattle.fitting_run.specs.declared.told.Told.{Told};
ghost use Rattle.fitting_run.specs.Answered.{is_open};
ghost use Rattle.fitting_run.specs.Outcomes.{OneRowEach};
ghost use Rattle.fitting_run.specs.Fits.{told_of};
ghost use Rattle.run_totals.specs.Totals.{commands_in, acted_in, table_told, sum_of_table};
ghost use Rattle.run_totals.specs.Adds.{AreSmallAdds, amounts_in, amounts_placed};

/// Where each line has its row and no row is open, all logged commands acted.
pub fn answered_runs_act_whole()
    ensures { (lines : List NamedLine) (o : Told) → OneRowEach lines o.rows → list_any (λ r. is_open r.outcome) o.rows ≡ false
        → acted_in o.rows ≡ commands_in lines }
{}

/// Small adds add up in the table, in whichever order they are placed: no sum leaves the range of a number, so none is refused.
pub fn adds_sum_up()
    // The sum is that of the placed rows' lines,
    ensures placed { (lines : List NamedLine) (o : Told) → AreSmallAdds lines
        → sum_of_table (table_told lines o) ≡ amounts_placed (told_of lines o) }

    // and that of all lines, where all logged commands acted.
    ensures whole { (lines : List NamedLine) (o : Told) → AreSmallAdds lines → OneRowEach lines o.rows → acted_in o.rows ≡ commands_in lines
        → sum_of_table (table_told lines o) ≡ amounts_in lines }
{}
