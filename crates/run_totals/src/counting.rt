//! How the totals are made of the lines of a script and of what a run of it tells.
ghost use Rattle.std.specs.Prelude.{◌≡◌, IfOk, OnOk, Some, [], map, option_map};
ghost use Rattle.std.specs.FinMap as finmap;
ghost use Rattle.fitting_run.specs.Answered as answers_of;
ghost use Rattle.run_totals.specs.Totals as specs;
ghost use Rattle.run_totals.specs.Replay.{shown, placed_of, with_placed, with_acts, acts_told, table_by};

use crate::totals::Totals;
use delos_types::bytes::Bytes;
use fitting_run::acting::Turn;
use fitting_run::told::Told;
use row_text::row::{Outcome, Row};
use script_text::asks::{Asks, NamedLine};
use std::alloc::{AllocError, Global};
use std::collections::BTreeMap;
use table_core::amount::amount_of;
use table_core::command::Command;
use table_core::table::Table;

// Placed commands by their turns.
type Turns = BTreeMap<Turn, Command>;

fn logs(asked: &Asks) -> bool
    ensures { result ≡ answers_of.logs asked.now }
{
    match asked {
        Asks::Logged { .. } => true,
        Asks::Look { .. } => false,
        Asks::Admin(_) => false,
    }
}

fn is_placed(outcome: &Outcome) -> bool
    ensures { result ≡ specs.is_placed outcome.now }
{
    match outcome {
        Outcome::Placed { .. } => true,
        _ => false,
    }
}

fn commands_in(lines: &[NamedLine]) -> u64
    ensures { result ≡ specs.commands_in lines.now }
{
    lines.iter().filter(|line| logs(&line.asks)).count() as u64
}

fn acted_in(rows: &[Row]) -> u64
    ensures { result ≡ specs.acted_in rows.now }
{
    rows.iter().filter(|row| is_placed(&row.outcome)).count() as u64
}

// Where the command of a placed row stands, and the command.
fn placed_of<'a>(line: &'a NamedLine, row: &Row) -> Option<(Turn, &'a Command)>
    ensures { option_map (λ p. (p.0, Some p.1.now)) result ≡ placed_of line.now.asks row.now.outcome }
{
    match (&line.asks, &row.outcome) {
        (
            Asks::Logged {
                session,
                rank,
                command,
            },
            Outcome::Placed { place, .. },
        ) => {
            let turn = Turn {
                place: *place,
                rank: *rank,
                session: session.id,
            };
            Some((turn, command))
        }
        _ => None,
    }
}

// Puts a copy of a placed row's command in its turn.
fn put_placed(turns: &mut Turns, line: &NamedLine, row: &Row) -> Result<(), AllocError>
    ensures { OnOk result (shown turns.new.entries ≡ with_placed (shown turns.old.entries) (placed_of line.now.asks row.now.outcome)) }
{
    match placed_of(line, row) {
        Some((turn, command)) => {
            let command = command.clone()?;
            turns.insert(turn, command)?;
            Ok(())
        }
        None => Ok(()),
    }
}

// The commands of all placed rows, by their turns.
fn placed_turns(alloc: Global, lines: &[NamedLine], rows: &[Row]) -> Result<Turns, AllocError>
    ensures { IfOk result (λ turns. shown turns.entries ≡ with_acts [] (acts_told lines.now rows.now)) }
{
    let mut turns = Turns::new(alloc);
    for (line, row) in lines.iter().zip(rows) {
        put_placed(&mut turns, line, row)?;
    }
    Ok(turns)
}

// The table after these commands, in their turns.
fn table_by(alloc: Global, turns: &Turns) -> Result<Table, AllocError>
    ensures { IfOk result (λ table. table ≡ table_by finmap.empty (map (λ e. e.1) turns.now.entries)) }
{
    let mut table = Table::new(alloc);
    for command in turns.values() {
        let _ = table.act(alloc, command)?;
    }
    Ok(table)
}

// The table after all placed rows.
fn table_told(alloc: Global, lines: &[NamedLine], told: &Told) -> Result<Table, AllocError>
    ensures { IfOk result (λ table. table ≡ specs.table_told lines.now told.now) }
{
    let turns = placed_turns(alloc, lines, told.rows.as_slice())?;
    table_by(alloc, &turns)
}

// The number of which the value is the decimal text, and 0 where it is none.
fn number_in(value: &Bytes) -> i64
    ensures { result ≡ specs.number_in value.now }
{
    amount_of(value.as_slice()).unwrap_or(0)
}

// The sum of all values. Each is a number of 64 bits, and there are fewer than 2^63, so it fits in 128 bits.
fn sum_of(table: &Table) -> i128
    ensures { result ≡ specs.sum_of_table table.now }
{
    let mut sum: i128 = 0;
    for (_, value) in table.iter() {
        let number = number_in(value);
        sum += i128::from(number);
    }
    sum
}

/// What came of a run of these lines. The commands of placed rows are done again on a table of their own, in the order of their
/// places, and at one place of their ranks. It takes O(n log n) comparisons for n lines, and memory for that table and a copy
/// of each command.
pub fn totals(alloc: Global, lines: &[NamedLine], told: &Told) -> Result<Totals, AllocError>
    ensures { IfOk result (λ totals. totals ≡ specs.totals_of lines.now told.now) }
{
    let table = table_told(alloc, lines, told)?;
    Ok(Totals {
        commands: commands_in(lines),
        acted: acted_in(told.rows.as_slice()),
        sum: sum_of(&table),
        segments: told.chain.segments.as_slice().len() as u64,
    })
}
