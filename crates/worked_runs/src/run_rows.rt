//! Rows that runs give.
use crate::fits::{halves, lines_in, script_of};
use crate::runs::run_plainly;
use crate::sessions::judge;
use crate::words::number_in;
use anyhow::{Context, ensure};
use fitting_run::answered::Answered;
use fitting_run::fitting::{as_many_rows, reads_are_within};
use row_text::row::Row;
use std::alloc::Global;
use std::sync::Wait;
use std::thread::Threads;

/// The lines of a script, each with the row that answers it.
fn answered_in(alloc: Global, script: &[u8], rows: Vec<Row>) -> anyhow::Result<Vec<Answered>> {
    let lines = lines_in(alloc, script)?;
    ensure!(
        as_many_rows(lines.as_slice(), rows.as_slice()),
        "each line has one row"
    );
    let mut answered = Vec::new(alloc);
    for (line, row) in lines.into_iter().zip(rows.into_iter()) {
        answered.push(Answered { line, row })?;
    }
    Ok(answered)
}

/// `within 3`: prints whether each read looked at most there.
fn show_limit(rt: &HostRuntime, answered: &[Answered], line: &str) -> anyhow::Result<()> {
    let limit = line.strip_prefix("within ").context("no position")?;
    let holds = reads_are_within(answered, number_in(limit)?);
    let holds = if holds { "yes" } else { "no" };
    println!(rt; "reads within {limit}: {holds}")?;
    Ok(())
}

/// Runs a script over a file loglet, and prints how many rows there are, the end, and whether the rows fit the script. Below the
/// line `rows` a case names positions, as `within 3`, and it is printed whether each read looked at most there.
pub(crate) fn show_run_rows<W: Threads + Wait + Sync>(
    rt: &HostRuntime,
    threads: &W,
    input: &[&str],
) -> anyhow::Result<()> {
    let alloc = rt.alloc();
    let (script, limits) = halves(input)?;
    let script = script_of(alloc, script)?;
    let told = run_plainly(threads, alloc, script.as_slice())?;
    let end = told.end;
    let rows = told.rows.into_vec();
    let count = rows.len();
    println!(rt; "rows {count}")?;
    println!(rt; "end {end}")?;
    let answered = answered_in(alloc, script.as_slice(), rows)?;
    judge(rt, answered.as_slice())?;
    for line in limits {
        show_limit(rt, answered.as_slice(), line)?;
    }
    Ok(())
}
