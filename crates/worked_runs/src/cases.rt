//! The cases of a data file.
//!
//! A case is a narration, whose lines begin with `#`, its input, and a line `----`. Empty lines before it are its own.
use crate::acts::show_acts;
use crate::faulting::show_faults;
use crate::registering::show_registers;
use crate::replacing::show_replacements;
use crate::reporting::show_reports;
use crate::run_rows::show_run_rows;
use crate::runs::show_run;
use crate::sessions::show_sessions;
use crate::tabling::show_tables;
use crate::trimming::show_trims;
use anyhow::{Context, ensure};
use std::fs;
use std::sync::Wait;
use std::thread::Threads;

/// What the cases of a file are.
#[derive(Clone, Copy)]
pub(crate) enum Topic {
    /// Runs of the program.
    Run,
    /// Rows that runs give.
    RunRows,
    /// Rows of sessions.
    Sessions,
    /// The places and the ranks of acts.
    Acts,
    /// Rows with the replies of commands and the answers of reads.
    Tables,
    /// Rows that are open or late, and what was counted in the yard.
    Faults,
    /// The chain that is told, and the register.
    Registers,
    /// Rows of replacements of the loglet.
    Replacements,
    /// Rows of what nodes report.
    Reports,
    /// Rows of trims.
    Trims,
}

/// Prints what comes of a case.
fn show<W: Threads + Wait + Sync>(
    rt: &HostRuntime,
    threads: &W,
    topic: Topic,
    input: &[&str],
) -> anyhow::Result<()> {
    match topic {
        Topic::Run => show_run(rt, threads, input),
        Topic::RunRows => show_run_rows(rt, threads, input),
        Topic::Sessions => show_sessions(rt, input),
        Topic::Acts => show_acts(rt, input),
        Topic::Tables => show_tables(rt, input),
        Topic::Faults => show_faults(rt, input),
        Topic::Registers => show_registers(rt, input),
        Topic::Replacements => show_replacements(rt, input),
        Topic::Reports => show_reports(rt, input),
        Topic::Trims => show_trims(rt, input),
    }
}

/// Prints a line of a data file, and below it the script that it takes from a file of its own.
fn echo(rt: &HostRuntime, line: &str) -> anyhow::Result<()> {
    println!(rt; "{line}")?;
    if line.starts_with("$ ")
        && let Some((_, file)) = line.split_once(" < ")
    {
        let script = fs::read_to_string(rt, file)?;
        print!(rt; "{script}")?;
    }
    Ok(())
}

/// Prints each case of a file with what comes of it, and tells how many there are.
pub(crate) fn play_file<W: Threads + Wait + Sync>(
    rt: &HostRuntime,
    threads: &W,
    file: &str,
    topic: Topic,
) -> anyhow::Result<u64> {
    let alloc = rt.alloc();
    let text = fs::read_to_string(rt, file)?;
    println!(rt; "==== {file}")?;
    let mut count = 0u64;
    let mut number = 0u64;
    let mut input = Vec::new(alloc);
    for line in text.lines() {
        number = number.saturating_add(1);
        echo(rt, line)?;
        if line == "----" {
            show(rt, threads, topic, input.as_slice()).context(format_args!(
                "{file}, the case that ends in line {number}"
            ))?;
            input = Vec::new(alloc);
            count = count.saturating_add(1);
        } else if !input.is_empty() || !(line.is_empty() || line.starts_with("#")) {
            input.push(line)?;
        }
    }
    ensure!(input.is_empty(), "{file}: its last case has no end");
    println!(rt; "")?;
    Ok(count)
}
