//! The cases of a data file.
//!
//! A case is its input and a line `----`. Lines that begin with `#` narrate, and empty lines do nothing.
use crate::with_engines::play;
use anyhow::{Context, ensure};
use std::fs;

/// What the cases of a file are.
#[derive(Clone, Copy)]
pub(crate) enum Topic {
    /// Histories of a stack of engines.
    Engines,
    /// Histories of a replica.
    Replicas,
    /// Calls of virtual logs.
    Logs,
}

/// Prints what comes of a case, which ends in this line of the file.
fn show(
    rt: &HostRuntime,
    topic: Topic,
    input: &[&str],
    file: &str,
    number: u64,
) -> anyhow::Result<()> {
    let mut came = String::new(rt.alloc());
    play(rt.alloc(), topic, input, &mut came).context(format_args!(
        "{file}, the case that ends in line {number}"
    ))?;
    print!(rt; "{came}")?;
    Ok(())
}

/// Prints each case of a file with what comes of it, and tells how many there are.
pub(crate) fn play_file(rt: &HostRuntime, file: &str, topic: Topic) -> anyhow::Result<u64> {
    let text = fs::read_to_string(rt, file)?;
    println!(rt; "==== {file}")?;
    let mut count = 0u64;
    let mut number = 0u64;
    let mut input = Vec::new(rt.alloc());
    for line in text.lines() {
        number = number.saturating_add(1);
        println!(rt; "{line}")?;
        if line == "----" {
            show(rt, topic, input.as_slice(), file, number)?;
            input.clear();
            count = count.saturating_add(1);
        } else if !line.is_empty() && !line.starts_with("#") {
            input.push(line)?;
        }
    }
    ensure!(input.is_empty(), "{file}: its last case has no end");
    println!(rt; "")?;
    Ok(count)
}
