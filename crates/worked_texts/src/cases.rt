//! The cases of a data file.
//!
//! A case is a narration, whose lines begin with `#`, its input, and a line `----`. Empty lines before it are its own.
use crate::amounts::show_amounts;
use crate::chains::show_chain;
use crate::choosers::show_choices;
use crate::command_line::show_plan;
use crate::commands::show_command;
use crate::ends::show_ends;
use crate::entries::show_bytes;
use crate::items::show_items;
use crate::made::show_made;
use crate::members::show_members;
use crate::order::show_order;
use crate::replies::show_reply;
use crate::rows::show_rows;
use crate::scripts::show_script;
use crate::tables::show_table;
use anyhow::{Context, ensure};
use std::{fs, io};

/// What the cases of a file are of.
#[derive(Clone, Copy)]
pub(crate) enum Topic {
    Scripts,
    /// Words of the command line.
    Words,
    /// Scripts that are made of a seed.
    Made,
    /// Chains in bytes, and their steps.
    Chains,
    /// Entries and items in bytes.
    Entries,
    /// What entries hold.
    Items,
    /// The order in which a session's commands act.
    Order,
    /// Nodes that report and leave, and trims.
    Members,
    /// Commands on the table.
    Tables,
    /// Commands in bytes.
    Commands,
    /// Numbers in text.
    Amounts,
    /// Replies in bytes.
    Replies,
    /// The text of rows and chains.
    Rows,
    /// Where words come from, and what they mean for a message.
    Choosers,
    /// Where bytes come from and go to.
    Ends,
}

/// Prints what comes of a case, which ends in this line of the file.
fn show_case(
    rt: &HostRuntime,
    topic: Topic,
    input: &[&str],
    file: &str,
    number: u64,
) -> anyhow::Result<()> {
    show(rt, topic, input).context(format_args!("{file}, the case that ends in line {number}"))
}

/// Prints what comes of a case.
fn show(rt: &HostRuntime, topic: Topic, input: &[&str]) -> io::Result<()> {
    match topic {
        Topic::Scripts => show_script(rt, input),
        Topic::Words => show_plan(rt, input),
        Topic::Made => show_made(rt, input),
        Topic::Chains => show_chain(rt, input),
        Topic::Entries => show_bytes(rt, input),
        Topic::Items => show_items(rt, input),
        Topic::Order => show_order(rt, input),
        Topic::Members => show_members(rt, input),
        Topic::Tables => show_table(rt, input),
        Topic::Commands => show_command(rt, input),
        Topic::Amounts => show_amounts(rt, input),
        Topic::Replies => show_reply(rt, input),
        Topic::Rows => show_rows(rt, input),
        Topic::Choosers => show_choices(rt, input),
        Topic::Ends => show_ends(rt, input),
    }
}

/// Prints each case of a file with what comes of it, and tells how many there are.
pub(crate) fn play_file(rt: &HostRuntime, file: &str, topic: Topic) -> anyhow::Result<u64> {
    let text = fs::read_to_string(rt, file)?;
    println!(rt; "==== {file}")?;
    let mut count = 0u64;
    let mut number = 0u64;
    let mut input = Vec::new(rt.alloc());
    for line in text.lines() {
        number = number.saturating_add(1);
        println!(rt; "{line}")?;
        if line == "----" {
            show_case(rt, topic, input.as_slice(), file, number)?;
            input.clear();
            count = count.saturating_add(1);
        } else if !input.is_empty() || !(line.is_empty() || line.starts_with("#")) {
            input.push(line)?;
        }
    }
    ensure!(input.is_empty(), "{file}: its last case has no end");
    println!(rt; "")?;
    Ok(count)
}
