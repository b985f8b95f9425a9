//! Worked rows of scripts, words of the command line, codecs, the table, rows and ends: each case of the data files is printed
//! with what came of it.
#![tactic(auto)]

mod amounts;
mod cases;
mod chains;
mod choosers;
mod command_line;
mod commands;
mod ends;
mod entries;
mod items;
mod made;
mod members;
mod order;
mod replies;
mod rows;
mod scripts;
mod tables;
mod text;

use cases::{Topic, play_file};

/// The data files, each with what its cases are of.
const FILES: [(&str, Topic); 16] = [
    ("scripts.txt", Topic::Scripts),
    ("refusals.txt", Topic::Scripts),
    ("words.txt", Topic::Words),
    ("made.txt", Topic::Made),
    ("chains.txt", Topic::Chains),
    ("entries.txt", Topic::Entries),
    ("items.txt", Topic::Items),
    ("session_order.txt", Topic::Order),
    ("members.txt", Topic::Members),
    ("tables.txt", Topic::Tables),
    ("commands.txt", Topic::Commands),
    ("amounts.txt", Topic::Amounts),
    ("replies.txt", Topic::Replies),
    ("rows.txt", Topic::Rows),
    ("choosers.txt", Topic::Choosers),
    ("ends.txt", Topic::Ends),
];

fn main(rt: HostRuntime) -> anyhow::Result<()> {
    let mut counts = String::new(rt.alloc());
    for (file, topic) in FILES {
        let count = play_file(&rt, file, topic)?;
        writeln!(counts, "{file}: {count} cases")?;
    }
    print!(&rt; "{counts}")?;
    Ok(())
}
