//! Worked histories of the stack of engines, of a replica and of virtual logs: each case of the data files is printed with
//! what came of it; and two nodes inside a program.
#![tactic(auto)]

mod both;
mod cases;
mod chains;
mod embedded;
mod engines;
mod first;
mod house;
mod items;
mod laid;
mod log_calls;
mod logs;
mod replicas;
mod rules;
mod second;
mod shelf;
mod stuck;
mod with_engines;
mod words;

use cases::{Topic, play_file};
use with_engines::show_two;

/// The files of cases, and what they are of.
const FILES: [(&str, Topic); 3] = [
    ("engines.txt", Topic::Engines),
    ("replicas.txt", Topic::Replicas),
    ("logs.txt", Topic::Logs),
];

fn main(rt: HostRuntime) -> anyhow::Result<()> {
    let mut counts = String::new(rt.alloc());
    for (file, topic) in FILES {
        let count = play_file(&rt, file, topic)?;
        writeln!(counts, "{file}: {count} cases")?;
    }
    show_two(rt.alloc(), &mut counts)?;
    print!(&rt; "{counts}")?;
    Ok(())
}
