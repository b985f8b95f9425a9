//! Worked runs of the whole program, and rows that fit their script or don't: each case of the data files is printed with
//! what came of it.
#![tactic(auto)]

mod acts;
mod cases;
mod disks;
mod faulting;
mod fits;
mod logs;
mod own;
mod registering;
mod replacing;
mod reporting;
mod rows;
mod run_rows;
mod runs;
mod sessions;
mod setup;
mod tabling;
mod trimming;
mod words;

use cases::{Topic, play_file};

/// The data files, each with what its cases are.
const FILES: [(&str, Topic); 18] = [
    ("replies.txt", Topic::Run),
    ("nodes.txt", Topic::Run),
    ("replacements.txt", Topic::Run),
    ("reports.txt", Topic::Run),
    ("trims.txt", Topic::Run),
    ("shelves.txt", Topic::Run),
    ("refusals.txt", Topic::Run),
    ("faults.txt", Topic::Run),
    ("made.txt", Topic::Run),
    ("fit_runs.txt", Topic::RunRows),
    ("fit_sessions.txt", Topic::Sessions),
    ("fit_acts.txt", Topic::Acts),
    ("fit_tables.txt", Topic::Tables),
    ("fit_faults.txt", Topic::Faults),
    ("fit_registers.txt", Topic::Registers),
    ("fit_replacements.txt", Topic::Replacements),
    ("fit_reports.txt", Topic::Reports),
    ("fit_trims.txt", Topic::Trims),
];

fn main(rt: HostRuntime) -> anyhow::Result<()> {
    let mut counts = Vec::new(rt.alloc());
    for (file, topic) in FILES {
        counts.push((file, play_file(&rt, &rt, file, topic)?))?;
    }
    for (file, count) in counts.as_slice() {
        println!(&rt; "{file}: {count} cases")?;
    }
    Ok(())
}
