//! Plays the cases of disks, and of what is kept on them, and prints each call with its answer.
//!
//! - `topic`: what the cases of a file are about.
//! - `disks`: a disk. `records`: records in bytes.
//! - `workbench`: something that keeps its records on a disk, as `journals`, `pairs`, `registers`, `servers` and `stores`.
#![tactic(auto)]

mod disks;
mod journals;
mod pairs;
mod records;
mod registers;
mod servers;
mod stores;
mod topic;
mod workbench;

use anyhow::Result;
use topic::Kept;
use worked_cases::cases::print_file;

const TOPICS: [Kept; 7] = [
    Kept::Disks,
    Kept::Journals,
    Kept::Pairs,
    Kept::Records,
    Kept::Registers,
    Kept::Servers,
    Kept::Stores,
];

fn main(rt: HostRuntime) -> Result<()> {
    let mut plays = String::new(rt.alloc());
    for topic in TOPICS {
        print_file(&rt, &topic, &mut plays)?;
    }
    println!(&rt; "played{plays}")?;
    Ok(())
}
