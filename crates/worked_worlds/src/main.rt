//! Plays schedules of a world, and clerks in threads, and prints each step with what came of it.
//!
//! - `topic`: what the schedules of a file are about.
//! - `worlds`: a world, and its steps. `steps`: lists of them.
//! - `pictures`: a world in words.
//! - `gates`: a gate that holds a node. `threads`: clerks in threads.
#![tactic(auto)]

mod gates;
mod pictures;
mod steps;
mod threads;
mod topic;
mod worlds;

use anyhow::Result;
use topic::Part;
use worked_cases::cases::print_file;

const TOPICS: [Part; 4] = [Part::Cells, Part::Worlds, Part::Stripes, Part::Gates];

fn main(rt: HostRuntime) -> Result<()> {
    let mut plays = String::new(rt.alloc());
    for topic in TOPICS {
        print_file(&rt, &topic, &mut plays)?;
    }
    println!(&rt; "played{plays}")?;
    print!(&rt; "==== threads\n{}", threads::rows(&rt, rt.alloc())?)?;
    Ok(())
}
