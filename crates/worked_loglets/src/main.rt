//! Plays the cases of loglets of each kind, and of the parts of native ones, and prints each call with its answer.
//!
//! - `topic`: what the cases of a file are about.
//! - `loglets`: a loglet of any kind. `calls`: lists of its calls, and their answers in words.
//! - `plans`: what an operation comes to, by what servers told. `bags`: copies of messages, which come again.
#![tactic(auto)]

mod bags;
mod calls;
mod loglets;
mod plans;
mod topic;

use anyhow::Result;
use topic::Part;
use worked_cases::cases::print_file;

const TOPICS: [Part; 3] = [Part::Loglets, Part::Plans, Part::Bags];

fn main(rt: HostRuntime) -> Result<()> {
    let mut plays = String::new(rt.alloc());
    for topic in TOPICS {
        print_file(&rt, &topic, &mut plays)?;
    }
    println!(&rt; "played{plays}")?;
    Ok(())
}
