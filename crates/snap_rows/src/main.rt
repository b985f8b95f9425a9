//! Plays rows of published maps and prints each with what came of it, and then threads that look while one publishes.
//!
//! | words | what it does |
//! |---|---|
//! | none | the rows of `rows.txt`, and threads |
//! | `threads READERS` | one writer and so many readers in threads |
//! | `memory` | publishes, each tried again where memory ran out, and counts how each try ended |
//!
//! - `board`: a published map and its readers. `play`: rows. `course`: what is published at each position of a course, and what
//!   stands there then. `threads`: readers in threads beside a writer. `refused`: publishing where memory runs out.
#![tactic(auto)]

mod board;
mod course;
mod play;
mod refused;
mod threads;

use anyhow::{Result, bail};
use std::alloc::Global;
use std::sync::Wait;
use std::thread::Threads;
use std::{env, fs};

/// How many readers look beside a writer in the rows.
const READERS: [u32; 4] = [1, 2, 4, 8];

/// The words of the command line behind the program's name.
fn words_of(rt: &HostRuntime) -> Result<Vec<String>> {
    let mut words = Vec::new(rt.alloc());
    for word in env::args(rt)?.skip(1) {
        words.push(word)?;
    }
    Ok(words)
}

/// The word at a place, which is empty where there is none.
fn word(words: &[String], at: usize) -> &str {
    match words.get(at) {
        Some(word) => word.as_str(),
        None => "",
    }
}

/// The number at a place of the words, or this one where there is none.
fn number(words: &[String], at: usize, missing: u32) -> u32 {
    word(words, at).parse::<u32>().unwrap_or(missing)
}

/// The rows of a text, and threads.
fn rows<W: Threads + Wait + Sync>(rt: &W, alloc: Global, text: &str) -> Result<String> {
    let mut out = play::play(rt, alloc, text)?;
    writeln!(out, "==== threads")?;
    for readers in READERS {
        let came = threads::beside(rt, alloc, readers)?;
        writeln!(out, "{readers}: {}", came.rows(alloc)?)?;
    }
    Ok(out)
}

/// What the words ask for.
fn asked<W: Threads + Wait + Sync>(rt: &W, alloc: Global, words: &[String]) -> Result<String> {
    match word(words, 0) {
        "threads" => threads::beside(rt, alloc, number(words, 1, 2))?.counts(alloc),
        "memory" => refused::run(rt, alloc),
        _ => bail!("threads or memory"),
    }
}

fn main(rt: HostRuntime) -> Result<()> {
    let words = words_of(&rt)?;
    let alloc = rt.alloc();
    let out = if words.is_empty() {
        let text = fs::read_to_string(&rt, "rows.txt")?;
        rows(&rt, alloc, text.as_str())?
    } else {
        asked(&rt, alloc, words.as_slice())?
    };
    print!(&rt; "{out}")?;
    Ok(())
}
