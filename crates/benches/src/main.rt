//! `benches WORK ..` does one kind of work so often that the scripts of `bench/` can time it, and prints how much of it was done:
//!
//! | work | words behind it | prints |
//! |---|---|---|
//! | `journal` | RECORDS BYTES | records of a journal on a disk in memory |
//! | `native` | SERVERS APPENDS BYTES | entries that were placed in a native loglet |
//! | `striped` | KIND APPENDS BYTES | entries that were placed in a striped loglet |
//! | `replica` | ENTRIES | commands that acted in a node's replica |
//! | `lock` | THREADS TURNS | events of clerks in threads at one desk |
//!
//! A word that is missing or no number stands for a small one. With no words at all each work is done once.
#![tactic(auto)]

ghost use Rattle.std.specs.Prelude.{◌≤◌};

mod appends;
mod journal;
mod lock;
mod native;
mod replica;
mod striped;

use std::alloc::Global;
use std::sync::Wait;
use std::thread::Threads;
use std::{env, io};

/// The greatest payload of an entry, in bytes.
const MOST_BYTES: usize = 16_000;

/// The words of the command line behind the program's name.
#[derive(Drop)]
struct Words {
    words: Vec<String>,
}

impl Words {
    fn of(rt: &HostRuntime) -> io::Result<Words> {
        let mut words = Vec::new(rt.alloc());
        for word in env::args(rt)?.skip(1) {
            words.push(word)?;
        }
        Ok(Words { words })
    }

    fn word(&self, at: usize) -> Option<&str> {
        self.words.get(at).map(|word| word.as_str())
    }

    /// The number at a place, or this one where there is none.
    fn number(&self, at: usize, missing: u32) -> u32 {
        self.word(at)
            .and_then(|word| word.parse::<u32>().ok())
            .unwrap_or(missing)
    }

    /// The number of bytes at a place, at most as many as a payload may have.
    fn bytes(&self, at: usize) -> usize
        ensures { result ≤ 16000 }
    {
        (self.number(at, 100) as usize).min(MOST_BYTES)
    }
}

/// Does one kind of work, and prints how much was done. None is want of memory.
fn measure<W: Threads + Wait + Sync>(
    rt: &W,
    alloc: Global,
    work: &str,
    words: &Words,
) -> Option<u64> {
    match work {
        "journal" => journal::run(alloc, words.number(1, 100), words.bytes(2)),
        "native" => {
            let servers = native::count(words.number(1, 3));
            native::run(alloc, servers, words.number(2, 100), words.bytes(3))
        }
        "striped" => {
            let kind = words.word(1).unwrap_or("striped2");
            striped::run(alloc, kind, words.number(2, 100), words.bytes(3))
        }
        "replica" => replica::run(alloc, words.number(1, 100)).ok(),
        _ => lock::run(rt, alloc, words.number(1, 2), words.number(2, 1_000)),
    }
}

fn tell(rt: &HostRuntime, done: Option<u64>) -> io::Result<()> {
    match done {
        Some(done) => println!(rt; "{done}"),
        None => Err(io::ErrorKind::OutOfMemory.into()),
    }
}

fn main(rt: HostRuntime) -> io::Result<()> {
    let words = Words::of(&rt)?;
    if let Some(work) = words.word(0) {
        let done = measure(&rt, rt.alloc(), work, &words);
        return tell(&rt, done);
    }
    for work in ["journal", "native", "striped", "replica", "lock"] {
        let done = measure(&rt, rt.alloc(), work, &words);
        tell(&rt, done)?;
    }
    Ok(())
}
