//! The replicated table service on a script: `delos_sim run` reads the script from standard input,
//! and prints one row for each command, and the chain of loglets at the end.
#![tactic(auto)]

mod notes;

use gate_points::NoGate;
use memory_runs::run::run_in_memory;
use outside_ends::standard::{StdSink, StdSource};
use script_runner::ended::Status;
use shelf_loglets::shelf::Rooms;
use std::alloc::AllocError;
use std::env;
use std::process::ExitCode;
use std::sync::Wait;
use std::thread::Threads;

/// How many entries a loglet of the shelf takes: 2^32, and each native loglet of a striped one 2^28.
const ROOMS: Rooms = Rooms {
    single: 0x1_0000_0000,
    inner: 0x1000_0000,
};

/// The words of the command line, without the program's name. Where one of them is no text, an
/// empty word stands for them all, which no command takes.
fn words_of(rt: &HostRuntime) -> Result<Vec<String>, AllocError> {
    let alloc = rt.alloc();
    let mut words = Vec::new(alloc);
    let Ok(args) = env::args(rt) else {
        words.push(String::new(alloc))?;
        return Ok(words);
    };
    for word in args.skip(1) {
        words.push(word)?;
    }
    Ok(words)
}

/// Runs the script over the loglets and the nodes that the words name, on which nothing was begun, in threads. What standard
/// error or a file can't take of the notes is let go: the status is the run's.
fn run_script<W: Threads + Wait + Sync>(
    rt: &HostRuntime,
    threads: &W,
) -> Result<Status, AllocError> {
    let alloc = rt.alloc();
    let words = words_of(rt)?;
    let mut source = StdSource::new(rt.stdin());
    let mut sink = StdSink::new(rt.stdout());
    let ended = run_in_memory(
        threads,
        alloc,
        words.as_slice(),
        ROOMS,
        &mut source,
        &mut sink,
        &NoGate,
    )?;
    let end = ended.end;
    let _ = notes::explain(rt, &end);
    if let Some(told) = &end.told {
        let _ = notes::show(rt, words.as_slice(), told);
    }
    Ok(end.status)
}

fn main(rt: HostRuntime) -> ExitCode {
    let status = match run_script(&rt, &rt) {
        Ok(status) => status,
        Err(AllocError) => {
            let _ = notes::no_memory(&rt);
            Status::Memory
        }
    };
    ExitCode::from(status.code())
}
