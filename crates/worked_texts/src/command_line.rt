//! Words of the command line that have a plan, and words that aren't taken.
use crate::text::{out_of_memory, put_line, text_of, unknown};
use script_words::plan::{Plan, Task, WordsError, bad_words_text, read_words};
use std::alloc::Global;
use std::io;

/// The words behind the program's name. A word in quotes may be empty or have spaces.
fn words_in(alloc: Global, command: &str) -> io::Result<Vec<String>> {
    let mut words = Vec::new(alloc);
    let mut is_quoted = false;
    for piece in command.split('"') {
        if is_quoted {
            words.push(String::from_str(alloc, piece)?)?;
        } else {
            for word in piece.split_whitespace() {
                words.push(String::from_str(alloc, word)?)?;
            }
        }
        is_quoted = !is_quoted;
    }
    Ok(words)
}

/// Prints a plan, and below it the kind of each loglet, by its own name, if that is asked for.
fn print_plan(rt: &HostRuntime, plan: &Plan, has_kinds: bool) -> io::Result<()> {
    let nodes = plan.nodes;
    let seed = plan.seed;
    match plan.task {
        Task::Run => println!(rt; "run: nodes {nodes}, seed {seed}")?,
        Task::Make { lines } => println!(rt; "make: lines {lines}, nodes {nodes}, seed {seed}")?,
    }
    let names = plan.shelf.names(rt.alloc())?.join(rt.alloc(), ",")?;
    let count = plan.shelf.as_slice().len();
    println!(rt; "loglets {count}: {names}")?;
    if has_kinds {
        for kind in plan.shelf.as_slice() {
            println!(rt; "{kind:?}")?;
        }
    }
    Ok(())
}

/// Reads the words of a command line. Below a line `kinds` the kind of each loglet is printed too.
pub(crate) fn show_plan(rt: &HostRuntime, input: &[&str]) -> io::Result<()> {
    let alloc = rt.alloc();
    let (line, has_kinds) = match input {
        [line] => (line, false),
        ["kinds", line] => (line, true),
        _ => return Err(unknown()),
    };
    let Some(command) = line.strip_prefix("$ delos_sim") else {
        return Err(unknown());
    };
    let mut text = Vec::new(alloc);
    put_line(&mut text, command)?;
    let words = words_in(alloc, text_of(text.as_slice())?)?;
    match read_words(alloc, words.as_slice()) {
        Ok(plan) => print_plan(rt, &plan, has_kinds),
        Err(WordsError::BadWords) => {
            let text = text_of(bad_words_text())?;
            print!(rt; "{text}")
        }
        Err(WordsError::Memory) => Err(out_of_memory()),
    }
}
