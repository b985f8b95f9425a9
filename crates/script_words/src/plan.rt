//! What the words of the command line ask for.
ghost use Rattle.std.specs.Prelude.{◌≡◌, ◌≢◌, ◌∷◌, IfOk, List, Option, codes, map, string_bytes, option_map};
ghost use Rattle.clap.specs.Words.{found_of, rows_of, subcommand_rows_of, first_of, one_of, kind_of};
ghost use Rattle.script_words.specs.Plans.{Reads, Matches, IsPlan, told_words, number_in, nodes_in, lines_in, task_in, shelf_in, options_in, plan_in, plan_of, bad_words_text};

use crate::command::the_command;
use crate::shelf::{Shelf, kinds_of};
use clap::error::ErrorKind;
use clap::{ArgMatches, Error};
use std::alloc::{AllocError, Global};

/// What is done with the nodes.
#[derive(Clone, Copy, Debug, PartialEq, Eq)]
pub enum Task {
    /// The script that the source has left is run, and its rows are written.
    Run,
    /// A script of so many logged lines, 1 to 15,000, is made and run, and its rows are counted.
    Make { lines: u16 },
}

/// A run: how many nodes it has, from which seed its script is made if it is, over which shelf it goes, and
/// what is done.
#[derive(Drop, Debug)]
pub struct Plan {
    /// 1 to 8.
    pub nodes: u8,
    /// Of a script that is made; nothing else is left to chance yet.
    pub seed: u32,
    /// 1 to 64 loglets.
    pub shelf: Shelf,
    pub task: Task,
}

/// Why the words have no plan.
#[derive(Clone, Copy, Debug, PartialEq, Eq)]
pub enum WordsError {
    /// Memory ran out.
    Memory,
    /// They are no command, or the shelf's text isn't 1 to 64 known kinds.
    BadWords,
}

impl From<AllocError> for WordsError {
    ghost use Rattle.script_words.specs.declared.plan.WordsError.TheVariants.{Memory};

    ghost from_gives = { λ _ e. e ≡ Memory };

    fn from(_: AllocError) -> Self {
        WordsError::Memory
    }
}

// The words as `clap` wants them: behind the program's name, and `run` where there are none.
fn told_words<'a>(alloc: Global, words: &'a [String]) -> Result<Vec<&'a str>, AllocError>
    ensures { IfOk result (λ v. map (λ s. s.now) v.items ≡ told_words (map string_bytes words.entry.now)) }
{
    let mut told = Vec::new(alloc);
    told.push("delos_sim")?;
    if words.is_empty() {
        told.push("run")?;
        return Ok(told);
    }
    for word in words {
        told.push(word.as_str())?;
    }
    Ok(told)
}

fn number_in(matches: &ArgMatches<'_>, id: &str) -> Option<u32>
    ensures { result ≡ number_in id.now (rows_of (found_of matches.now)) }
{
    matches.get_one::<u32>(id)
}

fn text_in<'a>(matches: &ArgMatches<'a>, id: &str) -> Option<&'a str>
    ensures { option_map (λ s. s.now) result ≡ first_of id.now (rows_of (found_of matches.now)) }
{
    matches.get_str(id)
}

// How many nodes: 1 to 8.
fn nodes_in(matches: &ArgMatches<'_>) -> Option<u8>
    ensures { result ≡ nodes_in (rows_of (found_of matches.now)) }
{
    match number_in(matches, "nodes") {
        Some(n) => {
            if 1 <= n && n <= 8 {
                Some(n as u8)
            } else {
                None
            }
        }
        None => None,
    }
}

fn shelf_in(alloc: Global, matches: &ArgMatches<'_>) -> Result<Shelf, WordsError>
    ensures { Reads result (shelf_in (rows_of (found_of matches.now))) }
{
    match text_in(matches, "shelf") {
        Some(text) => match kinds_of(alloc, text)? {
            Some(shelf) => Ok(shelf),
            None => Err(WordsError::BadWords),
        },
        None => Err(WordsError::BadWords),
    }
}

// How many logged lines a made script has: 1 to 15,000.
fn lines_in(matches: &ArgMatches<'_>) -> Option<u16>
    ensures { result ≡ lines_in (rows_of (found_of matches.now)) }
{
    match number_in(matches, "lines") {
        Some(n) => {
            if 1 <= n && n <= 15000 {
                Some(n as u16)
            } else {
                None
            }
        }
        None => None,
    }
}

// What the subcommand of this name does.
fn task_in(name: &str, matches: &ArgMatches<'_>) -> Option<Task>
    ensures { result ≡ task_in name.now (rows_of (found_of matches.now)) }
{
    if name == "make" {
        let lines = lines_in(matches)?;
        Some(Task::Make { lines })
    } else {
        Some(Task::Run)
    }
}

// The plan of the options of the subcommand of this name.
fn options_in(alloc: Global, name: &str, matches: &ArgMatches<'_>) -> Result<Plan, WordsError>
    ensures { Reads result (options_in name.now (rows_of (found_of matches.now))) }
{
    let nodes = nodes_in(matches).ok_or(WordsError::BadWords)?;
    let seed = number_in(matches, "seed").ok_or(WordsError::BadWords)?;
    let shelf = shelf_in(alloc, matches)?;
    let task = task_in(name, matches).ok_or(WordsError::BadWords)?;
    Ok(Plan {
        nodes,
        seed,
        shelf,
        task,
    })
}

// The plan of the subcommand.
fn plan_in(alloc: Global, matches: &ArgMatches<'_>) -> Result<Plan, WordsError>
    ensures { Reads result (plan_in (subcommand_rows_of matches.now)) }
{
    let Some((name, inner)) = matches.subcommand() else {
        return Err(WordsError::BadWords);
    };
    options_in(alloc, name, inner)
}

// What a failed parse comes to.
fn error_of(error: Error) -> WordsError
    ensures memory { result ≡ WordsError.Memory → kind_of error ≡ ErrorKind.OutOfMemory }
    ensures bad { result ≡ WordsError.BadWords → kind_of error ≢ ErrorKind.OutOfMemory }
{
    if error.kind() == ErrorKind::OutOfMemory {
        WordsError::Memory
    } else {
        WordsError::BadWords
    }
}

fn matches_of<'a>(alloc: Global, told: &'a [&'a str]) -> Result<ArgMatches<'a>, WordsError>
    ensures { Matches result (map (λ s. s.now) told.entry.now) }
{
    let command = the_command(alloc)?;
    match command.try_get_matches_from(told) {
        Ok(matches) => Ok(matches),
        Err(error) => Err(error_of(error)),
    }
}

// What the words ask for.
#[tactic(auto, unfolding(crate::specs::Plans::plan_of))]
fn planned(alloc: Global, words: &[String]) -> Result<Plan, WordsError>
    ensures { Reads result (plan_of (map string_bytes words.now)) }
{
    let told = told_words(alloc, words)?;
    let matches = matches_of(alloc, told.as_slice())?;
    plan_in(alloc, &matches)
}

/// Reads the words behind the program's name; no words stand for `run`. They are bad words exactly
/// where the command, as `clap` defines its matches, doesn't take them, or the shelf's text isn't 1
/// to 64 known kinds with one comma between. A question for help or for the version is bad words too.
pub fn read_words(alloc: Global, words: &[String]) -> Result<Plan, WordsError>
    ensures reads { Reads result (plan_of (map string_bytes words.now)) }
    ensures plan { IfOk result IsPlan }
{
    planned(alloc, words)
}

/// What is told of words that have no plan: `bad words` and LF.
pub fn bad_words_text() -> &'static [u8]
    ensures { result.now ≡ bad_words_text }
{
    b"bad words\n"
}
