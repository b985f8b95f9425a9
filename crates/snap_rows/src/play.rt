//! Rows of a published map: calls, a line each, and what each answers.
ghost use Rattle.std.specs.Prelude.{◌<◌, IfOk};

use crate::board::{Board, Unshown};
use crate::course::change;
use anyhow::{Context, Result, bail};
use snap_reads::{Change, ChangeList, Changes, Seen, Untold};
use std::alloc::Global;
use std::str;
use std::sync::Wait;

/// Plays the lines of a text, and tells each that is no narration with its answer.
pub fn play<W: Wait>(rt: &W, alloc: Global, text: &str) -> Result<String> {
    let mut out = String::new(alloc);
    let mut board = Board::new(alloc, rt, 1)?;
    for line in text.lines() {
        play_line(&mut board, rt, alloc, line, &mut out)?;
    }
    Ok(out)
}

/// Plays a line, unless it is narration or empty.
fn play_line<'a, W: Wait>(
    board: &mut Board<&'a W>,
    rt: &'a W,
    alloc: Global,
    line: &str,
    out: &mut String,
) -> Result<()> {
    if line.is_empty() || line.starts_with("#") {
        return Ok(());
    }
    if let Some(readers) = line.strip_prefix("new ") {
        *board = Board::new(alloc, rt, room(readers)?)?;
        writeln!(out, "{line}")?;
        return Ok(());
    }
    let words = words_of(alloc, line)?;
    let answer = answer(board, alloc, words.as_slice())?;
    writeln!(out, "{line} -> {answer}")?;
    Ok(())
}

fn words_of(alloc: Global, line: &str) -> Result<Vec<&str>> {
    let mut words = Vec::new(alloc);
    for word in line.split(' ') {
        words.push(word)?;
    }
    Ok(words)
}

/// A room for readers.
fn room(word: &str) -> Result<u32>
    ensures { IfOk result (λ room. room < 1000) }
{
    let room = word.parse::<u32>()?;
    if room >= 1000 {
        bail!("a room below 1000");
    }
    Ok(room)
}

/// What a call answers.
fn answer<W: Wait>(board: &mut Board<&W>, alloc: Global, words: &[&str]) -> Result<String> {
    let (Some(name), Some(rest)) = (words.get(0), words.get(1..)) else {
        bail!("a call is wanted");
    };
    match *name {
        "reader" => reader(board, alloc),
        "end" => Ok(String::from_str(alloc, if board.let_go() { "ended" } else { "nobody" })?),
        "publish" => publish(board, alloc, rest),
        "see" => see(board, alloc, rest),
        "tell" => tell(board, alloc, rest),
        _ => bail!("no such call"),
    }
}

fn reader<W: Wait>(board: &mut Board<&W>, alloc: Global) -> Result<String> {
    match board.reader()? {
        Some(at) => Ok(format!(in alloc; "{at}")?),
        None => Ok(String::from_str(alloc, "none")?),
    }
}

/// `TABLE/KEY`
fn place_of(word: &str) -> Result<(&str, &str)> {
    word.split_once("/").context("TABLE/KEY")
}

/// `TABLE/KEY=VALUE`, or `TABLE/KEY` that is removed
fn change_of(alloc: Global, word: &str) -> Result<Change> {
    let (place, value) = match word.split_once("=") {
        Some((place, value)) => (place, Some(value)),
        None => (word, None),
    };
    let (table, key) = place_of(place)?;
    Ok(change(alloc, table, key, value)?)
}

/// `POSITION CHANGE ..`, or `POSITION whole CHANGE ..`
fn publish<W: Wait>(board: &mut Board<&W>, alloc: Global, words: &[&str]) -> Result<String> {
    let pos = words.get(0).context("a position")?.parse::<u64>()?;
    let whole = words.len() > 1 && words[1] == "whole";
    let mut items = Vec::new(alloc);
    for word in words.iter().skip(if whole { 2 } else { 1 }) {
        items.push(change_of(alloc, word)?)?;
    }
    let changes = Changes {
        whole,
        list: ChangeList::from_vec(items),
    };
    let told = match board.publish(pos, &changes) {
        Ok(()) => "ok",
        Err(Unshown::Low) => "low",
        Err(Unshown::NotTaken) => "not taken",
        Err(Unshown::Owed) => "owed",
    };
    Ok(String::from_str(alloc, told)?)
}

/// `READER TABLE/KEY`
fn see<W: Wait>(board: &mut Board<&W>, alloc: Global, words: &[&str]) -> Result<String> {
    if words.len() != 2 {
        bail!("a reader and a place are wanted");
    }
    let at = words[0].parse::<usize>()?;
    let (table, key) = place_of(words[1])?;
    let seen = board.see(at, table.as_bytes(), key.as_bytes());
    match seen.context("no such reader")?? {
        Some(seen) => told(alloc, &seen),
        None => Ok(String::from_str(alloc, "no reading")?),
    }
}

fn told(alloc: Global, seen: &Seen) -> Result<String> {
    match &seen.value {
        Some(value) => {
            let text = str::from_utf8(value.as_slice())?;
            Ok(format!(in alloc; "~{} [{text}]", seen.pos)?)
        }
        None => Ok(format!(in alloc; "~{} none", seen.pos)?),
    }
}

fn tell<W: Wait>(board: &mut Board<&W>, alloc: Global, words: &[&str]) -> Result<String> {
    if words.len() != 1 {
        bail!("a reader is wanted");
    }
    let told = match board
        .tell(words[0].parse::<usize>()?)
        .context("no such reader")?
    {
        Ok(()) => "told",
        Err(Untold::NoMemory) => "no memory",
        Err(Untold::LetGo) => "let go",
    };
    Ok(String::from_str(alloc, told)?)
}
