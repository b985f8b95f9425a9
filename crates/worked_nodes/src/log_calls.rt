//! Calls of a virtual log, and what comes of them.
ghost use Rattle.delos_types.specs.Spelling.{IsSpellable};
ghost use Rattle.delos_types.specs.declared.entry.Entry.{Entry};
ghost use Rattle.std.specs.Prelude.{ℕ, List, ◌≤◌, ◌^◌};

use crate::both::append_both;
use crate::stuck::Stuck;
use crate::words::Words;
use delos_types::entry::Entry;
use fate_words::chooser::Calm;
use legal_journal::rules::Rules;
use legal_journal::turns::Turns;
use std::alloc::AllocError;
use virtual_log::calls::Next;
use virtual_log::extend::Extension;
use virtual_log::fault::Fault;
use virtual_log::log::VirtualLog;

/// A log is trimmed at most up to here.
const MOST: u64 = 1000;

/// What comes of the calls in these lines, which append this entry.
pub(crate) fn make_calls<T: Turns>(
    log: &mut VirtualLog<T, Calm>,
    entry: &Entry,
    lines: &[&str],
    out: &mut String,
) -> Result<(), Stuck>
    requires may { (who : ℕ) (e : Entry) → T.Law.law.may who e }
    requires seals { (who : ℕ) → T.Law.seals who }
    requires floor { (shown : List Entry) (n : ℕ) → n ≤ 2 ^ 38 → T.Law.law.floor shown n }
    requires spelled { IsSpellable entry.now }
{
    for line in lines {
        write!(out, "{line}: ")?;
        make_call(log, entry, &mut Words::of(line), out)?;
    }
    Ok(())
}

fn make_call<T: Turns>(
    log: &mut VirtualLog<T, Calm>,
    entry: &Entry,
    words: &mut Words<'_>,
    out: &mut String,
) -> Result<(), Stuck>
    requires may { (who : ℕ) (e : Entry) → T.Law.law.may who e }
    requires seals { (who : ℕ) → T.Law.seals who }
    requires floor { (shown : List Entry) (n : ℕ) → n ≤ 2 ^ 38 → T.Law.law.floor shown n }
    requires spelled { IsSpellable entry.now }
{
    match words.word() {
        "append" => push_number(out, log.append(entry))?,
        "both" => append_both(log, entry, out)?,
        "tail" => push_number(out, log.check_tail())?,
        "known" => push_number(out, Ok(log.known()))?,
        "read" => push_next(out, log.read_next(words.number(), words.number()))?,
        "extend" => push_extension(out, log.extend())?,
        "truncate" => truncate(log, words.number(), out)?,
        "trim" => trim(log, words.number(), out)?,
        _ => return Err(Stuck::Line),
    }
    words.end()
}

/// The trim of the chain is raised.
fn truncate<T: Turns>(log: &mut VirtualLog<T, Calm>, n: u64, out: &mut String) -> Result<(), Stuck>
    requires floor { (shown : List Entry) (n : ℕ) → n ≤ 2 ^ 38 → T.Law.law.floor shown n }
{
    if n > MOST || n > log.known() {
        return Err(Stuck::Line);
    }
    match log.truncate(n) {
        Ok((version, trim)) => writeln!(out, "trim {trim}, version {version}")?,
        Err(fault) => writeln!(out, "{fault}")?,
    }
    Ok(())
}

/// The trim is raised, and the loglets let go of what lies below it.
fn trim<T: Turns>(log: &mut VirtualLog<T, Calm>, n: u64, out: &mut String) -> Result<(), Stuck>
    requires floor { (shown : List Entry) (n : ℕ) → n ≤ 2 ^ 38 → T.Law.law.floor shown n }
{
    if n > MOST || n > log.known() {
        return Err(Stuck::Line);
    }
    Ok(push_number(out, log.prefix_trim(n))?)
}

fn push_number(out: &mut String, answer: Result<u64, Fault>) -> Result<(), AllocError> {
    match answer {
        Ok(number) => writeln!(out, "{number}"),
        Err(fault) => writeln!(out, "{fault}"),
    }
}

fn push_next(out: &mut String, answer: Result<Next, Fault>) -> Result<(), AllocError> {
    match answer {
        Ok(Next::Nothing) => writeln!(out, "nothing"),
        Ok(Next::Trimmed(trim)) => writeln!(out, "trimmed below {trim}"),
        Ok(Next::Found(pos, _)) => writeln!(out, "the entry at {pos}"),
        Err(fault) => writeln!(out, "{fault}"),
    }
}

fn push_extension(out: &mut String, answer: Result<Extension, Fault>) -> Result<(), AllocError> {
    match answer {
        Ok(Extension::Extended { version, start }) => {
            writeln!(out, "extended at {start}, version {version}")
        }
        Ok(Extension::Moved { version }) => writeln!(out, "moved, version {version}"),
        Ok(Extension::NoSpare) => writeln!(out, "no spare"),
        Err(fault) => writeln!(out, "{fault}"),
    }
}
