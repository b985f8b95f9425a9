//! Cases of virtual logs over shelves of one loglet and of three, by one user and by two.
ghost use Rattle.delos_types.specs.Spelling.{IsSpellable};
ghost use Rattle.std.specs.Prelude.{IfOk};

use crate::chains;
use crate::first::First;
use crate::log_calls::make_calls;
use crate::second::{Act, Second};
use crate::shelf::{fabric_on_three, log_on_one};
use crate::stuck::Stuck;
use crate::words::Words;
use delos_types::bytes::Bytes;
use delos_types::entry::Entry;
use delos_types::item::Headers;
use delos_types::numbers::NodeId;
use fate_words::chooser::Calm;
use std::alloc::{AllocError, Global};
use virtual_log::log::VirtualLog;

/// An entry of one byte.
fn entry(alloc: Global) -> Result<Entry, AllocError>
    ensures { IfOk result IsSpellable }
{
    let payload = Bytes::from_slice(alloc, b"x")?;
    Ok(Entry {
        origin: NodeId::new(1).unwrap(),
        headers: Headers::new(alloc),
        payload,
    })
}

/// What comes of the lines of a case, of which the first names the shelf.
pub(crate) fn play(alloc: Global, lines: &[&str], out: &mut String) -> Result<(), Stuck> {
    match lines {
        ["register", lines @ ..] => chains::play(alloc, lines, out),
        ["1 loglet", lines @ ..] => play_on_one(alloc, lines, out),
        ["3 loglets", lines @ ..] => play_on_three(alloc, lines, out),
        _ => Err(Stuck::Line),
    }
}

fn play_on_one(alloc: Global, lines: &[&str], out: &mut String) -> Result<(), Stuck> {
    let entry = entry(alloc)?;
    let Some(mut log) = log_on_one(alloc) else {
        return Err(Stuck::Failed);
    };
    make_calls(&mut log, &entry, lines, out)
}

/// `another extends before NUMBERS` and `another trims before NUMBERS` make the calls once for each number: before the event
/// of that number another user acts.
fn play_on_three(alloc: Global, lines: &[&str], out: &mut String) -> Result<(), Stuck> {
    let [first, rest @ ..] = lines else {
        return Err(Stuck::Line);
    };
    let mut words = Words::of(first);
    if words.word() != "another" {
        return make_shared(alloc, None, 0, lines, out);
    }
    let act = match words.word() {
        "extends" => Act::Extend,
        "trims" => Act::Trim,
        _ => return Err(Stuck::Line),
    };
    let _before = words.word();
    for before in words.numbers(alloc)? {
        writeln!(out, "before event {before}:")?;
        make_shared(alloc, Some(act), before, rest, out)?;
    }
    words.end()
}

/// Calls of a log over three loglets, before whose event of this number another acts, once.
fn make_shared(
    alloc: Global,
    act: Option<Act>,
    before: u64,
    lines: &[&str],
    out: &mut String,
) -> Result<(), Stuck> {
    let entry = entry(alloc)?;
    let Some(mut log) = shared_log(alloc, act, before) else {
        return Err(Stuck::Failed);
    };
    make_calls(&mut log, &entry, lines, out)
}

fn shared_log(alloc: Global, act: Option<Act>, before: u64) -> Option<VirtualLog<First, Calm>> {
    let fabric = fabric_on_three(alloc, Vec::new(alloc))?;
    let first = First {
        second: Second::new(alloc, fabric),
        act,
        before,
    };
    first.see();
    let Ok(log) = VirtualLog::new(alloc, first, Calm, 3) else {
        return None;
    };
    Some(log)
}
