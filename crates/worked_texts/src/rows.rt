//! The text of rows and chains, from their fields.
ghost use Rattle.std.specs.Prelude.{◌<◌, ◌↔◌, IsTrue, All};

use crate::text::{byte_of, name_and_rest, node_of, numbers_in, text_of, unknown};
use delos_types::bytes::Bytes;
use delos_types::cause::Cause;
use delos_types::chain::{Chain, Segment, Segments};
use delos_types::place::Place;
use row_text::render::render;
use row_text::row::{Outcome, Row, Rows, Who};
use std::alloc::Global;
use std::io;
use table_core::command::{Found, Pair, Pairs, Reply};

fn reply_in(alloc: Global, words: &[&str]) -> io::Result<Reply> {
    Ok(match words {
        ["done"] => Reply::Done,
        ["absent"] => Reply::Absent,
        ["was", value] => Reply::Was(Bytes::from_slice(alloc, value.as_bytes())?),
        ["number", number] => match number.parse::<i64>() {
            Ok(number) => Reply::Number(number),
            Err(_) => return Err(unknown()),
        },
        ["full"] => Reply::Full,
        ["not", ..] => Reply::NotNumber,
        _ => return Err(unknown()),
    })
}

fn found_in(alloc: Global, words: &[&str]) -> io::Result<Found> {
    Ok(match words {
        ["nothing"] => Found::Nothing,
        ["value", value] => Found::Value(Bytes::from_slice(alloc, value.as_bytes())?),
        ["pairs", all @ ..] => {
            let mut pairs = Vec::new(alloc);
            for word in all {
                let (key, value) = word.split_once('=').unwrap_or((word, ""));
                let key = Bytes::from_slice(alloc, key.as_bytes())?;
                let value = Bytes::from_slice(alloc, value.as_bytes())?;
                pairs.push(Pair { key, value })?;
            }
            Found::All(Pairs::from_vec(pairs))
        }
        _ => return Err(unknown()),
    })
}

/// The cause of an open row: `meta`, `store`, `full loglet 1`, or `no-quorum loglet 0 unreached 2`.
fn cause_in(name: &str, numbers: &[u64]) -> io::Result<Cause> {
    Ok(match (name, numbers) {
        ("meta", []) => Cause::Meta,
        ("store", []) => Cause::Store,
        ("full", [id]) => Cause::Full {
            id: byte_of(*id)? as u32,
        },
        ("no-quorum", [id, unreached]) => Cause::NoQuorum {
            id: byte_of(*id)? as u32,
            unreached: byte_of(*unreached)? as u32,
        },
        _ => return Err(unknown()),
    })
}

/// What a row answers, by the words behind the name, and the numbers among them.
fn outcome_in(alloc: Global, words: &[&str], numbers: &[u64]) -> io::Result<Outcome> {
    let late = matches!(words, ["late", ..]);
    Ok(match (words, numbers) {
        (["placed" | "late", _, _, _, _, reply @ ..], [pos, sub, ..]) => Outcome::Placed {
            place: Place {
                pos: *pos,
                sub: byte_of(*sub)? as u16,
            },
            reply: Some(reply_in(alloc, reply)?),
            late,
        },
        (["read", _, _, found @ ..], [after, ..]) => Outcome::Read {
            after: *after,
            found: found_in(alloc, found)?,
        },
        (["extended", ..], [version, start]) => Outcome::Extended {
            version: *version,
            start: *start,
        },
        (["moved", ..], [version]) => Outcome::Moved { version: *version },
        (["nothing", ..], []) => Outcome::NoSpare,
        (["clean", _], [clean]) => Outcome::Alive { clean: *clean },
        (["trimmed", _], [trim]) => Outcome::Trimmed { trim: *trim },
        (["left"], []) => Outcome::Retired,
        (["open", cause, ..], numbers) => Outcome::Open {
            cause: cause_in(cause, numbers)?,
        },
        _ => return Err(unknown()),
    })
}

/// What a line of the case tells of a command: its number, whose it is (`session a` or `node 2`), and its answer.
fn row_in(alloc: Global, line: &str) -> io::Result<Row> {
    let words: Vec<&str> = line.split(' ').collect(alloc)?;
    let numbers = numbers_in(alloc, line)?;
    Ok(match (words.as_slice(), numbers.as_slice()) {
        ([_, _, "session", name, answer @ ..], [number, numbers @ ..]) => Row {
            number: *number,
            who: Who::Session(Bytes::from_slice(alloc, name.as_bytes())?),
            outcome: outcome_in(alloc, answer, numbers)?,
        },
        ([_, _, "node", _, answer @ ..], [number, node, numbers @ ..]) => Row {
            number: *number,
            who: Who::Node(node_of(*node)?),
            outcome: outcome_in(alloc, answer, numbers)?,
        },
        _ => return Err(unknown()),
    })
}

/// What a case has of a run.
#[derive(Drop)]
struct Shown<'a> {
    rows: Vec<Row>,
    end: u64,
    version: u64,
    trim: u64,
    segments: Vec<Segment>,
    kinds: Vec<&'a str>,
    is_down: bool,
}

/// A line of a case: a row, or a part of what stands below the rows.
fn take_line<'a>(alloc: Global, shown: &mut Shown<'a>, line: &'a str) -> io::Result<()> {
    let (name, rest) = name_and_rest(line);
    let numbers = numbers_in(alloc, line)?;
    match (name, numbers.as_slice()) {
        ("row", _) => shown.rows.push(row_in(alloc, line)?)?,
        ("end", [end]) => shown.end = *end,
        ("version", [version]) => shown.version = *version,
        ("trim", [trim]) => shown.trim = *trim,
        ("kinds", _) => {
            for kind in rest.split(' ') {
                shown.kinds.push(kind)?;
            }
        }
        ("segment", [id, start, ends @ ..]) => shown.segments.push(Segment {
            id: byte_of(*id)? as u32,
            start: *start,
            end: ends.first().copied(),
        })?,
        ("register", _) => shown.is_down = true,
        _ => return Err(unknown()),
    }
    Ok(())
}

fn have_kinds(segments: &[Segment], kinds: usize) -> bool
    ensures { IsTrue result ↔ All (λ s. s.id < kinds) segments.now }
{
    segments.iter().all(|s| (s.id as usize) < kinds)
}

/// Prints the text of the rows and of the chain of a case.
pub(crate) fn show_rows(rt: &HostRuntime, input: &[&str]) -> io::Result<()> {
    let alloc = rt.alloc();
    let mut shown = Shown {
        rows: Vec::new(alloc),
        end: 0,
        version: 1,
        trim: 0,
        segments: Vec::new(alloc),
        kinds: Vec::new(alloc),
        is_down: false,
    };
    for line in input {
        take_line(alloc, &mut shown, line)?;
    }
    let Shown {
        rows,
        end,
        version,
        trim,
        segments,
        kinds,
        is_down,
    } = shown;
    let chain = Chain {
        trim,
        segments: Segments::from_vec(segments),
    };
    if !have_kinds(chain.segments.as_slice(), kinds.len()) {
        return Err(unknown());
    }
    let rows = Rows::from_vec(rows);
    let kinds = kinds.as_slice();
    let text = render(alloc, &rows, end, version, &chain, is_down, kinds)?;
    let text = text_of(text.as_slice())?;
    print!(rt; "{text}")
}
