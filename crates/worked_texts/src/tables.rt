//! Commands on the table, and what they are answered.
use crate::text::{out_of_memory, text_of, unknown};
use delos_types::bytes::Bytes;
use script_text::line::{Ask, Line};
use script_text::script::{ParseError, parse};
use std::io;
use table_core::command::{Found, Pairs, Reply};
use table_core::table::Table;

pub(crate) fn print_reply(rt: &HostRuntime, reply: &Reply) -> io::Result<()> {
    match reply {
        Reply::Done => println!(rt; "done"),
        Reply::Absent => println!(rt; "absent"),
        Reply::Was(value) => {
            let value = text_of(value.as_slice())?;
            println!(rt; "was {value:?}")
        }
        Reply::Number(number) => println!(rt; "number {number}"),
        Reply::Full => println!(rt; "full"),
        Reply::NotNumber => println!(rt; "not a number"),
    }
}

fn print_pairs(rt: &HostRuntime, pairs: &Pairs) -> io::Result<()> {
    print!(rt; "pairs")?;
    for pair in pairs.as_slice() {
        let key = text_of(pair.key.as_slice())?;
        let value = text_of(pair.value.as_slice())?;
        print!(rt; " {key}={value}")?;
    }
    println!(rt; "")
}

fn print_found(rt: &HostRuntime, found: &Found) -> io::Result<()> {
    match found {
        Found::Nothing => println!(rt; "nothing"),
        Found::Value(value) => {
            let value = text_of(value.as_slice())?;
            println!(rt; "value {value}")
        }
        Found::All(pairs) => print_pairs(rt, pairs),
    }
}

/// Asks the table what a line of a script asks.
fn ask(rt: &HostRuntime, table: &mut Table, line: &str) -> io::Result<()> {
    let alloc = rt.alloc();
    let text = format!(in alloc; "on n1 a {line}")?;
    let script = match parse(alloc, text.as_bytes(), 1) {
        Ok(script) => script,
        Err(ParseError::Memory) => return Err(out_of_memory()),
        Err(ParseError::Bad(_)) => return Err(unknown()),
    };
    let [Line::Session { ask, .. }] = script.lines() else {
        return Err(unknown());
    };
    match ask {
        Ask::Log(command) => print_reply(rt, &table.act(alloc, command)?),
        Ask::Look(query) => print_found(rt, &table.read(alloc, query)?),
    }
}

/// Plays lines on an empty table. `get` and `scan` are reads, and `pairs` is a scan of the table itself.
pub(crate) fn show_table(rt: &HostRuntime, input: &[&str]) -> io::Result<()> {
    let alloc = rt.alloc();
    let mut table = Table::new(alloc);
    for line in input {
        if let Some(keys) = line.strip_prefix("pairs ")
            && let Some((low, high)) = keys.split_once(' ')
        {
            let low = Bytes::from_slice(alloc, low.as_bytes())?;
            let high = Bytes::from_slice(alloc, high.as_bytes())?;
            print_pairs(rt, &table.scan(alloc, &low, &high)?)?;
        } else {
            ask(rt, &mut table, line)?;
        }
    }
    Ok(())
}
