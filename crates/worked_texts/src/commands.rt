//! Commands and queries as text and in bytes.
use crate::text::{print_bytes, read_bytes, text_of};
use std::io;
use table_core::command::{Command, Query};
use table_core::spell::{read_command, spell_command};

pub(crate) fn print_command(rt: &HostRuntime, command: &Command) -> io::Result<()> {
    match command {
        Command::Put { key, value } => {
            let key = text_of(key.as_slice())?;
            let value = text_of(value.as_slice())?;
            println!(rt; "put {key} {value}")
        }
        Command::Del { key } => {
            let key = text_of(key.as_slice())?;
            println!(rt; "del {key}")
        }
        Command::Cas { key, old, new } => {
            let key = text_of(key.as_slice())?;
            let old = text_of(old.as_slice())?;
            let new = text_of(new.as_slice())?;
            println!(rt; "cas {key} {old} {new}")
        }
        Command::Add { key, amount } => {
            let key = text_of(key.as_slice())?;
            println!(rt; "add {key} {amount}")
        }
    }
}

pub(crate) fn print_query(rt: &HostRuntime, query: &Query) -> io::Result<()> {
    match query {
        Query::Get { key } => {
            let key = text_of(key.as_slice())?;
            println!(rt; "get {key}")
        }
        Query::Scan { low, high } => {
            let low = text_of(low.as_slice())?;
            let high = text_of(high.as_slice())?;
            println!(rt; "scan {low} {high}")
        }
    }
}

/// Reads a command in bytes, and spells what was read.
pub(crate) fn show_command(rt: &HostRuntime, input: &[&str]) -> io::Result<()> {
    let alloc = rt.alloc();
    let bytes = read_bytes(alloc, input)?;
    match read_command(alloc, bytes.as_slice())? {
        None => println!(rt; "no command"),
        Some(command) => {
            print_command(rt, &command)?;
            let spelled = spell_command(alloc, &command)?;
            print_bytes(rt, "spelled", spelled.as_slice())
        }
    }
}
