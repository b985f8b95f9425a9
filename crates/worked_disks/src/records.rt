//! The records of a log server and of a node's store, in bytes.
ghost use Rattle.std.specs.Prelude.{◌<◌, ◌^◌, length, IfOk};

use anyhow::{Result, bail};
use delos_types::bytes::Bytes;
use server_records::{
    Record, compacted_record, read_record, sealed_record, stored_record, trimmed_record,
};
use std::alloc::{AllocError, Global};
use store_records::{Change, put_change, put_head, read_commit};
use worked_cases::bench::Bench;
use worked_cases::entries::entry;
use worked_cases::words::{bytes, nothing, number, shown, silent};

/// No case has a longer key or value.
const MOST_BYTES: usize = 99;

/// No case has a greater position.
const MOST_POSITION: u64 = 0x1_0000_0000;

/// The bytes of a transaction so far.
#[derive(Drop)]
pub struct RecordBench {
    transaction: Vec<u8>,
}

impl RecordBench {
    pub fn new(alloc: Global) -> RecordBench {
        RecordBench {
            transaction: Vec::new(alloc),
        }
    }
}

impl Bench for RecordBench {
    fn call(&mut self, alloc: Global, name: &str, words: &[&str]) -> Result<String> {
        match name {
            "head" => {
                add_head(&mut self.transaction, words)?;
                silent(alloc)
            }
            "change" => {
                add_change(alloc, &mut self.transaction, words)?;
                silent(alloc)
            }
            "spelled" => {
                nothing(words)?;
                Ok(shown(alloc, self.transaction.as_slice())?)
            }
            _ => convert(alloc, name, words),
        }
    }
}

/// A record in bytes, or back.
fn convert(alloc: Global, name: &str, words: &[&str]) -> Result<String> {
    match name {
        "stored" => stored(alloc, words),
        "trimmed" => trimmed(alloc, number(words)?),
        "sealed" => {
            nothing(words)?;
            Ok(shown(alloc, sealed_record(alloc)?.as_slice())?)
        }
        "compacted" => compacted(alloc, words),
        "server-record" => server_record(alloc, bytes(alloc, words)?.as_slice()),
        "transaction" => transaction(alloc, bytes(alloc, words)?.as_slice()),
        _ => bail!("there is no call {name}"),
    }
}

/// The bytes of a log server's record of an entry at a position.
fn stored(alloc: Global, words: &[&str]) -> Result<String> {
    let Some((position, words)) = words.split_first() else {
        bail!("a position is wanted");
    };
    let position = position.parse::<u32>()?;
    let entry = entry(alloc, bytes(alloc, words)?.as_slice())?;
    let record = stored_record(alloc, u64::from(position), &entry)?;
    Ok(shown(alloc, record.as_slice())?)
}

/// The bytes of its record that the entries below a position are let go.
fn trimmed(alloc: Global, position: u64) -> Result<String> {
    if position > MOST_POSITION {
        bail!("no case has so great a position");
    }
    Ok(shown(alloc, trimmed_record(alloc, position)?.as_slice())?)
}

/// The bytes of the record that a compaction begins with: a base, and the length at which it is sealed, if it is.
fn compacted(alloc: Global, words: &[&str]) -> Result<String> {
    let Some((base, words)) = words.split_first() else {
        bail!("a base is wanted");
    };
    let base = u64::from(base.parse::<u32>()?);
    let record = if words.is_empty() {
        compacted_record(alloc, base, None)?
    } else {
        let length = number(words)?;
        if length > MOST_POSITION {
            bail!("no case has so great a length");
        }
        compacted_record(alloc, base, Some(length))?
    };
    Ok(shown(alloc, record.as_slice())?)
}

/// The record of a log server that the bytes spell.
fn server_record(alloc: Global, bytes: &[u8]) -> Result<String> {
    match read_record(alloc, bytes)? {
        Some(Record::Stored(position, entry)) => {
            let payload = shown(alloc, entry.payload.as_slice())?;
            Ok(format!(in alloc; "stored {position} {payload}")?)
        }
        Some(Record::Sealed) => Ok(format!(in alloc; "sealed")?),
        Some(Record::Trimmed(position)) => Ok(format!(in alloc; "trimmed {position}")?),
        Some(Record::Compacted(base, Some(length))) => {
            Ok(format!(in alloc; "compacted {base}, sealed at {length}")?)
        }
        Some(Record::Compacted(base, None)) => Ok(format!(in alloc; "compacted {base}")?),
        None => Ok(format!(in alloc; "none")?),
    }
}

/// Adds the head of a transaction: its cursor, and how many changes it has.
fn add_head(out: &mut Vec<u8>, words: &[&str]) -> Result<()> {
    if words.len() != 2 {
        bail!("a cursor and a number of changes are wanted");
    }
    put_head(out, words[0].parse::<u64>()?, words[1].parse::<u64>()?)?;
    Ok(())
}

/// Adds a change: a kind, a key, and the value that it gets, if there is one.
fn add_change(alloc: Global, out: &mut Vec<u8>, words: &[&str]) -> Result<()> {
    if words.len() < 2 || words.len() > 3 {
        bail!("a kind, a key and maybe a value are wanted");
    }
    let kind = words[0].parse::<u8>()?;
    let key = short(alloc, words[1])?;
    if words.len() == 3 {
        let value = short(alloc, words[2])?;
        put_change(out, kind, &key, Some(&value))?;
    } else {
        put_change(out, kind, &key, None)?;
    }
    Ok(())
}

/// The bytes of a key or a value, which are few.
fn short(alloc: Global, word: &str) -> Result<Bytes>
    ensures { IfOk result (λ made. length made < 2 ^ 16) }
{
    let bytes = bytes(alloc, &[word])?;
    if bytes.len() > MOST_BYTES {
        bail!("no case has so long a key or a value");
    }
    Ok(Bytes::from_vec(bytes))
}

/// The transaction that the bytes spell.
fn transaction(alloc: Global, bytes: &[u8]) -> Result<String> {
    let Some(commit) = read_commit(alloc, bytes)? else {
        return Ok(format!(in alloc; "none")?);
    };
    let mut out = format!(in alloc; "cursor {}", commit.cursor)?;
    for change in &commit.changes.into_vec() {
        add_text(alloc, &mut out, change)?;
    }
    Ok(out)
}

fn add_text(alloc: Global, out: &mut String, change: &Change) -> Result<(), AllocError> {
    let key = shown(alloc, change.key.as_slice())?;
    match &change.value {
        Some(value) => {
            let value = shown(alloc, value.as_slice())?;
            write!(out, ", {} {key} gets {value}", change.kind)
        }
        None => write!(out, ", {} {key} goes", change.kind),
    }
}
