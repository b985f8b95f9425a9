//! What is published at each position of a course, and what stands there then.
//!
//! The tables `a` and `b` have the keys 0 to 3. At a position that 8 divides the whole is published, which is key 0 of `a`; at one
//! that leaves 5 key 1 of both tables is removed; at any other one key of both is given the text of the position, key 0 where 4
//! divides it, and so on.
use anyhow::Result;
use delos_types::bytes::Bytes;
use snap_reads::{Change, ChangeList, Changes};
use std::alloc::{AllocError, Global};

/// The tables and keys of a course.
pub const TABLES: [&str; 2] = ["a", "b"];

pub const KEYS: [&str; 4] = ["0", "1", "2", "3"];

/// The text that is given to a key of a table at a position. It takes memory of its own.
pub fn text_at(alloc: Global, table: &str, pos: u64) -> Result<String, AllocError> {
    format!(in alloc; "what table {table} was given at position {pos}")
}

/// A change of a key of a table: it is given a text, or removed.
pub fn change(
    alloc: Global,
    table: &str,
    key: &str,
    value: Option<&str>,
) -> Result<Change, AllocError> {
    let table = Bytes::from_slice(alloc, table.as_bytes())?;
    let key = Bytes::from_slice(alloc, key.as_bytes())?;
    let value = match value {
        Some(value) => Some(Bytes::from_slice(alloc, value.as_bytes())?),
        None => None,
    };
    Ok(Change { table, key, value })
}

/// What is published at a position.
pub fn changes_at(alloc: Global, pos: u64) -> Result<Changes, AllocError> {
    let mut items = Vec::new(alloc);
    let whole = pos % 8 == 0;
    let key = KEYS[(pos % 4) as usize];
    for table in TABLES {
        if whole && table == "b" {
            continue;
        }
        if pos % 8 == 5 {
            items.push(change(alloc, table, key, None)?)?;
        } else {
            let text = text_at(alloc, table, pos)?;
            items.push(change(alloc, table, key, Some(text.as_str()))?)?;
        }
    }
    Ok(Changes {
        whole,
        list: ChangeList::from_vec(items),
    })
}

/// At which position a key of a table was given the text that it has once this position was published, if it has one: the key of
/// that number, of table `a` or of `b`.
pub fn given_at(pos: u64, is_a: bool, key: u64) -> Option<u64> {
    let mut given = None;
    for at in pos - pos % 8..=pos {
        match at % 8 {
            0 => given = if at > 0 && is_a && key == 0 {
                Some(at)
            } else {
                None
            },
            5 => {
                if key == 1 {
                    given = None;
                }
            }
            _ => {
                if at % 4 == key {
                    given = Some(at);
                }
            }
        }
    }
    given
}

/// Whether this is what a key of a table has once this position was published.
pub fn is_text_at(
    alloc: Global,
    seen: &Option<Bytes>,
    pos: u64,
    table: usize,
    key: usize,
) -> Result<bool, AllocError> {
    match (seen, given_at(pos, table == 0, key as u64)) {
        (None, None) => Ok(true),
        (Some(seen), Some(at)) => {
            let table = if table == 0 { "a" } else { "b" };
            let text = text_at(alloc, table, at)?;
            Ok(seen.as_slice() == text.as_bytes())
        }
        _ => Ok(false),
    }
}
