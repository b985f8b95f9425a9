//! The rows of a run as JSON, one object a line.
use delos_types::bytes::Bytes;
use delos_types::cause::Cause;
use json::Writer;
use row_text::row::{Outcome, Row, Who};
use std::alloc::{AllocError, Global};
use table_core::command::{Found, Reply};

/// The rows, in order, each as a JSON object on a line of its own. Its `line` and `who` are the row's; `outcome` says which further
/// members it has:
///
/// | outcome | members |
/// |---|---|
/// | `placed` | `position`, `item`, `reply`, and `value` where the reply has one; `late` |
/// | `read` | `after`, and `value` or `pairs` where something was found |
/// | `extended` | `version`, `start` |
/// | `moved` | `version` |
/// | `alive` | `clean` |
/// | `trim` | `trim` |
/// | `no-spare`, `retired` | |
/// | `open` | `cause`, and `loglet`, `unreached` where the cause has them |
///
/// Bytes that are no UTF-8, which no script has, are written as a list of numbers.
pub fn write_rows(alloc: Global, rows: &[Row]) -> Result<Vec<u8>, AllocError> {
    let mut out = Vec::new(alloc);
    for row in rows {
        let mut writer = Writer::new(out);
        put_row(&mut writer, row)?;
        out = writer.into_inner();
        out.push(b'\n')?;
    }
    Ok(out)
}

fn put_row(writer: &mut Writer<Global>, row: &Row) -> Result<(), AllocError> {
    writer.begin_object()?;
    put_number(writer, "line", row.number)?;
    writer.key("who")?;
    match &row.who {
        Who::Session(name) => put_bytes(writer, name)?,
        Who::Node(node) => writer.string(NODE_NAMES[(node.number() - 1) as usize])?,
    }
    put_outcome(writer, &row.outcome)?;
    writer.end_object()
}

/// The names of the nodes, in the order of their numbers.
const NODE_NAMES: [&str; 8] = ["n1", "n2", "n3", "n4", "n5", "n6", "n7", "n8"];

fn put_outcome(writer: &mut Writer<Global>, outcome: &Outcome) -> Result<(), AllocError> {
    match outcome {
        Outcome::Placed { place, reply, late } => {
            put_text(writer, "outcome", "placed")?;
            put_number(writer, "position", place.pos)?;
            put_number(writer, "item", u64::from(place.sub))?;
            if let Some(reply) = reply {
                put_reply(writer, reply)?;
            }
            put_flag(writer, "late", *late)
        }
        Outcome::Read { after, found } => {
            put_text(writer, "outcome", "read")?;
            put_number(writer, "after", *after)?;
            put_found(writer, found)
        }
        Outcome::Extended { version, start } => {
            put_text(writer, "outcome", "extended")?;
            put_number(writer, "version", *version)?;
            put_number(writer, "start", *start)
        }
        Outcome::Moved { version } => {
            put_text(writer, "outcome", "moved")?;
            put_number(writer, "version", *version)
        }
        Outcome::NoSpare => put_text(writer, "outcome", "no-spare"),
        Outcome::Alive { clean } => {
            put_text(writer, "outcome", "alive")?;
            put_number(writer, "clean", *clean)
        }
        Outcome::Trimmed { trim } => {
            put_text(writer, "outcome", "trim")?;
            put_number(writer, "trim", *trim)
        }
        Outcome::Retired => put_text(writer, "outcome", "retired"),
        Outcome::Open { cause } => {
            put_text(writer, "outcome", "open")?;
            put_cause(writer, *cause)
        }
    }
}

fn put_reply(writer: &mut Writer<Global>, reply: &Reply) -> Result<(), AllocError> {
    match reply {
        Reply::Done => put_text(writer, "reply", "ok"),
        Reply::Absent => put_text(writer, "reply", "none"),
        Reply::Was(value) => {
            put_text(writer, "reply", "was")?;
            writer.key("value")?;
            put_bytes(writer, value)
        }
        Reply::Number(sum) => {
            put_text(writer, "reply", "number")?;
            writer.key("value")?;
            writer.i64(*sum)
        }
        Reply::Full => put_text(writer, "reply", "full"),
        Reply::NotNumber => put_text(writer, "reply", "text"),
    }
}

fn put_found(writer: &mut Writer<Global>, found: &Found) -> Result<(), AllocError> {
    match found {
        Found::Nothing => Ok(()),
        Found::Value(value) => {
            writer.key("value")?;
            put_bytes(writer, value)
        }
        Found::All(pairs) => {
            writer.key("pairs")?;
            writer.begin_array()?;
            for pair in pairs.as_slice() {
                writer.begin_array()?;
                put_bytes(writer, &pair.key)?;
                put_bytes(writer, &pair.value)?;
                writer.end_array()?;
            }
            writer.end_array()
        }
    }
}

fn put_cause(writer: &mut Writer<Global>, cause: Cause) -> Result<(), AllocError> {
    match cause {
        Cause::NoQuorum { id, unreached } => {
            put_text(writer, "cause", "no-quorum")?;
            put_number(writer, "loglet", u64::from(id))?;
            put_number(writer, "unreached", u64::from(unreached))
        }
        Cause::Full { id } => {
            put_text(writer, "cause", "full")?;
            put_number(writer, "loglet", u64::from(id))
        }
        Cause::Meta => put_text(writer, "cause", "meta"),
        Cause::Store => put_text(writer, "cause", "store"),
    }
}

fn put_text(writer: &mut Writer<Global>, key: &str, text: &str) -> Result<(), AllocError> {
    writer.key(key)?;
    writer.string(text)
}

fn put_number(writer: &mut Writer<Global>, key: &str, number: u64) -> Result<(), AllocError> {
    writer.key(key)?;
    writer.u64(number)
}

fn put_flag(writer: &mut Writer<Global>, key: &str, flag: bool) -> Result<(), AllocError> {
    writer.key(key)?;
    writer.boolean(flag)
}

fn put_bytes(writer: &mut Writer<Global>, bytes: &Bytes) -> Result<(), AllocError> {
    match str::from_utf8(bytes.as_slice()) {
        Ok(text) => writer.string(text),
        Err(_) => {
            writer.begin_array()?;
            for byte in bytes.as_slice() {
                writer.u64(u64::from(*byte))?;
            }
            writer.end_array()
        }
    }
}
