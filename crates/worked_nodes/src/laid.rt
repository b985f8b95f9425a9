//! Entries that are laid out by hand, byte by byte.
use crate::stuck::Stuck;
use crate::words::{Words, push_hex};
use delos_types::big_endian::split_u16;
use delos_types::bytes::Bytes;
use delos_types::entry::Entry;
use delos_types::item::{Header, Headers};
use delos_types::numbers::NodeId;
use std::alloc::{AllocError, Global};

/// What stands before an item's session: it has one header, of kind 2, whose body has ten bytes.
const SESSION_HEADER: [u8; 4] = [1, 2, 0, 10];

/// How many bytes of an item aren't its command.
const AROUND: u8 = 16;

/// A command has at most so many bytes.
const MOST: usize = 200;

/// An entry of node 1, item by item.
#[derive(Drop)]
pub(crate) struct Laid {
    count: u8,
    lengths: Vec<u8>,
    payload: Vec<u8>,
}

impl Laid {
    pub(crate) fn new(alloc: Global) -> Laid {
        Laid {
            count: 0,
            lengths: Vec::new(alloc),
            payload: Vec::new(alloc),
        }
    }

    /// `SESSION RANK COMMAND` or `SESSION FIRST..LAST COMMAND`: an item for each rank, with the bytes of the command.
    pub(crate) fn add_items(&mut self, alloc: Global, words: &mut Words<'_>) -> Result<(), Stuck> {
        let session = words.small();
        let (first, last) = words.range();
        let command = words.bytes(alloc)?;
        for rank in first..=last {
            self.add(session, rank, command.as_slice())?;
        }
        Ok(())
    }

    fn add(&mut self, session: u8, rank: u64, command: &[u8]) -> Result<(), Stuck> {
        if command.len() > MOST || self.count == u8::MAX {
            return Err(Stuck::Line);
        }
        let length = command.len() as u8;
        self.count += 1;
        self.lengths.extend_from_slice(&[0, AROUND + length])?;
        self.payload.extend_from_slice(&SESSION_HEADER)?;
        self.payload.extend_from_slice(&[0, session])?;
        self.payload.extend_from_slice(&rank.to_be_bytes())?;
        self.payload.extend_from_slice(&[0, length])?;
        self.payload.extend_from_slice(command)?;
        Ok(())
    }

    /// The entry: the number and the lengths of its items are its one header, of kind 1.
    pub(crate) fn entry(&self, alloc: Global) -> Result<Entry, AllocError> {
        let mut body = Vec::from_slice(alloc, &[self.count])?;
        body.extend_from_slice(self.lengths.as_slice())?;
        let header = Header {
            kind: 1,
            body: Bytes::from_vec(body),
        };
        Ok(Entry {
            origin: NodeId::new(1).unwrap(),
            headers: Headers::one(alloc, header)?,
            payload: Bytes::from_slice(alloc, self.payload.as_slice())?,
        })
    }
}

/// The bytes of a packed entry: its headers, and its items by their lengths in the first header.
pub(crate) fn push_entry(out: &mut String, entry: &Entry) -> Result<(), AllocError> {
    out.push_str("packed:\n")?;
    let mut lengths: &[u8] = &[];
    for header in entry.headers.as_slice() {
        write!(out, "  header {} ", header.kind)?;
        push_hex(out, header.body.as_slice())?;
        lengths = header.body.as_slice();
    }
    let lengths = lengths.get(1..).unwrap_or(&[]);
    push_items(out, lengths, entry.payload.as_slice())
}

fn push_items(out: &mut String, lengths: &[u8], payload: &[u8]) -> Result<(), AllocError> {
    let mut lengths = lengths;
    let mut payload = payload;
    for _ in 0..lengths.len() / 2 {
        let Some((length, rest)) = split_u16(lengths) else {
            break;
        };
        let length = usize::from(length).min(payload.len());
        out.push_str("  item ")?;
        push_hex(out, &payload[..length])?;
        payload = &payload[length..];
        lengths = rest;
    }
    if payload.is_empty() {
        return Ok(());
    }
    out.push_str("  item ")?;
    push_hex(out, payload)
}
