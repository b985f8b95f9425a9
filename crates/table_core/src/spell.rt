//! Commands in bytes.
ghost use Rattle.std.specs.Prelude.{◌≡◌, ◌<◌, ◌≤◌, ◌^◌, ◌∷◌, ◌++◌, IfOk, IsTrue, OnOk, Some, None, MatchOption, length};
ghost use Rattle.table_core.specs.Spelling.{IsSpellable, Reads, command_text, key_text, value_text};
ghost use Rattle.table_core.specs.Reading as reading;

use crate::command::Command;
use delos_types::bytes::Bytes;
use std::alloc::{AllocError, Global};

/// The bytes that spell a command, which asks for one that can be spelled: a key has at most 255
/// bytes, each from 33 to 126, and a value at most 65,535 bytes.
pub fn spell_command(alloc: Global, command: &Command) -> Result<Bytes, AllocError>
    requires { IsSpellable command.now }
    ensures { IfOk result (λ bytes. bytes ≡ command_text command.now) }
{
    match command {
        Command::Put { key, value } => {
            let mut bytes = begin(alloc, 1, key)?;
            push_value(&mut bytes, value)?;
            Ok(Bytes::from_vec(bytes))
        }
        Command::Del { key } => {
            let bytes = begin(alloc, 2, key)?;
            Ok(Bytes::from_vec(bytes))
        }
        Command::Cas { key, old, new } => {
            let mut bytes = begin(alloc, 3, key)?;
            push_value(&mut bytes, old)?;
            push_value(&mut bytes, new)?;
            Ok(Bytes::from_vec(bytes))
        }
        Command::Add { key, amount } => {
            let mut bytes = begin(alloc, 4, key)?;
            bytes.extend_from_slice(&amount.to_be_bytes())?;
            Ok(Bytes::from_vec(bytes))
        }
    }
}

fn begin(alloc: Global, tag: u8, key: &Bytes) -> Result<Vec<u8>, AllocError>
    requires { length key.now < 256 }
    ensures { IfOk result (λ bytes. bytes.items ≡ tag ∷ key_text key.now) }
{
    let mut bytes = Vec::new(alloc);
    bytes.push(tag)?;
    bytes.push(key.len() as u8)?;
    bytes.extend_from_slice(key.as_slice())?;
    Ok(bytes)
}

fn push_value(bytes: &mut Vec<u8>, value: &Bytes) -> Result<(), AllocError>
    requires { length value.now < 2 ^ 16 }
    ensures { OnOk result (bytes.new.items ≡ bytes.old.items ++ value_text value.now) }
{
    bytes.extend_from_slice(&(value.len() as u16).to_be_bytes())?;
    bytes.extend_from_slice(value.as_slice())?;
    Ok(())
}

/// The command that the bytes spell, and None exactly where they spell none.
pub fn read_command(alloc: Global, bytes: &[u8]) -> Result<Option<Command>, AllocError>
    ensures value { IfOk result (λ read. read ≡ reading.command_of bytes.now) }
    ensures spelled { IfOk result (Reads bytes.now) }
{
    let Some((tag, rest)) = bytes.split_first() else {
        return Ok(None);
    };
    let Some((key, rest)) = split_key(rest) else {
        return Ok(None);
    };
    command_with(alloc, *tag, key, rest)
}

// The command of a tag and a key, where the bytes are its other arguments.
fn command_with(
    alloc: Global,
    tag: u8,
    key: &[u8],
    bytes: &[u8],
) -> Result<Option<Command>, AllocError>
    ensures { IfOk result (λ read. read ≡ reading.command_with tag key.now bytes.now) }
{
    match tag {
        1 => put_of(alloc, key, bytes),
        2 => del_of(alloc, key, bytes),
        3 => cas_of(alloc, key, bytes),
        4 => add_of(alloc, key, bytes),
        _ => Ok(None),
    }
}

fn put_of(alloc: Global, key: &[u8], bytes: &[u8]) -> Result<Option<Command>, AllocError>
    ensures { IfOk result (λ read. read ≡ reading.put_of key.now (reading.split_value bytes.now)) }
{
    let Some((value, rest)) = split_value(bytes) else {
        return Ok(None);
    };
    if !rest.is_empty() {
        return Ok(None);
    }
    let key = Bytes::from_slice(alloc, key)?;
    let value = Bytes::from_slice(alloc, value)?;
    Ok(Some(Command::Put { key, value }))
}

fn del_of(alloc: Global, key: &[u8], bytes: &[u8]) -> Result<Option<Command>, AllocError>
    ensures { IfOk result (λ read. read ≡ reading.if_whole (Command.Del key.now) bytes.now) }
{
    if !bytes.is_empty() {
        return Ok(None);
    }
    let key = Bytes::from_slice(alloc, key)?;
    Ok(Some(Command::Del { key }))
}

fn cas_of(alloc: Global, key: &[u8], bytes: &[u8]) -> Result<Option<Command>, AllocError>
    ensures { IfOk result (λ read. read ≡ reading.cas_from key.now (reading.split_value bytes.now)) }
{
    let Some((old, rest)) = split_value(bytes) else {
        return Ok(None);
    };
    let Some((new, rest)) = split_value(rest) else {
        return Ok(None);
    };
    if !rest.is_empty() {
        return Ok(None);
    }
    let key = Bytes::from_slice(alloc, key)?;
    let old = Bytes::from_slice(alloc, old)?;
    let new = Bytes::from_slice(alloc, new)?;
    Ok(Some(Command::Cas { key, old, new }))
}

fn add_of(alloc: Global, key: &[u8], bytes: &[u8]) -> Result<Option<Command>, AllocError>
    ensures { IfOk result (λ read. read ≡ reading.add_of key.now bytes.now) }
{
    let [a, b, c, d, e, f, g, h] = bytes else {
        return Ok(None);
    };
    let amount = i64::from_be_bytes([*a, *b, *c, *d, *e, *f, *g, *h]);
    let key = Bytes::from_slice(alloc, key)?;
    Ok(Some(Command::Add { key, amount }))
}

// The first `len` bytes, and what stands behind them.
fn split_front(len: usize, bytes: &[u8]) -> Option<(&[u8], &[u8])>
    ensures { MatchOption result (reading.split_front len bytes.now ≡ None) (λ p. reading.split_front len bytes.now ≡ Some (p.0.now, p.1.now)) }
{
    if len > bytes.len() {
        return None;
    }
    Some(bytes.split_at(len))
}

// A key at the front, and what stands behind it.
fn split_key(bytes: &[u8]) -> Option<(&[u8], &[u8])>
    ensures { MatchOption result (reading.split_key bytes.now ≡ None) (λ p. reading.split_key bytes.now ≡ Some (p.0.now, p.1.now)) }
{
    let (len, rest) = bytes.split_first()?;
    let (key, rest) = split_front(*len as usize, rest)?;
    if is_printable(key) {
        return Some((key, rest));
    }
    None
}

// Each byte can be printed, and is no blank.
fn is_printable(key: &[u8]) -> bool
    ensures { result ≡ reading.is_printable key.now }
{
    key.iter().all(|b| 33 <= *b && *b <= 126)
}

// A value at the front, and what stands behind it.
fn split_value(bytes: &[u8]) -> Option<(&[u8], &[u8])>
    ensures { MatchOption result (reading.split_value bytes.now ≡ None) (λ p. reading.split_value bytes.now ≡ Some (p.0.now, p.1.now)) }
{
    let [high, low, rest @ ..] = bytes else {
        return None;
    };
    let len = u16::from_be_bytes([*high, *low]);
    split_front(len as usize, rest)
}
