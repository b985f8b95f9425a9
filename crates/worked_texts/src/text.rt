//! Words and numbers of a line, bytes as numbers, and texts with marks in braces.
use delos_types::numbers::NodeId;
use std::alloc::{AllocError, Global};
use std::io;

/// What comes of a line that isn't understood.
pub(crate) fn unknown() -> io::Error {
    io::Error::from(io::ErrorKind::InvalidInput)
}

/// What comes of a call that ran out of memory.
pub(crate) fn out_of_memory() -> io::Error {
    io::Error::from(io::ErrorKind::OutOfMemory)
}

/// The first word of a line, and what stands behind it.
pub(crate) fn name_and_rest(line: &str) -> (&str, &str) {
    match line.split_once(' ') {
        Some((name, rest)) => (name, rest),
        None => (line, ""),
    }
}

/// The numbers behind the first word of a line. Other words stand between them for the reader.
pub(crate) fn numbers_in(alloc: Global, line: &str) -> Result<Vec<u64>, AllocError> {
    let (_, rest) = name_and_rest(line);
    let mut numbers = Vec::new(alloc);
    for word in rest.split(' ') {
        if let Ok(number) = word.parse::<u64>() {
            numbers.push(number)?;
        }
    }
    Ok(numbers)
}

pub(crate) fn number_of(word: &str) -> io::Result<u64> {
    match word.parse::<u64>() {
        Ok(number) => Ok(number),
        Err(_) => Err(unknown()),
    }
}

pub(crate) fn byte_of(number: u64) -> io::Result<u8> {
    if number < 256 {
        Ok(number as u8)
    } else {
        Err(unknown())
    }
}

pub(crate) fn node_of(number: u64) -> io::Result<NodeId> {
    match NodeId::new(byte_of(number)?) {
        Some(node) => Ok(node),
        None => Err(unknown()),
    }
}

/// Bytes as text.
pub(crate) fn text_of(bytes: &[u8]) -> io::Result<&str> {
    match str::from_utf8(bytes) {
        Ok(text) => Ok(text),
        Err(_) => Err(unknown()),
    }
}

/// Reads bytes: a line `bytes 1 0 22`, and changes below it, in order: `byte 3 is 2`, `the first 34`, `then 7`, and
/// `16385 bytes 2`.
pub(crate) fn read_bytes(alloc: Global, lines: &[&str]) -> io::Result<Vec<u8>> {
    let mut bytes = Vec::new(alloc);
    for line in lines {
        let (name, _) = name_and_rest(line);
        let numbers = numbers_in(alloc, line)?;
        change_bytes(&mut bytes, name, numbers.as_slice())?;
    }
    Ok(bytes)
}

/// A line of bytes, or of a change of them.
fn change_bytes(bytes: &mut Vec<u8>, name: &str, numbers: &[u64]) -> io::Result<()> {
    match (name, numbers) {
        ("byte", [at, byte]) => match bytes.get_mut(*at as usize) {
            Some(place) => *place = byte_of(*byte)?,
            None => return Err(unknown()),
        },
        ("the", [count]) => bytes.truncate(*count as usize),
        ("bytes" | "then", numbers) => return push_each(bytes, numbers),
        (count, [byte]) => return push_times(bytes, count, *byte),
        _ => return Err(unknown()),
    }
    Ok(())
}

/// Each number as a byte behind the others.
fn push_each(bytes: &mut Vec<u8>, numbers: &[u64]) -> io::Result<()> {
    for number in numbers {
        bytes.push(byte_of(*number)?)?;
    }
    Ok(())
}

/// A byte so often behind the others.
fn push_times(bytes: &mut Vec<u8>, count: &str, byte: u64) -> io::Result<()> {
    let byte = byte_of(byte)?;
    for _ in 0..number_of(count)? {
        bytes.push(byte)?;
    }
    Ok(())
}

/// Prints bytes behind a label.
pub(crate) fn print_bytes(rt: &HostRuntime, label: &str, bytes: &[u8]) -> io::Result<()> {
    print!(rt; "{label}")?;
    for byte in bytes {
        print!(rt; " {byte}")?;
    }
    println!(rt; "")
}

/// Puts a text so often.
fn put_times(out: &mut Vec<u8>, times: u64, text: &str) -> Result<(), AllocError> {
    for _ in 0..times {
        out.extend_from_slice(text.as_bytes())?;
    }
    Ok(())
}

/// Puts what a mark stands for, and tells whether the line has its end then.
fn put_mark(out: &mut Vec<u8>, mark: &str) -> io::Result<bool> {
    match mark.split_once(' ') {
        Some(("no", _)) => return Ok(false),
        Some(("byte", number)) => out.push(byte_of(number_of(number)?)?)?,
        Some((times, text)) => put_times(out, number_of(times)?, text)?,
        None => return Err(unknown()),
    }
    Ok(true)
}

/// Puts a line, and tells whether it has an end. `{5 x}` stands for five letters x, `{byte 13}` for that byte, and
/// `{no LF}` says that the line has no end.
pub(crate) fn put_line(out: &mut Vec<u8>, line: &str) -> io::Result<bool> {
    let mut has_end = true;
    let mut pieces = line.split('{');
    if let Some(first) = pieces.next() {
        out.extend_from_slice(first.as_bytes())?;
    }
    for piece in pieces {
        let Some((mark, behind)) = piece.split_once('}') else {
            return Err(unknown());
        };
        has_end = put_mark(out, mark)? && has_end;
        out.extend_from_slice(behind.as_bytes())?;
    }
    Ok(has_end)
}
