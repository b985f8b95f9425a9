//! Numbers in decimal text.
use crate::text::{read_bytes, text_of, unknown};
use std::io;
use table_core::amount::{self, amount_of};

/// The text that a number is given, which is printed.
fn text_given(rt: &HostRuntime, number: &str) -> io::Result<Vec<u8>> {
    let Ok(number) = number.parse::<i64>() else {
        return Err(unknown());
    };
    let text = amount::text_of(rt.alloc(), number)?;
    let shown = text_of(text.as_slice())?;
    println!(rt; "text {shown}")?;
    Ok(Vec::from_slice(rt.alloc(), text.as_slice())?)
}

/// The text of a line: in quotes, of bytes, or the one that a number is given.
fn text_in(rt: &HostRuntime, line: &str) -> io::Result<Vec<u8>> {
    match line.split_once(' ') {
        Some(("text", quoted)) => {
            let text = quoted.trim_matches('"');
            Ok(Vec::from_slice(rt.alloc(), text.as_bytes())?)
        }
        Some(("number", number)) => text_given(rt, number),
        _ => read_bytes(rt.alloc(), &[line]),
    }
}

/// Reads numbers, each of a line's text.
pub(crate) fn show_amounts(rt: &HostRuntime, input: &[&str]) -> io::Result<()> {
    for line in input {
        let text = text_in(rt, line)?;
        match amount_of(text.as_slice()) {
            Some(number) => println!(rt; "number {number}")?,
            None => println!(rt; "no number")?,
        }
    }
    Ok(())
}
