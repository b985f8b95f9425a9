//! Numbers and bytes in the words of a line, and bytes as words.
use anyhow::{Result, bail};
use std::alloc::{AllocError, Global};
use std::fmt::Display;

/// There are no words left.
pub fn nothing(words: &[&str]) -> Result<()> {
    if !words.is_empty() {
        bail!("more words than the call takes");
    }
    Ok(())
}

/// The one number that the words are.
pub fn number(words: &[&str]) -> Result<u64> {
    if words.len() != 1 {
        bail!("one number is wanted");
    }
    let number = words[0].parse::<u64>()?;
    Ok(number)
}

/// The numbers that the words are.
pub fn numbers(alloc: Global, words: &[&str]) -> Result<Vec<u64>> {
    let mut numbers = Vec::new(alloc);
    for word in words {
        numbers.push(word.parse::<u64>()?)?;
    }
    Ok(numbers)
}

/// The bytes that the words are, one after another: `"ab"` is a text, `0f` a byte in hexadecimal digits, and `0f*3` three such.
pub fn bytes(alloc: Global, words: &[&str]) -> Result<Vec<u8>> {
    let mut bytes = Vec::new(alloc);
    for word in words {
        add_bytes(&mut bytes, word)?;
    }
    Ok(bytes)
}

fn add_bytes(bytes: &mut Vec<u8>, word: &str) -> Result<()> {
    if let Some(text) = quoted(word) {
        bytes.extend_from_slice(text.as_bytes())?;
        return Ok(());
    }
    let (digits, times) = match word.split_once("*") {
        Some((digits, times)) => (digits, times.parse::<u8>()?),
        None => (word, 1),
    };
    let byte = u8::from_str_radix(digits, 16)?;
    for _ in 0..times {
        bytes.push(byte)?;
    }
    Ok(())
}

fn quoted(word: &str) -> Option<&str> {
    word.strip_prefix("\"")?.strip_suffix("\"")
}

/// The bytes as words: printed characters as a text, others in hexadecimal digits.
pub fn shown(alloc: Global, bytes: &[u8]) -> Result<String, AllocError> {
    let mut out = String::new(alloc);
    let mut in_text = false;
    for byte in bytes {
        let is_text = byte.is_ascii_graphic() && *byte != b'"';
        if in_text && !is_text {
            out.push_str("\"")?;
        }
        if !out.is_empty() && !(in_text && is_text) {
            out.push_str(" ")?;
        }
        if is_text && !in_text {
            out.push_str("\"")?;
        }
        add_shown(&mut out, *byte, is_text)?;
        in_text = is_text;
    }
    if in_text {
        out.push_str("\"")?;
    }
    if bytes.is_empty() {
        out.push_str("\"\"")?;
    }
    Ok(out)
}

fn add_shown(out: &mut String, byte: u8, is_text: bool) -> Result<(), AllocError> {
    if is_text {
        write!(out, "{}", char::from(byte))
    } else {
        write!(out, "{byte:02x}")
    }
}

/// How a call ended that answers nothing but its failure.
pub fn done<E: Display + Drop>(alloc: Global, ended: Result<(), E>) -> Result<String, AllocError> {
    match ended {
        Ok(()) => String::from_str(alloc, "ok"),
        Err(fault) => format!(in alloc; "{fault}"),
    }
}

/// A number or a truth as an answer.
pub fn told<T: Display + Drop>(alloc: Global, value: T) -> Result<String> {
    Ok(format!(in alloc; "{value}")?)
}

/// The answer of a call that has none.
pub fn silent(alloc: Global) -> Result<String> {
    Ok(String::new(alloc))
}
