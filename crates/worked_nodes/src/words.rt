//! Lines of a data file, and their words, of which two have one space between.
use crate::stuck::Stuck;
use std::alloc::{AllocError, Global};

/// The words of a line that weren't read yet, and whether one that was read isn't what is wanted there. So a line is read
/// to its end first, and refused then.
#[derive(Clone, Copy)]
pub(crate) struct Words<'a> {
    rest: &'a str,
    is_wrong: bool,
}

impl<'a> Words<'a> {
    pub(crate) fn of(text: &'a str) -> Words<'a> {
        Words {
            rest: text,
            is_wrong: false,
        }
    }

    /// The next word. It is empty where there is none.
    pub(crate) fn word(&mut self) -> &'a str {
        let (word, rest) = self.rest.split_once(" ").unwrap_or((self.rest, ""));
        self.rest = rest;
        word
    }

    /// All that wasn't read.
    pub(crate) fn rest(&mut self) -> &'a str {
        let rest = self.rest;
        self.rest = "";
        rest
    }

    pub(crate) fn number(&mut self) -> u64 {
        let word = self.word();
        self.number_of(word)
    }

    /// `FIRST..LAST`, or one number that is both.
    pub(crate) fn range(&mut self) -> (u64, u64) {
        let word = self.word();
        let (first, last) = word.split_once("..").unwrap_or((word, word));
        (self.number_of(first), self.number_of(last))
    }

    /// A number below 256.
    pub(crate) fn small(&mut self) -> u8 {
        let number = self.number();
        if number < 256 {
            return number as u8;
        }
        self.is_wrong = true;
        0
    }

    /// A word of one byte.
    pub(crate) fn byte(&mut self) -> u8 {
        match self.word().as_bytes() {
            [byte] => *byte,
            _ => {
                self.is_wrong = true;
                0
            }
        }
    }

    /// Numbers, up to the end.
    pub(crate) fn numbers(&mut self, alloc: Global) -> Result<Vec<u64>, AllocError> {
        let mut numbers = Vec::new(alloc);
        for word in self.rest().split(" ") {
            let number = self.number_of(word);
            numbers.push(number)?;
        }
        Ok(numbers)
    }

    /// Bytes, up to the end: in hexadecimal digits, or as quoted text.
    pub(crate) fn bytes(&mut self, alloc: Global) -> Result<Vec<u8>, AllocError> {
        let mut bytes = Vec::new(alloc);
        for word in self.rest().split(" ") {
            self.push_bytes(&mut bytes, word)?;
        }
        Ok(bytes)
    }

    /// There are no more words, and those that were read are what was wanted.
    pub(crate) fn end(&self) -> Result<(), Stuck> {
        if self.is_wrong || !self.rest.is_empty() {
            return Err(Stuck::Line);
        }
        Ok(())
    }

    fn number_of(&mut self, word: &str) -> u64 {
        match word.parse::<u64>() {
            Ok(number) => number,
            Err(_) => {
                self.is_wrong = true;
                0
            }
        }
    }

    /// Adds a quoted text, or two hexadecimal digits for each of up to eight bytes.
    fn push_bytes(&mut self, bytes: &mut Vec<u8>, word: &str) -> Result<(), AllocError> {
        if let Some(text) = word.strip_prefix("\"") {
            return bytes.extend_from_slice(text.trim_end_matches("\"").as_bytes());
        }
        let Ok(number) = u64::from_str_radix(word, 16) else {
            self.is_wrong = true;
            return Ok(());
        };
        let first = 8usize.saturating_sub(word.len() / 2);
        bytes.extend_from_slice(&number.to_be_bytes()[first..])
    }
}

/// Adds bytes as hexadecimal digits, and the line's end.
pub(crate) fn push_hex(out: &mut String, bytes: &[u8]) -> Result<(), AllocError> {
    for byte in bytes {
        write!(out, "{byte:02x}")?;
    }
    out.push_str("\n")
}

/// Bytes as text.
pub(crate) fn text_of(bytes: &[u8]) -> Result<&str, Stuck> {
    match str::from_utf8(bytes) {
        Ok(text) => Ok(text),
        Err(_) => Err(Stuck::Line),
    }
}

/// The numbers of a first line `fail NUMBERS`, if there is one, and the lines behind it.
pub(crate) fn failing<'a, 'b>(
    alloc: Global,
    lines: &'b [&'a str],
) -> Result<(Vec<u64>, &'b [&'a str]), Stuck> {
    if let [first, rest @ ..] = lines {
        let mut words = Words::of(first);
        if words.word() == "fail" {
            let numbers = words.numbers(alloc)?;
            words.end()?;
            return Ok((numbers, rest));
        }
    }
    Ok((Vec::new(alloc), lines))
}
