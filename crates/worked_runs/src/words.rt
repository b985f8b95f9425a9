//! The words of a line, and numbers in words.
use anyhow::Context;
use std::alloc::{AllocError, Global};

/// The words of a line, with one space between.
pub(crate) fn words_of(alloc: Global, line: &str) -> Result<Vec<&str>, AllocError> {
    line.split(' ').collect(alloc)
}

pub(crate) fn number_in(word: &str) -> anyhow::Result<u64> {
    word.parse::<u64>()
        .context(format_args!("`{word}` is no number"))
}

/// The number behind a mark, as in `v=2`.
pub(crate) fn number_behind(mark: &str, word: &str) -> anyhow::Result<u64> {
    let number = word
        .strip_prefix(mark)
        .context(format_args!("`{word}` has no `{mark}`"))?;
    number_in(number)
}
