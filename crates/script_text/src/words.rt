//! A line cut into its words.
ghost use Rattle.std.specs.Prelude.{◌≡◌, ◌==◌, ◌<◌, List, ℕ, [], IfOk, length, map, slice_index_or};
ghost use Rattle.std.specs.List.{slice_split, list_any};
ghost use Rattle.script_text.specs.Gives.{Gives};
ghost use Rattle.script_text.specs.Words.{words_of, is_empty};

use crate::line::{Fault, Rule};
use std::alloc::{AllocError, Global};
use std::marker::Model;

#[derive(Drop)]
pub struct Words<'a> {
    items: Vec<&'a [u8]>,
}

impl<'a> Model for Words<'a> {
    ghost Value = { List (List ℕ) };

    ghost view = { λ w. map (λ s. s.now) w.items.items };
}

impl<'a> Words<'a> {
    fn none(alloc: Global) -> Words<'a>
        ensures { result ≡ [] }
    {
        Words {
            items: Vec::new(alloc),
        }
    }

    fn split(alloc: Global, text: &'a [u8]) -> Result<Words<'a>, AllocError>
        ensures { IfOk result (λ w. w ≡ slice_split (λ b. b == 32) text.entry.now) }
    {
        Ok(Words {
            items: split_at_spaces(alloc, text)?,
        })
    }

    fn has_empty(&self) -> bool
        ensures { result ≡ list_any is_empty self.now }
    {
        any_empty(self.items.as_slice())
    }

    pub fn len(&self) -> usize
        ensures { result ≡ length self.now }
    {
        self.items.len()
    }

    pub fn get(&self, i: usize) -> &'a [u8]
        requires { i < length self.now }
        ensures { result.now ≡ slice_index_or self.now i [] }
    {
        self.items[i]
    }
}

fn split_at_spaces(alloc: Global, text: &[u8]) -> Result<Vec<&[u8]>, AllocError>
    ensures { IfOk result (λ v. map (λ s. s.now) v.items ≡ slice_split (λ b. b == 32) text.now) }
{
    text.split(|b| *b == b' ').collect(alloc)
}

fn any_empty(words: &[&[u8]]) -> bool
    ensures { result ≡ list_any (λ w. is_empty w.now) words.now }
{
    words.iter().any(|w| w.is_empty())
}

fn is_plain(text: &[u8]) -> bool
    ensures { result ≡ list_all is_text_byte text.now }
{
    text.iter().all(|b| *b >= 32 && *b <= 126)
}

ghost use Rattle.std.specs.List.{list_all};
ghost use Rattle.script_text.specs.Words.{is_text_byte};

/// The words of a line, or the first of the rules on its bytes that it breaks.
pub fn words_of(alloc: Global, text: &[u8]) -> Result<Words<'_>, Fault>
    ensures { Gives result (words_of text.now) }
{
    if text.len() > 512 {
        return Err(Fault::Breaks(Rule::TooLong));
    }
    if !is_plain(text) {
        return Err(Fault::Breaks(Rule::Byte));
    }
    if text.is_empty() {
        return Ok(Words::none(alloc));
    }
    let words = Words::split(alloc, text)?;
    if words.has_empty() {
        return Err(Fault::Breaks(Rule::Spaces));
    }
    Ok(words)
}
