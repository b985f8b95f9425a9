//! The kinds of loglet that a shelf may have, and the text that names them.
ghost use Rattle.std.specs.Prelude.{◌≡◌, ◌==◌, IfOk, map};
ghost use Rattle.std.specs.List.{slice_split};
ghost use Rattle.script_words.specs.Shelf.{kind_name, kind_of, all_kinds, kinds_of};

use std::alloc::{AllocError, Global};
use std::marker::Model;

/// The kinds of loglet that a shelf may have.
#[derive(Clone, Copy, Debug, PartialEq, Eq)]
pub enum Kind {
    /// One server, whose log is one file.
    File,
    /// A sequencer over one log server.
    Native1,
    /// A sequencer over three log servers, of which two decide.
    Native3,
    /// A sequencer over five log servers, of which three decide.
    Native5,
    /// A sequencer over seven log servers, of which four decide.
    Native7,
    /// Two loglets of the kind `Native3`, which hold the positions in turn.
    Striped2,
    /// Three loglets of the kind `Native3`, which hold the positions in turn.
    Striped3,
    /// Four loglets of the kind `Native3`, which hold the positions in turn.
    Striped4,
    /// Five loglets of the kind `Native3`, which hold the positions in turn.
    Striped5,
    /// Six loglets of the kind `Native3`, which hold the positions in turn.
    Striped6,
    /// Seven loglets of the kind `Native3`, which hold the positions in turn.
    Striped7,
    /// Eight loglets of the kind `Native3`, which hold the positions in turn.
    Striped8,
    /// Two loglets of the kind `Striped2`, which hold the positions in turn.
    Nested,
}

impl Kind {
    /// The word for the kind.
    pub fn name(self) -> &'static str
        ensures { result.now ≡ kind_name self }
    {
        match self {
            Kind::File => "file",
            Kind::Native1 => "native1",
            Kind::Native3 => "native3",
            Kind::Native5 => "native5",
            Kind::Native7 => "native7",
            Kind::Striped2 => "striped2",
            Kind::Striped3 => "striped3",
            Kind::Striped4 => "striped4",
            Kind::Striped5 => "striped5",
            Kind::Striped6 => "striped6",
            Kind::Striped7 => "striped7",
            Kind::Striped8 => "striped8",
            Kind::Nested => "nested",
        }
    }
}

/// The loglets that a chain may be made of, by their kinds, in order.
#[derive(Drop, Debug)]
pub struct Shelf {
    kinds: Vec<Kind>,
}

impl Model for Shelf {
    ghost use Rattle.std.specs.Prelude.{List};
    ghost use Rattle.script_words.specs.declared.shelf.Kind.{Kind};

    ghost Value = { List Kind };

    ghost view = { λ s. s.kinds.items };
}

impl Shelf {
    ghost use Rattle.std.specs.Prelude.{◌≡◌};

    pub fn as_slice(&self) -> &[Kind]
        ensures { result.now ≡ self.now }
    {
        self.kinds.as_slice()
    }

    /// The words for the kinds, in order.
    pub fn names(&self, alloc: Global) -> Result<Vec<&'static str>, AllocError>
        ensures { IfOk result (λ names. map (λ s. s.now) names.items ≡ map kind_name self.now) }
    {
        names_of(alloc, self.kinds.as_slice())
    }
}

fn names_of(alloc: Global, kinds: &[Kind]) -> Result<Vec<&'static str>, AllocError>
    ensures { IfOk result (λ names. map (λ s. s.now) names.items ≡ map kind_name kinds.now) }
{
    let mut names = Vec::with_capacity(alloc, kinds.len())?;
    for kind in kinds {
        names.push(kind.name())?;
    }
    Ok(names)
}

// The kind that a word names.
fn kind_of(word: &str) -> Option<Kind>
    ensures { result ≡ kind_of word.now }
{
    match word {
        "file" => Some(Kind::File),
        "native1" => Some(Kind::Native1),
        "native3" => Some(Kind::Native3),
        "native5" => Some(Kind::Native5),
        "native7" => Some(Kind::Native7),
        "striped2" => Some(Kind::Striped2),
        "striped3" => Some(Kind::Striped3),
        "striped4" => Some(Kind::Striped4),
        "striped5" => Some(Kind::Striped5),
        "striped6" => Some(Kind::Striped6),
        "striped7" => Some(Kind::Striped7),
        "striped8" => Some(Kind::Striped8),
        "nested" => Some(Kind::Nested),
        _ => None,
    }
}

// The words between the commas of a text.
fn words_of(alloc: Global, text: &str) -> Result<Vec<&str>, AllocError>
    ensures { IfOk result (λ v. map (λ s. s.now) v.items ≡ slice_split (λ b. b == 44) text.now) }
{
    text.split(',').collect(alloc)
}

fn all_kinds(alloc: Global, words: &[&str]) -> Result<Option<Shelf>, AllocError>
    ensures { IfOk result (λ found. found ≡ all_kinds (map (λ s. s.now) words.now)) }
{
    let mut kinds = Vec::new(alloc);
    for word in words {
        match kind_of(word) {
            Some(kind) => kinds.push(kind)?,
            None => return Ok(None),
        }
    }
    Ok(Some(Shelf { kinds }))
}

/// The shelf that a text names: 1 to 64 known kinds with one comma between; None for every other
/// text.
pub fn kinds_of(alloc: Global, text: &str) -> Result<Option<Shelf>, AllocError>
    ensures { IfOk result (λ found. found ≡ kinds_of text.now) }
{
    let words = words_of(alloc, text)?;
    if words.len() > 64 {
        return Ok(None);
    }
    all_kinds(alloc, words.as_slice())
}
