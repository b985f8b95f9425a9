//! How many rows are open, by cause, and what each cause means.
ghost use Rattle.std.specs.Prelude.{◌≡◌};
ghost use Rattle.run_notes.specs.Causes.{is_of, is_open_by, open_by};

use delos_types::cause::Cause;
use row_text::row::{Outcome, Row};
use std::fmt;

/// What keeps a row from its answer, whichever loglet it names.
#[derive(Clone, Copy, PartialEq, Eq, Debug)]
pub enum OpenBy {
    NoQuorum,
    Full,
    Meta,
    Store,
}

impl OpenBy {
    /// All sorts, in the order in which they are told.
    pub const ALL: [OpenBy; 4] = [OpenBy::NoQuorum, OpenBy::Full, OpenBy::Meta, OpenBy::Store];

    /// The word that a row prints.
    pub fn word(self) -> &'static str {
        match self {
            OpenBy::NoQuorum => "no-quorum",
            OpenBy::Full => "full",
            OpenBy::Meta => "meta",
            OpenBy::Store => "store",
        }
    }

    /// What it means, and what can be done.
    pub fn meaning(self) -> &'static str {
        match self {
            OpenBy::NoQuorum => {
                "servers of a loglet, too many for a majority, didn't answer: mend them, or extend the chain to the next loglet"
            }
            OpenBy::Full => {
                "a loglet takes no more entries: extend the chain to the next one before it is full"
            }
            OpenBy::Meta =>
                "the register of the chain failed or is down, so no loglet can be reached by it",
            OpenBy::Store => "the disk of the row's node failed, and so did the recovery after it",
        }
    }
}

/// Whether the cause is of this sort.
fn is_of(sort: OpenBy, cause: Cause) -> bool
    ensures { result ≡ is_of sort cause }
{
    match (sort, cause) {
        (OpenBy::NoQuorum, Cause::NoQuorum { .. }) => true,
        (OpenBy::Full, Cause::Full { .. }) => true,
        (OpenBy::Meta, Cause::Meta) => true,
        (OpenBy::Store, Cause::Store) => true,
        _ => false,
    }
}

/// Whether the row is open for a cause of this sort.
fn is_open_by(sort: OpenBy, outcome: &Outcome) -> bool
    ensures { result ≡ is_open_by sort outcome.now }
{
    match outcome {
        Outcome::Open { cause } => is_of(sort, *cause),
        _ => false,
    }
}

/// How many of the rows are open for a cause of this sort. Goes through all rows.
pub fn open_by(sort: OpenBy, rows: &[Row]) -> usize
    ensures { result ≡ open_by sort rows.now }
{
    rows.iter()
        .filter(|row| is_open_by(sort, &row.outcome))
        .count()
}

/// The open rows of a run. Prints a line for each cause that some row has, with how many have it and what it means, and nothing
/// where no row is open.
#[derive(Clone, Copy)]
pub struct OpenRows<'a> {
    pub rows: &'a [Row],
}

impl fmt::Display for OpenRows<'_> {
    fn fmt<W: fmt::Write>(&self, f: &mut fmt::Formatter<W>) -> fmt::Result {
        for sort in OpenBy::ALL {
            let count = open_by(sort, self.rows);
            if count > 0 {
                let (word, meaning) = (sort.word(), sort.meaning());
                writeln!(f, "open {word}: {count} of the rows; {meaning}")?;
            }
        }
        Ok(())
    }
}
