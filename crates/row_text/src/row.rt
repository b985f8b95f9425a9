//! What a run answers, row by row.
use delos_types::bytes::Bytes;
use delos_types::cause::Cause;
use delos_types::numbers::NodeId;
use delos_types::place::Place;
use std::marker::Model;
use table_core::command::{Found, Reply};

/// Who asked: the session of the line, by its name, or the node of an admin line.
#[derive(Drop, Debug)]
pub enum Who {
    Session(Bytes),
    Node(NodeId),
}

/// What one line was answered.
#[derive(Drop)]
pub enum Outcome {
    /// A logged command has its place. Its reply is None where its bytes spelled no command; `late`
    /// says that it was placed after its phase.
    Placed {
        place: Place,
        reply: Option<Reply>,
        late: bool,
    },
    /// A read looked at the table after position `after` of the log.
    Read {
        after: u64,
        found: Found,
    },
    /// The loglet was replaced: the chain has this version, and its new segment this start.
    Extended {
        version: u64,
        start: u64,
    },
    /// Another node replaced the loglet.
    Moved {
        version: u64,
    },
    /// The shelf has no loglet left.
    NoSpare,
    /// The node's clean position was told.
    Alive {
        clean: u64,
    },
    /// The log keeps nothing below this position.
    Trimmed {
        trim: u64,
    },
    /// The node left.
    Retired,
    /// There is no answer, for this cause.
    Open {
        cause: Cause,
    },
}

/// The answer to one line of the script.
#[derive(Drop)]
pub struct Row {
    /// The number of the line, from 1.
    pub number: u64,
    pub who: Who,
    pub outcome: Outcome,
}

/// A list of rows that owns them.
#[derive(Drop)]
pub struct Rows {
    items: Vec<Row>,
}

impl Model for Rows {
    ghost use Rattle.std.specs.Prelude.{List};
    ghost use Rattle.row_text.specs.declared.row.Row.{Row};

    ghost Value = { List Row };

    ghost view = { λ r. r.items.items };
}

impl Rows {
    ghost use Rattle.std.specs.Prelude.{◌≡◌};

    /// The list of these rows, which are not copied.
    pub fn from_vec(items: Vec<Row>) -> Rows
        ensures { result ≡ items.items }
    {
        Rows { items }
    }

    /// The rows, which are not copied.
    pub fn into_vec(self) -> Vec<Row>
        ensures { result.items ≡ self }
    {
        let Rows { items } = self;
        items
    }

    pub fn as_slice(&self) -> &[Row]
        ensures { result.now ≡ self.now }
    {
        self.items.as_slice()
    }
}
