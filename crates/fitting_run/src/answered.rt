//! The lines of a script with their rows.
use row_text::row::Row;
use script_text::asks::NamedLine;

/// A line that names a node, and the row that answers it.
#[derive(Drop)]
pub struct Answered {
    pub line: NamedLine,
    pub row: Row,
}
