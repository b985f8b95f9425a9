//! What moves in a cell that is nobody's call.
use delos_types::numbers::Ticket;
use quorum_cell::operation::CellStep;

/// What moves at the end of a path of stripes. One that isn't possible there changes nothing.
#[derive(Drop)]
pub enum Motion {
    /// Something in a quorum cell: a message is sent, comes or is lost, a server stops inside a
    /// write or restarts, an operation comes to its end.
    Servers(CellStep),
    /// In a striped cell the operation of this ticket asks the next stripe.
    Ask(Ticket),
    /// The operation of this ticket hears what came of what it asked a stripe.
    Hear(Ticket),
}
