//! What becomes of messages.

/// What becomes of a message.
#[derive(Clone, Copy, PartialEq, Eq, Debug)]
pub enum Fate {
    /// It comes.
    Deliver,
    /// It comes, and a copy stays behind that may come again later.
    DeliverAndKeep,
    /// It doesn't come.
    Lose,
}
