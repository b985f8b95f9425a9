//! The call in which the disk failed.

/// What a crash may leave beside the records of before.
#[derive(Drop)]
pub(crate) enum Torn {
    /// This one more, which was added.
    Added(Vec<u8>),
    /// These in their place, which a compaction was given. It couldn't read those of before, and wrote nothing.
    Unwritten(Vec<Vec<u8>>),
    /// These in their place, which a compaction was given. Those of before may be cut from the disk already.
    Given {
        before: Vec<Vec<u8>>,
        given: Vec<Vec<u8>>,
    },
}
