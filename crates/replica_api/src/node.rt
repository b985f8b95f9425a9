//! A node's state machine, before the node has a log.
use crate::replica::Replica;
use fate_words::chooser::Chooser;

/// A node's state machine over its store, and what chooses for it. A node is made of it where it is given a log.
pub struct OpenNode<S: Replica, C: Chooser> {
    pub replica: S,
    pub chooser: C,
}
