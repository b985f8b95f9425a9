//! A node with its sessions.
use fate_words::chooser::Chooser;
use node_lines::desk::Desk;
use replica_api::replica::Replica;
use turn_scopes::seat::Seat;

/// A node that waits for the fabric, and the desks of the sessions, by their numbers. A session whose lines are at another
/// node has asked nothing here.
pub struct Worker<S: Replica, C: Chooser> {
    pub seat: Seat<S, C>,
    pub desks: Vec<Desk>,
}
