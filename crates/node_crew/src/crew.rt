//! All nodes of a run.
use fabric_core::fabric::Fabric;
use fate_words::chooser::Chooser;
use loglet_api::loglet::Loglet;
use node_lines::lines::Looked;
use node_workers::worker::Worker;
use register_api::Register;
use replica_api::replica::Replica;
use std::alloc::AllocError;
use turn_scopes::terms::{By, Terms};

/// The nodes of a run, numbered from 1 in their order, and the fabric that they share; and what each line's own look came to, if it
/// was played.
pub struct Crew<L: Loglet, R: Register, K: Terms, S: Replica, C: Chooser> {
    pub fabric: Fabric<L, R, By<K>>,
    pub workers: Vec<Worker<S, C>>,
    pub looks: Vec<Option<Looked>>,
}

/// The nodes, whatever came of it, and what was answered, if memory sufficed.
pub struct CrewBack<L: Loglet, R: Register, K: Terms, S: Replica, C: Chooser, A> {
    pub crew: Crew<L, R, K, S, C>,
    pub answer: Result<A, AllocError>,
}
