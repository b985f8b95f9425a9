//! What a run works on.
use disk_model::Disk;
use fate_words::chooser::Chooser;
use local_replica::layers::Layers;
use loglet_api::loglet::Loglet;
use node_opening::parts::NodeParts;
use register_api::Register;

/// What a run works on, and gives back: a shelf of 1 to 64 loglets, the first of which is the chain's open segment; the register of
/// the chain; and what its nodes are made of, 1 to 8, which are numbered from 1 in their order.
///
/// Loglets of several kinds stand on a shelf as `Box<dyn Loglet + Send>`, and engines in a `Vec<Box<dyn Engine + Send>>`.
#[derive(Drop)]
pub struct Yard<L: Loglet, R: Register, E: Layers, D: Disk, C: Chooser> {
    pub shelf: Vec<L>,
    pub register: R,
    pub nodes: Vec<NodeParts<E, D, C>>,
}
