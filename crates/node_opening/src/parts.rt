//! What a node is made of.
use disk_model::Disk;
use fate_words::chooser::Chooser;
use local_replica::layers::Layers;

/// What a node is made of: its engines, from the lowest to the highest, a disk for its store, and what chooses for it.
#[derive(Drop)]
pub struct NodeParts<E: Layers, D: Disk, C: Chooser> {
    pub engines: E,
    pub disk: D,
    pub chooser: C,
}
