//! What the calls of a register come to.

use delos_types::chain::Chain;

/// What a read comes to.
#[derive(Drop)]
pub enum ReadAnswer {
    /// The version and its chain.
    At(u64, Chain),
    /// The register is down.
    Down,
}

/// What a write comes to.
#[derive(Drop)]
pub enum WriteAnswer {
    /// The chain stands, under this version.
    Written(u64),
    /// Another version than the expected one stands: this, with its chain.
    Conflict(u64, Chain),
    /// The register failed in this write, which stands or doesn't, and is down.
    MetaFault,
    /// The register is down.
    Down,
}
