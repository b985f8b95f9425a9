//! What a run tells.
use delos_types::chain::Chain;
use row_text::row::Rows;

/// What was run: the answer to each line, the end of the log as the run saw it, and the chain of
/// loglets as the register gave it last, with its version.
#[derive(Drop)]
pub struct Told {
    pub rows: Rows,
    pub end: u64,
    pub version: u64,
    pub chain: Chain,
    /// The register is down.
    pub down: bool,
}
