//! What lines come to, noted as they are played.
use node_lines::lines::Looked;

/// What a line's own look came to. Nodes that play beside one another note it each for itself, so that none writes what another does.
#[derive(Drop)]
pub struct Note {
    pub line: usize,
    pub look: Looked,
}
