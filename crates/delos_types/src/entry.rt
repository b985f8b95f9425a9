//! What stands at one position of a log.
ghost use Rattle.std.specs.Prelude.{◌≡◌};

use crate::bytes::Bytes;
use crate::item::Headers;
use crate::numbers::NodeId;
use std::alloc::AllocError;

/// What stands at one position of a log: the items that a node sent together, under the batch
/// engine's header.
#[derive(Drop)]
pub struct Entry {
    /// The node that proposed it.
    pub origin: NodeId,
    pub headers: Headers,
    pub payload: Bytes,
}

impl Clone for Entry {
    ghost is_clone = { λ x y. y ≡ x };

    fn clone(&self) -> Result<Entry, AllocError> {
        let headers = self.headers.clone()?;
        let payload = self.payload.clone()?;
        Ok(Entry {
            origin: self.origin,
            headers,
            payload,
        })
    }
}
