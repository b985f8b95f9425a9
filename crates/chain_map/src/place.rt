//! Where a position of the log lies.
ghost use Rattle.std.specs.Prelude.{◌≡◌, ◌<◌, ◌↔◌, IsTrue, IfSome};
ghost use Rattle.chain_map.specs.Chain.{IsChain};

use delos_types::chain::{Chain, Segment};

/// Where a position lies in the loglets of a chain.
#[derive(Clone, Copy, PartialEq, Eq, Debug)]
pub enum Located {
    /// At place `index` of the loglet `id`.
    Inside { id: u32, index: u64 },
    /// Below this trim, so it is gone.
    Below(u64),
}

ghost use Rattle.chain_map.specs.Place.{Locates};

/// Where a position lies. The cost is linear in the segments, of which there are 64 at most.
pub fn locate(chain: &Chain, pos: u64) -> Located
    requires { IsChain chain.now }
    ensures { Locates chain.now pos result }
{
    if pos < chain.trim {
        return Located::Below(chain.trim);
    }
    for segment in chain.segments.as_slice() {
        if ends_above(segment, pos) {
            return Located::Inside {
                id: segment.id,
                index: pos - segment.start,
            };
        }
    }
    unreachable!()
}

// The segment is open, or ends above the position.
fn ends_above(segment: &Segment, pos: u64) -> bool
    ensures { IsTrue result ↔ IfSome segment.now.end (λ end. pos < end) }
{
    match segment.end {
        None => true,
        Some(end) => pos < end,
    }
}
