//! The chain of loglets that a virtual log joins (OSDI 2020).
ghost use Rattle.std.specs.Prelude.{◌≡◌};

use std::alloc::AllocError;
use std::marker::Model;

/// The positions that one loglet holds: from `start`, below `end`, or without end while it is open.
#[derive(Clone, Copy, PartialEq, Eq, Debug)]
pub struct Segment {
    /// The loglet's place in the shelf, below 64.
    pub id: u32,
    pub start: u64,
    pub end: Option<u64>,
}

/// A list of segments that owns them.
#[derive(Drop)]
pub struct Segments {
    items: Vec<Segment>,
}

impl Model for Segments {
    ghost use Rattle.std.specs.Prelude.{List};
    ghost use Rattle.delos_types.specs.declared.chain.Segment.{Segment};

    ghost Value = { List Segment };

    ghost view = { λ s. s.items.items };
}

impl Segments {
    /// The list of these segments, which are not copied.
    pub fn from_vec(items: Vec<Segment>) -> Segments
        ensures { result ≡ items.items }
    {
        Segments { items }
    }

    /// The segments, which are not copied.
    pub fn into_vec(self) -> Vec<Segment>
        ensures { result.items ≡ self }
    {
        let Segments { items } = self;
        items
    }

    pub fn as_slice(&self) -> &[Segment]
        ensures { result.now ≡ self.now }
    {
        self.items.as_slice()
    }
}

impl Clone for Segments {
    ghost is_clone = { λ x y. y ≡ x };

    fn clone(&self) -> Result<Segments, AllocError> {
        let items = self.items.clone()?;
        Ok(Segments { items })
    }
}

/// The loglets that hold the log, in order, and the position below which nothing is kept.
#[derive(Drop)]
pub struct Chain {
    pub trim: u64,
    pub segments: Segments,
}

impl Clone for Chain {
    ghost is_clone = { λ x y. y ≡ x };

    fn clone(&self) -> Result<Chain, AllocError> {
        let segments = self.segments.clone()?;
        Ok(Chain {
            trim: self.trim,
            segments,
        })
    }
}
