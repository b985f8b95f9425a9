//! What can happen next in a world.
ghost use Rattle.std.specs.Prelude.{◌≡◌, [], ◌∷◌, ◌++◌, OnOk, OnErr};

use delos_types::numbers::Ticket;
use loglet_api::call::Op;
use std::alloc::{AllocError, Global};
use std::marker::Model;
use striped_cells::motion::Motion;

/// How a writer changes the chain.
#[derive(Clone, Copy, PartialEq, Eq, Debug)]
pub enum ChainChange {
    /// The last segment is closed so many positions above its start, and the next cell goes on.
    Extend(u64),
    /// The trim is raised to this position, and the segments that end at or below it are dropped.
    Raise(u64),
}

/// A path of stripes, from a cell down.
#[derive(Drop)]
pub struct Path {
    stripes: Vec<u32>,
}

impl Model for Path {
    ghost use Rattle.std.specs.Prelude.{ℕ, List};

    ghost Value = { List ℕ };

    ghost view = { λ p. p.stripes.items };
}

impl Path {
    /// To the cell itself.
    pub fn new(alloc: Global) -> Path
        ensures { result ≡ [] }
    {
        Path {
            stripes: Vec::new(alloc),
        }
    }

    /// One stripe further down.
    pub fn push(&mut self, stripe: u32) -> Result<(), AllocError>
        ensures ok { OnOk result (self.new ≡ self.old ++ stripe ∷ []) }
        ensures err { OnErr result (self.new ≡ self.old) }
    {
        self.stripes.push(stripe)?;
        Ok(())
    }

    pub fn as_slice(&self) -> &[u32]
        ensures { result.now ≡ self.now }
    {
        self.stripes.as_slice()
    }
}

/// What can happen next. A step touches one part of the world: a cell, the register or a node. One
/// that isn't possible changes nothing. Cells and nodes are named by their numbers, clients by any
/// numbers.
#[derive(Drop)]
pub enum WorldStep {
    /// Something moves in a cell, at the end of a path of stripes, that is nobody's call: a message
    /// is sent, comes or is lost, a server stops inside a write or restarts, an operation comes to
    /// its end, or goes round its stripes.
    Inside {
        cell: u32,
        path: Path,
        motion: Motion,
    },
    /// A client begins an operation on a cell.
    Begin {
        who: u32,
        cell: u32,
        op: Op,
    },
    /// The client that began an operation is told what it came to, and the operation is closed.
    Take {
        who: u32,
        cell: u32,
        ticket: Ticket,
    },
    /// The client that began an operation closes it without that.
    Forget {
        who: u32,
        cell: u32,
        ticket: Ticket,
    },
    /// A client asks the register for its version and chain.
    ReadChain(u32),
    /// A client asks the register for a change of the chain that was given under the version that
    /// it expects.
    WriteChain {
        who: u32,
        expected: u64,
        change: ChainChange,
    },
    /// The same, and the register stops inside the write.
    WriteStops {
        who: u32,
        expected: u64,
        change: ChainChange,
    },
    /// The register comes up again, and finds the write inside which it stopped done or not.
    MendRegister {
        who: u32,
        kept: bool,
    },
    /// The register doesn't come up.
    MendFails(u32),
    /// A node applies the next entry of the log.
    Apply(u32),
    /// A node stops, maybe inside the application of the next entry.
    StopNode(u32),
    /// A node comes up again, and finds that entry applied or not.
    RestartNode {
        node: u32,
        kept: bool,
    },
}
