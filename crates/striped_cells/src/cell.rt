//! What every kind of cells does.
ghost use Rattle.std.specs.Prelude.{◌≡◌, ℕ, IfOk, OnOk, option_map, slice_get};
ghost use Rattle.loglet_api.specs.Step.{CanBegin};
ghost use Rattle.striped_cells.specs.Ways.{Ways, numbers_of};

use crate::motion::Motion;
use cell_steps::cell::CellState;
use delos_types::entry::Entry;
use delos_types::numbers::Ticket;
use loglet_api::call::{Answer, Kind, Op};
use std::alloc::{AllocError, Global};

/// What a cell shows of itself as numbers.
#[derive(Clone, Copy)]
pub struct Numbers {
    pub kind: Kind,
    /// How many servers it has.
    pub servers: u32,
    /// The greatest number of its entries.
    pub room: u64,
    /// The greatest first number of what is left of an operation as it begins.
    pub rounds: u32,
    /// The greatest number of its operations.
    pub limit: u64,
    pub shut: bool,
    pub faults: u64,
    /// How many servers are down.
    pub down: u32,
}

/// A cell: a quorum cell, or stripes over cells. Each step leaves exactly what the kind's ways say
/// it does. A step is refused only for want of memory; a part of it may have been done then.
pub trait AnyCell: Drop + Sized {
    /// What its cells show, and what becomes of them.
    ghost ways: { Ways Self };

    /// A copy of it.
    fn copied(&self, alloc: Global) -> Result<Self, AllocError>
        ensures { IfOk result (λ made. made ≡ self.now) };

    /// What it shows of itself as numbers. It looks at every server.
    fn numbers(&self) -> Numbers
        requires { ways.is_lawful self.now }
        ensures { result ≡ numbers_of (ways.view self.now) };

    /// How many operations were begun.
    fn begun(&self) -> u64
        ensures { result ≡ (ways.view self.now).begun };

    /// The greatest length that was answered as there for good.
    fn reach(&self) -> u64
        ensures { result ≡ (ways.view self.now).reach };

    /// The entry of the append that was begun at this place.
    fn entry(&self, place: u64) -> Option<&Entry>
        requires { ways.is_lawful self.now }
        ensures { option_map (λ entry. entry.now) result ≡ slice_get (ways.entries self.now) place };

    /// There is no room for the operation's entry, or no ticket left.
    fn is_full(&self, op: &Op) -> bool
        ensures { result ≡ ways.is_full self.now op.now };

    /// An operation begins, or is refused as full.
    fn begin(&mut self, alloc: Global, op: &Op) -> Result<(), AllocError>
        requires lawful { ways.is_lawful self.old }
        requires can { CanBegin op.now }
        ensures { OnOk result (self.new ≡ ways.begin self.old op.now) };

    /// How much is left to do of an operation, the first number counting first.
    fn left(&self, ticket: Ticket) -> (u32, u64)
        requires { ways.is_lawful self.now }
        ensures { (result.0, result.1) ≡ ways.left self.now ticket };

    /// What the client of an open operation that came to its end is told.
    fn answer(&self, ticket: Ticket) -> Result<Option<Answer>, AllocError>
        ensures { IfOk result (λ answer. answer ≡ ways.answer self.now ticket) };

    /// The client of an operation that came to its end is told, and the operation closed.
    fn take(&mut self, alloc: Global, ticket: Ticket) -> Result<(), AllocError>
        requires { ways.is_lawful self.old }
        ensures { OnOk result (self.new ≡ ways.take self.old ticket) };

    fn is_open(&self, ticket: Ticket) -> bool
        ensures { result ≡ ways.is_open self.now ticket };

    /// An open operation is closed without its answer.
    fn forget(&mut self, alloc: Global, ticket: Ticket) -> Result<(), AllocError>
        requires { ways.is_lawful self.old }
        ensures { OnOk result (self.new ≡ ways.forget self.old ticket) };

    /// Something moves at the end of a path of stripes.
    fn stir(&mut self, alloc: Global, path: &[u32], motion: &Motion) -> Result<(), AllocError>
        requires { ways.is_lawful self.old }
        ensures { OnOk result (self.new ≡ ways.stir self.old path.now motion.now) };

    /// The quorum cell at the end of a path of stripes.
    fn quorum_at(&self, path: &[u32]) -> Option<&CellState>
        ensures { option_map (λ cell. cell.now) result ≡ ways.quorum_at self.now path.now };
}
