//! The cells of a world.
ghost use Rattle.std.specs.Prelude.{◌≡◌, IfOk};
ghost use Rattle.world_steps.specs.Cells.{cell_ways, start_of, start_quorum};
ghost use Rattle.world_steps.specs.Laws.{IsShaped, IsQuorumShaped};

use crate::shape::{QuorumShape, Shape};
use cell_steps::cell::CellState;
use delos_types::entry::Entry;
use delos_types::numbers::Ticket;
use loglet_api::call::{Answer, Op};
use std::alloc::{AllocError, Global};
use striped_cells::cell::{AnyCell, Numbers};
use striped_cells::motion::Motion;
use striped_cells::striped::StripedState;

/// A cell: a quorum cell, stripes over quorum cells, or stripes over such stripes.
#[derive(Drop)]
pub enum WorldCell {
    Quorum(CellState),
    Striped(StripedState<CellState>),
    Nested(StripedState<StripedState<CellState>>),
}

impl WorldCell {
    /// A new cell.
    pub fn new(alloc: Global, shape: Shape) -> Result<WorldCell, AllocError>
        requires { IsShaped shape }
        ensures { IfOk result (λ made. made ≡ start_of shape) }
    {
        match shape {
            Shape::Quorum(each) => Ok(WorldCell::Quorum(quorum_of(alloc, each)?)),
            Shape::Striped(stripes, each) => {
                let one = quorum_of(alloc, each)?;
                Ok(WorldCell::Striped(StripedState::new(alloc, stripes, &one)?))
            }
            Shape::Nested(stripes, inner, each) => {
                let one = quorum_of(alloc, each)?;
                let striped = StripedState::new(alloc, inner, &one)?;
                Ok(WorldCell::Nested(StripedState::new(alloc, stripes, &striped)?))
            }
        }
    }
}

fn quorum_of(alloc: Global, shape: QuorumShape) -> Result<CellState, AllocError>
    ensures { IfOk result (λ made. made ≡ start_quorum shape) }
{
    CellState::new(alloc, shape.servers, shape.room, shape.limit)
}

impl AnyCell for WorldCell {
    ghost ways = { cell_ways };

    fn copied(&self, alloc: Global) -> Result<WorldCell, AllocError> {
        match self {
            WorldCell::Quorum(cell) => Ok(WorldCell::Quorum(cell.copied(alloc)?)),
            WorldCell::Striped(cell) => Ok(WorldCell::Striped(cell.copied(alloc)?)),
            WorldCell::Nested(cell) => Ok(WorldCell::Nested(cell.copied(alloc)?)),
        }
    }

    fn numbers(&self) -> Numbers {
        match self {
            WorldCell::Quorum(cell) => AnyCell::numbers(cell),
            WorldCell::Striped(cell) => cell.numbers(),
            WorldCell::Nested(cell) => cell.numbers(),
        }
    }

    fn begun(&self) -> u64 {
        match self {
            WorldCell::Quorum(cell) => AnyCell::begun(cell),
            WorldCell::Striped(cell) => cell.begun(),
            WorldCell::Nested(cell) => cell.begun(),
        }
    }

    fn reach(&self) -> u64 {
        match self {
            WorldCell::Quorum(cell) => AnyCell::reach(cell),
            WorldCell::Striped(cell) => cell.reach(),
            WorldCell::Nested(cell) => cell.reach(),
        }
    }

    fn entry(&self, place: u64) -> Option<&Entry> {
        match self {
            WorldCell::Quorum(cell) => AnyCell::entry(cell, place),
            WorldCell::Striped(cell) => cell.entry(place),
            WorldCell::Nested(cell) => cell.entry(place),
        }
    }

    fn is_full(&self, op: &Op) -> bool {
        match self {
            WorldCell::Quorum(cell) => AnyCell::is_full(cell, op),
            WorldCell::Striped(cell) => cell.is_full(op),
            WorldCell::Nested(cell) => cell.is_full(op),
        }
    }

    fn begin(&mut self, alloc: Global, op: &Op) -> Result<(), AllocError> {
        match self {
            WorldCell::Quorum(cell) => AnyCell::begin(cell, alloc, op),
            WorldCell::Striped(cell) => cell.begin(alloc, op),
            WorldCell::Nested(cell) => cell.begin(alloc, op),
        }
    }

    fn left(&self, ticket: Ticket) -> (u32, u64) {
        match self {
            WorldCell::Quorum(cell) => AnyCell::left(cell, ticket),
            WorldCell::Striped(cell) => cell.left(ticket),
            WorldCell::Nested(cell) => cell.left(ticket),
        }
    }

    fn answer(&self, ticket: Ticket) -> Result<Option<Answer>, AllocError> {
        match self {
            WorldCell::Quorum(cell) => AnyCell::answer(cell, ticket),
            WorldCell::Striped(cell) => cell.answer(ticket),
            WorldCell::Nested(cell) => cell.answer(ticket),
        }
    }

    fn take(&mut self, alloc: Global, ticket: Ticket) -> Result<(), AllocError> {
        match self {
            WorldCell::Quorum(cell) => AnyCell::take(cell, alloc, ticket),
            WorldCell::Striped(cell) => cell.take(alloc, ticket),
            WorldCell::Nested(cell) => cell.take(alloc, ticket),
        }
    }

    fn is_open(&self, ticket: Ticket) -> bool {
        match self {
            WorldCell::Quorum(cell) => AnyCell::is_open(cell, ticket),
            WorldCell::Striped(cell) => cell.is_open(ticket),
            WorldCell::Nested(cell) => cell.is_open(ticket),
        }
    }

    fn forget(&mut self, alloc: Global, ticket: Ticket) -> Result<(), AllocError> {
        match self {
            WorldCell::Quorum(cell) => AnyCell::forget(cell, alloc, ticket),
            WorldCell::Striped(cell) => cell.forget(alloc, ticket),
            WorldCell::Nested(cell) => cell.forget(alloc, ticket),
        }
    }

    fn stir(&mut self, alloc: Global, path: &[u32], motion: &Motion) -> Result<(), AllocError> {
        match self {
            WorldCell::Quorum(cell) => AnyCell::stir(cell, alloc, path, motion),
            WorldCell::Striped(cell) => cell.stir(alloc, path, motion),
            WorldCell::Nested(cell) => cell.stir(alloc, path, motion),
        }
    }

    fn quorum_at(&self, path: &[u32]) -> Option<&CellState> {
        match self {
            WorldCell::Quorum(cell) => AnyCell::quorum_at(cell, path),
            WorldCell::Striped(cell) => cell.quorum_at(path),
            WorldCell::Nested(cell) => cell.quorum_at(path),
        }
    }
}
