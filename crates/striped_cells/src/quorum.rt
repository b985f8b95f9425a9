//! Quorum cells, as a kind of cells.
ghost use Rattle.std.specs.Prelude.{◌≡◌, IfOk};
ghost use Rattle.cell_views.specs.Views.{left_of as left_by};
ghost use Rattle.striped_cells.specs.Motions.{is_inner as is_inner_by, aim_of as aim_by};
ghost use Rattle.striped_cells.specs.Quorums.{quorum_ways};

use crate::cell::{AnyCell, Numbers};
use crate::motion::Motion;
use cell_steps::answer::taken;
use cell_steps::cell::CellState;
use cell_steps::tally::OperationState;
use delos_types::entry::Entry;
use delos_types::numbers::Ticket;
use loglet_api::call::{Answer, Kind, Op};
use quorum_cell::operation::{Aim, CellStep};
use std::alloc::{AllocError, Global};

impl AnyCell for CellState {
    ghost ways = { quorum_ways };

    fn copied(&self, alloc: Global) -> Result<CellState, AllocError> {
        let _ = alloc;
        self.clone()
    }

    fn numbers(&self) -> Numbers {
        Numbers {
            kind: Kind::File,
            servers: self.servers(),
            room: self.room(),
            rounds: 0,
            limit: self.limit(),
            shut: self.is_shut(),
            faults: self.faults(),
            down: self.down(),
        }
    }

    fn begun(&self) -> u64 {
        CellState::begun(self)
    }

    fn reach(&self) -> u64 {
        CellState::reach(self)
    }

    fn entry(&self, place: u64) -> Option<&Entry> {
        CellState::entry(self, place)
    }

    fn is_full(&self, op: &Op) -> bool {
        let no_room = self.size() == self.room();
        op.is_append() && no_room || CellState::begun(self) == self.limit()
    }

    fn begin(&mut self, alloc: Global, op: &Op) -> Result<(), AllocError> {
        let aim = aim_of(op)?;
        self.take_step(alloc, &CellStep::Begin(aim))
    }

    fn left(&self, ticket: Ticket) -> (u32, u64) {
        match self.operation(ticket) {
            Some(operation) => left_of(operation),
            None => (0, 1),
        }
    }

    fn answer(&self, ticket: Ticket) -> Result<Option<Answer>, AllocError> {
        let Some(operation) = self.operation(ticket) else {
            return Ok(None);
        };
        if operation.closed {
            return Ok(None);
        }
        taken(operation, self.cut())
    }

    fn take(&mut self, alloc: Global, ticket: Ticket) -> Result<(), AllocError> {
        self.take_step(alloc, &CellStep::Take(ticket))
    }

    fn is_open(&self, ticket: Ticket) -> bool {
        match self.operation(ticket) {
            Some(operation) => !operation.closed,
            None => false,
        }
    }

    fn forget(&mut self, alloc: Global, ticket: Ticket) -> Result<(), AllocError> {
        self.take_step(alloc, &CellStep::Forget(ticket))
    }

    fn stir(&mut self, alloc: Global, path: &[u32], motion: &Motion) -> Result<(), AllocError> {
        let Motion::Servers(step) = motion else {
            return Ok(());
        };
        if !path.is_empty() || !is_inner(step) {
            return Ok(());
        }
        self.take_step(alloc, step)
    }

    fn quorum_at(&self, path: &[u32]) -> Option<&CellState> {
        if path.is_empty() { Some(self) } else { None }
    }
}

/// Something is left to do until it is decided.
fn left_of(operation: &OperationState) -> (u32, u64)
    ensures { (result.0, result.1) ≡ left_by operation.now.decided (0, 1) }
{
    match operation.decided() {
        Some(_) => (0, 0),
        None => (0, 1),
    }
}

/// A step that is nobody's call.
fn is_inner(step: &CellStep) -> bool
    ensures { result ≡ is_inner_by step.now }
{
    !matches!(
        step,
        CellStep::Begin(_) | CellStep::Take(_) | CellStep::Forget(_)
    )
}

fn aim_of(op: &Op) -> Result<Aim, AllocError>
    ensures { IfOk result (λ aim. aim ≡ aim_by op.now) }
{
    match op {
        Op::Append(entry) => Ok(Aim::Append(entry.clone()?)),
        Op::Settle(n) => Ok(Aim::Settle(*n)),
        Op::Tail => Ok(Aim::Tail),
        Op::Seal => Ok(Aim::Seal),
        Op::Read(place) => Ok(Aim::Read(*place)),
        Op::Trim(n) => Ok(Aim::Trim(*n)),
    }
}
