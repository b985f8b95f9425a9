//! Whether the causes of open rows stand in the yard, and came as often as the rows need, as plain and slow programs.
ghost use Rattle.std.specs.Prelude.{◌≡◌, ◌↔◌, ◌≤◌, ◌+◌, ◌-◌, ℕ, IsTrue, filter, map, nat_le, slice_get, sum_by};
ghost use Rattle.std.specs.List.{list_all};
ghost use Rattle.fitting_run.specs.Answered as answers_of;
ghost use Rattle.fitting_run.specs.Cells.{cell_of};
ghost use Rattle.fitting_run.specs.Faults as faults;
ghost use Rattle.fitting_run.specs.Registers.{register_of};
ghost use Rattle.fitting_run.specs.Tests.{some_is, where_some};
ghost use Rattle.fitting_run.specs.Yards.{lacks_suffice, refusals_suffice, shown};

use crate::answered::Answered;
use crate::counting::{Sort, late_turns, occasions};
use crate::fitting::cause_of;
use crate::registering::RegisterShown;
use crate::yard::CellShown;
use delos_types::cause::Cause;
use delos_types::numbers::NodeId;

/// What is read of a yard once a run has ended.
#[derive(Drop)]
pub struct YardShown {
    /// The loglets of its shelf.
    pub cells: Vec<CellShown>,
    /// The register of their chain.
    pub register: RegisterShown,
    /// The faults of each node's disk.
    pub disks: Vec<u64>,
}

fn is_full(cell: &CellShown) -> bool
    ensures { result ≡ faults.is_full (cell_of cell.now) }
{
    let is_whole = cell.cut <= cell.room && cell.room - cell.cut == cell.log.len() as u64;
    is_whole || cell.begun == cell.limit
}

fn lacks_of(cells: &[CellShown], id: u32) -> u64
    ensures { result ≡ faults.lacks_of (slice_get (map cell_of cells.now) id) }
{
    match cells.get(id as usize) {
        Some(cell) => cell.lacks,
        None => 0,
    }
}

fn faults_of(cells: &[CellShown], id: u32) -> u64
    ensures { result ≡ faults.faults_of (slice_get (map cell_of cells.now) id) }
{
    match cells.get(id as usize) {
        Some(cell) => cell.faults,
        None => 0,
    }
}

fn some_is_full(cells: &[CellShown], id: u32) -> bool
    ensures { result ≡ some_is (slice_get (map cell_of cells.now) id) faults.is_full }
{
    match cells.get(id as usize) {
        Some(cell) => is_full(cell),
        None => false,
    }
}

fn lacked(cell: &CellShown, unreached: u64) -> bool
    ensures { result ≡ faults.lacked unreached (cell_of cell.now) }
{
    1 <= unreached
        && cell.quorum <= unreached
        && unreached <= cell.servers
        && 1 <= cell.lacks
        && 1 <= cell.faults
}

fn some_lacked(cells: &[CellShown], id: u32, unreached: u64) -> bool
    ensures { result ≡ some_is (slice_get (map cell_of cells.now) id) (faults.lacked unreached) }
{
    match cells.get(id as usize) {
        Some(cell) => lacked(cell, unreached),
        None => false,
    }
}

fn disk_faults(disks: &[u64], node: NodeId) -> u64
    ensures { result ≡ faults.disk_faults disks.now node }
{
    match disks.get(usize::from(node.number()) - 1) {
        Some(faults) => *faults,
        None => 0,
    }
}

fn stands(yard: &YardShown, node: NodeId, cause: Cause) -> bool
    ensures { result ≡ faults.stands (shown yard.now) node cause }
{
    match cause {
        Cause::NoQuorum { id, unreached } => {
            some_lacked(yard.cells.as_slice(), id, u64::from(unreached))
        }
        Cause::Full { id } => some_is_full(yard.cells.as_slice(), id),
        Cause::Meta => yard.register.faults >= 1,
        Cause::Store => disk_faults(yard.disks.as_slice(), node) >= 1,
    }
}

fn row_stands(yard: &YardShown, a: &Answered) -> bool
    ensures { result ≡ where_some (answers_of.cause_of a.now.row.outcome) (faults.stands (shown yard.now) a.now.line.node) }
{
    match cause_of(&a.row.outcome) {
        Some(cause) => stands(yard, a.line.node, cause),
        None => true,
    }
}

/// The cause of each open row stands in the yard, at the row's node.
pub fn causes_stand(told: &[Answered], yard: &YardShown) -> bool
    ensures { result ≡ list_all (λ a. where_some (answers_of.cause_of a.row.outcome) (faults.stands (shown yard.now) a.line.node)) told.now }
{
    told.iter().all(|a| row_stands(yard, a))
}

fn lacks_suffice(told: &[Answered], cells: &[CellShown], cause: Option<Cause>) -> bool
    ensures { result ≡ lacks_suffice told.now (map cell_of cells.now) cause }
{
    match cause {
        Some(Cause::NoQuorum { id, .. }) => {
            occasions(&Sort::Lacks(id), told) <= lacks_of(cells, id)
        }
        _ => true,
    }
}

fn all_lacks_suffice(told: &[Answered], cells: &[CellShown], some: &[Answered]) -> bool
    ensures { result ≡ list_all (λ a. lacks_suffice told.now (map cell_of cells.now) (answers_of.cause_of a.row.outcome)) some.now }
{
    some.iter()
        .all(|a| lacks_suffice(told, cells, cause_of(&a.row.outcome)))
}

/// Each loglet lacked a quorum as often as the rows need.
pub fn lacks_are_counted(told: &[Answered], cells: &[CellShown]) -> bool
    ensures { IsTrue result ↔ ((cell : ℕ) → faults.occasions (faults.lacks_quorum cell) told.now ≤ faults.lacks_of (slice_get (map cell_of cells.now) cell)) }
{
    all_lacks_suffice(told, cells, told)
}

fn refusals_suffice(told: &[Answered], cells: &[CellShown], cause: Option<Cause>) -> bool
    ensures { result ≡ refusals_suffice told.now (map cell_of cells.now) cause }
{
    match cause {
        Some(Cause::Full { id }) => occasions(&Sort::Full(id), told) <= faults_of(cells, id),
        _ => true,
    }
}

fn all_refusals_suffice(told: &[Answered], cells: &[CellShown], some: &[Answered]) -> bool
    ensures { result ≡ list_all (λ a. refusals_suffice told.now (map cell_of cells.now) (answers_of.cause_of a.row.outcome)) some.now }
{
    some.iter().all(|a| refusals_suffice(told, cells, cause_of(&a.row.outcome)))
}

/// Each loglet that was full failed as often as the rows need.
pub fn refusals_are_counted(told: &[Answered], cells: &[CellShown]) -> bool
    ensures { IsTrue result ↔ ((cell : ℕ) → faults.occasions (faults.finds_full cell) told.now ≤ faults.faults_of (slice_get (map cell_of cells.now) cell)) }
{
    all_refusals_suffice(told, cells, told)
}

/// The register failed as often as the rows need.
pub fn register_is_counted(told: &[Answered], register: &RegisterShown) -> bool
    ensures { IsTrue result ↔ (faults.occasions faults.lacks_register told.now ≤ register.now.faults) }
{
    occasions(&Sort::Register, told) <= register.faults
}

fn stores_suffice(told: &[Answered], disks: &[u64], node: NodeId) -> bool
    ensures { result ≡ nat_le (faults.occasions (faults.lacks_store node) told.now) (faults.disk_faults disks.now node - 1) }
{
    // At its first fault it is opened again.
    occasions(&Sort::Store(node), told) <= disk_faults(disks, node).saturating_sub(1)
}

fn all_stores_suffice(told: &[Answered], disks: &[u64], some: &[Answered]) -> bool
    ensures { result ≡ list_all (λ a. nat_le (faults.occasions (faults.lacks_store a.line.node) told.now) (faults.disk_faults disks.now a.line.node - 1)) some.now }
{
    some.iter()
        .all(|a| stores_suffice(told, disks, a.line.node))
}

/// Each node's disk failed as often as the rows need, and once more where they need it at all.
pub fn stores_are_counted(told: &[Answered], disks: &[u64]) -> bool
    ensures { IsTrue result ↔ ((node : ℕ) → faults.occasions (faults.lacks_store node) told.now ≤ faults.disk_faults disks.now node - 1) }
{
    all_stores_suffice(told, disks, told)
}

// What is left of these turns once each lack that was counted has taken one.
fn left_by_lacks(turns: u64, cells: &[CellShown]) -> u64
    ensures { result ≡ turns - sum_by (λ v. v.lacks) (map cell_of cells.now) }
{
    match cells {
        [] => turns,
        [cell, rest @ ..] => left_by_lacks(turns.saturating_sub(cell.lacks), rest),
    }
}

// The faults of a loglet that is full.
fn refusals_of(cell: &CellShown) -> u64
    ensures { result ≡ faults.refusals_of (cell_of cell.now) }
{
    if is_full(cell) { cell.faults } else { 0 }
}

fn left_by_refusals(turns: u64, cells: &[CellShown]) -> u64
    ensures { result ≡ turns - sum_by faults.refusals_of (map cell_of cells.now) }
{
    match cells {
        [] => turns,
        [cell, rest @ ..] => left_by_refusals(turns.saturating_sub(refusals_of(cell)), rest),
    }
}

fn left_by_disks(turns: u64, disks: &[u64]) -> u64
    ensures { result ≡ turns - sum_by (λ n. n) disks.now }
{
    match disks {
        [] => turns,
        [faults, rest @ ..] => left_by_disks(turns.saturating_sub(*faults), rest),
    }
}

/// There are no more turns of nodes with a late row than lacks, refusals and faults of the register and of disks.
pub fn late_turns_are_counted(told: &[Answered], yard: &YardShown) -> bool
    ensures { IsTrue result ↔ (
        faults.turns_of (filter (λ a. answers_of.is_late a.row.outcome) told.now)
        ≤ sum_by (λ v. v.lacks) (shown yard.now).cells + sum_by faults.refusals_of (shown yard.now).cells + (shown yard.now).register.faults + sum_by (λ n. n) (shown yard.now).disks
        ) }
{
    let cells = yard.cells.as_slice();
    let turns = late_turns(told).saturating_sub(yard.register.faults);
    left_by_disks(
        left_by_refusals(left_by_lacks(turns, cells), cells),
        yard.disks.as_slice(),
    ) == 0
}
