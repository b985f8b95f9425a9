//! How often causes must have come, as the rows tell that were opened by them, as plain and slow programs.
ghost use Rattle.std.specs.Prelude.{◌≡◌, ◌≤◌, ◌*◌, [], length, take, drop, filter};
ghost use Rattle.std.specs.List.{list_any};
ghost use Rattle.fitting_run.specs.Answered as answers_of;
ghost use Rattle.fitting_run.specs.Faults as faults;
ghost use Rattle.fitting_run.specs.Sorts.{comes_by, opens_alone, opens_other};

use crate::answered::Answered;
use crate::fitting::{cause_of, is_late, is_open, logs, same_session, some_stops};
use delos_types::cause::Cause;
use delos_types::numbers::NodeId;

/// Which causes are one: those that a loglet, the register or a node's disk had.
#[derive(Clone, Copy, PartialEq, Eq, Debug)]
pub enum Sort {
    /// That loglet lacked a quorum.
    Lacks(u32),
    /// That loglet was full.
    Full(u32),
    Register,
    Store(NodeId),
}

fn comes_by(sort: &Sort, node: NodeId, cause: Cause) -> bool
    ensures { result ≡ comes_by sort.now node cause }
{
    match (sort, cause) {
        (Sort::Lacks(cell), Cause::NoQuorum { id, .. }) => id == *cell,
        (Sort::Full(cell), Cause::Full { id }) => id == *cell,
        (Sort::Register, Cause::Meta) => true,
        (Sort::Store(of), Cause::Store) => node == *of,
        _ => false,
    }
}

fn is_opened(sort: &Sort, before: &[Answered], b: &Answered) -> bool
    ensures { result ≡ faults.is_opened (comes_by sort.now) before.now b.now }
{
    match cause_of(&b.row.outcome) {
        Some(cause) => comes_by(sort, b.line.node, cause) && !some_stops(b, before),
        None => false,
    }
}

fn same_turn(a: &Answered, b: &Answered) -> bool
    ensures { result ≡ faults.same_turn a.now b.now }
{
    a.line.node == b.line.node && a.line.phase == b.line.phase
}

fn logs_beside(b: &Answered, a: &Answered) -> bool
    ensures { result ≡ faults.logs_beside b.now a.now }
{
    same_session(a, b) && a.line.phase == b.line.phase && logs(&a.line.asks)
}

fn some_logs_beside(b: &Answered, before: &[Answered]) -> bool
    ensures { result ≡ list_any (faults.logs_beside b.now) before.now }
{
    match before {
        [] => false,
        [a, rest @ ..] => logs_beside(b, a) || some_logs_beside(b, rest),
    }
}

fn is_alone(before: &[Answered], b: &Answered) -> bool
    ensures { result ≡ faults.is_alone before.now b.now }
{
    !(logs(&b.line.asks) || some_logs_beside(b, before))
}

fn opens_other(sort: &Sort, before: &[Answered], b: &Answered) -> bool
    ensures { result ≡ opens_other (comes_by sort.now) before.now b.now }
{
    is_opened(sort, before, b) && !is_alone(before, b)
}

// How many rows that stand alone such a cause opened.
fn looks_opened(sort: &Sort, told: &[Answered]) -> u64
    ensures looks { result ≡ length (faults.picked (opens_alone (comes_by sort.now)) [] told.now) }
    ensures few { result ≤ length told.now }
{
    let mut looks = 0;
    for (i, b) in told.iter().enumerate() {
        if is_opened(sort, &told[..i], b) && is_alone(&told[..i], b) {
            looks += 1;
        }
    }
    looks
}

// A row from `at` on that doesn't stand alone was opened by such a cause, in the turn of `b`.
fn opens_in_turn(sort: &Sort, told: &[Answered], at: usize, b: &Answered) -> bool
    requires { at ≤ length told.now }
    ensures { result ≡ list_any (faults.same_turn b.now) (faults.picked (opens_other (comes_by sort.now)) (take at told.now) (drop at told.now)) }
{
    for i in at..told.len() {
        if opens_other(sort, &told[..i], &told[i]) && same_turn(b, &told[i]) {
            return true;
        }
    }
    false
}

// How many turns there are in which such a cause opened other rows: those of each turn's last.
fn turns_opened(sort: &Sort, told: &[Answered]) -> u64
    ensures turns { result ≡ faults.turns_of (faults.picked (opens_other (comes_by sort.now)) [] told.now) }
    ensures few { result ≤ length told.now }
{
    let mut turns = 0;
    for (i, b) in told.iter().enumerate() {
        if opens_other(sort, &told[..i], b) && !opens_in_turn(sort, told, i + 1, b) {
            turns += 1;
        }
    }
    turns
}

/// How often such a cause came at least: once for each row that it opened which stands alone, as a read before its session logs
/// anything in its phase, and once for each turn of a node with other such rows. Takes time that grows with the cube of the rows.
pub fn occasions(sort: &Sort, told: &[Answered]) -> u64
    ensures occasions { result ≡ faults.occasions (comes_by sort.now) told.now }
    ensures few { result ≤ 2 * length told.now }
{
    looks_opened(sort, told) + turns_opened(sort, told)
}

fn some_late_in_turn(told: &[Answered], b: &Answered) -> bool
    ensures { result ≡ list_any (faults.same_turn b.now) (filter (λ a. answers_of.is_late a.row.outcome) told.now) }
{
    match told {
        [] => false,
        [a, rest @ ..] => {
            (is_late(&a.row.outcome) && same_turn(b, a)) || some_late_in_turn(rest, b)
        }
    }
}

/// How many turns of nodes have a late row.
pub fn late_turns(told: &[Answered]) -> u64
    ensures turns { result ≡ faults.turns_of (filter (λ a. answers_of.is_late a.row.outcome) told.now) }
    ensures few { result ≤ length told.now }
{
    let mut turns = 0;
    for (i, b) in told.iter().enumerate() {
        if is_late(&b.row.outcome) && !some_late_in_turn(&told[i + 1..], b) {
            turns += 1;
        }
    }
    turns
}
