//! How an operation is taken, and what it is answered.
ghost use Rattle.std.specs.Prelude.{◌≡◌, IsSome, Some, IfSome, IfNone};
ghost use Rattle.std.specs.HashMap.{IsUnchanged};
ghost use Rattle.native_loglet.specs.Closing.{TakesOut, Waits, placed_for, sealed_for, is_cut as is_cut_by, answer_for};

use delos_types::entry::Entry;
use loglet_api::call::{Answer, Task};
use native_plan::pending::Pending;
use quorum_cell::operation::Outcome;
use std::collections::HashMap;

/// An operation that was taken out, and what it came to.
#[derive(Drop)]
pub struct Decided {
    pub task: Task,
    pub size: u64,
    pub firm: u64,
    pub got: Option<Entry>,
    pub outcome: Outcome,
}

/// Takes an operation out, where it is decided.
pub fn take_decided(pending: &mut HashMap<u64, Pending>, number: u64) -> Option<Decided>
    ensures none { IfNone result (IsUnchanged pending.old pending.new) }
    ensures waits { IfNone result (Waits pending.old.entries number) }
    ensures taken { IfSome result (λ d. TakesOut pending.old.entries number d pending.new.entries) }
{
    let outcome = pending.get(&number)?.outcome?;
    let Pending {
        task,
        size,
        firm,
        got,
        ..
    } = pending.remove(&number)?;
    Some(Decided {
        task,
        size,
        firm,
        got,
        outcome,
    })
}

/// What an operation is answered, where the cut is here: a Read of a position below it is told so.
pub fn answer(decided: Decided, cut: u64) -> Answer
    requires { decided.outcome ≡ Outcome.Found → IsSome decided.got }
    ensures { Some result ≡ answer_for cut decided }
{
    let Decided {
        task,
        size,
        firm,
        got,
        outcome,
    } = decided;
    if is_cut(task, cut) {
        return Answer::CutAt(cut);
    }
    match outcome {
        Outcome::Reached => placed(task, size),
        Outcome::OpenTail(tail) => Answer::OpenTail(tail),
        Outcome::SealedTail(tail) => Answer::SealedTail(tail),
        Outcome::Shut => sealed(task),
        Outcome::Found => Answer::Got(got.unwrap()),
        Outcome::Gone => Answer::CutAt(cut),
        Outcome::Beyond => Answer::Beyond(firm),
        Outcome::TrimDone => Answer::TrimDone,
        Outcome::NoQuorum(unreached) => Answer::NoQuorum { unreached },
    }
}

/// Whether it is a Read of a position that is trimmed.
fn is_cut(task: Task, cut: u64) -> bool
    ensures { result ≡ is_cut_by task cut }
{
    match task {
        Task::Reading(position) => position < cut,
        _ => false,
    }
}

/// The length that it waited for is there.
fn placed(task: Task, size: u64) -> Answer
    ensures { result ≡ placed_for task size }
{
    match task {
        Task::Placing => Answer::Placed(size),
        _ => Answer::Settled,
    }
}

/// More than half of the servers are sealed.
fn sealed(task: Task) -> Answer
    ensures { result ≡ sealed_for task }
{
    match task {
        Task::Sealing => Answer::SealDone,
        _ => Answer::Sealed,
    }
}
