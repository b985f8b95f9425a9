//! What the client of an operation that came to its end is told.
ghost use Rattle.std.specs.Prelude.{◌≡◌, ℕ, IfOk, Some, option_map};
ghost use Rattle.quorum_cell.specs.Tallies.{told_entry_at, entry_heard as entry_heard_by};
ghost use Rattle.quorum_cell.specs.declared.operation.Outcome.TheVariants.{Reached, Shut, Found};
ghost use Rattle.quorum_cell.specs.Steps.{given_outcome as given_by};
ghost use Rattle.loglet_api.specs.declared.call.Answer.TheVariants.{Got};
ghost use Rattle.cell_views.specs.Views.{answer_of, taken as taken_by};

use crate::tally::OperationState;
use delos_types::entry::Entry;
use loglet_api::call::Answer;
use quorum_cell::message::{Ask, Reply, Told};
use quorum_cell::operation::{Aim, Outcome};
use std::alloc::AllocError;

/// What the client is told, where the cut is here: nothing while the operation is undecided.
pub fn taken(operation: &OperationState, cut: u64) -> Result<Option<Answer>, AllocError>
    ensures { IfOk result (λ answer. answer ≡ taken_by cut operation.now operation.now.decided) }
{
    match operation.decided {
        None => Ok(None),
        Some(outcome) => answer(operation, cut, operation.given_outcome(cut, outcome)),
    }
}

/// The answer of an operation that came to this.
fn answer(
    operation: &OperationState,
    cut: u64,
    outcome: Outcome,
) -> Result<Option<Answer>, AllocError>
    ensures { IfOk result (λ answer. answer ≡ answer_of cut operation.now operation.now.aim outcome) }
{
    match outcome {
        Outcome::Reached => Ok(Some(placed(operation))),
        Outcome::OpenTail(tail) => Ok(Some(Answer::OpenTail(tail))),
        Outcome::SealedTail(tail) => Ok(Some(Answer::SealedTail(tail))),
        Outcome::Shut => Ok(Some(shut(operation))),
        Outcome::Found => found(operation),
        Outcome::Gone => Ok(Some(Answer::CutAt(cut))),
        Outcome::Beyond => Ok(Some(Answer::Beyond(operation.firm_before))),
        Outcome::TrimDone => Ok(Some(Answer::TrimDone)),
        Outcome::NoQuorum(unreached) => Ok(Some(Answer::NoQuorum { unreached })),
    }
}

/// The length that it waits for is there.
fn placed(operation: &OperationState) -> Answer
    ensures { (cut : ℕ) → Some result ≡ answer_of cut operation.now operation.now.aim Reached }
{
    match operation.aim {
        Aim::Append(_) => Answer::Placed(operation.size_before),
        _ => Answer::Settled,
    }
}

/// The log takes no more entries.
fn shut(operation: &OperationState) -> Answer
    ensures { (cut : ℕ) → Some result ≡ answer_of cut operation.now operation.now.aim Shut }
{
    match operation.aim {
        Aim::Seal => Answer::SealDone,
        _ => Answer::Sealed,
    }
}

/// The entry that a read was given.
fn found(operation: &OperationState) -> Result<Option<Answer>, AllocError>
    ensures { IfOk result (λ answer. (cut : ℕ) → answer ≡ answer_of cut operation.now operation.now.aim Found) }
{
    match operation.aim {
        Aim::Read(place) => got(operation, place),
        _ => Ok(None),
    }
}

fn got(operation: &OperationState, place: u64) -> Result<Option<Answer>, AllocError>
    ensures { IfOk result (λ answer. answer ≡ option_map (λ e. Got e) (entry_heard_by place operation.now.heard)) }
{
    match entry_heard(operation.heard.as_slice(), place)? {
        Some(entry) => Ok(Some(Answer::Got(entry))),
        None => Ok(None),
    }
}

/// The first entry of this place that these replies give.
fn entry_heard(replies: &[Reply], place: u64) -> Result<Option<Entry>, AllocError>
    ensures { IfOk result (λ entry. entry ≡ entry_heard_by place replies.now) }
{
    for reply in replies {
        if let Some(entry) = entry_told(reply, place) {
            return Ok(Some(entry.clone()?));
        }
    }
    Ok(None)
}

fn entry_told(reply: &Reply, place: u64) -> Option<&Entry>
    ensures { option_map (λ entry. entry.now) result ≡ told_entry_at place reply.now.ask reply.now.told }
{
    match (&reply.ask, &reply.told) {
        (Ask::Read(at), Told::Got(entry)) if place == *at => Some(entry),
        _ => None,
    }
}
