//! The open operations of a file loglet, by ticket.
ghost use Rattle.std.specs.Prelude.{◌≡◌, ◌+◌, ◌≤◌, ◌++◌, ◌↔◌, None, Some, nat_eq, OnOk, OnErr, IfSome, IfNone, IsTrue};
ghost use Rattle.std.specs.HashMap.{get, Updates, IsUnchanged, hash_map_len};
ghost use Rattle.loglet_api.specs.Step.{entries_of};
ghost use Rattle.file_loglet.specs.Pending.{left_of, SetsAnswer, Waits, TakesOut, IsUnspoken};

use delos_types::entry::Entry;
use loglet_api::call::{Answer, Op, Task};
use std::alloc::AllocError;
use std::collections::HashMap;

/// An open operation, with what held as it began, and its answer once it is decided.
#[derive(Drop)]
pub struct Pending {
    pub task: Task,
    pub size: u64,
    pub reach: u64,
    pub firm: u64,
    pub shut: bool,
    pub faults: u64,
    pub down: u32,
    pub answer: Option<Answer>,
}

/// An operation that was taken out, with its answer.
#[derive(Drop)]
pub struct Decided {
    pub task: Task,
    pub size: u64,
    pub answer: Answer,
}

/// Adds an operation, and the entry of an Append, or neither.
pub fn add(
    entries: &mut Vec<Entry>,
    pending: &mut HashMap<u64, Pending>,
    op: Op,
    number: u64,
    p: Pending,
) -> Result<(), AllocError>
    ensures entries { OnOk result (entries.new.items ≡ entries.old.items ++ entries_of op) }
    ensures pending { OnOk result (Updates nat_eq pending.old pending.new number (Some p)) }
    ensures more { OnOk result (hash_map_len pending.new ≤ hash_map_len pending.old + 1) }
    ensures err { OnErr result ((entries.new.items ≡ entries.old.items) × IsUnchanged pending.old pending.new) }
{
    match op {
        Op::Append(entry) => {
            entries.reserve(1)?;
            pending.insert(number, p)?;
            entries.push(entry).unwrap();
        }
        _ => {
            pending.insert(number, p)?;
        }
    }
    Ok(())
}

/// Gives an operation its answer.
pub fn set_answer(pending: &mut HashMap<u64, Pending>, number: u64, answer: Answer)
    ensures { SetsAnswer pending.old number answer pending.new }
{
    if let Some(p) = pending.get_mut(&number) {
        p.answer = Some(answer);
    }
}

/// Takes an operation out, where it has its answer.
pub fn take_decided(pending: &mut HashMap<u64, Pending>, number: u64) -> Option<Decided>
    ensures none { IfNone result (IsUnchanged pending.old pending.new) }
    ensures waits { IfNone result (Waits pending.old number) }
    ensures taken { IfSome result (λ d. TakesOut pending.old number d pending.new) }
{
    if pending.get(&number)?.answer.is_none() {
        return None;
    }
    let Pending {
        task,
        size,
        answer,
        ..
    } = pending.remove(&number)?;
    let answer = answer?;
    Some(Decided { task, size, answer })
}

impl Pending {
    /// What is left to do: one carry, or nothing.
    pub fn left(&self) -> (u32, u64)
        ensures { (result.0, result.1) ≡ left_of self.now.answer }
    {
        if self.answer.is_none() {
            (1, 0)
        } else {
            (0, 0)
        }
    }

    /// Whether it is a Read of a position of which no answer had spoken as it began.
    pub fn is_unspoken(&self) -> bool
        ensures { IsTrue result ↔ IsUnspoken self.now.task self.now.firm }
    {
        match self.task {
            Task::Reading(position) => self.firm <= position,
            _ => false,
        }
    }
}
