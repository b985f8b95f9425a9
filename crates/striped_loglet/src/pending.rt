//! The open operations of a striped loglet, by ticket.
ghost use Rattle.std.specs.Prelude.{◌≡◌, ◌+◌, ◌<◌, ◌≤◌, ◌^◌, None, Some, IfNone, IfSome, nat_eq};
ghost use Rattle.std.specs.HashMap.{get, Updates, IsUnchanged, spare};
ghost use Rattle.striped_loglet.specs.State.{left_of};
ghost use Rattle.striped_loglet.specs.Pendings.{Sets, Waits, TakesOut};

use crate::plan::{Asked, Plan};
use crate::stripe::Inner;
use loglet_api::call::{Answer, Task};
use std::collections::HashMap;
use std::snapshot::Snapshot;

/// An open operation.
#[derive(Drop)]
pub struct Pending<L> {
    pub asked: Asked,
    /// The stripes as it began. It has no bytes: only contracts read it.
    pub before: Snapshot<Vec<L>>,
    pub plan: Plan,
    /// What a stripe is doing for it.
    pub inner: Option<Inner>,
    /// Once it is decided.
    pub answer: Option<Answer>,
}

/// How far an operation has got.
#[derive(Clone, Copy)]
pub struct Course {
    pub asked: Asked,
    pub plan: Plan,
}

/// An operation that was taken out, with its answer.
#[derive(Drop)]
pub struct Decided {
    pub task: Task,
    pub size: u64,
    pub answer: Answer,
}

/// The operation has got so far.
pub fn set<L>(
    pending: &mut HashMap<u64, Pending<L>>,
    number: u64,
    plan: Plan,
    inner: Option<Inner>,
    answer: Option<Answer>,
)
    ensures { Sets pending.old number plan inner answer pending.new }
{
    if let Some(p) = pending.get_mut(&number) {
        p.plan = plan;
        p.inner = inner;
        p.answer = answer;
    }
}

/// Puts an operation in, for which room was made.
pub fn put<L>(pending: &mut HashMap<u64, Pending<L>>, number: u64, p: Pending<L>)
    requires { 0 < spare pending.old }
    ensures { Updates nat_eq pending.old pending.new number (Some p) }
{
    let _put: Result<_, _> = pending.insert(number, p);
}

/// Takes an operation out, where it has its answer.
pub fn take_decided<L>(pending: &mut HashMap<u64, Pending<L>>, number: u64) -> Option<Decided>
    ensures none { IfNone result (IsUnchanged pending.old pending.new) }
    ensures waits { IfNone result (Waits pending.old number) }
    ensures taken { IfSome result (λ d. TakesOut pending.old number d pending.new) }
{
    if pending.get(&number)?.answer.is_none() {
        return None;
    }
    let Pending { asked, answer, .. } = pending.remove(&number)?;
    let answer = answer?;
    Some(Decided {
        task: asked.task,
        size: asked.size,
        answer,
    })
}

impl<L> Pending<L> {
    /// How far it has got.
    pub fn course(&self) -> Course
        ensures { result ≡ record { asked = self.now.asked; plan = self.now.plan } }
    {
        Course {
            asked: self.asked,
            plan: self.plan,
        }
    }

    /// What is left to do, of so many stripes and so many rounds a turn.
    pub fn left(&self, count: u64, turn: u64) -> (u32, u64)
        requires count { (0 < count) × (count ≤ 8) }
        requires next { self.now.answer ≡ None → self.now.plan.next ≤ count }
        requires turn { turn ≤ 2 ^ 24 + 2 }
        requires small { self.now.answer ≡ None → IfSome self.now.inner (λ x. x.rounds < turn) }
        ensures { (result.0, result.1) ≡ left_of turn count self.now.plan self.now.inner self.now.answer }
    {
        if self.answer.is_some() {
            return (0, 0);
        }
        let turns = (self.plan.rounds_behind() * count + (count - self.plan.next)) * turn;
        match self.inner {
            Some(inner) => ((turns + (inner.rounds as u64 + 1)) as u32, inner.steps),
            None => (turns as u32, 0),
        }
    }
}
