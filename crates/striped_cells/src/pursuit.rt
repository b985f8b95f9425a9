//! The operations of a cell in stripes.
ghost use Rattle.std.specs.Prelude.{◌≡◌, ◌+◌, ◌<◌, ◌≤◌, ◌^◌, true, None, Some, IfSome, IfOk};
ghost use Rattle.striped_loglet.specs.State.{left_of};
ghost use Rattle.striped_cells.specs.Pursuits.{is_waiting as is_waiting_by, heard_so, answer_at};

use loglet_api::call::Answer;
use std::alloc::AllocError;
use std::marker::Model;
use striped_loglet::pending::Course;
use striped_loglet::plan::{Asked, Heard, Plan, told};
use striped_loglet::stripe::Inner;

/// An operation that goes round the stripes.
#[derive(Drop)]
pub struct PursuitState {
    pub asked: Asked,
    /// Which stripes were sealed as it began.
    pub sealed_before: Vec<bool>,
    pub plan: Plan,
    /// What a stripe is doing for it.
    pub inner: Option<Inner>,
    /// Once it is decided.
    pub answer: Option<Answer>,
    pub closed: bool,
}

impl Model for PursuitState {
    ghost use Rattle.striped_cells.specs.Pursuits.{Pursuit};

    ghost Value = { Pursuit };

    ghost view = { λ p. record { asked = p.asked; sealed_before = p.sealed_before.items; plan = p.plan; inner = p.inner; answer = p.answer; closed = p.closed } };
}

impl Clone for PursuitState {
    ghost is_clone = { λ x y. y ≡ x };

    fn clone(&self) -> Result<PursuitState, AllocError> {
        let sealed_before = self.sealed_before.clone()?;
        let answer = self.answer.clone()?;
        Ok(PursuitState {
            asked: self.asked,
            sealed_before,
            plan: self.plan,
            inner: self.inner,
            answer,
            closed: self.closed,
        })
    }
}

impl PursuitState {
    /// It waits for no stripe, and has no answer.
    pub fn is_waiting(&self) -> bool
        ensures { result ≡ is_waiting_by self.now }
    {
        self.inner.is_none() && self.answer.is_none()
    }

    /// How far it has got.
    pub fn course(&self) -> Course
        ensures { result ≡ record { asked = self.now.asked; plan = self.now.plan } }
    {
        Course {
            asked: self.asked,
            plan: self.plan,
        }
    }

    /// A stripe is doing this for it.
    pub fn on(self, inner: Inner) -> PursuitState
        ensures { result ≡ record self { inner = Some inner } }
    {
        let mut operation = self;
        operation.inner = Some(inner);
        operation
    }

    /// It has got so far now.
    pub fn go_on(&mut self, plan: Plan, inner: Option<Inner>, answer: Option<Answer>)
        ensures { self.new ≡ record self.old { plan = plan; inner = inner; answer = answer } }
    {
        self.plan = plan;
        self.inner = inner;
        self.answer = answer;
    }

    /// What an answer of a stripe comes to.
    pub fn hear(&mut self, heard: Heard)
        ensures { self.new ≡ heard_so self.old heard }
    {
        match heard {
            Heard::On(plan) => self.go_on(plan, None, None),
            Heard::Decided(answer) => self.go_on(self.plan, None, Some(answer)),
        }
    }

    pub fn close(&mut self)
        ensures { self.new ≡ record self.old { closed = true } }
    {
        self.closed = true;
    }

    /// What its client is told, where the cut is here.
    pub fn told(&self, cut: u64) -> Result<Option<Answer>, AllocError>
        ensures { IfOk result (λ answer. answer ≡ answer_at cut (Some self.now)) }
    {
        match &self.answer {
            None => Ok(None),
            Some(answer) => Ok(Some(told(self.asked.task, cut, answer.clone()?))),
        }
    }

    /// What is left to do, of so many stripes and so many rounds a turn.
    pub fn left(&self, count: u64, turn: u64) -> (u32, u64)
        requires count { (0 < count) × (count ≤ 8) }
        requires next { self.now.answer ≡ None → self.now.plan.next ≤ count }
        requires turn { turn ≤ 2 ^ 24 + 2 }
        requires small { self.now.answer ≡ None → IfSome self.now.inner (λ x. x.rounds < turn) }
        ensures { (result.0, result.1) ≡ left_of turn count self.now.plan self.now.inner self.now.answer }
    {
        if self.answer.is_some() {
            return (0, 0);
        }
        let turns = (self.plan.rounds_behind() * count + (count - self.plan.next)) * turn;
        match self.inner {
            Some(inner) => ((turns + (inner.rounds as u64 + 1)) as u32, inner.steps),
            None => (turns as u32, 0),
        }
    }
}
