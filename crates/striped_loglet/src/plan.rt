//! How an operation goes round the stripes: what it asks which stripe next, and what the answers come to.
ghost use Rattle.std.specs.Prelude.{◌≡◌, ◌+◌, ◌*◌, ◌^◌, ◌<◌, ◌≤◌, ◌%◌, ◌↔◌, IsTrue, length};
ghost use Rattle.stripe_rule.specs.Stripes.{covered as covered_by};
ghost use Rattle.striped_loglet.specs.State.{rounds_behind as rounds_behind_of};
ghost use Rattle.striped_loglet.specs.Plans.{first_plan, target_of, asked_of, plan_behind, heard_by, went_on, skipped, told_at, told_tail, lowered as lowered_by, IsUnspoken};

use loglet_api::call::{Answer, Op, Task};
use stripe_rule::{covered, index_of, share, stripe_of};

/// The rounds of a Tail: it takes the tails of all stripes; where one is sealed it seals them all,
/// and takes all tails again. Every other operation has the last round alone.
#[derive(Clone, Copy, PartialEq, Eq)]
pub enum Stage {
    First,
    Sealing,
    Last,
}

/// How far an operation has got.
#[derive(Clone, Copy)]
pub struct Plan {
    pub stage: Stage,
    /// The stripes below it were asked in this round.
    pub next: u64,
    /// The greatest length that the tails heard in this round cover; 2^64 - 1 before the first.
    pub tail: u64,
}

/// What an operation was asked, and what held as it began.
#[derive(Clone, Copy)]
pub struct Asked {
    pub task: Task,
    pub size: u64,
    pub reach: u64,
    pub firm: u64,
    pub faults: u64,
    pub down: u32,
}

/// What an operation comes to by an answer of a stripe.
#[derive(Drop)]
pub enum Heard {
    On(Plan),
    Decided(Answer),
}

impl Plan {
    /// Before anything was asked.
    pub fn new(task: Task) -> Plan
        ensures { result ≡ first_plan task }
    {
        let stage = match task {
            Task::Finding => Stage::First,
            _ => Stage::Last,
        };
        Plan {
            stage,
            next: 0,
            tail: u64::MAX,
        }
    }

    /// How many rounds follow this one.
    pub fn rounds_behind(&self) -> u64
        ensures { result ≡ rounds_behind_of self.now.stage }
    {
        match self.stage {
            Stage::First => 2,
            Stage::Sealing => 1,
            Stage::Last => 0,
        }
    }

    /// The plan once the next stripe was asked: a Read asks one alone.
    pub fn behind(self, task: Task, count: u64) -> Plan
        requires { self.next + 1 < 2 ^ 64 }
        ensures { result ≡ plan_behind task count self }
    {
        let next = match task {
            Task::Reading(_) => count,
            _ => self.next + 1,
        };
        Plan { next, ..self }
    }
}

impl Asked {
    /// The stripe that is asked next.
    pub fn target(&self, plan: Plan, count: u64) -> u64
        requires { 0 < count }
        ensures { result ≡ target_of self.now.task count plan }
    {
        match self.task {
            Task::Reading(position) => stripe_of(position, count),
            _ => plan.next,
        }
    }

    /// What a stripe is asked, of a log with this cut.
    pub fn op_of(&self, plan: Plan, cut: u64, stripe: u64, count: u64) -> Op
        requires stripe { stripe < count }
        requires count { count ≤ 8 }
        requires size { self.now.size ≤ 2 ^ 32 }
        requires cut { cut ≤ 2 ^ 32 }
        ensures { result ≡ asked_of self.now.task self.now.size plan.stage cut stripe count }
    {
        match self.task {
            Task::Placing => Op::Settle(share(self.size, stripe, count)),
            Task::Settling(n) => Op::Settle(share(n.min(self.size), stripe, count)),
            Task::Finding => {
                if plan.stage == Stage::Sealing {
                    Op::Seal
                } else {
                    Op::Tail
                }
            }
            Task::Sealing => Op::Seal,
            Task::Reading(position) => Op::Read(index_of(position, count)),
            Task::Trimming(_) => Op::Trim(share(cut, stripe, count)),
        }
    }

    /// Whether it is a Read of a position of which no answer had spoken as it began.
    pub fn is_unspoken(&self) -> bool
        ensures { IsTrue result ↔ IsUnspoken self.now.task self.now.firm }
    {
        match self.task {
            Task::Reading(position) => self.firm <= position,
            _ => false,
        }
    }

    /// What it comes to by this answer of a stripe.
    pub fn heard(&self, plan: Plan, stripe: u64, count: u64, answer: Answer) -> Heard
        requires count { (0 < count) × (count ≤ 8) }
        requires stripe { stripe < count }
        requires next { plan.next < 2 ^ 32 }
        requires tail { told_tail answer ≤ 2 ^ 32 }
        ensures { result ≡ heard_by self.now.task self.now.size plan stripe count answer }
    {
        match answer {
            Answer::Placed(_) | Answer::Settled | Answer::SealDone | Answer::TrimDone => {
                self.on(plan, count)
            }
            Answer::OpenTail(t) => self.on(lowered(plan, t, stripe, count), count),
            Answer::SealedTail(t) => {
                if plan.stage == Stage::First {
                    Heard::On(Plan {
                        stage: Stage::Sealing,
                        next: 0,
                        tail: u64::MAX,
                    })
                } else {
                    self.on(lowered(plan, t, stripe, count), count)
                }
            }
            _ => Heard::Decided(answer),
        }
    }

    /// Goes on to the next stripe, or round, or comes to its end.
    fn on(&self, plan: Plan, count: u64) -> Heard
        requires count { 0 < count }
        requires next { plan.next < 2 ^ 32 }
        ensures { result ≡ went_on self.now.task self.now.size count plan }
    {
        let next = self.skip(plan.next, count);
        if next < count {
            return Heard::On(Plan { next, ..plan });
        }
        match self.task {
            Task::Placing => Heard::Decided(Answer::Placed(self.size)),
            Task::Settling(_) => Heard::Decided(Answer::Settled),
            Task::Finding => match plan.stage {
                Stage::First => Heard::Decided(Answer::OpenTail(plan.tail)),
                Stage::Sealing => Heard::On(Plan {
                    stage: Stage::Last,
                    next: 0,
                    tail: u64::MAX,
                }),
                Stage::Last => Heard::Decided(Answer::SealedTail(plan.tail)),
            },
            Task::Sealing => Heard::Decided(Answer::SealDone),
            Task::Reading(_) | Task::Trimming(_) => Heard::Decided(Answer::TrimDone),
        }
    }

    /// The next stripe to ask: an Append has placed its entry on a stripe of its own already.
    fn skip(&self, next: u64, count: u64) -> u64
        requires count { 0 < count }
        requires next { next < 2 ^ 32 }
        ensures { result ≡ skipped self.now.task self.now.size count next }
    {
        match self.task {
            Task::Placing if next == stripe_of(self.size, count) => next + 1,
            _ => next,
        }
    }
}

/// The plan once a stripe told this tail.
fn lowered(plan: Plan, tail: u64, stripe: u64, count: u64) -> Plan
    requires { covered_by count stripe tail < 2 ^ 64 }
    ensures { result ≡ lowered_by plan tail stripe count }
{
    Plan {
        tail: plan.tail.min(covered(tail, stripe, count)),
        ..plan
    }
}

/// What an operation is answered where the cut is here: a Read of a position below it is told so.
pub fn told(task: Task, cut: u64, answer: Answer) -> Answer
    ensures { result ≡ told_at task cut answer }
{
    match task {
        Task::Reading(q) if q < cut => Answer::CutAt(cut),
        _ => answer,
    }
}
