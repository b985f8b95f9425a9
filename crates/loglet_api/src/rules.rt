//! The parts of a step that are the same for every kind of loglet, as functions of plain values.
ghost use Rattle.std.specs.Prelude.{◌≡◌, ◌+◌, ◌<◌, ◌^◌, ◌↔◌, IsTrue};
ghost use Rattle.loglet_api.specs.Step.{task_of, IsAppend, cut_by, seals_of, wanted_by, told_reach, told_firm, told_cap, told_lacks};

use crate::call::{Answer, Op, Task};

impl Op {
    /// What it is to do, without its entry.
    pub fn task(&self) -> Task
        ensures { result ≡ task_of self.now }
    {
        match self {
            Op::Append(_) => Task::Placing,
            Op::Settle(n) => Task::Settling(*n),
            Op::Tail => Task::Finding,
            Op::Seal => Task::Sealing,
            Op::Read(p) => Task::Reading(*p),
            Op::Trim(n) => Task::Trimming(*n),
        }
    }

    pub fn is_append(&self) -> bool
        ensures { IsTrue result ↔ IsAppend self.now }
    {
        matches!(self, Op::Append(_))
    }

    /// How many Seals it is, 0 or 1.
    pub fn seals(&self) -> u64
        ensures { result ≡ seals_of self.now }
    {
        match self {
            Op::Seal => 1,
            _ => 0,
        }
    }

    /// The cut of a loglet once this is begun on it.
    pub fn cut(&self, cut: u64, reach: u64) -> u64
        ensures { result ≡ cut_by self.now cut reach }
    {
        match self {
            Op::Trim(n) => cut.max((*n).min(reach)),
            _ => cut,
        }
    }
}

impl Task {
    /// The length that an Append or a Settle speaks of, where the log had this size as it began;
    /// else 0.
    pub fn wanted(self, size: u64) -> u64
        requires { size + 1 < 2 ^ 64 }
        ensures { result ≡ wanted_by self size }
    {
        match self {
            Task::Placing => size + 1,
            Task::Settling(n) => n.min(size),
            _ => 0,
        }
    }
}

impl Answer {
    /// The length that is there for good by this answer, to an operation that spoke of `length`;
    /// 0 where it says none.
    pub fn reach(&self, length: u64) -> u64
        requires { told_reach length self.now < 2 ^ 64 }
        ensures { result ≡ told_reach length self.now }
    {
        match self {
            Answer::Placed(p) => *p + 1,
            Answer::Settled => length,
            Answer::OpenTail(t) => *t,
            _ => 0,
        }
    }

    /// The length that this answer speaks of in any way; 0 where it speaks of none.
    pub fn firm(&self, length: u64) -> u64
        requires { told_firm length self.now < 2 ^ 64 }
        ensures { result ≡ told_firm length self.now }
    {
        match self {
            Answer::Placed(p) => *p + 1,
            Answer::Settled => length,
            Answer::OpenTail(t) => *t,
            Answer::SealedTail(t) => *t,
            _ => 0,
        }
    }

    /// The least sealed tail once this answer is given, where it was `cap` before.
    pub fn cap(&self, cap: Option<u64>) -> Option<u64>
        ensures { result ≡ told_cap self.now cap }
    {
        match (self, cap) {
            (Answer::SealedTail(t), None) => Some(*t),
            (Answer::SealedTail(t), Some(c)) => Some(c.min(*t)),
            _ => cap,
        }
    }

    /// How many NoQuorum it is, 0 or 1.
    pub fn lacks(&self) -> u64
        ensures { result ≡ told_lacks self.now }
    {
        match self {
            Answer::NoQuorum { .. } => 1,
            _ => 0,
        }
    }
}
