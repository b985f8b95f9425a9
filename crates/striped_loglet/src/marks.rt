//! What a loglet has told and counted.
ghost use Rattle.std.specs.Prelude.{◌≡◌, ◌+◌, ◌-◌, ◌^◌, ◌<◌, ◌↔◌, ◌⊎◌, min, max, None, IsTrue};
ghost use Rattle.loglet_api.specs.Step.{IsAppend, cut_by, seals_of, told_reach, told_firm, told_cap, told_lacks};
ghost use Rattle.striped_loglet.specs.Plans.{added_by};

use loglet_api::call::{Answer, Op};

/// What a loglet has told and counted.
#[derive(Clone, Copy)]
pub struct Marks {
    /// How many entries the log has, trimmed ones too.
    pub size: u64,
    /// Positions below it are trimmed.
    pub cut: u64,
    /// The greatest length that was answered as there for good.
    pub reach: u64,
    /// The greatest length that was answered in any way.
    pub firm: u64,
    /// The least sealed tail that was answered.
    pub cap: Option<u64>,
    /// How many operations were begun.
    pub begun: u64,
    /// How many of them are Seals.
    pub seals: u64,
    /// How many answers were `NoQuorum`.
    pub lacks: u64,
    /// How many operations were refused as `Full`; it stands still at 2^64 - 1.
    pub refusals: u64,
}

impl Marks {
    /// Nothing was asked yet.
    pub fn new() -> Marks
        ensures { result ≡ record { size = 0; cut = 0; reach = 0; firm = 0; cap = None; begun = 0; seals = 0; lacks = 0; refusals = 0 } }
    {
        Marks {
            size: 0,
            cut: 0,
            reach: 0,
            firm: 0,
            cap: None,
            begun: 0,
            seals: 0,
            lacks: 0,
            refusals: 0,
        }
    }

    /// Whether no more operations of this kind can be begun.
    pub fn is_full(&self, op: &Op, room: u64, limit: u64) -> bool
        ensures { IsTrue result ↔ ((IsAppend op.now × (self.now.size ≡ room)) ⊎ (self.now.begun ≡ limit)) }
    {
        self.begun == limit || (self.size == room && op.is_append())
    }

    /// Once an operation is begun.
    pub fn begun(self, op: &Op) -> Marks
        requires size { self.size + 1 < 2 ^ 64 }
        requires begun { self.begun + 1 < 2 ^ 64 }
        requires seals { self.seals + 1 < 2 ^ 64 }
        ensures { result ≡ record self { size = self.size + added_by op.now; cut = cut_by op.now self.cut self.reach; begun = self.begun + 1; seals = self.seals + seals_of op.now } }
    {
        Marks {
            size: self.size + added(op),
            cut: op.cut(self.cut, self.reach),
            begun: self.begun + 1,
            seals: self.seals + op.seals(),
            ..self
        }
    }

    /// Once an operation is refused as full.
    pub fn refused(self) -> Marks
        ensures { result ≡ record self { refusals = min (self.refusals + 1) (2 ^ 64 - 1) } }
    {
        Marks {
            refusals: self.refusals.saturating_add(1),
            ..self
        }
    }

    /// Once an answer is given to an operation that speaks of this length.
    pub fn told(self, answer: &Answer, length: u64) -> Marks
        requires reach { told_reach length answer.now < 2 ^ 64 }
        requires firm { told_firm length answer.now < 2 ^ 64 }
        requires lacks { self.lacks + 1 < 2 ^ 64 }
        ensures { result ≡ record self { reach = max self.reach (told_reach length answer.now); firm = max self.firm (told_firm length answer.now); cap = told_cap answer.now self.cap; lacks = self.lacks + told_lacks answer.now } }
    {
        Marks {
            reach: self.reach.max(answer.reach(length)),
            firm: self.firm.max(answer.firm(length)),
            cap: answer.cap(self.cap),
            lacks: self.lacks + answer.lacks(),
            ..self
        }
    }
}

/// How many entries an operation adds, 0 or 1.
fn added(op: &Op) -> u64
    ensures { result ≡ added_by op.now }
{
    match op {
        Op::Append(_) => 1,
        _ => 0,
    }
}
