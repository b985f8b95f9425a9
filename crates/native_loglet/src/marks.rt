//! What a loglet has told and counted.
ghost use Rattle.std.specs.Prelude.{◌≡◌, ◌+◌, ◌-◌, ◌^◌, ◌<◌, min, max, None};
ghost use Rattle.loglet_api.specs.Step.{cut_by, seals_of, told_reach, told_firm, told_cap, told_lacks};
ghost use Rattle.native_loglet.specs.Faults.{faults_after};

use loglet_api::call::{Answer, Op};

/// What a loglet has told and counted.
#[derive(Clone, Copy, Debug)]
pub struct Marks {
    /// Positions below it are trimmed.
    pub cut: u64,
    /// The greatest length that was answered as there for good.
    pub reach: u64,
    /// The greatest length that was answered in any way.
    pub firm: u64,
    /// The least sealed tail that was answered.
    pub cap: Option<u64>,
    /// How many operations were begun.
    pub begun: u64,
    /// How many of them are Seals.
    pub seals: u64,
    /// How many answers were `NoQuorum`.
    pub lacks: u64,
    /// How many faults came: failed disks, lost messages, and refusals as full; it stands still at
    /// 2^64 - 1.
    pub faults: u64,
}

impl Marks {
    /// Nothing was asked yet.
    pub fn new() -> Marks
        ensures { result ≡ record { cut = 0; reach = 0; firm = 0; cap = None; begun = 0; seals = 0; lacks = 0; faults = 0 } }
    {
        Marks {
            cut: 0,
            reach: 0,
            firm: 0,
            cap: None,
            begun: 0,
            seals: 0,
            lacks: 0,
            faults: 0,
        }
    }

    /// Once an operation is begun.
    pub fn begun(self, op: &Op) -> Marks
        requires begun { self.begun + 1 < 2 ^ 64 }
        requires seals { self.seals + 1 < 2 ^ 64 }
        ensures { result ≡ record self { cut = cut_by op.now self.cut self.reach; begun = self.begun + 1; seals = self.seals + seals_of op.now } }
    {
        Marks {
            cut: op.cut(self.cut, self.reach),
            begun: self.begun + 1,
            seals: self.seals + op.seals(),
            ..self
        }
    }

    /// Once a fault more came.
    pub fn failed(self) -> Marks
        ensures { result ≡ record self { faults = min (self.faults + 1) (2 ^ 64 - 1) } }
    {
        Marks {
            faults: self.faults.saturating_add(1),
            ..self
        }
    }

    /// Once a fault more came, or none.
    pub fn after(self, failed: bool) -> Marks
        ensures { result ≡ record self { faults = faults_after failed self.faults } }
    {
        if failed { self.failed() } else { self }
    }

    /// Once an answer is given to an operation that speaks of this length.
    pub fn told(self, answer: &Answer, length: u64) -> Marks
        requires reach { told_reach length answer.now < 2 ^ 64 }
        requires firm { told_firm length answer.now < 2 ^ 64 }
        requires lacks { self.lacks + 1 < 2 ^ 64 }
        ensures { result ≡ record self { reach = max self.reach (told_reach length answer.now); firm = max self.firm (told_firm length answer.now); cap = told_cap answer.now self.cap; lacks = self.lacks + told_lacks answer.now } }
    {
        Marks {
            reach: self.reach.max(answer.reach(length)),
            firm: self.firm.max(answer.firm(length)),
            cap: answer.cap(self.cap),
            lacks: self.lacks + answer.lacks(),
            ..self
        }
    }
}
