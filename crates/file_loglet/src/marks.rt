//! What a loglet has told and counted.
ghost use Rattle.std.specs.Prelude.{◌≡◌, ◌+◌, ◌-◌, ◌^◌, ◌<◌, max, None};
ghost use Rattle.loglet_api.specs.Step.{bumped, cut_by, seals_of, told_reach, told_firm, told_cap, told_lacks};

use loglet_api::call::{Answer, Op};

/// The word of the last carry or stray that was done, and how often each call was made that goes to the server. A count
/// stands still at 2^64 - 1.
#[derive(Clone, Copy, Debug)]
pub struct Asked {
    pub told: u64,
    pub carries: u64,
    pub strays: u64,
    pub stops: u64,
    pub restarts: u64,
}

/// What a loglet has told and counted.
#[derive(Clone, Copy, Debug)]
pub struct Marks {
    /// Positions below it are trimmed.
    pub cut: u64,
    /// The greatest length that was answered as there for good.
    pub reach: u64,
    /// The greatest length that was answered in any way.
    pub firm: u64,
    /// The least sealed tail that was answered.
    pub cap: Option<u64>,
    /// How many operations were begun.
    pub begun: u64,
    /// How many of them are Seals.
    pub seals: u64,
    /// How many answers were `NoQuorum`.
    pub lacks: u64,
    /// How many operations were refused as `Full`; it stands still at 2^64 - 1.
    pub refusals: u64,
    /// What was asked of the server.
    pub asked: Asked,
}

impl Marks {
    /// Nothing was asked yet.
    pub fn new() -> Marks
        ensures { result ≡ record { cut = 0; reach = 0; firm = 0; cap = None; begun = 0; seals = 0; lacks = 0; refusals = 0; asked = record { told = 0; carries = 0; strays = 0; stops = 0; restarts = 0 } } }
    {
        Marks {
            cut: 0,
            reach: 0,
            firm: 0,
            cap: None,
            begun: 0,
            seals: 0,
            lacks: 0,
            refusals: 0,
            asked: Asked {
                told: 0,
                carries: 0,
                strays: 0,
                stops: 0,
                restarts: 0,
            },
        }
    }

    /// Once an operation is begun.
    pub fn begun(self, op: &Op) -> Marks
        requires begun { self.begun + 1 < 2 ^ 64 }
        requires seals { self.seals + 1 < 2 ^ 64 }
        ensures { result ≡ record self { cut = cut_by op.now self.cut self.reach; begun = self.begun + 1; seals = self.seals + seals_of op.now } }
    {
        Marks {
            cut: op.cut(self.cut, self.reach),
            begun: self.begun + 1,
            seals: self.seals + op.seals(),
            ..self
        }
    }

    /// Once an operation is refused as full.
    pub fn refused(self) -> Marks
        ensures { result ≡ record self { refusals = bumped self.refusals } }
    {
        Marks {
            refusals: self.refusals.saturating_add(1),
            ..self
        }
    }

    /// Once an operation was carried by this word.
    pub fn carried(self, word: u64) -> Marks
        ensures { result ≡ record self { asked = record self.asked { told = word; carries = bumped self.asked.carries } } }
    {
        Marks {
            asked: Asked {
                told: word,
                carries: self.asked.carries.saturating_add(1),
                ..self.asked
            },
            ..self
        }
    }

    /// Once a message was to go again by this word.
    pub fn strayed(self, word: u64) -> Marks
        ensures { result ≡ record self { asked = record self.asked { told = word; strays = bumped self.asked.strays } } }
    {
        Marks {
            asked: Asked {
                told: word,
                strays: self.asked.strays.saturating_add(1),
                ..self.asked
            },
            ..self
        }
    }

    /// Once the server was to stop.
    pub fn stopped(self) -> Marks
        ensures { result ≡ record self { asked = record self.asked { stops = bumped self.asked.stops } } }
    {
        Marks {
            asked: Asked {
                stops: self.asked.stops.saturating_add(1),
                ..self.asked
            },
            ..self
        }
    }

    /// Once a restart was answered, whether the server came up or not.
    pub fn restarted(self) -> Marks
        ensures { result ≡ record self { asked = record self.asked { restarts = bumped self.asked.restarts } } }
    {
        Marks {
            asked: Asked {
                restarts: self.asked.restarts.saturating_add(1),
                ..self.asked
            },
            ..self
        }
    }

    /// Once an answer is given to an operation that speaks of this length.
    pub fn told(self, answer: &Answer, length: u64) -> Marks
        requires reach { told_reach length answer.now < 2 ^ 64 }
        requires firm { told_firm length answer.now < 2 ^ 64 }
        requires lacks { self.lacks + 1 < 2 ^ 64 }
        ensures { result ≡ record self { reach = max self.reach (told_reach length answer.now); firm = max self.firm (told_firm length answer.now); cap = told_cap answer.now self.cap; lacks = self.lacks + told_lacks answer.now } }
    {
        Marks {
            reach: self.reach.max(answer.reach(length)),
            firm: self.firm.max(answer.firm(length)),
            cap: answer.cap(self.cap),
            lacks: self.lacks + answer.lacks(),
            ..self
        }
    }
}
