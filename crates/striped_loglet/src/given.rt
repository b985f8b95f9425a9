//! What a loglet was given.
ghost use Rattle.std.specs.Prelude.{◌≡◌};
ghost use Rattle.loglet_api.specs.Step.{bumped};

/// The word that the last carry or stray was given, and how many carries and strays there were: they stand
/// still at 2^64 - 1.
#[derive(Clone, Copy)]
pub struct Given {
    pub told: u64,
    pub carries: u64,
    pub strays: u64,
}

impl Given {
    /// Nothing was given yet.
    pub fn new() -> Given
        ensures { result ≡ record { told = 0; carries = 0; strays = 0 } }
    {
        Given {
            told: 0,
            carries: 0,
            strays: 0,
        }
    }

    /// Once a carry was given this word.
    pub fn carried(self, word: u64) -> Given
        ensures { result ≡ record self { told = word; carries = bumped self.carries } }
    {
        Given {
            told: word,
            carries: self.carries.saturating_add(1),
            ..self
        }
    }

    /// Once a stray was given this word.
    pub fn strayed(self, word: u64) -> Given
        ensures { result ≡ record self { told = word; strays = bumped self.strays } }
    {
        Given {
            told: word,
            strays: self.strays.saturating_add(1),
            ..self
        }
    }
}
