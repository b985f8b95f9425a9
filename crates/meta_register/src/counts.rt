//! What a register counts.
ghost use Rattle.std.specs.Prelude.{◌≡◌};
ghost use Rattle.register_api.specs.View.{bumped};

/// How often each of these came. A count stands still at 2^64 - 1.
#[derive(Clone, Copy)]
pub(crate) struct Counts {
    /// Answers that it was down.
    pub(crate) downs: u64,
    /// Reopenings that failed.
    pub(crate) misses: u64,
    /// Stops that were asked for.
    pub(crate) stops: u64,
    /// Reopenings that were asked for, and had memory.
    pub(crate) reopenings: u64,
}

impl Counts {
    /// Nothing came yet.
    pub(crate) const NONE: Counts = Counts {
        downs: 0,
        misses: 0,
        stops: 0,
        reopenings: 0,
    };

    /// It answered that it was down.
    pub(crate) fn with_down(self) -> Counts
        ensures { result ≡ record self { downs = bumped self.downs } }
    {
        Counts {
            downs: self.downs.saturating_add(1),
            ..self
        }
    }

    /// A stop was asked for.
    pub(crate) fn with_stop(self) -> Counts
        ensures { result ≡ record self { stops = bumped self.stops } }
    {
        Counts {
            stops: self.stops.saturating_add(1),
            ..self
        }
    }

    /// It was reopened.
    pub(crate) fn with_reopening(self) -> Counts
        ensures { result ≡ record self { reopenings = bumped self.reopenings } }
    {
        Counts {
            reopenings: self.reopenings.saturating_add(1),
            ..self
        }
    }

    /// A reopening failed.
    pub(crate) fn with_miss(self) -> Counts
        ensures { result ≡ record self { misses = bumped self.misses; reopenings = bumped self.reopenings } }
    {
        Counts {
            misses: self.misses.saturating_add(1),
            reopenings: self.reopenings.saturating_add(1),
            ..self
        }
    }
}
