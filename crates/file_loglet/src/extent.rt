//! How far a server has got, and how its records change that.
ghost use Rattle.std.specs.Prelude.{◌≡◌, ◌+◌, ◌^◌, ◌<◌, Some};
ghost use Rattle.file_loglet.specs.Extents.{extent_after, extent_restarted};

/// How a record changes a server.
#[derive(Clone, Copy, Debug)]
pub enum Change {
    /// It has one entry more.
    Storing,
    /// It is sealed.
    Sealing,
    /// The entries below this position are let go.
    Trimming(u64),
}

/// How far a server has got.
#[derive(Clone, Copy, Debug)]
pub struct Extent {
    /// The entries below this position are let go.
    pub base: u64,
    /// How many entries there are, let go ones included.
    pub length: u64,
    pub sealed: bool,
}

impl Extent {
    /// How far it is after a change.
    pub fn after(self, change: Change) -> Extent
        requires { change ≡ Change.Storing → self.length + 1 < 2 ^ 64 }
        ensures { result ≡ extent_after self change }
    {
        match change {
            Change::Storing => Extent {
                length: self.length + 1,
                ..self
            },
            Change::Sealing => Extent {
                sealed: true,
                ..self
            },
            Change::Trimming(base) => Extent { base, ..self },
        }
    }

    /// How far it is after a restart that found the torn change done or not.
    pub fn restarted(self, kept: bool, torn: Option<Change>) -> Extent
        requires { torn ≡ Some Change.Storing → self.length + 1 < 2 ^ 64 }
        ensures { result ≡ extent_restarted self kept torn }
    {
        match torn {
            Some(change) if kept => self.after(change),
            _ => self,
        }
    }
}
