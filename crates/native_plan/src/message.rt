//! What operations send to servers.
ghost use Rattle.std.specs.Prelude.{◌≡◌};
ghost use Rattle.native_plan.specs.Members.{due_of};

use quorum_cell::message::Told;

/// What a server is asked, without the entry, which stands in the loglet's log.
#[derive(Clone, Copy, PartialEq, Eq, Debug)]
pub enum Errand {
    /// To take the entry at this position, unless it is sealed.
    Store(u64),
    /// To take no more stores.
    Seal,
    /// How long its log is.
    Tail,
    /// To take the entry at this position, if it is sealed.
    Repair(u64),
    /// The entry at this position.
    Read(u64),
    /// To let go of what is below the loglet's cut.
    Trim,
}

impl Errand {
    /// What a server is asked under this cut of the loglet: below it there are no entries any more, and a
    /// server that is to take one lets go first.
    pub fn due(self, cut: u64) -> Errand
        ensures { result ≡ due_of cut self }
    {
        match self {
            Errand::Store(place) => { if place < cut { Errand::Trim } else { self } }
            Errand::Repair(place) => { if place < cut { Errand::Trim } else { self } }
            errand => errand,
        }
    }
}

/// A message on its way: the request, or the server's answer to it.
#[derive(Drop)]
pub enum Message {
    Asked(Errand),
    Told(Errand, Told),
}

/// How far an operation is.
#[derive(Clone, Copy, PartialEq, Eq, Debug)]
pub enum Phase {
    /// An Append or a Settle brings servers to its length.
    Filling,
    /// A Tail asks the servers for their lengths.
    Asking,
    /// A Tail has this length from servers that aren't sealed, and brings a majority to it.
    Opening(u64),
    /// An Append, a Settle or a Seal seals servers, and ends so.
    Shutting,
    /// A Tail met a sealed server, and seals the others.
    Sealing,
    /// A Tail has this length from sealed servers, and brings a majority to it.
    Mending(u64),
    /// A Read asks this server.
    Reading(u64),
    /// A Trim lets servers let go of entries.
    Trimming,
}

/// What a message does next.
#[derive(Clone, Copy, PartialEq, Eq, Debug)]
pub enum Turn {
    /// The request comes to its server.
    Asks(Errand),
    /// The answer comes to its operation.
    Tells,
    /// There is none.
    Rests,
}
