//! What a node has sent down and not settled.
ghost use Rattle.std.specs.Prelude.{◌≡◌};
ghost use Rattle.base_engine.specs.Settling.{has_session, cause_in};

use delos_types::cause::Cause;
use delos_types::entry::Entry;
use delos_types::numbers::SessionId;
use std::alloc::{AllocError, Global};
use std::marker::Model;

/// Some sessions.
#[derive(Drop)]
pub struct SessionList {
    items: Vec<SessionId>,
}

impl Model for SessionList {
    ghost use Rattle.std.specs.Prelude.{List, ℕ};

    ghost Value = { List ℕ };

    ghost view = { λ s. s.items.items };
}

impl SessionList {
    ghost use Rattle.std.specs.Prelude.{◌≡◌, [], ◌++◌, ◌∷◌, OnOk, OnErr};

    /// No session, which takes no memory.
    pub fn new(alloc: Global) -> SessionList
        ensures { result ≡ [] }
    {
        SessionList {
            items: Vec::new(alloc),
        }
    }

    /// Adds a session at the end.
    pub fn push(&mut self, session: SessionId) -> Result<(), AllocError>
        ensures ok { OnOk result (self.new ≡ self.old ++ session ∷ []) }
        ensures err { OnErr result (self.new ≡ self.old) }
    {
        self.items.push(session)?;
        Ok(())
    }

    pub fn as_slice(&self) -> &[SessionId]
        ensures { result.now ≡ self.now }
    {
        self.items.as_slice()
    }
}

/// A cause, and the sessions to which it was given.
#[derive(Drop)]
pub struct Given {
    pub sessions: SessionList,
    pub cause: Cause,
}

/// The entries that aren't settled, at most 4, and the causes of those that failed.
#[derive(Drop)]
pub struct Outbox {
    /// In the order in which they came down.
    pub entries: Vec<Entry>,
    /// The causes that were given in this phase, in order.
    pub given: Vec<Given>,
    /// The first cause since the last settling.
    pub unsettled: Option<Cause>,
}

/// The first cause that a session was given. It looks through the entries that failed in this phase.
pub fn cause_of(given: &[Given], session: SessionId) -> Option<Cause>
    ensures { result ≡ cause_in session given.now }
{
    match given {
        [] => None,
        [first, rest @ ..] => {
            if is_among(first.sessions.as_slice(), session) {
                Some(first.cause)
            } else {
                cause_of(rest, session)
            }
        }
    }
}

fn is_among(sessions: &[SessionId], session: SessionId) -> bool
    ensures { result ≡ has_session session sessions.now }
{
    match sessions {
        [] => false,
        [first, rest @ ..] => {
            if first.number() == session.number() {
                true
            } else {
                is_among(rest, session)
            }
        }
    }
}
