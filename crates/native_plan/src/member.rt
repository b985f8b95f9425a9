//! What an operation knows of one server.
ghost use Rattle.std.specs.Prelude.{◌≡◌, ◌+◌, ◌^◌, ◌<◌, ◌≤◌, Some};
ghost use Rattle.native_plan.specs.Members.{new_member, is_out, is_opened, is_opened_to, is_found_sealed, is_mended_to, is_passed, is_unreached, opened_of, sealed_of, heard_by, noted, acknowledged, got_of, turn_of, left_to, more_after, most_tries, tried};
ghost use Rattle.quorum_cell.specs.declared.message.Told as told;
ghost use Rattle.native_plan.specs.declared.message.Errand as errand;

use crate::message::{Errand, Message, Turn};
use delos_types::entry::Entry;
use quorum_cell::message::Told;

/// How much is left to do for each position: two messages and what follows them.
const STEP: u64 = 40;

/// How many tries of one message may be lost: with the last its server is given up.
const MOST_TRIES: u64 = 8;

/// What an operation knows of one server, and the one message that it has on its way to or from it.
#[derive(Drop)]
pub struct Member {
    /// The greatest length at which the server is known to be.
    pub at: u64,
    /// A length that the server told while it wasn't sealed.
    pub opened: Option<u64>,
    /// A length that it told while it was sealed.
    pub sealed: Option<u64>,
    /// It let go of what a Trim asked, or doesn't have the entry that a Read asked for.
    pub passed: bool,
    /// It was down, its disk failed, or a message was lost 8 times.
    pub unreached: bool,
    /// How often the message on its way was lost.
    pub losses: u64,
    pub message: Option<Message>,
}

impl Member {
    /// Nothing is known of it but that it is this long.
    pub fn new(at: u64) -> Member
        ensures { result ≡ new_member at }
    {
        Member {
            at,
            opened: None,
            sealed: None,
            passed: false,
            unreached: false,
            losses: 0,
            message: None,
        }
    }

    /// A message is on its way.
    pub fn is_out(&self) -> bool
        ensures { result ≡ is_out self.now }
    {
        self.message.is_some()
    }

    pub fn is_opened(&self) -> bool
        ensures { result ≡ is_opened self.now }
    {
        self.opened.is_some()
    }

    /// It told a length of at least `length` while it wasn't sealed.
    pub fn is_opened_to(&self, length: u64) -> bool
        ensures { result ≡ is_opened_to length self.now }
    {
        match self.opened {
            Some(opened) => length <= opened,
            None => false,
        }
    }

    pub fn is_found_sealed(&self) -> bool
        ensures { result ≡ is_found_sealed self.now }
    {
        self.sealed.is_some()
    }

    /// It is sealed, and at least `length` long.
    pub fn is_mended_to(&self, length: u64) -> bool
        ensures { result ≡ is_mended_to length self.now }
    {
        self.sealed.is_some() && length <= self.at
    }

    /// The length that it told while it wasn't sealed; 0 where it told none.
    pub fn opened_length(&self) -> u64
        ensures { result ≡ opened_of self.now }
    {
        self.opened.unwrap_or(0)
    }

    /// The length that it told while it was sealed; 0 where it told none.
    pub fn sealed_length(&self) -> u64
        ensures { result ≡ sealed_of self.now }
    {
        self.sealed.unwrap_or(0)
    }

    /// The answer that is on its way comes to an operation that wants this length. It may give an
    /// entry.
    pub fn hear(&mut self, want: u64) -> Option<Entry>
        ensures heard { (e : errand.Errand) (told : told.Told) → self.old.message ≡ Some (Message.Told e told) → (self.new ≡ heard_by want e told self.old) × (result ≡ got_of told) }
    {
        match self.message.take() {
            Some(Message::Told(errand, told)) => self.note(want, errand, told),
            _ => None,
        }
    }

    fn note(&mut self, want: u64, errand: Errand, told: Told) -> Option<Entry>
        ensures noted { self.new ≡ noted want errand told self.old }
        ensures got { result ≡ got_of told }
    {
        match told {
            Told::Down => {
                self.unreached = true;
                None
            }
            Told::DiskFault => {
                self.unreached = true;
                None
            }
            Told::Sealed(length) => {
                self.sealed = Some(length);
                self.at = self.at.max(length);
                None
            }
            Told::Unsealed(length) => {
                self.opened = Some(length);
                self.at = self.at.max(length);
                None
            }
            Told::Ack(length) => {
                self.acknowledge(errand, length);
                None
            }
            Told::Trimmed(base) => {
                // It is to say anew whether it is sealed: it has a length of which it hasn't told.
                self.passed = want <= base;
                self.at = self.at.max(base);
                self.sealed = None;
                None
            }
            Told::Short(_) => {
                self.passed = true;
                None
            }
            Told::Got(entry) => Some(entry),
            Told::Behind(_) => None,
            Told::Cut(_) => None,
        }
    }

    fn acknowledge(&mut self, errand: Errand, length: u64)
        ensures { self.new ≡ acknowledged errand length self.old }
    {
        if let Errand::Store(_) = errand {
            self.opened = Some(length);
        }
        self.at = self.at.max(length);
    }

    /// What its message does next.
    pub fn turn(&self) -> Turn
        ensures { result ≡ turn_of self.now.message }
    {
        match &self.message {
            Some(Message::Asked(errand)) => Turn::Asks(*errand),
            Some(Message::Told(_, _)) => Turn::Tells,
            None => Turn::Rests,
        }
    }

    /// How much is left to do, at most, where it is to be brought below this length.
    pub fn left_to(&self, end: u64) -> u64
        requires { end ≤ 2 ^ 33 }
        ensures value { result ≡ left_to end self.now }
        ensures small { result < 2 ^ 53 }
    {
        let way = STEP * end.saturating_sub(self.at);
        match &self.message {
            None => 0,
            Some(Message::Asked(errand)) => (way + after(*errand) + 20).saturating_sub(self.losses),
            Some(Message::Told(errand, _)) => {
                (way + after(*errand) + 10).saturating_sub(self.losses)
            }
        }
    }

    /// Its message was lost once more: after `MOST_TRIES` times the server is given up.
    pub fn lose(&mut self)
        requires { self.old.losses < most_tries }
        ensures { self.new ≡ tried self.old }
    {
        self.losses += 1;
        if self.losses == MOST_TRIES {
            self.unreached = true;
            self.message = None;
        }
    }
}

/// What may follow the answer: a sealed server may be repaired.
fn after(errand: Errand) -> u64
    ensures { result ≡ more_after errand }
{
    match errand {
        Errand::Seal => 20,
        _ => 0,
    }
}
