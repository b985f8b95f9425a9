//! What an operation heard and lost, and what it may come to by it.
ghost use Rattle.std.specs.Prelude.{◌≡◌, ℕ, ◌+◌, ◌^◌, ◌<◌, ◌≤◌, ◌∷◌, ◌++◌, [], length, OnOk, IfOk, None, Some, true, is_some, ◌&&◌, ◌||◌};
ghost use Rattle.std.specs.List.{list_any};
ghost use Rattle.majority_rule.specs.Majority.{is_majority, votes_below};
ghost use Rattle.quorum_cell.specs.Tallies.{open_to, open_within, open_at, says_sealed, sealed_within, sealed_at, mended_to, trimmed_to, open_told, sealed_told, mended_told, told_trim, told_entry_at, fails as fails_of, heard_from as heard_by, tries_lost as tries_of, lost_to as lost_by, unreached as unreached_by, lacks_quorum as lacks_by, may_give_up as may_give_up_by, may_decide as may_decide_by};
ghost use Rattle.quorum_cell.specs.Steps.{waits as waits_of, reached as reached_of, shown as shown_of, given_outcome as given_of, ask_read as ask_read_of};
ghost use Rattle.quorum_cell.specs.Cells.{is_seal};
ghost use Rattle.cell_steps.specs.Says.{says as says_of};

use crate::server::ServerState;
use majority_rule::majority::majority;
use quorum_cell::message::{Ask, Reply, Told};
use quorum_cell::operation::{Aim, Loss, Outcome};
use std::alloc::AllocError;
use std::marker::Model;

/// What can be asked of a reply.
#[derive(Clone, Copy)]
pub enum Says {
    /// Its server was open, and at least this long.
    OpenTo(u64),
    /// Its server was open, and at most this long.
    OpenWithin(u64),
    /// Its server was open, and this long.
    OpenAt(u64),
    /// Its server was sealed.
    Sealed,
    /// Its server was sealed, and at most this long.
    SealedWithin(u64),
    /// Its server was sealed, and this long.
    SealedAt(u64),
    /// Its server was sealed, and at least this long, after a repair too.
    MendedTo(u64),
    /// Its server has no entries below this place.
    TrimmedTo(u64),
    /// It gives the entry at this place.
    GivesEntry(u64),
    /// Its server was down, or its disk failed.
    Failed,
}

impl Says {
    fn of(self, reply: &Reply) -> bool
        ensures { result ≡ says_of self reply.now }
    {
        match self {
            Says::OpenTo(n) => open_length(reply).is_some_and(|length| n <= length),
            Says::OpenWithin(n) => open_length(reply).is_some_and(|length| length <= n),
            Says::OpenAt(n) => open_length(reply) == Some(n),
            Says::Sealed => sealed_length(reply).is_some(),
            Says::SealedWithin(n) => sealed_length(reply).is_some_and(|length| length <= n),
            Says::SealedAt(n) => sealed_length(reply) == Some(n),
            Says::MendedTo(n) => mended_length(reply).is_some_and(|length| n <= length),
            Says::TrimmedTo(n) => trimmed(reply, n),
            Says::GivesEntry(place) => gives_entry(reply, place),
            Says::Failed => matches!(reply.told, Told::Down | Told::DiskFault),
        }
    }
}

/// The length of a server that was open as it answered.
fn open_length(reply: &Reply) -> Option<u64>
    ensures { result ≡ open_told reply.now.ask reply.now.told }
{
    match (&reply.ask, &reply.told) {
        (_, Told::Unsealed(length)) | (Ask::Store(..), Told::Ack(length)) => Some(*length),
        _ => None,
    }
}

/// The length of a server that was sealed as it answered.
fn sealed_length(reply: &Reply) -> Option<u64>
    ensures { result ≡ sealed_told reply.now.told }
{
    match reply.told {
        Told::Sealed(length) => Some(length),
        _ => None,
    }
}

/// The same, where a repair is answered too.
fn mended_length(reply: &Reply) -> Option<u64>
    ensures { result ≡ mended_told reply.now.ask reply.now.told }
{
    match (&reply.ask, &reply.told) {
        (_, Told::Sealed(length)) | (Ask::Repair(..), Told::Ack(length)) => Some(*length),
        _ => None,
    }
}

fn trimmed(reply: &Reply, n: u64) -> bool
    ensures { result ≡ told_trim n reply.now.told }
{
    match reply.told {
        Told::Trimmed(base) => n <= base,
        _ => false,
    }
}

fn gives_entry(reply: &Reply, place: u64) -> bool
    ensures { result ≡ is_some (told_entry_at place reply.now.ask reply.now.told) }
{
    match (&reply.ask, &reply.told) {
        (Ask::Read(at), Told::Got(_)) => place == *at,
        _ => false,
    }
}

/// An operation on a cell, and how the cell was as it began.
#[derive(Drop)]
pub struct OperationState {
    pub aim: Aim,
    pub want: u64,
    pub heard: Vec<Reply>,
    pub lost: Vec<Loss>,
    pub servers_before: Vec<ServerState>,
    pub size_before: u64,
    pub reach_before: u64,
    pub firm_before: u64,
    pub faults_before: u64,
    pub decided: Option<Outcome>,
    pub given: Option<Outcome>,
    pub closed: bool,
}

impl Model for OperationState {
    ghost use Rattle.quorum_cell.specs.Cells.{Operation};

    ghost Value = { Operation };

    ghost view = { λ o. record {
      aim = o.aim;
      want = o.want;
      heard = o.heard.items;
      lost = o.lost.items;
      servers_before = o.servers_before.items;
      size_before = o.size_before;
      reach_before = o.reach_before;
      firm_before = o.firm_before;
      faults_before = o.faults_before;
      decided = o.decided;
      given = o.given;
      closed = o.closed;
    } };
}

impl Clone for OperationState {
    ghost is_clone = { λ x y. y ≡ x };

    fn clone(&self) -> Result<OperationState, AllocError> {
        let aim = self.aim.clone()?;
        let heard = self.heard.clone()?;
        let lost = self.lost.clone()?;
        let servers_before = self.servers_before.clone()?;
        Ok(OperationState {
            aim,
            want: self.want,
            heard,
            lost,
            servers_before,
            size_before: self.size_before,
            reach_before: self.reach_before,
            firm_before: self.firm_before,
            faults_before: self.faults_before,
            decided: self.decided,
            given: self.given,
            closed: self.closed,
        })
    }
}

impl OperationState {
    /// Whether it still waits for its outcome.
    pub fn waits(&self) -> bool
        ensures { result ≡ waits_of self.now }
    {
        !(self.closed || self.decided.is_some())
    }

    /// Whether a reply that came to it says this.
    pub fn any_says(&self, says: Says) -> bool
        ensures { result ≡ list_any (says_of says) self.now.heard }
    {
        self.heard.iter().any(|reply| says.of(reply))
    }

    /// Whether a reply of this server says this.
    fn heard_from(&self, says: Says, server: u32) -> bool
        ensures { result ≡ heard_by (says_of says) self.now server }
    {
        self.heard
            .iter()
            .any(|reply| reply.server == server && says.of(reply))
    }

    /// Whether replies of more than half of the `n` servers say this.
    #[tactic(auto, using(majority_rule::proofs::Majorities::votes_within))]
    fn majority_says(&self, n: u32, says: Says) -> bool
        ensures { result ≡ is_majority n (heard_by (says_of says) self.now) }
    {
        let mut votes = 0;
        for server in 0..n {
            if self.heard_from(says, server) {
                votes += 1;
            }
        }
        majority(n) <= votes
    }

    fn tries_lost(&self, message: u64) -> usize
        ensures { result ≡ tries_of self.now message }
    {
        self.lost
            .iter()
            .filter(|loss| loss.message == message)
            .count()
    }

    /// Whether a message to this server was lost 8 times.
    fn lost_to(&self, server: u32) -> bool
        ensures { result ≡ lost_by self.now server }
    {
        self.lost.iter().any(|loss| loss.server == server && 8 <= self.tries_lost(loss.message))
    }

    fn unreached(&self, server: u32) -> bool
        ensures { result ≡ unreached_by self.now server }
    {
        self.heard_from(Says::Failed, server) || self.lost_to(server)
    }

    /// How many of the `n` servers it gives up.
    #[tactic(auto, using(majority_rule::proofs::Majorities::votes_within))]
    fn unreached_of(&self, n: u32) -> u32
        ensures { result ≡ votes_below n (unreached_by self.now) }
    {
        let mut votes = 0;
        for server in 0..n {
            if self.unreached(server) {
                votes += 1;
            }
        }
        votes
    }

    fn lacks_quorum(&self, n: u32, unreached: u32) -> bool
        ensures { result ≡ lacks_by n self.now unreached }
    {
        majority(n) <= unreached && unreached == self.unreached_of(n)
    }

    fn may_give_up(&self, n: u32, unreached: u32) -> bool
        ensures { result ≡ may_give_up_by n self.now self.now.aim unreached }
    {
        match self.aim {
            Aim::Read(place) => place < self.firm_before && self.lacks_quorum(n, unreached),
            _ => self.lacks_quorum(n, unreached),
        }
    }

    /// Whether it may come to this, in a cell of `n` servers with this cut.
    pub fn may_decide(&self, n: u32, cut: u64, outcome: Outcome) -> bool
        ensures { result ≡ may_decide_by n cut self.now self.now.aim outcome }
    {
        match (&self.aim, outcome) {
            (_, Outcome::NoQuorum(unreached)) => self.may_give_up(n, unreached),
            (Aim::Append(_), Outcome::Reached) => self.is_reached(n),
            (Aim::Settle(_), Outcome::Reached) => self.is_reached(n),
            (Aim::Append(_), Outcome::Shut) => self.is_shut(n),
            (Aim::Settle(_), Outcome::Shut) => self.is_shut(n),
            (Aim::Seal, Outcome::Shut) => self.is_shut(n),
            (Aim::Tail, Outcome::OpenTail(tail)) => self.is_open_tail(n, tail),
            (Aim::Tail, Outcome::SealedTail(tail)) => self.is_sealed_tail(n, tail),
            (Aim::Read(place), Outcome::Found) => {
                *place < self.firm_before && self.any_says(Says::GivesEntry(*place))
            }
            (Aim::Read(place), Outcome::Gone) => *place < cut,
            (Aim::Read(place), Outcome::Beyond) => self.firm_before <= *place,
            (Aim::Trim(_), Outcome::TrimDone) => self.is_trimmed(n),
            _ => false,
        }
    }

    /// More than half acknowledged the length that it waits for.
    fn is_reached(&self, n: u32) -> bool
        ensures { result ≡ is_majority n (heard_by (open_to self.now.want) self.now) }
    {
        self.majority_says(n, Says::OpenTo(self.want))
    }

    /// More than half were sealed.
    fn is_shut(&self, n: u32) -> bool
        ensures { result ≡ is_majority n (heard_by says_sealed self.now) }
    {
        self.majority_says(n, Says::Sealed)
    }

    /// More than half let go up to its cut.
    fn is_trimmed(&self, n: u32) -> bool
        ensures { result ≡ is_majority n (heard_by (trimmed_to self.now.want) self.now) }
    {
        self.majority_says(n, Says::TrimmedTo(self.want))
    }

    /// The greatest length that some majority told while open, and to which a majority is brought.
    fn is_open_tail(&self, n: u32, tail: u64) -> bool
        ensures { result ≡ (is_majority n (heard_by (open_within tail) self.now) && is_majority n (heard_by (open_to tail) self.now) && list_any (open_at tail) self.now.heard) }
    {
        self.majority_says(n, Says::OpenWithin(tail))
            && self.majority_says(n, Says::OpenTo(tail))
            && self.any_says(Says::OpenAt(tail))
    }

    /// The greatest length that some majority told while sealed, up to which a majority is
    /// repaired.
    fn is_sealed_tail(&self, n: u32, tail: u64) -> bool
        ensures { result ≡ (is_majority n (heard_by (sealed_within tail) self.now) && is_majority n (heard_by (mended_to tail) self.now) && list_any (sealed_at tail) self.now.heard) }
    {
        self.majority_says(n, Says::SealedWithin(tail))
            && self.majority_says(n, Says::MendedTo(tail))
            && self.any_says(Says::SealedAt(tail))
    }

    /// The length that an outcome shows to be there for good.
    pub fn reached(&self, outcome: Outcome) -> u64
        ensures { result ≡ reached_of self.now outcome }
    {
        match outcome {
            Outcome::Reached => self.want,
            Outcome::OpenTail(tail) => tail,
            _ => 0,
        }
    }

    /// The length that it speaks of in any way.
    pub fn shown(&self, outcome: Outcome) -> u64
        ensures { result ≡ shown_of self.now outcome }
    {
        match outcome {
            Outcome::SealedTail(tail) => tail,
            _ => self.reached(outcome),
        }
    }

    /// What its client is given, under this cut.
    pub fn given_outcome(&self, cut: u64, outcome: Outcome) -> Outcome
        ensures { result ≡ given_of cut self.now.aim outcome }
    {
        match self.aim {
            Aim::Read(place) if place < cut => Outcome::Gone,
            _ => outcome,
        }
    }

    /// A reply comes to it.
    pub fn hear(&mut self, reply: Reply) -> Result<(), AllocError>
        ensures { OnOk result (self.new ≡ record self.old { heard = self.old.heard ++ reply ∷ [] }) }
    {
        self.heard.push(reply)?;
        Ok(())
    }

    /// A try of one of its messages is lost.
    pub fn lose(&mut self, loss: Loss) -> Result<(), AllocError>
        ensures { OnOk result (self.new ≡ record self.old { lost = self.old.lost ++ loss ∷ [] }) }
    {
        self.lost.push(loss)?;
        Ok(())
    }

    pub fn decided(&self) -> Option<Outcome>
        ensures { result ≡ self.now.decided }
    {
        self.decided
    }

    /// It comes to this.
    pub fn decide(&mut self, outcome: Outcome)
        ensures { self.new ≡ record self.old { decided = Some outcome } }
    {
        self.decided = Some(outcome);
    }

    /// Its outcome is given to its client, under this cut, and it is closed.
    pub fn give(&mut self, cut: u64, outcome: Outcome)
        ensures { self.new ≡ record self.old { given = Some (given_of cut self.old.aim outcome); closed = true } }
    {
        self.given = Some(self.given_outcome(cut, outcome));
        self.closed = true;
    }

    pub fn close(&mut self)
        ensures { self.new ≡ record self.old { closed = true } }
    {
        self.closed = true;
    }

    /// Only a seal, or an operation that heard of a sealed server, seals.
    pub fn may_seal(&self) -> bool
        ensures { result ≡ (is_seal self.now.aim || list_any says_sealed self.now.heard) }
    {
        matches!(self.aim, Aim::Seal) || self.any_says(Says::Sealed)
    }

    /// What a read asks.
    pub fn ask_read(&self) -> Option<Ask>
        ensures { result ≡ ask_read_of self.now.aim }
    {
        match self.aim {
            Aim::Read(place) => Some(Ask::Read(place)),
            _ => None,
        }
    }
}
