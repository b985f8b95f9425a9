//! What is kept of a session as its node plays its lines.
ghost use Rattle.std.specs.Prelude.{◌≡◌, ◌≤◌, ◌+◌, ℕ, length, OnOk};
ghost use Rattle.delos_types.specs.declared.entry.Entry.{Entry};
ghost use Rattle.legal_journal.specs.Journal.{IsLegal};
ghost use Rattle.node_lines.specs.Answered.{AreAnswers, AreAllAnswers, InFront};
ghost use Rattle.node_lines.specs.UnderWay.{HasRank};

use base_engine::node::Node;
use delos_types::cause::Cause;
use delos_types::numbers::{Rank, SessionId};
use engine_steps::layout::Kept;
use fate_words::chooser::Chooser;
use legal_journal::rules::Rules;
use legal_journal::turns::Turns;
use replica_api::replica::Replica;
use std::alloc::AllocError;
use virtual_log::log::VirtualLog;

/// A session of a node.
#[derive(Drop)]
pub struct Desk {
    pub session: SessionId,
    /// How many of its lines were to be logged, so far.
    pub asked: u64,
    /// How many of their commands its node was given.
    pub sent: u64,
    /// Where its first commands acted, and what they were answered, in order of rank.
    pub answers: Vec<Kept>,
    /// Why its lines aren't tried any more.
    pub stopped: Option<Cause>,
    /// Where it was stopped, how many of its commands were answered by the end of that phase.
    pub answered: Option<u64>,
}

/// Takes the answers of the session's commands that have acted in what its node has applied. The node keeps the last 64 of
/// a session, and there are no more of them.
///
/// Cost: one look at the store for each of them, and one more.
pub fn collect<T: Turns, C: Chooser, R: Replica>(
    node: &Node<VirtualLog<T, C>, R>,
    desk: &mut Desk,
) -> Result<(), AllocError>
    requires legal { IsLegal T.Law.law node.now.seen }
    requires session { desk.old.session ≤ 63 }
    requires sent { (who : ℕ) (e : Entry) (r : ℕ) → T.Law.law.may who e → HasRank desk.old.session r e → r ≤ desk.old.sent }
    requires near { desk.old.sent ≤ length desk.old.answers.items + 64 }
    requires acted { InFront node.now.seen node.now.replica.cursor (λ log. AreAnswers log desk.old.session desk.old.answers.items) }
    ensures rest { desk.new ≡ record desk.old { answers = desk.new.answers } }
    ensures acted { OnOk result (InFront node.now.seen node.now.replica.cursor (λ log. AreAllAnswers log desk.old.session desk.new.answers.items)) }
{
    'rank: loop {
        let count = desk.answers.len() as u64;
        let Some(rank) = Rank::new(count + 1) else {
            unreachable!()
        };
        match node.reply_of(desk.session, rank)? {
            Some(kept) => desk.answers.push(kept)?,
            None => return Ok(()),
        }
    }
}
