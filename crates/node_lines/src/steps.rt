//! A node's calls, with what they keep of all its sessions. A fault of the log or the disk isn't an error here: it gives its
//! cause to sessions, or is answered. The one error is want of memory.
ghost use Rattle.std.specs.Prelude.{◌≡◌, ◌⊎◌, ◌≤◌, ◌+◌, ℕ, List, [], ◌∷◌, ◌++◌, length, IfOk, OnOk, None, Some};
ghost use Rattle.delos_types.specs.declared.entry.Entry.{Entry};
ghost use Rattle.legal_journal.specs.Journal.{IsLegal};
ghost use Rattle.virtual_log.specs.Turning.{IsAbove};
ghost use Rattle.engine_api.specs.Items.{content_of};
ghost use Rattle.engine_api.specs.Packing.{IsProposable, packed};
ghost use Rattle.base_engine.specs.Following.{Follows, IsAt, EndsBy};
ghost use Rattle.virtual_log.specs.Holding.{Holds};
ghost use Rattle.replica_api.specs.Replica.{Flushes};
ghost use Rattle.base_engine.specs.Proposing.{Sent, IsNear};
ghost use Rattle.node_lines.specs.UnderWay.{rank_under};
ghost use Rattle.node_lines.specs.Moving.{Moves, HandsIn, CanPack, failure_of};

use base_engine::fault::Fault;
use base_engine::node::Node;
use delos_types::cause::Cause;
use delos_types::item::Item;
use fate_words::chooser::Chooser;
use legal_journal::rules::Rules;
use legal_journal::turns::Turns;
use replica_api::replica::Replica;
use std::alloc::AllocError;
use virtual_log::log::VirtualLog;

/// Whether a node's state is that at a tail.
#[derive(Clone, Copy, PartialEq, Eq, Debug)]
pub enum Synced {
    /// It is: at this tail.
    At(u64),
    /// The log or the disk failed so.
    Failed(Cause),
}

/// What waits is packed, and is outstanding then.
pub fn pack<T: Turns, C: Chooser, R: Replica>(
    node: &mut Node<VirtualLog<T, C>, R>,
) -> Result<(), AllocError>
    requires floor { (log : List Entry) (n : ℕ) → T.Law.law.floor log n → n ≤ length log }
    requires kept { CanPack node.old.replica.kept }
    ensures moves { OnOk result (Moves T.Law.law node.old node.new []) }
    ensures kept { OnOk result (node.new.replica.kept ≡ []) }
    ensures replica { OnOk result (node.new.replica ≡ record node.old.replica { kept = [] }) }
    ensures sent { OnOk result (Sent Holds node.old.who node.old.seen node.old.outbox (λ packed. Flushes node.old.replica.origin node.old.replica.kept packed node.new.replica.kept) node.new.seen node.new.outbox) }
{
    node.flush()?;
    Ok(())
}

/// Carries all that is outstanding to its end.
pub fn settle<T: Turns, C: Chooser, R: Replica>(
    node: &mut Node<VirtualLog<T, C>, R>,
) -> Result<(), AllocError>
    requires floor { (log : List Entry) (n : ℕ) → T.Law.law.floor log n → n ≤ length log }
    ensures moves { OnOk result (Moves T.Law.law node.old node.new []) }
    ensures none { OnOk result (node.new.outbox.entries ≡ []) }
    ensures unsettled { OnOk result (node.new.outbox.unsettled ≡ None) }
    ensures replica { node.new.replica ≡ node.old.replica }
{
    match node.settle_all() {
        Ok(()) => Ok(()),
        Err(Fault::Because(_)) => Ok(()),
        Err(Fault::Memory) => Err(AllocError),
    }
}

/// Finds a tail of the log, and plays up to it.
pub fn sync<T: Turns, C: Chooser, R: Replica>(
    node: &mut Node<VirtualLog<T, C>, R>,
) -> Result<Synced, AllocError>
    requires floor { (log : List Entry) (n : ℕ) → T.Law.law.floor log n → n ≤ length log }
    ensures moves { IfOk result (λ s. Moves T.Law.law node.old node.new (failure_of s)) }
    ensures tail { IfOk result (λ s. (tail : ℕ) → s ≡ Synced.At tail → IsAbove node.old.who node.old.seen tail node.new.seen × IsAt tail node.new.replica node.new.seen) }

    // The log ends there, where no event of another came meanwhile and nothing was trimmed that wasn't played.
    ensures exact { IfOk result (λ s. (tail : ℕ) → s ≡ Synced.At tail → EndsBy node.old.who node.old.replica.cursor node.old.seen tail node.new.seen) }
    ensures follows { Follows Holds R.meaning node.new.seen node.new.replica }
    ensures kept { node.new.replica.kept ≡ node.old.replica.kept }
    ensures outbox { node.new.outbox ≡ node.old.outbox }
{
    match node.sync() {
        Ok(tail) => Ok(Synced::At(tail)),
        Err(Fault::Because(cause)) => Ok(Synced::Failed(cause)),
        Err(Fault::Memory) => Err(AllocError),
    }
}

/// The session's next command goes down. It is at most 64 above the last of the session that acted, so nothing is played.
pub fn hand_in<T: Turns, C: Chooser, R: Replica>(
    node: &mut Node<VirtualLog<T, C>, R>,
    item: Item,
) -> Result<(), AllocError>
    requires floor { (log : List Entry) (n : ℕ) → T.Law.law.floor log n → n ≤ length log }
    requires kept { CanPack node.old.replica.kept }
    requires item { IsProposable item }
    requires near { IsNear node.old.replica.contents item }
    requires own { T.Law.law.may node.old.who (packed node.old.replica.origin (node.old.replica.kept ++ item ∷ [])) }
    ensures hands { OnOk result ((s sent : ℕ) → rank_under s (content_of item) ≡ Some (sent + 1) → HandsIn T.Law.law node.old node.new s sent) }
    ensures replica { OnOk result (node.new.replica ≡ record node.old.replica { kept = node.new.replica.kept }) }
    ensures kept { OnOk result ((node.new.replica.kept ≡ node.old.replica.kept ++ item ∷ []) ⊎ (node.new.replica.kept ≡ [])) }
    ensures follows { Follows Holds R.meaning node.new.seen node.new.replica }
{
    match node.propose(item) {
        Ok(()) => Ok(()),
        Err(Fault::Because(_)) => Err(AllocError),
        Err(Fault::Memory) => Err(AllocError),
    }
}
