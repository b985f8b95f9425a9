//! What a node reads off its state at a tail of the log: before it reports, leaves or asks for a trim.
ghost use Rattle.std.specs.Prelude.{◌≡◌, ◌≤◌, ℕ, List, length, IfOk};
ghost use Rattle.delos_types.specs.declared.entry.Entry.{Entry};
ghost use Rattle.legal_journal.specs.Journal.{IsLegal};
ghost use Rattle.engine_api.specs.Acted.{unpack_all};
ghost use Rattle.engine_api.specs.Members.{clean_position, least_position};
ghost use Rattle.node_lines.specs.Moving.{CanPack};
ghost use Rattle.node_lines.specs.Desks.{KeepsFrom};
ghost use Rattle.node_lines.specs.Measuring.{Measures};

use crate::steps::{Synced, pack, settle, sync};
use base_engine::node::Node;
use delos_types::cause::Cause;
use fate_words::chooser::Chooser;
use legal_journal::rules::Rules;
use legal_journal::turns::Turns;
use replica_api::replica::Replica;
use std::alloc::AllocError;
use virtual_log::log::VirtualLog;

/// What was read off a node's state at a tail.
#[derive(Clone, Copy, PartialEq, Eq, Debug)]
pub enum Measured {
    /// This position.
    At(u64),
    /// Nothing: the log or the disk failed so.
    Failed(Cause),
}

/// What waits is packed, all that is outstanding is carried to its end, and a tail is found and played to. Answers the tail.
///
/// Cost: that of a settling and of a sync.
fn catch_up<T: Turns, C: Chooser, R: Replica>(
    node: &mut Node<VirtualLog<T, C>, R>,
) -> Result<Measured, AllocError>
    requires floor { (log : List Entry) (n : ℕ) → T.Law.law.floor log n → n ≤ length log }
    requires legal { IsLegal T.Law.law node.old.seen }
    requires kept { CanPack node.old.replica.kept }
    requires keeps { KeepsFrom T.Law.law node.old.replica.cursor }
    ensures measures { IfOk result (Measures T.Law.law length node.old node.new) }
{
    pack(node)?;
    settle(node)?;
    match sync(node)? {
        Synced::Failed(cause) => Ok(Measured::Failed(cause)),
        Synced::At(_) => Ok(Measured::At(node.cursor())),
    }
}

/// The same, but answers how many of the log's first entries are clean in the node's state then.
///
/// Cost: that of a settling and of a sync.
pub fn measure_clean<T: Turns, C: Chooser, R: Replica>(
    node: &mut Node<VirtualLog<T, C>, R>,
) -> Result<Measured, AllocError>
    requires floor { (log : List Entry) (n : ℕ) → T.Law.law.floor log n → n ≤ length log }
    requires legal { IsLegal T.Law.law node.old.seen }
    requires kept { CanPack node.old.replica.kept }
    requires keeps { KeepsFrom T.Law.law node.old.replica.cursor }
    ensures measures { IfOk result (Measures T.Law.law clean_position node.old node.new) }
{
    match catch_up(node)? {
        Measured::Failed(cause) => Ok(Measured::Failed(cause)),
        Measured::At(_) => {
            let position = node.clean()?;
            Ok(Measured::At(position))
        }
    }
}

/// The same, but answers the least of the positions that members reported, in the node's state then.
///
/// Cost: that of a settling and of a sync, and a look at each node's position.
pub fn measure_least<T: Turns, C: Chooser, R: Replica>(
    node: &mut Node<VirtualLog<T, C>, R>,
) -> Result<Measured, AllocError>
    requires floor { (log : List Entry) (n : ℕ) → T.Law.law.floor log n → n ≤ length log }
    requires legal { IsLegal T.Law.law node.old.seen }
    requires kept { CanPack node.old.replica.kept }
    requires keeps { KeepsFrom T.Law.law node.old.replica.cursor }
    ensures measures { IfOk result (Measures T.Law.law (λ log. least_position node.old.nodes (unpack_all 0 log)) node.old node.new) }
{
    match catch_up(node)? {
        Measured::Failed(cause) => Ok(Measured::Failed(cause)),
        Measured::At(_) => {
            let position = node.least()?;
            Ok(Measured::At(position))
        }
    }
}
