//! What a node's own line asks of it: the last loglet of the log is replaced.
ghost use Rattle.std.specs.Prelude.{◌≤◌, ℕ, List, length, IfOk, OnOk};
ghost use Rattle.delos_types.specs.declared.entry.Entry.{Entry};
ghost use Rattle.node_lines.specs.Moving.{CanPack, CarriesAll};
ghost use Rattle.node_lines.specs.Extending.{Replaces};

use crate::lines::Looked;
use crate::steps::{pack, settle};
use base_engine::fault::Fault;
use base_engine::node::Node;
use fate_words::chooser::Chooser;
use legal_journal::rules::Rules;
use legal_journal::turns::Turns;
use replica_api::replica::Replica;
use std::alloc::AllocError;
use virtual_log::log::VirtualLog;

/// What waits is packed, and all that is outstanding is carried to its end, so that the last loglet can be replaced. It is no
/// part of `extend_log`, since it may not seal.
///
/// Cost: that of a settling.
pub fn settle_log<T: Turns, C: Chooser, R: Replica>(
    node: &mut Node<VirtualLog<T, C>, R>,
) -> Result<(), AllocError>
    requires floor { (log : List Entry) (n : ℕ) → T.Law.law.floor log n → n ≤ length log }
    requires kept { CanPack node.old.replica.kept }
    ensures carries { OnOk result (CarriesAll T.Law.law node.old node.new) }
{
    pack(node)?;
    settle(node)?;
    Ok(())
}

/// Lets the log go on in its next loglet, if it has one. A session's cause doesn't keep it from being tried, and no session is
/// given a cause by a fault of its own. It is for those alone who may seal.
///
/// Cost: that of a replacement.
pub fn extend_log<T: Turns, C: Chooser, R: Replica>(
    node: &mut Node<VirtualLog<T, C>, R>,
) -> Result<Looked, AllocError>
    requires floor { (log : List Entry) (n : ℕ) → T.Law.law.floor log n → n ≤ length log }
    requires right { T.Law.seals node.old.who }
    ensures replaces { IfOk result (Replaces T.Law.law node.old node.new) }
{
    match node.extend() {
        Ok(extension) => Ok(Looked::Extended(extension)),
        Err(Fault::Because(cause)) => Ok(Looked::Failed(cause)),
        Err(Fault::Memory) => Err(AllocError),
    }
}
