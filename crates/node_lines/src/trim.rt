//! What a node's own line asks of it: it trims the log.
ghost use Rattle.std.specs.Prelude.{◌≡◌, ◌≤◌, ℕ, List, length, IfOk};
ghost use Rattle.delos_types.specs.declared.entry.Entry.{Entry};
ghost use Rattle.virtual_log.specs.Holding.{Holds};
ghost use Rattle.base_engine.specs.Reading.{IsFront};
ghost use Rattle.base_engine.specs.Trimming.{trim_to};
ghost use Rattle.node_lines.specs.Trimming.{Cuts};

use crate::lines::Looked;
use base_engine::fault::Fault;
use base_engine::node::Node;
use fate_words::chooser::Chooser;
use legal_journal::rules::Rules;
use legal_journal::turns::Turns;
use replica_api::replica::Replica;
use std::alloc::AllocError;
use virtual_log::log::VirtualLog;

/// Trims the log to the lesser of its trim point and the least position of a member in the node's state, but not past what the
/// node has applied. No session is given a cause by a fault of it.
///
/// Cost: a look at each node's position, and a trim of each loglet.
pub fn cut<T: Turns, C: Chooser, R: Replica>(
    node: &mut Node<VirtualLog<T, C>, R>,
) -> Result<Looked, AllocError>
    requires floor { (log : List Entry) (n : ℕ) → T.Law.law.floor log n → n ≤ length log }
    requires free { (log : List Entry) → IsFront Holds node.old.seen log → length log ≡ node.old.replica.cursor → T.Law.law.floor log (trim_to node.old.nodes node.old.replica) }
    ensures cuts { IfOk result (Cuts T.Law.law node.old node.new) }
{
    match node.trim_applied() {
        Ok(trim) => Ok(Looked::Trimmed(trim)),
        Err(Fault::Because(cause)) => Ok(Looked::Failed(cause)),
        Err(Fault::Memory) => Err(AllocError),
    }
}
