//! What a node's own lines ask of it: it plays the log, so that its own state has what it told.
ghost use Rattle.std.specs.Prelude.{◌≤◌, ℕ, List, length, IfOk};
ghost use Rattle.delos_types.specs.declared.entry.Entry.{Entry};
ghost use Rattle.node_lines.specs.Leaving.{PlaysKnown};

use base_engine::fault::Fault;
use base_engine::node::Node;
use delos_types::cause::Cause;
use fate_words::chooser::Chooser;
use legal_journal::rules::Rules;
use legal_journal::turns::Turns;
use replica_api::replica::Replica;
use std::alloc::AllocError;
use virtual_log::log::VirtualLog;

/// Plays the log as far as it is known. Answers why the log or the disk failed, if one did: no session is given that cause.
///
/// Cost: that of a play of what was appended since.
pub fn play_known<T: Turns, C: Chooser, R: Replica>(
    node: &mut Node<VirtualLog<T, C>, R>,
) -> Result<Option<Cause>, AllocError>
    requires floor { (log : List Entry) (n : ℕ) → T.Law.law.floor log n → n ≤ length log }
    ensures plays { IfOk result (PlaysKnown T.Law.law node.old node.new) }
{
    let end = node.known();
    match node.play(end) {
        Ok(()) => Ok(None),
        Err(Fault::Because(cause)) => Ok(Some(cause)),
        Err(Fault::Memory) => Err(AllocError),
    }
}
