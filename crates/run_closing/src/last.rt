//! A node's last calls.
ghost use Rattle.std.specs.Prelude.{◌≡◌, ◌≤◌, ℕ, true, false, List, [], length, IfOk, OnOk};
ghost use Rattle.delos_types.specs.declared.entry.Entry.{Entry};
ghost use Rattle.legal_journal.specs.Journal.{IsLegal};
ghost use Rattle.virtual_log.specs.Holding.{Holds};
ghost use Rattle.base_engine.specs.Following.{Follows};
ghost use Rattle.node_lines.specs.Moving.{Moves};
ghost use Rattle.run_closing.specs.Ending.{Reopens, PlaysOut, HasGone, IsCalled, Finishes};

use base_engine::fault::Fault;
use base_engine::node::Node;
use delos_types::numbers::NodeId;
use fate_words::chooser::Chooser;
use legal_journal::rules::Rules;
use legal_journal::turns::Turns;
use replica_api::replica::Replica;
use std::alloc::AllocError;
use virtual_log::log::VirtualLog;

/// Whose last calls they are.
#[derive(Clone, Copy)]
pub enum Calls {
    /// A member's: not those of a node that has left, as its state tells, or by a line of its own where that is so.
    OfMembers { left: bool },
    /// Any node's.
    OfAny,
}

/// How many entries of the log a node's state has, and whether the node was passed by.
#[derive(Clone, Copy)]
pub struct Reach {
    pub cursor: u64,
    pub passed: bool,
}

/// Opens the store again, with word 0, where it is down. Where the disk fails it stays down.
fn reopen<T: Turns, C: Chooser, R: Replica>(
    node: &mut Node<VirtualLog<T, C>, R>,
) -> Result<(), AllocError>
    ensures { OnOk result (Reopens node.old node.new) }
{
    if !node.is_down() {
        return Ok(());
    }
    match node.recover(0) {
        Ok(()) => Ok(()),
        Err(Fault::Because(_)) => Ok(()),
        Err(Fault::Memory) => Err(AllocError),
    }
}

/// Opens the store again where it is down, finds a tail of the log, and plays up to it. Where the disk or the log fails, the
/// node's state stays as far as it came. Answers how many entries of the log it has then.
fn play_out<T: Turns, C: Chooser, R: Replica>(
    node: &mut Node<VirtualLog<T, C>, R>,
) -> Result<u64, AllocError>
    requires floor { (log : List Entry) (n : ℕ) → T.Law.law.floor log n → n ≤ length log }
    ensures moves { OnOk result (Moves T.Law.law node.old node.new []) }
    ensures plays { OnOk result (PlaysOut node.old node.new) }
    ensures follows { OnOk result (Follows Holds R.meaning node.new.seen node.new.replica) }
    ensures outbox { OnOk result (node.new.outbox ≡ node.old.outbox) }
    ensures kept { OnOk result (node.new.replica.kept ≡ node.old.replica.kept) }
    ensures cursor { IfOk result (λ n. n ≡ node.new.replica.cursor) }
{
    reopen(node)?;
    match node.sync() {
        Ok(_) => Ok(node.cursor()),
        Err(Fault::Because(_)) => Ok(node.cursor()),
        Err(Fault::Memory) => Err(AllocError),
    }
}

/// Whether a node is passed by: one that has left, where members make last calls.
fn is_passed<T: Turns, C: Chooser, R: Replica>(
    node: &Node<VirtualLog<T, C>, R>,
    number: NodeId,
    calls: Calls,
) -> Result<bool, AllocError>
    ensures gone { IfOk result (λ passed. passed ≡ true → HasGone calls number node.now) }
    ensures called { IfOk result (λ passed. passed ≡ false → IsCalled calls number node.now) }
    ensures legal { IfOk result (λ passed. passed ≡ true → IsLegal T.Law.law node.now.seen) }
{
    match calls {
        Calls::OfMembers { left } => {
            let told = node.has_left(number)?;
            if left {
                return Ok(true);
            }
            Ok(told)
        }
        Calls::OfAny => Ok(false),
    }
}

/// The node's last calls. One that has left is passed by, where members make them. Another opens its store again where it is down, finds
/// a tail of the log, and plays up to it; where the disk or the log fails, its state stays as far as it came. Answers how many entries
/// of the log the node's state has then.
pub fn finish<T: Turns, C: Chooser, R: Replica>(
    node: &mut Node<VirtualLog<T, C>, R>,
    number: NodeId,
    calls: Calls,
) -> Result<Reach, AllocError>
    requires floor { (log : List Entry) (n : ℕ) → T.Law.law.floor log n → n ≤ length log }
    ensures moves { OnOk result (Moves T.Law.law node.old node.new []) }
    ensures plays { IfOk result (λ reach. Finishes calls number reach.passed node.old node.new) }
    ensures follows { OnOk result (Follows Holds R.meaning node.new.seen node.new.replica) }
    ensures outbox { OnOk result (node.new.outbox ≡ node.old.outbox) }
    ensures kept { OnOk result (node.new.replica.kept ≡ node.old.replica.kept) }
    ensures cursor { IfOk result (λ reach. reach.cursor ≡ node.new.replica.cursor) }
{
    let passed = is_passed(node, number, calls)?;
    if passed {
        return Ok(Reach {
            cursor: node.cursor(),
            passed: true,
        });
    }
    let cursor = play_out(node)?;
    Ok(Reach {
        cursor,
        passed: false,
    })
}
