//! Answers of sessions, as far as a node's state tells them.
ghost use Rattle.std.specs.Prelude.{OnOk};
ghost use Rattle.legal_journal.specs.Journal.{IsLegal};
ghost use Rattle.run_closing.specs.Collecting.{CanTake, TakesIt, CanTakeAll, TakesAll};

use base_engine::node::Node;
use fate_words::chooser::Chooser;
use legal_journal::rules::Rules;
use legal_journal::turns::Turns;
use node_lines::desk::{Desk, collect};
use replica_api::replica::Replica;
use std::alloc::AllocError;
use virtual_log::log::VirtualLog;

/// Takes the answers of a session that asked something, of whatever node it is.
fn take_it<T: Turns, C: Chooser, R: Replica>(
    node: &Node<VirtualLog<T, C>, R>,
    desk: &mut Desk,
) -> Result<(), AllocError>
    requires legal { IsLegal T.Law.law node.now.seen }
    requires desk { CanTake T.Law.law.may node.now desk.old.session desk.old }
    ensures takes { OnOk result (TakesIt node.now desk.old desk.new) }
{
    if desk.asked == 0 {
        return Ok(());
    }
    collect(node, desk)?;
    Ok(())
}

/// Takes the answers of all these sessions, by their numbers.
///
/// Cost: a look at the store for each answer that is taken, and one more for each session that asked something.
pub fn take_all<T: Turns, C: Chooser, R: Replica>(
    node: &Node<VirtualLog<T, C>, R>,
    desks: &mut [Desk],
) -> Result<(), AllocError>
    requires legal { IsLegal T.Law.law node.now.seen }
    requires desks { CanTakeAll T.Law.law.may node.now desks.old }
    ensures takes { OnOk result (TakesAll node.now desks.old desks.new) }
{
    for desk in desks.iter_mut() {
        take_it(node, desk)?;
    }
    Ok(())
}
