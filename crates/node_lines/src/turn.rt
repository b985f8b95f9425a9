//! A phase ends at a node: what its sessions were answered, and which of them are stopped. Or all answers are taken before that.
ghost use Rattle.std.specs.Prelude.{◌≡◌, ◌<◌, ◌≤◌, ◌+◌, ◌⊎◌, ℕ, List, length, Some, None, IfOk, OnOk, slice_get};
ghost use Rattle.delos_types.specs.declared.entry.Entry.{Entry};
ghost use Rattle.legal_journal.specs.Journal.{IsLegal};
ghost use Rattle.virtual_log.specs.Holding.{Holds};
ghost use Rattle.base_engine.specs.Following.{Follows};
ghost use Rattle.node_lines.specs.Answered.{InFront};
ghost use Rattle.node_lines.specs.declared.desk.Desk.{Desk};
ghost use Rattle.node_lines.specs.Moving.{CanPack};
ghost use Rattle.node_lines.specs.Desks.{DeskOk, DesksOk, IsBound, AreBound, KeepsFrom};
ghost use Rattle.node_lines.specs.Lines.{IsFree, HasActedTo};
ghost use Rattle.node_lines.specs.Turns.{AllAnswered, AnswersAll, ClosesIt, ClosesAll, EndsTurn, TakesAll, TakesIt};

use crate::desk::{Desk, collect};
use crate::lines::{close, end_phase};
use base_engine::node::Node;
use delos_types::cause::Cause;
use fate_words::chooser::Chooser;
use legal_journal::rules::Rules;
use legal_journal::turns::Turns;
use replica_api::replica::Replica;
use std::alloc::AllocError;
use virtual_log::log::VirtualLog;

/// Closes the desk of a session that asked something.
fn close_it<T: Turns, C: Chooser, R: Replica>(
    node: &Node<VirtualLog<T, C>, R>,
    desk: &mut Desk,
    failed: Option<Cause>,
) -> Result<(), AllocError>
    requires floor { (log : List Entry) (n : ℕ) → T.Law.law.floor log n → n ≤ length log }
    requires legal { IsLegal T.Law.law node.now.seen }
    requires follows { Follows Holds R.meaning node.now.seen node.now.replica }
    requires desk { DeskOk node.now desk.old.session desk.old }
    requires bound { 0 < desk.old.asked → IsBound T.Law.law.may desk.old.session desk.old.sent }
    requires found { failed ≡ None → IsFree node.now desk.old → InFront node.now.seen node.now.replica.cursor (HasActedTo desk.old.session desk.old.sent) }
    ensures desk { OnOk result (DeskOk node.now desk.old.session desk.new) }
    ensures closes { OnOk result (ClosesIt node.now failed desk.old desk.new) }
{
    if desk.asked == 0 {
        return Ok(());
    }
    close(node, desk, failed)
}

/// Closes all desks.
fn close_all<T: Turns, C: Chooser, R: Replica>(
    node: &Node<VirtualLog<T, C>, R>,
    desks: &mut [Desk],
    failed: Option<Cause>,
) -> Result<(), AllocError>
    requires floor { (log : List Entry) (n : ℕ) → T.Law.law.floor log n → n ≤ length log }
    requires legal { IsLegal T.Law.law node.now.seen }
    requires follows { Follows Holds R.meaning node.now.seen node.now.replica }
    requires desks { DesksOk node.now desks.old }
    requires bound { AreBound T.Law.law.may desks.old }
    requires found { failed ≡ None → (s : ℕ) (d : Desk) → slice_get desks.old s ≡ Some d → IsFree node.now d → InFront node.now.seen node.now.replica.cursor (HasActedTo s d.sent) }
    ensures desks { OnOk result (DesksOk node.now desks.new) }
    ensures closes { OnOk result (ClosesAll node.now failed desks.old desks.new) }
{
    for desk in desks.iter_mut() {
        close_it(node, desk, failed)?;
    }
    Ok(())
}

/// Takes the answers of a session that asked something.
fn collect_it<T: Turns, C: Chooser, R: Replica>(
    node: &Node<VirtualLog<T, C>, R>,
    desk: &mut Desk,
) -> Result<(), AllocError>
    requires floor { (log : List Entry) (n : ℕ) → T.Law.law.floor log n → n ≤ length log }
    requires legal { IsLegal T.Law.law node.now.seen }
    requires follows { Follows Holds R.meaning node.now.seen node.now.replica }
    requires desk { DeskOk node.now desk.old.session desk.old }
    requires bound { 0 < desk.old.asked → IsBound T.Law.law.may desk.old.session desk.old.sent }
    ensures desk { OnOk result (DeskOk node.now desk.old.session desk.new) }
    ensures takes { OnOk result (TakesIt node.now desk.old desk.new) }
{
    if desk.asked == 0 {
        return Ok(());
    }
    collect(node, desk)?;
    Ok(())
}

/// Takes the answers of all sessions.
fn collect_all<T: Turns, C: Chooser, R: Replica>(
    node: &Node<VirtualLog<T, C>, R>,
    desks: &mut [Desk],
) -> Result<(), AllocError>
    requires floor { (log : List Entry) (n : ℕ) → T.Law.law.floor log n → n ≤ length log }
    requires legal { IsLegal T.Law.law node.now.seen }
    requires follows { Follows Holds R.meaning node.now.seen node.now.replica }
    requires desks { DesksOk node.now desks.old }
    requires bound { AreBound T.Law.law.may desks.old }
    ensures desks { OnOk result (DesksOk node.now desks.new) }
    ensures takes { OnOk result (TakesAll node.now desks.old desks.new) }
{
    for desk in desks.iter_mut() {
        collect_it(node, desk)?;
    }
    Ok(())
}

/// Takes all answers of a node's sessions, whose desks are numbered from 0, before its phase ends. All is packed, carried to its end
/// and played first. Answers why no tail was found, if none was: no answers are taken then. No session is stopped.
///
/// Cost: that of a settling and of a sync, and one look at the store for each answer, and for each session.
pub fn answer_all<T: Turns, C: Chooser, R: Replica>(
    node: &mut Node<VirtualLog<T, C>, R>,
    desks: &mut [Desk],
) -> Result<Option<Cause>, AllocError>
    requires floor { (log : List Entry) (n : ℕ) → T.Law.law.floor log n → n ≤ length log }
    requires legal { IsLegal T.Law.law node.old.seen }
    requires kept { CanPack node.old.replica.kept }
    requires keeps { KeepsFrom T.Law.law node.old.replica.cursor }
    requires desks { DesksOk node.old desks.old }
    requires bound { AreBound T.Law.law.may desks.old }
    ensures answers { IfOk result (AnswersAll T.Law.law node.old node.new desks.old desks.new) }
{
    let failed = end_phase(node)?;
    if let Some(cause) = failed {
        return Ok(Some(cause));
    }
    collect_all(node, desks)?;
    Ok(None)
}

/// Ends a phase at a node, whose sessions' desks are numbered from 0. All is packed, carried to its end and played; the
/// answers of each session are taken, and those that lack one are stopped. Answers why no tail was found, if none was. Where the
/// log may be trimmed past the node, as behind its leave, all answers were taken before.
pub fn end_turn<T: Turns, C: Chooser, R: Replica>(
    node: &mut Node<VirtualLog<T, C>, R>,
    desks: &mut [Desk],
) -> Result<Option<Cause>, AllocError>
    requires floor { (log : List Entry) (n : ℕ) → T.Law.law.floor log n → n ≤ length log }
    requires legal { IsLegal T.Law.law node.old.seen }
    requires kept { CanPack node.old.replica.kept }
    requires keeps { KeepsFrom T.Law.law node.old.replica.cursor ⊎ AllAnswered node.old desks.old }
    requires desks { DesksOk node.old desks.old }
    requires bound { AreBound T.Law.law.may desks.old }
    ensures ends { IfOk result (EndsTurn T.Law.law node.old node.new desks.old desks.new) }
{
    let failed = end_phase(node)?;
    close_all(node, desks, failed)?;
    node.next_phase();
    Ok(failed)
}
