//! What a line of a session asks of its node.
ghost use Rattle.std.specs.Prelude.{◌≡◌, ◌<◌, ◌≤◌, ◌+◌, ◌^◌, ◌⊎◌, ℕ, List, [], ◌∷◌, ◌++◌, length, None, Some, IfOk, OnOk};
ghost use Rattle.std.specs.Option.{option_or};
ghost use Rattle.delos_types.specs.declared.cause.Cause.{Cause};
ghost use Rattle.delos_types.specs.declared.entry.Entry.{Entry};
ghost use Rattle.legal_journal.specs.Journal.{IsLegal};
ghost use Rattle.table_core.specs.Spelling.{IsSpellable, command_length};
ghost use Rattle.engine_api.specs.Packing.{packed, session_item};
ghost use Rattle.virtual_log.specs.Holding.{Holds};
ghost use Rattle.base_engine.specs.Following.{Follows};
ghost use Rattle.base_engine.specs.Settling.{cause_in};
ghost use Rattle.node_lines.specs.Answered.{InFront};
ghost use Rattle.node_lines.specs.Moving.{Moves, HandsIn, CanPack};
ghost use Rattle.node_lines.specs.Desks.{DeskOk, IsBound, KeepsFrom};
ghost use Rattle.node_lines.specs.Lines.{CatchesUp, Readies, Looks, IsFree, EndsPhase, HasActedTo, Closes, stopped_by, stopped_unanswered};

use crate::desk::{Desk, collect};
use crate::steps::{Synced, hand_in, pack, settle, sync};
use base_engine::node::Node;
use delos_types::cause::Cause;
use delos_types::numbers::Rank;
use engine_api::pack::session_item;
use fate_words::chooser::Chooser;
use legal_journal::rules::Rules;
use legal_journal::turns::Turns;
use replica_api::replica::Replica;
use std::alloc::{AllocError, Global};
use table_core::command::{Command, Found, Query};
use virtual_log::extend::Extension;
use virtual_log::log::VirtualLog;

/// What a line came to that asks for no command: a read, a replacement of the last loglet, a report, a node's leave, or a trim.
#[derive(Drop)]
pub enum Looked {
    /// The table after the log's first `after` entries answers so.
    Found { after: u64, found: Found },
    /// The session was stopped, or was given this cause.
    Kept(Cause),
    /// The log or the disk failed so as the read looked for a tail, or the node reported, left or trimmed the log, or the log
    /// as its last loglet was replaced.
    Failed(Cause),
    /// The last loglet was replaced, by this node or by another, or there is no next one.
    Extended(Extension),
    /// The node reported that so many of the log's first entries are clean.
    Reported(u64),
    /// The node left.
    Left,
    /// The log was trimmed to this position.
    Trimmed(u64),
}

/// Why nothing more is tried for the session in this phase.
pub fn cause_of<T: Turns, C: Chooser, R: Replica>(
    node: &Node<VirtualLog<T, C>, R>,
    desk: &Desk,
) -> Option<Cause>
    ensures first { result ≡ option_or desk.now.stopped (cause_in desk.now.session node.now.outbox.given) }
    ensures stopped { result ≡ None → desk.now.stopped ≡ None }
    ensures given { result ≡ None → cause_in desk.now.session node.now.outbox.given ≡ None }
    ensures some { (c : Cause) → result ≡ Some c → (desk.now.stopped ≡ Some c) ⊎ ((desk.now.stopped ≡ None) × (cause_in desk.now.session node.now.outbox.given ≡ Some c)) }
{
    match desk.stopped {
        Some(cause) => Some(cause),
        None => node.cause_of(desk.session),
    }
}

/// Carries all that is outstanding to its end and plays it, and takes the session's answers. Where the log or the disk fails
/// as a tail is looked for, the session is stopped by that cause.
pub fn catch_up<T: Turns, C: Chooser, R: Replica>(
    node: &mut Node<VirtualLog<T, C>, R>,
    desk: &mut Desk,
) -> Result<(), AllocError>
    requires floor { (log : List Entry) (n : ℕ) → T.Law.law.floor log n → n ≤ length log }
    requires legal { IsLegal T.Law.law node.old.seen }
    requires kept { CanPack node.old.replica.kept }
    requires desk { DeskOk node.old desk.old.session desk.old }
    requires free { desk.old.stopped ≡ None }
    requires bound { IsBound T.Law.law.may desk.old.session desk.old.sent }
    requires keeps { KeepsFrom T.Law.law node.old.replica.cursor }
    ensures caught { OnOk result (CatchesUp T.Law.law node.old node.new desk.old desk.new) }
    ensures desk { OnOk result (DeskOk node.new desk.old.session desk.new) }
    ensures kept { OnOk result (node.new.replica.kept ≡ node.old.replica.kept) }
{
    settle(node)?;
    let synced = sync(node)?;
    stop_where_failed(desk, synced);
    collect(node, desk)?;
    Ok(())
}

/// The session is stopped where a sync failed.
fn stop_where_failed(desk: &mut Desk, synced: Synced)
    ensures { desk.new ≡ record desk.old { stopped = stopped_by synced desk.old.stopped } }
{
    match synced {
        Synced::At(_) => {}
        Synced::Failed(cause) => desk.stopped = Some(cause),
    }
}

/// The session's next command goes down, and the session's answers are taken.
///
/// Cost: that of the command; with each sixteenth command of the node that of their entry, and with a fifth entry an append.
pub fn log_command<T: Turns, C: Chooser, R: Replica>(
    alloc: Global,
    node: &mut Node<VirtualLog<T, C>, R>,
    desk: &mut Desk,
    command: &Command,
) -> Result<(), AllocError>
    requires floor { (log : List Entry) (n : ℕ) → T.Law.law.floor log n → n ≤ length log }
    requires legal { IsLegal T.Law.law node.old.seen }
    requires follows { Follows Holds R.meaning node.old.seen node.old.replica }
    requires kept { CanPack node.old.replica.kept }
    requires desk { DeskOk node.old desk.old.session desk.old }
    requires stopped { desk.old.stopped ≡ None }
    requires given { cause_in desk.old.session node.old.outbox.given ≡ None }
    requires near { desk.old.sent + 1 ≤ length desk.old.answers.items + 64 }
    requires few { desk.old.asked < 2 ^ 32 }
    requires bound { IsBound T.Law.law.may desk.old.session (desk.old.sent + 1) }
    requires spelled { IsSpellable command.now }
    requires short { command_length command.now ≤ 984 }
    requires own { T.Law.law.may node.old.who (packed node.old.replica.origin (node.old.replica.kept ++ session_item desk.old.session (desk.old.sent + 1) command.now ∷ [])) }
    ensures hands { OnOk result (HandsIn T.Law.law node.old node.new desk.old.session desk.old.sent) }
    ensures desk { OnOk result (DeskOk node.new desk.old.session desk.new) }
    ensures counts { OnOk result (desk.new ≡ record desk.old { asked = desk.old.asked + 1; sent = desk.old.sent + 1; answers = desk.new.answers }) }
    ensures kept { OnOk result ((node.new.replica.kept ≡ node.old.replica.kept ++ session_item desk.old.session (desk.old.sent + 1) command.now ∷ []) ⊎ (node.new.replica.kept ≡ [])) }
{
    let Some(rank) = Rank::new(desk.sent + 1) else {
        unreachable!()
    };
    let item = session_item(alloc, desk.session, rank, command)?;
    hand_in(node, item)?;
    desk.asked += 1;
    desk.sent += 1;
    collect(node, desk)?;
    Ok(())
}

/// Looks at the table after all that the session asked. What waits is packed, and all that is outstanding is carried to its
/// end first.
///
/// Cost: that of a settling and of a sync, and of the read.
pub fn look<T: Turns, C: Chooser, R: Replica>(
    node: &mut Node<VirtualLog<T, C>, R>,
    desk: &Desk,
    query: &Query,
) -> Result<Looked, AllocError>
    requires floor { (log : List Entry) (n : ℕ) → T.Law.law.floor log n → n ≤ length log }
    requires legal { IsLegal T.Law.law node.old.seen }
    requires kept { CanPack node.old.replica.kept }
    requires desk { DeskOk node.old desk.now.session desk.now }
    requires bound { IsBound T.Law.law.may desk.now.session desk.now.sent }
    requires keeps { KeepsFrom T.Law.law node.old.replica.cursor }
    ensures looks { IfOk result (Looks T.Law.law node.old node.new desk.now query.now) }
    ensures kept { IfOk result (λ l. node.new.replica.kept ≡ []) }
{
    pack(node)?;
    settle(node)?;
    match cause_of(node, desk) {
        Some(cause) => return Ok(Looked::Kept(cause)),
        None => {}
    }
    match sync(node)? {
        Synced::Failed(cause) => Ok(Looked::Failed(cause)),
        Synced::At(after) => {
            let found = node.read(query)?;
            Ok(Looked::Found { after, found })
        }
    }
}

/// Packs, carries to its end and plays all that the node was given, at the end of a phase. Answers why the log or the disk
/// failed as a tail was looked for, if one did.
pub fn end_phase<T: Turns, C: Chooser, R: Replica>(
    node: &mut Node<VirtualLog<T, C>, R>,
) -> Result<Option<Cause>, AllocError>
    requires floor { (log : List Entry) (n : ℕ) → T.Law.law.floor log n → n ≤ length log }
    requires legal { IsLegal T.Law.law node.old.seen }
    requires kept { CanPack node.old.replica.kept }
    ensures ends { IfOk result (EndsPhase T.Law.law node.old node.new) }
    ensures follows { OnOk result (Follows Holds R.meaning node.new.seen node.new.replica) }
{
    pack(node)?;
    settle(node)?;
    match sync(node)? {
        Synced::At(_) => Ok(None),
        Synced::Failed(cause) => Ok(Some(cause)),
    }
}

/// Takes the session's answers at the end of a phase. Where not all of its commands were answered, it is stopped: by the
/// first cause that it has, else by that of the phase's last sync.
pub fn close<T: Turns, C: Chooser, R: Replica>(
    node: &Node<VirtualLog<T, C>, R>,
    desk: &mut Desk,
    failed: Option<Cause>,
) -> Result<(), AllocError>
    requires floor { (log : List Entry) (n : ℕ) → T.Law.law.floor log n → n ≤ length log }
    requires legal { IsLegal T.Law.law node.now.seen }
    requires follows { Follows Holds R.meaning node.now.seen node.now.replica }
    requires desk { DeskOk node.now desk.old.session desk.old }
    requires bound { IsBound T.Law.law.may desk.old.session desk.old.sent }
    requires found { failed ≡ None → IsFree node.now desk.old → InFront node.now.seen node.now.replica.cursor (HasActedTo desk.old.session desk.old.sent) }
    ensures desk { OnOk result (DeskOk node.now desk.old.session desk.new) }
    ensures closes { OnOk result (Closes node.now failed desk.old desk.new) }
{
    collect(node, desk)?;
    let cause = cause_of(node, desk).or(failed);
    stop_unanswered(desk, cause);
    Ok(())
}

/// Where not all of its commands were answered, the session is stopped by the cause, unless it was before.
fn stop_unanswered(desk: &mut Desk, cause: Option<Cause>)
    ensures { desk.new ≡ stopped_unanswered cause desk.old }
{
    let count = desk.answers.len() as u64;
    if desk.answered.is_none() && count < desk.asked {
        desk.stopped = cause;
        desk.answered = Some(count);
    }
}

/// Whether the session's next command may be handed in: it has no cause, and the command is at most 64 above its last answer.
/// Where it is further above, all that is outstanding is carried to its end and played first.
pub fn make_ready<T: Turns, C: Chooser, R: Replica>(
    node: &mut Node<VirtualLog<T, C>, R>,
    desk: &mut Desk,
) -> Result<bool, AllocError>
    requires floor { (log : List Entry) (n : ℕ) → T.Law.law.floor log n → n ≤ length log }
    requires legal { IsLegal T.Law.law node.old.seen }
    requires kept { CanPack node.old.replica.kept }
    requires desk { DeskOk node.old desk.old.session desk.old }
    requires bound { IsBound T.Law.law.may desk.old.session desk.old.sent }
    requires few { desk.old.asked < 2 ^ 32 }
    requires keeps { KeepsFrom T.Law.law node.old.replica.cursor }
    ensures readies { IfOk result (Readies T.Law.law node.old node.new desk.old desk.new) }
    ensures desk { OnOk result (DeskOk node.new desk.old.session desk.new) }
    ensures kept { OnOk result (node.new.replica.kept ≡ node.old.replica.kept) }
{
    match cause_of(node, desk) {
        Some(_) => return Ok(false),
        None => {}
    }
    if desk.sent < desk.answers.len() as u64 + 64 {
        return Ok(true);
    }
    catch_up(node, desk)?;
    match cause_of(node, desk) {
        Some(_) => Ok(false),
        None => Ok(true),
    }
}
