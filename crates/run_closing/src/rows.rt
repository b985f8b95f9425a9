//! One row for each line of a script, by the desk of its session, if it has one, and by what its own look came to.
ghost use Rattle.std.specs.Prelude.{◌≡◌, ◌≤◌, ◌⊎◌, ℕ, IfOk, IsSome, Option, Some, true, length, map};
ghost use Rattle.std.specs.Option.{option_map};
ghost use Rattle.table_core.specs.declared.command.Command.{Command};
ghost use Rattle.script_text.specs.declared.line.Session.{Session};
ghost use Rattle.script_text.specs.declared.asks.Asks.TheVariants as asks;
ghost use Rattle.fitting_run.specs.Answered.{session_asking};
ghost use Rattle.fitting_run.specs.Outcomes.{names};
ghost use Rattle.node_lines.specs.declared.desk.Desk.{Desk};
ghost use Rattle.node_lines.specs.declared.lines.Looked.{Looked};
ghost use Rattle.node_lines.specs.declared.lines.Looked.TheVariants as looked;
ghost use Rattle.run_ends.specs.Ends.{desk_in, desks_at};
ghost use Rattle.run_ends.specs.Rows.{AreRows, CanTell, IsRowOf, Tells, TellsIt, desk_for, is_behind};
ghost use Rattle.run_closing.specs.Telling.{outcome_by};

use crate::found::copy_of;
use delos_types::numbers::{NodeId, Rank};
use fate_words::chooser::Chooser;
use log_laws::reply::read_reply;
use node_lines::desk::Desk;
use node_lines::lines::Looked;
use node_workers::worker::Worker;
use replica_api::replica::Replica;
use row_text::row::{Outcome, Row, Rows, Who};
use script_text::asks::{Asks, NamedLine};
use script_text::line::Session;
use std::alloc::{AllocError, Global};
use virtual_log::extend::Extension;

/// The rows of all lines, in their order. A command that its desk has an answer of is placed there, `late` where its rank is above
/// those that were answered as its session was stopped; any other is open, by the cause of that. A read tells what it looked
/// at, or why it didn't. What a node itself was asked tells what became of the last loglet, what the node reported, that it left, up to
/// where it trimmed the log, or why the log or its disk failed.
///
/// Cost: constant for each line, beside the copy of what it tells.
pub fn rows_of<S: Replica, C: Chooser>(
    alloc: Global,
    lines: &[NamedLine],
    workers: &[Worker<S, C>],
    looks: &[Option<Looked>],
) -> Result<Rows, AllocError>
    requires tellable { CanTell lines.now (map (λ w. record { seat = w.seat; desks = w.desks.items }) workers.now) looks.now }
    ensures rows { IfOk result (AreRows lines.now (map (λ w. record { seat = w.seat; desks = w.desks.items }) workers.now) looks.now) }
{
    let mut rows = Vec::with_capacity(alloc, lines.len())?;
    for i in 0..lines.len() {
        let row = row_of(alloc, &lines[i], workers, &looks[i])?;
        rows.push(row)?;
    }
    Ok(Rows::from_vec(rows))
}

/// The row of a line, by its session's desk, if it has one, and by what its own look came to.
fn row_of<S: Replica, C: Chooser>(
    alloc: Global,
    line: &NamedLine,
    workers: &[Worker<S, C>],
    look: &Option<Looked>,
) -> Result<Row, AllocError>
    requires { TellsIt (desk_for (map (λ w. record { seat = w.seat; desks = w.desks.items }) workers.now) line.now.node line.now.asks) look.now line.now.asks }
    ensures { IfOk result (IsRowOf line.now (desk_for (map (λ w. record { seat = w.seat; desks = w.desks.items }) workers.now) line.now.node line.now.asks) look.now) }
{
    let who = who_asks(line)?;
    let outcome = outcome_of(alloc, line, workers, look)?;
    Ok(Row {
        number: line.number,
        who,
        outcome,
    })
}

/// Who asks: a session by its name, or the node.
fn who_asks(line: &NamedLine) -> Result<Who, AllocError>
    ensures { IfOk result (λ who. names who line.now.node (session_asking line.now.asks) ≡ true) }
{
    match &line.asks {
        Asks::Logged { session, .. } => session_who(session),
        Asks::Look { session, .. } => session_who(session),
        Asks::Admin(_) => Ok(Who::Node(line.node)),
    }
}

/// A session, by its name.
fn session_who(session: &Session) -> Result<Who, AllocError>
    ensures { IfOk result (λ who. (node : ℕ) → names who node (Some session.now) ≡ true) }
{
    Ok(Who::Session(session.name.clone()?))
}

fn outcome_of<S: Replica, C: Chooser>(
    alloc: Global,
    line: &NamedLine,
    workers: &[Worker<S, C>],
    look: &Option<Looked>,
) -> Result<Outcome, AllocError>
    requires { TellsIt (desk_for (map (λ w. record { seat = w.seat; desks = w.desks.items }) workers.now) line.now.node line.now.asks) look.now line.now.asks }
    ensures { IfOk result (Tells (desk_for (map (λ w. record { seat = w.seat; desks = w.desks.items }) workers.now) line.now.node line.now.asks) look.now line.now.asks) }
{
    match &line.asks {
        Asks::Logged { session, rank, .. } => {
            let desk = desk_of(workers, line.node, session);
            logged_outcome(alloc, *rank, desk)
        }
        Asks::Look { .. } => look_outcome(alloc, look),
        Asks::Admin(_) => look_outcome(alloc, look),
    }
}

/// The desk of a session at its node.
fn desk_of<'a, S: Replica, C: Chooser>(
    workers: &'a [Worker<S, C>],
    node: NodeId,
    session: &Session,
) -> &'a Desk
    requires { IsSome (desk_in (desks_at (map (λ w. record { seat = w.seat; desks = w.desks.items }) workers.now) node) session.now.id) }
    ensures { desk_in (desks_at (map (λ w. record { seat = w.seat; desks = w.desks.items }) workers.now) node) session.now.id ≡ Some result.now }
{
    let node = usize::from(node.number()) - 1;
    let session = usize::from(session.id.number());
    &workers[node].desks[session]
}

/// What becomes of a logged command.
fn logged_outcome(alloc: Global, rank: Rank, desk: &Desk) -> Result<Outcome, AllocError>
    requires { (rank ≤ length desk.now.answers.items) ⊎ IsSome desk.now.stopped }
    ensures { IfOk result (λ outcome. (session : Session) (command : Command) (look : Option Looked) → Tells (Some desk.now) look (asks.Logged session rank command) outcome) }
{
    let index = rank.number() as usize - 1;
    match desk.answers.get(index) {
        Some(kept) => {
            let reply = read_reply(alloc, kept.reply.as_slice())?;
            let late = is_late(desk.answered, rank);
            Ok(Outcome::Placed {
                place: kept.place,
                reply,
                late,
            })
        }
        None => {
            let Some(cause) = desk.stopped else {
                unreachable!()
            };
            Ok(Outcome::Open { cause })
        }
    }
}

/// Whether the rank is above those that were answered as its session was stopped, if it was.
fn is_late(answered: Option<u64>, rank: Rank) -> bool
    ensures { result ≡ is_behind answered rank }
{
    match answered {
        Some(count) => rank.number() > count,
        None => false,
    }
}

/// What becomes of a line that logs no command: a read, or what a node itself is asked.
fn look_outcome(alloc: Global, look: &Option<Looked>) -> Result<Outcome, AllocError>
    requires { IsSome look.now }
    ensures { IfOk result (λ outcome. Some outcome ≡ option_map outcome_by look.now) }
{
    let Some(look) = look else { unreachable!() };
    match look {
        Looked::Found { after, found } => {
            let found = copy_of(alloc, found)?;
            Ok(Outcome::Read {
                after: *after,
                found,
            })
        }
        Looked::Kept(cause) => Ok(Outcome::Open { cause: *cause }),
        Looked::Failed(cause) => Ok(Outcome::Open { cause: *cause }),
        Looked::Extended(extension) => Ok(extended(*extension)),
        Looked::Reported(clean) => Ok(Outcome::Alive { clean: *clean }),
        Looked::Left => Ok(Outcome::Retired),
        Looked::Trimmed(trim) => Ok(Outcome::Trimmed { trim: *trim }),
    }
}

/// What a replacement came to, as rows tell it.
fn extended(extension: Extension) -> Outcome
    ensures { result ≡ outcome_by (looked.Extended extension) }
{
    match extension {
        Extension::Extended { version, start } => Outcome::Extended { version, start },
        Extension::Moved { version } => Outcome::Moved { version },
        Extension::NoSpare => Outcome::NoSpare,
    }
}
