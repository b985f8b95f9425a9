//! Any list of calls of a loglet.
ghost use Rattle.std.specs.Prelude.{◌≡◌, ◌+◌, ◌<◌, ◌≤◌, IfOk, OnErr};
ghost use Rattle.std.specs.HashSet.{spare};
ghost use Rattle.loglet_api.specs.Step.{CanBegin};
ghost use Rattle.loglet_api.specs.Run.{LogletRun};
ghost use Rattle.loglet_api.specs.Servers.{Serves, ServesAll};
ghost use Rattle.loglet_runs.specs.Runs.{CanBring, OpsStep, OpsRun, BringsSpellable, IsClosed, Tracks, made};

use delos_types::numbers::Ticket;
use loglet_api::call::{LogletAnswer, LogletCall, Op, Refused};
use loglet_api::calls;
use loglet_api::loglet::Loglet;
use std::alloc::{AllocError, Global};
use std::collections::HashSet;

/// Makes any list of calls of a loglet that has no open operation, and gives their answers. A call
/// that may not be made is answered `Skipped`: one on a ticket that isn't open, a `carry` of a
/// decided operation, and a `stop` or `restart` of a server that the loglet doesn't have. Want of
/// memory of a call is its answer; an `Err` comes before the first call.
pub fn run_ops(
    alloc: Global,
    loglet: &mut dyn Loglet,
    calls: &[LogletCall],
) -> Result<Vec<LogletAnswer>, AllocError>
    requires closed { IsClosed (view loglet.old) }
    requires spelled { BringsSpellable calls.now }
    ensures each { IfOk result (λ answers. OpsRun (view loglet.old) calls.now answers.items (view loglet.new)) }

    // The calls that were made are a run of the loglet.
    ensures run { IfOk result (λ answers. LogletRun (view loglet.old) (made calls.now answers.items) (view loglet.new)) }
    ensures serves { IfOk result (λ answers. ServesAll (serving loglet.old) (made calls.now answers.items) (serving loglet.new)) }
    ensures err { OnErr result (view loglet.new ≡ view loglet.old) }
    ensures err_serves { OnErr result (serving loglet.new ≡ serving loglet.old) }
{
    let mut answers = Vec::with_capacity(alloc, calls.len())?;
    let mut tickets = HashSet::with_capacity(alloc, calls.len())?;
    let servers = calls::servers(loglet);
    for call in calls {
        let answer = step(loglet, &mut tickets, call, servers);
        answers.push(answer).unwrap();
    }
    Ok(answers)
}

/// Makes one call, or skips it.
fn step(
    loglet: &mut dyn Loglet,
    tickets: &mut HashSet<u64>,
    call: &LogletCall,
    servers: u32,
) -> LogletAnswer
    requires spelled { CanBring call.now }
    requires tracked { Tracks (view loglet.old) servers tickets.old }
    requires room { 0 < spare tickets.old }
    ensures step { OpsStep (view loglet.old) call.now result (view loglet.new) }
    ensures serves { Serves (serving loglet.old) call.now result (serving loglet.new) }
    ensures tracked { Tracks (view loglet.new) servers tickets.new }
    ensures room { spare tickets.old ≤ spare tickets.new + 1 }
{
    match call {
        LogletCall::Begin(op) => begin(loglet, tickets, op, servers),
        LogletCall::Carry(ticket, word) => carry(loglet, tickets, *ticket, *word, servers),
        LogletCall::Take(ticket) => take(loglet, tickets, *ticket, servers),
        LogletCall::Forget(ticket) => forget(loglet, tickets, *ticket, servers),
        LogletCall::Left(ticket) => left(loglet, tickets, *ticket, servers),
        LogletCall::Stray(word) => stray(loglet, tickets, *word, servers),
        LogletCall::Stop(server, after) => stop(loglet, tickets, *server, *after, servers),
        LogletCall::Restart(server, word) => restart(loglet, tickets, *server, *word, servers),
    }
}

/// Begins an operation, and notes its ticket.
fn begin(loglet: &mut dyn Loglet, tickets: &mut HashSet<u64>, op: &Op, servers: u32) -> LogletAnswer
    requires spelled { CanBegin op.now }
    requires tracked { Tracks (view loglet.old) servers tickets.old }
    requires room { 0 < spare tickets.old }
    ensures step { OpsStep (view loglet.old) (LogletCall.Begin op.now) result (view loglet.new) }
    ensures serves { Serves (serving loglet.old) (LogletCall.Begin op.now) result (serving loglet.new) }
    ensures tracked { Tracks (view loglet.new) servers tickets.new }
    ensures room { spare tickets.old ≤ spare tickets.new + 1 }
{
    let Ok(op) = op.clone() else {
        return LogletAnswer::Refusal(Refused::Memory);
    };
    match calls::begin(loglet, op) {
        Ok(ticket) => {
            tickets.insert(ticket.number()).unwrap();
            LogletAnswer::Begun(ticket)
        }
        Err(refused) => LogletAnswer::Refusal(refused),
    }
}

/// Carries an operation that is open and undecided.
fn carry(
    loglet: &mut dyn Loglet,
    tickets: &HashSet<u64>,
    ticket: Ticket,
    word: u64,
    servers: u32,
) -> LogletAnswer
    requires { Tracks (view loglet.old) servers tickets.now }
    ensures step { OpsStep (view loglet.old) (LogletCall.Carry ticket word) result (view loglet.new) }
    ensures serves { Serves (serving loglet.old) (LogletCall.Carry ticket word) result (serving loglet.new) }
    ensures tracked { Tracks (view loglet.new) servers tickets.now }
{
    if !tickets.contains(&ticket.number()) {
        return LogletAnswer::Skipped;
    }
    match calls::left(loglet, ticket) {
        (0, 0) => LogletAnswer::Skipped,
        _ => match calls::carry(loglet, ticket, word) {
            Ok(()) => LogletAnswer::Carried,
            Err(refused) => LogletAnswer::Refusal(refused),
        },
    }
}

/// Takes the answer of an open operation, and forgets its ticket with it.
fn take(
    loglet: &mut dyn Loglet,
    tickets: &mut HashSet<u64>,
    ticket: Ticket,
    servers: u32,
) -> LogletAnswer
    requires { Tracks (view loglet.old) servers tickets.old }
    ensures step { OpsStep (view loglet.old) (LogletCall.Take ticket) result (view loglet.new) }
    ensures serves { Serves (serving loglet.old) (LogletCall.Take ticket) result (serving loglet.new) }
    ensures tracked { Tracks (view loglet.new) servers tickets.new }
    ensures room { spare tickets.old ≤ spare tickets.new }
{
    if !tickets.contains(&ticket.number()) {
        return LogletAnswer::Skipped;
    }
    match calls::take(loglet, ticket) {
        None => LogletAnswer::Taken(None),
        Some(answer) => {
            let _ = tickets.remove(&ticket.number());
            LogletAnswer::Taken(Some(answer))
        }
    }
}

/// Closes an open operation.
fn forget(
    loglet: &mut dyn Loglet,
    tickets: &mut HashSet<u64>,
    ticket: Ticket,
    servers: u32,
) -> LogletAnswer
    requires { Tracks (view loglet.old) servers tickets.old }
    ensures step { OpsStep (view loglet.old) (LogletCall.Forget ticket) result (view loglet.new) }
    ensures serves { Serves (serving loglet.old) (LogletCall.Forget ticket) result (serving loglet.new) }
    ensures tracked { Tracks (view loglet.new) servers tickets.new }
    ensures room { spare tickets.old ≤ spare tickets.new }
{
    if !tickets.contains(&ticket.number()) {
        return LogletAnswer::Skipped;
    }
    calls::forget(loglet, ticket);
    let _ = tickets.remove(&ticket.number());
    LogletAnswer::Forgotten
}

fn left(loglet: &dyn Loglet, tickets: &HashSet<u64>, ticket: Ticket, servers: u32) -> LogletAnswer
    requires { Tracks (view loglet.now) servers tickets.now }
    ensures { OpsStep (view loglet.now) (LogletCall.Left ticket) result (view loglet.now) }
{
    if !tickets.contains(&ticket.number()) {
        return LogletAnswer::Skipped;
    }
    let (first, second) = calls::left(loglet, ticket);
    LogletAnswer::LeftIs(first, second)
}

fn stray(loglet: &mut dyn Loglet, tickets: &HashSet<u64>, word: u64, servers: u32) -> LogletAnswer
    requires { Tracks (view loglet.old) servers tickets.now }
    ensures step { OpsStep (view loglet.old) (LogletCall.Stray word) result (view loglet.new) }
    ensures serves { Serves (serving loglet.old) (LogletCall.Stray word) result (serving loglet.new) }
    ensures tracked { Tracks (view loglet.new) servers tickets.now }
{
    match calls::stray(loglet, word) {
        Ok(()) => LogletAnswer::Strayed,
        Err(refused) => LogletAnswer::Refusal(refused),
    }
}

fn stop(
    loglet: &mut dyn Loglet,
    tickets: &HashSet<u64>,
    server: u32,
    after: u64,
    servers: u32,
) -> LogletAnswer
    requires { Tracks (view loglet.old) servers tickets.now }
    ensures step { OpsStep (view loglet.old) (LogletCall.Stop server after) result (view loglet.new) }
    ensures serves { Serves (serving loglet.old) (LogletCall.Stop server after) result (serving loglet.new) }
    ensures tracked { Tracks (view loglet.new) servers tickets.now }
{
    if server >= servers {
        return LogletAnswer::Skipped;
    }
    calls::stop(loglet, server, after);
    LogletAnswer::Stopped
}

fn restart(
    loglet: &mut dyn Loglet,
    tickets: &HashSet<u64>,
    server: u32,
    word: u64,
    servers: u32,
) -> LogletAnswer
    requires { Tracks (view loglet.old) servers tickets.now }
    ensures step { OpsStep (view loglet.old) (LogletCall.Restart server word) result (view loglet.new) }
    ensures serves { Serves (serving loglet.old) (LogletCall.Restart server word) result (serving loglet.new) }
    ensures tracked { Tracks (view loglet.new) servers tickets.now }
{
    if server >= servers {
        return LogletAnswer::Skipped;
    }
    match calls::restart(loglet, server, word) {
        Ok(up) => LogletAnswer::Restarted(up),
        Err(refused) => LogletAnswer::Refusal(refused),
    }
}
