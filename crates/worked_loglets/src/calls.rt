//! Lists of calls of a loglet, and answers in words.
ghost use Rattle.std.specs.Prelude.{IfOk};
ghost use Rattle.loglet_api.specs.Step.{CanBegin};
ghost use Rattle.loglet_runs.specs.Runs.{CanBring, BringsSpellable};

use anyhow::{Result, bail};
use delos_types::numbers::Ticket;
use loglet_api::call::{Answer, LogletAnswer, LogletCall, Op};
use std::alloc::{AllocError, Global};
use std::marker::Model;
use worked_cases::entries::entry;
use worked_cases::words::{bytes, nothing, number, shown};

/// Calls that may be made one after another: their entries are ones that some bytes spell.
#[derive(Drop)]
pub struct Calls {
    items: Vec<LogletCall>,
}

impl Model for Calls {
    ghost use Rattle.std.specs.Prelude.{List};
    ghost use Rattle.loglet_api.specs.declared.call.LogletCall.{LogletCall};
    ghost use Rattle.loglet_runs.specs.Runs.{BringsSpellable};

    ghost Value = { List LogletCall };

    ghost view = { λ c. c.items.items };

    ghost invariant = { λ c. BringsSpellable c.items.items };
}

impl Calls {
    pub fn new(alloc: Global) -> Calls {
        Calls {
            items: Vec::new(alloc),
        }
    }

    pub fn push(&mut self, call: LogletCall) -> Result<(), AllocError>
        requires { CanBring call }
    {
        self.items.push(call)?;
        Ok(())
    }

    pub fn as_slice(&self) -> &[LogletCall]
        ensures { BringsSpellable result.now }
    {
        self.items.as_slice()
    }

    pub fn len(&self) -> usize {
        self.items.len()
    }

    /// Adds carries of an operation by a word.
    pub fn carry(&mut self, ticket: Ticket, word: u64, times: u64) -> Result<(), AllocError> {
        for _ in 0..times {
            self.push(LogletCall::Carry(ticket, word))?;
        }
        Ok(())
    }
}

/// The operation that the words are.
pub fn op(alloc: Global, name: &str, words: &[&str]) -> Result<Op>
    ensures { IfOk result CanBegin }
{
    match name {
        "append" => Ok(Op::Append(entry(alloc, bytes(alloc, words)?.as_slice())?)),
        "settle" => Ok(Op::Settle(number(words)?)),
        "read" => Ok(Op::Read(number(words)?)),
        "trim" => Ok(Op::Trim(number(words)?)),
        _ => op_alone(name, words),
    }
}

/// An operation that takes no words.
fn op_alone(name: &str, words: &[&str]) -> Result<Op>
    ensures { IfOk result CanBegin }
{
    nothing(words)?;
    match name {
        "tail" => Ok(Op::Tail),
        "seal" => Ok(Op::Seal),
        _ => bail!("there is no operation {name}"),
    }
}

/// The answer of a call in words.
pub fn said(alloc: Global, answer: &LogletAnswer) -> Result<String, AllocError> {
    match answer {
        LogletAnswer::Begun(ticket) => format!(in alloc; "begun {}", ticket.number()),
        LogletAnswer::Refusal(refused) => format!(in alloc; "{refused}"),
        LogletAnswer::Carried => format!(in alloc; "carried"),
        LogletAnswer::Taken(None) => format!(in alloc; "undecided"),
        LogletAnswer::Taken(Some(answer)) => outcome(alloc, answer),
        LogletAnswer::Forgotten => format!(in alloc; "forgotten"),
        LogletAnswer::LeftIs(first, second) => format!(in alloc; "left {first} {second}"),
        LogletAnswer::Strayed => format!(in alloc; "strayed"),
        LogletAnswer::Stopped => format!(in alloc; "stopped"),
        LogletAnswer::Restarted(up) => format!(in alloc; "restarted {up}"),
        LogletAnswer::Skipped => format!(in alloc; "skipped"),
    }
}

/// The answer of an operation in words.
fn outcome(alloc: Global, answer: &Answer) -> Result<String, AllocError> {
    match answer {
        Answer::Placed(position) => format!(in alloc; "placed {position}"),
        Answer::Settled => format!(in alloc; "settled"),
        Answer::OpenTail(length) => format!(in alloc; "open tail {length}"),
        Answer::SealedTail(length) => format!(in alloc; "sealed tail {length}"),
        Answer::SealDone => format!(in alloc; "seal done"),
        Answer::Got(entry) => {
            let payload = shown(alloc, entry.payload.as_slice())?;
            format!(in alloc; "got {payload}")
        }
        Answer::CutAt(position) => format!(in alloc; "cut at {position}"),
        Answer::Beyond(length) => format!(in alloc; "beyond {length}"),
        Answer::TrimDone => format!(in alloc; "trim done"),
        Answer::Sealed => format!(in alloc; "sealed"),
        Answer::NoQuorum { unreached } => format!(in alloc; "no quorum, {unreached} unreached"),
    }
}
