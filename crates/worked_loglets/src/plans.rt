//! What an operation of a native loglet comes to, by what three servers told.
ghost use Rattle.std.specs.Prelude.{◌≢◌, ℕ, IfOk};

use anyhow::{Result, bail};
use native_plan::aims::Aims;
use native_plan::judge::{Verdict, judge};
use native_plan::member::Member;
use native_plan::message::Phase;
use quorum_cell::operation::Outcome;
use std::alloc::{AllocError, Global};
use worked_cases::bench::Bench;

/// An operation that wants length 4.
const WANT: u64 = 4;

/// Nothing is kept from line to line.
#[derive(Drop)]
pub struct PlanBench;

impl Bench for PlanBench {
    fn call(&mut self, alloc: Global, name: &str, words: &[&str]) -> Result<String> {
        let aims = Aims {
            phase: phase_of(name)?,
            want: WANT,
            cut: 0,
            place: 0,
            firm: 1,
        };
        if words.len() != 3 {
            bail!("three servers are wanted");
        }
        let members = [
            member_of(words[0])?,
            member_of(words[1])?,
            member_of(words[2])?,
        ];
        Ok(said(alloc, judge(aims, false, &members))?)
    }
}

fn phase_of(name: &str) -> Result<Phase>
    ensures { IfOk result (λ phase. (j : ℕ) → phase ≢ Phase.Reading j) }
{
    match name {
        "filling" => Ok(Phase::Filling),
        "asking" => Ok(Phase::Asking),
        "shutting" => Ok(Phase::Shutting),
        "trimming" => Ok(Phase::Trimming),
        _ => bail!("there is no phase {name}"),
    }
}

/// A server that told that it is open or sealed at a length, is unreached, or told nothing.
fn member_of(word: &str) -> Result<Member> {
    let mut member = Member::new(0);
    match word.split_once("=") {
        Some(("open", length)) => {
            member.at = length.parse::<u64>()?;
            member.opened = Some(member.at);
        }
        Some(("sealed", length)) => {
            member.at = length.parse::<u64>()?;
            member.sealed = Some(member.at);
        }
        _ if word == "unreached" => member.unreached = true,
        _ if word == "silent" => {}
        _ => bail!("a server doesn't tell {word}"),
    }
    Ok(member)
}

fn said(alloc: Global, verdict: Verdict) -> Result<String, AllocError> {
    match verdict {
        Verdict::Done(outcome) => done(alloc, outcome),
        Verdict::Go(phase) => going(alloc, phase),
    }
}

/// An operation that ends.
fn done(alloc: Global, outcome: Outcome) -> Result<String, AllocError> {
    match outcome {
        Outcome::Reached => format!(in alloc; "ends: reached"),
        Outcome::OpenTail(length) => format!(in alloc; "ends: open tail {length}"),
        Outcome::SealedTail(length) => format!(in alloc; "ends: sealed tail {length}"),
        Outcome::Shut => format!(in alloc; "ends: shut"),
        Outcome::NoQuorum(unreached) => format!(in alloc; "ends: no quorum, {unreached} unreached"),
        other => format!(in alloc; "ends: {other:?}"),
    }
}

/// An operation that goes on.
fn going(alloc: Global, phase: Phase) -> Result<String, AllocError> {
    match phase {
        Phase::Opening(length) => format!(in alloc; "goes on opening to {length}"),
        Phase::Mending(length) => format!(in alloc; "goes on mending to {length}"),
        Phase::Filling => format!(in alloc; "goes on filling"),
        Phase::Asking => format!(in alloc; "goes on asking"),
        Phase::Shutting => format!(in alloc; "goes on shutting"),
        Phase::Sealing => format!(in alloc; "goes on sealing"),
        other => format!(in alloc; "goes on: {other:?}"),
    }
}
