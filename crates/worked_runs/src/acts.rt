//! The places and the ranks of acts.
use crate::fits::show_rules;
use crate::words::{number_in, words_of};
use anyhow::{Context, bail};
use delos_types::numbers::{Rank, SessionId};
use delos_types::place::Place;
use engine_api::act::Act;
use fitting_run::fitting::{has_first_ranks, ranks_rise, stand_apart};
use std::alloc::Global;

/// An act without a command, from a line like `at 4 session 0 rank 1`.
fn act_in(alloc: Global, line: &str) -> anyhow::Result<Act> {
    let words = words_of(alloc, line)?;
    match words.as_slice() {
        ["at", pos, "session", session, "rank", rank] => Ok(Act {
            place: Place {
                pos: number_in(pos)?,
                sub: 0,
            },
            session: SessionId::new(session.parse::<u16>()?).context("no such session")?,
            rank: Rank::new(number_in(rank)?).context("no such rank")?,
            command: None,
            reply: None,
        }),
        _ => bail!("no act: `{line}`"),
    }
}

/// Prints which rules the acts of a case break.
pub(crate) fn show_acts(rt: &HostRuntime, input: &[&str]) -> anyhow::Result<()> {
    let alloc = rt.alloc();
    let mut acts = Vec::new(alloc);
    for line in input {
        if *line != "no acts" {
            acts.push(act_in(alloc, line)?)?;
        }
    }
    let acts = acts.as_slice();
    show_rules(
        rt,
        &[
            ("ranks are a session's first", has_first_ranks(acts)),
            ("ranks rise with places", ranks_rise(acts)),
            ("no two sessions have one place", stand_apart(acts)),
        ],
    )
}
