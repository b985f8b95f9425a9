//! The chain that a run tells, and the register that it was read from.
use crate::fits::show_rules;
use crate::words::{number_in, words_of};
use anyhow::bail;
use delos_types::chain::{Chain, Segment, Segments};
use fitting_run::registering::{RegisterShown, chain_is_registered};
use fitting_run::told::Told;
use row_text::row::Rows;
use std::alloc::{AllocError, Global};

/// A chain of two loglets of which the second is open.
fn chain_of(alloc: Global, trim: u64, start: u64, next: u64) -> Result<Chain, AllocError> {
    let mut segments = Vec::new(alloc);
    segments.push(Segment {
        id: 0,
        start: 0,
        end: Some(start),
    })?;
    segments.push(Segment {
        id: 1,
        start: next,
        end: None,
    })?;
    Ok(Chain {
        trim,
        segments: Segments::from_vec(segments),
    })
}

/// What a case tells: the version and the trim of a chain whose second loglet begins at 4.
fn chain_in(alloc: Global, words: &[&str]) -> anyhow::Result<(u64, Chain)> {
    match words {
        ["version", version, "trim", trim] => Ok((
            number_in(version)?,
            chain_of(alloc, number_in(trim)?, 4, 4)?,
        )),
        ["version", version, "trim", trim, "gap"] => Ok((
            number_in(version)?,
            chain_of(alloc, number_in(trim)?, 4, 5)?,
        )),
        _ => bail!("no chain"),
    }
}

/// Whether the register is down, as a word says.
fn is_down(word: &str) -> anyhow::Result<bool> {
    match word {
        "up" => Ok(false),
        "down" => Ok(true),
        _ => bail!("up or down"),
    }
}

fn told_in(alloc: Global, line: &str) -> anyhow::Result<Told> {
    let words = words_of(alloc, line)?;
    let ["told", state, chain @ ..] = words.as_slice() else {
        bail!("nothing told: `{line}`");
    };
    let (version, chain) = chain_in(alloc, chain)?;
    Ok(Told {
        rows: Rows::from_vec(Vec::new(alloc)),
        end: 0,
        version,
        chain,
        down: is_down(state)?,
    })
}

/// The register, from what stands there, what it gave last, and how often a reopening failed.
fn register_in(
    alloc: Global,
    stands: &str,
    gave: &str,
    missed: &str,
) -> anyhow::Result<RegisterShown> {
    let stands = words_of(alloc, stands)?;
    let gave = words_of(alloc, gave)?;
    let missed = words_of(alloc, missed)?;
    let (["register", state, stands @ ..], ["gave", gave @ ..], ["missed", misses]) = (
        stands.as_slice(),
        gave.as_slice(),
        missed.as_slice(),
    ) else {
        bail!("no register");
    };
    let (version, chain) = chain_in(alloc, stands)?;
    let (given, given_chain) = chain_in(alloc, gave)?;
    Ok(RegisterShown {
        version,
        chain,
        given,
        given_chain,
        down: is_down(state)?,
        faults: 0,
        misses: number_in(misses)?,
    })
}

/// Prints whether the chain that a case tells is the register's.
pub(crate) fn show_registers(rt: &HostRuntime, input: &[&str]) -> anyhow::Result<()> {
    let alloc = rt.alloc();
    let [told, stands, gave, missed] = input else {
        bail!("four lines");
    };
    let told = told_in(alloc, told)?;
    let register = register_in(alloc, stands, gave, missed)?;
    show_rules(
        rt,
        &[(
            "the chain is the last that the register gave",
            chain_is_registered(&told, &register),
        )],
    )
}
