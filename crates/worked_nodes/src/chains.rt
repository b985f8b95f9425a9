//! Chains that are written into the register, and read a last time.
ghost use Rattle.std.specs.Prelude.{◌<◌, ◌≤◌, ◌^◌};

use crate::shelf::{Cell, Free, Register, fabric_on_three};
use crate::stuck::Stuck;
use crate::words::{Words, failing};
use chain_map::change::{drop_below, first_chain};
use fabric_core::own::Own;
use last_chain::last::{Last, read_last};
use legal_journal::events::{FabricAnswer, FabricCall};
use legal_journal::turns::Turns;
use std::alloc::{AllocError, Global};

/// The trim is raised at most up to here.
const MOST: u64 = 1000;

/// The turns of a user who is alone.
type Turn = Own<Cell, Register, Free>;

/// What comes of the lines of a case, of which the first may say which calls of the register's disk fail, and the last that
/// the chain is read a last time.
pub(crate) fn play(alloc: Global, lines: &[&str], out: &mut String) -> Result<(), Stuck> {
    let (failing, lines) = failing(alloc, lines)?;
    let Some(fabric) = fabric_on_three(alloc, failing) else {
        return Err(Stuck::Failed);
    };
    let mut turns = Own { who: 1, fabric };
    for line in lines {
        if *line == "last" {
            return Ok(push_last(alloc, out, turns)?);
        }
        raise(alloc, &mut turns, &mut Words::of(line), out)?;
    }
    Ok(())
}

/// `raise TRIM`.
fn raise(
    alloc: Global,
    turns: &mut Turn,
    words: &mut Words<'_>,
    out: &mut String,
) -> Result<(), Stuck> {
    let (name, n) = (words.word(), words.number());
    words.end()?;
    if name != "raise" || n == 0 || n > MOST {
        return Err(Stuck::Line);
    }
    write!(out, "raise {n}: ")?;
    Ok(push_answer(out, raise_first(alloc, turns, n)?)?)
}

fn push_answer(out: &mut String, answer: FabricAnswer) -> Result<(), AllocError> {
    match answer {
        FabricAnswer::Written(version) => writeln!(out, "written, version {version}"),
        FabricAnswer::Conflict(version, chain) => {
            let trim = chain.trim;
            writeln!(out, "refused, version {version} with trim {trim}")
        }
        _ => writeln!(out, "failed"),
    }
}

/// Writes the first chain with its trim raised to `n`, as one that knows of no other chain.
fn raise_first(alloc: Global, turns: &mut Turn, n: u64) -> Result<FabricAnswer, AllocError>
    requires { (0 < n) × (n ≤ 2 ^ 38) }
{
    let first = first_chain(alloc)?;
    let next = drop_below(alloc, &first, n)?;
    Ok(turns.turn(FabricCall::WriteChain(1, next)))
}

/// The version and the trim of the chain that is read a last time, and whether its register is down.
fn push_last(alloc: Global, out: &mut String, turns: Turn) -> Result<(), AllocError> {
    let Own { who, fabric } = turns;
    let Last { fabric: _, answer } = read_last(alloc, who, fabric);
    let last = answer?;
    let state = if last.down { "down" } else { "up" };
    let (version, trim) = (last.version, last.chain.trim);
    writeln!(
        out,
        "last: version {version}, trim {trim}, the register is {state}"
    )
}
