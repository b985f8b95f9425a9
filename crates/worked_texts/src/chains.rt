//! Chains in bytes, places in them, and their steps.
ghost use Rattle.std.specs.Prelude.{◌<◌, IfOk};
ghost use Rattle.chain_map.specs.Chain.{IsChain};

use crate::text::{numbers_in, print_bytes, read_bytes, unknown};
use chain_map::{Located, decode_chain, drop_below, encode_chain, extend, first_chain, locate};
use delos_types::chain::Chain;
use std::alloc::Global;
use std::io;

fn print_chain(rt: &HostRuntime, chain: &Chain) -> io::Result<()> {
    let trim = chain.trim;
    println!(rt; "trim {trim}")?;
    for segment in chain.segments.as_slice() {
        let id = segment.id;
        let start = segment.start;
        match segment.end {
            Some(end) => println!(rt; "seg {id} from {start} to {end}")?,
            None => println!(rt; "seg {id} from {start} open")?,
        }
    }
    Ok(())
}

fn print_located(rt: &HostRuntime, pos: u64, located: Located) -> io::Result<()> {
    match located {
        Located::Inside { id, index } => println!(rt; "{pos} at {index} of loglet {id}"),
        Located::Below(trim) => println!(rt; "{pos} below the trim {trim}"),
    }
}

/// A chain in bytes, behind a label.
fn print_spelled(rt: &HostRuntime, label: &str, chain: &Chain) -> io::Result<()>
    requires { IsChain chain.now }
{
    print_bytes(rt, label, encode_chain(rt.alloc(), chain)?.as_slice())
}

/// A position, a trim that isn't 0, and another position, which a line tells behind a 0.
fn steps_in(alloc: Global, line: &str) -> io::Result<(u64, u64, u64)>
    ensures { IfOk result (λ r. 0 < r.1) }
{
    match numbers_in(alloc, line)?.as_slice() {
        [0, before, trim, behind] if *trim > 0 => Ok((*before, *trim, *behind)),
        _ => Err(unknown()),
    }
}

/// The first chain, whose loglet is replaced while it is empty, and which is trimmed up to `trim`: each in bytes, and where
/// a position lies before the trim and another behind it.
fn show_steps(rt: &HostRuntime, line: &str) -> io::Result<()> {
    let alloc = rt.alloc();
    let (before, trim, behind) = steps_in(alloc, line)?;
    let first = first_chain(alloc)?;
    print_spelled(rt, "first", &first)?;
    let replaced = extend(alloc, &first, 0)?;
    print_spelled(rt, "replaced", &replaced)?;
    print_located(rt, before, locate(&replaced, before))?;
    let dropped = drop_below(alloc, &replaced, trim)?;
    print_chain(rt, &dropped)?;
    print_located(rt, behind, locate(&dropped, behind))
}

/// Reads a chain in bytes, and spells what was read; or prints the steps of the first chain.
pub(crate) fn show_chain(rt: &HostRuntime, input: &[&str]) -> io::Result<()> {
    let alloc = rt.alloc();
    if let [line] = input
        && line.starts_with("first chain")
    {
        return show_steps(rt, line);
    }
    match decode_chain(alloc, read_bytes(alloc, input)?.as_slice()) {
        Ok(chain) => {
            print_chain(rt, &chain)?;
            print_spelled(rt, "spelled", &chain)
        }
        Err(error) => println!(rt; "{error}"),
    }
}
