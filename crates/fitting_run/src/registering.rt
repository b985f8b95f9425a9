//! Whether the chain that is told is the last that the register gave, as a plain program.
ghost use Rattle.std.specs.Prelude.{◌≡◌, ◌↔◌, IsTrue};
ghost use Rattle.chain_map.specs.Chain.{goes_on, is_chain, is_linked};
ghost use Rattle.fitting_run.specs.Fits.{ChainIsRegistered};
ghost use Rattle.fitting_run.specs.Registers.{register_of};

use crate::replacing::first_start;
use crate::told::Told;
use delos_types::chain::{Chain, Segment};

/// What is read of the register of the chain once a run has ended.
#[derive(Drop)]
pub struct RegisterShown {
    /// What stands.
    pub version: u64,
    pub chain: Chain,
    /// What was given last.
    pub given: u64,
    pub given_chain: Chain,
    pub down: bool,
    pub faults: u64,
    /// How many reopenings failed.
    pub misses: u64,
}

fn goes_on(s: &Segment, t: &Segment) -> bool
    ensures { result ≡ goes_on s.now t.now }
{
    let joins = match s.end {
        Some(end) => s.start <= end && end == t.start,
        None => false,
    };
    s.id < t.id && joins
}

fn is_linked(segments: &[Segment]) -> bool
    ensures { result ≡ is_linked segments.now }
{
    match segments {
        [] => false,
        [last] => last.id < 64 && last.end.is_none(),
        [s, rest @ ..] => goes_on(s, &rest[0]) && is_linked(rest),
    }
}

fn is_chain(chain: &Chain) -> bool
    ensures { result ≡ is_chain chain.now }
{
    is_linked(chain.segments.as_slice()) && first_start(chain) <= chain.trim
}

fn same_segments(some: &[Segment], others: &[Segment]) -> bool
    ensures { IsTrue result ↔ (some.now ≡ others.now) }
{
    match (some, others) {
        ([], []) => true,
        ([s, more @ ..], [t, rest @ ..]) => *s == *t && same_segments(more, rest),
        _ => false,
    }
}

fn same_chain(a: &Chain, b: &Chain) -> bool
    ensures { IsTrue result ↔ (a.now ≡ b.now) }
{
    a.trim == b.trim && same_segments(a.segments.as_slice(), b.segments.as_slice())
}

/// What is told is a chain, and it is with its version what the register gave last: the current one, unless the register is down,
/// which is told then, and was counted.
pub fn chain_is_registered(told: &Told, register: &RegisterShown) -> bool
    ensures { IsTrue result ↔ ChainIsRegistered told.now (register_of register.now) }
{
    is_chain(&told.chain)
        && told.version == register.given
        && same_chain(&told.chain, &register.given_chain)
        && (register.down || is_current(register))
        && told.down == register.down
        && (!register.down || register.misses >= 1)
}

fn is_current(register: &RegisterShown) -> bool
    ensures { IsTrue result ↔ ((register.now.version ≡ register.now.given) × (register.now.chain ≡ register.now.given_chain)) }
{
    register.version == register.given && same_chain(&register.chain, &register.given_chain)
}
