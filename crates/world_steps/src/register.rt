//! The register of the chain.
ghost use Rattle.std.specs.Prelude.{◌≡◌, ◌+◌, ◌<◌, ◌^◌, ◌&&◌, ◌==◌, nat_le, ◌++◌, ◌∷◌, [], IfOk, OnOk, length, option_map};
ghost use Rattle.chain_map.specs.Chain.{IsChain, last_id as last_id_of};
ghost use Rattle.world_steps.specs.Parts.{first_register, given_under, last_given as last_given_of};
ghost use Rattle.world_steps.specs.Guards.{changed as changed_by, ChangeFits, is_trimmed as is_trimmed_by, is_below as is_below_by};
ghost use Rattle.world_steps.specs.Steps.{gave, replaced, torn_by, mended};

use crate::step::ChainChange;
use chain_map::change::{drop_below, extend, first_chain};
use delos_types::chain::{Chain, Segment};
use std::alloc::{AllocError, Global};
use std::marker::Model;

/// The register: what stands, what it gave, and whether it is up.
#[derive(Drop)]
pub struct RegisterState {
    version: u64,
    chain: Chain,
    given: Vec<Chain>,
    torn: Option<Chain>,
    up: bool,
}

impl Model for RegisterState {
    ghost use Rattle.std.specs.Prelude.{◌<◌, length};
    ghost use Rattle.world_steps.specs.Parts.{Register};

    ghost Value = { Register };

    ghost view = { λ r. record { version = r.version; chain = r.chain; given = r.given.items; torn = r.torn; up = r.up } };

    ghost invariant = { λ r. 0 < length r.given.items };
}

impl Clone for RegisterState {
    ghost is_clone = { λ x y. y ≡ x };

    fn clone(&self) -> Result<RegisterState, AllocError> {
        let chain = self.chain.clone()?;
        let given = self.given.clone()?;
        let torn = self.torn.clone()?;
        Ok(RegisterState {
            version: self.version,
            chain,
            given,
            torn,
            up: self.up,
        })
    }
}

impl RegisterState {
    /// The register with the first chain, under version 1, which is known.
    pub fn new(alloc: Global) -> Result<RegisterState, AllocError>
        ensures { IfOk result (λ made. made ≡ first_register) }
    {
        let chain = first_chain(alloc)?;
        let known = first_chain(alloc)?;
        let mut given = Vec::new(alloc);
        given.push(known)?;
        Ok(RegisterState {
            version: 1,
            chain,
            given,
            torn: None,
            up: true,
        })
    }

    /// The version that stands.
    pub fn version(&self) -> u64
        ensures { result ≡ self.now.version }
    {
        self.version
    }

    /// The chain that stands.
    pub fn chain(&self) -> &Chain
        ensures { result.now ≡ self.now.chain }
    {
        &self.chain
    }

    pub fn is_up(&self) -> bool
        ensures { result ≡ self.now.up }
    {
        self.up
    }

    /// The chain that it gave under a version.
    pub fn given_under(&self, version: u64) -> Option<&Chain>
        ensures { option_map (λ chain. chain.now) result ≡ given_under self.now version }
    {
        if version == 0 {
            return None;
        }
        self.given.get((version - 1) as usize)
    }

    /// The last chain that it gave.
    pub fn last_given(&self) -> &Chain
        ensures { result.now ≡ last_given_of self.now }
    {
        &self.given[self.given.len() - 1]
    }

    /// Whether the first n positions of the cell are trimmed.
    pub fn is_trimmed(&self, cell: u32, n: u64) -> bool
        ensures { result ≡ is_trimmed_by self.now cell n }
    {
        let trim = self.last_given().trim;
        self.given
            .iter()
            .any(|chain| is_below(chain, trim, cell, n))
    }

    /// A client is given what stands.
    pub fn give(&mut self) -> Result<(), AllocError>
        ensures { OnOk result (self.new ≡ gave self.old) }
    {
        if self.version == self.given.len() as u64 {
            return Ok(());
        }
        let chain = self.chain.clone()?;
        self.given.push(chain)?;
        Ok(())
    }

    /// The chain is replaced.
    pub fn replace(&mut self, chain: Chain) -> Result<(), AllocError>
        requires { self.old.version < 2 ^ 48 }
        ensures { OnOk result (self.new ≡ replaced self.old chain) }
    {
        let known = chain.clone()?;
        self.given.push(known)?;
        self.version += 1;
        self.chain = chain;
        Ok(())
    }

    /// It stops inside the write of this chain.
    pub fn tear(&mut self, chain: Chain)
        ensures { self.new ≡ torn_by self.old chain }
    {
        self.torn = Some(chain);
        self.up = false;
    }

    /// It comes up, and finds the write inside which it stopped done or not.
    pub fn mend(&mut self, kept: bool)
        requires { self.old.version < 2 ^ 48 }
        ensures { self.new ≡ mended self.old kept self.old.torn }
    {
        self.up = true;
        let torn = self.torn.take();
        let Some(chain) = torn else {
            return;
        };
        if kept {
            self.version += 1;
            self.chain = chain;
        }
    }
}

/// In this chain the cell has a segment, whose first n positions are below the trim.
fn is_below(chain: &Chain, trim: u64, cell: u32, n: u64) -> bool
    ensures { result ≡ is_below_by trim cell n chain.now }
{
    chain
        .segments
        .as_slice()
        .iter()
        .any(|segment| starts_below(segment, trim, cell, n))
}

fn starts_below(segment: &Segment, trim: u64, cell: u32, n: u64) -> bool
    ensures { result ≡ ((segment.now.id == cell) && nat_le (segment.now.start + n) trim) }
{
    segment.id == cell && segment.start <= trim && n <= trim - segment.start
}

/// The chain that a writer asks for.
pub fn changed(alloc: Global, chain: &Chain, change: ChainChange) -> Result<Chain, AllocError>
    requires chain { IsChain chain.now }
    requires fits { ChangeFits chain.now change }
    ensures { IfOk result (λ made. made ≡ changed_by chain.now change) }
{
    match change {
        ChainChange::Extend(tail) => extend(alloc, chain, tail),
        ChainChange::Raise(trim) => drop_below(alloc, chain, trim),
    }
}

/// The last segment's cell.
pub fn last_id(chain: &Chain) -> u32
    ensures { result ≡ last_id_of chain.now }
{
    match chain.segments.as_slice().split_last() {
        Some((last, _)) => last.id,
        None => 0,
    }
}
