//! Chains from bytes.
ghost use Rattle.std.specs.Prelude.{◌≡◌, length, IfOk, Ok};
ghost use Rattle.delos_types.specs.declared.chain.Chain as chain_view;
ghost use Rattle.chain_map.specs.Format.{SpellsChain};
ghost use Rattle.chain_map.specs.Reading.{Gives, chain_read};

use crate::fault::DecodeError;
use crate::fields::{count_at, nothing_at, segments_at, u64_at, version_at};
use delos_types::chain::{Chain, Segments};
use std::alloc::Global;

/// The chain that all of the bytes spell.
pub fn decode_chain(alloc: Global, bytes: &[u8]) -> Result<Chain, DecodeError>
    // What is read is spelled so.
    ensures found { IfOk result (SpellsChain bytes.now) }
    // What is spelled so is read, unless memory runs out.
    ensures only { (c : chain_view.Chain) → SpellsChain bytes.now c → Gives result (Ok c) }
    // Else the first rule that the bytes break, and where.
    ensures exact { Gives result (chain_read bytes.now) }
{
    read_chain(alloc, bytes)
}

#[tactic(auto, unfolding(crate::specs::Reading::chain_read, crate::specs::Reading::chain_fields, delos_types::specs::Fields::ended))]
fn read_chain(alloc: Global, bytes: &[u8]) -> Result<Chain, DecodeError>
    ensures { Gives result (chain_read bytes.now) }
{
    let size = bytes.len();
    let (_, rest) = version_at(size, bytes)?;
    let (trim, rest) = u64_at(size, rest)?;
    let (count, rest) = count_at(size, rest)?;
    let (segments, rest) = segments_at(alloc, size, trim, count, rest)?;
    nothing_at(size, rest)?;
    Ok(Chain {
        trim,
        segments: Segments::from_vec(segments),
    })
}
