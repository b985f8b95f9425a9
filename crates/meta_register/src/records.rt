//! The record of a write in bytes, and back.
ghost use Rattle.std.specs.Prelude.{◌≡◌, ◌<◌, ◌^◌, IfOk, Some};
ghost use Rattle.std.specs.Option.{ForSome};
ghost use Rattle.chain_map.specs.Chain.{IsChain};
ghost use Rattle.meta_register.specs.Records.{SpellsStanding, standing_in};

use crate::standing::Standing;
use chain_map::{DecodeError, decode_chain, encode_chain};
use delos_types::big_endian::{put_u64, split_u64};
use delos_types::bytes::Bytes;
use delos_types::chain::Chain;
use std::alloc::{AllocError, Global};

/// The bytes of the record that this chain stands under this version.
pub(crate) fn spell(alloc: Global, version: u64, chain: &Chain) -> Result<Bytes, AllocError>
    requires version { version < 2 ^ 64 }
    requires chain { IsChain chain.now }
    ensures { IfOk result (λ bytes. SpellsStanding bytes (record { version = version; chain = chain.now })) }
{
    let spelled = encode_chain(alloc, chain)?;
    let mut out = Vec::new(alloc);
    put_u64(&mut out, version)?;
    out.extend_from_slice(spelled.as_slice())?;
    Ok(Bytes::from_vec(out))
}

/// What the bytes spell, if anything.
#[tactic(auto, unfolding(crate::specs::Records::standing_in))]
pub(crate) fn read(alloc: Global, bytes: &[u8]) -> Result<Option<Standing>, AllocError>
    ensures value { IfOk result (λ read. read ≡ standing_in bytes.now) }
    ensures chain { IfOk result (λ read. ForSome read (λ s. IsChain s.chain)) }
{
    let Some((version, rest)) = split_u64(bytes) else {
        return Ok(None);
    };
    match decode_chain(alloc, rest) {
        Ok(chain) => Ok(Some(Standing { version, chain })),
        Err(DecodeError::Memory) => Err(AllocError),
        Err(DecodeError::Bad(_)) => Ok(None),
    }
}
