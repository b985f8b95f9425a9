//! Chains in bytes.
ghost use Rattle.std.specs.Prelude.{◌≡◌, ◌<◌, ◌^◌, ◌++◌, length, IfOk, OnOk};
ghost use Rattle.std.specs.List.{AllByRecursion};
ghost use Rattle.chain_map.specs.Chain.{IsChain};
ghost use Rattle.chain_map.specs.Format.{SpellsChain, HasPositions, segment_bytes, segments_bytes};

use delos_types::big_endian::{put_u16, put_u32, put_u64};
use delos_types::bytes::Bytes;
use delos_types::chain::{Chain, Segment};
use std::alloc::{AllocError, Global};

/// The most bytes that spell a segment.
const SEGMENT_LEN: usize = 21;

/// The one spelling of the chain.
pub fn encode_chain(alloc: Global, chain: &Chain) -> Result<Bytes, AllocError>
    requires { IsChain chain.now }
    ensures { IfOk result (λ bytes. SpellsChain bytes chain.now) }
{
    let trim = chain.trim;
    let segments = chain.segments.as_slice();
    let mut out = Vec::with_capacity(alloc, 11 + SEGMENT_LEN * segments.len())?;
    out.push(1)?;
    put_u64(&mut out, trim)?;
    put_segments(&mut out, segments)?;
    Ok(Bytes::from_vec(out))
}

// The number of the segments, and the segments.
fn put_segments(out: &mut Vec<u8>, segments: &[Segment]) -> Result<(), AllocError>
    requires { length segments.now < 2 ^ 16 }
    ensures text { OnOk result (out.new.items ≡ out.old.items ++ segments_bytes segments.now) }
    ensures positions { OnOk result (AllByRecursion HasPositions segments.now) }
{
    put_u16(out, segments.len() as u16)?;
    for segment in segments {
        put_segment(out, segment)?;
    }
    Ok(())
}

fn put_segment(out: &mut Vec<u8>, segment: &Segment) -> Result<(), AllocError>
    ensures text { OnOk result (out.new.items ≡ out.old.items ++ segment_bytes segment.now) }
    ensures positions { OnOk result (HasPositions segment.now) }
{
    let Segment { id, start, end } = *segment;
    put_u32(out, id)?;
    put_u64(out, start)?;
    match end {
        None => out.push(0)?,
        Some(end) => {
            out.push(1)?;
            put_u64(out, end)?;
        }
    }
    Ok(())
}
