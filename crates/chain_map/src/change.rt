//! How a chain begins and is changed: its last loglet is replaced, or its trim is raised.
ghost use Rattle.std.specs.Prelude.{◌≡◌, ◌+◌, ◌<◌, ◌^◌, IfOk, not, nat_le, filter};
ghost use Rattle.chain_map.specs.Chain.{IsChain, first_chain, last_segment, last_id, ends_where};
ghost use Rattle.chain_map.specs.Step.{extended, dropped_below};

use delos_types::chain::{Chain, Segment, Segments};
use std::alloc::{AllocError, Global};

/// The first chain of all: one open loglet, from position 0 on.
pub fn first_chain(alloc: Global) -> Result<Chain, AllocError>
    ensures { IfOk result (λ made. made ≡ first_chain) }
{
    let mut segments = Vec::new(alloc);
    segments.push(Segment {
        id: 0,
        start: 0,
        end: None,
    })?;
    Ok(Chain {
        trim: 0,
        segments: Segments::from_vec(segments),
    })
}

/// The chain whose last segment is closed `t` positions above its start, and continued by the next loglet.
pub fn extend(alloc: Global, chain: &Chain, t: u64) -> Result<Chain, AllocError>
    requires chain { IsChain chain.now }
    requires seam { (last_segment chain.now).start + t < 2 ^ 64 }
    requires next { last_id chain.now + 1 < 64 }
    ensures value { IfOk result (λ made. made ≡ extended chain.now t) }
    ensures chain { IfOk result IsChain }
{
    let Some((last, before)) = chain.segments.as_slice().split_last() else {
        unreachable!()
    };
    let seam = last.start + t;
    let mut segments = Vec::with_capacity(alloc, before.len() + 2)?;
    segments.extend_from_slice(before)?;
    segments.push(Segment {
        id: last.id,
        start: last.start,
        end: Some(seam),
    })?;
    segments.push(Segment {
        id: last.id + 1,
        start: seam,
        end: None,
    })?;
    Ok(Chain {
        trim: chain.trim,
        segments: Segments::from_vec(segments),
    })
}

/// The chain whose trim is `n`, without the segments that end at or below it.
pub fn drop_below(alloc: Global, chain: &Chain, n: u64) -> Result<Chain, AllocError>
    requires chain { IsChain chain.now }
    requires rise { chain.now.trim < n }
    ensures value { IfOk result (λ made. made ≡ dropped_below chain.now n) }
    ensures chain { IfOk result IsChain }
{
    let segments = needed_above(alloc, chain.segments.as_slice(), n)?;
    Ok(Chain {
        trim: n,
        segments: Segments::from_vec(segments),
    })
}

// The segments that don't end at or below n.
fn needed_above(alloc: Global, segments: &[Segment], n: u64) -> Result<Vec<Segment>, AllocError>
    ensures { IfOk result (λ kept. kept.items ≡ filter (λ s. not (ends_where (λ end. nat_le end n) s)) segments.now) }
{
    segments
        .iter()
        .copied()
        .filter(|s| !ends_by(s, n))
        .collect(alloc)
}

// The segment is closed, and ends at or below n.
fn ends_by(segment: &Segment, n: u64) -> bool
    ensures { result ≡ ends_where (λ end. nat_le end n) segment.now }
{
    match segment.end {
        None => false,
        Some(end) => end <= n,
    }
}
