//! Reading a source up to its end or a limit, and putting a text whole.
ghost use Rattle.std.specs.Prelude.{◌≡◌, ◌≤◌, ◌<◌, IfOk, OnOk, OnErr, length, vec_len};
ghost use Rattle.outside_ends.specs.Faults.{Counts};
ghost use Rattle.outside_ends.specs.Sinks.{Gains};
ghost use Rattle.outside_ends.specs.Whole.{ReadsUpTo, LosesFront, GainsFront, Steps, is_source_fault, is_error};

use crate::sink::{Sink, Written};
use crate::source::{Source, Taken};
use std::alloc::{AllocError, Global};

/// Why a source was not read.
#[derive(Clone, Copy, Debug, PartialEq, Eq)]
pub enum ReadError {
    /// Memory ran out.
    Memory,
    /// The source failed.
    Failed,
}

impl From<AllocError> for ReadError {
    ghost use Rattle.outside_ends.specs.declared.whole.ReadError.TheVariants.{Memory};

    ghost from_gives = { λ _ e. e ≡ Memory };

    fn from(_: AllocError) -> Self {
        ReadError::Memory
    }
}

/// A sink failed.
#[derive(Clone, Copy, Debug, PartialEq, Eq)]
pub struct SinkFault;

// Takes what one call gives, and says whether more may come.
fn take_more<S: Source>(
    source: &mut S,
    buf: &mut [u8],
    bytes: &mut Vec<u8>,
) -> Result<bool, ReadError>
    requires { 0 < length buf.old }
    ensures step { IfOk result (λ more. Steps more (length buf.new) (S.left source.old) (S.left source.new) bytes.old.items bytes.new.items) }
    ensures rest { OnErr result (LosesFront (S.left source.old) (S.left source.new)) }
    ensures cause { Counts (S.counted source.old) (S.counted source.new) (is_source_fault result) }
{
    match source.take(buf) {
        Taken::Took(n) => {
            bytes.extend_from_slice(&buf[..n])?;
            Ok(true)
        }
        Taken::End => Ok(false),
        Taken::Failed => Err(ReadError::Failed),
    }
}

// How many bytes are taken in one call.
const CHUNK: usize = 4096;

/// Reads the source to its end, or until `limit` bytes are read, with one copy of each byte.
/// After an error, what was read is lost.
pub fn read_up_to<S: Source>(
    alloc: Global,
    source: &mut S,
    limit: usize,
) -> Result<Vec<u8>, ReadError>
    ensures within { IfOk result (λ v. vec_len v ≤ limit) }
    ensures bytes { IfOk result (λ v. ReadsUpTo limit (S.left source.old) (S.left source.new) v.items) }
    ensures rest { OnErr result (LosesFront (S.left source.old) (S.left source.new)) }
    ensures cause { Counts (S.counted source.old) (S.counted source.new) (is_source_fault result) }
{
    let mut bytes = Vec::new(alloc);
    let mut buf = [0u8; CHUNK];
    while bytes.len() < limit {
        let room = (limit - bytes.len()).min(CHUNK);
        if !take_more(source, &mut buf[..room], &mut bytes)? {
            return Ok(bytes);
        }
    }
    Ok(bytes)
}

/// Puts the text whole. A sink that fails leaves a front of it.
pub fn put_whole<K: Sink>(sink: &mut K, text: &[u8]) -> Result<(), SinkFault>
    ensures whole { OnOk result (Gains (K.held sink.old) (K.held sink.new) text.now) }
    ensures front { OnErr result (GainsFront (K.held sink.old) (K.held sink.new) text.now) }
    ensures cause { Counts (K.counted sink.old) (K.counted sink.new) (is_error result) }
{
    let mut at = 0;
    while at < text.len() {
        match sink.put(&text[at..]) {
            Written::Put(n) => at += n,
            Written::Failed => return Err(SinkFault),
        }
    }
    Ok(())
}
