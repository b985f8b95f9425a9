//! The ends of a process: readers and writers of std, which tell nothing of what they hold.
ghost use Rattle.std.specs.Prelude.{◌≡◌};

use crate::sink::{Sink, Written};
use crate::source::{Source, Taken};
use std::io::{Read, Write};

/// A source over a reader. Each error of the reader is a fault, an interruption too.
#[derive(Drop)]
pub struct StdSource<R: Read> {
    reader: R,
    faults: u64,
}

impl<R: Read> StdSource<R> {
    pub fn new(reader: R) -> StdSource<R>
        ensures { result.faults ≡ 0 }
    {
        StdSource { reader, faults: 0 }
    }
}

impl<R: Read> Source for StdSource<R> {
    ghost use Rattle.std.specs.Prelude.{None};

    ghost left = { λ _. None };

    ghost counted = { λ s. s.faults };

    fn take(&mut self, buf: &mut [u8]) -> Taken {
        match self.reader.read(buf) {
            Ok(0) => Taken::End,
            Ok(n) => Taken::Took(n),
            Err(_) => {
                self.faults = self.faults.saturating_add(1);
                Taken::Failed
            }
        }
    }

    fn faults(&self) -> u64 {
        self.faults
    }
}

/// A sink over a writer, which should not keep bytes back: nothing flushes it. Each error of the
/// writer is a fault, an interruption too, and so is a write that takes none of its bytes.
#[derive(Drop)]
pub struct StdSink<W: Write> {
    writer: W,
    faults: u64,
}

impl<W: Write> StdSink<W> {
    pub fn new(writer: W) -> StdSink<W>
        ensures { result.faults ≡ 0 }
    {
        StdSink { writer, faults: 0 }
    }
}

impl<W: Write> Sink for StdSink<W> {
    ghost use Rattle.std.specs.Prelude.{None};

    ghost held = { λ _. None };

    ghost counted = { λ s. s.faults };

    fn put(&mut self, bytes: &[u8]) -> Written {
        if bytes.is_empty() {
            return Written::Put(0);
        }
        match self.writer.write(bytes) {
            Ok(n) if n > 0 => Written::Put(n),
            _ => {
                self.faults = self.faults.saturating_add(1);
                Written::Failed
            }
        }
    }

    fn faults(&self) -> u64 {
        self.faults
    }
}
