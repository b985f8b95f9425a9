//! Sources and sinks that move pieces of bytes, and fail.
use crate::text::{name_and_rest, numbers_in, out_of_memory, text_of, unknown};
use outside_ends::memory::{MemSink, MemSource};
use outside_ends::sink::{Sink, Written};
use outside_ends::source::Source;
use outside_ends::standard::{StdSink, StdSource};
use outside_ends::whole::{ReadError, put_whole, read_up_to};
use std::io;
use std::io::Cursor;

/// What is put to a sink.
const ROW: &[u8] = b"1 a @0.0 ok\n";

/// What stands in a source.
const LINE: &[u8] = b"on n1";

/// How many bytes a source of std is read up to.
const LIMIT: usize = 100;

/// A reader and writer that moves one byte in each of so many calls, and fails in each further one.
#[derive(Drop)]
struct Breaking {
    calls: u64,
}

impl Breaking {
    fn call(&mut self) -> io::Result<()> {
        if self.calls == 0 {
            return Err(io::Error::from(io::ErrorKind::Other));
        }
        self.calls -= 1;
        Ok(())
    }
}

impl io::Read for Breaking {
    fn read(&mut self, buf: &mut [u8]) -> io::Result<usize> {
        if buf.is_empty() {
            return Ok(0);
        }
        self.call()?;
        Ok(1)
    }
}

impl io::Write for Breaking {
    fn write(&mut self, buf: &[u8]) -> io::Result<usize> {
        if buf.is_empty() {
            return Ok(0);
        }
        self.call()?;
        Ok(1)
    }

    fn flush(&mut self) -> io::Result<()> {
        Ok(())
    }
}

/// Reads a source up to a limit, and prints what came of it, and how often it failed.
fn show_read<S: Source>(rt: &HostRuntime, source: &mut S, limit: usize) -> io::Result<()> {
    match read_up_to(rt.alloc(), source, limit) {
        Ok(bytes) => {
            let text = text_of(bytes.as_slice())?;
            print!(rt; "read {text:?}")?;
        }
        Err(ReadError::Failed) => print!(rt; "failed")?,
        Err(ReadError::Memory) => return Err(out_of_memory()),
    }
    let faults = source.faults();
    println!(rt; ", faults {faults}")
}

/// Puts the row to a sink, and prints whether it was put whole, and how often the sink failed.
fn show_put<K: Sink>(rt: &HostRuntime, sink: &mut K) -> io::Result<()> {
    let whole = match put_whole(sink, ROW) {
        Ok(()) => "yes",
        Err(_) => "no",
    };
    let faults = sink.faults();
    println!(rt; "put whole: {whole}, faults {faults}")
}

/// Puts the row to a vector, and nothing behind it.
fn show_vector(rt: &HostRuntime) -> io::Result<()> {
    let mut held = Vec::new(rt.alloc());
    let mut sink = StdSink::new(&mut held);
    show_put(rt, &mut sink)?;
    match sink.put(b"") {
        Written::Put(count) => println!(rt; "of nothing {count} bytes")?,
        Written::Failed => println!(rt; "of nothing none")?,
    }
    let faults = sink.faults();
    println!(rt; "faults {faults}")
}

/// Moves bytes by the sink or the source in memory of a line.
fn show_memory(rt: &HostRuntime, name: &str, numbers: &[u64]) -> io::Result<()> {
    let alloc = rt.alloc();
    match (name, numbers) {
        ("sink", [room, piece, failing @ ..]) if *piece > 0 => {
            let failing = Vec::from_slice(alloc, failing)?;
            let mut sink = MemSink::new(alloc, *room as usize, *piece as usize, failing)?;
            show_put(rt, &mut sink)?;
            let text = text_of(sink.as_slice())?;
            println!(rt; "held {text:?}")
        }
        ("source", [piece, limit, failing @ ..]) if *piece > 0 => {
            let failing = Vec::from_slice(alloc, failing)?;
            let bytes = Vec::from_slice(alloc, LINE)?;
            let mut source = MemSource::new(bytes, *piece as usize, failing);
            show_read(rt, &mut source, *limit as usize)
        }
        _ => Err(unknown()),
    }
}

/// Moves bytes by each of the ends of a case.
pub(crate) fn show_ends(rt: &HostRuntime, input: &[&str]) -> io::Result<()> {
    for line in input {
        let (name, _) = name_and_rest(line);
        let numbers = numbers_in(rt.alloc(), line)?;
        match (name, numbers.as_slice()) {
            ("source", []) => show_read(rt, &mut StdSource::new(Cursor::new(LINE)), LIMIT)?,
            ("source", [calls]) => {
                show_read(rt, &mut StdSource::new(Breaking { calls: *calls }), LIMIT)?;
            }
            ("sink", []) if line.ends_with("vector") => show_vector(rt)?,
            ("sink", []) => {
                let mut room = [0u8; 4];
                show_put(rt, &mut StdSink::new(room.as_mut_slice()))?;
            }
            ("sink", [calls]) => {
                let mut sink = StdSink::new(Breaking { calls: *calls });
                show_put(rt, &mut sink)?;
                show_put(rt, &mut sink)?;
            }
            (_, numbers) => show_memory(rt, name, numbers)?,
        }
    }
    Ok(())
}
