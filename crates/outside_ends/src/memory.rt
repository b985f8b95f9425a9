//! Ends in memory, whose chosen calls fail.
ghost use Rattle.std.specs.Prelude.{◌≡◌, ◌==◌, ◌<◌, ◌≤◌, IfOk, Some, [], length};
ghost use Rattle.std.specs.List.{list_any};
ghost use Rattle.outside_ends.specs.Faults.{Counts, one_more};
ghost use Rattle.outside_ends.specs.Sources.{TakesFrom, TakesSome};
ghost use Rattle.outside_ends.specs.Sources as sources;
ghost use Rattle.outside_ends.specs.Sinks.{PutsTo, PutsSome};
ghost use Rattle.outside_ends.specs.Sinks as sinks;
ghost use Rattle.outside_ends.specs.Memory.{take_answer, after_take, put_answer, after_put};

use crate::sink::{Sink, Written};
use crate::source::{Source, Taken};
use std::alloc::{AllocError, Global};
use std::marker::Model;

/// A source over bytes, of which at most `piece` move in a call. The calls numbered in `failing`,
/// from 1, fail, and no others.
#[derive(Drop)]
pub struct MemSource {
    bytes: Vec<u8>,
    at: usize,
    piece: usize,
    failing: Vec<u64>,
    calls: u64,
    faults: u64,
}

impl Model for MemSource {
    ghost use Rattle.std.specs.Prelude.{◌≤◌, drop, length};
    ghost use Rattle.outside_ends.specs.Memory.{Reading};

    ghost Value = { Reading };

    ghost view = { λ s. record { left = drop s.at s.bytes.items; piece = s.piece; failing = s.failing.items; calls = s.calls; faults = s.faults } };

    ghost invariant = { λ s. (s.at ≤ length s.bytes.items) × (1 ≤ s.piece) };
}

impl MemSource {
    /// A source with these bytes left, of which no call was made yet.
    pub fn new(bytes: Vec<u8>, piece: usize, failing: Vec<u64>) -> MemSource
        requires { 1 ≤ piece }
        ensures { result ≡ record { left = bytes.items; piece = piece; failing = failing.items; calls = 0; faults = 0 } }
    {
        MemSource {
            bytes,
            at: 0,
            piece,
            failing,
            calls: 0,
            faults: 0,
        }
    }
}

fn is_among(failing: &[u64], call: u64) -> bool
    ensures { result ≡ list_any (λ k. k == call) failing.now }
{
    failing.contains(&call)
}

impl Source for MemSource {
    ghost use Rattle.std.specs.Prelude.{Some};

    ghost left = { λ s. Some s.left };

    ghost counted = { λ s. s.faults };

    fn take(&mut self, buf: &mut [u8]) -> Taken
        requires { 0 < length buf.old }
        ensures some { TakesSome result (length buf.new) }
        ensures bytes { TakesFrom (Some self.old.left) (Some self.new.left) result buf.new }
        ensures cause { Counts self.old.faults self.new.faults (sources.has_failed result) }
        ensures answer { result ≡ take_answer (length buf.new) self.old }
        ensures after { self.new ≡ after_take (length buf.new) self.old }
    {
        self.calls = self.calls.saturating_add(1);
        if is_among(self.failing.as_slice(), self.calls) {
            self.faults = self.faults.saturating_add(1);
            return Taken::Failed;
        }
        let left = &self.bytes[self.at..];
        if left.is_empty() {
            return Taken::End;
        }
        let n = left.len().min(self.piece).min(buf.len());
        buf[..n].copy_from_slice(&left[..n]);
        self.at += n;
        Taken::Took(n)
    }

    fn faults(&self) -> u64 {
        self.faults
    }
}

/// A sink that keeps what is put, at most `piece` bytes of it in a call. The calls numbered in
/// `failing`, from 1, fail, and so does each that finds no room for any of its bytes; no others.
#[derive(Drop)]
pub struct MemSink {
    bytes: Vec<u8>,
    limit: usize,
    piece: usize,
    failing: Vec<u64>,
    calls: u64,
    faults: u64,
}

impl Model for MemSink {
    ghost use Rattle.std.specs.Prelude.{◌≤◌, ◌-◌, vec_len, vec_capacity};
    ghost use Rattle.outside_ends.specs.Memory.{Writing};

    ghost Value = { Writing };

    ghost view = { λ s. record { held = s.bytes.items; room = s.limit - vec_len s.bytes; piece = s.piece; failing = s.failing.items; calls = s.calls; faults = s.faults } };

    ghost invariant = { λ s. (vec_len s.bytes ≤ s.limit) × (s.limit ≤ vec_capacity s.bytes) × (1 ≤ s.piece) };
}

impl MemSink {
    /// An empty sink with room for so many bytes, of which no call was made yet. Its room is made
    /// here, so that no call of `put` takes memory.
    pub fn new(
        alloc: Global,
        room: usize,
        piece: usize,
        failing: Vec<u64>,
    ) -> Result<MemSink, AllocError>
        requires { 1 ≤ piece }
        ensures { IfOk result (λ sink. sink ≡ record { held = []; room = room; piece = piece; failing = failing.items; calls = 0; faults = 0 }) }
    {
        let bytes = Vec::with_capacity(alloc, room)?;
        Ok(MemSink {
            bytes,
            limit: room,
            piece,
            failing,
            calls: 0,
            faults: 0,
        })
    }

    /// What it holds.
    pub fn as_slice(&self) -> &[u8]
        ensures { result.now ≡ self.now.held }
    {
        self.bytes.as_slice()
    }
}

impl Sink for MemSink {
    ghost use Rattle.std.specs.Prelude.{Some};

    ghost held = { λ s. Some s.held };

    ghost counted = { λ s. s.faults };

    fn put(&mut self, bytes: &[u8]) -> Written
        ensures some { PutsSome result (length bytes.now) }
        ensures bytes { PutsTo (Some self.old.held) (Some self.new.held) result bytes.now }
        ensures cause { Counts self.old.faults self.new.faults (sinks.has_failed result) }
        ensures answer { result ≡ put_answer (length bytes.now) self.old }
        ensures after { self.new ≡ after_put bytes.now self.old }
    {
        self.calls = self.calls.saturating_add(1);
        let room = self.limit - self.bytes.len();
        let n = bytes.len().min(self.piece).min(room);
        if is_among(self.failing.as_slice(), self.calls) || (!bytes.is_empty() && room == 0) {
            self.faults = self.faults.saturating_add(1);
            return Written::Failed;
        }
        let _ = self.bytes.extend_from_slice(&bytes[..n]);
        Written::Put(n)
    }

    fn faults(&self) -> u64 {
        self.faults
    }
}
