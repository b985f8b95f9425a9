//! What each kind of register does.
ghost use Rattle.std.specs.Prelude.{◌≡◌, ℕ, ◌<◌, ◌^◌};
ghost use Rattle.chain_map.specs.Chain.{IsChain};
ghost use Rattle.register_api.specs.View.{RegisterView, IsSound, armed_by};
ghost use Rattle.register_api.specs.Calls.{Reads, Writes, Reopens};

use crate::answer::{ReadAnswer, WriteAnswer};
use delos_types::chain::Chain;
use std::alloc::AllocError;

/// Holds the chain of a virtual log under a version that each write raises by one, and writes only where the version is
/// the expected one (MetaStore of OSDI 2020). A fresh register holds version 1: trim 0, and one open segment of loglet 0
/// from position 0.
///
/// What was `Written` is there for good. After `MetaFault` it is down, and answers `Down`, until a [`Register::reopen`]
/// answers true, which finds that write done or not. Want of memory is the only answer without a cause.
pub trait Register: Drop {
    /// What it shows.
    ghost view: { Self → RegisterView };

    /// The version and its chain.
    fn read(&mut self) -> Result<ReadAnswer, AllocError>
        ensures { Reads (view self.old) result (view self.new) };

    /// Writes a chain over the version that is expected.
    fn write(&mut self, expected: u64, chain: &Chain) -> Result<WriteAnswer, AllocError>
        requires version { (view self.old).version < 2 ^ 48 }
        requires chain { IsChain chain.now }
        ensures { Writes (view self.old) expected chain.now result (view self.new) };

    /// Arms the register, where it is up: its `after`-th change of a disk from now on stops inside itself; 0 takes that
    /// back. Where it is down the stop is counted, and nothing else.
    fn stop(&mut self, after: u64)
        ensures { view self.new ≡ armed_by (view self.old) after };

    /// Brings it up, with the write in which it failed or without, by an image of its disk that the word may pick. False
    /// where the disk failed, once. Where it is up, nothing is done.
    fn reopen(&mut self, word: u64) -> Result<bool, AllocError>
        ensures { Reopens (view self.old) word result (view self.new) };

    /// The version that the last `At`, `Written` or `Conflict` gave, 1 before any. Takes no memory.
    fn version(&self) -> u64
        ensures value { result ≡ (view self.now).given }

        // What holds of every register is known from here on.
        ensures sound { IsSound (view self.now) };

    /// How many faults came. It never falls, and stands still at 2^64 - 1.
    fn faults(&self) -> u64
        ensures { result ≡ (view self.now).faults };

    /// How many reopenings answered false. It never falls, and stands still at 2^64 - 1. Takes no memory.
    fn misses(&self) -> u64
        ensures { result ≡ (view self.now).misses };

    /// Whether it is down.
    fn is_down(&self) -> bool
        ensures { result ≡ (view self.now).down };
}
