//! The space in which engines keep their state: a finite map from a kind and a key to a value.
ghost use Rattle.std.specs.Prelude.{◌≡◌, ◌<◌, ◌^◌, length, IfOk, OnOk, OnErr};
ghost use Rattle.std.specs.FinMap as map;
ghost use Rattle.delos_types.specs.Spaces.{SpaceMap, least_key_from};

use crate::bytes::Bytes;
use std::alloc::AllocError;

/// A finite map from an engine's kind and a key of bytes to a value of bytes. Each engine touches
/// the keys of its own kind alone. Every call may be refused for memory, and then changes nothing.
pub trait Space {
    /// What the space has, however it is kept.
    ghost contents: { Self → SpaceMap };

    /// What it had when it began to be changed, which no call changes: who lends a space knows by
    /// this that it gets the same one again.
    ghost beginning: { Self → SpaceMap };

    /// A copy of the value at a key.
    fn get(&self, kind: u8, key: &[u8]) -> Result<Option<Bytes>, AllocError>
        ensures { IfOk result (λ value. value ≡ map.get (contents self.now) (kind, key.now)) };

    /// A copy of the kind's least key that is at or above the one given; None where there is none.
    fn seek(&self, kind: u8, key: &[u8]) -> Result<Option<Bytes>, AllocError>
        ensures { IfOk result (λ found. found ≡ least_key_from (contents self.now) kind key.now) };

    /// Sets the value at a key of at most 65,535 bytes, to one of less than 2^32 bytes.
    fn put(&mut self, kind: u8, key: &[u8], value: &[u8]) -> Result<(), AllocError>
        requires key_fits { length key.now < 2 ^ 16 }
        requires value_fits { length value.now < 2 ^ 32 }
        ensures ok { OnOk result (contents self.new ≡ map.insert (contents self.old) (kind, key.now) value.now) }
        ensures err { OnErr result (contents self.new ≡ contents self.old) }
        ensures beginning { beginning self.new ≡ beginning self.old };

    /// Removes a key; a key that isn't there stays away.
    fn del(&mut self, kind: u8, key: &[u8]) -> Result<(), AllocError>
        ensures ok { OnOk result (contents self.new ≡ map.remove (contents self.old) (kind, key.now)) }
        ensures err { OnErr result (contents self.new ≡ contents self.old) }
        ensures beginning { beginning self.new ≡ beginning self.old };
}
