//! Where bytes go.
ghost use Rattle.std.specs.Prelude.{◌≡◌, List, ℕ, Option, length};
ghost use Rattle.outside_ends.specs.Sinks.{PutsTo, PutsSome, has_failed};
ghost use Rattle.outside_ends.specs.Faults.{Counts};

/// What a call of `put` gave.
#[derive(Clone, Copy, Debug, PartialEq, Eq)]
pub enum Written {
    /// So many bytes, at least one where there were any.
    Put(usize),
    /// The sink failed, and counted it; nothing was put.
    Failed,
}

/// Bytes that go out, one after another.
pub trait Sink {
    /// What the sink holds, where it tells it.
    ghost held: { Self → Option (List ℕ) };
    /// How often a call failed; 2^64 - 1 stands for that and more.
    ghost counted: { Self → ℕ };

    /// Puts bytes off the front of `bytes`, at least one where there are any.
    fn put(&mut self, bytes: &[u8]) -> Written
        ensures some { PutsSome result (length bytes.now) }
        ensures bytes { PutsTo (held self.old) (held self.new) result bytes.now }
        ensures cause { Counts (counted self.old) (counted self.new) (has_failed result) };

    /// How often a call failed. The count never falls, and stands still at its type's end.
    fn faults(&self) -> u64
        ensures { result ≡ counted self.now };
}
