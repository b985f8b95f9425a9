//! Where bytes come from.
ghost use Rattle.std.specs.Prelude.{◌<◌, ◌≡◌, List, ℕ, Option, length};
ghost use Rattle.outside_ends.specs.Sources.{TakesFrom, TakesSome, has_failed};
ghost use Rattle.outside_ends.specs.Faults.{Counts};

/// What a call of `take` gave.
#[derive(Clone, Copy, Debug, PartialEq, Eq)]
pub enum Taken {
    /// So many bytes, from 1 to the room that there was.
    Took(usize),
    /// There are no more bytes.
    End,
    /// The source failed, and counted it.
    Failed,
}

/// Bytes that come in, one after another.
pub trait Source {
    /// What is left, where the source tells it.
    ghost left: { Self → Option (List ℕ) };
    /// How often a call failed; 2^64 - 1 stands for that and more.
    ghost counted: { Self → ℕ };

    /// Takes bytes off what is left, at least one, to the front of `buf`.
    fn take(&mut self, buf: &mut [u8]) -> Taken
        requires { 0 < length buf.old }
        ensures some { TakesSome result (length buf.new) }
        ensures bytes { TakesFrom (left self.old) (left self.new) result buf.new }
        ensures cause { Counts (counted self.old) (counted self.new) (has_failed result) };

    /// How often a call failed. The count never falls, and stands still at its type's end.
    fn faults(&self) -> u64
        ensures { result ≡ counted self.now };
}
