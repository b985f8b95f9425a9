//! Values with a journal.
ghost use Rattle.std.specs.Prelude.{ℕ, List};

/// A value with a journal that only grows. Each entry is signed with the number of a part.
pub trait Chronicled {
    type Entry;

    ghost journal: { Self → List Self.Entry };

    ghost signer: { Self.Entry → ℕ };
}
