//! What is kept.
ghost use Rattle.std.specs.Prelude.{◌≡◌, ℕ, ◌^◌, Bool, true, if◌then◌else◌, Some, None, Ok, List, [], ◌∷◌, ◌++◌, length, IfOk, OnOk};
ghost use Rattle.journal_core.specs.Records.{payloads};
ghost use Rattle.kept_value.specs.View.{Kind};

use delos_types::bytes::Bytes;
use std::alloc::{AllocError, Global};

/// A value that a journal keeps, one record for each change.
pub trait KeptValue: Drop {
    /// A change of it.
    type Change: Drop;

    /// How it is kept.
    ghost kind: { Kind Self.Change };

    /// What it is.
    ghost state: { Self → kind.State };

    /// What holds of it besides.
    ghost IsSound: { Self → Type 0 };

    /// There is room for the change.
    ghost HasRoom: { Self → Self.Change → Type 0 };

    /// What no records spell.
    fn empty(alloc: Global) -> Result<Self, AllocError>
        ensures spelled { IfOk result (λ value. kind.spelled [] ≡ Some (state value)) }
        ensures sound { IfOk result IsSound };

    /// Takes one record more, behind so many others: true where it follows them, and false where it is none of this kind
    /// or doesn't follow. Then the value is of no use.
    fn take(&mut self, alloc: Global, before: usize, bytes: &[u8]) -> Result<bool, AllocError>
        requires sound { IsSound self.old }
        ensures taken { (records : List (List ℕ)) → length records ≡ before → kind.spelled records ≡ Some (state self.old) → IfOk result (λ taken. kind.spelled (records ++ bytes.now ∷ []) ≡ (if taken then Some (state self.new) else None)) }
        ensures sound { IfOk result (λ taken. taken ≡ true → IsSound self.new) };

    /// The record of a change.
    fn spell(&self, alloc: Global, change: &Self::Change) -> Result<Bytes, AllocError>
        requires sound { IsSound self.now }
        requires can { kind.CanChange (state self.now) change.now }
        ensures follows { (records : List (List ℕ)) → kind.spelled records ≡ Some (state self.now) → IfOk result (λ bytes. kind.spelled (records ++ bytes ∷ []) ≡ Some (kind.changed (state self.now) change.now)) };

    /// Makes room for a change, which is all that it does.
    fn make_room(&mut self, change: &Self::Change) -> Result<(), AllocError>
        requires sound { IsSound self.old }
        requires can { kind.CanChange (state self.old) change.now }
        ensures same { state self.new ≡ state self.old }
        ensures sound { IsSound self.new }
        ensures room { OnOk result (HasRoom self.new change.now) };

    /// Makes a change for which there is room.
    fn change(&mut self, change: Self::Change)
        requires sound { IsSound self.old }
        requires can { kind.CanChange (state self.old) change }
        requires room { HasRoom self.old change }
        ensures changed { state self.new ≡ kind.changed (state self.old) change }
        ensures sound { IsSound self.new };

    /// Whether a journal of so many records is compacted after this change.
    fn compacts(change: &Self::Change, records: usize) -> bool
        ensures { result ≡ kind.compacts change.now records };

    /// The records that spell the value once a change is made, for which there is room: what a journal is compacted to.
    fn compacted(&self, alloc: Global, change: &Self::Change) -> Result<Vec<Vec<u8>>, AllocError>
        requires sound { IsSound self.now }
        requires can { kind.CanChange (state self.now) change.now }
        requires room { HasRoom self.now change.now }
        ensures { IfOk result (λ records. kind.spelled (payloads records.items) ≡ Some (kind.changed (state self.now) change.now)) };
}
