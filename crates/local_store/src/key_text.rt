//! Keys of a space as texts, which mostly are short.
ghost use Rattle.std.specs.Prelude.{◌≡◌, ℕ, List, IfOk, refl, Some};
ghost use Rattle.std.specs.Cmp.Lexicographic.{pointwise, slice_cmp, nat_list_eq_equiv, nat_list_cmp_total, texts_ties, texts_po};
ghost use Rattle.std.specs.Cmp.{partial_equiv_from_equiv};
ghost use Rattle.std.specs.Prelude.{nat_eq};
ghost use Rattle.std.specs.Ordering.{nat_cmp};

use smallvec::SmallVec;
use std::alloc::{AllocError, Global};
use std::cmp::Ordering;
use std::marker::Model;

/// The bytes of a key, ordered as texts are. A key of at most 16 bytes takes no memory beside the value.
#[derive(Drop)]
pub(crate) struct KeyText {
    items: SmallVec<u8, 16>,
}

impl Model for KeyText {
    ghost use Rattle.std.specs.Prelude.{ℕ, List};

    ghost Value = { List ℕ };

    ghost view = { λ k. k.items.items };
}

impl KeyText {
    /// A copy of these bytes.
    pub(crate) fn from_slice(alloc: Global, bytes: &[u8]) -> Result<KeyText, AllocError>
        ensures { IfOk result (λ made. made ≡ bytes.now) }
    {
        let items = SmallVec::from_slice(alloc, bytes)?;
        Ok(KeyText { items })
    }

    pub(crate) fn as_slice(&self) -> &[u8]
        ensures { result.now ≡ self.now }
    {
        self.items.as_slice()
    }
}

impl Clone for KeyText {
    ghost is_clone = { λ x y. y ≡ x };

    fn clone(&self) -> Result<KeyText, AllocError> {
        KeyText::from_slice(*self.items.allocator(), self.items.as_slice())
    }
}

impl PartialEq for KeyText {
    ghost eq = { pointwise nat_eq };

    ghost laws = { partial_equiv_from_equiv nat_list_eq_equiv };

    fn eq(&self, other: &KeyText) -> bool {
        self.as_slice() == other.as_slice()
    }
}

impl Eq for KeyText {
    ghost laws = { nat_list_eq_equiv };
}

impl PartialOrd for KeyText {
    ghost partial_cmp = { λ x y. Some (slice_cmp nat_cmp x y) };

    ghost laws = { texts_po };

    fn partial_cmp(&self, other: &KeyText) -> Option<Ordering> {
        Some(self.cmp(other))
    }
}

impl Ord for KeyText {
    ghost cmp = { slice_cmp nat_cmp };

    ghost total = { nat_list_cmp_total };

    ghost matches_partial_cmp = { λ x y. refl };

    ghost matches_eq = { λ x y. texts_ties x y };

    fn cmp(&self, other: &KeyText) -> Ordering {
        self.as_slice().cmp(other.as_slice())
    }
}
