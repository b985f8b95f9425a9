//! Where a space keeps a value.
ghost use Rattle.std.specs.Prelude.{◌≡◌, ◌∷◌, IfOk, refl, Some, slice_index};
ghost use Rattle.std.specs.Cmp.{partial_equiv_from_equiv};
ghost use Rattle.std.specs.Option.{option_copied};
ghost use Rattle.delos_types.specs.Numbers.{u64_of};
ghost use Rattle.local_store.specs.Keys.{key_cmp, key_total, key_eq, key_equiv, key_po};

use crate::key_text::KeyText;
use delos_types::bytes::Bytes;
use std::alloc::{AllocError, Global};
use std::cmp::Ordering;
use std::collections::BTreeMap;
use std::marker::Model;

/// How many bytes the number in front of a key is of.
const FRONT: usize = 8;

/// An engine's kind and a key, by kind first. Most are told apart by one comparison of numbers.
#[derive(Drop)]
pub(crate) struct SpaceKey {
    // The kind and the first seven bytes as one number, the highest first, with zeros behind a shorter key.
    front: u64,
    kind: u8,
    text: KeyText,
}

impl Model for SpaceKey {
    ghost use Rattle.local_store.specs.Keys.{KeyView, key_code, HasFront};

    ghost Value = { KeyView };

    ghost coded = { key_code };

    ghost view = { λ k. record { kind = k.kind; key = k.text } };

    ghost invariant = { λ k. HasFront k.front k.kind k.text };
}

impl SpaceKey {
    pub(crate) fn kind(&self) -> u8
        ensures { result ≡ self.now.kind }
    {
        self.kind
    }

    pub(crate) fn text(&self) -> &KeyText
        ensures { result.now ≡ self.now.key }
    {
        &self.text
    }

    // The order of two keys with the same number in front. Short ones differ in zeros at the end alone.
    #[inline(never)]
    fn cmp_behind(&self, other: &SpaceKey) -> Ordering
        requires { u64_of (self.now.kind ∷ self.now.key) ≡ u64_of (other.now.kind ∷ other.now.key) }
        ensures { result ≡ key_cmp self.now other.now }
    {
        let one = self.text.as_slice();
        let two = other.text.as_slice();
        if one.len() < FRONT && two.len() < FRONT {
            return one.len().cmp(&two.len());
        }
        match self.kind.cmp(&other.kind) {
            Ordering::Equal => one.cmp(two),
            order => order,
        }
    }
}

impl Clone for SpaceKey {
    ghost is_clone = { λ x y. y ≡ x };

    fn clone(&self) -> Result<SpaceKey, AllocError> {
        let text = self.text.clone()?;
        Ok(SpaceKey {
            front: self.front,
            kind: self.kind,
            text,
        })
    }
}

impl PartialEq for SpaceKey {
    ghost eq = { key_eq };

    ghost laws = { partial_equiv_from_equiv key_equiv };

    fn eq(&self, other: &SpaceKey) -> bool {
        self.cmp(other).is_eq()
    }
}

impl Eq for SpaceKey {
    ghost laws = { key_equiv };
}

impl PartialOrd for SpaceKey {
    ghost partial_cmp = { λ x y. Some (key_cmp x y) };

    ghost laws = { key_po };

    fn partial_cmp(&self, other: &SpaceKey) -> Option<Ordering> {
        Some(self.cmp(other))
    }
}

impl Ord for SpaceKey {
    ghost cmp = { key_cmp };

    ghost total = { key_total };

    ghost matches_partial_cmp = { λ x y. refl };

    ghost matches_eq = { λ x y. refl };

    #[inline(always)]
    fn cmp(&self, other: &SpaceKey) -> Ordering {
        if self.front < other.front {
            return Ordering::Less;
        }
        if self.front > other.front {
            return Ordering::Greater;
        }
        self.cmp_behind(other)
    }
}

/// What is said of keys: a value, or that there is none.
pub(crate) type Slots = BTreeMap<SpaceKey, Option<Bytes>>;

/// A key, whose bytes are copied.
#[tactic(auto, using(crate::proofs::Heads::bytes_behind))]
pub(crate) fn space_key(alloc: Global, kind: u8, key: &[u8]) -> Result<SpaceKey, AllocError>
    ensures { IfOk result (λ made. made ≡ record { kind = kind; key = key.now }) }
{
    let front = front_of(kind, key);
    let text = KeyText::from_slice(alloc, key)?;
    Ok(SpaceKey { front, kind, text })
}

/// The kind and the first seven bytes as one number, the highest first, with zeros behind a shorter text.
#[tactic(auto, unfolding(delos_types::specs::Numbers::u64_of))]
fn front_of(kind: u8, text: &[u8]) -> u64
    ensures { result ≡ u64_of (kind ∷ text.now) }
{
    u64::from_be_bytes([
        kind,
        byte_at(text, 0),
        byte_at(text, 1),
        byte_at(text, 2),
        byte_at(text, 3),
        byte_at(text, 4),
        byte_at(text, 5),
        byte_at(text, 6),
    ])
}

/// The byte at an index, 0 past the end.
fn byte_at(text: &[u8], index: usize) -> u8
    ensures { result ≡ slice_index text.now index }
{
    if index < text.len() { text[index] } else { 0 }
}

/// A copy of a value, if there is one.
pub(crate) fn copied(value: Option<&Bytes>) -> Result<Option<Bytes>, AllocError>
    ensures { IfOk result (λ made. made ≡ option_copied value.entry) }
{
    match value {
        None => Ok(None),
        Some(value) => {
            let value = value.clone()?;
            Ok(Some(value))
        }
    }
}

/// The bytes of a key, if there is one.
pub(crate) fn copied_key(alloc: Global, key: Option<&KeyText>) -> Result<Option<Bytes>, AllocError>
    ensures { IfOk result (λ made. made ≡ option_copied key.entry) }
{
    match key {
        None => Ok(None),
        Some(key) => {
            let key = Bytes::from_slice(alloc, key.as_slice())?;
            Ok(Some(key))
        }
    }
}
