//! The next key of a kind.
ghost use Rattle.std.specs.Prelude.{◌≡◌, is_some};
ghost use Rattle.std.specs.Option.{option_copied};
ghost use Rattle.local_store.specs.Slots.{first_shown, slot_of, lesser_of};

use crate::key::{Slots, SpaceKey};
use crate::key_text::KeyText;
use delos_types::bytes::Bytes;
use std::collections::btree_map::Range;

/// The first key of the kind that has a value and no slot among others, in slots from a key of the kind on.
///
/// Cost: constant for each slot that it passes: one without a value, or hidden by the others.
pub(crate) fn first_shown<'a>(
    run: Range<'a, SpaceKey, Option<Bytes>>,
    kind: u8,
    others: &Slots,
) -> Option<&'a KeyText>
    ensures { option_copied result ≡ first_shown kind (λ q. is_some (slot_of others.now.entries q)) run.entry }
{
    for (key, slot) in run {
        if key.kind() != kind {
            return None;
        }
        if slot.is_some() && others.get(key).is_none() {
            return Some(key.text());
        }
    }
    None
}

/// The lesser of two keys, if there is one.
pub(crate) fn lesser<'a>(
    one: Option<&'a KeyText>,
    other: Option<&'a KeyText>,
) -> Option<&'a KeyText>
    ensures { option_copied result ≡ lesser_of (option_copied one.entry) (option_copied other.entry) }
{
    match (one, other) {
        (Some(a), Some(b)) => Some(if a <= b { a } else { b }),
        (Some(a), None) => Some(a),
        (None, other) => other,
    }
}
