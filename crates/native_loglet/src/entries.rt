//! The entries that a loglet keeps: those from its cut on.
ghost use Rattle.std.specs.Prelude.{◌≡◌, Some};
ghost use Rattle.delos_types.specs.declared.entry.Entry as entries_of;
ghost use Rattle.native_ties.specs.Parts.{entry_at as kept_at};

use delos_types::entry::Entry;
use std::collections::VecDeque;

/// The entry at a position, which is one of those from this cut on.
pub fn entry_at(entries: &VecDeque<Entry>, cut: u64, place: u64) -> &Entry
    requires { (e : entries_of.Entry) × (kept_at cut entries.now.items place ≡ Some e) }
    ensures { kept_at cut entries.now.items place ≡ Some result.now }
{
    &entries[(place - cut) as usize]
}
