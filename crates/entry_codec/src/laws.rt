//! What holds of every item and entry: one spelling, both ways.
ghost use Rattle.std.specs.Prelude.{◌≡◌, ◌↔◌, ℕ, List, Ok, length};
ghost use Rattle.delos_types.specs.Numbers.{IsBytes};
ghost use Rattle.delos_types.specs.Spelling.{IsSpellable, IsSpellableItem, item_length, spelled_length};
ghost use Rattle.delos_types.specs.declared.item.Item as item;
ghost use Rattle.delos_types.specs.declared.entry.Entry as entry;
ghost use Rattle.entry_codec.specs.Format.{item_bytes, entry_bytes, SpellsItem, SpellsEntry};
ghost use Rattle.entry_codec.specs.Reading.{item_read, entry_read};

/// Bytes are read as an item exactly where they are its spelling, and no two items are spelled alike.
pub fn one_item_spelling()
    ensures reads { (bytes : List ℕ) (i : item.Item) → IsBytes bytes → (item_read bytes ≡ Ok i) ↔ SpellsItem bytes i }
    ensures alike { (i j : item.Item) → IsSpellableItem i → IsSpellableItem j → item_bytes i ≡ item_bytes j → i ≡ j }
    ensures length { (i : item.Item) → length (item_bytes i) ≡ item_length i }
{}

/// Bytes are read as an entry exactly where they are its spelling, and no two entries are spelled alike.
pub fn one_entry_spelling()
    ensures reads { (bytes : List ℕ) (e : entry.Entry) → IsBytes bytes → (entry_read bytes ≡ Ok e) ↔ SpellsEntry bytes e }
    ensures alike { (e f : entry.Entry) → IsSpellable e → IsSpellable f → entry_bytes e ≡ entry_bytes f → e ≡ f }
    ensures length { (e : entry.Entry) → length (entry_bytes e) ≡ spelled_length e }
{}
