//! What holds of every transaction and every list of records.
ghost use Rattle.std.specs.Prelude.{◌≡◌, ◌↔◌, ◌≤◌, ℕ, List, [], ◌∷◌, ◌++◌, Some};
ghost use Rattle.delos_types.specs.Numbers.{IsBytes};
ghost use Rattle.store_records.specs.declared.change.Commit as view;
ghost use Rattle.store_records.specs.Format.{SpellsCommit};
ghost use Rattle.store_records.specs.Reading.{commit_of};
ghost use Rattle.store_records.specs.Spelled.{Saved, committed, saved_of, saved_after};

/// Bytes are read as a transaction exactly where they are its spelling.
pub fn one_spelling()
    ensures { (bytes : List ℕ) (c : view.Commit) → IsBytes bytes → (commit_of bytes ≡ Some c) ↔ SpellsCommit bytes c }
{}

/// One more record is one more step.
pub fn one_more_record()
    ensures { (records : List (List ℕ)) (bytes : List ℕ) → saved_of (records ++ bytes ∷ []) ≡ saved_after (saved_of records) bytes }
{}

/// One more transaction, whose cursor doesn't fall, is what its record spells after the others.
pub fn one_more_commit()
    ensures { (records : List (List ℕ)) (s : Saved) (c : view.Commit) (bytes : List ℕ) → saved_of records ≡ Some s → s.cursor ≤ c.cursor → SpellsCommit bytes c → saved_of (records ++ bytes ∷ []) ≡ Some (committed s c) }
{}
