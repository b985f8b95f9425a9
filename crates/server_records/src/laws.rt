//! What holds of every record and every list of records.
ghost use Rattle.std.specs.Prelude.{◌≡◌, ◌==◌, ◌↔◌, ℕ, true, List, [], ◌∷◌, ◌++◌, length, Some};
ghost use Rattle.delos_types.specs.Numbers.{IsBytes};
ghost use Rattle.quorum_cell.specs.declared.message.Ask as ask;
ghost use Rattle.quorum_cell.specs.Servers.{Server, writes, wrote};
ghost use Rattle.server_records.specs.declared.record.Record as view;
ghost use Rattle.server_records.specs.Format.{SpellsRecord};
ghost use Rattle.server_records.specs.Reading.{record_of};
ghost use Rattle.server_records.specs.Spelled.{server_of, holding_next, record_for};

/// Bytes are read as a record exactly where they are its spelling.
pub fn one_spelling()
    ensures { (bytes : List ℕ) (r : view.Record) → IsBytes bytes → (record_of bytes ≡ Some r) ↔ SpellsRecord bytes r }
{}

/// One more record is one more step.
pub fn one_more_record()
    ensures { (records : List (List ℕ)) (s : Server) (bytes : List ℕ) → server_of records ≡ Some s → server_of (records ++ bytes ∷ []) ≡ holding_next (length records == 0) s (record_of bytes) }
{}

/// Where a server writes before it answers, the record that it writes is the next of its list.
pub fn follows_the_table()
    ensures { (records : List (List ℕ)) (s : Server) (a : ask.Ask) (r : view.Record) (bytes : List ℕ) → server_of records ≡ Some s → writes s a ≡ true → record_for a ≡ Some r → SpellsRecord bytes r → server_of (records ++ bytes ∷ []) ≡ Some (wrote s a) }
{}
