//! Laws of reading. Each function does nothing: its contract states laws over this crate's definitions alone.

ghost use Rattle.std.specs.Prelude.{◌≡◌, [], ◌∷◌, ℕ, List, Some, None};
ghost use Rattle.journal_defs.specs.Journal.{JournalRecord, IsJournalBody};
ghost use Rattle.journal_defs.specs.Stands.{Holds};
ghost use Rattle.jnl_record.specs.Values.{record_value};
ghost use Rattle.jnl_record.specs.declared.record.JnlRecord.{JnlRecord};
ghost use Rattle.jnl_file.specs.Reading.{FindsRecord, IsNoRecord, HoldsFrom};

/// Reading on from place 0 gives the records of a file, one after the other.
pub fn reading_gives_the_records()
    ensures start { (file : List ℕ) (rs : List JournalRecord) → Holds IsJournalBody file rs → HoldsFrom file 0 rs }
    ensures next { (file : List ℕ) (at place : ℕ) (r : JnlRecord) (rs : List JournalRecord) → FindsRecord file at (Some (r, place)) → HoldsFrom file at rs
        → (more : List JournalRecord) × (rs ≡ record_value r ∷ more) × HoldsFrom file place more }
    ensures last { (file : List ℕ) (at : ℕ) (rs : List JournalRecord) → FindsRecord file at None → HoldsFrom file at rs → rs ≡ [] }
    ensures inside { (file : List ℕ) (at : ℕ) (rs : List JournalRecord) → IsNoRecord file at → HoldsFrom file at rs → ⊥ }
{}
