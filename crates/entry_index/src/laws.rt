//! Laws of places. Each function does nothing: its contract states laws over this crate's definitions alone.

ghost use Rattle.std.specs.Prelude.{◌≡◌, ◌<◌, ℕ, List, Some, slice_index};
ghost use Rattle.journal_defs.specs.Journal.{JournalRecord};
ghost use Rattle.jnl_record.specs.Values.{record_value};
ghost use Rattle.jnl_record.specs.declared.record.JnlRecord.{JnlRecord};
ghost use Rattle.jnl_file.specs.Reading.{FindsRecord};
ghost use Rattle.entry_index.specs.Places.{StandsAt};

/// At most one record stands at a place of a file, and one that is found behind an open gate stands there.
pub fn one_record_stands()
    ensures one { (file : List ℕ) (at : ℕ) (r s : JournalRecord) → StandsAt file at r → StandsAt file at s → r ≡ s }
    ensures opened { (file : List ℕ) (at next : ℕ) (r : JnlRecord) → ((i : ℕ) → slice_index file i < 256) → FindsRecord file at (Some (r, next)) → StandsAt file at (record_value r) }
{}
