//! Bodies and files have one reading.

ghost use Rattle.std.specs.Prelude.{◌≡◌, ℕ, List, IsTrue};
ghost use Rattle.disk_defs.specs.Disk.{Files};
ghost use Rattle.global_defs.specs.Key.{Key};
ghost use Rattle.global_defs.specs.Valid.{is_key};
ghost use Rattle.global_defs.specs.Encoded.{encoded};
ghost use Rattle.global_defs.specs.Entry.{Sequence};
ghost use Rattle.journal_defs.specs.Journal.{JournalRecord, IsJournalBody};
ghost use Rattle.journal_defs.specs.Instance.{InstanceRecord, IsInstanceBody};
ghost use Rattle.journal_defs.specs.Leaves.{Leaf, IsBlock};
ghost use Rattle.journal_defs.specs.Sequence.{Records};
ghost use Rattle.journal_defs.specs.Stands.{AreRecords, Stands};

/// Bytes are those of one key, one record and one leaf. Files hold one list of records at most, and stand for one sequence at most.
pub fn bodies_hold()
    ensures instance { (body : List ℕ) (r q : InstanceRecord) → IsInstanceBody body r → IsInstanceBody body q → r ≡ q }
    ensures journal { (body : List ℕ) (r q : JournalRecord) → IsJournalBody body r → IsJournalBody body q → r ≡ q }
    ensures block { (bytes : List ℕ) (l m : Leaf) → IsBlock bytes l → IsBlock bytes m → l ≡ m }
    ensures key { (a b : Key) → IsTrue (is_key a) → IsTrue (is_key b) → encoded a ≡ encoded b → a ≡ b }
    ensures records { (files : Files) (s u : Records) → AreRecords files s → AreRecords files u → s ≡ u }
    ensures sequence { (files : Files) (a b : Sequence) → Stands files a → Stands files b → a ≡ b }
{}
