//! What files stand for whose newest journals have the first few of the records that wait. Each function does nothing: its contract
//! states laws over definitions alone.

ghost use Rattle.std.specs.Prelude.{◌≡◌, ◌≤◌, ◌<◌, ◌++◌, ◌∷◌, [], ℕ, suc, List, length, take, Option};
ghost use Rattle.std.specs.List.{AllByRecursion};
ghost use Rattle.disk_defs.specs.Disk.{Files};
ghost use Rattle.disk_defs.specs.Frames.{SameOutside};
ghost use Rattle.global_defs.specs.Entry.{Sequence};
ghost use Rattle.journal_defs.specs.Journal.{JournalRecord, Part};
ghost use Rattle.journal_defs.specs.Instance.{regions};
ghost use Rattle.journal_defs.specs.Sequence.{Records};
ghost use Rattle.journal_defs.specs.Growth.{NonePast, AreEntries, appended, tcoms, with_more};
ghost use Rattle.journal_defs.specs.Sound.{NoEpochPast};
ghost use Rattle.journal_defs.specs.Fit.{IsSoundImage, HasFewNodes, IsAtHome};
ghost use Rattle.tp_commit.specs.Parts.{PartRecords, recorded};
ghost use Rattle.region_journals.specs.Journals.{part_in, listed};
ghost use Rattle.region_journals.specs.Fronts.{IsNewestFile, HasFirst, AreNewest, AreInside};

/// Entries that were appended and are not hardened leave a front: where the files are a sound image but that the newest journals
/// have the first few of their records besides, in each region as many as it likes, they stand for all entries from before and
/// perhaps the first few of these. It does nothing.
pub fn appended_entries_have_a_front()
    ensures front { (d f : Files) (s : Records) (seq : Sequence) (g : ℕ) (newer : ℕ → List JournalRecord) (ps : List (ℕ → Option Part)) (es : Sequence) (kept : ℕ → ℕ)
        → IsSoundImage d s seq → AreNewest d s g newer → NonePast (length seq) s
        → ((r : ℕ) → r < length (regions s.instance) → NoEpochPast (length seq) s.instance (s.journal r))
        → AreEntries s.instance (suc g) (length seq) ps es → AreInside (length (regions s.instance)) ps
        → ((r : ℕ) → r < length (regions s.instance) → AllByRecursion (λ p. IsAtHome s.instance r p.generation p.what) (appended (suc g) ps r))
        → HasFewNodes (seq ++ es)
        → SameOutside (IsNewestFile (suc g) (length (regions s.instance))) d f
        → HasFirst (suc g) (length (regions s.instance)) newer (tcoms ps) kept f
        → (j : ℕ) × (length seq ≤ j) × (j ≤ length (seq ++ es))
        × IsSoundImage f (with_more s (λ r. take (kept r) (appended (suc g) ps r))) (take j (seq ++ es)) }
{}

/// What waits in a region after the parts of one more entry are the TCOM records of all of these. It does nothing.
pub fn parts_wait_as_tcoms()
    ensures { (ps : List (ℕ → Option Part)) (part : ℕ → Option Part) (parts : PartRecords) (r : ℕ) → part_in parts r ≡ recorded (part r)
        → tcoms (ps ++ part ∷ []) r ≡ tcoms ps r ++ listed (part_in parts r) }
{}
