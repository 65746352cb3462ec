//! Images of fit disks through the steps of a call.
//!
//! Each law takes an image that is clean and sound for every target, and a step on it, and says of the image after the step that it
//! is so too. What the records of the new files are, and that these are clean, other laws say.

ghost use Rattle.std.specs.Prelude.{◌≡◌, ◌≢◌, ◌⊎◌, ℕ, suc, ◌<◌, ◌≤◌, true, List, [], ◌∷◌, ◌++◌, length, take, Option, None};
ghost use Rattle.std.specs.List.{AllByRecursion};
ghost use Rattle.global_defs.specs.declared.limits.TheConstants.{MOST_REGIONS};
ghost use Rattle.disk_defs.specs.Disk.{Files};
ghost use Rattle.disk_defs.specs.Gates.{records};
ghost use Rattle.global_defs.specs.Entry.{Sequence, Reign};
ghost use Rattle.journal_defs.specs.Numbers.{INSTANCE, journal_file, database_file};
ghost use Rattle.journal_defs.specs.Journal.{Part, Mark, Epoch};
ghost use Rattle.journal_defs.specs.Instance.{InstanceRecord, Cut, Reigned, generation, regions};
ghost use Rattle.journal_defs.specs.Directory.{patterns, pattern_in};
ghost use Rattle.journal_defs.specs.Surviving.{survives, spares};
ghost use Rattle.journal_defs.specs.Sequence.{Placed, Records, part_in, IsSequence};
ghost use Rattle.journal_defs.specs.Epochs.{chosen, image_state, block_of, NeedsForward};
ghost use Rattle.journal_defs.specs.Undo.{SameBut, MayWrite, MayAppend, fresh};
ghost use Rattle.journal_defs.specs.Sound.{Restores, region_state, NoEpochPast};
ghost use Rattle.journal_defs.specs.Stands.{AreRecords};
ghost use Rattle.journal_defs.specs.Clean.{AreClean};
ghost use Rattle.journal_defs.specs.Growth.{with_record, with_journal, with_more, appended, AreEntries, IsBefore, NonePast};
ghost use Rattle.journal_defs.specs.Fit.{IsAtHome, HasFewNodes, IsSoundImage};

/// Bytes that aren't read may change, blocks may be written, and records appended that are no parts.
pub fn image_keeps_its_sequence()
    // bytes behind closed gates change, or files that aren't read
    ensures same { (old new : Files) (s : Records) (seq : Sequence) → IsSoundImage old s seq → records (new INSTANCE) ≡ records (old INSTANCE)
        → ((h r : ℕ) → h ≤ generation s.instance → r < length (regions s.instance)
        → records (new (journal_file h r)) ≡ records (old (journal_file h r)))
        → AreClean new s (length seq) → ((r : ℕ) → r < length (regions s.instance) → new (database_file r) ≡ old (database_file r)) → IsSoundImage new s seq }
    // a write into one block, where it has an image or the region needs forward recovery
    ensures written { (old new : Files) (s : Records) (seq : Sequence) (r b : ℕ) → IsSoundImage old s seq → length (regions s.instance) ≤ MOST_REGIONS
        → r < length (regions s.instance) → ((f : ℕ) → f ≢ database_file r → new f ≡ old f)
        → SameBut b (block_of (old (database_file r))) (block_of (new (database_file r)))
        → NeedsForward s.instance (length seq) (s.journal r) ⊎ MayWrite (chosen s.instance (length seq) (s.journal r)) b → IsSoundImage new s seq }
    // a PBLK of a block that may be logged, or a PINI
    ensures journal_record { (old new : Files) (s : Records) (seq : Sequence) (r : ℕ) (p : Placed) → IsSoundImage old s seq → r < length (regions s.instance)
        → ((n : ℕ) → part_in s.instance n p.generation p.what ≡ None) → IsAtHome s.instance r p.generation p.what
        → MayAppend (chosen s.instance (length seq) (s.journal r)) (block_of (old (database_file r))) p.what
        → AreRecords new (with_journal s r (p ∷ [])) → ((m : ℕ) → AreClean new (with_journal s r (p ∷ [])) m)
        → ((q : ℕ) → q < length (regions s.instance) → new (database_file q) ≡ old (database_file q)) → IsSoundImage new (with_journal s r (p ∷ [])) seq }
    // an EPOCH of the length, where the file's blocks decode to the region's part of the state
    ensures epoch { (old new : Files) (s : Records) (seq : Sequence) (r g : ℕ) (m : Mark) → IsSoundImage old s seq → r < length (regions s.instance)
        → m.number ≡ length seq → survives s.instance g m.number ≡ true
        → Restores (image_state (fresh m) (block_of (old (database_file r)))) (region_state (patterns s.instance) r seq)
        → NeedsForward s.instance (length seq) (s.journal r) ⊎ ((chosen s.instance (length seq) (s.journal r)).blocks ≤ m.blocks)
        → AreRecords new (with_journal s r (record { generation = g; what = Epoch m } ∷ []))
        → ((n : ℕ) → AreClean new (with_journal s r (record { generation = g; what = Epoch m } ∷ [])) n)
        → ((q : ℕ) → q < length (regions s.instance) → new (database_file q) ≡ old (database_file q))
        → IsSoundImage new (with_journal s r (record { generation = g; what = Epoch m } ∷ [])) seq }
    ensures reign { (old new : Files) (s : Records) (seq : Sequence) (x : Reign) → IsSoundImage old s seq → 1 ≤ length (regions s.instance)
        → NonePast (length seq) s → length seq < x.start → AreRecords new (with_record s (Reigned x))
        → ((m : ℕ) → AreClean new (with_record s (Reigned x)) m)
        → ((r : ℕ) → r < length (regions s.instance) → new (database_file r) ≡ old (database_file r)) → IsSoundImage new (with_record s (Reigned x)) seq }
    // a MODE, too
    ensures instance_record { (old new : Files) (s : Records) (seq : Sequence) (x : InstanceRecord) → IsSoundImage old s seq
        → 1 ≤ length (regions s.instance) → ((g m : ℕ) → spares g m x ≡ true) → pattern_in x ≡ None → IsSequence (with_record s x) seq
        → AreRecords new (with_record s x) → AreClean new (with_record s x) (length seq)
        → ((r : ℕ) → r < length (regions s.instance) → new (database_file r) ≡ old (database_file r)) → IsSoundImage new (with_record s x) seq }
{}

/// A CUT leaves the first entries, and of entries that were appended together a crash leaves the first few.
pub fn image_has_a_front()
    ensures cut { (old new : Files) (s : Records) (seq : Sequence) (t g : ℕ) → IsSoundImage old s seq → 1 ≤ length (regions s.instance) → t ≤ length seq
        → IsBefore g s → AreRecords new (with_record s (Cut t g)) → ((m : ℕ) → AreClean new (with_record s (Cut t g)) m)
        → ((r : ℕ) → r < length (regions s.instance) → new (database_file r) ≡ old (database_file r))
        → IsSoundImage new (with_record s (Cut t g)) (take t seq) }
    ensures entries_appended { (old new : Files) (s : Records) (seq : Sequence) (g : ℕ) (ps : List (ℕ → Option Part)) (es : Sequence) (kept : ℕ → ℕ)
        → IsSoundImage old s seq → NonePast (length seq) s
        → ((r : ℕ) → r < length (regions s.instance) → NoEpochPast (length seq) s.instance (s.journal r))
        → AreEntries s.instance (suc g) (length seq) ps es → HasFewNodes (seq ++ es)
        → ((r : ℕ) → r < length (regions s.instance) → AllByRecursion (λ p. IsAtHome s.instance r p.generation p.what) (appended (suc g) ps r))
        → AreRecords new (with_more s (λ r. take (kept r) (appended (suc g) ps r)))
        → ((m : ℕ) → AreClean new (with_more s (λ r. take (kept r) (appended (suc g) ps r))) m)
        → ((r : ℕ) → r < length (regions s.instance) → new (database_file r) ≡ old (database_file r))
        → (j : ℕ) × (length seq ≤ j) × (j ≤ length (seq ++ es))
        × IsSoundImage new (with_more s (λ r. take (kept r) (appended (suc g) ps r))) (take j (seq ++ es)) }
{}
