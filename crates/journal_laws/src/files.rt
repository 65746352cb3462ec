//! Files that gain records.

ghost use Rattle.std.specs.Prelude.{◌≡◌, ◌≢◌, ℕ, suc, ◌<◌, ◌≤◌, List, ◌++◌, length, map, take, Option, Some, []};
ghost use Rattle.std.specs.List.{AllZip};
ghost use Rattle.global_defs.specs.declared.limits.TheConstants.{MOST_REGIONS};
ghost use Rattle.disk_defs.specs.Disk.{Files};
ghost use Rattle.disk_defs.specs.Gates.{Body, records};
ghost use Rattle.journal_defs.specs.Journal.{JournalRecord, Part, IsJournalBody};
ghost use Rattle.journal_defs.specs.Sequence.{Placed, Records};
ghost use Rattle.journal_defs.specs.Growth.{appended, tcoms, with_more, with_journal};
ghost use Rattle.journal_defs.specs.FileGrowth.{HasGrown, IsNewest, MayFollow};
ghost use Rattle.journal_defs.specs.Stands.{in_generation, AreRecords};
ghost use Rattle.journal_defs.specs.Numbers.{INSTANCE, journal_file};
ghost use Rattle.journal_defs.specs.Instance.{generation, regions};

/// Bodies that are open at the end of a region's newest journal are records at the end of the region's list, and those of entries
/// are their parts.
pub fn files_hold()
    ensures one_region { (old new : Files) (s : Records) (r g last : ℕ) (older : List Placed) (newer xs : List JournalRecord) (bodies more : List Body)
        → AreRecords old s → generation s.instance ≡ suc g → r < length (regions s.instance) → length (regions s.instance) ≤ MOST_REGIONS
        → IsNewest old r g last older newer → s.journal r ≡ older ++ map (in_generation (suc g)) newer
        → ((f : ℕ) → f ≢ journal_file (suc g) r → new f ≡ old f)
        → records (old (journal_file (suc g) r)) ≡ Some bodies → records (new (journal_file (suc g) r)) ≡ Some (bodies ++ more)
        → AllZip IsJournalBody more xs → MayFollow r (suc g) last newer xs
        → AreRecords new (with_journal s r (map (in_generation (suc g)) xs)) }
    // the same of all regions at once
    ensures all_regions { (old new : Files) (s : Records) (g : ℕ) (xs : ℕ → List JournalRecord) → AreRecords old s → generation s.instance ≡ suc g
        → new INSTANCE ≡ old INSTANCE → ((h r : ℕ) → h ≤ g → new (journal_file h r) ≡ old (journal_file h r))
        → ((r : ℕ) → r < length (regions s.instance) → HasGrown old new r g (s.journal r) (xs r)) → ((r : ℕ) → length (regions s.instance) ≤ r → xs r ≡ [])
        → AreRecords new (with_more s (λ r. map (in_generation (suc g)) (xs r))) }
    // files with the same open bodies hold the same records
    ensures same { (old new : Files) (s : Records) → AreRecords old s → records (new INSTANCE) ≡ records (old INSTANCE)
        → ((h r : ℕ) → h ≤ generation s.instance → r < length (regions s.instance)
        → records (new (journal_file h r)) ≡ records (old (journal_file h r))) → AreRecords new s }
    ensures entries { (g : ℕ) (ps : List (ℕ → Option Part)) (r : ℕ) → appended g ps r ≡ map (in_generation g) (tcoms ps r) }
    ensures first_entries { (g : ℕ) (ps : List (ℕ → Option Part)) (r k : ℕ)
        → take k (appended g ps r) ≡ map (in_generation g) (take k (tcoms ps r)) }
{}
