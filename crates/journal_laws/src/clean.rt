//! Files past the newest generation.

ghost use Rattle.std.specs.Prelude.{◌≡◌, ◌≢◌, ℕ, ◌+◌, ◌<◌, ◌≤◌, [], length};
ghost use Rattle.global_defs.specs.declared.limits.TheConstants.{MOST_REGIONS};
ghost use Rattle.disk_defs.specs.Disk.{Files};
ghost use Rattle.journal_defs.specs.Numbers.{INSTANCE, journal_file, lost_file, broken_file};
ghost use Rattle.journal_defs.specs.Instance.{Cut, generation, regions, site_name};
ghost use Rattle.journal_defs.specs.Sequence.{Records};
ghost use Rattle.journal_defs.specs.Broken.{broken, broken_text};
ghost use Rattle.journal_defs.specs.Growth.{with_record};
ghost use Rattle.journal_defs.specs.Clean.{AreClean};

/// Files stay clean when a generation is drawn, when the broken-transaction file is written, and when other files change.
pub fn clean_stays()
    ensures cut { (old new : Files) (s : Records) (t g n m : ℕ) → AreClean old s n → 1 ≤ length (regions s.instance) → generation s.instance < g
        → ((f : ℕ) → f ≢ INSTANCE → new f ≡ old f) → AreClean new (with_record s (Cut t g)) m }
    ensures broken_written { (old new : Files) (s : Records) (n : ℕ) → AreClean old s n → length (regions s.instance) ≤ MOST_REGIONS
        → ((f : ℕ) → f ≢ broken_file (generation s.instance + 1) → new f ≡ old f)
        → length (new (broken_file (generation s.instance + 1))) ≤ length (broken_text (site_name s.instance) n (broken s n)) → AreClean new s n }
    // files of the generations that were drawn may change, and with them the records of the journals
    ensures other_files { (old new : Files) (s u : Records) (n m : ℕ) → AreClean old s n → u.instance ≡ s.instance
        → old (broken_file (generation s.instance + 1)) ≡ []
        → ((g r : ℕ) → generation s.instance < g → new (journal_file g r) ≡ old (journal_file g r))
        → ((g : ℕ) → generation s.instance < g → new (lost_file g) ≡ old (lost_file g))
        → ((g : ℕ) → generation s.instance < g → new (broken_file g) ≡ old (broken_file g)) → AreClean new u m }
{}
