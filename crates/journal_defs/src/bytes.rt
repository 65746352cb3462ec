//! Worked bytes of instance files, journals and blocks, and the files' numbers.

ghost use Rattle.std.specs.Prelude.{◌≡◌, ◌^◌, pos, true, false, [], ◌∷◌, replicate, Some, codes};
ghost use Rattle.global_defs.specs.declared.limits.TheConstants.{MOST_GENERATIONS};
ghost use Rattle.disk_defs.specs.Gates.{records};
ghost use Rattle.global_defs.specs.Key.{Number};
ghost use Rattle.global_defs.specs.Entry.{Set};
ghost use Rattle.journal_defs.specs.Numbers.{INSTANCE, database_file, journal_file, lost_file, broken_file};
ghost use Rattle.journal_defs.specs.Instance as instance;
ghost use Rattle.journal_defs.specs.Journal as journal;
ghost use Rattle.journal_defs.specs.Leaves.{spelled_leaf};

/// Files have these numbers.
pub fn file_numbers_are()
    ensures instance { INSTANCE ≡ 0 }
    ensures first_database { database_file 0 ≡ 1 }
    ensures last_database { database_file 7 ≡ 8 }
    ensures first_journal { journal_file 1 0 ≡ 24 }
    ensures next_region { journal_file 1 1 ≡ 25 }
    ensures next_generation { journal_file 2 0 ≡ 32 }
    ensures last_journal { journal_file MOST_GENERATIONS 7 ≡ 524303 }
    ensures lost { lost_file 3 ≡ 1000003 }
    ensures broken { broken_file 2 ≡ 2000002 }
{}

/// Records of an instance file have these bytes.
pub fn instance_bytes_are()
    // an instance file with CREATE of A with region R, BEFORE, open
    ensures create { records (1 ∷ 0 ∷ 0 ∷ 0 ∷ 8 ∷ 1 ∷ 1 ∷ 1 ∷ 65 ∷ 1 ∷ 1 ∷ 82 ∷ 1 ∷ 0 ∷ [])
        ≡ Some (instance.spelled_record (instance.Create (codes "A") (record { name = codes "R"; before = true } ∷ [])) ∷ []) }
    ensures reign { instance.spelled_record (instance.Reigned (record { stamp = record { root = codes "A"; cycle = 1 }; start = 1 }))
        ≡ 2 ∷ 1 ∷ 65 ∷ 0 ∷ 0 ∷ 0 ∷ 1 ∷ 0 ∷ 0 ∷ 0 ∷ 0 ∷ 0 ∷ 0 ∷ 0 ∷ 1 ∷ [] }
    ensures cut { instance.spelled_record (instance.Cut 0 1) ≡ 3 ∷ 0 ∷ 0 ∷ 0 ∷ 0 ∷ 0 ∷ 0 ∷ 0 ∷ 0 ∷ 0 ∷ 0 ∷ 0 ∷ 1 ∷ [] }
    // H* in region 1
    ensures map { instance.spelled_record (instance.Map 1 true (codes "H")) ≡ 4 ∷ 1 ∷ 1 ∷ 1 ∷ 72 ∷ [] }
    ensures mode { instance.spelled_record (instance.Mode 2 false) ≡ 5 ∷ 2 ∷ 0 ∷ [] }
{}

/// Records of a journal have these bytes.
pub fn journal_bytes_are()
    ensures pini { journal.spelled_record (journal.Pini (record { region = 1; before = true; generation = 3; previous = 2 }))
        ≡ 1 ∷ 1 ∷ 1 ∷ 1 ∷ 0 ∷ 0 ∷ 0 ∷ 3 ∷ 0 ∷ 0 ∷ 0 ∷ 2 ∷ [] }
    ensures epoch { journal.spelled_record (journal.Epoch (record { closing = true; number = 258; blocks = 5 }))
        ≡ 2 ∷ 1 ∷ 0 ∷ 0 ∷ 0 ∷ 0 ∷ 0 ∷ 0 ∷ 1 ∷ 2 ∷ 0 ∷ 0 ∷ 0 ∷ 5 ∷ [] }
    ensures running { journal.spelled_record (journal.Epoch (record { closing = false; number = 0; blocks = 0 })) ≡ 2 ∷ 0 ∷ replicate 12 0 }
    ensures pblk { journal.spelled_record (journal.Pblk (record { block = 7; bytes = replicate 4096 9 })) ≡ 3 ∷ 0 ∷ 0 ∷ 0 ∷ 7 ∷ replicate 4096 9 }
    // SET ^X(1)="a" as number 1
    ensures tcom { journal.spelled_record (journal.Tcom (record {
      number = 1;
      mask = 1;
      origin = record { updater = 1; serial = 1 };
      count = 1;
      items = record { position = 0; update = Set (record { name = codes "X"; subs = Number (pos (10 ^ 18)) ∷ [] }) (codes "a") } ∷ [];
    }))
        ≡ 5 ∷ 0 ∷ 0 ∷ 0 ∷ 0 ∷ 0 ∷ 0 ∷ 0 ∷ 1 ∷ 1 ∷ 1 ∷ 0 ∷ 0 ∷ 0 ∷ 1 ∷ 0 ∷ 1 ∷ 0 ∷ 1 ∷ 4 ∷ 0 ∷ 0 ∷ 1 ∷ 6 ∷ 88 ∷ 0 ∷ 3 ∷ 65 ∷ 49 ∷ 0 ∷ 0 ∷ 1 ∷ 97 ∷ [] }
{}

/// Blocks have these bytes.
pub fn block_bytes_are()
    // the leaf with ^X(1)="a" alone
    ensures leaf { spelled_leaf (record { next = 0; cells = (88 ∷ 0 ∷ 3 ∷ 65 ∷ 49 ∷ 0 ∷ [], 97 ∷ []) ∷ [] })
        ≡ 0 ∷ 1 ∷ 0 ∷ 10 ∷ 0 ∷ 0 ∷ 0 ∷ 0 ∷ 6 ∷ 88 ∷ 0 ∷ 3 ∷ 65 ∷ 49 ∷ 0 ∷ 0 ∷ 1 ∷ 97 ∷ replicate 4078 0 }
    ensures next { spelled_leaf (record { next = 3; cells = [] }) ≡ 0 ∷ 0 ∷ 0 ∷ 0 ∷ 0 ∷ 0 ∷ 0 ∷ 3 ∷ replicate 4088 0 }
    ensures empty { spelled_leaf (record { next = 0; cells = [] }) ≡ replicate 4096 0 }
{}
