//! Worked examples of frames.
ghost use Rattle.std.specs.Prelude.{◌≡◌, ◌^◌, pos, [], ◌∷◌};
ghost use Rattle.global_defs.specs.Entry.{Set, Kill};
ghost use Rattle.global_defs.specs.Key.{Number};
ghost use Rattle.wire_defs.specs.Frames.{Hello, Resume, RollbackFirst, History, Entry, Bye, spelled_frame, offset_after};

/// The HELLO of an empty secondary B has 20 bytes, a RESUME from 1 has 13, and the HISTORY of A.1 from 1 has 19.
pub fn frames_of_fixed_fields()
    ensures hello { spelled_frame (Hello 1 (66 ∷ []) (record { length = 0; reigns = [] }))
        ≡ 1 ∷ 0 ∷ 0 ∷ 0 ∷ 15 ∷ 1 ∷ 1 ∷ 66 ∷ 0 ∷ 0 ∷ 0 ∷ 0 ∷ 0 ∷ 0 ∷ 0 ∷ 0 ∷ 0 ∷ 0 ∷ 0 ∷ 0 ∷ [] }
    ensures resume { spelled_frame (Resume 1) ≡ 2 ∷ 0 ∷ 0 ∷ 0 ∷ 8 ∷ 0 ∷ 0 ∷ 0 ∷ 0 ∷ 0 ∷ 0 ∷ 0 ∷ 1 ∷ [] }
    ensures history { spelled_frame (History (record { stamp = record { root = 65 ∷ []; cycle = 1 }; start = 1 }))
        ≡ 4 ∷ 0 ∷ 0 ∷ 0 ∷ 14 ∷ 1 ∷ 65 ∷ 0 ∷ 0 ∷ 0 ∷ 1 ∷ 0 ∷ 0 ∷ 0 ∷ 0 ∷ 0 ∷ 0 ∷ 0 ∷ 1 ∷ [] }
{}

/// The ENTRY of `SET ^X(1)="a"` as number 1, the first job of updater 1, has 31 bytes.
pub fn an_entry_frame_of_31_bytes()
    ensures { spelled_frame (Entry 1 (record { origin = record { updater = 1; serial = 1 }; updates = Set (record { name = 88 ∷ []; subs = Number (pos (10 ^ 18)) ∷ [] }) (97 ∷ []) ∷ [] }))
        ≡ 5 ∷ 0 ∷ 0 ∷ 0 ∷ 26 ∷ 0 ∷ 0 ∷ 0 ∷ 0 ∷ 0 ∷ 0 ∷ 0 ∷ 1 ∷ 1 ∷ 0 ∷ 0 ∷ 0 ∷ 1 ∷ 0 ∷ 1 ∷ 1 ∷ 6 ∷ 88 ∷ 0 ∷ 3 ∷ 65 ∷ 49 ∷ 0 ∷ 0 ∷ 1 ∷ 97 ∷ [] }
{}

/// A ROLLBACKFIRST from 5 and a BYE at 6 entries have 13 bytes each.
pub fn frames_of_a_number()
    ensures rollback_first { spelled_frame (RollbackFirst 5) ≡ 3 ∷ 0 ∷ 0 ∷ 0 ∷ 8 ∷ 0 ∷ 0 ∷ 0 ∷ 0 ∷ 0 ∷ 0 ∷ 0 ∷ 5 ∷ [] }
    ensures bye { spelled_frame (Bye 6) ≡ 6 ∷ 0 ∷ 0 ∷ 0 ∷ 8 ∷ 0 ∷ 0 ∷ 0 ∷ 0 ∷ 0 ∷ 0 ∷ 0 ∷ 6 ∷ [] }
{}

/// The HELLO of a secondary B with 9 entries and the reign Abc.7 from 3 has 36 bytes.
pub fn a_hello_of_a_reign()
    ensures { spelled_frame (Hello 1 (66 ∷ []) (record { length = 9; reigns = record { stamp = record { root = 65 ∷ 98 ∷ 99 ∷ []; cycle = 7 }; start = 3 } ∷ [] }))
        ≡ 1 ∷ 0 ∷ 0 ∷ 0 ∷ 31 ∷ 1 ∷ 1 ∷ 66 ∷ 0 ∷ 0 ∷ 0 ∷ 0 ∷ 0 ∷ 0 ∷ 0 ∷ 9 ∷ 0 ∷ 0 ∷ 0 ∷ 1 ∷ 3 ∷ 65 ∷ 98 ∷ 99 ∷ 0 ∷ 0 ∷ 0 ∷ 7 ∷ 0 ∷ 0 ∷ 0 ∷ 0 ∷ 0 ∷ 0 ∷ 0 ∷ 3 ∷ [] }
{}

/// The ENTRY of `SET ^X=""` and `KILL ^Y` as number 2, job 2 of updater 64, has 30 bytes.
pub fn an_entry_frame_of_a_kill()
    ensures { spelled_frame (Entry 2 (record { origin = record { updater = 64; serial = 2 }; updates = Set (record { name = 88 ∷ []; subs = [] }) [] ∷ Kill (record { name = 89 ∷ []; subs = [] }) ∷ [] }))
        ≡ 5 ∷ 0 ∷ 0 ∷ 0 ∷ 25 ∷ 0 ∷ 0 ∷ 0 ∷ 0 ∷ 0 ∷ 0 ∷ 0 ∷ 2 ∷ 64 ∷ 0 ∷ 0 ∷ 0 ∷ 2 ∷ 0 ∷ 2 ∷ 1 ∷ 2 ∷ 88 ∷ 0 ∷ 0 ∷ 0 ∷ 2 ∷ 2 ∷ 89 ∷ 0 ∷ [] }
{}

/// Behind that RESUME a frame begins at offset 13.
pub fn a_frame_begins_behind_another()
    ensures first { offset_after 0 [] ≡ 0 }
    ensures second { offset_after 0 (Resume 1 ∷ []) ≡ 13 }
{}
