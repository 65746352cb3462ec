// What the definitions come to on small connections.
ghost use Rattle.std.specs.Prelude.{◌≡◌, ◌≤◌, ◌+◌, ℕ, true, false, [], ◌∷◌, ◌++◌, length, Option, Some, None};
ghost use Rattle.std.specs.FinMap as map;
ghost use Rattle.global_defs.specs.declared.limits.TheConstants.{MOST_REIGNS};
ghost use Rattle.global_defs.specs.Entry.{Transaction, Reign, Globals};
ghost use Rattle.lineage_defs.specs.Samples.{A, B, reign, stamp};
ghost use Rattle.wire_defs.specs.Frames.{Frame, Hello, Resume, RollbackFirst, History, Entry, Bye, IsFrame, spelled_frame, stream};
ghost use Rattle.ship_defs.specs.Hearing.{Purpose, Asks, Ships, Last, Resumed, Reigning, Heard, Hearing, unbegun, Fits, Admits, IsBadFromPrimary, EndsFromPrimary};
ghost use Rattle.ship_defs.specs.Greeting.{IsHello, IsBadToPrimary, IsAnswer};
ghost use Rattle.ship_defs.specs.Shipping.{shipped, connection};
ghost use Rattle.ship_defs.specs.Arrivals.{arrivals, entries_of};

/// Neither a HISTORY nor a BYE comes right behind a HISTORY, no ENTRY without one, and no entry twice. A HISTORY tells a reign that begins
/// with the next entry, for which there is room, or the last one as it stands. BYE tells how many entries there are.
pub fn frames_are_in_order()
    ensures history { (h now : Heard) (r s : Reign) → h.last ≡ Reigning r → Fits Ships h (History s) now → ⊥ }
    ensures bye { (h now : Heard) (r : Reign) (n : ℕ) → h.last ≡ Reigning r → Fits Ships h (Bye n) now → ⊥ }
    ensures entry { (h now : Heard) (n : ℕ) (t : Transaction) → h.last ≡ Resumed → Fits Ships h (Entry n t) now → ⊥ }
    ensures again { (h now : Heard) (n : ℕ) (t : Transaction) → n ≤ h.count → Fits Ships h (Entry n t) now → ⊥ }
    ensures room { (h now : Heard) (r : Reign) → MOST_REIGNS ≤ h.reigns → r.start ≡ h.count + 1 → h.reign ≡ None → Fits Ships h (History r) now → ⊥ }
    ensures all { (h now : Heard) (n : ℕ) → Fits Ships h (Bye n) now → n ≡ h.count }
{}

/// A primary that only answers ends the connection with RESUME: a byte behind it is bad. In a section an end there is too early.
pub fn connections_end()
    ensures answered { (g : Globals) → EndsFromPrimary Asks (record { heard = unbegun (record { length = 0; reigns = [] }); globals = g }) (spelled_frame (Resume 1)) (Resume 1) }
    ensures behind { (g : Globals) → IsBadFromPrimary Asks (record { heard = unbegun (record { length = 0; reigns = [] }); globals = g }) (spelled_frame (Resume 1) ++ 4 ∷ []) false 13 }
    ensures early { (g : Globals) → IsBadFromPrimary Ships (record { heard = unbegun (record { length = 0; reigns = [] }); globals = g }) (spelled_frame (Resume 1)) true 13 }
    ensures silent { IsBadToPrimary [] true 0 }
{}

/// A HISTORY stands before the connection's first entry and before a reign's first one, and BYE behind the last.
pub fn reigns_are_announced()
    ensures each { (t u : Transaction) → shipped (reign A 1 1 ∷ reign A 2 2 ∷ []) true 1 (t ∷ u ∷ [])
        ≡ History (reign A 1 1) ∷ Entry 1 t ∷ History (reign A 2 2) ∷ Entry 2 u ∷ [] }
    ensures once { (t u : Transaction) → connection (reign A 1 1 ∷ []) 2 (t ∷ u ∷ [])
        ≡ Resume 2 ∷ History (reign A 1 1) ∷ Entry 2 t ∷ Entry 3 u ∷ Bye 3 ∷ [] }
{}

/// Each entry arrives at its frame's place, with the reign of a HISTORY right before it, and has the stamp of the last one.
pub fn entries_arrive()
    ensures places { (t u : Transaction) → arrivals 0 None (Resume 1 ∷ History (reign A 1 1) ∷ Entry 1 t ∷ [])
        ≡ record { at = 32; number = 1; transaction = t; reign = Some (reign A 1 1) } ∷ [] }
    ensures stamps { (t u : Transaction) → entries_of None (record { at = 32; number = 1; transaction = t; reign = Some (reign A 1 1) } ∷ record { at = 63; number = 2; transaction = u; reign = None } ∷ [])
        ≡ record { stamp = stamp A 1; transaction = t } ∷ record { stamp = stamp A 1; transaction = u } ∷ [] }
{}

/// A secondary whose entries the primary has gets the next one, and one with an entry of its own has to roll it back. A HELLO's reigns have
/// begun by its length.
pub fn secondaries_are_answered()
    ensures matched { (n : ℕ) → IsAnswer (record { length = 3; reigns = reign A 1 1 ∷ [] }) (record { length = 2; reigns = reign A 1 1 ∷ [] }) (Resume n) → n ≡ 3 }
    ensures parted { (n : ℕ) → IsAnswer (record { length = 3; reigns = reign A 1 1 ∷ [] }) (record { length = 2; reigns = reign A 1 1 ∷ reign B 2 2 ∷ [] }) (Resume n) → ⊥ }
    ensures back { IsAnswer (record { length = 3; reigns = reign A 1 1 ∷ [] }) (record { length = 2; reigns = reign A 1 1 ∷ reign B 2 2 ∷ [] }) (RollbackFirst 2) }
    ensures past { IsHello (Hello 1 B (record { length = 1; reigns = reign A 1 1 ∷ reign B 2 2 ∷ [] })) → ⊥ }
{}
