//! Instance files that gain a record.

ghost use Rattle.std.specs.Prelude.{◌≡◌, ◌≢◌, ℕ, ◌<◌, ◌≤◌, Bool, List, [], ◌∷◌, ◌++◌, length, Some};
ghost use Rattle.std.specs.List.{AllByRecursion};
ghost use Rattle.disk_defs.specs.Disk.{Files};
ghost use Rattle.disk_defs.specs.Gates.{Body, records};
ghost use Rattle.journal_defs.specs.Instance.{Cut, Reigned, Map, Mode, IsInstanceBody, generation, regions};
ghost use Rattle.journal_defs.specs.Surviving.{reigns};
ghost use Rattle.global_defs.specs.Entry.{Reign};
ghost use Rattle.journal_defs.specs.Sequence.{Records};
ghost use Rattle.journal_defs.specs.Growth.{with_record, IsBefore};
ghost use Rattle.journal_defs.specs.Numbers.{INSTANCE, journal_file};
ghost use Rattle.journal_defs.specs.Stands.{AreRecords};

/// A CUT at the end of the instance file draws a generation, where the journals of all generations from the last one on up to it are
/// empty. A REIGN past all others, a MAP or a MODE is one record more.
pub fn generations_hold()
    ensures cut { (old new : Files) (s : Records) (t g : ℕ) (bodies : List Body) (body : Body)
        → AreRecords old s → 1 ≤ length (regions s.instance) → generation s.instance < g
        → ((h r : ℕ) → generation s.instance < h → h ≤ g → r < length (regions s.instance) → records (old (journal_file h r)) ≡ Some [])
        → ((f : ℕ) → f ≢ INSTANCE → new f ≡ old f)
        → records (old INSTANCE) ≡ Some bodies → records (new INSTANCE) ≡ Some (bodies ++ body ∷ []) → IsInstanceBody body (Cut t g)
        → AreRecords new (with_record s (Cut t g)) }
    ensures reign { (old new : Files) (s : Records) (r : Reign) (bodies : List Body) (body : Body)
        → AreRecords old s → 1 ≤ length (regions s.instance) → AllByRecursion (λ q. q.start < r.start) (reigns s.instance)
        → ((f : ℕ) → f ≢ INSTANCE → new f ≡ old f)
        → records (old INSTANCE) ≡ Some bodies → records (new INSTANCE) ≡ Some (bodies ++ body ∷ []) → IsInstanceBody body (Reigned r)
        → AreRecords new (with_record s (Reigned r)) }
    ensures map { (old new : Files) (s : Records) (region : ℕ) (star : Bool) (name : List ℕ) (bodies : List Body) (body : Body)
        → AreRecords old s → 1 ≤ length (regions s.instance) → ((f : ℕ) → f ≢ INSTANCE → new f ≡ old f)
        → records (old INSTANCE) ≡ Some bodies → records (new INSTANCE) ≡ Some (bodies ++ body ∷ []) → IsInstanceBody body (Map region star name)
        → AreRecords new (with_record s (Map region star name)) }
    ensures mode { (old new : Files) (s : Records) (region : ℕ) (before : Bool) (bodies : List Body) (body : Body)
        → AreRecords old s → 1 ≤ length (regions s.instance) → ((f : ℕ) → f ≢ INSTANCE → new f ≡ old f)
        → records (old INSTANCE) ≡ Some bodies → records (new INSTANCE) ≡ Some (bodies ++ body ∷ []) → IsInstanceBody body (Mode region before)
        → AreRecords new (with_record s (Mode region before)) }
    ensures before { (files : Files) (s : Records) (g : ℕ) → AreRecords files s → generation s.instance < g → IsBefore g s }
{}
