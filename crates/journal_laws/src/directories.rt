//! The directory, and the regions of parts.

ghost use Rattle.std.specs.Prelude.{◌≡◌, ℕ, ◌<◌, Bool, List, [], ◌∷◌, ◌++◌};
ghost use Rattle.std.specs.List.{AllByRecursion};
ghost use Rattle.global_defs.specs.Entry.{Reign};
ghost use Rattle.journal_defs.specs.Journal.{JournalRecord};
ghost use Rattle.journal_defs.specs.Instance.{InstanceRecord, Reigned, Cut, Mode};
ghost use Rattle.journal_defs.specs.Directory.{Pattern, patterns, region_of};
ghost use Rattle.journal_defs.specs.Fit.{IsAtHome};

/// A name has one of the regions that there are.
pub fn region_is_there()
    ensures { (ps : List Pattern) (name : List ℕ) (n : ℕ) → 0 < n → AllByRecursion (λ p. p.region < n) ps → region_of ps name < n }
{}

/// Records of an opened site's instance file leave the directory, so a region's part of a state stays what it was.
pub fn directory_stays()
    ensures cut { (instance : List InstanceRecord) (t g : ℕ) → patterns (instance ++ Cut t g ∷ []) ≡ patterns instance }
    ensures reign { (instance : List InstanceRecord) (r : Reign) → patterns (instance ++ Reigned r ∷ []) ≡ patterns instance }
    ensures mode { (instance : List InstanceRecord) (region : ℕ) (before : Bool) → patterns (instance ++ Mode region before ∷ []) ≡ patterns instance }
    ensures at_home_after_cut { (instance : List InstanceRecord) (t g r h : ℕ) (what : JournalRecord) → IsAtHome instance r h what
        → IsAtHome (instance ++ Cut t g ∷ []) r h what }
{}
