// What disks may hold after a crash.
ghost use Rattle.std.specs.Prelude.{◌≡◌, ℕ, ◌≤◌, length, slice_get, Some};
ghost use Rattle.global_defs.specs.declared.limits.TheConstants.{MOST_REIGNS};
ghost use Rattle.global_defs.specs.Entry.{Sequence};
ghost use Rattle.global_defs.specs.Prefix.{IsPrefix};
ghost use Rattle.global_defs.specs.Rising.{SerialsRise, begun_by};
ghost use Rattle.lineage_defs.specs.Histories.{IsHistory};
ghost use Rattle.lineage_defs.specs.Sites.{Following, Site, World};
ghost use Rattle.lineage_defs.specs.Lineage.{Agree, HasCycles, IsFit};
ghost use Rattle.lineage_defs.specs.Outcomes.{IsOutcome};

/// Whatever a crash leaves of each site of a fit world, any two of these sequences agree and know
/// their cycles, each has its history and few reigns, and its serials rise. A follower's sequence is a
/// prefix of each outcome of its primary.
pub fn outcomes_hold()
    ensures agree { (w : World) (i j : ℕ) (a b : Site) (x y : Sequence) → IsFit w → slice_get w i ≡ Some a → slice_get w j ≡ Some b
        → IsOutcome a x → IsOutcome b y → Agree x y }
    ensures cycles { (w : World) (i j : ℕ) (a b : Site) (y : Sequence) → IsFit w → slice_get w i ≡ Some a → slice_get w j ≡ Some b
        → IsOutcome b y → HasCycles a.name a.cycle y }
    ensures rise { (w : World) (i : ℕ) (a : Site) (x : Sequence) → IsFit w → slice_get w i ≡ Some a → IsOutcome a x → SerialsRise x }
    ensures history { (w : World) (i : ℕ) (a : Site) (x : Sequence) → IsFit w → slice_get w i ≡ Some a → IsOutcome a x → IsHistory a.reigns x }
    ensures few { (w : World) (i : ℕ) (a : Site) (x : Sequence) → IsFit w → slice_get w i ≡ Some a → IsOutcome a x
        → length (begun_by (length x) a.reigns) ≤ MOST_REIGNS }
    ensures follower { (w : World) (i j : ℕ) (a b : Site) (x sent received : Sequence) → IsFit w → slice_get w i ≡ Some a → slice_get w j ≡ Some b
        → b.role ≡ Following a.name sent received → IsOutcome a x → IsPrefix b.sequence x }
{}
