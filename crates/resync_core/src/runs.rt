// Lists of events by which commands come about.
ghost use Rattle.std.specs.Prelude.{◌≡◌, ◌≢◌, ℕ, ◌≤◌, List, ◌∷◌, ◌++◌, length, map, set, slice_get, Some};
ghost use Rattle.global_defs.specs.Entry.{Stamp, Entry, Sequence, Reign};
ghost use Rattle.global_defs.specs.Prefix.{IsPrefix};
ghost use Rattle.global_defs.specs.Serial.{Turn, serial};
ghost use Rattle.lineage_defs.specs.Histories.{IsHistory};
ghost use Rattle.lineage_defs.specs.Sites.{Primary, Following, Site, World, hardened_part};
ghost use Rattle.lineage_defs.specs.Events.{Event, Decide, Harden, Cut, Crash, Begin, Follow, Roll, Begins, Follows, IsCut, IsLeft, for_followers, resumed, set_back, Happens, Reaches};
ghost use Rattle.lineage_defs.specs.Outcomes.{Image, IsImage, settled};
ghost use Rattle.lineage_defs.specs.Runs.{HaveJobs, as_decided, as_shipped, shipping};

/// Steps that change one site, or one site and its followers.
pub fn steps_hold()
    ensures hardened { (w : World) (i : ℕ) (a : Site) → slice_get w i ≡ Some a → Happens w (Harden i) (set w i (record a { hardened = length a.sequence })) }
    ensures begun { (w : World) (i : ℕ) (a new : Site) → slice_get w i ≡ Some a → Begins a new → Happens w (Begin i) (set w i new) }
    ensures followed { (w : World) (i k : ℕ) (a b new : Site) → slice_get w k ≡ Some a → slice_get w i ≡ Some b → Follows a b new → Happens w (Follow i k) (set w i new) }
    ensures crashed { (w : World) (i n : ℕ) (a new : Site) → slice_get w i ≡ Some a → n ≤ length a.sequence → IsLeft a.hardened n a new
        → Happens w (Crash i n) (set (map (for_followers a.name (resumed a.name)) w) i new) }
    // a crash leaves an image
    ensures settled { (w : World) (i : ℕ) (a : Site) (x : Image) → slice_get w i ≡ Some a → IsImage a x
        → Happens w (Crash i (length x.sequence)) (set (map (for_followers a.name (resumed a.name)) w) i (settled a x)) }
    ensures rolled { (w : World) (i t : ℕ) (a new : Site) → slice_get w i ≡ Some a → t ≤ length a.sequence → IsLeft 0 t a new
        → Happens w (Roll i t) (set (map (for_followers a.name (set_back a.name)) w) i new) }
    ensures cut { (w : World) (i : ℕ) (b new : Site) → slice_get w i ≡ Some b → IsCut b new → Happens w (Cut i) (set w i new) }
{}

/// One list of events after another is a list of events. A serial run is its picks. Entries reach a
/// follower in three events each.
pub fn runs_hold()
    ensures joined { (w m v : World) (es fs : List Event) → Reaches w es m → Reaches m fs v → Reaches w (es ++ fs) v }
    ensures decided { (w : World) (i : ℕ) (a : Site) (stamp : Stamp) (picks : List ℕ) (t : Turn) → slice_get w i ≡ Some a → a.role ≡ Primary stamp t.serials
        → a.sequence ≡ t.sequence → HaveJobs stamp picks t → Reaches w (map (Decide i) picks) (set w i (as_decided a stamp (serial stamp picks t))) }
    // from entry e on, where j's follower has those before it; its reigns are then a history of them all
    ensures shipped { (w : World) (j k : ℕ) (a b : Site) (e : Entry) (more : Sequence) (reigns : List Reign) (cycle : ℕ) → j ≢ k
        → slice_get w k ≡ Some a → slice_get w j ≡ Some b → b.role ≡ Following a.name b.sequence b.sequence → b.hardened ≤ length b.sequence
        → IsPrefix (b.sequence ++ e ∷ more) (hardened_part a) → IsHistory b.reigns b.sequence → IsHistory reigns (b.sequence ++ e ∷ more) → b.cycle ≤ cycle
        → Reaches w (shipping j (e ∷ more)) (set w j (as_shipped b a.name (b.sequence ++ e ∷ more) reigns cycle)) }
{}
