// That what a primary ships is admissible.
ghost use Rattle.std.specs.Prelude.{◌≡◌, ℕ, ◌+◌, ◌≤◌, false, List, ◌++◌, length, map};
ghost use Rattle.std.specs.List.{AllByRecursion};
ghost use Rattle.global_defs.specs.declared.limits.TheConstants.{MOST_REIGNS};
ghost use Rattle.global_defs.specs.Entry.{Sequence, Reign, Globals};
ghost use Rattle.global_defs.specs.Prefix as prefix;
ghost use Rattle.global_defs.specs.Prefix.{IsPrefix};
ghost use Rattle.global_defs.specs.Rising.{StartsRise, begun_by};
ghost use Rattle.lineage_defs.specs.Histories.{HasStamps};
ghost use Rattle.wire_defs.specs.Frames.{IsFrame, stream};
ghost use Rattle.ship_defs.specs.Directions.{Admitted};
ghost use Rattle.ship_defs.specs.Hearing.{Ships, Hearing, unbegun, HasRooms, Admits, IsHeardOut, IsBadFromPrimary};
ghost use Rattle.ship_defs.specs.Shipping.{connection};

/// A secondary that has the first entries of a primary's sequence, under the primary's reigns, admits all that the primary ships in a
/// section, where there is room for the nodes. So what comes of it is bad nowhere.
pub fn shipped_is_admitted()
    ensures whole { (h : prefix.History) (reigns : List Reign) (base part : Sequence) (g : Globals) → h.length ≡ length base → begun_by h.length h.reigns ≡ begun_by h.length reigns
        → StartsRise 0 reigns → length reigns ≤ MOST_REIGNS → HasStamps reigns (base ++ part) → HasRooms g (map (λ e. e.transaction) part)
        → (now : Hearing) × Admitted (Admits Ships) (record { heard = unbegun h; globals = g }) (connection reigns (h.length + 1) (map (λ e. e.transaction) part)) now × IsHeardOut now }
    ensures never_bad { (h : prefix.History) (reigns : List Reign) (base part : Sequence) (g : Globals) → h.length ≡ length base → begun_by h.length h.reigns ≡ begun_by h.length reigns
        → StartsRise 0 reigns → length reigns ≤ MOST_REIGNS → HasStamps reigns (base ++ part) → HasRooms g (map (λ e. e.transaction) part)
        → AllByRecursion IsFrame (connection reigns (h.length + 1) (map (λ e. e.transaction) part))
        → (bytes : List ℕ) (o : ℕ) → IsPrefix bytes (stream (connection reigns (h.length + 1) (map (λ e. e.transaction) part)))
        → IsBadFromPrimary Ships (record { heard = unbegun h; globals = g }) bytes false o → ⊥ }
{}
