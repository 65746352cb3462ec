// What the definitions come to on small sites.
ghost use Rattle.std.specs.Prelude.{◌≡◌, [], ◌∷◌, slice_get, Some};
ghost use Rattle.global_defs.specs.Rising.{SerialsRise};
ghost use Rattle.lineage_defs.specs.Histories.{StampsChange, IsHistory, IsCommonOf};
ghost use Rattle.lineage_defs.specs.Sites.{Waiting, Site, World};
ghost use Rattle.lineage_defs.specs.Events.{Sends, Adopts, Follows, drawn, Happens, Crash, Roll};
ghost use Rattle.lineage_defs.specs.Lineage.{Agree};
ghost use Rattle.lineage_defs.specs.Samples.{A, B, stamp, reign, entry, unhardened, whole, behind, parted, set_back_twice};

/// No entry is sent before it is hardened, no crash takes what was hardened, and no site follows one
/// that lacks its entries. A site that is rolled back leaves its followers waiting. A new reign has a
/// cycle that no earlier one had, dropped ones among them.
pub fn steps_are_refused()
    ensures unhardened { (new : Site) → Sends unhardened behind new → ⊥ }
    ensures crash { (w : World) → Happens (whole ∷ []) (Crash 0 0) w → ⊥ }
    ensures follow { (new : Site) → Follows whole parted new → ⊥ }
    ensures roll { (w : World) (b : Site) → Happens (whole ∷ behind ∷ []) (Roll 0 1) w → slice_get w 1 ≡ Some b → b.role ≡ Waiting A }
    ensures cycle { drawn set_back_twice ≡ stamp A 4 }
{}

/// A follower's reign begins with its first entry and no earlier, and no reign begins where the last
/// one goes on.
pub fn reigns_begin_once()
    ensures early { Adopts 1 (stamp B 2) (reign A 1 1 ∷ []) (reign A 1 1 ∷ reign B 2 1 ∷ []) → ⊥ }
    ensures again { StampsChange (reign A 1 1 ∷ reign A 1 2 ∷ []) → ⊥ }
    ensures history { IsHistory (reign A 1 1 ∷ reign A 1 2 ∷ []) (entry A 1 1 ∷ entry A 1 2 ∷ []) → ⊥ }
{}

/// Sequences that differ before an entry that they share don't agree. A serial that comes again
/// doesn't rise.
pub fn sequences_disagree()
    ensures differ { Agree (entry A 1 1 ∷ entry A 3 1 ∷ []) (entry A 2 1 ∷ entry A 3 1 ∷ []) → ⊥ }
    ensures again { SerialsRise (entry A 1 1 ∷ entry A 1 1 ∷ []) → ⊥ }
{}

/// Histories that part at number 2 share one entry, neither none nor two.
pub fn histories_differ()
    ensures none { IsCommonOf 0 (record { length = 2; reigns = reign A 1 1 ∷ reign A 2 2 ∷ [] }) (record { length = 2; reigns = reign A 1 1 ∷ reign B 2 2 ∷ [] }) → ⊥ }
    ensures two { IsCommonOf 2 (record { length = 2; reigns = reign A 1 1 ∷ reign A 2 2 ∷ [] }) (record { length = 2; reigns = reign A 1 1 ∷ reign B 2 2 ∷ [] }) → ⊥ }
{}
