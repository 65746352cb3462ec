// Two runs, event by event.
ghost use Rattle.std.specs.Prelude.{List, [], ◌∷◌};
ghost use Rattle.global_defs.specs.Entry.{Update};
ghost use Rattle.lineage_defs.specs.Histories.{IsCommonOf};
ghost use Rattle.lineage_defs.specs.Sites.{history};
ghost use Rattle.lineage_defs.specs.Events.{Reaches};
ghost use Rattle.lineage_defs.specs.Lineage.{IsFit};
ghost use Rattle.resync_core.specs.Rows.{two_sites, switch_before, switch_after, crashed_a, switched_b, following_a, parted, parted_a, parted_b};

/// A switch after a crash, whatever the updates: the sites share one entry, and after a rollback to it
/// the old primary follows.
pub fn switch_holds()
    ensures start { IsFit two_sites }
    ensures before { (one two three : List Update) → Reaches two_sites switch_before (crashed_a one two ∷ switched_b one three ∷ []) }
    ensures common { (one two three : List Update) → IsCommonOf 1 (history 2 (crashed_a one two)) (history 2 (switched_b one three)) }
    ensures after { (one two three : List Update) → Reaches (crashed_a one two ∷ switched_b one three ∷ []) switch_after (following_a one three ∷ switched_b one three ∷ []) }
{}

/// A rollback of a primary below what its follower has: after a reign of each they share what came
/// before, though both have entries with the same numbers, and though both have drawn the same cycle.
pub fn parting_holds()
    ensures parted { (one two three four : List Update) → Reaches two_sites parted (parted_a one three ∷ parted_b one two four ∷ []) }
    ensures common { (one two three four : List Update) → IsCommonOf 1 (history 2 (parted_a one three)) (history 3 (parted_b one two four)) }
{}
