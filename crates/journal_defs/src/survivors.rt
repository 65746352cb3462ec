//! Small cases of what a CUT leaves, and of what an instance file says of its regions.

ghost use Rattle.std.specs.Prelude.{◌≡◌, true, false, [], ◌∷◌, Some, None};
ghost use Rattle.global_defs.specs.Prefix.{stamp_at};
ghost use Rattle.journal_defs.specs.Instance.{Cut, Reigned, Mode, generation, greatest_cycle, mode_of};
ghost use Rattle.journal_defs.specs.Surviving.{survives, reigns};
ghost use Rattle.journal_defs.specs.Samples.{A1, REIGN, SITE, reign_from};

/// A CUT leaves what has a number up to its length, and all of its own generation and of later ones.
pub fn survivors_are()
    ensures up_to_it { survives (Cut 3 2 ∷ []) 1 3 ≡ true }
    ensures past_it { survives (Cut 3 2 ∷ []) 1 4 ≡ false }
    ensures own_generation { survives (Cut 0 1 ∷ []) 1 5 ≡ true }
    ensures later_generation { survives (Cut 0 1 ∷ []) 2 5 ≡ true }
    ensures each_counts { survives (Cut 3 2 ∷ Cut 5 3 ∷ []) 1 4 ≡ false }
    ensures a_later_one_too { survives (Cut 5 2 ∷ Cut 3 3 ∷ []) 2 4 ≡ false }
{}

/// A later CUT below its start drops a reign, whatever generation it has, and an earlier one doesn't.
pub fn reigns_are()
    ensures dropped { reigns (REIGN ∷ Cut 0 2 ∷ []) ≡ [] }
    ensures after_it { reigns (Cut 0 1 ∷ REIGN ∷ []) ≡ reign_from 1 1 ∷ [] }
    ensures begun { reigns (REIGN ∷ Cut 1 2 ∷ []) ≡ reign_from 1 1 ∷ [] }
    ensures first_stays { reigns (REIGN ∷ Reigned (reign_from 2 5) ∷ Cut 4 2 ∷ []) ≡ reign_from 1 1 ∷ [] }
    ensures its_number { stamp_at 5 (reigns (REIGN ∷ Reigned (reign_from 2 5) ∷ [])) ≡ Some (record { root = 65 ∷ []; cycle = 2 }) }
    ensures before_it { stamp_at 4 (reigns (REIGN ∷ Reigned (reign_from 2 5) ∷ [])) ≡ Some A1 }
    ensures no_stamp { stamp_at 4 (reigns (Reigned (reign_from 2 5) ∷ [])) ≡ None }
{}

/// The greatest generation is that of a CUT, the greatest cycle also that of a dropped reign, and the last mode holds.
pub fn instance_facts_are()
    ensures no_cut { generation (SITE ∷ []) ≡ 0 }
    ensures last_cut { generation (SITE ∷ Cut 0 1 ∷ REIGN ∷ Cut 0 2 ∷ []) ≡ 2 }
    ensures no_cycle { greatest_cycle (SITE ∷ []) ≡ 0 }
    ensures dropped_cycle { greatest_cycle (SITE ∷ Reigned (reign_from 3 9) ∷ Cut 0 2 ∷ REIGN ∷ []) ≡ 3 }
    ensures first_mode { mode_of (SITE ∷ Mode 0 false ∷ []) 1 ≡ Some true }
    ensures last_mode { mode_of (SITE ∷ Mode 1 false ∷ Mode 0 false ∷ []) 1 ≡ Some false }
    ensures mode_again { mode_of (SITE ∷ Mode 1 false ∷ Mode 1 true ∷ []) 1 ≡ Some true }
    ensures no_region { mode_of (SITE ∷ []) 2 ≡ None }
{}
