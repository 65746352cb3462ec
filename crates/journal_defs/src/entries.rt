//! Small cases of complete entries and of the longest run of them.

ghost use Rattle.std.specs.Prelude.{◌≡◌, [], ◌∷◌, Some, None};
ghost use Rattle.journal_defs.specs.Instance.{Cut, Reigned};
ghost use Rattle.journal_defs.specs.Sequence.{entry, IsSequence};
ghost use Rattle.journal_defs.specs.Split.{split, mask_of};
ghost use Rattle.journal_defs.specs.Samples.{REIGN, kill_x, set_h, both_updates, both_entry, reign_from, part, tcom, half_x, half_h, sets_in_one, in_regions};

/// An entry counts with all regions of its mask, alike, with positions that fit, surviving, and with a reign.
pub fn entries_are()
    ensures two_regions { entry (in_regions (REIGN ∷ []) (tcom 1 (half_x 1 1) ∷ []) (tcom 1 (half_h 1 1) ∷ [])) 1 ≡ Some (both_entry 1) }
    ensures half { entry (in_regions (REIGN ∷ []) (tcom 1 (half_x 1 1) ∷ []) []) 1 ≡ None }
    ensures other_half { entry (in_regions (REIGN ∷ []) [] (tcom 1 (half_h 1 1) ∷ [])) 1 ≡ None }
    // its positions fit by themselves
    ensures no_part_in_the_mask { entry (in_regions (REIGN ∷ []) (tcom 1 (part 1 3 1 1 0 kill_x) ∷ []) []) 1 ≡ None }
    // a CUT spares a half of its own generation alone
    ensures cut_half { entry (in_regions (REIGN ∷ Cut 0 2 ∷ REIGN ∷ []) (tcom 1 (half_x 1 1) ∷ []) (tcom 2 (half_h 1 1) ∷ [])) 1 ≡ None }
    // the halves of one number are of different generations, and both survive
    ensures two_generations { entry (in_regions (REIGN ∷ Cut 1 2 ∷ []) (tcom 1 (half_x 1 1) ∷ []) (tcom 2 (half_h 1 1) ∷ [])) 1 ≡ Some (both_entry 1) }
    ensures other_serial { entry (in_regions (REIGN ∷ []) (tcom 1 (half_x 1 1) ∷ []) (tcom 1 (half_h 1 2) ∷ [])) 1 ≡ None }
    ensures other_mask { entry (in_regions (REIGN ∷ []) (tcom 1 (half_x 1 1) ∷ []) (tcom 1 (part 1 7 1 2 1 set_h) ∷ [])) 1 ≡ None }
    ensures other_count { entry (in_regions (REIGN ∷ []) (tcom 1 (half_x 1 1) ∷ []) (tcom 1 (part 1 3 1 3 1 set_h) ∷ [])) 1 ≡ None }
    ensures other_number { entry (in_regions (REIGN ∷ []) (tcom 1 (half_x 1 1) ∷ []) (tcom 1 (half_h 2 1) ∷ [])) 1 ≡ None }
    ensures same_position { entry (in_regions (REIGN ∷ []) (tcom 1 (half_x 1 1) ∷ []) (tcom 1 (part 1 3 1 2 0 set_h) ∷ [])) 1 ≡ None }
    ensures too_few { entry (in_regions (REIGN ∷ []) (tcom 1 (part 1 3 1 3 0 kill_x) ∷ []) (tcom 1 (part 1 3 1 3 1 set_h) ∷ [])) 1 ≡ None }
    ensures too_many { entry (in_regions (REIGN ∷ []) (tcom 1 (part 1 3 1 1 0 kill_x) ∷ []) (tcom 1 (part 1 3 1 1 1 set_h) ∷ [])) 1 ≡ None }
    // a region outside the mask has a part of that number too
    ensures outside_the_mask { entry (in_regions (REIGN ∷ []) (tcom 1 (half_x 1 9) ∷ []) (tcom 1 (part 1 2 1 1 0 set_h) ∷ [])) 1
        ≡ Some (record { stamp = (reign_from 1 1).stamp; transaction = record { origin = record { updater = 1; serial = 1 }; updates = set_h ∷ [] } }) }
    ensures no_reign { entry (in_regions [] (tcom 1 (half_x 1 1) ∷ []) (tcom 1 (half_h 1 1) ∷ [])) 1 ≡ None }
    ensures own_cut { entry (in_regions (Cut 0 1 ∷ REIGN ∷ []) (tcom 1 (half_x 1 1) ∷ []) (tcom 1 (half_h 1 1) ∷ [])) 1 ≡ Some (both_entry 1) }
    ensures discarded { entry (in_regions (REIGN ∷ Cut 0 2 ∷ Reigned (reign_from 2 1) ∷ []) (tcom 1 (half_x 1 1) ∷ []) (tcom 1 (half_h 1 1) ∷ [])) 1 ≡ None }
    ensures later_stamp { entry (in_regions (REIGN ∷ Cut 0 2 ∷ Reigned (reign_from 2 1) ∷ []) (tcom 2 (half_x 1 1) ∷ []) (tcom 2 (half_h 1 1) ∷ [])) 1
        ≡ Some (record { stamp = (reign_from 2 1).stamp; transaction = both_updates 1 }) }
{}

/// The sequence is the longest run of complete entries from number 1 on.
pub fn runs_are()
    ensures none { IsSequence (in_regions (REIGN ∷ []) [] []) [] }
    ensures one { IsSequence (in_regions (REIGN ∷ []) (tcom 1 (half_x 1 1) ∷ []) (tcom 1 (half_h 1 1) ∷ [])) (both_entry 1 ∷ []) }
    ensures two { IsSequence (in_regions (REIGN ∷ []) (tcom 1 (half_x 1 1) ∷ tcom 1 (half_x 2 2) ∷ []) (tcom 1 (half_h 1 1) ∷ tcom 1 (half_h 2 2) ∷ []))
        (both_entry 1 ∷ both_entry 2 ∷ []) }
    // entry 3 is complete, and entry 2 isn't
    ensures gap { IsSequence (in_regions (REIGN ∷ []) (tcom 1 (half_x 1 1) ∷ tcom 1 (half_x 2 2) ∷ tcom 1 (half_x 3 3) ∷ [])
        (tcom 1 (half_h 1 1) ∷ tcom 1 (half_h 3 3) ∷ [])) (both_entry 1 ∷ []) }
    ensures first_half { IsSequence (in_regions (REIGN ∷ []) (tcom 1 (half_x 1 1) ∷ []) []) [] }
{}

/// A transaction has a part in each region of its updates, with their positions.
pub fn parts_are()
    ensures first { split sets_in_one 1 3 (both_updates 1) 0 ≡ Some (half_x 1 1) }
    ensures second { split sets_in_one 1 3 (both_updates 1) 1 ≡ Some (half_h 1 1) }
    ensures mask { mask_of sets_in_one (kill_x ∷ set_h ∷ []) ≡ 3 }
    ensures one_region { mask_of sets_in_one (set_h ∷ set_h ∷ []) ≡ 2 }
    ensures no_other { split sets_in_one 1 3 (both_updates 1) 2 ≡ None }
{}
