// What the definitions come to on small values.
ghost use Rattle.std.specs.Prelude.{◌≡◌, ◌==◌, ◌∷◌, ◌++◌, [], codes, true, false};
ghost use Rattle.journal_defs.specs.Instance as records;
ghost use Rattle.site_defs.specs.Limits.{no_generation_left, no_reign_left};
ghost use Rattle.site_defs.specs.Epochs.{epoch_for, with_epochs, marked};
ghost use Rattle.site_defs.specs.Opening.{opened, with_mode, with_starts, with_reign, next_stamp};
ghost use Rattle.site_defs.specs.Forward.{begun_as, opened_as, recovered_as};
ghost use Rattle.site_defs.specs.Rolling.{rolled, lost_text};
ghost use Rattle.site_defs.specs.Samples.{made, reigned_once, dropped_reign, two_regions, cut_epoch, set_once, two_entries};

/// The last generation and the last cycle are limits; a cycle is drawn past that of a reign that was dropped.
pub fn limits_hold()
    ensures generations { no_generation_left (record { instance = records.Cut 0 65534 ∷ []; starts = λ r. []; epochs = λ r. []; texts = []; losts = []; sequence = [] }) ≡ true }
    ensures one_less { no_generation_left (record { instance = records.Cut 0 65533 ∷ []; starts = λ r. []; epochs = λ r. []; texts = []; losts = []; sequence = [] }) ≡ false }
    ensures cycles { no_reign_left (record { instance = records.Reigned (record { stamp = record { root = codes "Z"; cycle = 4294967295 }; start = 1 }) ∷ []; starts = λ r. []; epochs = λ r. []; texts = []; losts = []; sequence = [] }) ≡ true }
    ensures dropped { (next_stamp (codes "A") dropped_reign).cycle ≡ 2 }
{}

/// What the first START of a site leaves, and the second, without an entry between them.
pub fn openings_hold()
    ensures first { (with_reign (codes "A") (opened [] made)).instance ≡ reigned_once.instance }
    ensures first_start { (with_reign (codes "A") (opened [] made)).starts 0 ≡ reigned_once.starts 0 }
    ensures cut { (opened [] reigned_once).instance ≡ reigned_once.instance ++ records.Cut 0 2 ∷ [] }
    ensures starts { (opened [] reigned_once).starts 0 ≡ reigned_once.starts 0 ++ record { region = 0; before = true; generation = 2; previous = 1 } ∷ [] }
    ensures texts { (opened (codes "x") reigned_once).texts ≡ [] ∷ codes "x" ∷ [] }
    ensures cycle { (next_stamp (codes "A") (opened [] reigned_once)).cycle ≡ 2 }
{}

/// A generation begins in one region after another, and in no other region.
pub fn regions_begin()
    ensures first { (with_starts 1 two_regions).starts 0 ≡ record { region = 0; before = true; generation = 1; previous = 0 } ∷ [] }
    ensures not_second { (with_starts 1 two_regions).starts 1 ≡ [] }
    ensures second { (with_starts 2 two_regions).starts 1 ≡ record { region = 1; before = true; generation = 1; previous = 0 } ∷ [] }
    ensures no_third { (with_starts 3 two_regions).starts 2 ≡ [] }
{}

/// A mode holds from the next generation on. A recovery that plays the entries anew keeps images in no region, and leaves the mode.
pub fn modes_hold()
    ensures set { (opened [] (with_mode 0 false reigned_once)).starts 0 ≡ reigned_once.starts 0 ++ record { region = 0; before = false; generation = 2; previous = 1 } ∷ [] }
    ensures set_again { (opened [] (with_mode 0 true (with_mode 0 false reigned_once))).starts 0 ≡ (opened [] reigned_once).starts 0 }
    ensures of_its_region { (opened [] (with_mode 1 false two_regions)).starts 0 ≡ (opened [] two_regions).starts 0 }
    ensures in_its_mode { (opened_as false [] reigned_once).starts 0 ≡ (opened [] reigned_once).starts 0 }
    ensures anew { (opened_as true [] reigned_once).starts 0 ≡ reigned_once.starts 0 ++ record { region = 0; before = false; generation = 2; previous = 1 } ∷ [] }
    ensures in_each_region { (begun_as true 2 two_regions).starts 1 ≡ record { region = 1; before = false; generation = 1; previous = 0 } ∷ [] }
    ensures epoch { (recovered_as true [] two_entries).epochs 0 ≡ record { generation = 2; number = 2 } ∷ [] }
    ensures behind { (opened [] (recovered_as true [] reigned_once)).starts 0 ≡ (opened_as true [] reigned_once).starts 0 ++ record { region = 0; before = true; generation = 3; previous = 2 } ∷ [] }
{}

/// An epoch is taken in regions that there are, and is of the newest generation. One that a CUT discarded is gone back to for no
/// number of entries, however great; of those that count the last one is.
pub fn epochs_are_taken()
    ensures first { (marked reigned_once).epochs 0 ≡ record { generation = 1; number = 0 } ∷ [] }
    ensures no_second { (marked reigned_once).epochs 1 ≡ [] }
    ensures one_of_two { (with_epochs (λ r. r == 1) two_regions).epochs 0 ≡ [] }
    ensures the_other { (with_epochs (λ r. r == 1) two_regions).epochs 1 ≡ record { generation = 1; number = 0 } ∷ [] }
    ensures discarded { epoch_for cut_epoch.instance 1 (cut_epoch.epochs 0) ≡ 0 }
    ensures survived { epoch_for reigned_once.instance 5 (record { generation = 1; number = 3 } ∷ record { generation = 1; number = 4 } ∷ []) ≡ 4 }
    ensures for_fewer { epoch_for reigned_once.instance 3 (record { generation = 1; number = 3 } ∷ record { generation = 1; number = 4 } ∷ []) ≡ 3 }
{}

/// A rollback keeps the first entries, and the extract of the others is in the lost-transaction file of the first of the two generations that
/// it draws. The second one ends with an epoch of what stays.
pub fn rollbacks_hold()
    ensures kept { (rolled 1 [] two_entries).sequence ≡ set_once 1 (codes "a") ∷ [] }
    ensures cuts { (rolled 1 [] two_entries).instance ≡ two_entries.instance ++ records.Cut 2 2 ∷ records.Cut 1 3 ∷ [] }
    ensures lost { (rolled 1 [] two_entries).losts ≡ [] ∷ codes "GTMRJEX01\\A\\2\nSET\\2\\A.1\\1.2\\^X=\"b\"\n" ∷ [] ∷ [] }
    ensures broken { (rolled 1 (codes "x") two_entries).texts ≡ [] ∷ codes "x" ∷ [] ∷ [] }
    // where all stay, the file is its header alone
    ensures none { lost_text 2 two_entries ≡ codes "GTMRJEX01\\A\\3\n" }
    // the first of the two generations begins nowhere
    ensures starts { (rolled 1 [] two_entries).starts 0 ≡ two_entries.starts 0 ++ record { region = 0; before = true; generation = 3; previous = 1 } ∷ [] }
    ensures epoch { (rolled 1 [] two_entries).epochs 0 ≡ record { generation = 3; number = 1 } ∷ [] }
    ensures gone_back { epoch_for (rolled 1 [] two_entries).instance 1 ((rolled 1 [] two_entries).epochs 0) ≡ 1 }
{}
