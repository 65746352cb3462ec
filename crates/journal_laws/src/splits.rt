//! A transaction's parts are an entry of it.

ghost use Rattle.std.specs.Prelude.{◌≡◌, ◌≢◌, ℕ, List, [], ◌<◌, ◌^◌, Some};
ghost use Rattle.std.specs.List.{AllByRecursion};
ghost use Rattle.global_defs.specs.declared.limits.TheConstants.{MOST_REGIONS};
ghost use Rattle.global_defs.specs.Fields.{IsNumber, IsTransaction};
ghost use Rattle.global_defs.specs.Entry.{Update, Transaction, Stamp};
ghost use Rattle.journal_defs.specs.Journal.{Part, IsPart};
ghost use Rattle.journal_defs.specs.Sequence.{entry_with};
ghost use Rattle.journal_defs.specs.Growth.{AreNumbered, AreTidy};
ghost use Rattle.journal_defs.specs.Split.{split, mask_of, IsSplit};

/// The parts into which a transaction is split make one complete entry, which is that transaction. Each stands in the region of
/// its updates, and is of its form.
pub fn splits_hold()
    ensures entry { (region : Update → ℕ) (n mask : ℕ) (t : Transaction) (stamp : Stamp) → IsSplit region mask t
        → entry_with (split region n mask t) (Some stamp) ≡ Some (record { stamp = stamp; transaction = t }) }
    // the mask of its regions is one
    ensures mask { (region : Update → ℕ) (t : Transaction) → t.updates ≢ [] → AllByRecursion (λ u. region u < MOST_REGIONS) t.updates
        → IsSplit region (mask_of region t.updates) t }
    ensures mask_below { (region : Update → ℕ) (us : List Update) → mask_of region us < 2 ^ 8 }
    ensures numbered { (region : Update → ℕ) (n mask : ℕ) (t : Transaction) → AreNumbered n (split region n mask t) }
    ensures at_home { (region : Update → ℕ) (n mask : ℕ) (t : Transaction) (r : ℕ) (p : Part) → split region n mask t r ≡ Some p
        → AllByRecursion (λ i. region i.update ≡ r) p.items }
    ensures in_form { (region : Update → ℕ) (n mask : ℕ) (t : Transaction) (r : ℕ) (p : Part) → IsNumber n → mask < 2 ^ 8 → IsTransaction t
        → split region n mask t r ≡ Some p → IsPart p }
    ensures tidy { (region : Update → ℕ) (n mask : ℕ) (t : Transaction) → IsSplit region mask t → AreTidy (split region n mask t) }
{}
