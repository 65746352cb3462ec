//! Disks that are fit before any entry.

ghost use Rattle.std.specs.Prelude.{◌≡◌, ◌≢◌, ℕ, List, [], ◌∷◌, Some};
ghost use Rattle.global_defs.specs.Region.{Region};
ghost use Rattle.disk_defs.specs.Disk.{Files};
ghost use Rattle.disk_defs.specs.Gates.{Body, records};
ghost use Rattle.journal_defs.specs.Numbers.{INSTANCE};
ghost use Rattle.journal_defs.specs.Instance.{Create, IsInstanceBody};
ghost use Rattle.journal_defs.specs.Fit.{IsFitImage};

/// Files without a byte are fit, and so are those of a site that was just created; both stand for the empty sequence.
pub fn new_disks_are_fit()
    ensures empty { (files : Files) → ((f : ℕ) → files f ≡ []) → IsFitImage files (record { instance = []; journal = λ r. [] }) [] }
    ensures created { (files : Files) (name : List ℕ) (regions : List Region) (body : Body) → IsInstanceBody body (Create name regions)
        → records (files INSTANCE) ≡ Some (body ∷ []) → ((f : ℕ) → f ≢ INSTANCE → files f ≡ [])
        → IsFitImage files (record { instance = Create name regions ∷ []; journal = λ r. [] }) [] }
{}
