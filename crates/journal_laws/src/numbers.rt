//! The numbers of a site's files.

ghost use Rattle.std.specs.Prelude.{◌≡◌, ℕ, ◌<◌, ◌≤◌};
ghost use Rattle.global_defs.specs.declared.limits.TheConstants.{MOST_GENERATIONS, MOST_REGIONS};
ghost use Rattle.journal_defs.specs.Numbers.{INSTANCE, database_file, journal_file, lost_file, broken_file};

/// No two files have one number: the instance file comes first, then the database files, the journals, the lost- and the
/// broken-transaction files.
pub fn file_numbers_hold()
    ensures databases_after_instance { (r : ℕ) → INSTANCE < database_file r }
    ensures kept_free_from { (r : ℕ) → r < MOST_REGIONS → database_file r < 9 }
    ensures kept_free_up_to { (g r : ℕ) → 15 < journal_file g r }
    ensures lost_after_journals { (g h r : ℕ) → g ≤ MOST_GENERATIONS → r < MOST_REGIONS → journal_file g r < lost_file h }
    ensures broken_after_lost { (g h : ℕ) → g ≤ MOST_GENERATIONS → lost_file g < broken_file h }
    ensures one_database { (r q : ℕ) → database_file r ≡ database_file q → r ≡ q }
    ensures one_journal { (g h r q : ℕ) → r < MOST_REGIONS → q < MOST_REGIONS → journal_file g r ≡ journal_file h q → (g ≡ h) × (r ≡ q) }
    ensures one_lost { (g h : ℕ) → lost_file g ≡ lost_file h → g ≡ h }
    ensures one_broken { (g h : ℕ) → broken_file g ≡ broken_file h → g ≡ h }
{}
