//! What files stand for, and what lies behind that.

ghost use Rattle.std.specs.Prelude.{◌≡◌, ℕ, ◌-◌, ◌≤◌, [], ◌∷◌, ◌++◌, length, get_or};
ghost use Rattle.global_defs.specs.declared.limits.TheConstants.{MOST_GENERATIONS};
ghost use Rattle.disk_defs.specs.Disk.{Files};
ghost use Rattle.journal_defs.specs.Numbers.{lost_file, broken_file};
ghost use Rattle.journal_defs.specs.Instance.{generation};
ghost use Rattle.site_defs.specs.Contents.{Contents, Leftover, NO_LEFTOVER};
ghost use Rattle.site_defs.specs.Opening.{IsBehind};
ghost use Rattle.site_defs.specs.Stands.{IsSite, HasLeft, Stands, Reads};

/// The files of a site have one thing behind its sequence, and its broken list is the text of some parts; there is nothing before the
/// first generation.
pub fn leftovers_hold()
    ensures there { (f : Files) (c : Contents) → IsSite f c → (left : Leftover) × HasLeft f c left }
    ensures one { (f : Files) (c : Contents) (l m : Leftover) → HasLeft f c l → HasLeft f c m → l ≡ m }
    ensures behind { (f : Files) (c : Contents) (left : Leftover) → Reads f c left → IsBehind c left }
    ensures unbegun { (f : Files) (c : Contents) → IsSite f c → generation c.instance ≡ 0 → HasLeft f c NO_LEFTOVER }
    ensures reads { (f : Files) (c : Contents) → Stands f c → (left : Leftover) × Reads f c left }
{}

/// Files stand for one thing at most.
pub fn files_stand_for_one()
    ensures { (f : Files) (c o : Contents) → Stands f c → Stands f o → c ≡ o }
{}

/// A broken-transaction file has what is typed of it: a text, or what an opening that a fault ended wrote, or nothing. So has a lost-transaction file.
pub fn typing_reads_files()
    ensures broken { (f : Files) (c : Contents) (left : Leftover) (g : ℕ) → IsSite f c → HasLeft f c left → 1 ≤ g → g ≤ MOST_GENERATIONS
        → f (broken_file g) ≡ get_or (c.texts ++ left.torn ∷ []) (g - 1) [] }
    // the contents have one of each kind a generation
    ensures count { (f : Files) (c : Contents) → IsSite f c → (length c.texts ≡ generation c.instance) × (length c.losts ≡ generation c.instance) }
    // there is no lost-transaction file past the newest generation
    ensures lost { (f : Files) (c : Contents) (g : ℕ) → IsSite f c → 1 ≤ g → g ≤ MOST_GENERATIONS → f (lost_file g) ≡ get_or c.losts (g - 1) [] }
{}
