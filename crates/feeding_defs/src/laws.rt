// What holds of the definitions.
ghost use Rattle.std.specs.Prelude.{◌≡◌, ◌≤◌, ◌++◌, [], ℕ, List};
ghost use Rattle.global_defs.specs.Entry.{Reign};
ghost use Rattle.global_defs.specs.Rising.{StartsRise};
ghost use Rattle.lineage_defs.specs.Histories.{begun_within};
ghost use Rattle.feeding_defs.specs.Feeding.{TakesOn, MayTakeOn};

/// No reign begins within no numbers, and those that begin past one number up to a later one are those up to a number between, and those past that.
pub fn reigns_begin_apart()
    ensures none { (n : ℕ) (rs : List Reign) → begun_within n n rs ≡ [] }
    ensures joined { (a b c : ℕ) (rs : List Reign) → StartsRise 0 rs → a ≤ b → b ≤ c → begun_within a b rs ++ begun_within b c rs ≡ begun_within a c rs }
{}

/// Entries may be taken in several parts: what stands then, and what a fault leaves, is the same as if they came in one.
pub fn taking_goes_on()
    ensures fed { TakesOn }
    ensures left { MayTakeOn }
{}
