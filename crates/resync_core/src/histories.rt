// What the histories of two sites tell of their sequences.
ghost use Rattle.std.specs.Prelude.{◌≡◌, ◌↔◌, ℕ, ◌≤◌, length, take, slice_get, Some};
ghost use Rattle.global_defs.specs.Prefix.{IsPrefix, IsCommon, History};
ghost use Rattle.lineage_defs.specs.Histories.{IsCommonOf, told};
ghost use Rattle.lineage_defs.specs.Sites.{Site, World, history};
ghost use Rattle.lineage_defs.specs.Events.{Happens, Roll};
ghost use Rattle.lineage_defs.specs.Lineage.{IsFit, IsRolledTo};

/// Reign records alone tell what two sites share, so a handshake matches exactly where one's sequence
/// is a prefix of the other's, and a rollback to the common length leaves exactly the longest common
/// prefix.
pub fn histories_hold()
    ensures common { (w : World) (i j m n t : ℕ) (a b : Site) → IsFit w → slice_get w i ≡ Some a → slice_get w j ≡ Some b
        → m ≤ length a.sequence → n ≤ length b.sequence
        → IsCommonOf t (history m a) (history n b) ↔ IsCommon t (take m a.sequence) (take n b.sequence) }
    ensures one { (a b : History) (t u : ℕ) → IsCommonOf t a b → IsCommonOf u a b → t ≡ u }
    // reigns past the lengths don't count, so they need not be told
    ensures told { (a b : History) (t : ℕ) → IsCommonOf t (told a) (told b) ↔ IsCommonOf t a b }
    // a is the primary, with so many entries when its history was told
    ensures matched { (w : World) (i j m : ℕ) (a b : Site) → IsFit w → slice_get w i ≡ Some a → slice_get w j ≡ Some b → m ≤ length a.sequence
        → IsCommonOf (length b.sequence) (history m a) (history (length b.sequence) b) ↔ IsPrefix b.sequence (take m a.sequence) }
    ensures rolled { (w v : World) (i j t : ℕ) (a b : Site) → IsFit w → slice_get w i ≡ Some a → slice_get w j ≡ Some b
        → IsCommonOf t (history (length a.sequence) a) (history (length b.sequence) b) → Happens w (Roll i t) v → IsRolledTo v i t a b }
{}
