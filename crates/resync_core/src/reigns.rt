// Reigns as they begin and are dropped, and what a secondary is told of them.
ghost use Rattle.std.specs.Prelude.{◌≡◌, ℕ, suc, ◌<◌, ◌≤◌, List, [], ◌∷◌, ◌++◌, length, slice_get, Some};
ghost use Rattle.global_defs.specs.declared.limits.TheConstants.{MOST_REIGNS};
ghost use Rattle.global_defs.specs.Entry.{Stamp, Reign, Sequence};
ghost use Rattle.global_defs.specs.Prefix.{IsPrefix, stamp_at};
ghost use Rattle.global_defs.specs.Rising.{begun_by};
ghost use Rattle.lineage_defs.specs.Histories.{IsHistory};
ghost use Rattle.lineage_defs.specs.Sites.{Site, World};
ghost use Rattle.lineage_defs.specs.Events.{Adopts};
ghost use Rattle.lineage_defs.specs.Lineage.{IsFit};

/// Reigns that begin past a number don't count for it, and the last one that has begun does.
pub fn stamps_hold()
    ensures dropped { (n most : ℕ) (reigns : List Reign) → n ≤ most → stamp_at n (begun_by most reigns) ≡ stamp_at n reigns }
    ensures before { (n : ℕ) (reigns : List Reign) (r : Reign) → n < r.start → stamp_at n (reigns ++ r ∷ []) ≡ stamp_at n reigns }
    ensures begun { (n : ℕ) (reigns : List Reign) (r : Reign) → r.start ≤ n → stamp_at n (reigns ++ r ∷ []) ≡ Some r.stamp }
    // the same of the reigns themselves
    ensures reigns_dropped { (n most : ℕ) (reigns : List Reign) → n ≤ most → begun_by n (begun_by most reigns) ≡ begun_by n reigns }
    ensures reigns_before { (n : ℕ) (reigns : List Reign) (r : Reign) → n < r.start → begun_by n (reigns ++ r ∷ []) ≡ begun_by n reigns }
    ensures reigns_begun { (n : ℕ) (reigns : List Reign) (r : Reign) → r.start ≤ n → begun_by n (reigns ++ r ∷ []) ≡ begun_by n reigns ++ r ∷ [] }
{}

/// A sequence has one history, and a front of it the front of that. So what a follower has of its
/// primary's sequence it has under the primary's reigns; the reign of its next entry begins with that
/// entry, or is its last one as it stands; and it has no more reigns than it may.
pub fn reigns_hold()
    ensures one { (rs qs : List Reign) (seq : Sequence) → IsHistory rs seq → IsHistory qs seq → begun_by (length seq) rs ≡ begun_by (length seq) qs }
    ensures front { (rs : List Reign) (front seq : Sequence) → IsHistory rs seq → IsPrefix front seq → IsHistory rs front }
    ensures shared { (w : World) (i j : ℕ) (a b : Site) → IsFit w → slice_get w i ≡ Some a → slice_get w j ≡ Some b → IsPrefix b.sequence a.sequence
        → begun_by (length b.sequence) b.reigns ≡ begun_by (length b.sequence) a.reigns }
    ensures next { (w : World) (i j : ℕ) (a b : Site) (stamp : Stamp) → IsFit w → slice_get w i ≡ Some a → slice_get w j ≡ Some b → IsPrefix b.sequence a.sequence
        → length b.sequence < length a.sequence → stamp_at (suc (length b.sequence)) a.reigns ≡ Some stamp
        → Adopts (length b.sequence) stamp b.reigns a.reigns }
    ensures few { (w : World) (i j : ℕ) (a b : Site) → IsFit w → slice_get w i ≡ Some a → slice_get w j ≡ Some b → IsPrefix b.sequence a.sequence
        → length b.sequence < length a.sequence → length (begun_by (suc (length b.sequence)) a.reigns) ≤ MOST_REIGNS }
{}
