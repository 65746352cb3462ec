//! What appended records make of the sequence.

ghost use Rattle.std.specs.Prelude.{◌≡◌, ℕ, ◌+◌, ◌<◌, ◌≤◌, true, List, [], ◌∷◌, ◌++◌, length, take, Option, Some};
ghost use Rattle.global_defs.specs.Entry.{Entry, Sequence, Reign};
ghost use Rattle.global_defs.specs.Prefix.{stamp_at};
ghost use Rattle.global_defs.specs.Rising.{begun_by};
ghost use Rattle.journal_defs.specs.Journal.{Part};
ghost use Rattle.journal_defs.specs.Instance.{InstanceRecord, Cut, Reigned};
ghost use Rattle.journal_defs.specs.Surviving.{survives, spares, reigns};
ghost use Rattle.journal_defs.specs.Sequence.{Records, entry_with, IsSequence};
ghost use Rattle.journal_defs.specs.Growth.{with_record, with_parts, IsBefore, NonePast, AreNumbered};

/// Records stand for one sequence at most. A CUT leaves its first entries and nothing past them, the parts of the next entry make
/// it one longer, and a reign that begins past it leaves it. A CUT drops the reigns that begin past it.
pub fn sequences_hold()
    ensures one { (s : Records) (a b : Sequence) → IsSequence s a → IsSequence s b → a ≡ b }
    ensures cut { (s : Records) (seq : Sequence) (t g : ℕ) → IsSequence s seq → t ≤ length seq → IsBefore g s
        → IsSequence (with_record s (Cut t g)) (take t seq) }
    ensures cut_here { (s : Records) (seq : Sequence) (g : ℕ) → IsSequence s seq → IsBefore g s
        → IsSequence (with_record s (Cut (length seq) g)) seq }
    ensures none_past_cut { (s : Records) (t g : ℕ) → IsBefore g s → NonePast t (with_record s (Cut t g)) }
    ensures longer { (s : Records) (seq : Sequence) (n g : ℕ) (part : ℕ → Option Part) (e : Entry) → IsSequence s seq → NonePast (length seq) s
        → n ≡ length seq + 1 → AreNumbered n part → survives s.instance g n ≡ true
        → entry_with part (stamp_at n (reigns s.instance)) ≡ Some e
        → IsSequence (with_parts s g part) (seq ++ e ∷ []) }
    ensures none_past_longer { (s : Records) (n g : ℕ) (part : ℕ → Option Part) → NonePast n s → AreNumbered n part → NonePast n (with_parts s g part) }
    ensures reign { (s : Records) (seq : Sequence) (r : Reign) → IsSequence s seq → NonePast (length seq) s → length seq < r.start
        → IsSequence (with_record s (Reigned r)) seq }
    ensures reigns_after_cut { (instance : List InstanceRecord) (t g : ℕ)
        → reigns (instance ++ Cut t g ∷ []) ≡ begun_by t (reigns instance) }
    ensures reigns_after_reign { (instance : List InstanceRecord) (r : Reign) → reigns (instance ++ Reigned r ∷ []) ≡ reigns instance ++ r ∷ [] }
    // a record that leaves every number and every reign, as a MODE
    ensures other_record { (s : Records) (seq : Sequence) (x : InstanceRecord) → ((g m : ℕ) → spares g m x ≡ true)
        → reigns (s.instance ++ x ∷ []) ≡ reigns s.instance → IsSequence s seq → IsSequence (with_record s x) seq }
{}
