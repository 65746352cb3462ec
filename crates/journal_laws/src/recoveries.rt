//! Where a region needs forward recovery.

ghost use Rattle.std.specs.Prelude.{◌≡◌, ℕ, ◌<◌, ◌≤◌, true, false, List, [], ◌∷◌, ◌++◌, None};
ghost use Rattle.journal_defs.specs.Journal.{Start, Pini, Mark, Epoch};
ghost use Rattle.journal_defs.specs.Instance.{InstanceRecord};
ghost use Rattle.journal_defs.specs.Surviving.{survives};
ghost use Rattle.journal_defs.specs.Sequence.{Placed};
ghost use Rattle.journal_defs.specs.Epochs.{epoch_in, chosen, first_without, NeedsForward};

/// A generation of mode 0 asks for forward recovery, for every target until the next EPOCH, and from then on for every
/// target below that EPOCH's number.
pub fn recoveries_hold()
    ensures begins { (instance : List InstanceRecord) (t g : ℕ) (journal : List Placed) (s : Start) → s.before ≡ false
        → NeedsForward instance t (journal ++ record { generation = g; what = Pini s } ∷ []) }
    ensures goes_on { (instance : List InstanceRecord) (t : ℕ) (journal : List Placed) (p : Placed) → epoch_in instance t p.generation p.what [] ≡ None
        → NeedsForward instance t journal → NeedsForward instance t (journal ++ p ∷ []) }
    // an EPOCH leaves it for each target below its number
    ensures stays_below { (instance : List InstanceRecord) (t g : ℕ) (journal : List Placed) (m : Mark) → t < m.number → NeedsForward instance t journal
        → NeedsForward instance t (journal ++ record { generation = g; what = Epoch m } ∷ []) }
    // and ends it for each other one
    ensures ends { (instance : List InstanceRecord) (t g : ℕ) (journal : List Placed) (m : Mark) → survives instance g m.number ≡ true → m.number ≤ t
        → first_without (journal ++ record { generation = g; what = Epoch m } ∷ []) (chosen instance t (journal ++ record { generation = g; what = Epoch m } ∷ [])) ≡ None }
    ensures lesser_target { (instance : List InstanceRecord) (t u : ℕ) (journal : List Placed) → t ≤ u
        → NeedsForward instance u journal → NeedsForward instance t journal }
{}
