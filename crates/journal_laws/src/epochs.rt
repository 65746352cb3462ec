//! Which epoch is chosen when records are appended.

ghost use Rattle.std.specs.Prelude.{◌≡◌, ℕ, ◌<◌, ◌≤◌, true, List, [], ◌∷◌, ◌++◌, Some, None};
ghost use Rattle.journal_defs.specs.Journal.{Mark, Epoch};
ghost use Rattle.journal_defs.specs.Instance.{InstanceRecord, Cut};
ghost use Rattle.journal_defs.specs.Surviving.{survives, spares};
ghost use Rattle.journal_defs.specs.Sequence.{Placed};
ghost use Rattle.journal_defs.specs.Epochs.{epoch_in, chosen, image_state, Blocks};
ghost use Rattle.journal_defs.specs.Undo.{logged, IsEarlier};

/// The epoch that is chosen for a target, after one record more.
pub fn epochs_hold()
    ensures other_record { (instance : List InstanceRecord) (t : ℕ) (journal : List Placed) (p : Placed) → epoch_in instance t p.generation p.what [] ≡ None
        → chosen instance t (journal ++ p ∷ []) ≡ logged (chosen instance t journal) p }
    ensures new_epoch { (instance : List InstanceRecord) (t g : ℕ) (journal : List Placed) (m : Mark) → survives instance g m.number ≡ true → m.number ≤ t
        → chosen instance t (journal ++ record { generation = g; what = Epoch m } ∷ []) ≡ record { number = m.number; blocks = m.blocks; after = [] } }
    ensures flushed { (n blocks b : ℕ) (database : Blocks) → b < blocks
        → image_state (record { number = n; blocks = blocks; after = [] }) database b ≡ Some (database b) }
    ensures cut { (instance : List InstanceRecord) (t u g : ℕ) (journal : List Placed) → t ≤ u
        → chosen (instance ++ Cut u g ∷ []) t journal ≡ chosen instance t journal }
    ensures instance_record { (instance : List InstanceRecord) (x : InstanceRecord) (t : ℕ) (journal : List Placed) → ((g m : ℕ) → spares g m x ≡ true)
        → chosen (instance ++ x ∷ []) t journal ≡ chosen instance t journal }
    ensures lesser_target { (instance : List InstanceRecord) (t u : ℕ) (journal : List Placed) → t ≤ u
        → IsEarlier (chosen instance t journal) (chosen instance u journal) }
    ensures number { (instance : List InstanceRecord) (t : ℕ) (journal : List Placed) → (chosen instance t journal).number ≤ t }
{}
