//! What keeps a region sound for every target at once.

ghost use Rattle.std.specs.Prelude.{◌≡◌, ◌⊎◌, ℕ, ◌+◌, ◌<◌, ◌≤◌, true, List, [], ◌∷◌, ◌++◌, length, take};
ghost use Rattle.std.specs.List.{AllByRecursion};
ghost use Rattle.global_defs.specs.Entry.{Entry, Globals, Sequence};
ghost use Rattle.journal_defs.specs.Journal.{Mark, Epoch};
ghost use Rattle.journal_defs.specs.Instance.{InstanceRecord, Cut};
ghost use Rattle.journal_defs.specs.Surviving.{survives, spares};
ghost use Rattle.journal_defs.specs.Sequence.{Placed};
ghost use Rattle.journal_defs.specs.Epochs.{chosen, image_state, NeedsForward, Blocks};
ghost use Rattle.journal_defs.specs.Undo.{SameBut, MayWrite, MayAppend, fresh};
ghost use Rattle.journal_defs.specs.Sound.{Restores, IsSoundRegion, BlocksGrow, NoEpochPast};

/// A call that meets the conditions of the epoch chosen for the whole length keeps the region sound for every target.
pub fn soundness_holds()
    ensures write { (of : Sequence → Globals) (instance : List InstanceRecord) (seq : Sequence) (journal : List Placed) (old new : Blocks) (b : ℕ)
        → IsSoundRegion of instance seq journal old → BlocksGrow instance (length seq) journal → SameBut b old new
        → NeedsForward instance (length seq) journal ⊎ MayWrite (chosen instance (length seq) journal) b
        → IsSoundRegion of instance seq journal new }
    ensures record_appended { (of : Sequence → Globals) (instance : List InstanceRecord) (seq : Sequence) (journal : List Placed) (database : Blocks) (p : Placed)
        → IsSoundRegion of instance seq journal database → BlocksGrow instance (length seq) journal
        → MayAppend (chosen instance (length seq) journal) database p.what
        → IsSoundRegion of instance seq (journal ++ p ∷ []) database }
    ensures epoch_appended { (of : Sequence → Globals) (instance : List InstanceRecord) (seq : Sequence) (journal : List Placed) (database : Blocks) (g : ℕ) (m : Mark)
        → IsSoundRegion of instance seq journal database → m.number ≡ length seq → survives instance g m.number ≡ true
        → Restores (image_state (fresh m) database) (of seq)
        → IsSoundRegion of instance seq (journal ++ record { generation = g; what = Epoch m } ∷ []) database }
    ensures cut { (of : Sequence → Globals) (instance : List InstanceRecord) (seq : Sequence) (journal : List Placed) (database : Blocks) (t g : ℕ)
        → IsSoundRegion of instance seq journal database → t ≤ length seq
        → IsSoundRegion of (instance ++ Cut t g ∷ []) (take t seq) journal database }
    ensures longer { (of : Sequence → Globals) (instance : List InstanceRecord) (seq : Sequence) (journal : List Placed) (database : Blocks) (e : Entry)
        → IsSoundRegion of instance seq journal database → NoEpochPast (length seq) instance journal
        → IsSoundRegion of instance (seq ++ e ∷ []) journal database }
    // a record of the instance file that leaves every number, as a REIGN
    ensures instance_record { (of : Sequence → Globals) (instance : List InstanceRecord) (x : InstanceRecord) (seq : Sequence) (journal : List Placed)
        (database : Blocks) → ((g m : ℕ) → spares g m x ≡ true) → IsSoundRegion of instance seq journal database
        → IsSoundRegion of (instance ++ x ∷ []) seq journal database }
{}

/// What those laws take stays too: over the targets that need no forward recovery a later chosen epoch has no lesser `blocks`, and
/// no epoch past the length is ever chosen.
pub fn further_facts_hold()
    ensures grow_record { (instance : List InstanceRecord) (n : ℕ) (journal : List Placed) (database : Blocks) (p : Placed) → BlocksGrow instance n journal
        → MayAppend (chosen instance n journal) database p.what → BlocksGrow instance n (journal ++ p ∷ []) }
    ensures grow_epoch { (instance : List InstanceRecord) (n g : ℕ) (journal : List Placed) (m : Mark) → BlocksGrow instance n journal
        → m.number ≡ n → survives instance g m.number ≡ true → NeedsForward instance n journal ⊎ ((chosen instance n journal).blocks ≤ m.blocks)
        → BlocksGrow instance n (journal ++ record { generation = g; what = Epoch m } ∷ []) }
    ensures grow_cut { (instance : List InstanceRecord) (n t g : ℕ) (journal : List Placed) → BlocksGrow instance n journal → t ≤ n
        → BlocksGrow (instance ++ Cut t g ∷ []) t journal }
    ensures grow_longer { (instance : List InstanceRecord) (n : ℕ) (journal : List Placed) → BlocksGrow instance n journal → NoEpochPast n instance journal
        → BlocksGrow instance (n + 1) journal }
    ensures grow_instance_record { (instance : List InstanceRecord) (x : InstanceRecord) (n : ℕ) (journal : List Placed)
        → ((g m : ℕ) → spares g m x ≡ true) → BlocksGrow instance n journal → BlocksGrow (instance ++ x ∷ []) n journal }
    ensures none_past_record { (instance : List InstanceRecord) (n : ℕ) (journal : List Placed) (database : Blocks) (p : Placed) → NoEpochPast n instance journal
        → MayAppend (chosen instance n journal) database p.what → NoEpochPast n instance (journal ++ p ∷ []) }
    ensures none_past_epoch { (instance : List InstanceRecord) (n g : ℕ) (journal : List Placed) (m : Mark) → m.number ≡ n → survives instance g m.number ≡ true
        → NoEpochPast n instance (journal ++ record { generation = g; what = Epoch m } ∷ []) }
    ensures none_past_cut { (instance : List InstanceRecord) (t g : ℕ) (journal : List Placed) → AllByRecursion (λ p. p.generation < g) journal
        → NoEpochPast t (instance ++ Cut t g ∷ []) journal }
    ensures none_past_longer { (instance : List InstanceRecord) (n : ℕ) (journal : List Placed) → NoEpochPast n instance journal
        → NoEpochPast (n + 1) instance journal }
    ensures none_past_instance_record { (instance : List InstanceRecord) (x : InstanceRecord) (n : ℕ) (journal : List Placed)
        → ((g m : ℕ) → spares g m x ≡ true) → NoEpochPast n instance journal → NoEpochPast n (instance ++ x ∷ []) journal }
{}
