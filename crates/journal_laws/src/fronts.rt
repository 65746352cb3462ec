//! What a crash in the middle of a call leaves of the sequence.

ghost use Rattle.std.specs.Prelude.{◌≡◌, ◌⊎◌, ℕ, ◌+◌, ◌≤◌, true, None, List, ◌++◌, length, take, Option};
ghost use Rattle.global_defs.specs.Entry.{Globals, Sequence};
ghost use Rattle.global_defs.specs.Rising.{SerialsRise};
ghost use Rattle.journal_defs.specs.Journal.{Part};
ghost use Rattle.journal_defs.specs.Instance.{InstanceRecord};
ghost use Rattle.journal_defs.specs.Surviving.{survives};
ghost use Rattle.journal_defs.specs.Sequence.{Placed, Records, parts, part_of, IsSequence};
ghost use Rattle.journal_defs.specs.Growth.{with_parts, with_more, appended, AreEntries, NonePast, AreNumbered, AreTidy, TidyPast, HasFewer, NumbersRise};
ghost use Rattle.journal_defs.specs.Epochs.{Blocks};
ghost use Rattle.journal_defs.specs.Sound.{IsSoundRegion};
ghost use Rattle.journal_defs.specs.Fit.{HasFewNodes};

/// Whatever parts of the entries that were appended are missing, the records stand for a front of the sequence that has all entries
/// from before: half an entry is none, and what follows it doesn't count either.
pub fn fronts_hold()
    // entries that are appended one after another are there with all their parts
    ensures all_entries { (s : Records) (seq : Sequence) (g : ℕ) (ps : List (ℕ → Option Part)) (es : Sequence) → IsSequence s seq
        → NonePast (length seq) s → AreEntries s.instance g (length seq) ps es → IsSequence (with_more s (appended g ps)) (seq ++ es) }
    // and of these parts a crash leaves the first few, in each region as many as it likes
    ensures some_entries { (s : Records) (seq : Sequence) (g : ℕ) (ps : List (ℕ → Option Part)) (es : Sequence) (kept : ℕ → ℕ) → IsSequence s seq
        → NonePast (length seq) s → AreEntries s.instance g (length seq) ps es
        → (j : ℕ) × (length seq ≤ j) × (j ≤ length (seq ++ es)) × IsSequence (with_more s (λ r. take (kept r) (appended g ps r))) (take j (seq ++ es)) }
    // the same of any records that were appended to the regions' journals
    ensures crash { (s : Records) (more : ℕ → List Placed) (kept : ℕ → ℕ) (seq : Sequence) (n : ℕ) → IsSequence (with_more s more) seq
        → TidyPast n (with_more s more) → NonePast n s → ((r : ℕ) → NumbersRise n (more r)) → n ≤ length seq
        → (j : ℕ) × (n ≤ j) × (j ≤ length seq) × IsSequence (with_more s (λ r. take (kept r) (more r))) (take j seq) }
    ensures front { (u v : Records) (seq : Sequence) (n : ℕ) → IsSequence v seq → TidyPast n v → u.instance ≡ v.instance → HasFewer u v
        → n ≤ length seq → ((k r : ℕ) → k ≤ n → parts u k r ≡ parts v k r)
        → (j : ℕ) × (n ≤ j) × (j ≤ length seq) × IsSequence u (take j seq) }
    ensures tidy_start { (s : Records) (n : ℕ) → NonePast n s → TidyPast n s }
    ensures tidy_parts { (s : Records) (h n g : ℕ) (part : ℕ → Option Part) → TidyPast h s → AreNumbered n part → survives s.instance g n ≡ true
        → ((r : ℕ) → parts s n r ≡ None) → AreTidy part → TidyPast h (with_parts s g part) }
    ensures fewer { (instance : List InstanceRecord) (journal ps : List Placed) (low k n : ℕ) → NumbersRise low ps → part_of instance n journal ≡ None
        → (part_of instance n (journal ++ take k ps) ≡ None) ⊎ (part_of instance n (journal ++ take k ps) ≡ part_of instance n (journal ++ ps)) }
    ensures earlier { (instance : List InstanceRecord) (journal ps : List Placed) (low k n : ℕ) → NumbersRise low ps → n ≤ low
        → part_of instance n (journal ++ take k ps) ≡ part_of instance n journal }
    ensures few_nodes { (seq : Sequence) (j : ℕ) → HasFewNodes seq → HasFewNodes (take j seq) }
    ensures serials { (seq : Sequence) (j : ℕ) → SerialsRise seq → SerialsRise (take j seq) }
    ensures sound_front { (of : Sequence → Globals) (instance : List InstanceRecord) (seq : Sequence) (journal : List Placed) (database : Blocks) (j : ℕ)
        → IsSoundRegion of instance seq journal database → j ≤ length seq → IsSoundRegion of instance (take j seq) journal database }
{}
