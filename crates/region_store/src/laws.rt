//! What blocks say of a region's globals, and what comes back of a file that was written in part.
ghost use Rattle.std.specs.Prelude.{◌≡◌, ℕ, List, Option, fold, drop, take};
ghost use Rattle.std.specs.List.{AllByRecursion};
ghost use Rattle.global_defs.specs.Entry.{Globals, Sequence, Update, apply};
ghost use Rattle.global_defs.specs.Fields.{IsTransaction};
ghost use Rattle.journal_defs.specs.Directory.{Pattern};
ghost use Rattle.journal_defs.specs.Sound.{Restores, region_state};
ghost use Rattle.block_laws.specs.Nodes.{HaveKeys, updates_of, updates_in};
ghost use Rattle.journal_defs.specs.Epochs.{Chosen, image_state, block_of};
ghost use Rattle.site_defs.specs.OutsideBlocks.{IsOutsideAt};
ghost use Rattle.block_laws.specs.Several.{MayAppendAll, logged_all};
ghost use Rattle.before_image.specs.Images.{Knows, placed_images};
ghost use Rattle.region_store.specs.Region.{Standing, IsReplayed, IsCutShort, images_below, changed_images, with_marks, logged_marks};

/// Blocks of which one is outside the format hold no globals, and sound ones hold the region's part of the state.
pub fn outside_holds()
    ensures none { (blocks : ℕ → Option (List ℕ)) (b : ℕ) (g : Globals) → IsOutsideAt blocks b → HaveKeys g → Restores blocks g → ⊥ }
    ensures one { (blocks : ℕ → Option (List ℕ)) (us : List Update) (g h : Globals) → IsReplayed blocks us g → HaveKeys h → Restores blocks h → g ≡ fold apply h us }
    // replayed from a sound epoch of n entries
    ensures state { (blocks : ℕ → Option (List ℕ)) (ps : List Pattern) (r n : ℕ) (seq : Sequence) (g : Globals) → AllByRecursion (λ e. IsTransaction e.transaction) seq
        → Restores blocks (region_state ps r (take n seq)) → IsReplayed blocks (updates_in ps r (updates_of (drop n seq))) g → g ≡ region_state ps r seq }
{}

/// What is logged of a region's blocks may be appended to its journal, and of a file that a flush wrote in part, or whole, the same state
/// below the epoch comes back.
pub fn flushing_holds()
    // all images of a call, or the first few
    ensures may_append { (s : Standing) (e : Chosen) (bytes : List ℕ) (g n : ℕ) → MayAppendAll e (block_of bytes) (placed_images g (images_below s bytes n)) }
    // by the epoch's journal as it stands when the flush begins
    ensures cut_short { (s : Standing) (e : Chosen) (old new : List ℕ) → Knows s.imaged e → IsCutShort s old new → image_state e (block_of new) ≡ image_state e (block_of old) }
    // by the images that were logged and marked for that flush, from what the file had before
    ensures comes_back { (s : Standing) (e : Chosen) (old new : List ℕ) (g : ℕ) → Knows s.imaged e → IsCutShort (with_marks s (logged_marks s)) old new
        → image_state (logged_all e (placed_images g (changed_images s old))) (block_of new) ≡ image_state e (block_of old) }
{}
