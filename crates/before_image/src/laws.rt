//! What undoing, knowing and logging images keep.
ghost use Rattle.std.specs.Prelude.{◌≡◌, ◌≤◌, ◌⊎◌, ℕ, List, Bool, [], true, false, map, is_some, replicate, None};
ghost use Rattle.std.specs.List.{AllByRecursion};
ghost use Rattle.journal_defs.specs.Journal.{Mark, Before, Pblk};
ghost use Rattle.journal_defs.specs.Sequence.{Placed};
ghost use Rattle.journal_defs.specs.Epochs.{Blocks, Chosen, image_in, image_state};
ghost use Rattle.journal_defs.specs.Undo.{SameBut, MayWrite, MayLog, logged, fresh, IsEarlier};
ghost use Rattle.block_laws.specs.Several.{MayChange, logged_all};
ghost use Rattle.before_image.specs.Images.{is_free, with_image, first_image, placed_images, Knows};
ghost use Rattle.before_image.specs.Undoing.{Oldest, with_oldest, Undoes};

/// The image state below an epoch stays through each write and each record that meets its condition,
/// and what meets it for one epoch meets it for each earlier one whose `blocks` is no greater.
pub fn undo_holds()
    ensures write_keeps_the_image_state { (e : Chosen) (old new : Blocks) (b : ℕ) → SameBut b old new → MayWrite e b
        → image_state e new ≡ image_state e old }
    ensures image_keeps_the_image_state { (e : Chosen) (database : Blocks) (g : ℕ) (i : Before) → MayLog e database i
        → image_state (logged e (record { generation = g; what = Pblk i })) database ≡ image_state e database }
    ensures other_record_keeps_the_image_state { (e : Chosen) (database : Blocks) (p : Placed) → ((b : ℕ) → image_in p.what b ≡ None)
        → image_state (logged e p) database ≡ image_state e database }
    ensures write_for_every_earlier_epoch { (d e : Chosen) (b : ℕ) → IsEarlier d e → d.blocks ≤ e.blocks → MayWrite e b → MayWrite d b }
    ensures image_for_every_earlier_epoch { (d e : Chosen) (database : Blocks) (i : Before) → IsEarlier d e → d.blocks ≤ e.blocks
        → MayLog e database i → MayLog d database i }
{
    journal_laws::undo::undo_holds();
}

/// Marks stay those of an epoch through what is logged, what is logged may be, and what is marked may be written.
pub fn knowing_holds()
    ensures begins { (m : Mark) → Knows (replicate m.blocks false) (fresh m) }
    ensures may_write { (marks : List Bool) (e : Chosen) (b : ℕ) → Knows marks e → is_free marks b ≡ true → MayWrite e b }
    ensures may_change { (marks : List Bool) (e : Chosen) (old new : Blocks) → Knows marks e → ((b : ℕ) → (is_free marks b ≡ true) ⊎ (new b ≡ old b))
        → MayChange e old new }
    ensures may_log { (marks : List Bool) (e : Chosen) (database : Blocks) (b : ℕ) → AllByRecursion (MayLog e database) (first_image marks b (database b)) }
    ensures image { (marks : List Bool) (e : Chosen) (g : ℕ) (i : Before) → Knows marks e
        → Knows (with_image marks i.block) (logged e (record { generation = g; what = Pblk i })) }
    ensures first { (marks : List Bool) (e : Chosen) (g b : ℕ) (bytes : List ℕ) → Knows marks e
        → Knows (with_image marks b) (logged_all e (placed_images g (first_image marks b bytes))) }
    // a record more that is no image
    ensures other { (marks : List Bool) (e : Chosen) (p : Placed) → Knows marks e → ((b : ℕ) → image_in p.what b ≡ None) → Knows marks (logged e p) }
{}

/// The oldest images are those of an epoch, through each record in journal order.
pub fn undoing_holds()
    ensures begins { (number blocks : ℕ) → Undoes (replicate blocks None) (record { number = number; blocks = blocks; after = [] }) }
    ensures image { (us : Oldest) (e : Chosen) (g : ℕ) (i : Before) → Undoes us e
        → Undoes (with_oldest us i.block i.bytes) (logged e (record { generation = g; what = Pblk i })) }
    ensures other { (us : Oldest) (e : Chosen) (p : Placed) → Undoes us e → ((b : ℕ) → image_in p.what b ≡ None) → Undoes us (logged e p) }
    ensures marks { (us : Oldest) (e : Chosen) → Undoes us e → Knows (map is_some us) e }
{}
