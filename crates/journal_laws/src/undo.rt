//! What a call may do to blocks and images.

ghost use Rattle.std.specs.Prelude.{◌≡◌, ℕ, ◌+◌, ◌*◌, ◌≤◌, List, None};
ghost use Rattle.disk_defs.specs.Disk.{Torn};
ghost use Rattle.journal_defs.specs.Journal.{Before, Pblk};
ghost use Rattle.journal_defs.specs.Sequence.{Placed};
ghost use Rattle.journal_defs.specs.Epochs.{Chosen, image_in, image_state, block_of, Blocks};
ghost use Rattle.journal_defs.specs.Undo.{SameBut, MayWrite, MayLog, logged, IsEarlier};

/// The image state below an epoch stays through each write and each record that meets its condition,
/// and what meets it for one epoch meets it for each earlier one whose `blocks` is no greater.
pub fn undo_holds()
    ensures write_keeps_the_image_state { (e : Chosen) (old new : Blocks) (b : ℕ) → SameBut b old new → MayWrite e b
        → image_state e new ≡ image_state e old }
    ensures image_keeps_the_image_state { (e : Chosen) (database : Blocks) (g : ℕ) (i : Before) → MayLog e database i
        → image_state (logged e (record { generation = g; what = Pblk i })) database ≡ image_state e database }
    ensures other_record_keeps_the_image_state { (e : Chosen) (database : Blocks) (p : Placed) → ((b : ℕ) → image_in p.what b ≡ None)
        → image_state (logged e p) database ≡ image_state e database }
    ensures write_for_every_earlier_epoch { (d e : Chosen) (b : ℕ) → IsEarlier d e → d.blocks ≤ e.blocks → MayWrite e b → MayWrite d b }
    ensures image_for_every_earlier_epoch { (d e : Chosen) (database : Blocks) (i : Before) → IsEarlier d e → d.blocks ≤ e.blocks
        → MayLog e database i → MayLog d database i }
{}

/// A write within one block leaves every other block, however a crash cuts it short.
pub fn writes_one_block()
    ensures { (old new : List ℕ) (at n b : ℕ) → Torn at n old new → 4096 * b ≤ at → at + n ≤ 4096 * b + 4096
        → SameBut b (block_of old) (block_of new) }
{}
