//! The image of one block, in its region's journal.
ghost use Rattle.std.specs.Prelude.{◌≡◌, ◌⊎◌, ◌<◌, ◌++◌, ℕ, List, length, IfSome, OnOk, OnErr, IsErrOf};
ghost use Rattle.disk_defs.specs.Disk.{AtEachMoment, MayFailUncounted};
ghost use Rattle.disk_defs.specs.Frames.{OnlyIn, OthersStay};
ghost use Rattle.journal_defs.specs.Journal.{JournalRecord};
ghost use Rattle.journal_defs.specs.Epochs.{Chosen};
ghost use Rattle.block_laws.specs.Several.{logged_all};
ghost use Rattle.before_image.specs.Images.{with_image, placed_images};
ghost use Rattle.region_store.specs.Region.{HoldsRegion, with_marks};
ghost use Rattle.region_journals.specs.Fronts.{IsNewestFile, HasFirst};
ghost use Rattle.region_journals.specs.Journals.{AreReady, KeepsJournals};
ghost use Rattle.region_journals.specs.Logging.{in_region};
ghost use Rattle.region_store.specs.Joined.{IsSameElsewhere, region_at};
ghost use Rattle.region_epochs.specs.Kept.{IsTogether, image_records, image_needed};

use crate::error::EpochError;
use crate::images::Images;
use region_journals::RegionJournals;
use region_store::Regions;
use repl_disk::Disk;
use std::alloc::Global;

/// Appends the image of one block of a region to its journal, behind what waits there, and keeps that it has one: its bytes as they stand
/// on the file. It appends nothing where the block may be written already.
///
/// # Errors
/// `Failed` only where the disk's count of faults rose: the journals are of no more use then. `NoMemory`: nothing more waits then, and
/// the journals and regions can go on.
pub fn log_first_image<D: Disk>(
    alloc: Global,
    disk: &mut D,
    journals: &mut RegionJournals,
    regions: &mut Regions,
    number: usize,
    block: u32,
) -> Result<(), EpochError>
    requires together { (g : ℕ) × IsTogether (D.disk disk.old) g journals.old.journals.items regions.old }
    requires inside { number < length regions.old.regions }
    ensures ready { OnOk result ((g : ℕ) → AreReady (D.disk disk.old) g journals.old.journals.items → AreReady (D.disk disk.new) g journals.new.journals.items) }
    ensures goes_on { IsErrOf result EpochError.NoMemory → (g : ℕ) → AreReady (D.disk disk.old) g journals.old.journals.items → AreReady (D.disk disk.new) g journals.new.journals.items }
    ensures state { OnOk result (IfSome (D.disk disk.old).content (λ files. (hard waiting : ℕ → List JournalRecord) → KeepsJournals (D.disk disk.old) hard waiting journals.old.journals.items → KeepsJournals (D.disk disk.new) hard (λ r. waiting r ++ in_region number (image_records (image_needed regions.old files number block)) r) journals.new.journals.items)) }
    ensures none { IsErrOf result EpochError.NoMemory → (hard waiting : ℕ → List JournalRecord) → KeepsJournals (D.disk disk.old) hard waiting journals.old.journals.items → KeepsJournals (D.disk disk.new) hard waiting journals.new.journals.items }
    ensures marks { OnOk result (region_at regions.new number ≡ with_marks (region_at regions.old number) (with_image (region_at regions.old number).imaged block)) }
    // behind the image, in whichever generation, the region's blocks are those of the same epoch
    ensures holds { OnOk result (IfSome (D.disk disk.old).content (λ files. (e : Chosen) (g : ℕ) → HoldsRegion e (files (region_at regions.old number).file) (region_at regions.old number) → HoldsRegion (logged_all e (placed_images g (image_needed regions.old files number block))) (files (region_at regions.old number).file) (region_at regions.new number))) }
    ensures elsewhere { OnOk result (IsSameElsewhere number regions.old regions.new) }
    ensures kept { OnErr result (regions.new ≡ regions.old) }
    ensures count { length journals.new.journals.items ≡ length journals.old.journals.items }
    ensures any_moment { (g : ℕ) (hard waiting : ℕ → List JournalRecord) → AreReady (D.disk disk.old) g journals.old.journals.items → KeepsJournals (D.disk disk.old) hard waiting journals.old.journals.items → AtEachMoment (D.disk disk.old) (D.disk disk.new) (OnlyIn (D.disk disk.old) (IsNewestFile g (length journals.old.journals.items)) (HasFirst g (length journals.old.journals.items) hard waiting (λ r. 0))) }
    ensures frame { (g : ℕ) → AreReady (D.disk disk.old) g journals.old.journals.items → OthersStay (IsNewestFile g (length journals.old.journals.items)) (D.disk disk.old) (D.disk disk.new) }
    ensures faults { MayFailUncounted (D.disk disk.old).faults (D.disk disk.new).faults (IsErrOf result EpochError.Failed) }
    ensures causes { OnErr result (IsErrOf result EpochError.Failed ⊎ IsErrOf result EpochError.NoMemory) }
{
    let mut images = Images::new(alloc);
    regions.log_image(number, disk, block, &mut images)?;
    journals.append_records(disk, number, images.records())?;
    regions.mark_image(number, block);
    Ok(())
}
