//! The images that regions need, in their journals.
ghost use Rattle.std.specs.Prelude.{◌≡◌, ◌<◌, ◌++◌, ℕ, suc, [], List, length, IfSome, OnOk, IsErrOf};
ghost use Rattle.disk_defs.specs.Disk.{AtEachMoment, MayFailUncounted};
ghost use Rattle.disk_defs.specs.Frames.{OnlyIn, OthersStay};
ghost use Rattle.global_defs.specs.Entry.{Sequence};
ghost use Rattle.journal_defs.specs.Journal.{JournalRecord};
ghost use Rattle.journal_defs.specs.Sequence.{Records};
ghost use Rattle.journal_defs.specs.Epochs.{Chosen};
ghost use Rattle.block_laws.specs.Several.{logged_all};
ghost use Rattle.before_image.specs.Images.{placed_images};
ghost use Rattle.region_store.specs.Region.{HoldsRegion, IsHeld, AreLogged, with_marks, logged_marks, changed_images};
ghost use Rattle.region_journals.specs.Fronts.{IsNewestFile, HasFirst};
ghost use Rattle.region_journals.specs.Journals.{AreReady, KeepsJournals};
ghost use Rattle.region_journals.specs.Logging.{in_region};
ghost use Rattle.region_store.specs.Joined.{region_at};
ghost use Rattle.region_epochs.specs.Kept.{IsTogether, IsKept, IsStillSound, images_in};
ghost use Rattle.region_epochs.specs.Taken.{HasSameNodes, IsImaged};

use crate::error::EpochError;
use crate::images::Images;
use region_journals::RegionJournals;
use region_store::Regions;
use repl_disk::Disk;
use std::alloc::Global;

/// Appends the images that one region needs to its journal.
fn log_region<D: Disk>(
    alloc: Global,
    disk: &mut D,
    journals: &mut RegionJournals,
    regions: &Regions,
    number: usize,
) -> Result<(), EpochError>
    requires ready { (g : ℕ) × AreReady (D.disk disk.old) g journals.old.journals.items }
    requires in_journals { number < length journals.old.journals.items }
    requires in_regions { number < length regions.now.regions }
    requires held { IfSome (D.disk disk.old).content (IsHeld (region_at regions.now number)) }
    ensures ready { OnOk result ((g : ℕ) → AreReady (D.disk disk.old) g journals.old.journals.items → AreReady (D.disk disk.new) g journals.new.journals.items) }
    ensures state { OnOk result (IfSome (D.disk disk.old).content (λ files. (hard waiting : ℕ → List JournalRecord) → KeepsJournals (D.disk disk.old) hard waiting journals.old.journals.items → KeepsJournals (D.disk disk.new) hard (λ r. waiting r ++ in_region number (images_in regions.now files number) r) journals.new.journals.items)) }
    ensures waits { OnOk result ((hard waiting : ℕ → List JournalRecord) → KeepsJournals (D.disk disk.old) hard waiting journals.old.journals.items → (more : ℕ → List JournalRecord) × KeepsJournals (D.disk disk.new) hard more journals.new.journals.items) }
    ensures count { length journals.new.journals.items ≡ length journals.old.journals.items }
    ensures any_moment { (g : ℕ) (hard waiting : ℕ → List JournalRecord) → AreReady (D.disk disk.old) g journals.old.journals.items → KeepsJournals (D.disk disk.old) hard waiting journals.old.journals.items → AtEachMoment (D.disk disk.old) (D.disk disk.new) (OnlyIn (D.disk disk.old) (IsNewestFile g (length journals.old.journals.items)) (HasFirst g (length journals.old.journals.items) hard waiting (λ r. 0))) }
    ensures frame { (g : ℕ) → AreReady (D.disk disk.old) g journals.old.journals.items → OthersStay (IsNewestFile g (length journals.old.journals.items)) (D.disk disk.old) (D.disk disk.new) }
    ensures faults { MayFailUncounted (D.disk disk.old).faults (D.disk disk.new).faults (IsErrOf result EpochError.Failed) }
{
    let mut images = Images::new(alloc);
    regions.log_changed(number, disk, &mut images)?;
    journals.append_records(disk, number, images.records())?;
    Ok(())
}

/// Appends the images that each region needs to its journal. Nothing waits in the journals before.
pub(crate) fn log_regions<D: Disk>(
    alloc: Global,
    disk: &mut D,
    journals: &mut RegionJournals,
    regions: &Regions,
) -> Result<(), EpochError>
    requires together { (g : ℕ) × IsTogether (D.disk disk.old) g journals.old.journals.items regions.now }
    ensures ready { OnOk result ((g : ℕ) → AreReady (D.disk disk.old) g journals.old.journals.items → AreReady (D.disk disk.new) g journals.new.journals.items) }
    ensures state { OnOk result (IfSome (D.disk disk.old).content (λ files. (hard : ℕ → List JournalRecord) → KeepsJournals (D.disk disk.old) hard (λ r. []) journals.old.journals.items → KeepsJournals (D.disk disk.new) hard (images_in regions.now files) journals.new.journals.items)) }
    ensures count { length journals.new.journals.items ≡ length journals.old.journals.items }
    ensures any_moment { (g : ℕ) (hard : ℕ → List JournalRecord) → AreReady (D.disk disk.old) g journals.old.journals.items → KeepsJournals (D.disk disk.old) hard (λ r. []) journals.old.journals.items → AtEachMoment (D.disk disk.old) (D.disk disk.new) (OnlyIn (D.disk disk.old) (IsNewestFile g (length journals.old.journals.items)) (HasFirst g (length journals.old.journals.items) hard (λ r. []) (λ r. 0))) }
    ensures frame { (g : ℕ) → AreReady (D.disk disk.old) g journals.old.journals.items → OthersStay (IsNewestFile g (length journals.old.journals.items)) (D.disk disk.old) (D.disk disk.new) }
    ensures faults { MayFailUncounted (D.disk disk.old).faults (D.disk disk.new).faults (IsErrOf result EpochError.Failed) }
{
    for number in 0..regions.count() {
        log_region(alloc, disk, journals, regions, number)?;
    }
    Ok(())
}

/// Keeps in each region that its changed blocks have images, which the journals have.
pub(crate) fn mark_regions(regions: &mut Regions)
    ensures marks { (r : ℕ) → r < length regions.old.regions → region_at regions.new r ≡ with_marks (region_at regions.old r) (logged_marks (region_at regions.old r)) }
    ensures logged { (r : ℕ) → r < length regions.old.regions → AreLogged (region_at regions.new r) }
    // behind the images, in whichever generation, each region's blocks are those of the same epoch
    ensures holds { (r : ℕ) (e : Chosen) (bytes : List ℕ) (g : ℕ) → r < length regions.old.regions → HoldsRegion e bytes (region_at regions.old r) → HoldsRegion (logged_all e (placed_images g (changed_images (region_at regions.old r) bytes))) bytes (region_at regions.new r) }
    ensures same { HasSameNodes regions.old regions.new }
{
    for number in 0..regions.count() {
        regions.mark_logged(number);
    }
}

/// Puts the images that each region needs into its journal for good, and keeps that its changed blocks may be written. Nothing waits in the
/// journals before.
pub(crate) fn log_images<D: Disk>(
    alloc: Global,
    disk: &mut D,
    journals: &mut RegionJournals,
    regions: &mut Regions,
) -> Result<(), EpochError>
    requires together { (g : ℕ) × IsTogether (D.disk disk.old) g journals.old.journals.items regions.old }
    ensures together { OnOk result ((g : ℕ) → IsTogether (D.disk disk.old) g journals.old.journals.items regions.old → IsTogether (D.disk disk.new) g journals.new.journals.items regions.new) }
    ensures logged { OnOk result ((r : ℕ) → r < length regions.new.regions → AreLogged (region_at regions.new r)) }
    ensures done { OnOk result ((s : Records) (seq : Sequence) (g : ℕ) (newer : ℕ → List JournalRecord) → IsKept (D.disk disk.old) s seq g newer journals.old.journals.items regions.old → IsImaged (D.disk disk.new) s seq g newer journals.new.journals.items regions.new) }
    ensures any_moment { (s : Records) (seq : Sequence) (g : ℕ) (newer : ℕ → List JournalRecord) → IsKept (D.disk disk.old) s seq g newer journals.old.journals.items regions.old → AtEachMoment (D.disk disk.old) (D.disk disk.new) (OnlyIn (D.disk disk.old) (IsNewestFile (suc g) (length journals.old.journals.items)) (IsStillSound s seq (suc g))) }
    ensures frame { (g : ℕ) → AreReady (D.disk disk.old) g journals.old.journals.items → OthersStay (IsNewestFile g (length journals.old.journals.items)) (D.disk disk.old) (D.disk disk.new) }
    ensures count { length journals.new.journals.items ≡ length journals.old.journals.items }
    ensures same { HasSameNodes regions.old regions.new }
    ensures faults { MayFailUncounted (D.disk disk.old).faults (D.disk disk.new).faults (IsErrOf result EpochError.Failed) }
{
    log_regions(alloc, disk, journals, regions)?;
    journals.harden(disk)?;
    mark_regions(regions);
    Ok(())
}
