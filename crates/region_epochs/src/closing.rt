//! The EPOCH of each region in its journal, and marks that begin anew.
ghost use Rattle.std.specs.Prelude.{◌≡◌, ◌<◌, ℕ, suc, Bool, false, [], List, length, replicate, slice_get, Some, IfSome, OnOk, IsErrOf};
ghost use Rattle.std.specs.List.{AllByRecursion};
ghost use Rattle.disk_defs.specs.Disk.{AtEachMoment, MayFailUncounted};
ghost use Rattle.disk_defs.specs.Frames.{OnlyIn, OthersStay};
ghost use Rattle.global_defs.specs.Entry.{Sequence};
ghost use Rattle.journal_defs.specs.Journal.{JournalRecord, Mark};
ghost use Rattle.journal_defs.specs.Sequence.{Records};
ghost use Rattle.journal_defs.specs.Epochs.{Chosen};
ghost use Rattle.journal_defs.specs.Undo.{fresh};
ghost use Rattle.region_store.specs.Region.{HoldsRegion, IsFlushed, with_marks};
ghost use Rattle.region_journals.specs.Fronts.{IsNewestFile, HasFirst};
ghost use Rattle.region_journals.specs.Journals.{AreReady, KeepsJournals};
ghost use Rattle.region_journals.specs.Logging.{MayBeAppended};
ghost use Rattle.region_store.specs.Joined.{region_at};
ghost use Rattle.region_epochs.specs.Flushed.{AreEpochs, AreRestored, one_each};
ghost use Rattle.region_epochs.specs.Kept.{IsTogether, IsKept, IsStillSound};
ghost use Rattle.region_epochs.specs.Taken.{HasSameNodes, IsTaken};

use crate::error::EpochError;
use crate::flushing::Flushed;
use before_image::Imaged;
use jnl_record::JnlRecord;
use region_journals::RegionJournals;
use region_store::Regions;
use repl_disk::Disk;

/// Appends to each region's journal the record of its number. Nothing waits in the journals before.
pub(crate) fn log_each<D: Disk>(
    disk: &mut D,
    journals: &mut RegionJournals,
    records: &[JnlRecord],
) -> Result<(), EpochError>
    requires ready { (g : ℕ) × AreReady (D.disk disk.old) g journals.old.journals.items }
    requires as_many { length records.now ≡ length journals.old.journals.items }
    requires may_be { AllByRecursion MayBeAppended records.now }
    ensures ready { OnOk result ((g : ℕ) → AreReady (D.disk disk.old) g journals.old.journals.items → AreReady (D.disk disk.new) g journals.new.journals.items) }
    ensures state { OnOk result ((hard : ℕ → List JournalRecord) → KeepsJournals (D.disk disk.old) hard (λ r. []) journals.old.journals.items → KeepsJournals (D.disk disk.new) hard (one_each records.now) journals.new.journals.items) }
    ensures count { length journals.new.journals.items ≡ length journals.old.journals.items }
    ensures any_moment { (g : ℕ) (hard : ℕ → List JournalRecord) → AreReady (D.disk disk.old) g journals.old.journals.items → KeepsJournals (D.disk disk.old) hard (λ r. []) journals.old.journals.items → AtEachMoment (D.disk disk.old) (D.disk disk.new) (OnlyIn (D.disk disk.old) (IsNewestFile g (length journals.old.journals.items)) (HasFirst g (length journals.old.journals.items) hard (λ r. []) (λ r. 0))) }
    ensures frame { (g : ℕ) → AreReady (D.disk disk.old) g journals.old.journals.items → OthersStay (IsNewestFile g (length journals.old.journals.items)) (D.disk disk.old) (D.disk disk.new) }
    ensures faults { MayFailUncounted (D.disk disk.old).faults (D.disk disk.new).faults (IsErrOf result EpochError.Failed) }
{
    for region in 0..records.len() {
        journals.append_records(disk, region, &records[region..region + 1])?;
    }
    Ok(())
}

/// Counts the images of each region anew: its EPOCH is in the journal for good, and no block has changed since.
pub(crate) fn begin_regions(regions: &mut Regions, mut images: Vec<Imaged>)
    requires as_many { length images.items ≡ length regions.old.regions }
    requires flushed { (r : ℕ) → r < length regions.old.regions → IsFlushed (region_at regions.old r) }
    requires none { (r : ℕ) (marks : List Bool) → slice_get images.items r ≡ Some marks → marks ≡ replicate (length (region_at regions.old r).pool.leaves) false }
    ensures begun { (r : ℕ) → r < length regions.old.regions → region_at regions.new r ≡ with_marks (region_at regions.old r) (replicate (length (region_at regions.old r).pool.leaves) false) }
    // each region's blocks are those of its EPOCH
    ensures holds { (r : ℕ) (e : Chosen) (bytes : List ℕ) (m : Mark) → r < length regions.old.regions → m.blocks ≡ length (region_at regions.old r).pool.leaves → HoldsRegion e bytes (region_at regions.old r) → HoldsRegion (fresh m) bytes (region_at regions.new r) }
    ensures same { HasSameNodes regions.old regions.new }
{
    while let Some(marks) = images.pop() {
        regions.begin_epoch(images.len(), marks);
    }
}

/// Puts the EPOCH of each region into its journal for good, and counts its images anew. Nothing waits in the journals before, and no block has
/// changed.
pub(crate) fn end_epoch<D: Disk>(
    disk: &mut D,
    journals: &mut RegionJournals,
    regions: &mut Regions,
    made: Flushed,
) -> Result<(), EpochError>
    requires together { (g : ℕ) × IsTogether (D.disk disk.old) g journals.old.journals.items regions.old }
    requires made { (closing : Bool) × (number : ℕ) × AreEpochs closing number regions.old made }
    requires flushed { (r : ℕ) → r < length regions.old.regions → IsFlushed (region_at regions.old r) }
    ensures together { OnOk result ((g : ℕ) → IsTogether (D.disk disk.old) g journals.old.journals.items regions.old → IsTogether (D.disk disk.new) g journals.new.journals.items regions.new) }
    ensures done { OnOk result ((closing : Bool) (s : Records) (seq : Sequence) (g : ℕ) (newer : ℕ → List JournalRecord) → IsKept (D.disk disk.old) s seq g newer journals.old.journals.items regions.old → AreEpochs closing (length seq) regions.old made → IfSome (D.disk disk.old).content (AreRestored regions.old) → IsTaken (D.disk disk.new) closing s seq g newer journals.new.journals.items regions.new) }
    ensures any_moment { (closing : Bool) (s : Records) (seq : Sequence) (g : ℕ) (newer : ℕ → List JournalRecord) → IsKept (D.disk disk.old) s seq g newer journals.old.journals.items regions.old → AreEpochs closing (length seq) regions.old made → IfSome (D.disk disk.old).content (AreRestored regions.old) → AtEachMoment (D.disk disk.old) (D.disk disk.new) (OnlyIn (D.disk disk.old) (IsNewestFile (suc g) (length journals.old.journals.items)) (IsStillSound s seq (suc g))) }
    ensures frame { (g : ℕ) → AreReady (D.disk disk.old) g journals.old.journals.items → OthersStay (IsNewestFile g (length journals.old.journals.items)) (D.disk disk.old) (D.disk disk.new) }
    ensures count { length journals.new.journals.items ≡ length journals.old.journals.items }
    ensures same { HasSameNodes regions.old regions.new }
    ensures faults { MayFailUncounted (D.disk disk.old).faults (D.disk disk.new).faults (IsErrOf result EpochError.Failed) }
{
    log_each(disk, journals, made.epochs.as_slice())?;
    journals.harden(disk)?;
    begin_regions(regions, made.images);
    Ok(())
}
