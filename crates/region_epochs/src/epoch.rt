//! An epoch of all regions of a site.
ghost use Rattle.std.specs.Prelude.{◌≡◌, ◌⊎◌, ◌<◌, ◌++◌, ◌^◌, ℕ, suc, List, length, OnOk, OnErr, IsErrOf};
ghost use Rattle.global_defs.specs.declared.limits.TheConstants.{NUMBERS_END};
ghost use Rattle.disk_defs.specs.Disk.{AtEachMoment, MayFailUncounted};
ghost use Rattle.disk_defs.specs.Frames.{OnlyIn, OthersStay};
ghost use Rattle.global_defs.specs.Entry.{Sequence};
ghost use Rattle.journal_defs.specs.Journal.{JournalRecord};
ghost use Rattle.journal_defs.specs.Sequence.{Records};
ghost use Rattle.region_journals.specs.Journals.{AreReady};
ghost use Rattle.region_epochs.specs.Files.{IsEpochFile};
ghost use Rattle.region_epochs.specs.Kept.{IsTogether, IsKept, IsStillSound};
ghost use Rattle.region_epochs.specs.Taken.{IsTaken, HasSameNodes};

use crate::closing::end_epoch;
use crate::error::EpochError;
use crate::flushing::flush_regions;
use crate::imaging::log_images;
use region_journals::RegionJournals;
use region_store::Regions;
use repl_disk::Disk;
use std::alloc::Global;

/// Brings a site to an epoch of so many entries: it appends the images that the regions need to the newest journals and hardens them,
/// writes the changed blocks of each region, and appends and hardens an EPOCH of each. No record waits in the journals before.
///
/// # Errors
/// `Failed` only where the disk's count of faults rose, and `NoMemory`. The journals and regions are of no more use then, and the files
/// stand for the same entries.
pub fn take_epoch<D: Disk>(
    alloc: Global,
    disk: &mut D,
    journals: &mut RegionJournals,
    regions: &mut Regions,
    number: u64,
    closing: bool,
) -> Result<(), EpochError>
    requires together { (g : ℕ) × IsTogether (D.disk disk.old) g journals.old.journals.items regions.old }
    requires number { number < NUMBERS_END }
    ensures together { OnOk result ((g : ℕ) → IsTogether (D.disk disk.old) g journals.old.journals.items regions.old → IsTogether (D.disk disk.new) g journals.new.journals.items regions.new) }
    // where the disk tells its files, and they stand for so many entries
    ensures done { OnOk result ((s : Records) (seq : Sequence) (g : ℕ) (newer : ℕ → List JournalRecord) → IsKept (D.disk disk.old) s seq g newer journals.old.journals.items regions.old → length seq ≡ number → IsTaken (D.disk disk.new) closing s seq g newer journals.new.journals.items regions.new) }
    // and at each moment of the call, also of one that fails
    ensures any_moment { (s : Records) (seq : Sequence) (g : ℕ) (newer : ℕ → List JournalRecord) → IsKept (D.disk disk.old) s seq g newer journals.old.journals.items regions.old → length seq ≡ number → AtEachMoment (D.disk disk.old) (D.disk disk.new) (OnlyIn (D.disk disk.old) (IsEpochFile (suc g) (length journals.old.journals.items)) (IsStillSound s seq (suc g))) }
    ensures frame { (g : ℕ) → AreReady (D.disk disk.old) g journals.old.journals.items → OthersStay (IsEpochFile g (length journals.old.journals.items)) (D.disk disk.old) (D.disk disk.new) }
    ensures count { length journals.new.journals.items ≡ length journals.old.journals.items }
    ensures same { HasSameNodes regions.old regions.new }
    ensures faults { MayFailUncounted (D.disk disk.old).faults (D.disk disk.new).faults (IsErrOf result EpochError.Failed) }
    ensures causes { OnErr result (IsErrOf result EpochError.Failed ⊎ IsErrOf result EpochError.NoMemory) }
{
    log_images(alloc, disk, journals, regions)?;
    let made = flush_regions(alloc, disk, regions, number, closing)?;
    end_epoch(disk, journals, regions, made)
}
