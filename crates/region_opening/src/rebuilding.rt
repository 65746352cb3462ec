//! Regions that are made anew from the entries alone.
ghost use Rattle.std.specs.Prelude.{◌≡◌, ◌<◌, ℕ, List, length, IfOk, IfSome, IsErrOf};
ghost use Rattle.std.specs.List.{AllByRecursion};
ghost use Rattle.std.specs.FinMap as globals;
ghost use Rattle.disk_defs.specs.Disk.{Reads, MayFail};
ghost use Rattle.global_defs.specs.Entry.{Sequence, state};
ghost use Rattle.journal_defs.specs.Numbers.{database_file};
ghost use Rattle.journal_defs.specs.Directory.{patterns};
ghost use Rattle.journal_defs.specs.Surviving.{reigns};
ghost use Rattle.journal_defs.specs.Sequence.{Records};
ghost use Rattle.entry_index.specs.declared.placed.PlacedSign.{PlacedSign};
ghost use Rattle.region_store.specs.Region.{IsHeld};
ghost use Rattle.region_store.specs.Joined.{joined, ArePartsOf, region_at};
ghost use Rattle.entry_index.specs.Found.{AreFound, entry_count};

use super::opening::open_each;
use entry_index::EntryIndex;
use global_dir::Directory;
use gvn_model::Reigns;
use instance_file::InstanceRecords;
use region_store::{RegionError, Regions};
use repl_disk::Disk;
use std::alloc::Global;

/// Makes the regions of a site anew, by the records of its instance file, the surviving reigns and the index of all entries: each
/// begins empty, and the updates of all entries in it are made. It reads no block and writes nothing, so blocks outside the format are
/// no matter.
///
/// # Errors
/// `NotAFile` only where the files don't have what the index says; `Failed` only where the disk's count of faults rose; `NoMemory`.
pub fn rebuild_regions<D: Disk>(
    alloc: Global,
    disk: &mut D,
    instance: &InstanceRecords,
    directory: Directory,
    entries: &EntryIndex,
    history: &Reigns,
) -> Result<Regions, RegionError>
    requires patterns { directory.patterns ≡ patterns instance.now }
    requires within { AllByRecursion (λ p. p.region < directory.regions) directory.patterns }
    requires regions { entries.now.regions ≡ directory.regions }
    requires history { history.now ≡ reigns instance.now }
    ensures patterns { IfOk result (λ made. made.patterns ≡ directory.patterns) }
    ensures count { IfOk result (λ made. length made.regions ≡ directory.regions) }
    ensures files { IfOk result (λ made. (r : ℕ) → r < length made.regions → (region_at made r).file ≡ database_file r) }
    ensures none { IfOk result (λ made. entry_count entries.now ≡ 0 → joined made ≡ globals.empty) }
    ensures some { IfOk result (λ made. (seq : Sequence) × (joined made ≡ state seq)) }
    // all nodes are the state of the entries, whatever the blocks are
    ensures state { IfOk result (λ made. IfSome (D.disk disk.old).content (λ files. (lowest : ℕ) (signs : List (List PlacedSign)) (u : Records) (seq : Sequence) → AreFound files instance.now lowest signs entries.now u seq → joined made ≡ state seq)) }
    // and each region has its part
    ensures parts { IfOk result (λ made. IfSome (D.disk disk.old).content (λ files. (lowest : ℕ) (signs : List (List PlacedSign)) (u : Records) (seq : Sequence) → AreFound files instance.now lowest signs entries.now u seq → ArePartsOf directory.patterns made.regions seq)) }
    ensures held { IfOk result (λ made. IfSome (D.disk disk.old).content (λ files. (r : ℕ) → r < length made.regions → IsHeld (region_at made r) files)) }
    ensures outside { (f offset : ℕ) → IsErrOf result (RegionError.NotAFile f offset) → IfSome (D.disk disk.old).content (λ files. (lowest : ℕ) (signs : List (List PlacedSign)) (u : Records) (seq : Sequence) → AreFound files instance.now lowest signs entries.now u seq → ⊥) }
    ensures reads { Reads (D.disk disk.old) (D.disk disk.new) }
    ensures faults { MayFail (D.disk disk.old).faults (D.disk disk.new).faults (λ fault. IsErrOf result (RegionError.Failed fault)) }
{
    let _ = directory.regions();
    // without a record of its journals a region goes back to no epoch
    let signs = Vec::new(alloc);
    let target = entries.len();
    let regions = open_each(
        alloc, disk, instance, &directory, &signs, entries, history, target,
    )?;
    Ok(Regions::new(directory, regions)?)
}
