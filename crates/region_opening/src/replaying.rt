//! Updates of entries that are made in their regions.
ghost use Rattle.std.specs.Prelude.{◌≡◌, ◌≤◌, ◌<◌, ◌∷◌, [], ℕ, length, map, fold, slice_index, IfSome, OnOk, IsErrOf};
ghost use Rattle.std.specs.List.{AllByRecursion};
ghost use Rattle.global_defs.specs.declared.limits.TheConstants.{MOST_REGIONS};
ghost use Rattle.disk_defs.specs.Disk.{Reads, MayFail};
ghost use Rattle.global_defs.specs.Entry.{Sequence, apply};
ghost use Rattle.global_defs.specs.Fields.{IsUpdate, IsTransaction};
ghost use Rattle.journal_defs.specs.Fit.{key_of};
ghost use Rattle.gvn_key.specs.Terms.{update_value};
ghost use Rattle.block_laws.specs.Nodes.{updates_in};
ghost use Rattle.region_store.specs.Region.{IsChanged};
ghost use Rattle.entry_index.specs.Indexes.{Indexes};
ghost use Rattle.region_opening.specs.Replaying.{AreBecome, IsGivenEntry, IsGivenUpTo};
ghost use Rattle.entry_index.specs.Parts.{InFiles};

use super::entries::read_entry;
use entry_index::EntryIndex;
use global_dir::Directory;
use gvn_key::NoMemory;
use gvn_key::terms::Update;
use gvn_model::Reigns;
use gvt_leaf::sets_of;
use mupip_recover::starts_of;
use region_store::{Region, RegionError};
use repl_disk::Disk;
use std::alloc::Global;

/// The name of the global that an update changes.
fn name_of(update: &Update) -> &[u8]
    ensures { result.now ≡ (key_of (update_value update.now)).name }
{
    match update {
        Update::Set(key, _) => key.name(),
        Update::Kill(key) => key.name(),
        Update::ZKill(key) => key.name(),
    }
}

/// Makes an update, where its name is the region's.
fn replay_update(
    directory: &Directory,
    number: usize,
    region: &mut Region,
    update: &Update,
) -> Result<(), NoMemory>
    requires { IsUpdate (update_value update.now) }
    ensures made { OnOk result (region.new.globals ≡ fold apply region.old.globals (updates_in directory.now.patterns number (update_value update.now ∷ []))) }
    ensures changed { IsChanged region.old region.new }
{
    if directory.region_of(name_of(update)) as usize == number {
        region.reserve(sets_of(update))?;
        region.make_one(update);
    }
    Ok(())
}

/// Makes those of an entry's updates whose names are the region's, in their order.
fn replay_updates(
    directory: &Directory,
    number: usize,
    region: &mut Region,
    updates: &[Update],
) -> Result<(), NoMemory>
    requires { AllByRecursion IsUpdate (map update_value updates.now) }
    ensures made { OnOk result (region.new.globals ≡ fold apply region.old.globals (updates_in directory.now.patterns number (map update_value updates.now))) }
    ensures changed { IsChanged region.old region.new }
{
    for update in updates {
        replay_update(directory, number, region, update)?;
    }
    Ok(())
}

/// Makes an entry's updates in a region, those of its names, where it is opened from before the entry.
fn make_in(
    directory: &Directory,
    from: &[u64],
    number: u64,
    place: usize,
    region: &mut Region,
    updates: &[Update],
) -> Result<(), NoMemory>
    requires forms { AllByRecursion IsUpdate (map update_value updates.now) }
    requires place { place < length from.now }
    ensures { OnOk result (IsGivenEntry directory.now.patterns from.now number (map update_value updates.now) place region.old region.new) }
{
    if from[place] < number {
        return replay_updates(directory, place, region, updates);
    }
    Ok(())
}

/// Makes an entry's updates in each of the regions that are opened from before it, those of its names.
fn make_entry(
    directory: &Directory,
    from: &[u64],
    number: u64,
    regions: &mut Vec<Region>,
    updates: &[Update],
) -> Result<(), NoMemory>
    requires forms { AllByRecursion IsUpdate (map update_value updates.now) }
    requires count { length from.now ≡ length regions.old.items }
    ensures made { OnOk result (AreBecome (IsGivenEntry directory.now.patterns from.now number (map update_value updates.now)) (length regions.old.items) regions.old.items regions.new.items) }
{
    for place in 0..regions.len() {
        make_in(directory, from, number, place, &mut regions[place], updates)?;
    }
    Ok(())
}

/// The least of these numbers and the target.
fn least(from: &[u64], target: u64) -> u64
    ensures within { result ≤ target }
    ensures each { (r : ℕ) → r < length from.now → result ≤ slice_index from.now r }
{
    let mut least = target;
    for number in from {
        if *number < least {
            least = *number;
        }
    }
    least
}

/// Makes the updates of the entries up to the target in the regions, in each those of its names in entries behind the number from
/// which it is opened. Each entry is read once, from its places, and none that isn't behind one of these numbers.
///
/// # Errors
/// `NotAFile` only where the files don't have what the index says; `Failed` only where the disk's count of faults rose; `NoMemory`.
pub(crate) fn replay<D: Disk>(
    alloc: Global,
    disk: &mut D,
    directory: &Directory,
    entries: &EntryIndex,
    history: &Reigns,
    from: &[u64],
    regions: &mut Vec<Region>,
    target: u64,
) -> Result<(), RegionError>
    requires count { length from.now ≡ length regions.old.items }
    requires regions { entries.now.regions ≤ MOST_REGIONS }
    ensures made { OnOk result (AreBecome (IsGivenUpTo (D.disk disk.old).content history.now entries.now directory.now.patterns from.now target) (length regions.old.items) regions.old.items regions.new.items) }
    ensures outside { (f offset : ℕ) → IsErrOf result (RegionError.NotAFile f offset) → IfSome (D.disk disk.old).content (λ files. (seq : Sequence) → Indexes (InFiles files) history.now entries.now seq → AllByRecursion (λ e. IsTransaction e.transaction) seq → target ≤ length seq → ⊥) }
    ensures reads { Reads (D.disk disk.old) (D.disk disk.new) }
    ensures faults { MayFail (D.disk disk.old).faults (D.disk disk.new).faults (λ fault. IsErrOf result (RegionError.Failed fault)) }
{
    let starts = starts_of(alloc, history.as_slice())?;
    for done in least(from, target)..target {
        let number = done + 1;
        let entry = read_entry(alloc, disk, entries, history, &starts, number)?;
        make_entry(
            directory,
            from,
            number,
            regions,
            entry.transaction.updates.as_slice(),
        )?;
    }
    Ok(())
}
