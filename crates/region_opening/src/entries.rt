//! Entries, read by an index one at a time.
ghost use Rattle.std.specs.Prelude.{◌≡◌, ◌↔◌, ◌≤◌, ◌-◌, ℕ, length, slice_get, Some, IfOk, IfSome, IsErrOf, IsTrue};
ghost use Rattle.std.specs.List.{AllByRecursion};
ghost use Rattle.std.specs.Option.{option_map};
ghost use Rattle.global_defs.specs.declared.limits.TheConstants.{MOST_REGIONS};
ghost use Rattle.disk_defs.specs.Disk.{Reads, MayFail};
ghost use Rattle.global_defs.specs.Entry.{Sequence};
ghost use Rattle.global_defs.specs.Fields.{IsUpdate, IsTransaction};
ghost use Rattle.gvn_key.specs.Terms.{update_value};
ghost use Rattle.gvn_model.specs.Entries.{entry_value};
ghost use Rattle.mupip_recover.specs.Stamps.{AreStarts};
ghost use Rattle.entry_index.specs.Indexes.{Indexes};
ghost use Rattle.entry_index.specs.Parts.{InFiles};

use entry_index::{EntryIndex, IndexError};
use global_defs::limits::LONGEST_VALUE;
use gvn_key::terms::Update;
use gvn_model::{Entry, Reigns, Updates};
use region_store::RegionError;
use repl_disk::Disk;
use std::alloc::Global;

/// Whether an update has its form. Each key that there is has a code, which isn't empty.
fn is_formed(update: &Update) -> bool
    ensures { IsTrue result ↔ IsUpdate (update_value update.now) }
{
    match update {
        Update::Set(key, value) => !key.as_encoded().is_empty() && value.len() <= LONGEST_VALUE,
        Update::Kill(key) => !key.as_encoded().is_empty(),
        Update::ZKill(key) => !key.as_encoded().is_empty(),
    }
}

/// Whether each of these updates has its form.
fn are_formed(updates: &Updates) -> bool
    ensures { IsTrue result ↔ AllByRecursion IsUpdate updates.now }
{
    for update in updates.as_slice() {
        if !is_formed(update) {
            return false;
        }
    }
    true
}

/// The entry of a number, from 1 on, if the index has it.
fn read_found<D: Disk>(
    alloc: Global,
    disk: &mut D,
    entries: &EntryIndex,
    history: &Reigns,
    starts: &[u64],
    number: u64,
) -> Result<Option<Entry>, RegionError>
    requires starts { AreStarts history.now starts.now }
    requires first { 1 ≤ number }
    requires regions { entries.now.regions ≤ MOST_REGIONS }
    ensures entry { IfOk result (λ found. IfSome (D.disk disk.old).content (λ files. (seq : Sequence) → Indexes (InFiles files) history.now entries.now seq → option_map entry_value found ≡ slice_get seq (number - 1))) }
    ensures outside { (f at : ℕ) → IsErrOf result (RegionError.NotAFile f at) → IfSome (D.disk disk.old).content (λ files. (seq : Sequence) → Indexes (InFiles files) history.now entries.now seq → ⊥) }
    ensures reads { Reads (D.disk disk.old) (D.disk disk.new) }
    ensures faults { MayFail (D.disk disk.old).faults (D.disk disk.new).faults (λ fault. IsErrOf result (RegionError.Failed fault)) }
{
    match entries.read(alloc, disk, history, starts, number) {
        Ok(found) => Ok(found),
        Err(IndexError::Failed) => Err(RegionError::Failed {
            fault: disk.faults(),
        }),
        Err(IndexError::NotAFile { file, offset }) => Err(RegionError::NotAFile { file, offset }),
        Err(IndexError::NoMemory) => Err(RegionError::NoMemory),
    }
}

/// The entry of a number, from 1 on, whose updates have their form.
///
/// # Errors
/// `NotAFile` only where the files don't have what the index says; `Failed` only where the disk's count of faults rose; `NoMemory`.
pub(crate) fn read_entry<D: Disk>(
    alloc: Global,
    disk: &mut D,
    entries: &EntryIndex,
    history: &Reigns,
    starts: &[u64],
    number: u64,
) -> Result<Entry, RegionError>
    requires starts { AreStarts history.now starts.now }
    requires first { 1 ≤ number }
    requires regions { entries.now.regions ≤ MOST_REGIONS }
    ensures forms { IfOk result (λ found. AllByRecursion IsUpdate found.transaction.updates) }
    ensures entry { IfOk result (λ found. IfSome (D.disk disk.old).content (λ files. (seq : Sequence) → Indexes (InFiles files) history.now entries.now seq → slice_get seq (number - 1) ≡ Some (entry_value found))) }
    ensures outside { (f at : ℕ) → IsErrOf result (RegionError.NotAFile f at) → IfSome (D.disk disk.old).content (λ files. (seq : Sequence) → Indexes (InFiles files) history.now entries.now seq → AllByRecursion (λ e. IsTransaction e.transaction) seq → number ≤ length seq → ⊥) }
    ensures reads { Reads (D.disk disk.old) (D.disk disk.new) }
    ensures faults { MayFail (D.disk disk.old).faults (D.disk disk.new).faults (λ fault. IsErrOf result (RegionError.Failed fault)) }
{
    match read_found(alloc, disk, entries, history, starts, number)? {
        Some(entry) => {
            if are_formed(&entry.transaction.updates) {
                Ok(entry)
            } else {
                Err(RegionError::NotAFile {
                    file: u32::MAX,
                    offset: 0,
                })
            }
        }
        None => Err(RegionError::NotAFile {
            file: u32::MAX,
            offset: 0,
        }),
    }
}
