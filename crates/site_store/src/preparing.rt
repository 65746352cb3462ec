//! A site as it stands on a disk, before anything is written.
ghost use Rattle.std.specs.Prelude.{◌≡◌, ◌⊎◌, ◌≤◌, ◌<◌, ◌++◌, ◌∷◌, [], ℕ, List, true, min, IfOk, IfSome, OnOk, OnErr, IsErrOf};
ghost use Rattle.site_defs.specs.Limits.{LAST_GENERATION};
ghost use Rattle.disk_defs.specs.Disk.{Image, Reads, AtEachMoment, MayFail};
ghost use Rattle.journal_defs.specs.Instance as defs;
ghost use Rattle.journal_defs.specs.Instance.{generation};
ghost use Rattle.journal_defs.specs.Numbers.{INSTANCE};
ghost use Rattle.journal_defs.specs.Sequence.{Placed};
ghost use Rattle.journal_defs.specs.Stands.{IsInstance};
ghost use Rattle.journal_defs.specs.Fit.{IsSoundImage};
ghost use Rattle.site_defs.specs.Contents.{Contents};
ghost use Rattle.site_defs.specs.Stands.{IsSite};
ghost use Rattle.site_defs.specs.Outside.{IsOutsideSite};
ghost use Rattle.site_defs.specs.OutsideBlocks.{IsOutsideOpening, HaveOutsideBlocks};
ghost use Rattle.site_files.specs.Loading.{next_cut};
ghost use Rattle.site_store.specs.Finding.{HasLayout, mapping_of};
ghost use Rattle.site_store.specs.Needing.{IsFirstWithout, NoneIsWithout, HaveFirstWithout};
ghost use Rattle.region_opening.specs.Signs.{AllSay};
ghost use Rattle.entry_index.specs.Found.{entry_count};
ghost use Rattle.site_store.specs.Standing.{HasFound, WasFound, IsFoundAs, IsOpenFor, IsOpenAs, IfFound, Stood, found_records, found_signs};

use crate::error::SiteError;
use crate::layout::{Layout, specs_of};
use crate::needing::first_needing;
use crate::syncing::{sync_databases, sync_texts};
use entry_index::EntryIndex;
use global_dir::Directory;
use gvn_key::{Bytes, NoMemory};
use instance_file::{InstanceLog, InstanceRecords};
use region_opening::{open_regions, rebuild_regions};
use region_store::Regions;
use repl_disk::Disk;
use site_files::{ReadEntries, ReadSite, Remembered, read_site, remember_all};
use std::alloc::Global;

/// A target that stands for all entries, however many these are.
const ALL_ENTRIES: u64 = u64::MAX;

/// What the files of a site hold: its records, and the entries for which they stand.
#[derive(Drop)]
pub struct FoundFiles {
    /// The records of its instance file, and what those of its journals say.
    pub read: ReadSite,
    /// Where the parts of its entries stand.
    pub entries: EntryIndex,
    /// The text of the broken transactions behind the entries.
    pub broken: Bytes,
}

/// A site as it stands on a disk, before anything is written.
#[derive(Drop)]
pub struct StandingSite {
    /// The records of its instance file.
    pub log: InstanceLog,
    /// What its instance file says once the next generation is drawn.
    pub layout: Layout,
    /// The last generation that began in each region, or 0.
    pub last_began: Vec<u32>,
    /// Where the parts of its entries stand.
    pub entries: EntryIndex,
    /// Its regions on their blocks.
    pub globals: Regions,
    /// The text of the broken transactions behind the entries.
    pub broken: Bytes,
}

/// The layout of a site with these records and this directory, once the next generation is drawn.
fn next_layout(
    alloc: Global,
    records: &InstanceRecords,
    directory: Directory,
) -> Result<Layout, NoMemory>
    requires directory { directory ≡ mapping_of records.now }
    requires room { generation records.now < LAST_GENERATION }
    ensures { IfOk result (λ made. (n : ℕ) → HasLayout (records.now ++ next_cut records.now n ∷ []) made) }
{
    Ok(Layout {
        name: Bytes::of(alloc, records.name())?,
        regions: specs_of(alloc, records.regions())?,
        directory,
        generation: records.generation() + 1,
    })
}

/// Syncs all files of a site, and reads its records and entries, for targets from `lowest` on, or for all entries where there are fewer. It
/// writes nothing.
///
/// # Errors
/// `GenLimit` exactly where 65,534 generations were drawn. `NotAFile` with the first file that is outside the formats and the place of
/// what can't stand there, or with file 0 and offset 0 where no site stands there. `Failed` only where the disk's count rose.
/// `NoMemory`.
pub fn find_files<D: Disk>(
    alloc: Global,
    disk: &mut D,
    lowest: u64,
) -> Result<FoundFiles, SiteError>
    ensures has { IfOk result HasFound }
    ensures lowest { IfOk result (λ found. found.read.lowest ≡ lowest) }
    ensures found { IfOk result (WasFound (D.disk disk.old) (D.disk disk.new)) }
    ensures limit { IsErrOf result SiteError.GenLimit → IfSome (D.disk disk.old).content (λ files. (rs : List defs.InstanceRecord) → IsInstance (files INSTANCE) rs → LAST_GENERATION ≤ generation rs) }
    ensures limit_told { IsErrOf result SiteError.GenLimit → IfSome (D.disk disk.old).content (λ files. (rs : List defs.InstanceRecord) × IsInstance (files INSTANCE) rs × (LAST_GENERATION ≤ generation rs)) }
    ensures place { (file offset : ℕ) → IsErrOf result (SiteError.NotAFile file offset) → IfSome (D.disk disk.old).content (λ files. IsOutsideSite files file offset) }
    ensures outside { (file offset : ℕ) → IsErrOf result (SiteError.NotAFile file offset) → IfSome (D.disk disk.old).content (λ files. (c : Contents) → IsSite files c → ⊥) }
    ensures content { (D.disk disk.new).content ≡ (D.disk disk.old).content }
    ensures any_moment { AtEachMoment (D.disk disk.old) (D.disk disk.new) (Image (D.disk disk.old)) }
    ensures simulated { (D.disk disk.new).simulated ≡ (D.disk disk.old).simulated }
    ensures faults { MayFail (D.disk disk.old).faults (D.disk disk.new).faults (λ fault. IsErrOf result (SiteError.Failed fault)) }
    ensures causes { OnErr result (IsErrOf result SiteError.GenLimit ⊎ ((fault : ℕ) × IsErrOf result (SiteError.Failed fault)) ⊎ ((file : ℕ) × (offset : ℕ) × IsErrOf result (SiteError.NotAFile file offset)) ⊎ IsErrOf result SiteError.NoMemory) }
{
    let found = read_site(alloc, disk, lowest)?;
    let ReadEntries { read, entries } = found;
    sync_texts(disk, read.log.records.generation())?;
    sync_databases(disk, u32::from(read.directory.regions()))?;
    let remembered = remember_all(alloc, disk, &read, entries)?;
    let Remembered { entries, broken } = remembered;
    Ok(FoundFiles {
        read,
        entries,
        broken,
    })
}

/// A site that was found, on these regions.
fn stand_on(alloc: Global, found: FoundFiles, globals: Regions) -> Result<StandingSite, NoMemory>
    requires has { HasFound found }
    ensures found_as { IfOk result (IsFoundAs found) }
    ensures globals { IfOk result (λ k. k.globals ≡ globals) }
{
    let FoundFiles {
        read,
        entries,
        broken,
    } = found;
    let ReadSite {
        log,
        directory,
        last_began,
        ..
    } = read;
    let layout = next_layout(alloc, &log.records, directory)?;
    Ok(StandingSite {
        log,
        layout,
        last_began,
        entries,
        globals,
        broken,
    })
}

/// Opens the regions of a site that was found for a target: each goes back to the epoch that it has chosen for so many entries, and
/// the updates of the entries behind it up to the target are made, all in memory. It writes nothing.
///
/// # Errors
/// `NotAFile` with the file and the place of a region's blocks that aren't those of its part of the state. `Failed` only where the
/// disk's count rose. `NoMemory`.
pub fn stand<D: Disk>(
    alloc: Global,
    disk: &mut D,
    found: FoundFiles,
    target: u64,
) -> Result<StandingSite, SiteError>
    requires target { target ≤ entry_count found.entries }
    requires lowest { min found.read.lowest (entry_count found.entries) ≤ target }
    requires has { HasFound found }
    ensures found_as { IfOk result (IsFoundAs found) }
    ensures opened { IfOk result (λ k. IsOpenFor (D.disk disk.old) (D.disk disk.new) found target k.globals) }
    ensures place { (file offset : ℕ) → IsErrOf result (SiteError.NotAFile file offset) → (aim : ℕ → ℕ) → aim (entry_count found.entries) ≡ target
        → IfSome (D.disk disk.old).content (IfFound found (λ _ _ files. HaveOutsideBlocks aim files file offset)) }
    ensures unsound { (file offset : ℕ) → IsErrOf result (SiteError.NotAFile file offset) → IfSome (D.disk disk.old).content (IfFound found (λ u seq files. IsSoundImage files u seq → ⊥)) }
    ensures reads { Reads (D.disk disk.old) (D.disk disk.new) }
    ensures faults { MayFail (D.disk disk.old).faults (D.disk disk.new).faults (λ fault. IsErrOf result (SiteError.Failed fault)) }
    ensures causes { OnErr result (((fault : ℕ) × IsErrOf result (SiteError.Failed fault)) ⊎ ((file : ℕ) × (offset : ℕ) × IsErrOf result (SiteError.NotAFile file offset)) ⊎ IsErrOf result SiteError.NoMemory) }
{
    let directory = found.read.directory.copy()?;
    let globals = open_regions(
        alloc,
        disk,
        &found.read.log.records,
        directory,
        &found.read.signs,
        &found.entries,
        &found.read.log.history,
        target,
    )?;
    Ok(stand_on(alloc, found, globals)?)
}

/// Makes the regions of a site that was found anew, with the updates of all entries. It reads no block and writes nothing.
fn stand_anew<D: Disk>(
    alloc: Global,
    disk: &mut D,
    found: FoundFiles,
) -> Result<StandingSite, SiteError>
    requires has { HasFound found }
    ensures found_as { IfOk result (IsFoundAs found) }
    ensures opened { IfOk result (λ k. IsOpenAs true (D.disk disk.old) (D.disk disk.new) found (entry_count found.entries) k.globals) }
    ensures outside { (file offset : ℕ) → IsErrOf result (SiteError.NotAFile file offset) → IfSome (D.disk disk.old).content (IfFound found (λ _ _ _. ⊥)) }
    ensures reads { Reads (D.disk disk.old) (D.disk disk.new) }
    ensures faults { MayFail (D.disk disk.old).faults (D.disk disk.new).faults (λ fault. IsErrOf result (SiteError.Failed fault)) }
    ensures causes { OnErr result (((fault : ℕ) × IsErrOf result (SiteError.Failed fault)) ⊎ ((file : ℕ) × (offset : ℕ) × IsErrOf result (SiteError.NotAFile file offset)) ⊎ IsErrOf result SiteError.NoMemory) }
{
    let directory = found.read.directory.copy()?;
    let globals = rebuild_regions(
        alloc,
        disk,
        &found.read.log.records,
        directory,
        &found.entries,
        &found.read.log.history,
    )?;
    Ok(stand_on(alloc, found, globals)?)
}

/// Sees that no region needs forward recovery for so many entries.
fn check_images(alloc: Global, found: &FoundFiles, target: u64) -> Result<(), SiteError>
    requires has { HasFound found.now }
    ensures none { OnOk result ((journal : ℕ → List Placed) → AllSay found.now.read.log.records target (found_signs found.now) journal → NoneIsWithout (found_records found.now journal) target) }
    ensures first { (region : ℕ) → IsErrOf result (SiteError.NeedForward region) → (journal : ℕ → List Placed) → AllSay found.now.read.log.records target (found_signs found.now) journal → (generation : ℕ) × IsFirstWithout (found_records found.now journal) target region generation }
    ensures causes { OnErr result (((region : ℕ) × IsErrOf result (SiteError.NeedForward region)) ⊎ IsErrOf result SiteError.NoMemory) }
{
    match first_needing(alloc, found, target)? {
        Some(needing) => Err(SiteError::NeedForward {
            region: needing.region,
        }),
        None => Ok(()),
    }
}

/// Syncs and reads a site's files, and opens its regions for all entries, or makes them anew. It writes nothing.
///
/// # Errors
/// As [`crate::load`]'s, or where the regions are made anew as [`crate::load_anew`]'s.
pub(crate) fn read_standing<D: Disk>(
    alloc: Global,
    disk: &mut D,
    anew: bool,
) -> Result<StandingSite, SiteError>
    ensures stood { IfOk result (Stood anew (D.disk disk.old) (D.disk disk.new)) }
    ensures limit { IsErrOf result SiteError.GenLimit → IfSome (D.disk disk.old).content (λ files. (rs : List defs.InstanceRecord) → IsInstance (files INSTANCE) rs → LAST_GENERATION ≤ generation rs) }
    ensures limit_told { IsErrOf result SiteError.GenLimit → IfSome (D.disk disk.old).content (λ files. (rs : List defs.InstanceRecord) × IsInstance (files INSTANCE) rs × (LAST_GENERATION ≤ generation rs)) }
    ensures place { (file offset : ℕ) → IsErrOf result (SiteError.NotAFile file offset) → IfSome (D.disk disk.old).content (λ files. IsOutsideOpening files file offset) }
    ensures place_anew { anew ≡ true → (file offset : ℕ) → IsErrOf result (SiteError.NotAFile file offset) → IfSome (D.disk disk.old).content (λ files. IsOutsideSite files file offset) }
    ensures outside { (file offset : ℕ) → IsErrOf result (SiteError.NotAFile file offset) → IfSome (D.disk disk.old).content (λ files. (c : Contents) → IsSite files c → ⊥) }
    ensures needs { (region : ℕ) → IsErrOf result (SiteError.NeedForward region) → IfSome (D.disk disk.old).content (λ files. HaveFirstWithout files region) }
    ensures needs_none { anew ≡ true → (region : ℕ) → IsErrOf result (SiteError.NeedForward region) → ⊥ }
    ensures content { (D.disk disk.new).content ≡ (D.disk disk.old).content }
    ensures any_moment { AtEachMoment (D.disk disk.old) (D.disk disk.new) (Image (D.disk disk.old)) }
    ensures simulated { (D.disk disk.new).simulated ≡ (D.disk disk.old).simulated }
    ensures faults { MayFail (D.disk disk.old).faults (D.disk disk.new).faults (λ fault. IsErrOf result (SiteError.Failed fault)) }
    ensures causes { OnErr result (IsErrOf result SiteError.GenLimit ⊎ ((region : ℕ) × IsErrOf result (SiteError.NeedForward region)) ⊎ ((fault : ℕ) × IsErrOf result (SiteError.Failed fault)) ⊎ ((file : ℕ) × (offset : ℕ) × IsErrOf result (SiteError.NotAFile file offset)) ⊎ IsErrOf result SiteError.NoMemory) }
{
    let found = find_files(alloc, disk, ALL_ENTRIES)?;
    if anew {
        return stand_anew(alloc, disk, found);
    }
    let target = found.entries.len();
    check_images(alloc, &found, target)?;
    stand(alloc, disk, found, target)
}
