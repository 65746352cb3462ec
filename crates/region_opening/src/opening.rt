//! Regions that are opened.
ghost use Rattle.std.specs.Prelude.{◌≡◌, ◌⊎◌, ◌*◌, ◌<◌, ◌≤◌, ◌∷◌, ◌++◌, ℕ, List, [], length, map, take, true, slice_get, slice_index, Some, IfOk, IfSome, OnOk, IsErrOf};
ghost use Rattle.std.specs.List.{AllByRecursion};
ghost use Rattle.std.specs.FinMap as globals;
ghost use Rattle.global_defs.specs.declared.limits.TheConstants.{MOST_REGIONS};
ghost use Rattle.disk_defs.specs.Disk.{Reads, MayFail};
ghost use Rattle.global_defs.specs.Entry.{Sequence, state};
ghost use Rattle.journal_defs.specs.Numbers.{database_file};
ghost use Rattle.journal_defs.specs.Instance.{regions};
ghost use Rattle.journal_defs.specs.Directory.{patterns};
ghost use Rattle.journal_defs.specs.Surviving.{reigns};
ghost use Rattle.journal_defs.specs.Sequence.{Placed, Records};
ghost use Rattle.journal_defs.specs.Epochs.{image_state, block_of, NeedsForward};
ghost use Rattle.journal_defs.specs.Sound.{region_state};
ghost use Rattle.journal_defs.specs.Fit.{IsSoundImage};
ghost use Rattle.region_store.specs.Region.{Standing, HoldsRegion, IsHeld, IsReplayed};
ghost use Rattle.site_defs.specs.OutsideBlocks.{IsOutsideAt, AreOutside, HaveOutsideBlocks, gone_back};
ghost use Rattle.region_store.specs.Joined.{joined, ArePartsOf, region_at};
ghost use Rattle.entry_index.specs.Signs.{signs_of};
ghost use Rattle.entry_index.specs.Indexes.{AreSigns, Indexes};
ghost use Rattle.entry_index.specs.Found.{AreFound, entry_count};
ghost use Rattle.region_opening.specs.Epochs.{chosen_at};
ghost use Rattle.region_opening.specs.Signs.{AreTold};
ghost use Rattle.region_opening.specs.Opening.{are_home, IsOwn, IsBegun, IsGoneBack, IsOpened, IsRefused, AreRefused, AreGiven};
ghost use Rattle.entry_index.specs.Parts.{InFiles};

use super::checking::may_be_its_own;
use super::epoch::EpochAt;
use super::images::read_images;
use super::replaying::replay;
use super::starting::{signs_at, start_of};
use entry_index::{EntryIndex, PlacedSign};
use global_dir::Directory;
use gvn_key::NoMemory;
use gvn_model::Reigns;
use instance_file::InstanceRecords;
use journal_defs::files::DATABASE_FILES;
use region_store::{Region, RegionError, Regions};
use repl_disk::Disk;
use std::alloc::Global;

/// A region as it stood at some of the entries.
#[derive(Debug, Drop)]
pub(crate) struct Begun {
    pub(crate) region: Region,
    /// How many entries there were then.
    pub(crate) from: u64,
}

/// Regions as they stood, each at some of the entries, by their numbers.
#[derive(Debug, Drop)]
pub(crate) struct AllBegun {
    pub(crate) regions: Vec<Region>,
    /// How many entries there were then, for each region.
    pub(crate) from: Vec<u64>,
}

/// Opens a region as it stood at a place of its journals. Of the records behind it only images are read.
fn open_at<D: Disk>(
    alloc: Global,
    disk: &mut D,
    number: u8,
    start: EpochAt,
    signs: &[PlacedSign],
) -> Result<Region, RegionError>
    requires number { number < MOST_REGIONS }
    requires inside { start.after ≤ length signs.now }
    ensures file { IfOk result (λ made. made.file ≡ database_file number) }
    ensures held { IfOk result (λ made. IfSome (D.disk disk.old).content (IsHeld made)) }
    ensures holds { IfOk result (λ made. IfSome (D.disk disk.old).content (λ files. (journal : List Placed) → AreTold files number signs.now journal → HoldsRegion (chosen_at start journal) (files (database_file number)) made)) }
    ensures globals { IfOk result (λ made. IfSome (D.disk disk.old).content (λ files. (journal : List Placed) → AreTold files number signs.now journal → IsReplayed (image_state (chosen_at start journal) (block_of (files (database_file number)))) [] made.globals)) }
    ensures outside { (f offset : ℕ) → IsErrOf result (RegionError.NotAFile f offset) → IfSome (D.disk disk.old).content (λ files. (journal : List Placed) → AreTold files number signs.now journal
        → (f ≡ database_file number) × (b : ℕ) × (offset ≡ 4096 * b) × IsOutsideAt (image_state (chosen_at start journal) (block_of (files (database_file number)))) b) }
    ensures reads { Reads (D.disk disk.old) (D.disk disk.new) }
    ensures faults { MayFail (D.disk disk.old).faults (D.disk disk.new).faults (λ fault. IsErrOf result (RegionError.Failed fault)) }
{
    let images = read_images(alloc, disk, number, &signs[start.after..])?;
    let file = DATABASE_FILES + number as u32;
    Region::open(alloc, disk, file, start.blocks, &images, &[])
}

/// Opens a region as it stood at a place of its journals, where its nodes there may be its own.
///
/// # Errors
/// `NotAFile` also with the place 0 where they can't be.
fn open_own<D: Disk>(
    alloc: Global,
    disk: &mut D,
    directory: &Directory,
    number: u8,
    start: EpochAt,
    signs: &[PlacedSign],
) -> Result<Region, RegionError>
    requires number { number < directory.now.regions }
    requires inside { start.after ≤ length signs.now }
    ensures file { IfOk result (λ made. made.file ≡ database_file number) }
    ensures home { IfOk result (λ made. are_home directory.now.patterns number made.globals ≡ true) }
    ensures none { IfOk result (λ made. start.number ≡ 0 → made.globals ≡ globals.empty) }
    ensures held { IfOk result (λ made. IfSome (D.disk disk.old).content (IsHeld made)) }
    ensures holds { IfOk result (λ made. IfSome (D.disk disk.old).content (λ files. (journal : List Placed) → AreTold files number signs.now journal → HoldsRegion (chosen_at start journal) (files (database_file number)) made)) }
    ensures globals { IfOk result (λ made. IfSome (D.disk disk.old).content (λ files. (journal : List Placed) → AreTold files number signs.now journal → IsReplayed (image_state (chosen_at start journal) (block_of (files (database_file number)))) [] made.globals)) }
    ensures outside { (f offset : ℕ) → IsErrOf result (RegionError.NotAFile f offset) → IfSome (D.disk disk.old).content (λ files. (journal : List Placed) → AreTold files number signs.now journal
        → (seq : Sequence) → (f ≡ database_file number) × (b : ℕ) × (offset ≡ 4096 * b)
        × AreOutside (image_state (chosen_at start journal) (block_of (files (database_file number)))) (region_state directory.now.patterns number (take start.number seq)) b) }
    ensures reads { Reads (D.disk disk.old) (D.disk disk.new) }
    ensures faults { MayFail (D.disk disk.old).faults (D.disk disk.new).faults (λ fault. IsErrOf result (RegionError.Failed fault)) }
{
    let _ = directory.regions();
    let region = open_at(alloc, disk, number, start, signs)?;
    if !may_be_its_own(alloc, directory, number as usize, &region, start.number)? {
        return Err(RegionError::NotAFile {
            file: DATABASE_FILES + number as u32,
            offset: 0,
        });
    }
    Ok(region)
}

/// Opens a region as it stood at the epoch to which it goes back for the target, by the signs of its records.
fn open_region<D: Disk>(
    alloc: Global,
    disk: &mut D,
    instance: &InstanceRecords,
    directory: &Directory,
    number: u8,
    signs: &[PlacedSign],
    target: u64,
) -> Result<Begun, RegionError>
    requires number { number < directory.now.regions }
    requires patterns { directory.now.patterns ≡ patterns instance.now }
    ensures begun { IfOk result (λ made. IsBegun (patterns instance.now) target made.from number made.region) }
    ensures first { IfOk result (λ made. signs.now ≡ [] → made.from ≡ 0) }
    ensures held { IfOk result (λ made. IfSome (D.disk disk.old).content (IsHeld made.region)) }
    ensures gone_back { IfOk result (λ made. IfSome (D.disk disk.old).content (λ files. (journal : List Placed) → AreTold files number signs.now journal → IsGoneBack instance.now target made.from journal number made.region files)) }
    ensures outside { (f offset : ℕ) → IsErrOf result (RegionError.NotAFile f offset) → IfSome (D.disk disk.old).content (λ files. (journal : List Placed) → AreTold files number signs.now journal → (seq : Sequence) → IsRefused instance.now target seq journal number f offset files) }
    ensures reads { Reads (D.disk disk.old) (D.disk disk.new) }
    ensures faults { MayFail (D.disk disk.old).faults (D.disk disk.new).faults (λ fault. IsErrOf result (RegionError.Failed fault)) }
{
    let start = start_of(alloc, instance, target, signs)?;
    let region = open_own(alloc, disk, directory, number, start, signs)?;
    Ok(Begun {
        region,
        from: start.number,
    })
}

/// Adds a region to those before it.
fn add(all: &mut AllBegun, begun: Begun) -> Result<(), NoMemory>
    ensures regions { OnOk result (all.new.regions.items ≡ all.old.regions.items ++ begun.region ∷ []) }
    ensures from { OnOk result (all.new.from.items ≡ all.old.from.items ++ begun.from ∷ []) }
{
    all.regions.push(begun.region)?;
    all.from.push(begun.from)?;
    Ok(())
}

/// Opens each region as it stood at the epoch to which it goes back for the target.
fn begin_each<D: Disk>(
    alloc: Global,
    disk: &mut D,
    instance: &InstanceRecords,
    directory: &Directory,
    signs: &[Vec<PlacedSign>],
    target: u64,
) -> Result<AllBegun, RegionError>
    requires patterns { directory.now.patterns ≡ patterns instance.now }
    ensures count { IfOk result (λ made. length made.regions.items ≡ directory.now.regions) }
    ensures numbers { IfOk result (λ made. length made.from.items ≡ directory.now.regions) }
    ensures begun { IfOk result (λ made. (r : ℕ) (s : Standing) → slice_get made.regions.items r ≡ Some s → IsBegun (patterns instance.now) target (slice_index made.from.items r) r s) }
    ensures first { IfOk result (λ made. (r : ℕ) → signs_of (map (λ s. s.items) signs.now) r ≡ [] → slice_index made.from.items r ≡ 0) }
    ensures held { IfOk result (λ made. IfSome (D.disk disk.old).content (λ files. (r : ℕ) (s : Standing) → slice_get made.regions.items r ≡ Some s → IsHeld s files)) }
    ensures gone_back { IfOk result (λ made. IfSome (D.disk disk.old).content (λ files. (journal : ℕ → List Placed) → AreSigns files (map (λ s. s.items) signs.now) journal
        → (r : ℕ) (s : Standing) → slice_get made.regions.items r ≡ Some s → IsGoneBack instance.now target (slice_index made.from.items r) (journal r) r s files)) }
    ensures outside { (f offset : ℕ) → IsErrOf result (RegionError.NotAFile f offset) → IfSome (D.disk disk.old).content (λ files. (journal : ℕ → List Placed) → AreSigns files (map (λ s. s.items) signs.now) journal
        → (seq : Sequence) → AreRefused instance.now target seq journal directory.now.regions f offset files) }
    ensures reads { Reads (D.disk disk.old) (D.disk disk.new) }
    ensures faults { MayFail (D.disk disk.old).faults (D.disk disk.new).faults (λ fault. IsErrOf result (RegionError.Failed fault)) }
{
    let mut all = AllBegun {
        regions: Vec::new(alloc),
        from: Vec::new(alloc),
    };
    for number in 0..directory.regions() {
        let region = signs_at(signs, number as usize);
        let begun = open_region(alloc, disk, instance, directory, number, region, target)?;
        add(&mut all, begun)?;
    }
    Ok(all)
}

/// Opens each region for the target.
pub(crate) fn open_each<D: Disk>(
    alloc: Global,
    disk: &mut D,
    instance: &InstanceRecords,
    directory: &Directory,
    signs: &[Vec<PlacedSign>],
    entries: &EntryIndex,
    history: &Reigns,
    target: u64,
) -> Result<Vec<Region>, RegionError>
    requires target { target ≤ entry_count entries.now }
    requires patterns { directory.now.patterns ≡ patterns instance.now }
    requires regions { entries.now.regions ≡ directory.now.regions }
    requires history { history.now ≡ reigns instance.now }
    ensures count { IfOk result (λ made. length made.items ≡ directory.now.regions) }
    ensures own { IfOk result (λ made. (r : ℕ) (s : Standing) → slice_get made.items r ≡ Some s → IsOwn (patterns instance.now) target r s) }
    ensures held { IfOk result (λ made. IfSome (D.disk disk.old).content (λ files. (r : ℕ) (s : Standing) → slice_get made.items r ≡ Some s → IsHeld s files)) }
    // what begins empty has its part of the state of these entries
    ensures anew { IfOk result (λ made. (r : ℕ) (s : Standing) → slice_get made.items r ≡ Some s → signs_of (map (λ s. s.items) signs.now) r ≡ []
        → IfSome (D.disk disk.old).content (λ files. (seq : Sequence) → Indexes (InFiles files) (reigns instance.now) entries.now seq → s.globals ≡ region_state (patterns instance.now) r (take target seq))) }
    ensures opened { IfOk result (λ made. IfSome (D.disk disk.old).content (λ files. (journal : ℕ → List Placed) (seq : Sequence) → AreGiven files instance.now (map (λ s. s.items) signs.now) entries.now journal seq
        → (r : ℕ) (s : Standing) → slice_get made.items r ≡ Some s → IsOpened instance.now target seq (journal r) r s files)) }
    ensures outside { (f offset : ℕ) → IsErrOf result (RegionError.NotAFile f offset) → IfSome (D.disk disk.old).content (λ files. (journal : ℕ → List Placed) (seq : Sequence)
        → AreGiven files instance.now (map (λ s. s.items) signs.now) entries.now journal seq → AreRefused instance.now target seq journal directory.now.regions f offset files) }
    ensures reads { Reads (D.disk disk.old) (D.disk disk.new) }
    ensures faults { MayFail (D.disk disk.old).faults (D.disk disk.new).faults (λ fault. IsErrOf result (RegionError.Failed fault)) }
{
    let _ = directory.regions();
    let begun = begin_each(alloc, disk, instance, directory, signs, target)?;
    let AllBegun { mut regions, from } = begun;
    replay(
        alloc,
        disk,
        directory,
        entries,
        history,
        &from,
        &mut regions,
        target,
    )?;
    Ok(regions)
}

/// Opens the regions of a site for a target, by the records of its instance file, the signs of its regions' records, a list for each
/// region, the surviving reigns, and the index of the entries for which these records stand. Each region goes back to the epoch that it
/// has chosen for the target, and the updates of the entries behind it up to the target are made. It writes nothing: the blocks go back
/// in memory alone. Of the records behind an epoch the images are read, each once, and each entry behind one is read once.
///
/// # Errors
/// `NotAFile` with the file and the place of a region whose blocks aren't those of its part of the state: there is a block outside
/// the format or, with the place 0, the blocks hold nodes that aren't the region's. Each region before it has its blocks in the format
/// or needs forward recovery for the target. Where the files don't have what the signs and the index say, it may name any place.
/// `Failed` only where the disk's count of faults rose; `NoMemory`.
pub fn open_regions<D: Disk>(
    alloc: Global,
    disk: &mut D,
    instance: &InstanceRecords,
    directory: Directory,
    signs: &[Vec<PlacedSign>],
    entries: &EntryIndex,
    history: &Reigns,
    target: u64,
) -> Result<Regions, RegionError>
    requires target { target ≤ entry_count entries.now }
    requires patterns { directory.patterns ≡ patterns instance.now }
    requires count { directory.regions ≡ length (regions instance.now) }
    requires within { AllByRecursion (λ p. p.region < directory.regions) directory.patterns }
    requires regions { entries.now.regions ≡ directory.regions }
    requires history { history.now ≡ reigns instance.now }
    ensures patterns { IfOk result (λ made. made.patterns ≡ directory.patterns) }
    ensures count { IfOk result (λ made. length made.regions ≡ directory.regions) }
    ensures files { IfOk result (λ made. (r : ℕ) → r < length made.regions → (region_at made r).file ≡ database_file r) }
    ensures none { IfOk result (λ made. target ≡ 0 → joined made ≡ globals.empty) }
    ensures some { IfOk result (λ made. (seq : Sequence) × (joined made ≡ state seq)) }
    // on a sound site they are the state of the entries up to the target
    ensures state { IfOk result (λ made. IfSome (D.disk disk.old).content (λ files. (u : Records) (seq : Sequence) → AreFound files instance.now target (map (λ s. s.items) signs.now) entries.now u seq → IsSoundImage files u seq → joined made ≡ state (take target seq))) }
    // and each region has its part
    ensures parts { IfOk result (λ made. IfSome (D.disk disk.old).content (λ files. (u : Records) (seq : Sequence) → AreFound files instance.now target (map (λ s. s.items) signs.now) entries.now u seq → IsSoundImage files u seq → ArePartsOf directory.patterns made.regions (take target seq))) }
    // the blocks of a region are those of the epoch to which it goes back and the file
    ensures holds { IfOk result (λ made. IfSome (D.disk disk.old).content (λ files. (u : Records) (seq : Sequence) → AreFound files instance.now target (map (λ s. s.items) signs.now) entries.now u seq
        → (r : ℕ) → r < length made.regions → NeedsForward instance.now target (u.journal r) ⊎ HoldsRegion (gone_back u target r) (files (database_file r)) (region_at made r))) }
    ensures held { IfOk result (λ made. IfSome (D.disk disk.old).content (λ files. (r : ℕ) → r < length made.regions → IsHeld (region_at made r) files)) }
    ensures outside { (f offset : ℕ) → IsErrOf result (RegionError.NotAFile f offset) → (aim : ℕ → ℕ) → aim (entry_count entries.now) ≡ target
        → IfSome (D.disk disk.old).content (λ files. (u : Records) (seq : Sequence) → AreFound files instance.now target (map (λ s. s.items) signs.now) entries.now u seq → HaveOutsideBlocks aim files f offset) }
    ensures unsound { (f offset : ℕ) → IsErrOf result (RegionError.NotAFile f offset) → IfSome (D.disk disk.old).content (λ files. (u : Records) (seq : Sequence) → AreFound files instance.now target (map (λ s. s.items) signs.now) entries.now u seq → IsSoundImage files u seq → ⊥) }
    ensures reads { Reads (D.disk disk.old) (D.disk disk.new) }
    ensures faults { MayFail (D.disk disk.old).faults (D.disk disk.new).faults (λ fault. IsErrOf result (RegionError.Failed fault)) }
{
    let _ = directory.regions();
    let regions = open_each(
        alloc, disk, instance, &directory, signs, entries, history, target,
    )?;
    Ok(Regions::new(directory, regions)?)
}
