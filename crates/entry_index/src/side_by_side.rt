//! The journals of all regions of a site, looked through side by side.
ghost use Rattle.std.specs.Prelude.{◌≡◌, ◌<◌, ◌≤◌, ◌+◌, ◌*◌, ◌^◌, ◌∷◌, ◌++◌, ℕ, List, [], map, length, get_or, Option, Some, None, true, if◌then◌else◌, IfOk, IfSome, OnOk, IsErrOf, IsTrue};
ghost use Rattle.global_defs.specs.declared.limits.TheConstants.{MOST_GENERATIONS, MOST_REGIONS};
ghost use Rattle.disk_defs.specs.Disk.{Files, Image, IsDurable, AtEachMoment, Reads, MayFailUncounted};
ghost use Rattle.disk_defs.specs.Frames.{Only, OthersStay};
ghost use Rattle.global_defs.specs.Entry as defs;
ghost use Rattle.journal_defs.specs.Instance as instances;
ghost use Rattle.journal_defs.specs.Journal as journal;
ghost use Rattle.journal_defs.specs.Surviving as surviving;
ghost use Rattle.journal_defs.specs.Sequence.{Placed};
ghost use Rattle.jnl_file.specs.Generations.{AreJournals, AreDurable};
ghost use Rattle.mupip_recover.specs.Cuts.{AreCuts};
ghost use Rattle.mupip_recover.specs.Stamps.{AreStarts};
ghost use Rattle.entry_index.specs.Completing.{IsAlone};
ghost use Rattle.entry_index.specs.Indexes.{IsNext};
ghost use Rattle.entry_index.specs.Table.{row_sign, AreSigned, AddsRow};
ghost use Rattle.mupip_recover.specs.Stamps.{AreStarts};
ghost use Rattle.entry_index.specs.Cursors.{AreReady, AreOnWay, AreTold, AllReadOnFor, AllReadOutBy, AllSettle, AreAdded, FromStart, IsDone};
ghost use Rattle.entry_index.specs.Found.{HaveFound};
ghost use Rattle.entry_index.specs.Signs.{if_numbered};

use crate::building::{add_row, has_begun};
use crate::cursor::Cursor;
use crate::error::IndexError;
use crate::index::EntryIndex;
use crate::place::PartPlace;
use crate::placed::PlacedSign;
use crate::signed_part::PartSign;
use gated_file::{GateError, sync_file};
use global_defs::limits::NUMBERS_END;
use gvn_key::NoMemory;
use gvn_model::Reigns;
use instance_file::InstanceRecords;
use jnl_file::journal_file;
use mupip_recover::{Cuts, starts_of};
use repl_disk::Disk;
use std::alloc::Global;

/// What was found in a site's journals.
#[derive(Debug, Drop)]
pub struct FoundJournals {
    /// Where the parts of each entry stand.
    pub entries: EntryIndex,
    /// By region, what its records say, in journal order: of all that are no parts, of the surviving parts past the entries, and of the
    /// parts that stand behind no part of their generation; but of what stands before an epoch past which no target goes back, perhaps
    /// of PINIs and of surviving parts past the entries alone.
    pub signs: Vec<Vec<PlacedSign>>,
    /// By region, the last generation that began, or 0.
    pub last_began: Vec<u32>,
}

/// Syncs the journal of a region and a generation.
fn sync_one<D: Disk>(disk: &mut D, file: u32) -> Result<(), IndexError>
    ensures durable { OnOk result (IfSome (D.disk disk.old).content (λ files. IsDurable (D.disk disk.new) file (files file))) }
    ensures content { (D.disk disk.new).content ≡ (D.disk disk.old).content }
    ensures any_moment { AtEachMoment (D.disk disk.old) (D.disk disk.new) (Image (D.disk disk.old)) }
    ensures frame { OthersStay (Only file) (D.disk disk.old) (D.disk disk.new) }
    ensures never { (file offset : ℕ) → IsErrOf result (IndexError.NotAFile file offset) → ⊥ }
    ensures faults { MayFailUncounted (D.disk disk.old).faults (D.disk disk.new).faults (IsErrOf result IndexError.Failed) }
{
    match sync_file(disk, file) {
        Ok(()) => Ok(()),
        Err(GateError::NoMemory) => Err(IndexError::NoMemory),
        Err(GateError::Failed | GateError::NotARecord { .. }) => Err(IndexError::Failed),
    }
}

/// Syncs the journals of a region up to a generation.
fn sync_region<D: Disk>(disk: &mut D, region: u8, last: u32) -> Result<(), IndexError>
    requires region { region < MOST_REGIONS }
    requires last { last ≤ MOST_GENERATIONS }
    ensures durable { OnOk result (IfSome (D.disk disk.old).content (AreDurable (D.disk disk.new) region last)) }
    ensures content { (D.disk disk.new).content ≡ (D.disk disk.old).content }
    ensures any_moment { AtEachMoment (D.disk disk.old) (D.disk disk.new) (Image (D.disk disk.old)) }
    ensures frame { OthersStay (AreJournals region last) (D.disk disk.old) (D.disk disk.new) }
    ensures never { (file offset : ℕ) → IsErrOf result (IndexError.NotAFile file offset) → ⊥ }
    ensures faults { MayFailUncounted (D.disk disk.old).faults (D.disk disk.new).faults (IsErrOf result IndexError.Failed) }
{
    for before in 0..last {
        sync_one(disk, journal_file(region, before + 1))?;
    }
    Ok(())
}

/// Syncs the journals of the first regions up to a generation.
fn sync_all<D: Disk>(disk: &mut D, regions: u8, last: u32) -> Result<(), IndexError>
    requires regions { regions ≤ MOST_REGIONS }
    requires last { last ≤ MOST_GENERATIONS }
    ensures durable { OnOk result (IfSome (D.disk disk.old).content (λ files. (r : ℕ) → r < regions → AreDurable (D.disk disk.new) r last files)) }
    ensures content { (D.disk disk.new).content ≡ (D.disk disk.old).content }
    ensures any_moment { AtEachMoment (D.disk disk.old) (D.disk disk.new) (Image (D.disk disk.old)) }
    ensures simulated { (D.disk disk.new).simulated ≡ (D.disk disk.old).simulated }
    ensures never { (file offset : ℕ) → IsErrOf result (IndexError.NotAFile file offset) → ⊥ }
    ensures faults { MayFailUncounted (D.disk disk.old).faults (D.disk disk.new).faults (IsErrOf result IndexError.Failed) }
{
    for region in 0..regions {
        sync_region(disk, region, last)?;
    }
    Ok(())
}

/// Adds a region's journals.
fn add_cursor(cursors: &mut Vec<Cursor>, cursor: Cursor) -> Result<(), NoMemory>
    ensures { OnOk result (cursors.new.items ≡ cursors.old.items ++ cursor ∷ []) }
{
    cursors.push(cursor)?;
    Ok(())
}

/// The journals of the first regions up to a generation, of which nothing is read yet.
fn begin_all<D: Disk>(
    alloc: Global,
    disk: &mut D,
    regions: u8,
    last: u32,
) -> Result<Vec<Cursor>, IndexError>
    requires regions { regions ≤ MOST_REGIONS }
    requires last { last ≤ MOST_GENERATIONS }
    ensures many { IfOk result (λ made. length made.items ≡ regions) }
    ensures ready { IfOk result (λ made. AreReady (D.disk disk.new).content last made.items) }
    ensures begun { IfOk result (λ made. IfSome (D.disk disk.old).content (λ files. (instance : List instances.InstanceRecord) (lowest : ℕ) → AreOnWay files instance lowest 0 made.items (λ r. []))) }
    ensures told { IfOk result (λ made. (files : Files) (instance : List instances.InstanceRecord) → AreTold files instance 0 made.items (λ r. [])) }
    ensures never { (file offset : ℕ) → IsErrOf result (IndexError.NotAFile file offset) → ⊥ }
    ensures reads { Reads (D.disk disk.old) (D.disk disk.new) }
    ensures faults { MayFailUncounted (D.disk disk.old).faults (D.disk disk.new).faults (IsErrOf result IndexError.Failed) }
{
    let mut cursors = Vec::new(alloc);
    for region in 0..regions {
        let cursor = Cursor::of(alloc, disk, region, last)?;
        add_cursor(&mut cursors, cursor)?;
    }
    Ok(cursors)
}

/// Reads each region on, once so many entries are settled. Answers false where a region does.
fn read_all_on<D: Disk>(
    alloc: Global,
    disk: &mut D,
    cuts: &Cuts,
    settled: u64,
    lowest: u64,
    cursors: &mut Vec<Cursor>,
) -> Result<bool, IndexError>
    requires cuts { (rs : List instances.InstanceRecord) × AreCuts rs cuts.now }
    requires ready { (last : ℕ) × AreReady (D.disk disk.old).content last cursors.old.items }
    ensures many { IfOk result (λ more. IsTrue more → length cursors.new.items ≡ length cursors.old.items) }
    ensures ready { IfOk result (λ more. IsTrue more → (last : ℕ) → AreReady (D.disk disk.old).content last cursors.old.items → AreReady (D.disk disk.new).content last cursors.new.items) }
    ensures read { IfOk result (λ more. IsTrue more → IfSome (D.disk disk.old).content (AllReadOnFor cuts.now lowest settled cursors.old.items cursors.new.items)) }
    ensures never { (file offset : ℕ) → IsErrOf result (IndexError.NotAFile file offset) → ⊥ }
    ensures reads { Reads (D.disk disk.old) (D.disk disk.new) }
    ensures faults { MayFailUncounted (D.disk disk.old).faults (D.disk disk.new).faults (IsErrOf result IndexError.Failed) }
{
    for place in 0..cursors.len() {
        if !cursors[place].read_on(alloc, disk, cuts, settled, lowest)? {
            return Ok(false);
        }
    }
    Ok(true)
}

/// Reads all that is left of each region. Answers false where a region does.
fn read_all_out<D: Disk>(
    alloc: Global,
    disk: &mut D,
    cuts: &Cuts,
    low: u64,
    cursors: &mut Vec<Cursor>,
) -> Result<bool, IndexError>
    requires cuts { (rs : List instances.InstanceRecord) × AreCuts rs cuts.now }
    requires ready { (last : ℕ) × AreReady (D.disk disk.old).content last cursors.old.items }
    ensures many { IfOk result (λ more. IsTrue more → length cursors.new.items ≡ length cursors.old.items) }
    ensures ready { IfOk result (λ more. IsTrue more → (last : ℕ) → AreReady (D.disk disk.old).content last cursors.old.items → AreReady (D.disk disk.new).content last cursors.new.items) }
    ensures read { IfOk result (λ more. IsTrue more → IfSome (D.disk disk.old).content (AllReadOutBy cuts.now low cursors.old.items cursors.new.items)) }
    ensures done { IfOk result (λ more. IsTrue more → (r : ℕ) (d : Cursor) → r < length cursors.new.items → IsDone (get_or cursors.new.items r d)) }
    ensures never { (file offset : ℕ) → IsErrOf result (IndexError.NotAFile file offset) → ⊥ }
    ensures reads { Reads (D.disk disk.old) (D.disk disk.new) }
    ensures faults { MayFailUncounted (D.disk disk.old).faults (D.disk disk.new).faults (IsErrOf result IndexError.Failed) }
{
    for place in 0..cursors.len() {
        if !cursors[place].read_out(alloc, disk, cuts, low)? {
            return Ok(false);
        }
    }
    Ok(true)
}

/// Makes a row of what waits in the regions of the entry with this number.
fn gather(cursors: &[Cursor], number: u64, row: &mut Vec<Option<PartSign>>) -> Result<(), NoMemory>
    ensures { OnOk result (row.new.items ≡ map (λ c. if_numbered number c.waiting) cursors.now) }
{
    row.clear();
    for cursor in cursors {
        row.push(cursor.part_of(number))?;
    }
    Ok(())
}

/// Adds the places of what waits in the regions of the entry with this number, one a region.
fn push_waiting(
    cursors: &[Cursor],
    number: u64,
    places: &mut Vec<PartPlace>,
) -> Result<(), NoMemory>
    ensures { OnOk result (AddsRow (map (λ c. if_numbered number c.waiting) cursors.now) (length cursors.now) true places.old.items places.new.items) }
{
    for region in 0..cursors.len() {
        places.push(cursors[region].place_of(number))?;
    }
    Ok(())
}

/// Whether the entry with this number has a part that is the only one of its entry. Then it's complete.
fn some_alone(cursors: &[Cursor], number: u64) -> bool
    requires { length cursors.now ≤ MOST_REGIONS }
    ensures { IsTrue result → (r : ℕ) × (s : PartSign) × (r < MOST_REGIONS) × (row_sign (map (λ c. if_numbered number c.waiting) cursors.now) r ≡ Some s) × IsAlone s r }
{
    for region in 0..cursors.len() {
        if cursors[region].has_alone(number, region as u8) {
            return true;
        }
    }
    false
}

/// Adds the row of the entry of a number, by what waits in the regions, where it's complete and a reign had begun by then, and answers
/// whether it is. Most entries have one part; the row of signs is made for others alone.
fn add_next<D: Disk>(
    alloc: Global,
    disk: &mut D,
    cursors: &[Cursor],
    row: &mut Vec<Option<PartSign>>,
    starts: &[u64],
    number: u64,
    made: &mut EntryIndex,
) -> Result<bool, IndexError>
    requires few { made.old.regions ≤ MOST_REGIONS }
    requires count { length cursors.now ≡ made.old.regions }
    ensures added { IfOk result (λ more. IfSome (D.disk disk.old).content (λ files. (part : ℕ → Option journal.Part) → AreSigned files (map (λ c. if_numbered number c.waiting) cursors.now) number part → ((r : ℕ) → made.old.regions ≤ r → part r ≡ None)
        → (rs : List defs.Reign) → AreStarts rs starts.now → IsNext files rs number part more made.old.places.items made.new.places.items)) }
    ensures many { IfOk result (λ more. length made.new.places.items ≡ (if more then length made.old.places.items + made.old.regions else length made.old.places.items)) }
    ensures row { IfOk result (λ more. AddsRow (map (λ c. if_numbered number c.waiting) cursors.now) made.old.regions more made.old.places.items made.new.places.items) }
    ensures regions { made.new.regions ≡ made.old.regions }
    ensures reads { Reads (D.disk disk.old) (D.disk disk.new) }
    ensures faults { MayFailUncounted (D.disk disk.old).faults (D.disk disk.new).faults (IsErrOf result IndexError.Failed) }
{
    if has_begun(starts, number) && some_alone(cursors, number) {
        push_waiting(cursors, number, &mut made.places)?;
        return Ok(true);
    }
    gather(cursors, number, row)?;
    add_row(alloc, disk, row, starts, number, made)
}

/// Settles what waits in the regions of the entry with this number.
fn settle_all(number: u64, cursors: &mut Vec<Cursor>) -> Result<(), NoMemory>
    ensures many { OnOk result (length cursors.new.items ≡ length cursors.old.items) }
    ensures ready { OnOk result ((content : Option Files) (last : ℕ) → AreReady content last cursors.old.items → AreReady content last cursors.new.items) }
    ensures settled { OnOk result ((files : Files) (n : ℕ) → number ≡ n + 1 → AllSettle files n cursors.old.items cursors.new.items) }
{
    for place in 0..cursors.len() {
        cursors[place].settle(number)?;
    }
    Ok(())
}

/// Adds the rows of all complete entries, and answers how many these are, or `None` where the journals have to be gone through in turn.
/// `lowest` is the lowest target that may be asked for.
fn add_all<D: Disk>(
    alloc: Global,
    disk: &mut D,
    cuts: &Cuts,
    starts: &[u64],
    lowest: u64,
    cursors: &mut Vec<Cursor>,
    made: &mut EntryIndex,
) -> Result<Option<u64>, IndexError>
    requires cuts { (rs : List instances.InstanceRecord) × AreCuts rs cuts.now }
    requires few { made.old.regions ≤ MOST_REGIONS }
    requires many { length cursors.old.items ≡ made.old.regions }
    requires none { length made.old.places.items ≡ 0 }
    requires ready { (last : ℕ) × AreReady (D.disk disk.old).content last cursors.old.items }
    ensures added { IfOk result (λ found. IfSome found (λ n. IfSome (D.disk disk.old).content (FromStart cuts.now starts.now lowest cursors.old.items (λ files instance. AreAdded files instance lowest n cursors.new.items made.new)))) }
    ensures many { IfOk result (λ found. IfSome found (λ _. length cursors.new.items ≡ length cursors.old.items)) }
    ensures ready { IfOk result (λ found. IfSome found (λ _. (last : ℕ) → AreReady (D.disk disk.old).content last cursors.old.items → AreReady (D.disk disk.new).content last cursors.new.items)) }
    ensures rows { IfOk result (λ found. IfSome found (λ n. length made.new.places.items ≡ made.new.regions * n)) }
    ensures low { IfOk result (λ found. IfSome found (λ n. n < NUMBERS_END)) }
    ensures regions { made.new.regions ≡ made.old.regions }
    ensures never { (file offset : ℕ) → IsErrOf result (IndexError.NotAFile file offset) → ⊥ }
    ensures reads { Reads (D.disk disk.old) (D.disk disk.new) }
    ensures faults { MayFailUncounted (D.disk disk.old).faults (D.disk disk.new).faults (IsErrOf result IndexError.Failed) }
{
    let mut row = Vec::new(alloc);
    for done in 0..NUMBERS_END {
        if !read_all_on(alloc, disk, cuts, done, lowest, cursors)? {
            return Ok(None);
        }
        match add_next(alloc, disk, cursors, &mut row, starts, done + 1, made) {
            Ok(true) => settle_all(done + 1, cursors)?,
            Ok(false) => return Ok(Some(done)),
            Err(IndexError::NotAFile { .. }) => return Ok(None),
            Err(error) => return Err(error),
        }
    }
    Ok(None)
}

/// What was found by cursors that have read all, and the index of the entries.
fn found_by(
    alloc: Global,
    cursors: Vec<Cursor>,
    entries: EntryIndex,
) -> Result<FoundJournals, NoMemory>
    ensures entries { IfOk result (λ made. made.entries ≡ entries) }
    ensures signs { IfOk result (λ made. map (λ s. s.items) made.signs.items ≡ map (λ c. c.kept.signs.items) cursors.items) }
    ensures began { IfOk result (λ made. made.last_began.items ≡ map (λ c. c.reader.began) cursors.items) }
{
    let mut signs = Vec::new(alloc);
    let mut last_began = Vec::new(alloc);
    for cursor in cursors {
        let Cursor { reader, kept, .. } = cursor;
        signs.push(kept.signs)?;
        last_began.push(reader.began)?;
    }
    Ok(FoundJournals {
        entries,
        signs,
        last_began,
    })
}

/// Syncs the journals of the first regions up to a generation, looks all through at once, entry by entry, and indexes the entries.
///
/// It reads each file once and keeps no sign of the parts of an entry that is told, but where they begin a run of parts; and, of what
/// stands before an epoch past which no target goes back, the signs of PINIs and of surviving parts past the entries alone, or of a few
/// records more.
/// `lowest` is the lowest target for which the regions may be opened; one past all entries stands for these. Answers `None` where the
/// numbers of a region's surviving parts don't rise, as a site writes them, or some file is no journal.
pub fn look_side_by_side<D: Disk>(
    alloc: Global,
    disk: &mut D,
    instance: &InstanceRecords,
    history: &Reigns,
    regions: u8,
    last: u32,
    lowest: u64,
) -> Result<Option<FoundJournals>, IndexError>
    requires history { history.now ≡ surviving.reigns instance.now }
    requires regions { regions ≤ MOST_REGIONS }
    requires last { last ≤ MOST_GENERATIONS }
    ensures found { IfOk result (λ found. IfSome found (λ made. IfSome (D.disk disk.old).content (λ files. (journal : ℕ → List Placed)
        × HaveFound files instance.now lowest regions last (map (λ s. s.items) made.signs.items) made.last_began.items made.entries journal))) }
    ensures signs { IfOk result (λ found. IfSome found (λ made. length made.signs.items ≡ regions)) }
    ensures began { IfOk result (λ found. IfSome found (λ made. (length made.last_began.items ≡ regions) × ((r : ℕ) → get_or made.last_began.items r 0 ≤ last))) }
    ensures rows { IfOk result (λ found. IfSome found (λ made. (made.entries.regions ≡ regions) × (n : ℕ) × (length made.entries.places.items ≡ regions * n))) }
    ensures durable { IfOk result (λ found. IfSome found (λ _. IfSome (D.disk disk.old).content (λ files. (r : ℕ) → r < regions → AreDurable (D.disk disk.new) r last files))) }
    ensures never { (file offset : ℕ) → IsErrOf result (IndexError.NotAFile file offset) → ⊥ }
    ensures content { (D.disk disk.new).content ≡ (D.disk disk.old).content }
    ensures any_moment { AtEachMoment (D.disk disk.old) (D.disk disk.new) (Image (D.disk disk.old)) }
    ensures simulated { (D.disk disk.new).simulated ≡ (D.disk disk.old).simulated }
    ensures faults { MayFailUncounted (D.disk disk.old).faults (D.disk disk.new).faults (IsErrOf result IndexError.Failed) }
{
    sync_all(disk, regions, last)?;
    let cuts = Cuts::of(alloc, instance)?;
    let starts = starts_of(alloc, history.as_slice())?;
    let mut cursors = begin_all(alloc, disk, regions, last)?;
    let mut made = EntryIndex {
        regions,
        places: Vec::new(alloc),
    };
    let Some(count) = add_all(alloc, disk, &cuts, &starts, lowest, &mut cursors, &mut made)? else {
        return Ok(None);
    };
    if !read_all_out(alloc, disk, &cuts, count + 1, &mut cursors)? {
        return Ok(None);
    }
    Ok(Some(found_by(alloc, cursors, made)?))
}
