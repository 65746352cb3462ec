//! Drawing the next generation, and beginning it.
ghost use Rattle.std.specs.Prelude.{◌≡◌, ◌⊎◌, ◌≤◌, ◌<◌, ◌^◌, ◌++◌, ◌∷◌, [], ℕ, suc, false, List, length, slice_get, Some, IfSome, IfOk, OnOk, OnErr, IsErrOf};
ghost use Rattle.global_defs.specs.declared.limits.TheConstants.{MOST_GENERATIONS, MOST_REGIONS, NUMBERS_END};
ghost use Rattle.disk_defs.specs.Disk.{Files, Image, From, AtEachMoment, MayFail};
ghost use Rattle.disk_defs.specs.Frames.{Only, OthersStay};
ghost use Rattle.instance_file.specs.Instance as instances;
ghost use Rattle.journal_defs.specs.Numbers.{journal_file};
ghost use Rattle.journal_defs.specs.Instance as defs;
ghost use Rattle.journal_defs.specs.Instance.{generation, regions};
ghost use Rattle.journal_defs.specs.Sequence.{Placed};
ghost use Rattle.jnl_file.specs.Journal as journals;
ghost use Rattle.jnl_file.specs.declared.journal.Journal.{Journal};
ghost use Rattle.jnl_file.specs.Records.{settled};
ghost use Rattle.jnl_file.specs.Begin.{pini, MayBegin};
ghost use Rattle.disk_defs.specs.Gates.{records};
ghost use Rattle.site_defs.specs.Forward.{begun_mode};
ghost use Rattle.site_files.specs.Errors.{journal_error};
ghost use Rattle.site_files.specs.Loading.{MayBeOpened, WasRead, MayDraw, MayDrawAs, HasDrawn, HasDrawnAs, HasBegun, AreNext, AreJournalsOf, AreUnbegun, last_of, first_by, next_cut, next_broken, next_pini, next_pini_as};

use crate::cuts::{cut_off, cut_open};
use crate::error::FilesError;
use gvn_key::NoMemory;
use instance_file::{Instance, InstanceLog, InstanceRecords};
use jnl_file::{Journal, JournalError};
use repl_disk::Disk;
use std::alloc::Global;

/// The files of a site whose next generation has begun, open for calls.
#[derive(Drop)]
pub struct Drawn {
    pub instance: Instance,
    /// The journals of the new generation, by region.
    pub journals: Vec<Journal>,
}

/// An error of a journal that is made, on a disk with this count of faults.
fn in_journal(error: JournalError, fault: u64) -> FilesError
    ensures { result ≡ journal_error fault error }
{
    match error {
        JournalError::Failed => FilesError::Failed { fault },
        JournalError::NotARecord { .. } | JournalError::NoMemory => FilesError::NoMemory,
    }
}

/// Whether a generation that begins in a region keeps images, by these records: where it's anew in none, and else in the region's mode.
fn mode_begun(records: &InstanceRecords, region: u8, anew: bool) -> bool
    ensures { result ≡ begun_mode anew records.now region }
{
    !anew && records.mode(region)
}

/// Makes a region's journal of a generation.
fn begin<D: Disk>(
    alloc: Global,
    disk: &mut D,
    region: u8,
    before: bool,
    generation: u32,
    last: u32,
) -> Result<Journal, FilesError>
    requires region { region < MOST_REGIONS }
    requires generation { generation ≤ MOST_GENERATIONS }
    requires last { last < generation }
    requires empty { IfSome (D.disk disk.old).content (λ files. records (files (journal_file generation region)) ≡ Some []) }
    ensures ready { IfOk result (λ made. journals.IsReady (D.disk disk.new) made) }
    ensures place { IfOk result (λ made. journals.IsJournalOf made region generation) }
    ensures state { IfOk result (λ made. IfSome (D.disk disk.old).content (λ _. journals.HasRecords (D.disk disk.new) made (settled (pini region before generation last ∷ [])))) }
    ensures any_moment { IfSome (D.disk disk.old).content (λ _. AtEachMoment (D.disk disk.old) (D.disk disk.new) (MayBegin (D.disk disk.old) (journal_file generation region) (pini region before generation last))) }
    ensures frame { OthersStay (Only (journal_file generation region)) (D.disk disk.old) (D.disk disk.new) }
    ensures faults { MayFail (D.disk disk.old).faults (D.disk disk.new).faults (λ fault. IsErrOf result (FilesError.Failed fault)) }
    ensures causes { OnErr result (((fault : ℕ) × IsErrOf result (FilesError.Failed fault)) ⊎ IsErrOf result FilesError.NoMemory) }
{
    match Journal::create(alloc, disk, region, before, generation, last) {
        Ok(made) => Ok(made),
        Err(error) => Err(in_journal(error, disk.faults())),
    }
}

/// Adds a journal.
fn add(journals: &mut Vec<Journal>, made: Journal) -> Result<(), NoMemory>
    ensures { OnOk result (journals.new.items ≡ journals.old.items ++ made ∷ []) }
{
    journals.push(made)?;
    Ok(())
}

/// Makes a region's journal of a generation and adds it.
fn begin_next<D: Disk>(
    alloc: Global,
    disk: &mut D,
    begun: &mut Vec<Journal>,
    region: u8,
    before: bool,
    generation: u32,
    last: u32,
) -> Result<(), FilesError>
    requires region { region < MOST_REGIONS }
    requires generation { generation ≤ MOST_GENERATIONS }
    requires last { last < generation }
    requires empty { IfSome (D.disk disk.old).content (λ files. records (files (journal_file generation region)) ≡ Some []) }
    ensures added { OnOk result ((made : Journal) × (begun.new.items ≡ begun.old.items ++ made ∷ []) × journals.IsReady (D.disk disk.new) made × journals.IsJournalOf made region generation × IfSome (D.disk disk.old).content (λ _. journals.HasRecords (D.disk disk.new) made (settled (pini region before generation last ∷ [])))) }
    ensures any_moment { IfSome (D.disk disk.old).content (λ _. AtEachMoment (D.disk disk.old) (D.disk disk.new) (MayBegin (D.disk disk.old) (journal_file generation region) (pini region before generation last))) }
    ensures frame { OthersStay (Only (journal_file generation region)) (D.disk disk.old) (D.disk disk.new) }
    ensures faults { MayFail (D.disk disk.old).faults (D.disk disk.new).faults (λ fault. IsErrOf result (FilesError.Failed fault)) }
    ensures causes { OnErr result (((fault : ℕ) × IsErrOf result (FilesError.Failed fault)) ⊎ IsErrOf result FilesError.NoMemory) }
{
    let made = begin(alloc, disk, region, before, generation, last)?;
    add(begun, made)?;
    Ok(())
}

/// Makes the journals of a generation in the first regions, one for each of these last generations: in their modes by these records, or
/// anew.
fn begin_all<D: Disk>(
    alloc: Global,
    disk: &mut D,
    records: &InstanceRecords,
    generation: u32,
    last_began: &[u32],
    anew: bool,
) -> Result<Vec<Journal>, FilesError>
    requires few { length last_began.now ≤ MOST_REGIONS }
    requires generation { generation ≤ MOST_GENERATIONS }
    requires earlier { (r : ℕ) → last_of last_began.now r < generation }
    requires unbegun { IfSome (D.disk disk.old).content (λ _. (f : Files) → Image (D.disk disk.old) f → AreUnbegun generation (length last_began.now) f) }
    ensures number { IfOk result (λ made. length made.items ≡ length last_began.now) }
    ensures ready { IfOk result (λ made. (r : ℕ) (j : Journal) → slice_get made.items r ≡ Some j → journals.IsReady (D.disk disk.new) j × journals.IsJournalOf j r generation) }
    ensures state { IfOk result (λ made. IfSome (D.disk disk.old).content (λ _. (r : ℕ) (j : Journal) → slice_get made.items r ≡ Some j → journals.HasRecords (D.disk disk.new) j (settled (first_by anew records.now generation last_began.now r ∷ [])))) }
    ensures begun { OnOk result (IfSome (D.disk disk.old).content (λ _. (f : Files) → Image (D.disk disk.new) f → From (Image (D.disk disk.old)) (HasBegun generation (length last_began.now) (first_by anew records.now generation last_began.now) (length last_began.now)) f)) }
    ensures any_moment { IfSome (D.disk disk.old).content (λ _. AtEachMoment (D.disk disk.old) (D.disk disk.new) (From (Image (D.disk disk.old)) (λ was now. (k : ℕ) × HasBegun generation (length last_began.now) (first_by anew records.now generation last_began.now) k was now))) }
    ensures frame { OthersStay (AreJournalsOf generation (length last_began.now)) (D.disk disk.old) (D.disk disk.new) }
    ensures faults { MayFail (D.disk disk.old).faults (D.disk disk.new).faults (λ fault. IsErrOf result (FilesError.Failed fault)) }
    ensures causes { OnErr result (((fault : ℕ) × IsErrOf result (FilesError.Failed fault)) ⊎ IsErrOf result FilesError.NoMemory) }
{
    let mut journals = Vec::new(alloc);
    for region in 0..last_began.len() {
        let before = mode_begun(records, region as u8, anew);
        begin_next(
            alloc,
            disk,
            &mut journals,
            region as u8,
            before,
            generation,
            last_began[region],
        )?;
    }
    Ok(journals)
}

/// Begins the newest generation of an open instance file in the first regions, one for each of these last generations.
fn begin_drawn<D: Disk>(
    alloc: Global,
    disk: &mut D,
    instance: Instance,
    last_began: &[u32],
    anew: bool,
) -> Result<Drawn, FilesError>
    requires ready { instances.IsReady (D.disk disk.old) instance }
    requires few { length last_began.now ≤ MOST_REGIONS }
    requires generation { generation instance.records ≤ MOST_GENERATIONS }
    requires earlier { (r : ℕ) → last_of last_began.now r < generation instance.records }
    requires unbegun { IfSome (D.disk disk.old).content (λ _. (f : Files) → Image (D.disk disk.old) f → AreUnbegun (generation instance.records) (length last_began.now) f) }
    ensures instance { IfOk result (λ made. instances.IsReady (D.disk disk.new) made.instance) }
    ensures records { IfOk result (λ made. made.instance.records ≡ instance.records) }
    ensures instance_file { IfOk result (λ made. (rs : List defs.InstanceRecord) → instances.HasRecords (D.disk disk.old) instance rs → instances.HasRecords (D.disk disk.new) made.instance rs) }
    ensures journal_count { IfOk result (λ made. length made.journals.items ≡ length last_began.now) }
    ensures journals { IfOk result (λ made. (r : ℕ) (j : Journal) → slice_get made.journals.items r ≡ Some j → journals.IsReady (D.disk disk.new) j × journals.IsJournalOf j r (generation instance.records)) }
    ensures journal_files { IfOk result (λ made. IfSome (D.disk disk.old).content (λ _. (r : ℕ) (j : Journal) → slice_get made.journals.items r ≡ Some j → journals.HasRecords (D.disk disk.new) j (settled (first_by anew instance.records (generation instance.records) last_began.now r ∷ [])))) }
    ensures begun { OnOk result (IfSome (D.disk disk.old).content (λ _. (f : Files) → Image (D.disk disk.new) f → From (Image (D.disk disk.old)) (HasBegun (generation instance.records) (length last_began.now) (first_by anew instance.records (generation instance.records) last_began.now) (length last_began.now)) f)) }
    ensures any_moment { IfSome (D.disk disk.old).content (λ _. AtEachMoment (D.disk disk.old) (D.disk disk.new) (From (Image (D.disk disk.old)) (λ was now. (k : ℕ) × HasBegun (generation instance.records) (length last_began.now) (first_by anew instance.records (generation instance.records) last_began.now) k was now))) }
    ensures frame { OthersStay (AreJournalsOf (generation instance.records) (length last_began.now)) (D.disk disk.old) (D.disk disk.new) }
    ensures faults { MayFail (D.disk disk.old).faults (D.disk disk.new).faults (λ fault. IsErrOf result (FilesError.Failed fault)) }
    ensures causes { OnErr result (((fault : ℕ) × IsErrOf result (FilesError.Failed fault)) ⊎ IsErrOf result FilesError.NoMemory) }
{
    let newest = instance.records.generation();
    let journals = begin_all(alloc, disk, &instance.records, newest, last_began, anew)?;
    Ok(Drawn { instance, journals })
}

/// Draws the next generation of a site that was read, with the text of what is broken and a CUT to so many entries, and begins it in
/// each region.
///
/// The text, where there is one, is written and synced before the CUT. `last_began` has the last generation that began, by region. Anew
/// the generation keeps images in no region; else it does in those whose mode says so.
pub fn draw<D: Disk>(
    alloc: Global,
    disk: &mut D,
    log: InstanceLog,
    count: u64,
    broken: &[u8],
    last_began: &[u32],
    anew: bool,
) -> Result<Drawn, FilesError>
    requires form { MayBeOpened log.records (last_of last_began.now) }
    requires counted { length last_began.now ≡ length (regions log.records) }
    requires count { count < NUMBERS_END }
    requires read { IfSome (D.disk disk.old).content (λ files. (journal : ℕ → List Placed) × WasRead (D.disk disk.old) log.records (last_of last_began.now) journal files) }
    ensures instance { IfOk result (λ made. instances.IsReady (D.disk disk.new) made.instance) }
    ensures journal_count { IfOk result (λ made. length made.journals.items ≡ length (regions log.records)) }
    ensures journals { IfOk result (λ made. (r : ℕ) (j : Journal) → slice_get made.journals.items r ≡ Some j → journals.IsReady (D.disk disk.new) j × journals.IsJournalOf j r (suc (generation log.records))) }
    ensures records { IfOk result (λ made. made.instance.records ≡ log.records ++ next_cut log.records count ∷ []) }
    ensures instance_file { IfOk result (λ made. IfSome (D.disk disk.old).content (λ _. instances.HasRecords (D.disk disk.new) made.instance (log.records ++ next_cut log.records count ∷ []))) }
    ensures journal_files { IfOk result (λ made. IfSome (D.disk disk.old).content (λ _. (r : ℕ) (j : Journal) → slice_get made.journals.items r ≡ Some j → journals.HasRecords (D.disk disk.new) j (settled (next_pini_as anew log.records (last_of last_began.now) r ∷ [])))) }
    ensures drawn { OnOk result (IfSome (D.disk disk.old).content (λ files. length (files (next_broken log.records)) ≤ length broken.now → (f : Files) → Image (D.disk disk.new) f → From (Image (D.disk disk.old)) (HasDrawnAs anew log.records count broken.now (last_of last_began.now) (length (regions log.records))) f)) }
    ensures any_moment { IfSome (D.disk disk.old).content (λ files. length (files (next_broken log.records)) ≤ length broken.now → AtEachMoment (D.disk disk.old) (D.disk disk.new) (From (Image (D.disk disk.old)) (MayDrawAs anew log.records count broken.now (last_of last_began.now)))) }
    ensures reads { IfSome (D.disk disk.old).content (λ files. length (files (next_broken log.records)) ≤ length broken.now → IfSome (D.disk disk.new).content (MayDrawAs anew log.records count broken.now (last_of last_began.now) files)) }
    ensures frame { OthersStay (AreNext log.records) (D.disk disk.old) (D.disk disk.new) }
    ensures faults { MayFail (D.disk disk.old).faults (D.disk disk.new).faults (λ fault. IsErrOf result (FilesError.Failed fault)) }
    ensures outside { (file offset : ℕ) → IsErrOf result (FilesError.NotAFile file offset) → IfSome (D.disk disk.old).content (λ _. ⊥) }
    ensures causes { OnErr result (((fault : ℕ) × IsErrOf result (FilesError.Failed fault)) ⊎ ((file : ℕ) × (offset : ℕ) × IsErrOf result (FilesError.NotAFile file offset)) ⊎ IsErrOf result FilesError.NoMemory) }
{
    let instance = cut_off(alloc, disk, log, count, broken)?;
    begin_drawn(alloc, disk, instance, last_began, anew)
}

/// Draws the next generation of a site whose instance file is open, with a CUT to so many entries, and begins it in each region.
/// It writes no broken-transaction file.
///
/// No image has an open record in the journals of the next generation. `last_began` has the last generation that began, by region.
pub fn draw_next<D: Disk>(
    alloc: Global,
    disk: &mut D,
    instance: Instance,
    count: u64,
    last_began: &[u32],
) -> Result<Drawn, FilesError>
    requires ready { instances.IsReady (D.disk disk.old) instance }
    requires form { MayBeOpened instance.records (last_of last_began.now) }
    requires counted { length last_began.now ≡ length (regions instance.records) }
    requires count { count < NUMBERS_END }
    requires unbegun { IfSome (D.disk disk.old).content (λ _. (f : Files) → Image (D.disk disk.old) f → AreUnbegun (suc (generation instance.records)) (length (regions instance.records)) f) }
    ensures instance { IfOk result (λ made. instances.IsReady (D.disk disk.new) made.instance) }
    ensures journal_count { IfOk result (λ made. length made.journals.items ≡ length (regions instance.records)) }
    ensures journals { IfOk result (λ made. (r : ℕ) (j : Journal) → slice_get made.journals.items r ≡ Some j → journals.IsReady (D.disk disk.new) j × journals.IsJournalOf j r (suc (generation instance.records))) }
    ensures records { IfOk result (λ made. made.instance.records ≡ instance.records ++ next_cut instance.records count ∷ []) }
    ensures instance_file { IfOk result (λ made. IfSome (D.disk disk.old).content (λ _. instances.HasRecords (D.disk disk.new) made.instance (instance.records ++ next_cut instance.records count ∷ []))) }
    ensures journal_files { IfOk result (λ made. IfSome (D.disk disk.old).content (λ _. (r : ℕ) (j : Journal) → slice_get made.journals.items r ≡ Some j → journals.HasRecords (D.disk disk.new) j (settled (next_pini instance.records (last_of last_began.now) r ∷ [])))) }
    ensures drawn { OnOk result (IfSome (D.disk disk.old).content (λ _. (f : Files) → Image (D.disk disk.new) f → From (Image (D.disk disk.old)) (HasDrawn instance.records count [] (last_of last_began.now) (length (regions instance.records))) f)) }
    ensures any_moment { IfSome (D.disk disk.old).content (λ _. AtEachMoment (D.disk disk.old) (D.disk disk.new) (From (Image (D.disk disk.old)) (MayDraw instance.records count [] (last_of last_began.now)))) }
    ensures reads { IfSome (D.disk disk.old).content (λ files. IfSome (D.disk disk.new).content (MayDraw instance.records count [] (last_of last_began.now) files)) }
    ensures frame { OthersStay (AreNext instance.records) (D.disk disk.old) (D.disk disk.new) }
    ensures faults { MayFail (D.disk disk.old).faults (D.disk disk.new).faults (λ fault. IsErrOf result (FilesError.Failed fault)) }
    ensures causes { OnErr result (((fault : ℕ) × IsErrOf result (FilesError.Failed fault)) ⊎ IsErrOf result FilesError.NoMemory) }
{
    let instance = cut_open(disk, instance, count)?;
    begin_drawn(alloc, disk, instance, last_began, false)
}
