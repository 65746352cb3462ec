//! What a rollback leaves, found and read before anything is written.
ghost use Rattle.std.specs.Prelude.{◌≡◌, ◌⊎◌, ◌≤◌, ◌<◌, ◌+◌, ◌++◌, ℕ, suc, List, length, drop, min, IfOk, IfSome, OnOk, OnErr, IsErrOf};
ghost use Rattle.site_defs.specs.Limits.{LAST_GENERATION};
ghost use Rattle.global_defs.specs.declared.limits.TheConstants.{MOST_GENERATIONS};
ghost use Rattle.disk_defs.specs.Disk.{Files, Image, Reads, AtEachMoment, MayFail};
ghost use Rattle.entry_index.specs.Found.{entry_count};
ghost use Rattle.global_defs.specs.Entry.{Sequence};
ghost use Rattle.global_defs.specs.Extract.{entries_text, extract};
ghost use Rattle.journal_defs.specs.Instance as defs;
ghost use Rattle.journal_defs.specs.Instance.{generation, regions, site_name};
ghost use Rattle.journal_defs.specs.Numbers.{INSTANCE};
ghost use Rattle.journal_defs.specs.Sequence.{Placed, Records, IsSequence};
ghost use Rattle.journal_defs.specs.Stands.{IsInstance, AreRecords};
ghost use Rattle.mupip_recover.specs.Stamps.{AreStarts};
ghost use Rattle.region_opening.specs.Signs.{AllSay};
ghost use Rattle.site_defs.specs.Contents.{Contents, Leftover};
ghost use Rattle.site_defs.specs.Outside.{IsOutsideSite, IsBegunAhead};
ghost use Rattle.site_defs.specs.OutsideBlocks.{IsOutsideRollback};
ghost use Rattle.site_defs.specs.Stands.{IsSite, HasLeft};
ghost use Rattle.site_files.specs.Loading.{AreUnbegun};
ghost use Rattle.site_store.specs.Needing.{IsFirstWithout, NoneIsWithout};
ghost use Rattle.site_store.specs.Opening.{EachStands};
ghost use Rattle.site_store.specs.Standing.{HasFound, WasFound, IfFound, found_records, found_signs};
ghost use Rattle.mupip_rollback.specs.Preparing.{IsPrepared, KeepsFirst};

use super::error::{RollError, in_files, in_site};
use entry_index::EntryIndex;
use gvn_key::Bytes;
use instance_file::InstanceLog;
use jnl_extract::write_header;
use mupip_recover::starts_of;
use region_store::Regions;
use repl_disk::Disk;
use site_files::see_ahead;
use site_store::{
    FoundFiles, Layout, SiteError, StandingSite, find_files, first_needing, stand, write_entry,
};
use std::alloc::Global;

/// What stays of a site in memory.
#[derive(Drop)]
pub(crate) struct Kept {
    /// What its instance file says once both generations are drawn.
    pub layout: Layout,
    /// The last generation that began in each region, or 0.
    pub last_began: Vec<u32>,
    /// Where the parts of the entries that stay stand.
    pub entries: EntryIndex,
    /// Its regions on their blocks, with what these entries lead to.
    pub globals: Regions,
}

/// A site that is to be rolled back, before anything is written.
#[derive(Drop)]
pub(crate) struct Prepared {
    /// The records of its instance file.
    pub log: InstanceLog,
    /// How many entries it has.
    pub length: u64,
    /// The text of the broken transactions behind them.
    pub broken: Bytes,
    /// The extract of the entries that are to go.
    pub lost: Bytes,
    /// What stays.
    pub kept: Kept,
}

/// Syncs and reads a site's files, for so many of its first entries, and sees that neither of the next two generations has begun. It
/// writes nothing.
fn find<D: Disk>(alloc: Global, disk: &mut D, to: u64) -> Result<FoundFiles, RollError>
    ensures has { IfOk result HasFound }
    ensures lowest { IfOk result (λ found. found.read.lowest ≡ to) }
    ensures found { IfOk result (WasFound (D.disk disk.old) (D.disk disk.new)) }
    ensures ahead { IfOk result (λ f. IfSome (D.disk disk.old).content (λ _. (d : Files) → Image (D.disk disk.new) d → AreUnbegun (suc (suc (generation f.read.log.records))) (length (regions f.read.log.records)) d)) }
    ensures limit { IsErrOf result RollError.GenLimit → IfSome (D.disk disk.old).content (λ files. (rs : List defs.InstanceRecord) → IsInstance (files INSTANCE) rs → LAST_GENERATION ≤ generation rs) }
    ensures limit_told { IsErrOf result RollError.GenLimit → IfSome (D.disk disk.old).content (λ files. (rs : List defs.InstanceRecord) × IsInstance (files INSTANCE) rs × (LAST_GENERATION ≤ generation rs)) }
    ensures place { (file offset : ℕ) → IsErrOf result (RollError.NotAFile file offset) → IfSome (D.disk disk.old).content (λ files. IsOutsideSite files file offset ⊎ IsBegunAhead files file offset) }
    ensures outside { (file offset : ℕ) → IsErrOf result (RollError.NotAFile file offset) → IfSome (D.disk disk.old).content (λ files. (c : Contents) → IsSite files c → ⊥) }
    ensures without { (region generation : ℕ) → IsErrOf result (RollError.NoBeforeImage region generation) → ⊥ }
    ensures no_forward { (region : ℕ) → IsErrOf result (RollError.NeedForward region) → ⊥ }
    ensures content { (D.disk disk.new).content ≡ (D.disk disk.old).content }
    ensures any_moment { AtEachMoment (D.disk disk.old) (D.disk disk.new) (Image (D.disk disk.old)) }
    ensures simulated { (D.disk disk.new).simulated ≡ (D.disk disk.old).simulated }
    ensures faults { MayFail (D.disk disk.old).faults (D.disk disk.new).faults (λ fault. IsErrOf result (RollError.Failed fault)) }
{
    let found = match find_files(alloc, disk, to) {
        Ok(found) => found,
        Err(error) => return Err(in_site(error)),
    };
    match see_ahead(alloc, disk, &found.read.log.records, &found.read.directory) {
        Ok(()) => Ok(found),
        Err(error) => Err(in_files(error)),
    }
}

/// Sees that no region needs forward recovery for so many entries.
fn check_images(alloc: Global, found: &FoundFiles, target: u64) -> Result<(), RollError>
    requires has { HasFound found.now }
    ensures none { OnOk result ((journal : ℕ → List Placed) → AllSay found.now.read.log.records target (found_signs found.now) journal → NoneIsWithout (found_records found.now journal) target) }
    ensures first { (region generation : ℕ) → IsErrOf result (RollError.NoBeforeImage region generation) → (journal : ℕ → List Placed) → AllSay found.now.read.log.records target (found_signs found.now) journal → IsFirstWithout (found_records found.now journal) target region generation }
    ensures causes { OnErr result (((region : ℕ) × (generation : ℕ) × IsErrOf result (RollError.NoBeforeImage region generation)) ⊎ IsErrOf result RollError.NoMemory) }
{
    match first_needing(alloc, found, target)? {
        None => Ok(()),
        Some(needing) => Err(RollError::NoBeforeImage {
            region: needing.region,
            generation: needing.generation,
        }),
    }
}

/// Adds the extract's lines of the entries behind the first so many, each read from its places. `starts` is what
/// [`mupip_recover::starts_of`] gives for the reigns.
fn write_behind<D: Disk>(
    disk: &mut D,
    found: &FoundFiles,
    starts: &[u64],
    target: u64,
    out: &mut Bytes,
) -> Result<(), SiteError>
    requires has { HasFound found.now }
    requires starts { AreStarts found.now.read.log.history starts.now }
    ensures text { OnOk result (IfSome (D.disk disk.old).content (IfFound found.now (λ u seq files. out.new ≡ out.old ++ entries_text (target + 1) (drop target seq)))) }
    ensures outside { (file offset : ℕ) → IsErrOf result (SiteError.NotAFile file offset) → IfSome (D.disk disk.old).content (IfFound found.now (λ u seq files. ⊥)) }
    ensures reads { Reads (D.disk disk.old) (D.disk disk.new) }
    ensures faults { MayFail (D.disk disk.old).faults (D.disk disk.new).faults (λ fault. IsErrOf result (SiteError.Failed fault)) }
    ensures causes { OnErr result (((fault : ℕ) × IsErrOf result (SiteError.Failed fault)) ⊎ ((file : ℕ) × (offset : ℕ) × IsErrOf result (SiteError.NotAFile file offset)) ⊎ IsErrOf result SiteError.NoMemory) }
{
    for done in target..found.entries.len() {
        write_entry(
            disk,
            &found.entries,
            &found.read.log.history,
            starts,
            done + 1,
            out,
        )?;
    }
    Ok(())
}

/// The extract of the entries behind the first so many.
fn extract_lost<D: Disk>(
    alloc: Global,
    disk: &mut D,
    found: &FoundFiles,
    target: u64,
) -> Result<Bytes, RollError>
    requires has { HasFound found.now }
    requires target { target ≤ entry_count found.now.entries }
    ensures text { IfOk result (λ text. IfSome (D.disk disk.old).content (IfFound found.now (λ u seq files. text ≡ extract (site_name u.instance) seq (target + 1)))) }
    ensures outside { (file offset : ℕ) → IsErrOf result (RollError.NotAFile file offset) → IfSome (D.disk disk.old).content (IfFound found.now (λ u seq files. ⊥)) }
    ensures limit { IsErrOf result RollError.GenLimit → ⊥ }
    ensures without { (region generation : ℕ) → IsErrOf result (RollError.NoBeforeImage region generation) → ⊥ }
    ensures no_forward { (region : ℕ) → IsErrOf result (RollError.NeedForward region) → ⊥ }
    ensures reads { Reads (D.disk disk.old) (D.disk disk.new) }
    ensures faults { MayFail (D.disk disk.old).faults (D.disk disk.new).faults (λ fault. IsErrOf result (RollError.Failed fault)) }
{
    let mut text = Bytes::new(alloc);
    let name = found.read.log.records.name();
    write_header(name, target + 1, &mut text)?;
    let starts = starts_of(alloc, found.read.log.history.as_slice())?;
    match write_behind(disk, found, &starts, target, &mut text) {
        Ok(()) => Ok(text),
        Err(error) => Err(in_site(error)),
    }
}

/// A standing site with its first so many entries, where two generations are to be drawn.
fn keep_first(standing: StandingSite, target: u64, lost: Bytes) -> Prepared
    requires low { standing.layout.generation < MOST_GENERATIONS }
    ensures log { result.log ≡ standing.log }
    ensures length { result.length ≡ entry_count standing.entries }
    ensures broken { result.broken ≡ standing.broken }
    ensures lost { result.lost ≡ lost }
    ensures kept { KeepsFirst target standing result.kept }
{
    let StandingSite {
        log,
        mut layout,
        last_began,
        mut entries,
        globals,
        broken,
    } = standing;
    let length = entries.len();
    layout.generation += 1;
    entries.truncate(target);
    let kept = Kept {
        layout,
        last_began,
        entries,
        globals,
    };
    Prepared {
        log,
        length,
        broken,
        lost,
        kept,
    }
}

/// Opens a site that was found for so many of its first entries.
fn open_first<D: Disk>(
    alloc: Global,
    disk: &mut D,
    found: FoundFiles,
    target: u64,
) -> Result<Prepared, RollError>
    requires has { HasFound found }
    requires target { target ≤ entry_count found.entries }
    requires lowest { min found.read.lowest (entry_count found.entries) ≤ target }
    ensures kept { IfOk result (λ p. entry_count p.kept.entries ≡ target) }
    ensures prepared { IfOk result (λ p. WasFound (D.disk disk.old) (D.disk disk.old) found → IfSome (D.disk disk.old).content (λ _. (d : Files) → Image (D.disk disk.old) d → AreUnbegun (suc (suc (generation found.read.log.records))) (length (regions found.read.log.records)) d) → IsPrepared (D.disk disk.new) p) }
    ensures records { IfOk result (λ p. p.log.records ≡ found.read.log.records) }
    ensures length { IfOk result (λ p. p.length ≡ entry_count found.entries) }
    ensures broken { IfOk result (λ p. p.broken ≡ found.broken) }
    ensures place { (file offset : ℕ) → IsErrOf result (RollError.NotAFile file offset) → (to : ℕ) → target ≡ min to (entry_count found.entries) → IfSome (D.disk disk.old).content (IfFound found (λ u seq files. IsOutsideRollback to files file offset)) }
    ensures outside { (file offset : ℕ) → IsErrOf result (RollError.NotAFile file offset) → WasFound (D.disk disk.old) (D.disk disk.old) found → IfSome (D.disk disk.old).content (λ files. (c : Contents) → IsSite files c → ⊥) }
    ensures limit { IsErrOf result RollError.GenLimit → ⊥ }
    ensures first { (region generation : ℕ) → IsErrOf result (RollError.NoBeforeImage region generation) → (journal : ℕ → List Placed) → AllSay found.read.log.records target (found_signs found) journal → IsFirstWithout (found_records found journal) target region generation }
    ensures none { OnOk result ((journal : ℕ → List Placed) → AllSay found.read.log.records target (found_signs found) journal → NoneIsWithout (found_records found journal) target) }
    ensures no_forward { (region : ℕ) → IsErrOf result (RollError.NeedForward region) → ⊥ }
    ensures reads { Reads (D.disk disk.old) (D.disk disk.new) }
    ensures faults { MayFail (D.disk disk.old).faults (D.disk disk.new).faults (λ fault. IsErrOf result (RollError.Failed fault)) }
{
    check_images(alloc, &found, target)?;
    let lost = extract_lost(alloc, disk, &found, target)?;
    match stand(alloc, disk, found, target) {
        Ok(standing) => Ok(keep_first(standing, target, lost)),
        Err(error) => Err(in_site(error)),
    }
}

/// Finds what a rollback to so many entries leaves of the site on a disk, or to all where there are fewer. It writes nothing.
///
/// # Errors
/// As [`super::rolling::rollback`]'s.
pub(crate) fn prepare<D: Disk>(alloc: Global, disk: &mut D, to: u64) -> Result<Prepared, RollError>
    ensures prepared { IfOk result (IsPrepared (D.disk disk.new)) }
    ensures held { IfOk result (λ p. IfSome (D.disk disk.old).content (λ files. (u : Records) × (seq : Sequence) × AreRecords files u × IsSequence u seq × (u.instance ≡ p.log.records) × (entry_count p.kept.entries ≡ min to (length seq)) × NoneIsWithout u (min to (length seq)))) }
    ensures kept { IfOk result (λ p. entry_count p.kept.entries ≡ min to p.length) }
    ensures site { IfOk result (λ p. IfSome (D.disk disk.old).content (λ files. (c : Contents) → IsSite files c → (p.length ≡ length c.sequence) × (EachStands (D.disk disk.old) → (f : Files) → Image (D.disk disk.new) f → IsSite f c))) }
    ensures left { IfOk result (λ p. IfSome (D.disk disk.old).content (λ files. (c : Contents) (left : Leftover) → IsSite files c → HasLeft files c left → left.broken ≡ p.broken)) }
    ensures limit { IsErrOf result RollError.GenLimit → IfSome (D.disk disk.old).content (λ files. (rs : List defs.InstanceRecord) → IsInstance (files INSTANCE) rs → LAST_GENERATION ≤ generation rs) }
    ensures limit_told { IsErrOf result RollError.GenLimit → IfSome (D.disk disk.old).content (λ files. (rs : List defs.InstanceRecord) × IsInstance (files INSTANCE) rs × (LAST_GENERATION ≤ generation rs)) }
    ensures without { (region g : ℕ) → IsErrOf result (RollError.NoBeforeImage region g) → IfSome (D.disk disk.old).content (λ files. (u : Records) × (seq : Sequence) × AreRecords files u × IsSequence u seq × (generation u.instance < LAST_GENERATION) × IsFirstWithout u (min to (length seq)) region g) }
    ensures no_forward { (region : ℕ) → IsErrOf result (RollError.NeedForward region) → ⊥ }
    ensures place { (file offset : ℕ) → IsErrOf result (RollError.NotAFile file offset) → IfSome (D.disk disk.old).content (λ files. IsOutsideRollback to files file offset) }
    ensures outside { (file offset : ℕ) → IsErrOf result (RollError.NotAFile file offset) → IfSome (D.disk disk.old).content (λ files. (c : Contents) → IsSite files c → ⊥) }
    ensures content { (D.disk disk.new).content ≡ (D.disk disk.old).content }
    ensures any_moment { AtEachMoment (D.disk disk.old) (D.disk disk.new) (Image (D.disk disk.old)) }
    ensures simulated { (D.disk disk.new).simulated ≡ (D.disk disk.old).simulated }
    ensures faults { MayFail (D.disk disk.old).faults (D.disk disk.new).faults (λ fault. IsErrOf result (RollError.Failed fault)) }
{
    let found = find(alloc, disk, to)?;
    let target = to.min(found.entries.len());
    open_first(alloc, disk, found, target)
}
