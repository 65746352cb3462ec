//! Both CUTs of a rollback: of all entries, and of those that stay.
ghost use Rattle.std.specs.Prelude.{◌≡◌, ◌<◌, ◌^◌, [], ℕ, suc, true, List, length, IfSome, IfOk, OnOk, IsErrOf, IsSome, map, false};
ghost use Rattle.site_defs.specs.Limits.{LAST_GENERATION};
ghost use Rattle.global_defs.specs.declared.limits.TheConstants.{NUMBERS_END};
ghost use Rattle.disk_defs.specs.Disk.{Files, Image, From, AtEachMoment, MayFail};
ghost use Rattle.disk_defs.specs.Frames.{OthersStay};
ghost use Rattle.entry_index.specs.Found.{IsWhole, entry_count};
ghost use Rattle.instance_file.specs.Instance as instances;
ghost use Rattle.journal_defs.specs.Instance.{generation, regions};
ghost use Rattle.journal_defs.specs.Sequence.{Placed};
ghost use Rattle.site_defs.specs.Contents.{Contents};
ghost use Rattle.site_defs.specs.Opening.{with_starts};
ghost use Rattle.site_defs.specs.Rolling.{cut_to};
ghost use Rattle.site_files.specs.Loading.{MayBeOpened, WasRead, MayDraw, AreUnbegun, last_of};
ghost use Rattle.site_store.specs.Finding.{HasLayout};
ghost use Rattle.site_store.specs.Site.{AreHeld, IsReady, IsOpen};
ghost use Rattle.mupip_rollback.specs.Cutting.{IsShort, MaySetAside, HasSetAside, AreSetAside, IsCutOff};
ghost use Rattle.mupip_rollback.specs.Preparing.{cut_records};

use super::error::{RollError, in_files};
use super::preparing::Kept;
use gvn_key::NoMemory;
use instance_file::{Instance, InstanceLog};
use jnl_file::Journal;
use region_journals::{RegionJournal, RegionJournals};
use repl_disk::Disk;
use site_files::{cut_off, draw_next, write_lost};
use site_store::Memory;
use std::alloc::Global;

/// Writes down what is broken behind a site's entries, draws the next generation with a CUT of all of them, and writes the extract of
/// those that are to go into the lost-transaction file of that generation.
pub(crate) fn set_aside<D: Disk>(
    alloc: Global,
    disk: &mut D,
    log: InstanceLog,
    count: u64,
    broken: &[u8],
    lost: &[u8],
) -> Result<Instance, RollError>
    requires form { (last : ℕ → ℕ) × MayBeOpened log.records last }
    requires low { generation log.records < LAST_GENERATION }
    requires count { count < NUMBERS_END }
    requires read { IfSome (D.disk disk.old).content (λ files. (last : ℕ → ℕ) × (journal : ℕ → List Placed) × WasRead (D.disk disk.old) log.records last journal files) }
    ensures ready { IfOk result (λ made. instances.IsReady (D.disk disk.new) made) }
    ensures records { IfOk result (λ made. made.records ≡ cut_records log.records count) }
    ensures done { OnOk result (IfSome (D.disk disk.old).content (λ files. IsShort log.records broken.now files → (f : Files) → Image (D.disk disk.new) f → From (Image (D.disk disk.old)) (HasSetAside log.records count broken.now lost.now) f)) }
    ensures any_moment { IfSome (D.disk disk.old).content (λ files. IsShort log.records broken.now files → AtEachMoment (D.disk disk.old) (D.disk disk.new) (From (Image (D.disk disk.old)) (MaySetAside log.records count broken.now lost.now))) }
    ensures frame { OthersStay (AreSetAside log.records) (D.disk disk.old) (D.disk disk.new) }
    ensures limit { IsErrOf result RollError.GenLimit → ⊥ }
    ensures without { (region generation : ℕ) → IsErrOf result (RollError.NoBeforeImage region generation) → ⊥ }
    ensures no_forward { (region : ℕ) → IsErrOf result (RollError.NeedForward region) → ⊥ }
    ensures outside { (file offset : ℕ) → IsErrOf result (RollError.NotAFile file offset) → IfSome (D.disk disk.old).content (λ _. ⊥) }
    ensures faults { MayFail (D.disk disk.old).faults (D.disk disk.new).faults (λ fault. IsErrOf result (RollError.Failed fault)) }
{
    let next = log.records.generation() + 1;
    let instance = match cut_off(alloc, disk, log, count, broken) {
        Ok(instance) => instance,
        Err(error) => return Err(in_files(error)),
    };
    match write_lost(disk, next, lost) {
        Ok(()) => Ok(instance),
        Err(error) => Err(in_files(error)),
    }
}

/// Journals that have just begun, to which nothing was appended.
fn newest_journals(alloc: Global, begun: Vec<Journal>) -> Result<RegionJournals, NoMemory>
    ensures { IfOk result (λ made. made.journals.items ≡ map (λ j. record { journal = j; appended = false }) begun.items) }
{
    let journals = begun
        .into_iter()
        .map(|journal| RegionJournal {
            journal,
            appended: false,
        })
        .collect(alloc)?;
    Ok(RegionJournals { journals })
}

/// Draws the next generation with a CUT of the entries that stay, and begins it in each region.
pub(crate) fn begin_kept<D: Disk>(
    alloc: Global,
    disk: &mut D,
    instance: Instance,
    kept: Kept,
) -> Result<Memory, RollError>
    requires ready { instances.IsReady (D.disk disk.old) instance }
    requires form { MayBeOpened instance.records (last_of kept.last_began.items) }
    requires counted { length kept.last_began.items ≡ length (regions instance.records) }
    requires few { entry_count kept.entries < NUMBERS_END }
    requires whole { IsWhole kept.entries }
    requires each_place { kept.entries.regions ≡ length (regions instance.records) }
    requires unbegun { IfSome (D.disk disk.old).content (λ _. (f : Files) → Image (D.disk disk.old) f → AreUnbegun (suc (generation instance.records)) (length (regions instance.records)) f) }
    requires layout { (m : ℕ) → HasLayout (cut_records instance.records m) kept.layout }
    requires regions { AreHeld (D.disk disk.old) (length (regions instance.records)) kept.globals }
    ensures ready { IfOk result (λ s. IsReady (D.disk disk.new) s) }
    ensures open { IfOk result (λ s. IfSome (D.disk disk.old).content (λ _. (c : Contents) → IsCutOff (D.disk disk.old) instance.records c kept → IsOpen (D.disk disk.new) true (with_starts (length (regions instance.records)) (cut_to (entry_count kept.entries) c)) (entry_count kept.entries) s)) }
    ensures any_moment { IfSome (D.disk disk.old).content (λ _. AtEachMoment (D.disk disk.old) (D.disk disk.new) (From (Image (D.disk disk.old)) (MayDraw instance.records (entry_count kept.entries) [] (last_of kept.last_began.items)))) }
    ensures limit { IsErrOf result RollError.GenLimit → ⊥ }
    ensures without { (region generation : ℕ) → IsErrOf result (RollError.NoBeforeImage region generation) → ⊥ }
    ensures no_forward { (region : ℕ) → IsErrOf result (RollError.NeedForward region) → ⊥ }
    ensures outside { (file offset : ℕ) → IsErrOf result (RollError.NotAFile file offset) → ⊥ }
    ensures still_told { IsSome (D.disk disk.old).content → IsSome (D.disk disk.new).content }
    ensures simulated { (D.disk disk.new).simulated ≡ (D.disk disk.old).simulated }
    ensures faults { MayFail (D.disk disk.old).faults (D.disk disk.new).faults (λ fault. IsErrOf result (RollError.Failed fault)) }
{
    let Kept {
        layout,
        last_began,
        entries,
        globals,
    } = kept;
    let count = entries.len();
    let drawn = match draw_next(alloc, disk, instance, count, &last_began) {
        Ok(drawn) => drawn,
        Err(error) => return Err(in_files(error)),
    };
    Ok(Memory {
        instance: drawn.instance,
        layout,
        journals: newest_journals(alloc, drawn.journals)?,
        entries,
        globals,
        hardened: count,
        stamp: None,
    })
}
