//! Cutting the sequence off, so that the next generation is drawn and hasn't begun.
ghost use Rattle.std.specs.Prelude.{◌≡◌, ◌⊎◌, ◌≤◌, ◌<◌, ◌^◌, ◌++◌, ◌∷◌, [], ℕ, suc, List, length, IfSome, IfOk, OnOk, OnErr, IsErrOf};
ghost use Rattle.global_defs.specs.declared.limits.TheConstants.{NUMBERS_END};
ghost use Rattle.disk_defs.specs.Disk.{Files, Image, From, AtEachMoment, IsDurable, MayFail};
ghost use Rattle.disk_defs.specs.Frames.{Only, OnlyOn, OthersStay};
ghost use Rattle.instance_file.specs.Instance as instances;
ghost use Rattle.journal_defs.specs.Numbers.{INSTANCE};
ghost use Rattle.journal_defs.specs.Instance.{generation, regions};
ghost use Rattle.journal_defs.specs.Sequence.{Placed};
ghost use Rattle.journal_defs.specs.Stands.{IsInstance};
ghost use Rattle.site_files.specs.Loading.{MayBeOpened, WasRead, MayCutOff, HasCut, AreCut, AreUnbegun, next_cut, next_broken};

use crate::error::FilesError;
use crate::finding::in_instance;
use crate::texts::write_broken;
use instance_file::{Instance, InstanceLog};
use repl_disk::Disk;
use std::alloc::Global;

/// Opens the instance file for calls, and appends the CUT to so many entries that draws the next generation.
fn cut<D: Disk>(
    alloc: Global,
    disk: &mut D,
    log: InstanceLog,
    length: u64,
    next: u32,
) -> Result<Instance, FilesError>
    requires form { (last : ℕ → ℕ) × MayBeOpened log.records last }
    requires next { next ≡ suc (generation log.records) }
    requires length { length < NUMBERS_END }
    requires stands { IfSome (D.disk disk.old).content (λ files. IsInstance (files INSTANCE) log.records) }
    requires durable { IfSome (D.disk disk.old).content (λ files. IsDurable (D.disk disk.old) INSTANCE (files INSTANCE)) }
    ensures ready { IfOk result (λ made. instances.IsReady (D.disk disk.new) made) }
    ensures records { IfOk result (λ made. made.records ≡ log.records ++ next_cut log.records length ∷ []) }
    ensures state { IfOk result (λ made. IfSome (D.disk disk.old).content (λ _. instances.HasRecords (D.disk disk.new) made (log.records ++ next_cut log.records length ∷ []))) }
    ensures any_moment { IfSome (D.disk disk.old).content (λ _. AtEachMoment (D.disk disk.old) (D.disk disk.new) (OnlyOn (D.disk disk.old) INSTANCE (instances.StandsWith log.records (next_cut log.records length)))) }
    ensures frame { OthersStay (Only INSTANCE) (D.disk disk.old) (D.disk disk.new) }
    ensures faults { MayFail (D.disk disk.old).faults (D.disk disk.new).faults (λ fault. IsErrOf result (FilesError.Failed fault)) }
    ensures outside { (file offset : ℕ) → IsErrOf result (FilesError.NotAFile file offset) → IfSome (D.disk disk.old).content (λ _. ⊥) }
    ensures causes { OnErr result (((fault : ℕ) × IsErrOf result (FilesError.Failed fault)) ⊎ ((file : ℕ) × (offset : ℕ) × IsErrOf result (FilesError.NotAFile file offset)) ⊎ IsErrOf result FilesError.NoMemory) }
{
    let mut instance = match Instance::open(alloc, disk, log) {
        Ok(instance) => instance,
        Err(error) => return Err(in_instance(error, disk.faults())),
    };
    match instance.cut(disk, length, next) {
        Ok(()) => Ok(instance),
        Err(error) => Err(in_instance(error, disk.faults())),
    }
}

/// Cuts the sequence of a site that was read off behind so many entries: writes the text of what is broken, where there is one, and
/// appends the CUT that draws the next generation. That begins in no region.
///
/// The text is written and synced before the CUT.
pub fn cut_off<D: Disk>(
    alloc: Global,
    disk: &mut D,
    log: InstanceLog,
    count: u64,
    broken: &[u8],
) -> Result<Instance, FilesError>
    requires form { (last : ℕ → ℕ) × MayBeOpened log.records last }
    requires count { count < NUMBERS_END }
    requires read { IfSome (D.disk disk.old).content (λ files. (last : ℕ → ℕ) × (journal : ℕ → List Placed) × WasRead (D.disk disk.old) log.records last journal files) }
    ensures ready { IfOk result (λ made. instances.IsReady (D.disk disk.new) made) }
    ensures records { IfOk result (λ made. made.records ≡ log.records ++ next_cut log.records count ∷ []) }
    ensures instance_file { IfOk result (λ made. IfSome (D.disk disk.old).content (λ _. instances.HasRecords (D.disk disk.new) made (log.records ++ next_cut log.records count ∷ []))) }
    ensures drawn { OnOk result (IfSome (D.disk disk.old).content (λ files. length (files (next_broken log.records)) ≤ length broken.now → (f : Files) → Image (D.disk disk.new) f → From (Image (D.disk disk.old)) (HasCut log.records count broken.now) f)) }
    ensures drawn_reads { OnOk result (IfSome (D.disk disk.old).content (λ files. length (files (next_broken log.records)) ≤ length broken.now → IfSome (D.disk disk.new).content (HasCut log.records count broken.now files))) }
    ensures any_moment { IfSome (D.disk disk.old).content (λ files. length (files (next_broken log.records)) ≤ length broken.now → AtEachMoment (D.disk disk.old) (D.disk disk.new) (From (Image (D.disk disk.old)) (MayCutOff log.records count broken.now))) }
    ensures reads { IfSome (D.disk disk.old).content (λ files. length (files (next_broken log.records)) ≤ length broken.now → IfSome (D.disk disk.new).content (MayCutOff log.records count broken.now files)) }
    ensures frame { OthersStay (AreCut log.records) (D.disk disk.old) (D.disk disk.new) }
    ensures faults { MayFail (D.disk disk.old).faults (D.disk disk.new).faults (λ fault. IsErrOf result (FilesError.Failed fault)) }
    ensures outside { (file offset : ℕ) → IsErrOf result (FilesError.NotAFile file offset) → IfSome (D.disk disk.old).content (λ _. ⊥) }
    ensures causes { OnErr result (((fault : ℕ) × IsErrOf result (FilesError.Failed fault)) ⊎ ((file : ℕ) × (offset : ℕ) × IsErrOf result (FilesError.NotAFile file offset)) ⊎ IsErrOf result FilesError.NoMemory) }
{
    let next = log.records.generation() + 1;
    write_broken(disk, next, broken)?;
    cut(alloc, disk, log, count, next)
}

/// Appends the CUT to so many entries that draws the next generation to an open instance file.
pub fn cut_open<D: Disk>(
    disk: &mut D,
    mut instance: Instance,
    count: u64,
) -> Result<Instance, FilesError>
    requires ready { instances.IsReady (D.disk disk.old) instance }
    requires form { (last : ℕ → ℕ) × MayBeOpened instance.records last }
    requires count { count < NUMBERS_END }
    requires unbegun { IfSome (D.disk disk.old).content (λ _. (f : Files) → Image (D.disk disk.old) f → AreUnbegun (suc (generation instance.records)) (length (regions instance.records)) f) }
    ensures ready { IfOk result (λ made. instances.IsReady (D.disk disk.new) made) }
    ensures records { IfOk result (λ made. made.records ≡ instance.records ++ next_cut instance.records count ∷ []) }
    ensures instance_file { IfOk result (λ made. IfSome (D.disk disk.old).content (λ _. instances.HasRecords (D.disk disk.new) made (instance.records ++ next_cut instance.records count ∷ []))) }
    ensures drawn { OnOk result (IfSome (D.disk disk.old).content (λ _. (f : Files) → Image (D.disk disk.new) f → From (Image (D.disk disk.old)) (HasCut instance.records count []) f)) }
    ensures drawn_reads { OnOk result (IfSome (D.disk disk.old).content (λ files. IfSome (D.disk disk.new).content (HasCut instance.records count [] files))) }
    ensures any_moment { IfSome (D.disk disk.old).content (λ _. AtEachMoment (D.disk disk.old) (D.disk disk.new) (From (Image (D.disk disk.old)) (MayCutOff instance.records count []))) }
    ensures reads { IfSome (D.disk disk.old).content (λ files. IfSome (D.disk disk.new).content (MayCutOff instance.records count [] files)) }
    ensures frame { OthersStay (Only INSTANCE) (D.disk disk.old) (D.disk disk.new) }
    ensures faults { MayFail (D.disk disk.old).faults (D.disk disk.new).faults (λ fault. IsErrOf result (FilesError.Failed fault)) }
    ensures causes { OnErr result (((fault : ℕ) × IsErrOf result (FilesError.Failed fault)) ⊎ IsErrOf result FilesError.NoMemory) }
{
    let next = instance.records.generation() + 1;
    match instance.cut(disk, count, next) {
        Ok(()) => Ok(instance),
        Err(error) => Err(in_instance(error, disk.faults())),
    }
}
