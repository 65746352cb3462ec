//! Setting the mode of a region.
ghost use Rattle.std.specs.Prelude.{◌≡◌, ◌⊎◌, ◌≤◌, ◌<◌, ◌++◌, ◌∷◌, [], ℕ, length, IfSome, OnOk, OnErr, IsErrOf, IsSome};
ghost use Rattle.global_defs.specs.declared.limits.TheConstants.{MOST_REGIONS};
ghost use Rattle.disk_defs.specs.Disk.{Files, Image, IsDurable, AtEachMoment, MayFail};
ghost use Rattle.disk_defs.specs.Frames.{Only, OnlyOn, OthersStay};
ghost use Rattle.instance_file.specs.Instance.{StandsWith};
ghost use Rattle.journal_defs.specs.Instance as defs;
ghost use Rattle.journal_defs.specs.Instance.{regions};
ghost use Rattle.journal_defs.specs.Numbers.{INSTANCE};
ghost use Rattle.journal_defs.specs.Stands.{IsInstance};
ghost use Rattle.site_defs.specs.Contents.{Contents, Leftover};
ghost use Rattle.site_defs.specs.Opening.{with_mode};
ghost use Rattle.site_defs.specs.Outside.{IsNoInstance};
ghost use Rattle.site_defs.specs.Stands.{IsSite, HasLeft};
ghost use Rattle.mupip_rollback.specs.Setting.{MayHaveMode, MayBeSet, MayBeSetWith, IsSetIn, StillNoneNeeds, HasNoRegion};

use super::error::{RollError, in_files};
use instance_file::{Instance, InstanceLog};
use repl_disk::Disk;
use site_files::{in_instance, read_instance};
use std::alloc::Global;

/// Opens the instance file that was read, and appends the MODE.
fn append_mode<D: Disk>(
    alloc: Global,
    disk: &mut D,
    log: InstanceLog,
    region: u8,
    before: bool,
) -> Result<(), RollError>
    requires region { region < length (regions log.records) }
    requires few { region < MOST_REGIONS }
    requires stands { IfSome (D.disk disk.old).content (λ files. IsInstance (files INSTANCE) log.records) }
    requires durable { IfSome (D.disk disk.old).content (λ files. IsDurable (D.disk disk.old) INSTANCE (files INSTANCE)) }
    ensures reads { OnOk result (IfSome (D.disk disk.old).content (λ _. IfSome (D.disk disk.new).content (λ now. IsInstance (now INSTANCE) (log.records ++ defs.Mode region before ∷ [])))) }
    ensures images { OnOk result (IfSome (D.disk disk.old).content (λ _. (f : Files) → Image (D.disk disk.new) f → IsInstance (f INSTANCE) (log.records ++ defs.Mode region before ∷ []))) }
    ensures any_moment { IfSome (D.disk disk.old).content (λ _. AtEachMoment (D.disk disk.old) (D.disk disk.new) (OnlyOn (D.disk disk.old) INSTANCE (StandsWith log.records (defs.Mode region before)))) }
    ensures frame { OthersStay (Only INSTANCE) (D.disk disk.old) (D.disk disk.new) }
    ensures faults { MayFail (D.disk disk.old).faults (D.disk disk.new).faults (λ fault. IsErrOf result (RollError.Failed fault)) }
    ensures outside { (file offset : ℕ) → IsErrOf result (RollError.NotAFile file offset) → IfSome (D.disk disk.old).content (λ _. ⊥) }
    ensures causes { OnErr result (((fault : ℕ) × IsErrOf result (RollError.Failed fault)) ⊎ ((file : ℕ) × (offset : ℕ) × IsErrOf result (RollError.NotAFile file offset)) ⊎ IsErrOf result RollError.NoMemory) }
{
    let mut instance = match Instance::open(alloc, disk, log) {
        Ok(instance) => instance,
        Err(error) => return Err(in_files(in_instance(error, disk.faults()))),
    };
    match instance.mode(disk, region, before) {
        Ok(()) => Ok(()),
        Err(error) => Err(in_files(in_instance(error, disk.faults()))),
    }
}

/// Sets the mode of a region of the site that stands on a disk, for each generation that begins from now on: whether its blocks are kept
/// as they were before they change. What lies behind the site's entries stays.
///
/// # Errors
/// `NotAFile` where the instance file is outside the format, with the place of what can't stand there, or with offset 0 where no site with
/// such a region stands there; nothing was written then. `Failed` only where the disk's count rose; a crash may then find the mode all the
/// same. `NoMemory`.
pub fn set_mode<D: Disk>(
    alloc: Global,
    disk: &mut D,
    region: u8,
    before: bool,
) -> Result<(), RollError>
    requires site { IfSome (D.disk disk.old).content (λ files. (c : Contents) → IsSite files c → region < length (regions c.instance)) }
    ensures reads { OnOk result (IfSome (D.disk disk.old).content (λ files. (c : Contents) (left : Leftover) → IsSite files c → HasLeft files c left → IfSome (D.disk disk.new).content (λ now. IsSite now (with_mode region before c) × HasLeft now (with_mode region before c) left × StillNoneNeeds files now))) }
    // with what was broken in its own image
    ensures images { OnOk result (IfSome (D.disk disk.old).content (λ files. (c : Contents) → IsSite files c → (f : Files) → Image (D.disk disk.new) f → IsSetIn (D.disk disk.old) region before f)) }
    ensures place { (file offset : ℕ) → IsErrOf result (RollError.NotAFile file offset) → IfSome (D.disk disk.old).content (λ files. IsNoInstance files file offset ⊎ HasNoRegion files region file offset) }
    ensures outside { (file offset : ℕ) → IsErrOf result (RollError.NotAFile file offset) → IfSome (D.disk disk.old).content (λ files. (c : Contents) → IsSite files c → ⊥) }
    ensures any_moment { IfSome (D.disk disk.old).content (λ files. (c : Contents) → IsSite files c → AtEachMoment (D.disk disk.old) (D.disk disk.new) (MayBeSet (D.disk disk.old) region before)) }
    // each with what was broken in its own image
    ensures left { IfSome (D.disk disk.old).content (λ files. (c : Contents) → IsSite files c → AtEachMoment (D.disk disk.old) (D.disk disk.new) (MayBeSetWith (D.disk disk.old) region before)) }
    ensures stands { IfSome (D.disk disk.old).content (λ files. (c : Contents) (left : Leftover) → IsSite files c → HasLeft files c left → IfSome (D.disk disk.new).content (λ now. (o : Contents) × MayHaveMode region before c o × IsSite now o × HasLeft now o left)) }
    ensures still_told { IsSome (D.disk disk.old).content → IsSome (D.disk disk.new).content }
    ensures simulated { (D.disk disk.new).simulated ≡ (D.disk disk.old).simulated }
    ensures faults { MayFail (D.disk disk.old).faults (D.disk disk.new).faults (λ fault. IsErrOf result (RollError.Failed fault)) }
    ensures causes { OnErr result (((fault : ℕ) × IsErrOf result (RollError.Failed fault)) ⊎ ((file : ℕ) × (offset : ℕ) × IsErrOf result (RollError.NotAFile file offset)) ⊎ IsErrOf result RollError.NoMemory) }
{
    let log = match read_instance(alloc, disk) {
        Ok(log) => log,
        Err(error) => return Err(in_files(error)),
    };
    let has_region = usize::from(region) < log.records.region_count();
    if !has_region {
        return Err(RollError::NotAFile { file: 0, offset: 0 });
    }
    append_mode(alloc, disk, log, region, before)
}

/// Sets the mode of a region of a site whose records were read right before, as [`set_mode`] does. It goes from gate to gate of the
/// instance file, and reads no record again.
///
/// # Errors
/// `Failed` only where the disk's count rose; a crash may then find the mode all the same. `NotAFile` only where the disk doesn't tell its
/// files. `NoMemory`.
pub fn set_mode_logged<D: Disk>(
    alloc: Global,
    disk: &mut D,
    log: InstanceLog,
    region: u8,
    before: bool,
) -> Result<(), RollError>
    requires region { region < length (regions log.records) }
    requires few { length (regions log.records) ≤ MOST_REGIONS }
    requires told { IfSome (D.disk disk.old).content (λ files. IsInstance (files INSTANCE) log.records) }
    requires durable { IfSome (D.disk disk.old).content (λ files. IsDurable (D.disk disk.old) INSTANCE (files INSTANCE)) }
    ensures reads { OnOk result (IfSome (D.disk disk.old).content (λ files. (c : Contents) (left : Leftover) → IsSite files c → HasLeft files c left → IfSome (D.disk disk.new).content (λ now. IsSite now (with_mode region before c) × HasLeft now (with_mode region before c) left × StillNoneNeeds files now))) }
    // with what was broken in its own image
    ensures images { OnOk result (IfSome (D.disk disk.old).content (λ files. (c : Contents) → IsSite files c → (f : Files) → Image (D.disk disk.new) f → IsSetIn (D.disk disk.old) region before f)) }
    ensures outside { (file offset : ℕ) → IsErrOf result (RollError.NotAFile file offset) → IfSome (D.disk disk.old).content (λ _. ⊥) }
    ensures any_moment { IfSome (D.disk disk.old).content (λ files. (c : Contents) → IsSite files c → AtEachMoment (D.disk disk.old) (D.disk disk.new) (MayBeSet (D.disk disk.old) region before)) }
    // each with what was broken in its own image
    ensures left { IfSome (D.disk disk.old).content (λ files. (c : Contents) → IsSite files c → AtEachMoment (D.disk disk.old) (D.disk disk.new) (MayBeSetWith (D.disk disk.old) region before)) }
    ensures stands { IfSome (D.disk disk.old).content (λ files. (c : Contents) (left : Leftover) → IsSite files c → HasLeft files c left → IfSome (D.disk disk.new).content (λ now. (o : Contents) × MayHaveMode region before c o × IsSite now o × HasLeft now o left)) }
    ensures still_told { IsSome (D.disk disk.old).content → IsSome (D.disk disk.new).content }
    ensures simulated { (D.disk disk.new).simulated ≡ (D.disk disk.old).simulated }
    ensures faults { MayFail (D.disk disk.old).faults (D.disk disk.new).faults (λ fault. IsErrOf result (RollError.Failed fault)) }
    ensures causes { OnErr result (((fault : ℕ) × IsErrOf result (RollError.Failed fault)) ⊎ ((file : ℕ) × (offset : ℕ) × IsErrOf result (RollError.NotAFile file offset)) ⊎ IsErrOf result RollError.NoMemory) }
{
    append_mode(alloc, disk, log, region, before)
}
