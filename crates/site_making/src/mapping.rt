//! Mapping names to the regions of a site.
ghost use Rattle.std.specs.Prelude.{◌≡◌, ◌⊎◌, ◌↔◌, ◌≤◌, ◌<◌, ◌++◌, ◌∷◌, [], ℕ, true, length, IfSome, OnOk, OnErr, IsErrOf, IsSome, IsTrue};
ghost use Rattle.global_defs.specs.declared.limits.TheConstants.{MOST_REGIONS};
ghost use Rattle.disk_defs.specs.Disk.{Files, Image, IsDurable, AtEachMoment, MayFail};
ghost use Rattle.disk_defs.specs.Frames.{Only, OnlyOn, OthersStay};
ghost use Rattle.global_defs.specs.Pattern.{is_pattern};
ghost use Rattle.instance_file.specs.Instance.{StandsWith};
ghost use Rattle.journal_defs.specs.Numbers.{INSTANCE};
ghost use Rattle.journal_defs.specs.Instance.{IsInForm, generation, regions, pattern_record};
ghost use Rattle.journal_defs.specs.Stands.{IsInstance};
ghost use Rattle.site_defs.specs.Contents.{Contents};
ghost use Rattle.site_defs.specs.Opening.{with_pattern};
ghost use Rattle.site_defs.specs.Stands.{IsSite};
ghost use Rattle.site_defs.specs.Outside.{IsNoInstance};
ghost use Rattle.site_store.specs.Opening.{EachStands};
ghost use Rattle.site_making.specs.Mapping.{MayHavePattern, TakesNoPattern};

use instance_file::{Instance, InstanceLog, InstanceRecords};
use repl_disk::Disk;
use site_files::read_instance;
use site_store::{SiteError, in_instance};
use std::alloc::Global;

/// Whether these records are those of a site with such a region, of which no generation was drawn.
fn may_map(records: &InstanceRecords, region: u8) -> bool
    ensures { IsTrue result ↔ (region < length (regions records.now)) × (generation records.now ≡ 0) }
{
    usize::from(region) < records.region_count() && records.generation() == 0
}

/// Opens the instance file that was read, and appends the MAP.
fn append_pattern<D: Disk>(
    alloc: Global,
    disk: &mut D,
    log: InstanceLog,
    region: u8,
    pattern: &[u8],
) -> Result<(), SiteError>
    requires region { region < length (regions log.records) }
    requires form { IsInForm (pattern_record region pattern.now) }
    requires stands { IfSome (D.disk disk.old).content (λ files. IsInstance (files INSTANCE) log.records) }
    requires durable { IfSome (D.disk disk.old).content (λ files. IsDurable (D.disk disk.old) INSTANCE (files INSTANCE)) }
    ensures reads { OnOk result (IfSome (D.disk disk.old).content (λ _. IfSome (D.disk disk.new).content (λ now. IsInstance (now INSTANCE) (log.records ++ pattern_record region pattern.now ∷ [])))) }
    ensures images { OnOk result (IfSome (D.disk disk.old).content (λ _. (f : Files) → Image (D.disk disk.new) f → IsInstance (f INSTANCE) (log.records ++ pattern_record region pattern.now ∷ []))) }
    ensures any_moment { IfSome (D.disk disk.old).content (λ _. AtEachMoment (D.disk disk.old) (D.disk disk.new) (OnlyOn (D.disk disk.old) INSTANCE (StandsWith log.records (pattern_record region pattern.now)))) }
    ensures frame { OthersStay (Only INSTANCE) (D.disk disk.old) (D.disk disk.new) }
    ensures faults { MayFail (D.disk disk.old).faults (D.disk disk.new).faults (λ fault. IsErrOf result (SiteError.Failed fault)) }
    ensures outside { (file offset : ℕ) → IsErrOf result (SiteError.NotAFile file offset) → IfSome (D.disk disk.old).content (λ _. ⊥) }
    ensures causes { OnErr result (((fault : ℕ) × IsErrOf result (SiteError.Failed fault)) ⊎ ((file : ℕ) × (offset : ℕ) × IsErrOf result (SiteError.NotAFile file offset)) ⊎ IsErrOf result SiteError.NoMemory) }
{
    let mut instance = match Instance::open(alloc, disk, log) {
        Ok(instance) => instance,
        Err(error) => return Err(in_instance(error, disk.faults())),
    };
    match instance.map(disk, region, pattern) {
        Ok(()) => Ok(()),
        Err(error) => Err(in_instance(error, disk.faults())),
    }
}

/// Maps a pattern, as it is written, to a region of the site that stands on a disk, of which no generation was drawn yet.
///
/// # Errors
/// `NotAFile` where the instance file is outside the format, with the place of what can't stand there, or with offset 0 where no site with
/// such a region stands there, or a generation of its journals was drawn. `Failed` only where the disk's count rose; a crash may then find the
/// pattern all the same. `NoMemory`.
pub fn map<D: Disk>(
    alloc: Global,
    disk: &mut D,
    region: u8,
    pattern: &[u8],
) -> Result<(), SiteError>
    requires form { is_pattern pattern.now ≡ true }
    requires site { IfSome (D.disk disk.old).content (λ files. (c : Contents) → IsSite files c → (generation c.instance ≡ 0) × (region < length (regions c.instance))) }
    ensures reads { OnOk result (IfSome (D.disk disk.old).content (λ files. (c : Contents) → IsSite files c → IfSome (D.disk disk.new).content (λ now. IsSite now (with_pattern region pattern.now c)))) }
    ensures images { OnOk result (IfSome (D.disk disk.old).content (λ files. (c : Contents) → IsSite files c → EachStands (D.disk disk.old) → (f : Files) → Image (D.disk disk.new) f → IsSite f (with_pattern region pattern.now c))) }
    ensures place { (file offset : ℕ) → IsErrOf result (SiteError.NotAFile file offset) → IfSome (D.disk disk.old).content (λ files. IsNoInstance files file offset ⊎ TakesNoPattern files region file offset) }
    ensures outside { (file offset : ℕ) → IsErrOf result (SiteError.NotAFile file offset) → IfSome (D.disk disk.old).content (λ files. (c : Contents) → IsSite files c → ⊥) }
    ensures any_moment { IfSome (D.disk disk.old).content (λ files. (c : Contents) → IsSite files c → AtEachMoment (D.disk disk.old) (D.disk disk.new) (MayHavePattern (D.disk disk.old) region pattern.now)) }
    ensures stands { IfSome (D.disk disk.old).content (λ files. (c : Contents) → IsSite files c → IfSome (D.disk disk.new).content (λ now. IsSite now c ⊎ IsSite now (with_pattern region pattern.now c))) }
    ensures still_told { IsSome (D.disk disk.old).content → IsSome (D.disk disk.new).content }
    ensures simulated { (D.disk disk.new).simulated ≡ (D.disk disk.old).simulated }
    ensures faults { MayFail (D.disk disk.old).faults (D.disk disk.new).faults (λ fault. IsErrOf result (SiteError.Failed fault)) }
    ensures causes { OnErr result (((fault : ℕ) × IsErrOf result (SiteError.Failed fault)) ⊎ ((file : ℕ) × (offset : ℕ) × IsErrOf result (SiteError.NotAFile file offset)) ⊎ IsErrOf result SiteError.NoMemory) }
{
    let log = read_instance(alloc, disk)?;
    if !may_map(&log.records, region) {
        return Err(SiteError::NotAFile { file: 0, offset: 0 });
    }
    append_pattern(alloc, disk, log, region, pattern)
}

/// Maps a pattern, as it is written, to a region of a site of which no generation was drawn yet, and whose records were read right before.
/// It goes from gate to gate of the instance file, and reads no record again.
///
/// # Errors
/// `Failed` only where the disk's count rose; a crash may then find the pattern all the same. `NotAFile` only where the disk doesn't tell its
/// files. `NoMemory`.
pub fn map_logged<D: Disk>(
    alloc: Global,
    disk: &mut D,
    log: InstanceLog,
    region: u8,
    pattern: &[u8],
) -> Result<(), SiteError>
    requires form { is_pattern pattern.now ≡ true }
    requires region { region < length (regions log.records) }
    requires few { length (regions log.records) ≤ MOST_REGIONS }
    requires undrawn { generation log.records ≡ 0 }
    requires told { IfSome (D.disk disk.old).content (λ files. IsInstance (files INSTANCE) log.records) }
    requires durable { IfSome (D.disk disk.old).content (λ files. IsDurable (D.disk disk.old) INSTANCE (files INSTANCE)) }
    ensures reads { OnOk result (IfSome (D.disk disk.old).content (λ files. (c : Contents) → IsSite files c → IfSome (D.disk disk.new).content (λ now. IsSite now (with_pattern region pattern.now c)))) }
    ensures images { OnOk result (IfSome (D.disk disk.old).content (λ files. (c : Contents) → IsSite files c → EachStands (D.disk disk.old) → (f : Files) → Image (D.disk disk.new) f → IsSite f (with_pattern region pattern.now c))) }
    ensures outside { (file offset : ℕ) → IsErrOf result (SiteError.NotAFile file offset) → IfSome (D.disk disk.old).content (λ _. ⊥) }
    ensures any_moment { IfSome (D.disk disk.old).content (λ files. (c : Contents) → IsSite files c → AtEachMoment (D.disk disk.old) (D.disk disk.new) (MayHavePattern (D.disk disk.old) region pattern.now)) }
    ensures stands { IfSome (D.disk disk.old).content (λ files. (c : Contents) → IsSite files c → IfSome (D.disk disk.new).content (λ now. IsSite now c ⊎ IsSite now (with_pattern region pattern.now c))) }
    ensures still_told { IsSome (D.disk disk.old).content → IsSome (D.disk disk.new).content }
    ensures simulated { (D.disk disk.new).simulated ≡ (D.disk disk.old).simulated }
    ensures faults { MayFail (D.disk disk.old).faults (D.disk disk.new).faults (λ fault. IsErrOf result (SiteError.Failed fault)) }
    ensures causes { OnErr result (((fault : ℕ) × IsErrOf result (SiteError.Failed fault)) ⊎ ((file : ℕ) × (offset : ℕ) × IsErrOf result (SiteError.NotAFile file offset)) ⊎ IsErrOf result SiteError.NoMemory) }
{
    append_pattern(alloc, disk, log, region, pattern)
}
