//! Finding what stands on a disk.
ghost use Rattle.std.specs.Prelude.{◌≡◌, ◌⊎◌, ℕ, List, [], Some, None, IfOk, IfSome, OnOk, IsErrOf, IsSome};
ghost use Rattle.disk_defs.specs.Disk.{Files, Image, AtEachMoment, MayFail};
ghost use Rattle.disk_defs.specs.Gates.{records};
ghost use Rattle.journal_defs.specs.Numbers.{INSTANCE};
ghost use Rattle.journal_defs.specs.Instance as instances;
ghost use Rattle.journal_defs.specs.Stands.{IsInstance};
ghost use Rattle.site_defs.specs.Contents.{Contents};
ghost use Rattle.site_defs.specs.Stands.{Stands};
ghost use Rattle.site_defs.specs.Outside.{IsNoInstance, HasNoDirectory};
ghost use Rattle.site_store.specs.Finding.{IsFound, IsLaidOut};
ghost use Rattle.site_making.specs.Finding.{IsFoundIn, StandsAsBefore, layout_in};

use instance_file::InstanceLog;
use repl_disk::Disk;
use site_files::read_instance;
use site_store::{Layout, SiteError, layout_of};
use std::alloc::Global;

/// A site that was found on a disk, with the records that told of it.
#[derive(Drop)]
pub struct FoundSite {
    /// What the records say of the site.
    pub layout: Layout,
    /// The records.
    pub log: InstanceLog,
}

/// The site that stands on a disk, if one does, with its instance file's records. It syncs the instance file first.
///
/// # Errors
/// `NotAFile` where the instance file is outside the format, with the place of what can't stand there, or its records are no site's, with
/// offset 0; `Failed` only where the disk's count rose; and `NoMemory`.
pub fn find<D: Disk>(alloc: Global, disk: &mut D) -> Result<Option<FoundSite>, SiteError>
    ensures found { IfOk result (λ found. IfSome (D.disk disk.old).content (λ files. (c : Contents) → Stands files c → IsFound c (layout_in found))) }
    ensures told { IfOk result (λ found. IfSome found (IsFoundIn (D.disk disk.new))) }
    // whether the files are a site's or not
    ensures exact { IfOk result (λ found. IfSome (D.disk disk.old).content (λ files. (rs : List instances.InstanceRecord) → IsInstance (files INSTANCE) rs → IsLaidOut rs (layout_in found))) }
    ensures holds { IfOk result (λ found. IfSome (D.disk disk.old).content (λ files. (rs : List instances.InstanceRecord) × IsInstance (files INSTANCE) rs × IsLaidOut rs (layout_in found))) }
    ensures content { (D.disk disk.new).content ≡ (D.disk disk.old).content }
    ensures alike { OnOk result (IfSome (D.disk disk.old).content (λ files. (c o : Contents) (f : Files) → Stands files c → Image (D.disk disk.new) f → Stands f o → o.instance ≡ c.instance)) }
    ensures empty { result ≡ Ok None → IfSome (D.disk disk.new).content (λ files. records (files INSTANCE) ≡ Some []) }
    ensures place { (file offset : ℕ) → IsErrOf result (SiteError.NotAFile file offset) → IfSome (D.disk disk.old).content (λ files. IsNoInstance files file offset ⊎ HasNoDirectory files file offset) }
    // where the instance file has no open record, none is outside
    ensures written { (file offset : ℕ) → IsErrOf result (SiteError.NotAFile file offset) → IfSome (D.disk disk.old).content (λ files. records (files INSTANCE) ≡ Some [] → ⊥) }
    ensures outside { (file : ℕ) (offset : ℕ) → IsErrOf result (SiteError.NotAFile file offset) → IfSome (D.disk disk.old).content (λ files. (c : Contents) → Stands files c → ⊥) }
    ensures any_moment { IfSome (D.disk disk.old).content (λ _. AtEachMoment (D.disk disk.old) (D.disk disk.new) (StandsAsBefore (D.disk disk.old))) }
    // no image is new, so what lies behind is what lay behind
    ensures untouched { AtEachMoment (D.disk disk.old) (D.disk disk.new) (Image (D.disk disk.old)) }
    ensures still_told { IsSome (D.disk disk.old).content → IsSome (D.disk disk.new).content }
    ensures simulated { (D.disk disk.new).simulated ≡ (D.disk disk.old).simulated }
    ensures faults { MayFail (D.disk disk.old).faults (D.disk disk.new).faults (λ fault. IsErrOf result (SiteError.Failed fault)) }
    ensures no_stop { (fault : ℕ) → IsErrOf result (SiteError.Stopped fault) → ⊥ }
{
    let log = read_instance(alloc, disk)?;
    let Some(layout) = layout_of(alloc, &log.records)? else {
        return Ok(None);
    };
    Ok(Some(FoundSite { layout, log }))
}

/// What site stands on a disk, if one does. It syncs the instance file first.
///
/// # Errors
/// `NotAFile` where the instance file is outside the format, with the place of what can't stand there, or its records are no site's, with
/// offset 0; `Failed` only where the disk's count rose; and `NoMemory`.
pub fn inspect<D: Disk>(alloc: Global, disk: &mut D) -> Result<Option<Layout>, SiteError>
    ensures found { IfOk result (λ found. IfSome (D.disk disk.old).content (λ files. (c : Contents) → Stands files c → IsFound c found)) }
    // whether the files are a site's or not
    ensures exact { IfOk result (λ found. IfSome (D.disk disk.old).content (λ files. (rs : List instances.InstanceRecord) → IsInstance (files INSTANCE) rs → IsLaidOut rs found)) }
    ensures holds { IfOk result (λ found. IfSome (D.disk disk.old).content (λ files. (rs : List instances.InstanceRecord) × IsInstance (files INSTANCE) rs × IsLaidOut rs found)) }
    ensures content { (D.disk disk.new).content ≡ (D.disk disk.old).content }
    ensures alike { OnOk result (IfSome (D.disk disk.old).content (λ files. (c o : Contents) (f : Files) → Stands files c → Image (D.disk disk.new) f → Stands f o → o.instance ≡ c.instance)) }
    ensures empty { result ≡ Ok None → IfSome (D.disk disk.new).content (λ files. records (files INSTANCE) ≡ Some []) }
    ensures place { (file offset : ℕ) → IsErrOf result (SiteError.NotAFile file offset) → IfSome (D.disk disk.old).content (λ files. IsNoInstance files file offset ⊎ HasNoDirectory files file offset) }
    // where the instance file has no open record, none is outside
    ensures written { (file offset : ℕ) → IsErrOf result (SiteError.NotAFile file offset) → IfSome (D.disk disk.old).content (λ files. records (files INSTANCE) ≡ Some [] → ⊥) }
    ensures outside { (file : ℕ) (offset : ℕ) → IsErrOf result (SiteError.NotAFile file offset) → IfSome (D.disk disk.old).content (λ files. (c : Contents) → Stands files c → ⊥) }
    ensures any_moment { IfSome (D.disk disk.old).content (λ _. AtEachMoment (D.disk disk.old) (D.disk disk.new) (StandsAsBefore (D.disk disk.old))) }
    // no image is new, so what lies behind is what lay behind
    ensures untouched { AtEachMoment (D.disk disk.old) (D.disk disk.new) (Image (D.disk disk.old)) }
    ensures still_told { IsSome (D.disk disk.old).content → IsSome (D.disk disk.new).content }
    ensures simulated { (D.disk disk.new).simulated ≡ (D.disk disk.old).simulated }
    ensures faults { MayFail (D.disk disk.old).faults (D.disk disk.new).faults (λ fault. IsErrOf result (SiteError.Failed fault)) }
    ensures no_stop { (fault : ℕ) → IsErrOf result (SiteError.Stopped fault) → ⊥ }
{
    match find(alloc, disk)? {
        Some(found) => Ok(Some(found.layout)),
        None => Ok(None),
    }
}
