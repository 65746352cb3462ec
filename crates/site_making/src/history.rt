//! The history of a site that isn't open.
ghost use Rattle.std.specs.Prelude.{◌≡◌, ◌⊎◌, ℕ, IfOk, IfSome, OnErr, IsErrOf};
ghost use Rattle.disk_defs.specs.Disk.{Image, AtEachMoment, MayFail};
ghost use Rattle.global_defs.specs.Entry.{Sequence};
ghost use Rattle.journal_defs.specs.Sequence.{Records, IsSequence};
ghost use Rattle.journal_defs.specs.Stands.{AreRecords};
ghost use Rattle.site_defs.specs.Contents.{Contents};
ghost use Rattle.site_defs.specs.Stands.{IsSite};
ghost use Rattle.site_defs.specs.Outside.{IsOutsideRecords};
ghost use Rattle.site_making.specs.Finding.{IsHistory, IsHistoryOf};

use gvn_model::History;
use repl_disk::Disk;
use site_files::{ReadEntries, read_records};
use site_store::SiteError;
use std::alloc::Global;

/// The history of the site that stands on a disk: how long the sequence is that its files stand for as they read, and the reigns in
/// which its entries were made. It syncs the files first, and writes nothing. It takes a site of any number of generations.
///
/// # Errors
/// `NotAFile` with the first file that is outside the formats and the place of what can't stand there, or with file 0 and offset 0
/// where no site stands there. `Failed` only where the disk's count rose. `NoMemory`.
pub fn history_of<D: Disk>(alloc: Global, disk: &mut D) -> Result<History, SiteError>
    ensures history { IfOk result (λ h. IfSome (D.disk disk.old).content (λ files. (c : Contents) → IsSite files c → IsHistoryOf c h)) }
    // whether the files are a fit site's or not
    ensures told { IfOk result (λ h. IfSome (D.disk disk.old).content (λ files. (s : Records) (seq : Sequence) → AreRecords files s → IsSequence s seq → IsHistory s seq h)) }
    ensures place { (file offset : ℕ) → IsErrOf result (SiteError.NotAFile file offset) → IfSome (D.disk disk.old).content (λ files. IsOutsideRecords files file offset) }
    ensures outside { (file offset : ℕ) → IsErrOf result (SiteError.NotAFile file offset) → IfSome (D.disk disk.old).content (λ files. (c : Contents) → IsSite files c → ⊥) }
    ensures content { (D.disk disk.new).content ≡ (D.disk disk.old).content }
    ensures any_moment { AtEachMoment (D.disk disk.old) (D.disk disk.new) (Image (D.disk disk.old)) }
    ensures simulated { (D.disk disk.new).simulated ≡ (D.disk disk.old).simulated }
    ensures faults { MayFail (D.disk disk.old).faults (D.disk disk.new).faults (λ fault. IsErrOf result (SiteError.Failed fault)) }
    ensures causes { OnErr result (((fault : ℕ) × IsErrOf result (SiteError.Failed fault)) ⊎ ((file : ℕ) × (offset : ℕ) × IsErrOf result (SiteError.NotAFile file offset)) ⊎ IsErrOf result SiteError.NoMemory) }
{
    let found = read_records(alloc, disk, u64::MAX)?;
    let ReadEntries { read, entries } = found;
    let length = entries.len();
    let reigns = read.log.history.begun_by(length)?;
    Ok(History { length, reigns })
}
