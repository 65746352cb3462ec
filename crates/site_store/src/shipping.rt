//! An entry's bytes, as they are shipped.
ghost use Rattle.std.specs.Prelude.{◌≡◌, ◌⊎◌, ◌≤◌, ◌<◌, ◌^◌, ◌-◌, ◌++◌, ℕ, List, Bool, true, None, length, slice_get, IfSome, OnOk, OnErr, IsErrOf};
ghost use Rattle.global_defs.specs.declared.limits.TheConstants.{MOST_REGIONS};
ghost use Rattle.global_defs.specs.Entry.{Reign, Transaction, Sequence};
ghost use Rattle.global_defs.specs.Fields.{IsTransaction};
ghost use Rattle.global_defs.specs.Prefix.{IsPrefix};
ghost use Rattle.disk_defs.specs.Disk.{Reads, MayFail};
ghost use Rattle.entry_index.specs.Indexes.{Indexes};
ghost use Rattle.entry_index.specs.Found.{entry_count};
ghost use Rattle.entry_index.specs.Parts.{InFiles};
ghost use Rattle.site_defs.specs.Contents.{Contents};
ghost use Rattle.wire_defs.specs.Frames.{entry_bytes};
ghost use Rattle.site_store.specs.Following.{remembered_of};
ghost use Rattle.site_store.specs.Site.{count_of};
ghost use Rattle.site_store.specs.Owning.{disk_of, memory_of, GoesOn, HasStopped, MayBeCalled, IsOpenSite};

use crate::error::SiteError;
use crate::showing::in_index;
use crate::site::Site;
use entry_index::EntryIndex;
use gvn_key::Bytes;
use repl_disk::Disk;
use repl_wire::write_entry;

/// Adds the bytes of the entry of that number, read from its places, where there is one.
///
/// # Errors
/// `NotAFile` with the file and the place of a part, only where the files don't have there what the index says; `Failed` only where the
/// disk's count rose; `NoMemory`, after which a part of the bytes may have been added.
fn write_bytes<D: Disk>(
    disk: &mut D,
    entries: &EntryIndex,
    number: u64,
    out: &mut Bytes,
) -> Result<(), SiteError>
    requires first { 1 ≤ number }
    requires regions { entries.now.regions ≤ MOST_REGIONS }
    ensures entry { OnOk result (IfSome (D.disk disk.old).content (λ files. (history : List Reign) (seq : Sequence) → Indexes (InFiles files) history entries.now seq → IfSome (slice_get seq (number - 1)) (λ e. out.new ≡ out.old ++ entry_bytes number e.transaction))) }
    // whatever the disk tells, there are the bytes of an entry
    ensures some { OnOk result (number ≤ entry_count entries.now → (t : Transaction) × IsTransaction t × (out.new ≡ out.old ++ entry_bytes number t)) }
    ensures no_entry { entry_count entries.now < number → out.new ≡ out.old }
    ensures front { OnErr result (IsPrefix out.old out.new) }
    ensures outside { (file offset : ℕ) → IsErrOf result (SiteError.NotAFile file offset) → IfSome (D.disk disk.old).content (λ files. (history : List Reign) (seq : Sequence) → Indexes (InFiles files) history entries.now seq → ⊥) }
    ensures reads { Reads (D.disk disk.old) (D.disk disk.new) }
    ensures faults { MayFail (D.disk disk.old).faults (D.disk disk.new).faults (λ fault. IsErrOf result (SiteError.Failed fault)) }
    ensures causes { OnErr result (((fault : ℕ) × IsErrOf result (SiteError.Failed fault)) ⊎ ((file : ℕ) × (offset : ℕ) × IsErrOf result (SiteError.NotAFile file offset)) ⊎ IsErrOf result SiteError.NoMemory) }
{
    match entries.transaction(out.allocator(), disk, number) {
        Ok(Some(transaction)) => Ok(write_entry(number, &transaction, out)?),
        Ok(None) => Ok(()),
        Err(error) => Err(in_index(error, disk.faults())),
    }
}

impl<D: Disk> Site<D> {
    /// Adds the bytes of the entry of that number, as a frame ships them, where it's there. It reads the entry's parts from the journals.
    ///
    /// # Errors
    /// `NotAFile` with the file and the place of a part, only where a read gave other bytes there than stood there. `Failed` only where
    /// the disk's count rose. `Stopped` exactly where a call before failed. `NoMemory`, after which a part of the bytes may have been
    /// added.
    pub fn entry_bytes(&mut self, number: u64, out: &mut Bytes) -> Result<(), SiteError>
        requires ready { MayBeCalled D.disk self.old }
        requires first { 1 ≤ number }
        ensures ready { MayBeCalled D.disk self.new }
        ensures stays_open { (told : Bool) (c : Contents) (h : ℕ) → IsOpenSite D.disk told c h self.old → self.new.fault ≡ None → IsOpenSite D.disk told c h self.new }
        // by what reads give and where the entries stand: these don't change, so that what was shown of an entry still holds
        ensures entry { OnOk result (IfSome (D.disk (disk_of self.old)).content (λ files. (history : List Reign) (seq : Sequence) → Indexes (InFiles files) history (memory_of self.old).entries seq → IfSome (slice_get seq (number - 1)) (λ e. out.new ≡ out.old ++ entry_bytes number e.transaction))) }
        ensures opened { OnOk result ((c : Contents) (h : ℕ) → IsOpenSite D.disk true c h self.old → IfSome (slice_get c.sequence (number - 1)) (λ e. out.new ≡ out.old ++ entry_bytes number e.transaction)) }
        // whatever the disk tells, there are the bytes of an entry
        ensures some { OnOk result (number ≤ count_of (memory_of self.old) → (t : Transaction) × IsTransaction t × (out.new ≡ out.old ++ entry_bytes number t)) }
        ensures no_entry { count_of (memory_of self.old) < number → out.new ≡ out.old }
        ensures front { OnErr result (IsPrefix out.old out.new) }
        ensures outside { (file offset : ℕ) → IsErrOf result (SiteError.NotAFile file offset) → (c : Contents) (h : ℕ) → IsOpenSite D.disk true c h self.old → ⊥ }
        ensures goes_on { GoesOn self.old → ((fault : ℕ) → IsErrOf result (SiteError.Failed fault) → ⊥) → GoesOn self.new }
        ensures memory { memory_of self.new ≡ memory_of self.old }
        ensures still_remembered { remembered_of self.new ≡ remembered_of self.old }
        ensures reads { Reads (D.disk (disk_of self.old)) (D.disk (disk_of self.new)) }
        ensures faults { MayFail (D.disk (disk_of self.old)).faults (D.disk (disk_of self.new)).faults (λ fault. IsErrOf result (SiteError.Failed fault)) }
        ensures causes { OnErr result (((fault : ℕ) × IsErrOf result (SiteError.Failed fault)) ⊎ ((fault : ℕ) × IsErrOf result (SiteError.Stopped fault)) ⊎ ((file : ℕ) × (offset : ℕ) × IsErrOf result (SiteError.NotAFile file offset)) ⊎ IsErrOf result SiteError.NoMemory) }
        ensures stops { (fault : ℕ) → IsErrOf result (SiteError.Failed fault) → HasStopped fault self.new }
        ensures stopped { (fault : ℕ) → HasStopped fault self.old → IsErrOf result (SiteError.Stopped fault) }
        ensures stays { (fault : ℕ) → HasStopped fault self.old → self.new ≡ self.old }
        ensures only_stopped { (fault : ℕ) → IsErrOf result (SiteError.Stopped fault) → HasStopped fault self.old }
    {
        if let Some(fault) = self.fault {
            return Err(SiteError::Stopped { fault });
        }
        match write_bytes(&mut self.disk, &self.inner.entries, number, out) {
            Ok(()) => Ok(()),
            Err(error) => {
                self.note(error);
                Err(error)
            }
        }
    }
}
