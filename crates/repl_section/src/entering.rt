//! Giving the site entries.
ghost use Rattle.std.specs.Prelude.{◌≡◌, ◌<◌, ◌+◌, ◌^◌, ℕ, Bool, true, IfOk, OnOk, IsErrOf, IsSome};
ghost use Rattle.global_defs.specs.declared.limits.TheConstants.{NUMBERS_END};
ghost use Rattle.disk_defs.specs.Disk.{Files, Image, MayFailUncounted};
ghost use Rattle.global_defs.specs.Fields.{IsTransaction};
ghost use Rattle.gvn_model.specs.Entries.{transaction_value};
ghost use Rattle.site_defs.specs.Contents.{Contents, Standing};
ghost use Rattle.site_defs.specs.Fronts.{IsFrontOf};
ghost use Rattle.site_defs.specs.Stands.{IsSite};
ghost use Rattle.site_defs.specs.Behind.{IsFrontLeft, IsSiteWith};
ghost use Rattle.site_store.specs.Site.{IsOpen, HasReign, HasRoomFor, with_entry, count_of};
ghost use Rattle.site_store.specs.Owning.{disk_of, memory_of, IsGoing};
ghost use Rattle.repl_section.specs.Reigns.{Reigns};
ghost use Rattle.repl_section.specs.Deciding.{StandsAt};
ghost use Rattle.region_store.specs.Joined.{joined};

use crate::error::DecideError;
use crate::reign::Reign;
use gvn_model::Transaction;
use repl_disk::Disk;
use site_store::SiteError;

impl<D: Disk> Reign<D> {
    /// Makes a transaction the site's next entry, which isn't hardened yet, and answers its number.
    pub(crate) fn enter(&mut self, t: Transaction) -> Result<u64, DecideError>
        requires ready { IsGoing D.disk self.old.site }
        requires reign { HasReign (memory_of self.old.site) }
        requires form { IsTransaction (transaction_value t) }
        requires room { count_of (memory_of self.old.site) + 1 < NUMBERS_END }
        requires nodes { HasRoomFor (joined (memory_of self.old.site).globals) t.updates }
        ensures ready { OnOk result (IsGoing D.disk self.new.site) }
        ensures reign { OnOk result (HasReign (memory_of self.new.site)) }
        ensures done { OnOk result ((told : Bool) (c : Contents) (h : ℕ) → IsOpen (D.disk (disk_of self.old.site)) told c h (memory_of self.old.site) → IsOpen (D.disk (disk_of self.new.site)) told (with_entry (memory_of self.old.site).stamp (transaction_value t) c) h (memory_of self.new.site)) }
        ensures number { IfOk result (λ n. n ≡ count_of (memory_of self.old.site) + 1) }
        ensures grown { OnOk result (count_of (memory_of self.new.site) ≡ count_of (memory_of self.old.site) + 1) }
        ensures stamp { (memory_of self.new.site).stamp ≡ (memory_of self.old.site).stamp }
        ensures serials { self.new.serials ≡ self.old.serials }
        ensures stands { (c : Contents) (h : ℕ) → IsOpen (D.disk (disk_of self.old.site)) true c h (memory_of self.old.site) → StandsAt (D.disk (disk_of self.new.site)) c h }
        ensures simulated { (D.disk (disk_of self.new.site)).simulated ≡ (D.disk (disk_of self.old.site)).simulated }
        ensures faults { MayFailUncounted (D.disk (disk_of self.old.site)).faults (D.disk (disk_of self.new.site)).faults (IsErrOf result DecideError.Failed) }
    {
        match self.site.commit(&t) {
            Ok(number) => Ok(number),
            Err(SiteError::Failed { .. }) => Err(DecideError::Failed),
            Err(SiteError::NoMemory) => Err(DecideError::NoMemory),
            Err(_) => unreachable!(),
        }
    }

    /// Hardens all that was entered: puts it on the disk for good. It takes no memory.
    ///
    /// # Errors
    /// `Failed` only where the disk's count rose. Of the entries that weren't hardened a crash may then find the first few. The reign is
    /// of no more use then.
    pub fn harden(&mut self) -> Result<(), DecideError>
        requires ready { IsGoing D.disk self.old.site }
        requires reign { HasReign (memory_of self.old.site) }
        ensures ready { OnOk result (IsGoing D.disk self.new.site) }
        ensures reign { HasReign (memory_of self.new.site) }
        ensures done { OnOk result ((told : Bool) (c : Contents) (h : ℕ) → IsOpen (D.disk (disk_of self.old.site)) told c h (memory_of self.old.site) → Reigns (D.disk (disk_of self.new.site)) told c self.new) }
        ensures all { OnOk result ((memory_of self.new.site).hardened ≡ count_of (memory_of self.new.site)) }
        ensures entries { (memory_of self.new.site).entries ≡ (memory_of self.old.site).entries }
        ensures stamp { (memory_of self.new.site).stamp ≡ (memory_of self.old.site).stamp }
        ensures serials { self.new.serials ≡ self.old.serials }
        ensures still_told { IsSome (D.disk (disk_of self.old.site)).content → IsSome (D.disk (disk_of self.new.site)).content }
        ensures images { (c : Contents) (h : ℕ) → IsOpen (D.disk (disk_of self.old.site)) true c h (memory_of self.old.site) → (f : Files) → Image (D.disk (disk_of self.new.site)) f → (o : Contents) × IsFrontOf c.sequence h c o × IsSite f o }
        ensures left { (c : Contents) (h : ℕ) → IsOpen (D.disk (disk_of self.old.site)) true c h (memory_of self.old.site) → (f : Files) → Image (D.disk (disk_of self.new.site)) f → (o : Standing) × IsFrontLeft c.sequence h c o × IsSiteWith f o }
        ensures simulated { (D.disk (disk_of self.new.site)).simulated ≡ (D.disk (disk_of self.old.site)).simulated }
        ensures faults { MayFailUncounted (D.disk (disk_of self.old.site)).faults (D.disk (disk_of self.new.site)).faults (IsErrOf result DecideError.Failed) }
    {
        match self.site.harden() {
            Ok(_) => Ok(()),
            Err(SiteError::Failed { .. }) => Err(DecideError::Failed),
            Err(_) => unreachable!(),
        }
    }
}
