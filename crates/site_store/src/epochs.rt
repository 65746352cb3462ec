//! Bringing a site to an epoch.
ghost use Rattle.std.specs.Prelude.{◌≡◌, ◌⊎◌, ℕ, Bool, true, length, IfSome, IsOk, OnOk, OnErr, IsErrOf, IsSome};
ghost use Rattle.disk_defs.specs.Disk.{Files, Image, AtEachMoment, MayFail};
ghost use Rattle.disk_defs.specs.Frames.{OthersStay};
ghost use Rattle.site_defs.specs.Contents.{Contents, Standing, bare};
ghost use Rattle.site_defs.specs.Epochs.{marked, MayMark, MayMarkLeft};
ghost use Rattle.site_defs.specs.Stands.{IsSite};
ghost use Rattle.site_defs.specs.Behind.{IsSiteWith};
ghost use Rattle.site_store.specs.Committing.{IsSameSite, IsOwnJournal};
ghost use Rattle.site_store.specs.Needing.{NoneNeeds};
ghost use Rattle.site_store.specs.Site.{IsReady, IsOpen, IsSettled, HasReign};

use crate::error::SiteError;
use crate::memory::Memory;
use region_epochs::{EpochError, take_epoch};
use repl_disk::Disk;
use std::alloc::Global;

/// What is answered of an epoch or an image, where the disk has this count of faults behind it.
pub(crate) fn answered(taken: Result<(), EpochError>, fault: u64) -> Result<(), SiteError>
    ensures done { OnOk result (IsOk taken) }
    ensures count { (told : ℕ) → IsErrOf result (SiteError.Failed told) → (told ≡ fault) × IsErrOf taken EpochError.Failed }
    ensures memory { IsErrOf result SiteError.NoMemory → IsErrOf taken EpochError.NoMemory }
    ensures causes { OnErr result (((told : ℕ) × IsErrOf result (SiteError.Failed told)) ⊎ IsErrOf result SiteError.NoMemory) }
{
    match taken {
        Ok(()) => Ok(()),
        Err(EpochError::NoMemory) => Err(SiteError::NoMemory),
        Err(EpochError::Failed) => Err(SiteError::Failed { fault }),
    }
}

impl Memory {
    /// Puts what waits in the journals on the disk for good, where all entries are hardened: images of a commit that didn't come.
    /// Mostly nothing waits, and then it makes no call of the disk.
    fn settle<D: Disk>(&mut self, disk: &mut D) -> Result<(), SiteError>
        requires ready { IsReady (D.disk disk.old) self.old }
        ensures ready { OnOk result (IsReady (D.disk disk.new) self.new) }
        ensures settled { OnOk result ((told : Bool) (c : Contents) → IsOpen (D.disk disk.old) told c (length c.sequence) self.old → IsSettled (D.disk disk.new) told c self.new) }
        ensures same { IsSameSite self.old self.new }
        ensures entries { self.new.entries ≡ self.old.entries }
        ensures left { (c : Contents) → IsOpen (D.disk disk.old) true c (length c.sequence) self.old → AtEachMoment (D.disk disk.old) (D.disk disk.new) (λ f. IsSiteWith f (bare c)) }
        ensures frame { OthersStay (IsOwnJournal self.old) (D.disk disk.old) (D.disk disk.new) }
        ensures faults { MayFail (D.disk disk.old).faults (D.disk disk.new).faults (λ fault. IsErrOf result (SiteError.Failed fault)) }
        ensures failed { OnErr result ((fault : ℕ) × IsErrOf result (SiteError.Failed fault)) }
    {
        match self.journals.harden(disk) {
            Ok(()) => Ok(()),
            Err(_) => Err(SiteError::Failed {
                fault: disk.faults(),
            }),
        }
    }

    /// Brings each region to an epoch of all entries. They have to be hardened, and nothing may wait in the journals.
    fn mark<D: Disk>(&mut self, alloc: Global, disk: &mut D, closing: bool) -> Result<(), SiteError>
        requires ready { IsReady (D.disk disk.old) self.old }
        ensures ready { OnOk result (IsReady (D.disk disk.new) self.new) }
        ensures done { OnOk result ((told : Bool) (c : Contents) → IsSettled (D.disk disk.old) told c self.old → IsOpen (D.disk disk.new) told (marked c) (length c.sequence) self.new) }
        ensures none_needs { OnOk result ((c : Contents) → IsSettled (D.disk disk.old) true c self.old → (f : Files) → Image (D.disk disk.new) f → NoneNeeds (length c.sequence) f) }
        ensures same { IsSameSite self.old self.new }
        ensures entries { self.new.entries ≡ self.old.entries }
        ensures any_moment { (c : Contents) → IsSettled (D.disk disk.old) true c self.old → AtEachMoment (D.disk disk.old) (D.disk disk.new) (λ f. (o : Contents) × MayMark c o × IsSite f o) }
        ensures left { (c : Contents) → IsSettled (D.disk disk.old) true c self.old → AtEachMoment (D.disk disk.old) (D.disk disk.new) (λ f. (o : Standing) × MayMarkLeft (bare c) o × IsSiteWith f o) }
        ensures still_told { IsSome (D.disk disk.old).content → IsSome (D.disk disk.new).content }
        ensures simulated { (D.disk disk.new).simulated ≡ (D.disk disk.old).simulated }
        ensures faults { MayFail (D.disk disk.old).faults (D.disk disk.new).faults (λ fault. IsErrOf result (SiteError.Failed fault)) }
        ensures causes { OnErr result (((fault : ℕ) × IsErrOf result (SiteError.Failed fault)) ⊎ IsErrOf result SiteError.NoMemory) }
    {
        let _ = self.globals.count();
        let number = self.entries.len();
        let taken = take_epoch(
            alloc,
            disk,
            &mut self.journals,
            &mut self.globals,
            number,
            closing,
        );
        answered(taken, disk.faults())
    }

    /// Brings each region to an epoch of all entries, which have to be hardened: logs the images of the blocks that changed since the
    /// last one, writes these blocks to the database files, and puts an EPOCH behind them in each region's journal. An opening then goes
    /// back to that epoch, and makes no update before it again. The last epoch before the site is closed is a closing one.
    ///
    /// # Errors
    /// `Failed` only where the disk's count rose, and `NoMemory`. The site is of no more use then; a crash finds the same entries, and the
    /// epoch in some regions.
    pub fn epoch<D: Disk>(
        &mut self,
        alloc: Global,
        disk: &mut D,
        closing: bool,
    ) -> Result<(), SiteError>
        requires ready { IsReady (D.disk disk.old) self.old }
        ensures ready { OnOk result (IsReady (D.disk disk.new) self.new) }
        ensures done { OnOk result ((told : Bool) (c : Contents) → IsOpen (D.disk disk.old) told c (length c.sequence) self.old → IsOpen (D.disk disk.new) told (marked c) (length c.sequence) self.new) }
        // no record stands behind it in any region's journal
        ensures none_needs { OnOk result ((c : Contents) → IsOpen (D.disk disk.old) true c (length c.sequence) self.old → (f : Files) → Image (D.disk disk.new) f → NoneNeeds (length c.sequence) f) }
        ensures entries { self.new.entries ≡ self.old.entries }
        ensures instance { self.new.instance ≡ self.old.instance }
        ensures hardened { self.new.hardened ≡ self.old.hardened }
        ensures stamp { self.new.stamp ≡ self.old.stamp }
        ensures reign { HasReign self.old → HasReign self.new }
        ensures any_moment { (c : Contents) → IsOpen (D.disk disk.old) true c (length c.sequence) self.old → AtEachMoment (D.disk disk.old) (D.disk disk.new) (λ f. (o : Contents) × MayMark c o × IsSite f o) }
        ensures left { (c : Contents) → IsOpen (D.disk disk.old) true c (length c.sequence) self.old → AtEachMoment (D.disk disk.old) (D.disk disk.new) (λ f. (o : Standing) × MayMarkLeft (bare c) o × IsSiteWith f o) }
        ensures stands { (c : Contents) → IsOpen (D.disk disk.old) true c (length c.sequence) self.old → IfSome (D.disk disk.new).content (λ f. (o : Contents) × MayMark c o × IsSite f o) }
        ensures still_told { IsSome (D.disk disk.old).content → IsSome (D.disk disk.new).content }
        ensures simulated { (D.disk disk.new).simulated ≡ (D.disk disk.old).simulated }
        ensures faults { MayFail (D.disk disk.old).faults (D.disk disk.new).faults (λ fault. IsErrOf result (SiteError.Failed fault)) }
        ensures causes { OnErr result (((fault : ℕ) × IsErrOf result (SiteError.Failed fault)) ⊎ IsErrOf result SiteError.NoMemory) }
    {
        self.settle(disk)?;
        self.mark(alloc, disk, closing)
    }
}
