//! Entries of a primary, applied to a site that follows it.
ghost use Rattle.std.specs.Prelude.{◌≡◌, ◌⊎◌, ◌≤◌, ◌<◌, ◌+◌, ◌==◌, ℕ, List, Bool, true, Some, None, option_map, take, IfOk, OnOk, OnErr, IfSome, IsErrOf, IsSome, if◌then◌else◌};
ghost use Rattle.std.specs.List.{AllByRecursion, last_or};
ghost use Rattle.global_defs.specs.declared.limits.TheConstants.{NUMBERS_END};
ghost use Rattle.global_defs.specs.Entry as defs;
ghost use Rattle.global_defs.specs.Fields.{IsStamp, IsTransaction};
ghost use Rattle.global_defs.specs.Prefix.{stamp_at};
ghost use Rattle.gvn_model.specs.Entries.{transaction_value};
ghost use Rattle.gvn_model.specs.Reigns.{stamp_value, reign_value};
ghost use Rattle.disk_defs.specs.Disk.{Image, AtEachMoment, MayFail};
ghost use Rattle.journal_defs.specs.Journal.{JournalRecord};
ghost use Rattle.journal_defs.specs.Surviving.{reigns};
ghost use Rattle.site_defs.specs.Behind.{IsSiteWith};
ghost use Rattle.site_defs.specs.Contents.{Contents, bare};
ghost use Rattle.site_defs.specs.Fronts.{with_sequence};
ghost use Rattle.site_defs.specs.Stands.{IsSite};
ghost use Rattle.region_journals.specs.Journals.{KeepsJournals};
ghost use Rattle.region_store.specs.Joined.{joined};
ghost use Rattle.site_store.specs.Committing.{Appends, AppendsPart};
ghost use Rattle.site_store.specs.Following.{remembered_of, reigns_next, IsCovered, IsReignToCome, with_remembered, with_applied, MayHaveReign, IsStillSame, HasStayed, HasApplied};
ghost use Rattle.site_store.specs.Site.{HasRoomFor, count_of};
ghost use Rattle.site_store.specs.Owning.{disk_of, memory_of, GoesOn, HasStopped, IsGoing, MayBeCalled, IsOpenSite};

use crate::error::SiteError;
use crate::fitting::check_room;
use crate::site::{Site, add_reign, drop_reign};
use gvn_key::NoMemory;
use gvn_model::{Reign, Stamp, Transaction};
use repl_disk::Disk;

impl<D: Disk> Site<D> {
    /// The reign of this stamp, where it begins with the next entry.
    fn reign_from(&self, stamp: &Stamp, start: u64) -> Result<Option<Reign>, NoMemory>
        ensures reign { IfOk result (λ begun. option_map reign_value begun ≡ (if start == count_of (memory_of self.now) + 1 then Some (record { stamp = stamp_value stamp.now; start = start }) else None)) }
    {
        if start != self.inner.entries.len() + 1 {
            return Ok(None);
        }
        let stamp = stamp.copy()?;
        Ok(Some(Reign { stamp, start }))
    }

    /// Remembers the reign of a primary that begins with the next entry, and forgets an earlier one; of the last reign as it stands there
    /// is nothing to remember. It appends nothing: the reign comes to the disk right before its first entry. A reign of the site's own, if
    /// one was begun, takes no further entries.
    ///
    /// # Errors
    /// `NoMemory`, after which all is as before.
    pub fn adopt_reign(&mut self, stamp: &Stamp, start: u64) -> Result<(), SiteError>
        requires form { IsStamp (stamp_value stamp.now) }
        requires start { (start ≡ count_of (memory_of self.old) + 1) ⊎ (last_or None (reigns (memory_of self.old).instance.records) ≡ Some (record { stamp = stamp_value stamp.now; start = start })) }
        requires no_reign_past { AllByRecursion (λ (r : defs.Reign). r.start ≤ count_of (memory_of self.old)) (reigns (memory_of self.old).instance.records) }
        ensures remembered { OnOk result (remembered_of self.new ≡ (if start == count_of (memory_of self.old) + 1 then Some (record { stamp = stamp_value stamp.now; start = start }) else None)) }
        ensures covered { OnOk result (IsCovered self.new) }
        ensures kept { OnErr result (self.new ≡ self.old) }
        ensures stamp { OnOk result (memory_of self.new ≡ record (memory_of self.old) { stamp = None }) }
        ensures disk { disk_of self.new ≡ disk_of self.old }
        ensures ready { IsGoing D.disk self.old → IsGoing D.disk self.new }
        ensures stays_open { (told : Bool) (c : Contents) (h : ℕ) → IsOpenSite D.disk told c h self.old → IsOpenSite D.disk told c h self.new }
        ensures goes_on { GoesOn self.old → GoesOn self.new }
        ensures stopped { (fault : ℕ) → HasStopped fault self.old → HasStopped fault self.new }
        ensures causes { OnErr result (IsErrOf result SiteError.NoMemory) }
    {
        self.remembered = self.reign_from(stamp, start)?;
        self.inner.stamp = None;
        Ok(())
    }

    /// Puts the remembered reign on the disk, where there is one, and forgets it: it's the last of the history from then on.
    fn begin_remembered(&mut self) -> Result<(), SiteError>
        requires ready { IsGoing D.disk self.old }
        requires remembered { IfSome (remembered_of self.old) (IsReignToCome (memory_of self.old)) }
        ensures ready { OnOk result (IsGoing D.disk self.new) }
        ensures begun { OnOk result ((reigns (memory_of self.new).instance.records ≡ reigns_next self.old) × (remembered_of self.new ≡ None)) }
        ensures done { OnOk result ((told : Bool) (c : Contents) (h : ℕ) → IsOpenSite D.disk told c h self.old → IsOpenSite D.disk told (with_remembered (remembered_of self.old) c) h self.new) }
        ensures others { memory_of self.new ≡ record (memory_of self.old) { instance = (memory_of self.new).instance } }
        ensures kept { OnErr result (((memory_of self.new).instance.records ≡ (memory_of self.old).instance.records) × (remembered_of self.new ≡ remembered_of self.old)) }
        ensures journals { (hard waiting : ℕ → List JournalRecord) → KeepsJournals (D.disk (disk_of self.old)) hard waiting (memory_of self.old).journals.journals.items → KeepsJournals (D.disk (disk_of self.new)) hard waiting (memory_of self.new).journals.journals.items }
        ensures any_moment { (c : Contents) (h : ℕ) → IsOpenSite D.disk true c h self.old → AtEachMoment (D.disk (disk_of self.old)) (D.disk (disk_of self.new)) (λ f. (o : Contents) × MayHaveReign (remembered_of self.old) (with_sequence c (take h c.sequence)) o × IsSite f o) }
        ensures bare { (c : Contents) (h : ℕ) → IsOpenSite D.disk true c h self.old → AtEachMoment (D.disk (disk_of self.old)) (D.disk (disk_of self.new)) (λ f. (o : Contents) × MayHaveReign (remembered_of self.old) (with_sequence c (take h c.sequence)) o × IsSiteWith f (bare o)) }
        ensures unwritten { IsErrOf result SiteError.NoMemory → AtEachMoment (D.disk (disk_of self.old)) (D.disk (disk_of self.new)) (Image (D.disk (disk_of self.old))) }
        ensures goes_on { IsErrOf result SiteError.NoMemory → IsGoing D.disk self.new }
        ensures stays_open { IsErrOf result SiteError.NoMemory → (told : Bool) (c : Contents) (h : ℕ) → IsOpenSite D.disk told c h self.old → IsOpenSite D.disk told c h self.new }
        ensures still_told { IsSome (D.disk (disk_of self.old)).content → IsSome (D.disk (disk_of self.new)).content }
        ensures simulated { (D.disk (disk_of self.new)).simulated ≡ (D.disk (disk_of self.old)).simulated }
        ensures faults { MayFail (D.disk (disk_of self.old)).faults (D.disk (disk_of self.new)).faults (λ fault. IsErrOf result (SiteError.Failed fault)) }
        ensures causes { OnErr result (((fault : ℕ) × IsErrOf result (SiteError.Failed fault)) ⊎ IsErrOf result SiteError.NoMemory) }
        ensures fault { self.new.fault ≡ self.old.fault }
    {
        let Some(reign) = &self.remembered else {
            return Ok(());
        };
        add_reign(&mut self.history, &mut self.starts, reign.copy()?)?;
        match self.inner.append_reign(&mut self.disk, reign) {
            Ok(()) => {
                self.remembered = None;
                Ok(())
            }
            Err(error) => {
                drop_reign(&mut self.history, &mut self.starts);
                Err(error)
            }
        }
    }

    /// Appends an entry whose images wait and for whose nodes there is room, behind the remembered reign where there is one. All memory is
    /// taken before anything is written.
    fn follow(&mut self, number: u64, t: &Transaction) -> Result<(), SiteError>
        requires ready { IsGoing D.disk self.old }
        requires next { number ≡ count_of (memory_of self.old) + 1 }
        requires limit { number < NUMBERS_END }
        requires form { IsTransaction (transaction_value t.now) }
        requires fits { HasRoomFor (joined (memory_of self.old).globals) t.now.updates }
        requires remembered { IfSome (remembered_of self.old) (IsReignToCome (memory_of self.old)) }
        ensures ready { OnOk result (IsGoing D.disk self.new) }
        ensures done { OnOk result ((told : Bool) (c : Contents) (h : ℕ) (stamp : defs.Stamp) → stamp_at number (reigns_next self.old) ≡ Some stamp → IsOpenSite D.disk told c h self.old
            → IsOpenSite D.disk told (with_applied (remembered_of self.old) stamp (transaction_value t.now) c) h self.new) }
        ensures appended { OnOk result (AppendsPart (D.disk (disk_of self.old)) (D.disk (disk_of self.new)) (memory_of self.old) (memory_of self.new) (transaction_value t.now)) }
        ensures applied { OnOk result (HasApplied self.old self.new (transaction_value t.now)) }
        ensures hardened { (memory_of self.new).hardened ≡ (memory_of self.old).hardened }
        ensures unmade { IsErrOf result SiteError.NoMemory → IsStillSame (memory_of self.old) (memory_of self.new) × (remembered_of self.new ≡ remembered_of self.old) }
        ensures goes_on { IsErrOf result SiteError.NoMemory → IsGoing D.disk self.new }
        ensures stays_open { IsErrOf result SiteError.NoMemory → (told : Bool) (c : Contents) (h : ℕ) → IsOpenSite D.disk told c h self.old → IsOpenSite D.disk told c h self.new }
        ensures failed { (fault : ℕ) → IsErrOf result (SiteError.Failed fault) → HasStayed self.old self.new ⊎ HasApplied self.old self.new (transaction_value t.now) }
        ensures any_moment { (c : Contents) (h : ℕ) → IsOpenSite D.disk true c h self.old → AtEachMoment (D.disk (disk_of self.old)) (D.disk (disk_of self.new)) (λ f. (o : Contents) × MayHaveReign (remembered_of self.old) (with_sequence c (take h c.sequence)) o × IsSite f o) }
        ensures bare { (c : Contents) (h : ℕ) → IsOpenSite D.disk true c h self.old → AtEachMoment (D.disk (disk_of self.old)) (D.disk (disk_of self.new)) (λ f. (o : Contents) × MayHaveReign (remembered_of self.old) (with_sequence c (take h c.sequence)) o × IsSiteWith f (bare o)) }
        ensures unwritten { IsErrOf result SiteError.NoMemory → AtEachMoment (D.disk (disk_of self.old)) (D.disk (disk_of self.new)) (Image (D.disk (disk_of self.old))) }
        ensures stands { (c : Contents) (h : ℕ) → IsOpenSite D.disk true c h self.old → IfSome (D.disk (disk_of self.new)).content (λ f. (o : Contents) × MayHaveReign (remembered_of self.old) (with_sequence c (take h c.sequence)) o × IsSite f o) }
        ensures still_told { IsSome (D.disk (disk_of self.old)).content → IsSome (D.disk (disk_of self.new)).content }
        ensures simulated { (D.disk (disk_of self.new)).simulated ≡ (D.disk (disk_of self.old)).simulated }
        ensures faults { MayFail (D.disk (disk_of self.old)).faults (D.disk (disk_of self.new)).faults (λ fault. IsErrOf result (SiteError.Failed fault)) }
        ensures causes { OnErr result (((fault : ℕ) × IsErrOf result (SiteError.Failed fault)) ⊎ IsErrOf result SiteError.NoMemory) }
        ensures fault { self.new.fault ≡ self.old.fault }
    {
        let alloc = self.inner.instance.gated.alloc;
        let parts = self.inner.make_room(alloc, &mut self.disk, t)?;
        self.begin_remembered()?;
        self.history.length = number;
        self.inner.put_in(&mut self.disk, t, &parts)?;
        Ok(())
    }

    /// Makes a transaction of a primary the next entry, under the reign that covers its number: appends to the journal of each region the
    /// images of the blocks that it's about to change first behind the region's epoch, takes all memory, puts the remembered reign on the
    /// disk if the entry begins one, and then appends exactly the updates that it has in each region. The entry is on the disk for good
    /// once it's hardened.
    ///
    /// # Errors
    /// `Full` exactly where more than 100,000 nodes would stand after one of its updates, and `NoMemory`: nothing has changed after these
    /// two, but that there may be more room and, after the second, that images may wait. `Failed` only where the disk's count rose; a crash
    /// may then find the remembered reign. `Stopped` exactly where a call before failed.
    pub fn apply(&mut self, number: u64, t: &Transaction) -> Result<(), SiteError>
        requires ready { MayBeCalled D.disk self.old }
        requires next { number ≡ count_of (memory_of self.old) + 1 }
        requires limit { number < NUMBERS_END }
        requires form { IsTransaction (transaction_value t.now) }
        requires covered { GoesOn self.old → IsCovered self.old }
        requires remembered { IfSome (remembered_of self.old) (IsReignToCome (memory_of self.old)) }
        ensures ready { OnOk result (IsGoing D.disk self.new) }
        ensures done { OnOk result ((told : Bool) (c : Contents) (h : ℕ) (stamp : defs.Stamp) → stamp_at number (reigns_next self.old) ≡ Some stamp → IsOpenSite D.disk told c h self.old
            → IsOpenSite D.disk told (with_applied (remembered_of self.old) stamp (transaction_value t.now) c) h self.new) }
        // behind images of blocks, exactly its part in each region
        ensures appended { OnOk result (Appends (D.disk (disk_of self.old)) (D.disk (disk_of self.new)) (memory_of self.old) (memory_of self.new) (transaction_value t.now)) }
        ensures applied { OnOk result (HasApplied self.old self.new (transaction_value t.now)) }
        // and its next one
        ensures covered { OnOk result (IsCovered self.new) }
        ensures hardened { (memory_of self.new).hardened ≡ (memory_of self.old).hardened }
        ensures fits { OnOk result (HasRoomFor (joined (memory_of self.old).globals) t.now.updates) }
        ensures full { (nodes : ℕ) → IsErrOf result (SiteError.Full nodes) → HasRoomFor (joined (memory_of self.old).globals) t.now.updates → ⊥ }
        ensures kept { (nodes : ℕ) → IsErrOf result (SiteError.Full nodes) → self.new ≡ self.old }
        ensures unmade { IsErrOf result SiteError.NoMemory → IsStillSame (memory_of self.old) (memory_of self.new) × (remembered_of self.new ≡ remembered_of self.old) }
        ensures goes_on { IsErrOf result SiteError.NoMemory → IsGoing D.disk self.new }
        ensures stays_open { IsErrOf result SiteError.NoMemory → (told : Bool) (c : Contents) (h : ℕ) → IsOpenSite D.disk told c h self.old → IsOpenSite D.disk told c h self.new }
        // a fault leaves the entry in memory or not, and its reign with it
        ensures failed { (fault : ℕ) → IsErrOf result (SiteError.Failed fault) → HasStayed self.old self.new ⊎ HasApplied self.old self.new (transaction_value t.now) }
        // at each moment each image stands for the hardened entries, with the remembered reign or without
        ensures any_moment { (c : Contents) (h : ℕ) → IsOpenSite D.disk true c h self.old → AtEachMoment (D.disk (disk_of self.old)) (D.disk (disk_of self.new)) (λ f. (o : Contents) × MayHaveReign (remembered_of self.old) (with_sequence c (take h c.sequence)) o × IsSite f o) }
        ensures bare { (c : Contents) (h : ℕ) → IsOpenSite D.disk true c h self.old → AtEachMoment (D.disk (disk_of self.old)) (D.disk (disk_of self.new)) (λ f. (o : Contents) × MayHaveReign (remembered_of self.old) (with_sequence c (take h c.sequence)) o × IsSiteWith f (bare o)) }
        // the reign is there only where the entry's own tests are passed and its memory is taken
        ensures unwritten { ((nodes : ℕ) × IsErrOf result (SiteError.Full nodes)) ⊎ IsErrOf result SiteError.NoMemory → (c : Contents) (h : ℕ) → IsOpenSite D.disk true c h self.old
            → AtEachMoment (D.disk (disk_of self.old)) (D.disk (disk_of self.new)) (λ f. IsSite f (with_sequence c (take h c.sequence))) }
        ensures stands { (c : Contents) (h : ℕ) → IsOpenSite D.disk true c h self.old → IfSome (D.disk (disk_of self.new)).content (λ f. (o : Contents) × MayHaveReign (remembered_of self.old) (with_sequence c (take h c.sequence)) o × IsSite f o) }
        ensures still_told { IsSome (D.disk (disk_of self.old)).content → IsSome (D.disk (disk_of self.new)).content }
        ensures simulated { (D.disk (disk_of self.new)).simulated ≡ (D.disk (disk_of self.old)).simulated }
        ensures faults { MayFail (D.disk (disk_of self.old)).faults (D.disk (disk_of self.new)).faults (λ fault. IsErrOf result (SiteError.Failed fault)) }
        ensures causes { OnErr result (((nodes : ℕ) × IsErrOf result (SiteError.Full nodes)) ⊎ ((fault : ℕ) × IsErrOf result (SiteError.Failed fault)) ⊎ ((fault : ℕ) × IsErrOf result (SiteError.Stopped fault)) ⊎ IsErrOf result SiteError.NoMemory) }
        ensures stops { (fault : ℕ) → IsErrOf result (SiteError.Failed fault) → HasStopped fault self.new }
        ensures stopped { (fault : ℕ) → HasStopped fault self.old → IsErrOf result (SiteError.Stopped fault) }
        ensures stays { (fault : ℕ) → HasStopped fault self.old → self.new ≡ self.old }
        ensures only_stopped { (fault : ℕ) → IsErrOf result (SiteError.Stopped fault) → HasStopped fault self.old }
    {
        if let Some(fault) = self.fault {
            return Err(SiteError::Stopped { fault });
        }
        let alloc = self.inner.instance.gated.alloc;
        check_room(alloc, &self.inner.globals, &t.updates)?;
        let updates = t.updates.as_slice();
        if let Err(error) = self.inner.log_all_touched(alloc, &mut self.disk, updates) {
            self.note(error);
            return Err(error);
        }
        match self.follow(number, t) {
            Ok(()) => Ok(()),
            Err(error) => {
                self.note(error);
                Err(error)
            }
        }
    }
}
