//! Giving a site entries.
ghost use Rattle.std.specs.Prelude.{◌≡◌, ◌⊎◌, ◌<◌, ◌+◌, ◌++◌, ◌∷◌, ◌^◌, ℕ, List, [], Bool, true, Some, take, IfOk, IfSome, OnOk, OnErr, IsErrOf, IsSome};
ghost use Rattle.global_defs.specs.declared.limits.TheConstants.{NUMBERS_END};
ghost use Rattle.disk_defs.specs.Disk.{Image, AtEachMoment, MayFail};
ghost use Rattle.global_defs.specs.Fields.{IsTransaction};
ghost use Rattle.gvn_model.specs.Entries.{transaction_value};
ghost use Rattle.site_defs.specs.Contents.{Contents, NO_LEFTOVER};
ghost use Rattle.site_defs.specs.Fronts.{with_sequence};
ghost use Rattle.site_defs.specs.Stands.{IsSite, HasLeft};
ghost use Rattle.disk_defs.specs.Frames.{OthersStay};
ghost use Rattle.journal_defs.specs.Journal.{JournalRecord};
ghost use Rattle.region_journals.specs.Journals.{ArePrepared, KeepsJournals};
ghost use Rattle.region_store.specs.Joined as joins;
ghost use Rattle.region_store.specs.Joined.{joined, AreChanged};
ghost use Rattle.global_defs.specs.Entry as defs;
ghost use Rattle.global_defs.specs.Prefix.{stamp_at};
ghost use Rattle.journal_defs.specs.Surviving.{reigns};
ghost use Rattle.entry_index.specs.Rows.{HasRowRoom};
ghost use Rattle.site_store.specs.Committing.{AppendsPart, Enters, IsSameSite, IsSameMemory, IsOwnJournal, ArePartsOf};
ghost use Rattle.site_store.specs.Site.{IsReady, IsOpen, HasReign, HasRoomFor, count_of, with_entry};

use crate::error::SiteError;
use crate::memory::Memory;
use gvn_key::NoMemory;
use gvn_model::Transaction;
use repl_disk::Disk;
use std::alloc::Global;
use tp_commit::{PartRecords, entry_records};

impl Memory {
    /// Takes all memory and room for a transaction as the next entry. Nothing has changed but what room there is.
    pub(crate) fn make_room<D: Disk>(
        &mut self,
        alloc: Global,
        disk: &mut D,
        t: &Transaction,
    ) -> Result<PartRecords, NoMemory>
        requires ready { IsReady (D.disk disk.old) self.old }
        requires form { IsTransaction (transaction_value t.now) }
        requires room { count_of self.old + 1 < NUMBERS_END }
        ensures ready { IsReady (D.disk disk.new) self.new }
        ensures parts { IfOk result (ArePartsOf self.old (transaction_value t.now)) }
        ensures prepared { IfOk result (λ made. ArePrepared made self.new.journals.journals.items) }
        ensures room { OnOk result (HasRowRoom self.new.entries × joins.HasRoomFor self.new.globals t.now.updates) }
        ensures state { (hard waiting : ℕ → List JournalRecord) → KeepsJournals (D.disk disk.old) hard waiting self.old.journals.journals.items → KeepsJournals (D.disk disk.new) hard waiting self.new.journals.journals.items }
        ensures stays_open { (told : Bool) (c : Contents) (h : ℕ) → IsOpen (D.disk disk.old) told c h self.old → IsOpen (D.disk disk.new) told c h self.new }
        ensures kept { IsSameMemory self.old self.new }
        ensures changed { AreChanged self.old.globals self.new.globals }
        ensures any_moment { AtEachMoment (D.disk disk.old) (D.disk disk.new) (Image (D.disk disk.old)) }
        ensures frame { OthersStay (IsOwnJournal self.old) (D.disk disk.old) (D.disk disk.new) }
        ensures faults { (D.disk disk.new).faults ≡ (D.disk disk.old).faults }
    {
        let number = self.entries.len() + 1;
        let parts = entry_records(alloc, number, t, &self.layout.directory)?;
        self.journals.prepare(disk, &parts)?;
        self.reserve(t)?;
        Ok(parts)
    }

    /// Makes a transaction the next entry in memory, for which all memory and room was taken, and appends its parts. The images of the
    /// blocks that it changes wait already, and a reign that begins with it stands on the disk. It takes no memory.
    pub(crate) fn put_in<D: Disk>(
        &mut self,
        disk: &mut D,
        t: &Transaction,
        parts: &PartRecords,
    ) -> Result<(), SiteError>
        requires ready { IsReady (D.disk disk.old) self.old }
        requires form { IsTransaction (transaction_value t.now) }
        requires few { count_of self.old + 1 < NUMBERS_END }
        requires fits { HasRoomFor (joined self.old.globals) t.now.updates }
        requires room { HasRowRoom self.old.entries × joins.HasRoomFor self.old.globals t.now.updates }
        requires parts { ArePartsOf self.old (transaction_value t.now) parts.now }
        requires prepared { ArePrepared parts.now self.old.journals.journals.items }
        ensures ready { OnOk result (IsReady (D.disk disk.new) self.new) }
        ensures enters { Enters self.old self.new t.now parts.now }
        // under whatever stamp covers it
        ensures done { OnOk result ((told : Bool) (c : Contents) (h : ℕ) (stamp : defs.Stamp) → stamp_at (count_of self.old + 1) (reigns c.instance) ≡ Some stamp → IsOpen (D.disk disk.old) told c h self.old
            → IsOpen (D.disk disk.new) told (with_sequence c (c.sequence ++ record { stamp = stamp; transaction = transaction_value t.now } ∷ [])) h self.new) }
        ensures appended { OnOk result (AppendsPart (D.disk disk.old) (D.disk disk.new) self.old self.new (transaction_value t.now)) }
        ensures grown { count_of self.new ≡ count_of self.old + 1 }
        ensures same { IsSameSite self.old self.new }
        ensures any_moment { (c : Contents) (h : ℕ) → IsOpen (D.disk disk.old) true c h self.old → AtEachMoment (D.disk disk.old) (D.disk disk.new) (λ f. IsSite f (with_sequence c (take h c.sequence))) }
        ensures bare { (c : Contents) (h : ℕ) → IsOpen (D.disk disk.old) true c h self.old → AtEachMoment (D.disk disk.old) (D.disk disk.new) (λ f. HasLeft f (with_sequence c (take h c.sequence)) NO_LEFTOVER) }
        ensures stands { (c : Contents) (h : ℕ) → IsOpen (D.disk disk.old) true c h self.old → IfSome (D.disk disk.new).content (λ f. IsSite f (with_sequence c (take h c.sequence))) }
        ensures still_told { IsSome (D.disk disk.old).content → IsSome (D.disk disk.new).content }
        ensures frame { OthersStay (IsOwnJournal self.old) (D.disk disk.old) (D.disk disk.new) }
        ensures simulated { (D.disk disk.new).simulated ≡ (D.disk disk.old).simulated }
        ensures faults { MayFail (D.disk disk.old).faults (D.disk disk.new).faults (λ fault. IsErrOf result (SiteError.Failed fault)) }
        ensures causes { OnErr result ((fault : ℕ) × IsErrOf result (SiteError.Failed fault)) }
    {
        self.remember(t, parts);
        match self.journals.append(disk, parts) {
            Ok(()) => Ok(()),
            Err(_) => Err(SiteError::Failed {
                fault: disk.faults(),
            }),
        }
    }

    /// Makes a transaction the next entry, for which there is room: takes all memory, and then appends its parts. The images of the blocks
    /// that it changes wait already.
    pub(crate) fn enter<D: Disk>(
        &mut self,
        alloc: Global,
        disk: &mut D,
        t: &Transaction,
    ) -> Result<u64, SiteError>
        requires ready { IsReady (D.disk disk.old) self.old }
        requires form { IsTransaction (transaction_value t.now) }
        requires reign { HasReign self.old }
        requires room { count_of self.old + 1 < NUMBERS_END }
        requires fits { HasRoomFor (joined self.old.globals) t.now.updates }
        ensures ready { OnOk result (IsReady (D.disk disk.new) self.new) }
        ensures done { OnOk result ((told : Bool) (c : Contents) (h : ℕ) → IsOpen (D.disk disk.old) told c h self.old → IsOpen (D.disk disk.new) told (with_entry self.old.stamp (transaction_value t.now) c) h self.new) }
        ensures appended { OnOk result (AppendsPart (D.disk disk.old) (D.disk disk.new) self.old self.new (transaction_value t.now)) }
        ensures number { IfOk result (λ n. n ≡ count_of self.old + 1) }
        ensures grown { OnOk result (count_of self.new ≡ count_of self.old + 1) }
        ensures instance { self.new.instance ≡ self.old.instance }
        ensures stamp { self.new.stamp ≡ self.old.stamp }
        ensures reign { OnOk result (HasReign self.new) }
        ensures unmade { IsErrOf result SiteError.NoMemory → IsSameMemory self.old self.new }
        ensures goes_on { IsErrOf result SiteError.NoMemory → IsReady (D.disk disk.new) self.new }
        ensures stays_open { IsErrOf result SiteError.NoMemory → (told : Bool) (c : Contents) (h : ℕ) → IsOpen (D.disk disk.old) told c h self.old → IsOpen (D.disk disk.new) told c h self.new }
        ensures any_moment { (c : Contents) (h : ℕ) → IsOpen (D.disk disk.old) true c h self.old → AtEachMoment (D.disk disk.old) (D.disk disk.new) (λ f. IsSite f (with_sequence c (take h c.sequence))) }
        ensures bare { (c : Contents) (h : ℕ) → IsOpen (D.disk disk.old) true c h self.old → AtEachMoment (D.disk disk.old) (D.disk disk.new) (λ f. HasLeft f (with_sequence c (take h c.sequence)) NO_LEFTOVER) }
        ensures stands { (c : Contents) (h : ℕ) → IsOpen (D.disk disk.old) true c h self.old → IfSome (D.disk disk.new).content (λ f. IsSite f (with_sequence c (take h c.sequence))) }
        ensures still_told { IsSome (D.disk disk.old).content → IsSome (D.disk disk.new).content }
        ensures simulated { (D.disk disk.new).simulated ≡ (D.disk disk.old).simulated }
        ensures faults { MayFail (D.disk disk.old).faults (D.disk disk.new).faults (λ fault. IsErrOf result (SiteError.Failed fault)) }
        ensures causes { OnErr result (((fault : ℕ) × IsErrOf result (SiteError.Failed fault)) ⊎ IsErrOf result SiteError.NoMemory) }
    {
        let parts = self.make_room(alloc, disk, t)?;
        self.put_in(disk, t, &parts)?;
        Ok(self.entries.len())
    }
}
