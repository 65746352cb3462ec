//! A journal that is open for calls.
ghost use Rattle.std.specs.Prelude.{◌≡◌, ◌↔◌, ◌≤◌, ◌<◌, ◌+◌, ◌++◌, ◌∷◌, [], ℕ, List, length, Some, IfSome, IfOk, OnOk, OnErr, IsErrOf, IsTrue};
ghost use Rattle.global_defs.specs.declared.limits.TheConstants.{LONGEST_BODY, MOST_GENERATIONS, MOST_REGIONS};
ghost use Rattle.disk_defs.specs.Disk.{Image, AtEachMoment, Reads, MayFailUncounted, HasCause};
ghost use Rattle.disk_defs.specs.Frames.{Only, OnlyOn, OthersStay};
ghost use Rattle.disk_defs.specs.Gates.{records};
ghost use Rattle.gated_file.specs.Begin.{KeepsRecords};
ghost use Rattle.journal_defs.specs.Numbers.{journal_file};
ghost use Rattle.journal_defs.specs.Journal.{JournalRecord, spelled_record, IsInForm};
ghost use Rattle.jnl_record.specs.Values.{record_value, IsFirstVersion};

use crate::error::JournalError;
use crate::reading::{read_record, read_whole};
use gated_file::Gated;
use gvn_key::{Bytes, NoMemory};
use jnl_record::{JnlRecord, encode};
use journal_defs::files::JOURNAL_FILES;
use repl_disk::Disk;
use std::alloc::Global;
use std::mem::replace;

/// The number of the file that holds a region's journal of a generation.
pub fn journal_file(region: u8, generation: u32) -> u32
    requires region { region < MOST_REGIONS }
    requires generation { generation ≤ MOST_GENERATIONS }
    ensures { result ≡ journal_file generation region }
{
    JOURNAL_FILES + 8 * generation + u32::from(region)
}

/// A region's journal of one generation, open for calls.
///
/// Its fields are there for contracts: `HasRecords` says what they have to do with the disk, and a field that was changed by
/// hand leaves nothing of it.
#[derive(Drop)]
pub struct Journal {
    /// The file.
    pub gated: Gated,
    /// The region, below 8.
    pub region: u8,
    /// The generation, at most 65,535.
    pub generation: u32,
    /// The body of the record that was prepared last.
    pub body: Bytes,
    // The memory of the body before it, in which the next one is written.
    spare: Bytes,
}

impl Journal {
    ghost use Rattle.jnl_file.specs.Records.{Recorded, StandsRecords, appended, settled, synced, opened, hardened};
    ghost use Rattle.jnl_file.specs.Journal.{IsReady, HasRecords, IsJournalOf, IsSameJournal, IsPrepared, IsSynced, HasClosed, SamePrepared};
    ghost use Rattle.jnl_file.specs.Reading.{FindsRecord, IsReadRecord, IsNoRecord, IsJournalFile};
    ghost use Rattle.site_defs.specs.OutsideJournal.{IsOutsideJournal};
    ghost use Rattle.jnl_file.specs.Begin.{pini, MayBegin};

    /// A journal without records, in a file that has none.
    fn empty<D: Disk>(
        alloc: Global,
        disk: &mut D,
        region: u8,
        generation: u32,
    ) -> Result<Journal, JournalError>
        requires region { region < MOST_REGIONS }
        requires generation { generation ≤ MOST_GENERATIONS }
        requires empty { IfSome (D.disk disk.old).content (λ files. records (files (journal_file generation region)) ≡ Some []) }
        ensures ready { IfOk result (λ made. IsReady (D.disk disk.new) made) }
        ensures place { IfOk result (λ made. IsJournalOf made region generation) }
        ensures state { IfOk result (λ made. IfSome (D.disk disk.old).content (λ _. HasRecords (D.disk disk.new) made (settled []))) }
        ensures any_moment { IfSome (D.disk disk.old).content (λ _. AtEachMoment (D.disk disk.old) (D.disk disk.new) (KeepsRecords (D.disk disk.old) (journal_file generation region))) }
        ensures frame { OthersStay (Only (journal_file generation region)) (D.disk disk.old) (D.disk disk.new) }
        ensures faults { MayFailUncounted (D.disk disk.old).faults (D.disk disk.new).faults (IsErrOf result JournalError.Failed) }
        ensures outside { (offset : ℕ) → IsErrOf result (JournalError.NotARecord offset) → ⊥ }
    {
        let gated = Gated::fresh(alloc, disk, journal_file(region, generation))?;
        Ok(Journal {
            gated,
            region,
            generation,
            body: Bytes::new(alloc),
            spare: Bytes::new(alloc),
        })
    }

    /// Prepares the PINI of this journal.
    fn prepare_pini<D: Disk>(
        &mut self,
        disk: &mut D,
        before: bool,
        previous: u32,
    ) -> Result<(), NoMemory>
        requires ready { IsReady (D.disk disk.old) self.old }
        requires region { self.old.region < MOST_REGIONS }
        requires generation { self.old.generation ≤ MOST_GENERATIONS }
        requires previous { previous < self.old.generation }
        ensures ready { IsReady (D.disk disk.new) self.new }
        ensures prepared { OnOk result (IsPrepared self.new (pini self.old.region before self.old.generation previous)) }
        ensures syncs { OnOk result (2 ≤ self.new.gated.syncs_left) }
        ensures state { (s : Recorded) → HasRecords (D.disk disk.old) self.old s → HasRecords (D.disk disk.new) self.new s }
        ensures place { IsSameJournal self.old self.new }
        ensures any_moment { AtEachMoment (D.disk disk.old) (D.disk disk.new) (Image (D.disk disk.old)) }
        ensures frame { OthersStay (Only self.old.gated.file) (D.disk disk.old) (D.disk disk.new) }
        ensures faults { (D.disk disk.new).faults ≡ (D.disk disk.old).faults }
    {
        let pini = JnlRecord::Pini {
            version: 1,
            region: self.region,
            before,
            generation: self.generation,
            previous,
        };
        self.prepare(disk, &pini)
    }

    /// Makes the journal of a region's generation, whose file has no open record: it appends PINI and hardens it.
    ///
    /// # Errors
    /// `Failed` only where the disk's count rose, and `NoMemory`. A crash may then find PINI all the same.
    pub fn create<D: Disk>(
        alloc: Global,
        disk: &mut D,
        region: u8,
        before: bool,
        generation: u32,
        previous: u32,
    ) -> Result<Journal, JournalError>
        requires region { region < MOST_REGIONS }
        requires generation { generation ≤ MOST_GENERATIONS }
        requires previous { previous < generation }
        requires empty { IfSome (D.disk disk.old).content (λ files. records (files (journal_file generation region)) ≡ Some []) }
        ensures ready { IfOk result (λ made. IsReady (D.disk disk.new) made) }
        ensures place { IfOk result (λ made. IsJournalOf made region generation) }
        ensures state { IfOk result (λ made. IfSome (D.disk disk.old).content (λ _. HasRecords (D.disk disk.new) made (settled (pini region before generation previous ∷ [])))) }
        ensures any_moment { IfSome (D.disk disk.old).content (λ _. AtEachMoment (D.disk disk.old) (D.disk disk.new) (MayBegin (D.disk disk.old) (journal_file generation region) (pini region before generation previous))) }
        ensures frame { OthersStay (Only (journal_file generation region)) (D.disk disk.old) (D.disk disk.new) }
        ensures faults { MayFailUncounted (D.disk disk.old).faults (D.disk disk.new).faults (IsErrOf result JournalError.Failed) }
        ensures outside { (offset : ℕ) → IsErrOf result (JournalError.NotARecord offset) → ⊥ }
    {
        let mut journal = Journal::empty(alloc, disk, region, generation)?;
        journal.prepare_pini(disk, before, previous)?;
        journal.append(disk)?;
        journal.harden(disk)?;
        Ok(journal)
    }

    /// Takes up a region's journal of a generation with the records that it has, perhaps none. All of them are hardened from
    /// then on. It syncs the file first, and makes one of less than two bytes as `create` begins it.
    ///
    /// # Errors
    /// `NotARecord` exactly where the file isn't a journal of this region and generation, with the place of a gate that is
    /// outside the format, of a body that is no record's, of a first record that isn't this journal's PINI, or of a PINI
    /// that isn't the first record; `Failed` only where the disk's count rose; and `NoMemory`.
    pub fn attach<D: Disk>(
        alloc: Global,
        disk: &mut D,
        region: u8,
        generation: u32,
    ) -> Result<Journal, JournalError>
        requires region { region < MOST_REGIONS }
        requires generation { generation ≤ MOST_GENERATIONS }
        ensures ready { IfOk result (λ made. IsReady (D.disk disk.new) made) }
        ensures place { IfOk result (λ made. IsJournalOf made region generation) }
        ensures state { IfOk result (λ made. IfSome (D.disk disk.old).content (λ files. (rs : List JournalRecord) × IsJournalFile region generation (files (journal_file generation region)) rs × HasRecords (D.disk disk.new) made (settled rs))) }
        ensures outside { (offset : ℕ) → IsErrOf result (JournalError.NotARecord offset) → IfSome (D.disk disk.old).content (λ files. IsOutsideJournal region generation (files (journal_file generation region)) offset) }
        ensures no_list { (offset : ℕ) → IsErrOf result (JournalError.NotARecord offset) → IfSome (D.disk disk.old).content (λ files. (rs : List JournalRecord) → IsJournalFile region generation (files (journal_file generation region)) rs → ⊥) }
        ensures any_moment { IfSome (D.disk disk.old).content (λ _. AtEachMoment (D.disk disk.old) (D.disk disk.new) (KeepsRecords (D.disk disk.old) (journal_file generation region))) }
        ensures frame { OthersStay (Only (journal_file generation region)) (D.disk disk.old) (D.disk disk.new) }
        ensures faults { MayFailUncounted (D.disk disk.old).faults (D.disk disk.new).faults (IsErrOf result JournalError.Failed) }
    {
        let mut gated = Gated::attach(alloc, disk, journal_file(region, generation))?;
        read_whole(&mut gated, disk, region, generation)?;
        Ok(Journal {
            gated,
            region,
            generation,
            body: Bytes::new(alloc),
            spare: Bytes::new(alloc),
        })
    }

    /// Takes all memory and room that appending this record and hardening it use. The record has to be in its form and its
    /// body at most 1,048,576 bytes long.
    pub fn prepare<D: Disk>(&mut self, disk: &mut D, what: &JnlRecord) -> Result<(), NoMemory>
        requires ready { IsReady (D.disk disk.old) self.old }
        requires form { IsInForm (record_value what.now) }
        requires version { IsFirstVersion what.now }
        requires short { length (spelled_record (record_value what.now)) ≤ LONGEST_BODY }
        ensures ready { IsReady (D.disk disk.new) self.new }
        ensures prepared { OnOk result (IsPrepared self.new (record_value what.now)) }
        ensures syncs { OnOk result (self.new.gated.syncs_left ≡ self.old.gated.syncs_left + 2) }
        ensures err { OnErr result (SamePrepared self.old self.new) }
        ensures state { (s : Recorded) → HasRecords (D.disk disk.old) self.old s → HasRecords (D.disk disk.new) self.new s }
        ensures place { IsSameJournal self.old self.new }
        ensures any_moment { AtEachMoment (D.disk disk.old) (D.disk disk.new) (Image (D.disk disk.old)) }
        ensures frame { OthersStay (Only self.old.gated.file) (D.disk disk.old) (D.disk disk.new) }
        ensures faults { (D.disk disk.new).faults ≡ (D.disk disk.old).faults }
    {
        let mut body = replace(&mut self.spare, Bytes::new(self.gated.alloc));
        body.clear();
        encode(what, &mut body)?;
        self.gated.reserve(disk, 1, body.len() as u64)?;
        self.spare = replace(&mut self.body, body);
        Ok(())
    }

    /// Appends the record that was prepared, behind a closed gate. It takes no memory.
    ///
    /// # Errors
    /// `Failed` alone, where the disk's count rose.
    pub fn append<D: Disk>(&mut self, disk: &mut D) -> Result<(), JournalError>
        requires ready { IsReady (D.disk disk.old) self.old }
        requires prepared { (r : JournalRecord) × IsPrepared self.old r }
        ensures ready { OnOk result (IsReady (D.disk disk.new) self.new) }
        ensures syncs { OnOk result (self.new.gated.syncs_left ≡ self.old.gated.syncs_left) }
        ensures state { OnOk result ((r : JournalRecord) (s : Recorded) → IsPrepared self.old r → HasRecords (D.disk disk.old) self.old s → HasRecords (D.disk disk.new) self.new (appended s r)) }
        ensures place { IsSameJournal self.old self.new }
        ensures any_moment { (s : Recorded) → HasRecords (D.disk disk.old) self.old s → AtEachMoment (D.disk disk.old) (D.disk disk.new) (OnlyOn (D.disk disk.old) self.old.gated.file (StandsRecords s.hard s.opening)) }
        ensures frame { OthersStay (Only self.old.gated.file) (D.disk disk.old) (D.disk disk.new) }
        ensures cause { HasCause (D.disk disk.old).faults (D.disk disk.new).faults result }
        ensures failed { OnErr result (IsErrOf result JournalError.Failed) }
    {
        self.gated.append_body(disk, self.body.as_slice())?;
        Ok(())
    }

    /// Whether records stand behind closed gates. It says nothing of gates that were opened and not yet synced.
    pub fn has_closed(&self) -> bool
        ensures { IsTrue result ↔ HasClosed self.now }
    {
        !self.gated.closed.is_empty()
    }

    /// Syncs the file: the first and the last step of hardening. The gates that were opened since the last sync are on the disk
    /// for good, and so are the bodies behind closed gates. It takes no memory.
    ///
    /// # Errors
    /// `Failed` alone, where the disk's count rose.
    pub fn sync<D: Disk>(&mut self, disk: &mut D) -> Result<(), JournalError>
        requires ready { IsReady (D.disk disk.old) self.old }
        requires room { 1 ≤ self.old.gated.syncs_left }
        ensures ready { OnOk result (IsReady (D.disk disk.new) self.new) }
        ensures syncs { OnOk result (self.new.gated.syncs_left + 1 ≡ self.old.gated.syncs_left) }
        ensures is_synced { OnOk result (IsSynced self.new) }
        ensures prepared { OnOk result ((r : JournalRecord) → IsPrepared self.old r → IsPrepared self.new r) }
        ensures state { OnOk result ((s : Recorded) → HasRecords (D.disk disk.old) self.old s → HasRecords (D.disk disk.new) self.new (synced s)) }
        ensures place { IsSameJournal self.old self.new }
        ensures any_moment { (s : Recorded) → HasRecords (D.disk disk.old) self.old s → AtEachMoment (D.disk disk.old) (D.disk disk.new) (OnlyOn (D.disk disk.old) self.old.gated.file (StandsRecords s.hard s.opening)) }
        ensures frame { OthersStay (Only self.old.gated.file) (D.disk disk.old) (D.disk disk.new) }
        ensures cause { HasCause (D.disk disk.old).faults (D.disk disk.new).faults result }
        ensures failed { OnErr result (IsErrOf result JournalError.Failed) }
    {
        Ok(self.gated.sync(disk)?)
    }

    /// Opens the gates of all that was appended, without a sync: the second step of hardening. The bodies have to be synced
    /// since the last append. It takes no memory.
    ///
    /// # Errors
    /// `Failed` alone, where the disk's count rose.
    pub fn open_gates<D: Disk>(&mut self, disk: &mut D) -> Result<(), JournalError>
        requires ready { IsReady (D.disk disk.old) self.old }
        requires is_synced { IsSynced self.old }
        ensures ready { OnOk result (IsReady (D.disk disk.new) self.new) }
        ensures syncs { OnOk result (self.new.gated.syncs_left ≡ self.old.gated.syncs_left) }
        ensures is_synced { IsSynced self.new }
        ensures prepared { OnOk result ((r : JournalRecord) → IsPrepared self.old r → IsPrepared self.new r) }
        ensures state { OnOk result ((s : Recorded) → HasRecords (D.disk disk.old) self.old s → HasRecords (D.disk disk.new) self.new (opened s)) }
        ensures place { IsSameJournal self.old self.new }
        ensures any_moment { (s : Recorded) → HasRecords (D.disk disk.old) self.old s → AtEachMoment (D.disk disk.old) (D.disk disk.new) (OnlyOn (D.disk disk.old) self.old.gated.file (StandsRecords s.hard (s.opening ++ s.closed))) }
        ensures frame { OthersStay (Only self.old.gated.file) (D.disk disk.old) (D.disk disk.new) }
        ensures cause { HasCause (D.disk disk.old).faults (D.disk disk.new).faults result }
        ensures failed { OnErr result (IsErrOf result JournalError.Failed) }
    {
        Ok(self.gated.open_gates(disk)?)
    }

    /// Hardens all that was appended: it syncs the bodies, opens their gates, and syncs again. It takes no memory.
    ///
    /// # Errors
    /// `Failed` alone, where the disk's count rose.
    pub fn harden<D: Disk>(&mut self, disk: &mut D) -> Result<(), JournalError>
        requires ready { IsReady (D.disk disk.old) self.old }
        requires room { 2 ≤ self.old.gated.syncs_left }
        ensures ready { OnOk result (IsReady (D.disk disk.new) self.new) }
        ensures syncs { OnOk result (self.new.gated.syncs_left + 2 ≡ self.old.gated.syncs_left) }
        ensures prepared { OnOk result ((r : JournalRecord) → IsPrepared self.old r → IsPrepared self.new r) }
        ensures state { OnOk result ((s : Recorded) → HasRecords (D.disk disk.old) self.old s → HasRecords (D.disk disk.new) self.new (hardened s)) }
        ensures place { IsSameJournal self.old self.new }
        ensures any_moment { (s : Recorded) → HasRecords (D.disk disk.old) self.old s → AtEachMoment (D.disk disk.old) (D.disk disk.new) (OnlyOn (D.disk disk.old) self.old.gated.file (StandsRecords s.hard (s.opening ++ s.closed))) }
        ensures frame { OthersStay (Only self.old.gated.file) (D.disk disk.old) (D.disk disk.new) }
        ensures cause { HasCause (D.disk disk.old).faults (D.disk disk.new).faults result }
        ensures failed { OnErr result (IsErrOf result JournalError.Failed) }
    {
        self.sync(disk)?;
        self.open_gates(disk)?;
        self.sync(disk)
    }

    /// Reads on: the record behind the gate at a place and the next gate's place, or `None` at a closed gate and in a file
    /// shorter than two bytes. The first place is 0.
    ///
    /// # Errors
    /// `NotARecord` with this place exactly where no gate of the format stands there or the body behind it is no record's;
    /// `Failed` only where the disk's count rose; and `NoMemory`.
    pub fn next_record<D: Disk>(
        &mut self,
        disk: &mut D,
        at: u64,
    ) -> Result<Option<(JnlRecord, u64)>, JournalError>
        ensures found { IfOk result (λ found. IfSome (D.disk disk.old).content (λ files. FindsRecord (files self.old.gated.file) at found)) }
        ensures further { IfOk result (λ found. IfSome found (λ read. at < read.1)) }
        ensures form { IfOk result (λ found. IfSome found (λ read. IsReadRecord read.0)) }
        ensures outside { IsErrOf result (JournalError.NotARecord at) → IfSome (D.disk disk.old).content (λ files. IsNoRecord (files self.old.gated.file) at) }
        ensures only_here { (offset : ℕ) → IsErrOf result (JournalError.NotARecord offset) → offset ≡ at }
        ensures same { self.new ≡ self.old }
        ensures reads { Reads (D.disk disk.old) (D.disk disk.new) }
        ensures faults { MayFailUncounted (D.disk disk.old).faults (D.disk disk.new).faults (IsErrOf result JournalError.Failed) }
    {
        let mut body = Bytes::new(self.gated.alloc);
        read_record(&mut self.gated, disk, at, &mut body)
    }
}
