//! Appending records to one region's journal.
ghost use Rattle.std.specs.Prelude.{◌≡◌, ◌<◌, ◌++◌, ◌∷◌, ◌⊎◌, ℕ, List, [], length, map, take, IsTrue, OnOk, OnErr, IsErrOf};
ghost use Rattle.std.specs.List.{AllByRecursion};
ghost use Rattle.disk_defs.specs.Disk.{AtEachMoment, MayFailUncounted};
ghost use Rattle.disk_defs.specs.Frames.{Only, OnlyIn, OnlyOn, OthersStay};
ghost use Rattle.journal_defs.specs.Journal.{JournalRecord};
ghost use Rattle.jnl_record.specs.Values.{record_value};
ghost use Rattle.jnl_file.specs.Records.{StandsRecords};
ghost use Rattle.jnl_file.specs.Journal as files;
ghost use Rattle.region_journals.specs.Fronts.{IsNewestFile, HasFirst};
ghost use Rattle.region_journals.specs.Journals.{HasSyncs, AreReady, KeepsJournals};
ghost use Rattle.region_journals.specs.Logging.{MayBeAppended, HasLogged, in_region};

use crate::journals::{RegionJournal, RegionJournals};
use jnl_file::JournalError;
use jnl_record::JnlRecord;
use repl_disk::Disk;

impl RegionJournal {
    /// Prepares one record and appends it.
    fn log<D: Disk>(&mut self, disk: &mut D, what: &JnlRecord) -> Result<(), JournalError>
        requires ready { files.IsReady (D.disk disk.old) self.old.journal }
        requires goes_on { IsTrue self.old.appended → HasSyncs self.old.journal }
        requires may_be { MayBeAppended what.now }
        ensures all { OnOk result (HasLogged (D.disk disk.old) (D.disk disk.new) (record_value what.now ∷ []) self.old self.new) }
        ensures none { IsErrOf result JournalError.NoMemory → HasLogged (D.disk disk.old) (D.disk disk.new) [] self.old self.new }
        ensures any_moment { (hard waiting : List JournalRecord) → files.HasRecords (D.disk disk.old) self.old.journal (record { hard = hard; opening = []; closed = waiting }) → AtEachMoment (D.disk disk.old) (D.disk disk.new) (OnlyOn (D.disk disk.old) self.old.journal.gated.file (StandsRecords hard [])) }
        ensures frame { OthersStay (Only self.old.journal.gated.file) (D.disk disk.old) (D.disk disk.new) }
        ensures faults { MayFailUncounted (D.disk disk.old).faults (D.disk disk.new).faults (IsErrOf result JournalError.Failed) }
        ensures causes { OnErr result (IsErrOf result JournalError.Failed ⊎ IsErrOf result JournalError.NoMemory) }
    {
        self.journal.prepare(disk, what)?;
        self.journal.append(disk)?;
        self.appended = true;
        Ok(())
    }

    /// Prepares and appends these records, one after another.
    fn log_all<D: Disk>(&mut self, disk: &mut D, records: &[JnlRecord]) -> Result<(), JournalError>
        requires ready { files.IsReady (D.disk disk.old) self.old.journal }
        requires goes_on { IsTrue self.old.appended → HasSyncs self.old.journal }
        requires may_be { AllByRecursion MayBeAppended records.now }
        ensures all { OnOk result (HasLogged (D.disk disk.old) (D.disk disk.new) (map record_value records.now) self.old self.new) }
        ensures fewer { IsErrOf result JournalError.NoMemory → (k : ℕ) × (k < length records.now) × HasLogged (D.disk disk.old) (D.disk disk.new) (take k (map record_value records.now)) self.old self.new }
        ensures any_moment { (hard waiting : List JournalRecord) → files.HasRecords (D.disk disk.old) self.old.journal (record { hard = hard; opening = []; closed = waiting }) → AtEachMoment (D.disk disk.old) (D.disk disk.new) (OnlyOn (D.disk disk.old) self.old.journal.gated.file (StandsRecords hard [])) }
        ensures frame { OthersStay (Only self.old.journal.gated.file) (D.disk disk.old) (D.disk disk.new) }
        ensures faults { MayFailUncounted (D.disk disk.old).faults (D.disk disk.new).faults (IsErrOf result JournalError.Failed) }
        ensures causes { OnErr result (IsErrOf result JournalError.Failed ⊎ IsErrOf result JournalError.NoMemory) }
    {
        for what in records {
            self.log(disk, what)?;
        }
        Ok(())
    }
}

impl RegionJournals {
    /// Appends these records to one region's journal in their order, behind closed gates, and nothing to any other. Each is prepared
    /// right before, so that a hardening of them takes no memory.
    ///
    /// # Errors
    /// `Failed`, where the disk's count rose: the journals are of no more use then. `NoMemory`: the first few of the records wait then,
    /// but not all, and the journals can go on.
    pub fn append_records<D: Disk>(
        &mut self,
        disk: &mut D,
        region: usize,
        records: &[JnlRecord],
    ) -> Result<(), JournalError>
        requires ready { (g : ℕ) × AreReady (D.disk disk.old) g self.old.journals.items }
        requires inside { region < length self.old.journals.items }
        requires may_be { AllByRecursion MayBeAppended records.now }
        ensures ready { OnOk result ((g : ℕ) → AreReady (D.disk disk.old) g self.old.journals.items → AreReady (D.disk disk.new) g self.new.journals.items) }
        ensures goes_on { IsErrOf result JournalError.NoMemory → (g : ℕ) → AreReady (D.disk disk.old) g self.old.journals.items → AreReady (D.disk disk.new) g self.new.journals.items }
        ensures state { OnOk result ((hard waiting : ℕ → List JournalRecord) → KeepsJournals (D.disk disk.old) hard waiting self.old.journals.items → KeepsJournals (D.disk disk.new) hard (λ r. waiting r ++ in_region region (map record_value records.now) r) self.new.journals.items) }
        ensures fewer { IsErrOf result JournalError.NoMemory → (k : ℕ) × (k < length records.now) × ((hard waiting : ℕ → List JournalRecord) → KeepsJournals (D.disk disk.old) hard waiting self.old.journals.items → KeepsJournals (D.disk disk.new) hard (λ r. waiting r ++ in_region region (take k (map record_value records.now)) r) self.new.journals.items) }
        ensures count { length self.new.journals.items ≡ length self.old.journals.items }
        ensures any_moment { (g : ℕ) (hard waiting : ℕ → List JournalRecord) → AreReady (D.disk disk.old) g self.old.journals.items → KeepsJournals (D.disk disk.old) hard waiting self.old.journals.items → AtEachMoment (D.disk disk.old) (D.disk disk.new) (OnlyIn (D.disk disk.old) (IsNewestFile g (length self.old.journals.items)) (HasFirst g (length self.old.journals.items) hard waiting (λ r. 0))) }
        ensures frame { (g : ℕ) → AreReady (D.disk disk.old) g self.old.journals.items → OthersStay (IsNewestFile g (length self.old.journals.items)) (D.disk disk.old) (D.disk disk.new) }
        ensures faults { MayFailUncounted (D.disk disk.old).faults (D.disk disk.new).faults (IsErrOf result JournalError.Failed) }
        ensures causes { OnErr result (IsErrOf result JournalError.Failed ⊎ IsErrOf result JournalError.NoMemory) }
    {
        self.journals[region].log_all(disk, records)
    }
}
