//! Appending the parts of an entry.
ghost use Rattle.std.specs.Prelude.{◌≡◌, ◌≤◌, ◌<◌, ◌++◌, ◌||◌, ℕ, List, [], length, slice_get, Some, is_some, IsTrue, OnOk, OnErr, IsErrOf};
ghost use Rattle.disk_defs.specs.Disk.{Image, AtEachMoment, HasCause};
ghost use Rattle.disk_defs.specs.Frames.{Only, OnlyIn, OnlyOn, OthersStay};
ghost use Rattle.journal_defs.specs.Numbers.{journal_file};
ghost use Rattle.journal_defs.specs.Journal.{JournalRecord};
ghost use Rattle.jnl_file.specs.Records.{StandsRecords};
ghost use Rattle.jnl_file.specs.Journal as files;
ghost use Rattle.region_journals.specs.Fronts.{IsNewestFile, HasFirst};
ghost use Rattle.region_journals.specs.Journals.{HasSyncs, AreOpen, AreReady, KeepsJournals, ArePrepared, AreMarked, part_in, listed};
ghost use Rattle.region_journals.specs.Turns.{Turned, AllTurned};
ghost use Rattle.region_journals.specs.Entering.{IsPartPrepared, IsUnchanged, Stays, HasTaken, Takes};

use crate::journals::{RegionJournal, RegionJournals};
use jnl_file::JournalError;
use repl_disk::Disk;
use tp_commit::PartRecords;

impl RegionJournal {
    /// Appends this region's part, where it has one.
    fn append<D: Disk>(&mut self, disk: &mut D, parts: &PartRecords) -> Result<(), JournalError>
        requires ready { files.IsReady (D.disk disk.old) self.old.journal }
        requires goes_on { IsTrue self.old.appended → HasSyncs self.old.journal }
        requires prepared { IsPartPrepared parts.now self.old.journal.region self.old }
        ensures turned { OnOk result (Turned (D.disk disk.old) (D.disk disk.new) (HasTaken parts.now) (Takes parts.now) self.old.journal.region self.old self.new) }
        ensures any_moment { (hard waiting : List JournalRecord) → files.HasRecords (D.disk disk.old) self.old.journal (record { hard = hard; opening = []; closed = waiting }) → AtEachMoment (D.disk disk.old) (D.disk disk.new) (OnlyOn (D.disk disk.old) self.old.journal.gated.file (StandsRecords hard [])) }
        ensures frame { OthersStay (Only self.old.journal.gated.file) (D.disk disk.old) (D.disk disk.new) }
        ensures cause { HasCause (D.disk disk.old).faults (D.disk disk.new).faults result }
        ensures failed { OnErr result (IsErrOf result JournalError.Failed) }
    {
        match parts.record(self.journal.region) {
            None => Ok(()),
            Some(_) => {
                self.journal.append(disk)?;
                self.appended = true;
                Ok(())
            }
        }
    }
}

/// Appends the part of each region that has one.
fn append_all<D: Disk>(
    journals: &mut [RegionJournal],
    disk: &mut D,
    parts: &PartRecords,
) -> Result<(), JournalError>
    requires ready { (g : ℕ) × AreReady (D.disk disk.old) g journals.old }
    requires prepared { ArePrepared parts.now journals.old }
    ensures turned { OnOk result (AllTurned (D.disk disk.old) (D.disk disk.new) (HasTaken parts.now) (Takes parts.now) journals.old journals.new) }
    ensures any_moment { (g : ℕ) (hard waiting : ℕ → List JournalRecord) → AreReady (D.disk disk.old) g journals.old → KeepsJournals (D.disk disk.old) hard waiting journals.old → AtEachMoment (D.disk disk.old) (D.disk disk.new) (OnlyIn (D.disk disk.old) (IsNewestFile g (length journals.old)) (λ c. (r : ℕ) → r < length journals.old → StandsRecords (hard r) [] (c (journal_file g r)))) }
    ensures frame { (g : ℕ) → AreReady (D.disk disk.old) g journals.old → OthersStay (IsNewestFile g (length journals.old)) (D.disk disk.old) (D.disk disk.new) }
    ensures cause { HasCause (D.disk disk.old).faults (D.disk disk.new).faults result }
    ensures failed { OnErr result (IsErrOf result JournalError.Failed) }
{
    for journal in journals.iter_mut() {
        journal.append(disk, parts)?;
    }
    Ok(())
}

impl RegionJournals {
    /// Appends the parts of an entry that were prepared, behind closed gates: in each region that has a part exactly that, and
    /// nothing in any other. It takes no memory.
    ///
    /// # Errors
    /// `Failed` alone, where the disk's count rose. The journals are of no more use then.
    pub fn append<D: Disk>(&mut self, disk: &mut D, parts: &PartRecords) -> Result<(), JournalError>
        requires ready { (g : ℕ) × AreReady (D.disk disk.old) g self.old.journals.items }
        requires prepared { ArePrepared parts.now self.old.journals.items }
        ensures ready { OnOk result ((g : ℕ) → AreReady (D.disk disk.old) g self.old.journals.items → AreReady (D.disk disk.new) g self.new.journals.items) }
        ensures state { OnOk result ((hard waiting : ℕ → List JournalRecord) → KeepsJournals (D.disk disk.old) hard waiting self.old.journals.items → KeepsJournals (D.disk disk.new) hard (λ r. waiting r ++ listed (part_in parts.now r)) self.new.journals.items) }
        ensures marks { OnOk result (AreMarked (λ r was. was || is_some (part_in parts.now r)) self.old.journals.items self.new.journals.items) }
        ensures count { length self.new.journals.items ≡ length self.old.journals.items }
        ensures any_moment { (g : ℕ) (hard waiting : ℕ → List JournalRecord) → AreReady (D.disk disk.old) g self.old.journals.items → KeepsJournals (D.disk disk.old) hard waiting self.old.journals.items → AtEachMoment (D.disk disk.old) (D.disk disk.new) (OnlyIn (D.disk disk.old) (IsNewestFile g (length self.old.journals.items)) (HasFirst g (length self.old.journals.items) hard waiting (λ r. 0))) }
        ensures frame { (g : ℕ) → AreReady (D.disk disk.old) g self.old.journals.items → OthersStay (IsNewestFile g (length self.old.journals.items)) (D.disk disk.old) (D.disk disk.new) }
        ensures cause { HasCause (D.disk disk.old).faults (D.disk disk.new).faults result }
        ensures failed { OnErr result (IsErrOf result JournalError.Failed) }
    {
        append_all(self.journals.as_mut_slice(), disk, parts)
    }
}
