//! Hardening in rounds.
ghost use Rattle.std.specs.Prelude.{◌≡◌, ◌≤◌, ◌<◌, ◌++◌, ℕ, List, [], length, slice_get, Some, IsTrue, OnOk, OnErr, IsErrOf};
ghost use Rattle.disk_defs.specs.Disk.{AtEachMoment, HasCause};
ghost use Rattle.disk_defs.specs.Frames.{Only, OnlyIn, OnlyOn, OthersStay};
ghost use Rattle.journal_defs.specs.Numbers.{journal_file};
ghost use Rattle.journal_defs.specs.Journal.{JournalRecord};
ghost use Rattle.jnl_file.specs.Records.{StandsRecords};
ghost use Rattle.jnl_file.specs.Journal as files;
ghost use Rattle.region_journals.specs.Fronts.{IsNewestFile, HasFirst};
ghost use Rattle.region_journals.specs.Journals.{AreOpen, AreReady, KeepsJournals, IsHardened};
ghost use Rattle.region_journals.specs.Turns.{Turned, AllTurned};
ghost use Rattle.region_journals.specs.Rounds.{Before, HasDone, Becomes, before};

use crate::journals::{RegionJournal, RegionJournals};
use jnl_file::JournalError;
use repl_disk::Disk;

/// A step of hardening, which is done in all regions before the next one begins.
#[derive(Clone, Copy)]
enum Round {
    /// The bodies of all that was appended are put on the disk.
    SyncBodies,
    /// Their gates are opened.
    OpenGates,
    /// The open gates are put on the disk.
    SyncGates,
}

impl RegionJournal {
    /// Does a round in this region, where something was appended since the last hardening.
    fn harden_by<D: Disk>(&mut self, disk: &mut D, round: Round) -> Result<(), JournalError>
        requires ready { files.IsReady (D.disk disk.old) self.old.journal }
        requires goes_on { IsTrue self.old.appended → Before round self.old.journal }
        ensures turned { OnOk result ((r : ℕ) → Turned (D.disk disk.old) (D.disk disk.new) (HasDone round) (Becomes round) r self.old self.new) }
        ensures any_moment { (hard waiting : List JournalRecord) → files.HasRecords (D.disk disk.old) self.old.journal (before round hard waiting) → AtEachMoment (D.disk disk.old) (D.disk disk.new) (OnlyOn (D.disk disk.old) self.old.journal.gated.file (StandsRecords hard waiting)) }
        ensures frame { OthersStay (Only self.old.journal.gated.file) (D.disk disk.old) (D.disk disk.new) }
        ensures cause { HasCause (D.disk disk.old).faults (D.disk disk.new).faults result }
        ensures failed { OnErr result (IsErrOf result JournalError.Failed) }
    {
        if !self.appended {
            return Ok(());
        }
        match round {
            Round::SyncBodies => self.journal.sync(disk),
            Round::OpenGates => self.journal.open_gates(disk),
            Round::SyncGates => {
                self.journal.sync(disk)?;
                self.appended = false;
                Ok(())
            }
        }
    }
}

/// Does a round in each region.
fn harden_all<D: Disk>(
    journals: &mut [RegionJournal],
    disk: &mut D,
    round: Round,
) -> Result<(), JournalError>
    requires ready { (g : ℕ) × AreOpen (D.disk disk.old) g (Before round) journals.old }
    ensures turned { OnOk result (AllTurned (D.disk disk.old) (D.disk disk.new) (HasDone round) (Becomes round) journals.old journals.new) }
    ensures any_moment { (g : ℕ) (hard waiting : ℕ → List JournalRecord) → AreOpen (D.disk disk.old) g (Before round) journals.old → ((r : ℕ) (x : RegionJournal) → slice_get journals.old r ≡ Some x → files.HasRecords (D.disk disk.old) x.journal (before round (hard r) (waiting r))) → AtEachMoment (D.disk disk.old) (D.disk disk.new) (OnlyIn (D.disk disk.old) (IsNewestFile g (length journals.old)) (λ c. (r : ℕ) → r < length journals.old → StandsRecords (hard r) (waiting r) (c (journal_file g r)))) }
    ensures frame { (g : ℕ) → AreOpen (D.disk disk.old) g (Before round) journals.old → OthersStay (IsNewestFile g (length journals.old)) (D.disk disk.old) (D.disk disk.new) }
    ensures cause { HasCause (D.disk disk.old).faults (D.disk disk.new).faults result }
    ensures failed { OnErr result (IsErrOf result JournalError.Failed) }
{
    for journal in journals.iter_mut() {
        journal.harden_by(disk, round)?;
    }
    Ok(())
}

impl RegionJournals {
    /// Puts all that was appended on the disk for good, in rounds: it syncs the bodies in all regions to which something was
    /// appended, then opens their gates, and then syncs these regions again. It does nothing in the others, and takes no memory.
    ///
    /// # Errors
    /// `Failed` alone, where the disk's count rose. The journals are of no more use then.
    pub fn harden<D: Disk>(&mut self, disk: &mut D) -> Result<(), JournalError>
        requires ready { (g : ℕ) × AreReady (D.disk disk.old) g self.old.journals.items }
        ensures ready { OnOk result ((g : ℕ) → AreReady (D.disk disk.old) g self.old.journals.items → AreReady (D.disk disk.new) g self.new.journals.items) }
        ensures state { OnOk result ((hard waiting : ℕ → List JournalRecord) → KeepsJournals (D.disk disk.old) hard waiting self.old.journals.items → KeepsJournals (D.disk disk.new) (λ r. hard r ++ waiting r) (λ r. []) self.new.journals.items) }
        ensures each { OnOk result ((r : ℕ) (x y : RegionJournal) → slice_get self.old.journals.items r ≡ Some x → slice_get self.new.journals.items r ≡ Some y → IsHardened x y) }
        ensures count { length self.new.journals.items ≡ length self.old.journals.items }
        ensures any_moment { (g : ℕ) (hard waiting : ℕ → List JournalRecord) → AreReady (D.disk disk.old) g self.old.journals.items → KeepsJournals (D.disk disk.old) hard waiting self.old.journals.items → AtEachMoment (D.disk disk.old) (D.disk disk.new) (OnlyIn (D.disk disk.old) (IsNewestFile g (length self.old.journals.items)) (λ c. (kept : ℕ → ℕ) × HasFirst g (length self.old.journals.items) hard waiting kept c)) }
        ensures frame { (g : ℕ) → AreReady (D.disk disk.old) g self.old.journals.items → OthersStay (IsNewestFile g (length self.old.journals.items)) (D.disk disk.old) (D.disk disk.new) }
        ensures cause { HasCause (D.disk disk.old).faults (D.disk disk.new).faults result }
        ensures failed { OnErr result (IsErrOf result JournalError.Failed) }
    {
        let journals = self.journals.as_mut_slice();
        harden_all(journals, disk, Round::SyncBodies)?;
        harden_all(journals, disk, Round::OpenGates)?;
        harden_all(journals, disk, Round::SyncGates)
    }
}
