//! Preparing the parts of an entry.
ghost use Rattle.std.specs.Prelude.{◌≡◌, ℕ, List, length, IsTrue, OnOk};
ghost use Rattle.disk_defs.specs.Disk.{Image, AtEachMoment};
ghost use Rattle.disk_defs.specs.Frames.{Only, OthersStay};
ghost use Rattle.journal_defs.specs.Journal.{JournalRecord};
ghost use Rattle.jnl_file.specs.Journal as files;
ghost use Rattle.region_journals.specs.Fronts.{IsNewestFile};
ghost use Rattle.region_journals.specs.Journals.{HasSyncs, AreReady, KeepsJournals, ArePrepared, AreMarked};
ghost use Rattle.region_journals.specs.Turns.{Turned, AllTurned};
ghost use Rattle.region_journals.specs.Entering.{IsPartPrepared, IsUnchanged, Stays};

use crate::journals::{RegionJournal, RegionJournals};
use gvn_key::NoMemory;
use repl_disk::Disk;
use tp_commit::PartRecords;

impl RegionJournal {
    /// Takes all memory and room for this region's part, where it has one.
    fn prepare<D: Disk>(&mut self, disk: &mut D, parts: &PartRecords) -> Result<(), NoMemory>
        requires ready { files.IsReady (D.disk disk.old) self.old.journal }
        requires goes_on { IsTrue self.old.appended → HasSyncs self.old.journal }
        ensures turned { (r : ℕ) → Turned (D.disk disk.old) (D.disk disk.new) IsUnchanged Stays r self.old self.new }
        ensures prepared { OnOk result (IsPartPrepared parts.now self.old.journal.region self.new) }
        ensures any_moment { AtEachMoment (D.disk disk.old) (D.disk disk.new) (Image (D.disk disk.old)) }
        ensures frame { OthersStay (Only self.old.journal.gated.file) (D.disk disk.old) (D.disk disk.new) }
        ensures faults { (D.disk disk.new).faults ≡ (D.disk disk.old).faults }
    {
        match parts.record(self.journal.region) {
            None => Ok(()),
            Some(part) => self.journal.prepare(disk, part),
        }
    }
}

/// Prepares the part of each region that has one.
fn prepare_all<D: Disk>(
    journals: &mut [RegionJournal],
    disk: &mut D,
    parts: &PartRecords,
) -> Result<(), NoMemory>
    requires ready { (g : ℕ) × AreReady (D.disk disk.old) g journals.old }
    ensures turned { AllTurned (D.disk disk.old) (D.disk disk.new) IsUnchanged Stays journals.old journals.new }
    ensures prepared { OnOk result (ArePrepared parts.now journals.new) }
    ensures any_moment { AtEachMoment (D.disk disk.old) (D.disk disk.new) (Image (D.disk disk.old)) }
    ensures frame { (g : ℕ) → AreReady (D.disk disk.old) g journals.old → OthersStay (IsNewestFile g (length journals.old)) (D.disk disk.old) (D.disk disk.new) }
    ensures faults { (D.disk disk.new).faults ≡ (D.disk disk.old).faults }
{
    for journal in journals.iter_mut() {
        journal.prepare(disk, parts)?;
    }
    Ok(())
}

impl RegionJournals {
    /// Takes all memory and room that appending the parts of an entry and hardening them uses. Nothing that the journals have changes,
    /// also without memory.
    pub fn prepare<D: Disk>(&mut self, disk: &mut D, parts: &PartRecords) -> Result<(), NoMemory>
        requires ready { (g : ℕ) × AreReady (D.disk disk.old) g self.old.journals.items }
        ensures ready { (g : ℕ) → AreReady (D.disk disk.old) g self.old.journals.items → AreReady (D.disk disk.new) g self.new.journals.items }
        ensures state { (hard waiting : ℕ → List JournalRecord) → KeepsJournals (D.disk disk.old) hard waiting self.old.journals.items → KeepsJournals (D.disk disk.new) hard waiting self.new.journals.items }
        ensures prepared { OnOk result (ArePrepared parts.now self.new.journals.items) }
        ensures marks { AreMarked (λ r was. was) self.old.journals.items self.new.journals.items }
        ensures count { length self.new.journals.items ≡ length self.old.journals.items }
        ensures any_moment { AtEachMoment (D.disk disk.old) (D.disk disk.new) (Image (D.disk disk.old)) }
        ensures frame { (g : ℕ) → AreReady (D.disk disk.old) g self.old.journals.items → OthersStay (IsNewestFile g (length self.old.journals.items)) (D.disk disk.old) (D.disk disk.new) }
        ensures faults { (D.disk disk.new).faults ≡ (D.disk disk.old).faults }
    {
        prepare_all(self.journals.as_mut_slice(), disk, parts)
    }
}
