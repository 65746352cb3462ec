//! What taking an epoch leaves.

ghost use Rattle.std.specs.Prelude.{◌≡◌, ◌<◌, ℕ, length};
ghost use Rattle.disk_defs.specs.Disk.{Files};
ghost use Rattle.journal_defs.specs.Epochs.{chosen};
ghost use Rattle.journal_defs.specs.Instance.{regions};
ghost use Rattle.journal_defs.specs.Sequence.{Records};
ghost use Rattle.journal_defs.specs.Stands.{AreRecords};
ghost use Rattle.site_defs.specs.Contents.{Contents};
ghost use Rattle.site_defs.specs.Epochs.{marked, HasEpochs};
ghost use Rattle.site_defs.specs.Stands.{IsSite};

/// Where an epoch of all entries was taken, each region goes back to it; and so it does in the records of any files that stand for that.
pub fn epochs_are_of_all_entries()
    ensures taken { (c : Contents) → HasEpochs (marked c) }
    ensures held { (f : Files) (c : Contents) → IsSite f c → HasEpochs c → (s : Records) → AreRecords f s → (r : ℕ) → r < length (regions c.instance) → (chosen s.instance (length c.sequence) (s.journal r)).number ≡ length c.sequence }
{}
