//! Which region needs forward recovery, as contents tell it.
ghost use Rattle.std.specs.Prelude.{◌≡◌, ◌⊎◌, ℕ, Some, None};
ghost use Rattle.disk_defs.specs.Disk.{Files};
ghost use Rattle.journal_defs.specs.Sequence.{Records};
ghost use Rattle.journal_defs.specs.Stands.{AreRecords};
ghost use Rattle.command_defs.specs.Commands.{Name};
ghost use Rattle.site_defs.specs.Contents.{Contents};
ghost use Rattle.site_defs.specs.Stands.{IsSite};
ghost use Rattle.world_defs.specs.Without.{IsFirstWithout, NoneIsWithout, needing, MayNeed};

/// Where each epoch that is gone back to stands in a generation with images, contents tell exactly which region needs forward recovery
/// first and by which generation, as the records of the files do. It does nothing.
pub fn needs_are_told()
    ensures none { (files : Files) (c : Contents) (u : Records) (t : ℕ) → IsSite files c → AreRecords files u → NoneIsWithout u t → (needing c t ≡ Some None) ⊎ (needing c t ≡ None) }
    ensures first { (files : Files) (c : Contents) (u : Records) (t : ℕ) (name : Name) (g : ℕ) → IsSite files c → AreRecords files u → IsFirstWithout name g u t
        → (needing c t ≡ Some (Some (name, g))) ⊎ MayNeed name g c t }
{}
