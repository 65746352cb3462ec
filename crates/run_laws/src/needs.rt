//! Whether a site's regions need forward recovery, by its files.

ghost use Rattle.std.specs.Prelude.{◌∷◌, List, [], ℕ, Bool};
ghost use Rattle.command_defs.specs.Commands.{Name, SetJournal, StartPrimary, Stop, Resync, RecoverBackward, RecoverForward};
ghost use Rattle.world_defs.specs.World.{Place, World, IfKnown};
ghost use Rattle.world_defs.specs.Answers.{Done, Refused, NeedForward, NoBefore};
ghost use Rattle.world_defs.specs.Step.{Step};
ghost use Rattle.world_defs.specs.Ties.{Matches, AreShown};
ghost use Rattle.world_defs.specs.Without.{IsWithoutNeed};
ghost use Rattle.world_defs.specs.rows.Rollback.{stay};
ghost use Rattle.world_laws.specs.Entries.{IsPlaceOf};
ghost use Rattle.run_laws.specs.Needs.{NoneNeeds, NeedsFirst, NeedsFirstForAll, IsTiedApart, all_of, showing};

use repl_disk::Disk;

/// In a world that shows, of each disk whose files are known, files that stand for what its place has, as each world behind a command of a run does,
/// NEEDFORWARD and NOBEFORE are answered exactly by these: where a START, a RECOVER BACKWARD or a ROLLBACK was done, no region of the files needed forward recovery, and where it was refused so,
/// the region that it names was the first one that did. It does nothing.
pub fn needs_are_exact()
    ensures started { (w m : World) (name : Name) (text : List ℕ) (p q : Place) → AreShown w → Step w (StartPrimary name) (Done ∷ []) m text → IsPlaceOf name w m p q → NoneNeeds all_of p }
    ensures not_started { (w m : World) (name region : Name) (text : List ℕ) (p q : Place) → AreShown w → Step w (StartPrimary name) (Refused (record { site = name; cause = NeedForward region }) ∷ []) m text → IsPlaceOf name w m p q → NeedsFirstForAll region p }
    ensures recovered { (w m : World) (name : Name) (text : List ℕ) (p q : Place) → AreShown w → Step w (RecoverBackward name) (Done ∷ []) m text → IsPlaceOf name w m p q → NoneNeeds all_of p }
    ensures not_recovered { (w m : World) (name region : Name) (text : List ℕ) (p q : Place) → AreShown w → Step w (RecoverBackward name) (Refused (record { site = name; cause = NeedForward region }) ∷ []) m text → IsPlaceOf name w m p q → NeedsFirstForAll region p }
    ensures rolled_back { (w m : World) (name : Name) (number : ℕ) (text : List ℕ) (p q : Place) → AreShown w → Step w (Resync name number) (Done ∷ []) m text → IsPlaceOf name w m p q → NoneNeeds (stay number) p }
    ensures not_rolled_back { (w m : World) (name region : Name) (number g : ℕ) (text : List ℕ) (p q : Place) → AreShown w → Step w (Resync name number) (Refused (record { site = name; cause = NoBefore region g }) ∷ []) m text → IsPlaceOf name w m p q → NeedsFirst (stay number) region g p }
{}

/// Behind a STOP, a RECOVER or a ROLLBACK that was done no region of the site needs forward recovery, so a START right behind it isn't refused
/// for that, whatever images its regions keep; and a SET JOURNAL between them keeps it so. It does nothing.
pub fn closed_sites_need_none()
    ensures stop { (w m : World) (name : Name) (text : List ℕ) (p q : Place) → Step w (Stop name) (Done ∷ []) m text → AreShown m → IsPlaceOf name w m p q → NoneNeeds all_of q }
    ensures recovered { (w m : World) (name : Name) (text : List ℕ) (p q : Place) → Step w (RecoverBackward name) (Done ∷ []) m text → AreShown m → IsPlaceOf name w m p q → NoneNeeds all_of q }
    ensures recovered_forward { (w m : World) (name : Name) (text : List ℕ) (p q : Place) → Step w (RecoverForward name) (Done ∷ []) m text → AreShown m → IsPlaceOf name w m p q → NoneNeeds all_of q }
    ensures rolled_back { (w m : World) (name : Name) (number : ℕ) (text : List ℕ) (p q : Place) → Step w (Resync name number) (Done ∷ []) m text → AreShown m → IsPlaceOf name w m p q → NoneNeeds all_of q }
    ensures set_journal { (w m : World) (name region : Name) (before : Bool) (text : List ℕ) (p q : Place) → Step w (SetJournal name region before) (Done ∷ []) m text → AreShown m → IsPlaceOf name w m p q → IsWithoutNeed p → NoneNeeds all_of q }
    ensures started { (w m k : World) (name region : Name) (text rest : List ℕ) (p q x : Place) → Step w (Stop name) (Done ∷ []) m text → AreShown m → IsPlaceOf name w m p q → Step m (StartPrimary name) (Refused (record { site = name; cause = NeedForward region }) ∷ []) k rest → IsPlaceOf name m k q x → IfKnown q ⊥ }
{}

/// A world that shows what its known disks read as asks nothing of these: a disk that is tied to a place in all else is tied to the same place
/// that shows what the disk reads as. It does nothing.
pub fn any_disk_can_be_shown<D: Disk>(disk: &D)
    ensures { (p : Place) → IsTiedApart (D.disk disk.now) p → Matches (D.disk disk.now) (showing (D.disk disk.now) p) }
{}
