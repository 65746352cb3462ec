//! What a ROLLBACK drops is written.

ghost use Rattle.std.specs.Prelude.{◌∷◌, List, [], ℕ};
ghost use Rattle.command_defs.specs.Commands.{Name, Resync};
ghost use Rattle.world_defs.specs.World.{Place, World};
ghost use Rattle.world_defs.specs.Answers.{Done, DiskFault};
ghost use Rattle.world_defs.specs.Step.{Step, CutOff};
ghost use Rattle.world_laws.specs.Entries.{IsPlaceOf};
ghost use Rattle.run_laws.specs.Lost.{WritesLostThere, KeepsOrWrites};

/// Once a ROLLBACK was done the first entries stay, whatever a crash leaves, and the others are the lost-transaction file whose generation it printed.
/// Where it was not, an image has all entries, or those that were to stay; and then it has that file too, with all that it hasn't.
pub fn rollbacks_write_what_is_lost()
    ensures done { (w m : World) (name : Name) (number : ℕ) (text : List ℕ) (p q : Place) → Step w (Resync name number) (Done ∷ []) m text → IsPlaceOf name w m p q → WritesLostThere number text p q }
    ensures fault { (w m : World) (name : Name) (number k : ℕ) (text : List ℕ) (p q : Place) → Step w (Resync name number) (DiskFault k ∷ []) m text → IsPlaceOf name w m p q → KeepsOrWrites number p q }
    ensures cut_off { (w m : World) (name : Name) (number : ℕ) (p q : Place) → CutOff w (Resync name number) m → IsPlaceOf name w m p q → KeepsOrWrites number p q }
{}
