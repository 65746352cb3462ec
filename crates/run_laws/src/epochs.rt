//! What EPOCH and STOP leave, and what a site is left with that was rolled back or recovered.

ghost use Rattle.std.specs.Prelude.{◌∷◌, List, [], ℕ};
ghost use Rattle.command_defs.specs.Commands.{Name, Stop, Epoch, Resync, RecoverBackward, RecoverForward};
ghost use Rattle.world_defs.specs.World.{Place, World};
ghost use Rattle.world_defs.specs.Answers.{Done};
ghost use Rattle.world_defs.specs.Step.{Step};
ghost use Rattle.world_laws.specs.Entries.{IsPlaceOf};
ghost use Rattle.run_laws.specs.Epochs.{EndsInEpochs};

/// Once an EPOCH or a STOP was done, a RECOVER or a ROLLBACK, each region of that site goes back to an epoch of all entries, whatever a crash leaves.
pub fn epochs_are_taken()
    ensures epoch { (w m : World) (name : Name) (text : List ℕ) (p q : Place) → Step w (Epoch name) (Done ∷ []) m text → IsPlaceOf name w m p q → EndsInEpochs q }
    ensures stop { (w m : World) (name : Name) (text : List ℕ) (p q : Place) → Step w (Stop name) (Done ∷ []) m text → IsPlaceOf name w m p q → EndsInEpochs q }
    ensures recovered { (w m : World) (name : Name) (text : List ℕ) (p q : Place) → Step w (RecoverBackward name) (Done ∷ []) m text → IsPlaceOf name w m p q → EndsInEpochs q }
    ensures recovered_forward { (w m : World) (name : Name) (text : List ℕ) (p q : Place) → Step w (RecoverForward name) (Done ∷ []) m text → IsPlaceOf name w m p q → EndsInEpochs q }
    ensures rolled_back { (w m : World) (name : Name) (number : ℕ) (text : List ℕ) (p q : Place) → Step w (Resync name number) (Done ∷ []) m text → IsPlaceOf name w m p q → EndsInEpochs q }
{}
