//! What commands keep of fit worlds.

ghost use Rattle.std.specs.Prelude.{◌≡◌, ℕ, List, IsTrue};
ghost use Rattle.std.specs.List.{AllByRecursion};
ghost use Rattle.command_defs.specs.Commands.{Command, IsFormed};
ghost use Rattle.world_defs.specs.World.{World};
ghost use Rattle.world_defs.specs.Answers.{Answer};
ghost use Rattle.world_defs.specs.Step.{Step, CutOff};
ghost use Rattle.world_defs.specs.Runs.{Told, Runs, commands};
ghost use Rattle.world_defs.specs.Fit.{IsFit};
ghost use Rattle.world_laws.specs.Again.{HasFitOutcomes};

/// Whatever commands mean, a fit world stays fit: serials and cycles never go back, and few reigns begin.
pub fn steps_keep_fit()
    ensures step { (w m : World) (c : Command) (answers : List Answer) (text : List ℕ) → IsFormed c → IsFit w → Step w c answers m text → IsFit m }
    ensures runs { (w m : World) (told : List Told) (text : List ℕ) → AllByRecursion IsFormed (commands told) → IsFit w → Runs w told m text → IsFit m }
    // what a command that was cut off for want of memory may leave
    ensures cut_off { (w m : World) (c : Command) → IsFormed c → IsFit w → CutOff w c m → AllByRecursion HasFitOutcomes m.places }
{}
