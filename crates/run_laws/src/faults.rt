//! Nothing fails by itself.

ghost use Rattle.std.specs.Prelude.{List, ℕ};
ghost use Rattle.std.specs.List.{AllByRecursion};
ghost use Rattle.command_defs.specs.Commands.{Command};
ghost use Rattle.world_defs.specs.World.{World};
ghost use Rattle.world_defs.specs.Answers.{Answer};
ghost use Rattle.world_defs.specs.Step.{Step, CutOff};
ghost use Rattle.world_defs.specs.Runs.{Told, Runs};
ghost use Rattle.world_laws.specs.Faults.{NoCountFell, NoCountRose, TellsNoFault, NoFaultIsTold};

/// Whatever commands mean, no disk's count of faults falls, and where no disk's count rose no answer tells of a fault.
pub fn faults_are_told_where_counts_rose()
    ensures step { (w m : World) (c : Command) (answers : List Answer) (text : List ℕ) → Step w c answers m text → NoCountFell w m }
    ensures step_told { (w m : World) (c : Command) (answers : List Answer) (text : List ℕ) → Step w c answers m text → NoCountRose w m → AllByRecursion TellsNoFault answers }
    ensures runs { (w m : World) (told : List Told) (text : List ℕ) → Runs w told m text → NoCountFell w m }
    ensures runs_told { (w m : World) (told : List Told) (text : List ℕ) → Runs w told m text → NoCountRose w m → NoFaultIsTold told }
    // nor does a command that was cut off for want of memory lower a count
    ensures cut_off { (w m : World) (c : Command) → CutOff w c m → NoCountFell w m }
{}
