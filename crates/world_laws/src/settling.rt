//! What an open site's disk has for good.

ghost use Rattle.std.specs.Prelude.{List, ℕ};
ghost use Rattle.std.specs.List.{AllByRecursion};
ghost use Rattle.command_defs.specs.Commands.{Command};
ghost use Rattle.world_defs.specs.World.{World, IsFresh};
ghost use Rattle.world_defs.specs.Answers.{Answer};
ghost use Rattle.world_defs.specs.Step.{Step};
ghost use Rattle.world_defs.specs.Runs.{Told, Runs};
ghost use Rattle.world_laws.specs.Settled.{IsSettledPlace, IsBarePlace};

/// Whatever commands run from a world without sites, each open site whose files are known has one outcome, which is what its files
/// read as, and nothing lies behind it.
pub fn open_sites_are_settled()
    ensures step { (w m : World) (c : Command) (answers : List Answer) (text : List ℕ) → AllByRecursion IsSettledPlace w.places → Step w c answers m text → AllByRecursion IsSettledPlace m.places }
    ensures runs { (w m : World) (told : List Told) (text : List ℕ) → IsFresh w → Runs w told m text → AllByRecursion IsSettledPlace m.places }
{}

/// Whatever commands run from a world without sites, of each open site whose files are known it is known what lies behind the sequence
/// in each image, and that is nothing.
pub fn open_sites_have_nothing_behind()
    ensures step { (w m : World) (c : Command) (answers : List Answer) (text : List ℕ) → AllByRecursion IsBarePlace w.places → Step w c answers m text → AllByRecursion IsBarePlace m.places }
    ensures runs { (w m : World) (told : List Told) (text : List ℕ) → IsFresh w → Runs w told m text → AllByRecursion IsBarePlace m.places }
{}
