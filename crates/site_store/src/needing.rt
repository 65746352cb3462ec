//! Regions that need forward recovery.
ghost use Rattle.std.specs.Prelude.{◌≡◌, ℕ, List, None, IfOk, IfSome};
ghost use Rattle.journal_defs.specs.Sequence.{Placed};
ghost use Rattle.site_store.specs.Needing.{IsFirstWithout, NoneIsWithout};
ghost use Rattle.site_store.specs.Standing.{HasFound, found_records, found_signs};
ghost use Rattle.region_opening.specs.Signs.{AllSay};

use crate::preparing::FoundFiles;
use gvn_key::NoMemory;
use region_opening::{WithoutImages, first_without_images};
use std::alloc::Global;

/// The first region of a site that was found that needs forward recovery for so many of its first entries, and its first generation
/// that makes it so.
pub fn first_needing(
    alloc: Global,
    found: &FoundFiles,
    target: u64,
) -> Result<Option<WithoutImages>, NoMemory>
    requires has { HasFound found.now }
    ensures none { IfOk result (λ first. first ≡ None → (journal : ℕ → List Placed) → AllSay found.now.read.log.records target (found_signs found.now) journal → NoneIsWithout (found_records found.now journal) target) }
    ensures first { IfOk result (λ first. IfSome first (λ x. (journal : ℕ → List Placed) → AllSay found.now.read.log.records target (found_signs found.now) journal → IsFirstWithout (found_records found.now journal) target x.region x.generation)) }
{
    first_without_images(alloc, &found.read.log.records, &found.read.signs, target)
}
