//! Regions that need forward recovery.
ghost use Rattle.std.specs.Prelude.{◌≡◌, ◌≤◌, ℕ, List, length, map, None, IfOk, IfSome};
ghost use Rattle.global_defs.specs.declared.limits.TheConstants.{MOST_REGIONS};
ghost use Rattle.journal_defs.specs.Epochs.{chosen, first_without};
ghost use Rattle.journal_defs.specs.Sequence.{Placed};
ghost use Rattle.region_opening.specs.Signs.{Say, AllSay};
ghost use Rattle.region_opening.specs.Forward.{NoneNeeds, IsFirstWithout};

use super::epoch::chosen_epoch;
use super::forward::first_without;
use super::starting::signs_at;
use entry_index::PlacedSign;
use gvn_key::NoMemory;
use instance_file::InstanceRecords;
use std::alloc::Global;

/// A region that needs forward recovery for a target (GT.M: its journals were NOBEFORE).
#[derive(Clone, Copy, Debug, PartialEq, Eq)]
pub struct WithoutImages {
    /// Its number.
    pub region: u8,
    /// The first generation without images that has a record behind the epoch that it has chosen for the target.
    pub generation: u32,
}

/// The first generation of a region without images behind the epoch that it has chosen for a target, where there is one.
fn without_for(
    alloc: Global,
    instance: &InstanceRecords,
    target: u64,
    signs: &[PlacedSign],
) -> Result<Option<u32>, NoMemory>
    ensures { IfOk result (λ found. (journal : List Placed) → Say signs.now journal → found ≡ first_without journal (chosen instance.now target journal)) }
{
    let epoch = chosen_epoch(instance, target, signs);
    first_without(alloc, signs, epoch)
}

/// The first region that needs forward recovery for a target, by the records of a site's instance file and the signs of its regions'
/// records, a list for each region. A region that needs none goes back to the epoch that it has chosen for the target.
pub fn first_without_images(
    alloc: Global,
    instance: &InstanceRecords,
    signs: &[Vec<PlacedSign>],
    target: u64,
) -> Result<Option<WithoutImages>, NoMemory>
    requires few { length signs.now ≤ MOST_REGIONS }
    ensures none { IfOk result (λ found. found ≡ None → (journal : ℕ → List Placed) → AllSay instance.now target (map (λ s. s.items) signs.now) journal → NoneNeeds instance.now target journal (length signs.now)) }
    ensures first { IfOk result (λ found. IfSome found (λ x. (journal : ℕ → List Placed) → AllSay instance.now target (map (λ s. s.items) signs.now) journal → IsFirstWithout instance.now target journal (length signs.now) x)) }
{
    for number in 0..signs.len() {
        let region = signs_at(signs, number);
        if let Some(generation) = without_for(alloc, instance, target, region)? {
            return Ok(Some(WithoutImages {
                region: number as u8,
                generation,
            }));
        }
    }
    Ok(None)
}
