//! From where a region is opened.
ghost use Rattle.std.specs.Prelude.{◌≡◌, ◌≤◌, List, length, map, IfOk};
ghost use Rattle.journal_defs.specs.Sequence.{Placed};
ghost use Rattle.entry_index.specs.Signs.{signs_of};
ghost use Rattle.region_opening.specs.Epochs.{chosen_at};
ghost use Rattle.region_opening.specs.Signs.{Say};
ghost use Rattle.region_opening.specs.Opening.{IsStart};

use super::epoch::{EpochAt, chosen_epoch};
use super::forward::first_without;
use entry_index::PlacedSign;
use gvn_key::NoMemory;
use instance_file::InstanceRecords;
use std::alloc::Global;

/// The signs of a region's records; none where there is no list for it.
pub(crate) fn signs_at(signs: &[Vec<PlacedSign>], number: usize) -> &[PlacedSign]
    ensures { result.now ≡ signs_of (map (λ s. s.items) signs.now) number }
{
    match signs.get(number) {
        Some(region) => region.as_slice(),
        None => &[],
    }
}

/// The epoch to which a region goes back, or behind all records nothing, where it needs forward recovery.
pub(crate) fn start_of(
    alloc: Global,
    instance: &InstanceRecords,
    target: u64,
    signs: &[PlacedSign],
) -> Result<EpochAt, NoMemory>
    ensures inside { IfOk result (λ e. e.after ≤ length signs.now) }
    ensures number { IfOk result (λ e. e.number ≤ target) }
    ensures start { IfOk result (λ e. (journal : List Placed) → Say signs.now journal → IsStart instance.now target journal (chosen_at e journal)) }
{
    let epoch = chosen_epoch(instance, target, signs);
    let found = first_without(alloc, signs, epoch)?;
    if found.is_some() {
        return Ok(EpochAt {
            number: 0,
            blocks: 0,
            after: signs.len(),
        });
    }
    Ok(epoch)
}
