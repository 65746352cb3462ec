//! Which epoch a region goes back to.
ghost use Rattle.std.specs.Prelude.{◌≡◌, ◌≤◌, ◌&&◌, nat_le, List, length, IfSome};
ghost use Rattle.std.specs.Option.{option_map};
ghost use Rattle.journal_defs.specs.Epochs.{chosen};
ghost use Rattle.journal_defs.specs.Sequence.{Placed};
ghost use Rattle.journal_defs.specs.Surviving.{survives};
ghost use Rattle.region_opening.specs.Signs.{Say, epoch_by};
ghost use Rattle.region_opening.specs.Epochs.{chosen_at};

use entry_index::{PlacedSign, Sign};
use instance_file::InstanceRecords;
use mupip_recover::survives;

/// An epoch of a region: the number of entries at it, how many blocks its database file had, and the place of the first record
/// behind it in the region's journals. Where a region has none it is the empty database before all records, with zeros alone.
#[derive(Clone, Copy, Debug, PartialEq, Eq)]
pub struct EpochAt {
    pub number: u64,
    pub blocks: u32,
    pub after: usize,
}

/// Whether an epoch of this generation with this number survives and isn't past the target.
fn counts(instance: &InstanceRecords, target: u64, generation: u32, number: u64) -> bool
    ensures { result ≡ (survives instance.now generation number && nat_le number target) }
{
    survives(instance, generation, number) && number <= target
}

/// The epoch that a record with this sign is, if it counts, with the records from a place on behind it.
fn epoch_in(
    instance: &InstanceRecords,
    target: u64,
    placed: &PlacedSign,
    after: usize,
) -> Option<EpochAt>
    ensures epoch { (behind : List Placed) → epoch_by instance.now target placed.now.generation placed.now.sign behind ≡ option_map (λ e. record { number = e.number; blocks = e.blocks; after = behind }) result }
    ensures after { IfSome result (λ e. e.after ≡ after) }
    ensures number { IfSome result (λ e. e.number ≤ target) }
{
    match placed.sign {
        Sign::Epoch {
            closing: _,
            number,
            blocks,
        } => {
            if counts(instance, target, placed.generation, number) {
                Some(EpochAt {
                    number,
                    blocks,
                    after,
                })
            } else {
                None
            }
        }
        Sign::Pini { .. } | Sign::Pblk { .. } | Sign::Tcom { .. } => None,
    }
}

/// The last epoch of a region that survives, also with a CUT to this target, and whose number is at most the target. It looks
/// from the sign of the last record on backward.
pub fn chosen_epoch(instance: &InstanceRecords, target: u64, signs: &[PlacedSign]) -> EpochAt
    ensures chosen { (journal : List Placed) → Say signs.now journal → chosen instance.now target journal ≡ chosen_at result journal }
    ensures inside { result.after ≤ length signs.now }
    ensures number { result.number ≤ target }
{
    let mut end = signs.len();
    while 0 < end {
        if let Some(epoch) = epoch_in(instance, target, &signs[end - 1], end) {
            return epoch;
        }
        end -= 1;
    }
    EpochAt {
        number: 0,
        blocks: 0,
        after: 0,
    }
}
