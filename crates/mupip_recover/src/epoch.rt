//! Which epoch a region goes back to.
ghost use Rattle.std.specs.Prelude.{◌≡◌, ◌≤◌, ◌&&◌, nat_le, List, length, map, IfSome};
ghost use Rattle.std.specs.Option.{option_map};
ghost use Rattle.journal_defs.specs.Epochs.{epoch_in, chosen};
ghost use Rattle.journal_defs.specs.Sequence.{Placed};
ghost use Rattle.journal_defs.specs.Surviving.{survives};
ghost use Rattle.jnl_record.specs.Values.{record_value, placed_value};
ghost use Rattle.mupip_recover.specs.Epochs.{chosen_at};

use super::surviving::survives;
use instance_file::InstanceRecords;
use jnl_record::{JnlRecord, PlacedRecord};

/// An epoch of a region: the number of entries at it, how many blocks its database file had, and the place of the first record
/// behind it in the region's journals. Where a region has none it is the empty database before all records, with zeros alone.
#[derive(Clone, Copy, Debug, PartialEq, Eq)]
pub struct EpochAt {
    pub number: u64,
    pub blocks: u32,
    pub after: usize,
}

/// Whether an epoch of this generation with this number survives and isn't past the target.
fn counts(instance: &InstanceRecords, target: u64, generation: u32, number: u64) -> bool
    ensures { result ≡ (survives instance.now generation number && nat_le number target) }
{
    survives(instance, generation, number) && number <= target
}

/// The epoch that this record is, if it counts, with the records from a place on behind it.
fn epoch_in(
    instance: &InstanceRecords,
    target: u64,
    placed: &PlacedRecord,
    after: usize,
) -> Option<EpochAt>
    ensures epoch { (behind : List Placed) → epoch_in instance.now target placed.now.generation (record_value placed.now.what) behind ≡ option_map (λ e. record { number = e.number; blocks = e.blocks; after = behind }) result }
    ensures after { IfSome result (λ e. e.after ≡ after) }
{
    match placed.what {
        JnlRecord::Epoch {
            closing: _,
            number,
            blocks,
        } => {
            if counts(instance, target, placed.generation, number) {
                Some(EpochAt {
                    number,
                    blocks,
                    after,
                })
            } else {
                None
            }
        }
        JnlRecord::Pini { .. } | JnlRecord::Pblk { .. } | JnlRecord::Tcom { .. } => None,
    }
}

/// The last epoch of a region that survives, also with a CUT to this target, and whose number is at most the target. It looks
/// from the last record on backward.
pub fn chosen_epoch(instance: &InstanceRecords, target: u64, journal: &[PlacedRecord]) -> EpochAt
    ensures chosen { chosen instance.now target (map placed_value journal.now) ≡ chosen_at result journal.now }
    ensures inside { result.after ≤ length journal.now }
{
    let mut end = journal.len();
    while 0 < end {
        if let Some(epoch) = epoch_in(instance, target, &journal[end - 1], end) {
            return epoch;
        }
        end -= 1;
    }
    EpochAt {
        number: 0,
        blocks: 0,
        after: 0,
    }
}
