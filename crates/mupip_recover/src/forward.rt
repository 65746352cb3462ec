//! Which regions need forward recovery.
ghost use Rattle.std.specs.Prelude.{◌≡◌, map, IfOk};
ghost use Rattle.std.specs.List.{find};
ghost use Rattle.std.specs.Ordering.{nat_cmp};
ghost use Rattle.std.specs.BTreeSet.{contains};
ghost use Rattle.journal_defs.specs.Epochs.{starts_without, first_without};
ghost use Rattle.jnl_record.specs.Values.{record_value, placed_value};
ghost use Rattle.mupip_recover.specs.Epochs.{chosen_at};
ghost use Rattle.mupip_recover.specs.Without.{AreWithout};

use super::epoch::EpochAt;
use gvn_key::NoMemory;
use jnl_record::{JnlRecord, PlacedRecord};
use std::alloc::Global;
use std::collections::BTreeSet;

/// Whether a generation that keeps no images begins with this record.
fn starts_without(what: &JnlRecord) -> bool
    ensures { result ≡ starts_without (record_value what.now) }
{
    match what {
        JnlRecord::Pini { before, .. } => !*before,
        JnlRecord::Epoch { .. } | JnlRecord::Pblk { .. } | JnlRecord::Tcom { .. } => false,
    }
}

/// The generations of a region that keep no images.
fn all_without(alloc: Global, journal: &[PlacedRecord]) -> Result<BTreeSet<u32>, NoMemory>
    ensures { IfOk result (AreWithout journal.now) }
{
    let mut made = BTreeSet::new(alloc);
    for placed in journal {
        if starts_without(&placed.what) {
            made.insert(placed.generation)?;
        }
    }
    Ok(made)
}

/// The first of these generations in which one of the records stands.
fn first_among(generations: &BTreeSet<u32>, behind: &[PlacedRecord]) -> Option<u32>
    ensures { result ≡ find (contains nat_cmp generations.now) (map (λ p. p.generation) behind.now) }
{
    if generations.is_empty() {
        return None;
    }
    for placed in behind {
        if generations.contains(&placed.generation) {
            return Some(placed.generation);
        }
    }
    None
}

/// The first generation of a region that keeps no images and has an open record behind an epoch. Where there is one for the epoch
/// that the region has chosen, the region needs forward recovery. It takes memory for the generations without images alone.
pub fn first_without(
    alloc: Global,
    journal: &[PlacedRecord],
    epoch: EpochAt,
) -> Result<Option<u32>, NoMemory>
    ensures first { IfOk result (λ found. found ≡ first_without (map placed_value journal.now) (chosen_at epoch journal.now)) }
{
    let generations = all_without(alloc, journal)?;
    let (_, behind) = journal.split_at(epoch.after.min(journal.len()));
    Ok(first_among(&generations, behind))
}
