//! Which regions need forward recovery.
ghost use Rattle.std.specs.Prelude.{◌≡◌, List, map, IfOk};
ghost use Rattle.std.specs.List.{find};
ghost use Rattle.std.specs.Ordering.{nat_cmp};
ghost use Rattle.std.specs.BTreeSet.{contains};
ghost use Rattle.journal_defs.specs.Epochs.{first_without};
ghost use Rattle.journal_defs.specs.Sequence.{Placed};
ghost use Rattle.region_opening.specs.Signs.{Say, starts_by, AreWithout};
ghost use Rattle.region_opening.specs.Epochs.{chosen_at};

use super::epoch::EpochAt;
use entry_index::{PlacedSign, Sign};
use gvn_key::NoMemory;
use std::alloc::Global;
use std::collections::BTreeSet;

/// Whether a generation that keeps no images begins with a record of this sign.
fn starts_without(sign: &Sign) -> bool
    ensures { result ≡ starts_by sign.now }
{
    match sign {
        Sign::Pini { before, .. } => !*before,
        Sign::Epoch { .. } | Sign::Pblk { .. } | Sign::Tcom { .. } => false,
    }
}

/// The generations of a region that keep no images.
fn all_without(alloc: Global, signs: &[PlacedSign]) -> Result<BTreeSet<u32>, NoMemory>
    ensures { IfOk result (AreWithout signs.now) }
{
    let mut made = BTreeSet::new(alloc);
    for placed in signs {
        if starts_without(&placed.sign) {
            made.insert(placed.generation)?;
        }
    }
    Ok(made)
}

/// The first of these generations in which one of the records stands.
fn first_among(generations: &BTreeSet<u32>, behind: &[PlacedSign]) -> Option<u32>
    ensures { result ≡ find (contains nat_cmp generations.now) (map (λ p. p.generation) behind.now) }
{
    if generations.is_empty() {
        return None;
    }
    for placed in behind {
        if generations.contains(&placed.generation) {
            return Some(placed.generation);
        }
    }
    None
}

/// The first generation of a region that keeps no images and has an open record behind an epoch. Where there is one for the epoch
/// that the region has chosen, the region needs forward recovery. It takes memory for the generations without images alone.
pub fn first_without(
    alloc: Global,
    signs: &[PlacedSign],
    epoch: EpochAt,
) -> Result<Option<u32>, NoMemory>
    ensures first { IfOk result (λ found. (journal : List Placed) → Say signs.now journal → found ≡ first_without journal (chosen_at epoch journal)) }
{
    let generations = all_without(alloc, signs)?;
    let (_, behind) = signs.split_at(epoch.after.min(signs.len()));
    Ok(first_among(&generations, behind))
}
