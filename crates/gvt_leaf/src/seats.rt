//! Where keys stand in a chain of leaves.
ghost use Rattle.std.specs.Prelude.{◌≡◌, ◌≢◌, ◌<◌, ◌≤◌, false, [], length, take, drop, option_map};
ghost use Rattle.std.specs.Option.{option_copied};
ghost use Rattle.std.specs.Ordering.{nat_cmp, is_lt};
ghost use Rattle.std.specs.Cmp.Lexicographic.{slice_cmp};
ghost use Rattle.std.specs.declared.cmp.Ordering.TheVariants.{Less};
ghost use Rattle.std.specs.List.{AllByRecursion, find};
ghost use Rattle.std.specs.FinMap as globals;
ghost use Rattle.block_fmt.specs.Cells.{cell_at, AreBelow, AreAbove};
ghost use Rattle.gvt_leaf.specs.Chained.{leaf_cells, all_cells};
ghost use Rattle.gvt_leaf.specs.Order.{AreRising, IsSeat};

use super::chain::Chain;
use block_fmt::Block;
use std::cmp::Ordering;

/// Whether a leaf begins behind a key.
fn begins_behind(chain: &Chain, i: usize, key: &[u8]) -> bool
    requires inside { i < length chain.now.leaves }
    requires some { leaf_cells chain.now.leaves i ≢ [] }
    ensures { result ≡ is_lt (slice_cmp nat_cmp key.now (cell_at (leaf_cells chain.now.leaves i) 0).0) }
{
    matches!(key.cmp(chain.leaf(i).key(0)), Ordering::Less)
}

/// Where in the chain the leaf of a key stands. It looks by halves.
pub(crate) fn seat(chain: &Chain, key: &[u8]) -> usize
    requires { AreRising chain.now.leaves }
    ensures { IsSeat chain.now.leaves key.now result }
{
    let mut low = 0;
    let mut high = chain.len();
    while 1 < high - low {
        let middle = low + (high - low) / 2;
        if begins_behind(chain, middle, key) {
            high = middle;
        } else {
            low = middle;
        }
    }
    low
}

/// The place in a leaf of the first cell that isn't before a key.
pub(crate) fn place_of(leaf: &Block, key: &[u8]) -> u32
    ensures inside { result ≤ length leaf.now.cells }
    ensures before { AreBelow (take result leaf.now.cells) key.now }
    ensures behind { AllByRecursion (λ c. slice_cmp nat_cmp c.0 key.now ≡ Less → ⊥) (drop result leaf.now.cells) }
{
    match leaf.find(key) {
        Ok(place) => place,
        Err(place) => place,
    }
}

/// The place in a leaf of the first cell past a key.
fn place_past(leaf: &Block, key: &[u8]) -> u32
    ensures inside { result ≤ length leaf.now.cells }
    ensures before { AllByRecursion (λ c. is_lt (slice_cmp nat_cmp key.now c.0) ≡ false) (take result leaf.now.cells) }
    ensures behind { AreAbove (drop result leaf.now.cells) key.now }
{
    match leaf.find(key) {
        Ok(place) => place + 1,
        Err(place) => place,
    }
}

/// The value of a key, if it has one.
pub(crate) fn value_of<'a>(chain: &'a Chain, key: &[u8]) -> Option<&'a [u8]>
    requires { AreRising chain.now.leaves }
    ensures { option_copied result ≡ globals.find (slice_cmp nat_cmp) key.now (all_cells chain.now.leaves) }
{
    let leaf = chain.leaf(seat(chain, key));
    match leaf.find(key) {
        Ok(place) => Some(leaf.value(place)),
        Err(_) => None,
    }
}

/// The key of the first cell past a key, if there is one.
pub(crate) fn first_past<'a>(chain: &'a Chain, key: &[u8]) -> Option<&'a [u8]>
    requires { AreRising chain.now.leaves }
    ensures { option_copied result ≡ option_map (λ c. c.0) (find (λ c. is_lt (slice_cmp nat_cmp key.now c.0)) (all_cells chain.now.leaves)) }
{
    let count = chain.len();
    let i = seat(chain, key);
    let leaf = chain.leaf(i);
    let place = place_past(leaf, key);
    if place < leaf.len() {
        Some(leaf.key(place))
    } else if i + 1 < count {
        Some(chain.leaf(i + 1).key(0))
    } else {
        None
    }
}
