//! The updates of a transaction as lists of items, one a region.
ghost use Rattle.std.specs.Prelude.{◌≡◌, ◌≤◌, ◌<◌, ◌^◌, ◌++◌, ◌∷◌, [], ℕ, List, length, map, take, replicate, set, get_or, IfOk, OnOk};
ghost use Rattle.global_defs.specs.declared.limits.TheConstants.{MOST_REGIONS};
ghost use Rattle.gvn_model.specs.Items.{item_value};
ghost use Rattle.journal_defs.specs.Fit.{region_of_update};
ghost use Rattle.journal_defs.specs.Sequence.{REGIONS};
ghost use Rattle.journal_defs.specs.Split.{items_for};
ghost use Rattle.tp_commit.specs.Parts.{mask_by};

use super::updates::{copy_update, name_of};
use global_dir::Directory;
use gvn_key::NoMemory;
use gvn_model::{Item, Items, Updates};
use std::alloc::Global;

/// So many empty lists.
fn empty_lists(alloc: Global, count: u8) -> Result<Vec<Items>, NoMemory>
    ensures { IfOk result (λ made. made.items ≡ replicate count []) }
{
    let mut lists = Vec::with_capacity(alloc, usize::from(count))?;
    for _ in 0..count {
        lists.push(Items::new(alloc))?;
    }
    Ok(lists)
}

/// Adds an item to the list of a region.
fn push_item(lists: &mut Vec<Items>, region: usize, item: Item) -> Result<(), NoMemory>
    requires { region < length lists.old.items }
    ensures { OnOk result (lists.new.items ≡ set lists.old.items region (get_or lists.old.items region [] ++ item_value item ∷ [])) }
{
    lists[region].push(item)
}

/// The items of each of the first so many regions, among which are those that there are: each update goes to the region of its name, at
/// its position in the transaction.
pub fn items_by_region(
    alloc: Global,
    updates: &Updates,
    directory: &Directory,
    count: u8,
) -> Result<Vec<Items>, NoMemory>
    requires short { length updates.now < 2 ^ 16 }
    requires all { directory.now.regions ≤ count }
    requires few { count ≤ MOST_REGIONS }
    ensures { IfOk result (λ made. made.items ≡ take count (map (λ r. items_for (region_of_update directory.now.patterns) r updates.now) REGIONS)) }
{
    let _regions = directory.regions();
    let mut lists = empty_lists(alloc, count)?;
    let list = updates.as_slice();
    for (i, update) in list.iter().enumerate() {
        let region = directory.region_of(name_of(update));
        let item = Item {
            position: i as u16,
            update: copy_update(update)?,
        };
        push_item(&mut lists, usize::from(region), item)?;
    }
    Ok(lists)
}

/// The regions that have an item, as a mask: bit r stands for region r.
pub fn mask_by(lists: &[Items]) -> u8
    requires { length lists.now ≤ MOST_REGIONS }
    ensures { result ≡ mask_by lists.now }
{
    let mut mask = 0;
    for (region, items) in lists.iter().enumerate() {
        if !items.is_empty() {
            mask += 1u8 << region;
        }
    }
    mask
}
