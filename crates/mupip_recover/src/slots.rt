//! Updates at their positions.
ghost use Rattle.std.specs.Prelude.{◌≡◌, ◌+◌, ◌<◌, ◌∷◌, [], ◌++◌, ℕ, List, map, replicate, Some, None, IfOk, OnOk};
ghost use Rattle.std.specs.Option.{option_map};
ghost use Rattle.global_defs.specs.Entry as defs;
ghost use Rattle.gvn_key.specs.Terms.{update_value};
ghost use Rattle.gvn_model.specs.Items.{item_value};
ghost use Rattle.mupip_recover.specs.Slots.{AreSlots, all_of, next_after};

use gvn_key::NoMemory;
use gvn_key::terms::Update;
use gvn_model::{Item, Updates};
use std::alloc::Global;

/// An equal update.
fn copy_of(update: &Update) -> Result<Update, NoMemory>
    ensures { IfOk result (λ made. made ≡ update.now) }
{
    Ok(match update {
        Update::Set(key, value) => Update::Set(key.copy()?, value.copy()?),
        Update::Kill(key) => Update::Kill(key.copy()?),
        Update::ZKill(key) => Update::ZKill(key.copy()?),
    })
}

/// So many empty slots.
pub fn empty_slots(alloc: Global, count: u16) -> Result<Vec<Option<Update>>, NoMemory>
    ensures { IfOk result (λ made. made.items ≡ replicate count None) }
{
    let mut made = Vec::new(alloc);
    for _slot in 0..count {
        made.push(None)?;
    }
    Ok(made)
}

/// Puts a copy of an item's update into its slot, if that is there and empty.
fn put(slots: &mut Vec<Option<Update>>, item: &Item) -> Result<(), NoMemory>
    ensures { OnOk result ((count : ℕ) (items : List defs.Item) → AreSlots count items slots.old.items → AreSlots count (items ++ item_value item.now ∷ []) slots.new.items) }
{
    let position = usize::from(item.position);
    if position < slots.len() && slots[position].is_none() {
        slots[position] = Some(copy_of(&item.update)?);
    }
    Ok(())
}

/// Puts copies of the updates of all items into their slots.
pub fn put_all(slots: &mut Vec<Option<Update>>, added: &[Item]) -> Result<(), NoMemory>
    ensures { OnOk result ((count : ℕ) (items : List defs.Item) → AreSlots count items slots.old.items → AreSlots count (items ++ map item_value added.now) slots.new.items) }
{
    for item in added {
        put(slots, item)?;
    }
    Ok(())
}

/// The updates of all slots, where none is empty.
pub fn updates_in(alloc: Global, slots: Vec<Option<Update>>) -> Result<Option<Updates>, NoMemory>
    ensures { IfOk result (λ found. found ≡ all_of (map (option_map update_value) slots.items)) }
{
    let mut updates = Updates::new(alloc);
    for slot in slots {
        let Some(update) = slot else {
            return Ok(None);
        };
        updates.push(update)?;
    }
    Ok(Some(updates))
}

/// The position after those of the items, where these have the positions from `first` on, in order.
pub fn position_after(first: usize, items: &[Item]) -> Option<usize>
    ensures { result ≡ next_after first (map item_value items.now) }
{
    let mut next = first;
    for item in items {
        let position = usize::from(item.position);
        if position != next {
            return None;
        }
        next = position + 1;
    }
    Some(next)
}

/// Adds copies of the updates of all items.
pub fn add_copies(updates: &mut Updates, added: &[Item]) -> Result<(), NoMemory>
    ensures { OnOk result (updates.new ≡ updates.old ++ map (λ x. x.update) (map item_value added.now)) }
{
    for item in added {
        updates.push(copy_of(&item.update)?)?;
    }
    Ok(())
}
