//! Which entries are complete.
ghost use Rattle.std.specs.Prelude.{◌≡◌, ◌==◌, ◌||◌, ◌+◌, ◌<◌, not, [], map, length, IfOk, IfSome, OnOk};
ghost use Rattle.std.specs.List.{list_all, flat_map};
ghost use Rattle.std.specs.Option.{option_map};
ghost use Rattle.global_defs.specs.Entry as defs;
ghost use Rattle.journal_defs.specs.Sequence.{REGIONS, in_mask, is_like, items_in, updates_by, entry_among};
ghost use Rattle.gvn_model.specs.Items.{item_value};
ghost use Rattle.mupip_recover.specs.Parts.{part_value, items_at};
ghost use Rattle.mupip_recover.specs.Table.{part_at};
ghost use Rattle.mupip_recover.specs.Slots.{AreSlots, next_after, is_at};
ghost use Rattle.mupip_recover.specs.Entries.{entry_in, stamped};

use super::part::Part;
use super::slots::{add_copies, empty_slots, position_after, put_all, updates_in};
use super::table::Table;
use global_defs::limits::MOST_REGIONS;
use gvn_key::NoMemory;
use gvn_key::terms::Update;
use gvn_model::{Item, Transaction, Updates};
use std::alloc::Global;

/// Whether a region has a part like this one, or needs none.
fn agrees(table: &Table, place: usize, head: &Part, region: u8) -> bool
    requires { region < MOST_REGIONS }
    ensures { result ≡ (not (in_mask head.now.mask region) || is_like (part_value head.now) (part_at table.now place region)) }
{
    if !head.is_in(region) {
        return true;
    }
    match table.part(place, region) {
        None => false,
        Some(found) => head.is_like(found),
    }
}

/// Whether each region of a part's mask has a part that is like it.
fn all_agree(table: &Table, place: usize, head: &Part) -> bool
    ensures { result ≡ list_all (λ r. not (in_mask head.now.mask r) || is_like (part_value head.now) (part_at table.now place r)) REGIONS }
{
    for region in 0..MOST_REGIONS {
        if !agrees(table, place, head, region) {
            return false;
        }
    }
    true
}

/// The items of a region, or none where it isn't in the mask of this part.
fn items_of<'a>(table: &'a Table, place: usize, head: &Part, region: u8) -> &'a [Item]
    requires { region < MOST_REGIONS }
    ensures { map item_value result.now ≡ items_at head.now.mask (part_at table.now place) region }
{
    if !head.is_in(region) {
        return &[];
    }
    match table.part(place, region) {
        None => &[],
        Some(found) => found.items.as_slice(),
    }
}

/// Whether there are as many items in the regions of a part's mask as it counts.
fn has_count(table: &Table, place: usize, head: &Part) -> bool
    ensures { result ≡ (length (items_in head.now.mask (part_at table.now place)) == head.now.count) }
{
    let mut left = usize::from(head.count);
    for region in 0..MOST_REGIONS {
        let many = items_of(table, place, head, region).len();
        if many > left {
            return false;
        }
        left -= many;
    }
    left == 0
}

/// A slot for each position, with the updates of the regions of a part's mask.
fn slots_of(
    alloc: Global,
    table: &Table,
    place: usize,
    head: &Part,
) -> Result<Vec<Option<Update>>, NoMemory>
    ensures { IfOk result (λ made. AreSlots head.now.count (items_in head.now.mask (part_at table.now place)) made.items) }
{
    let mut slots = empty_slots(alloc, head.count)?;
    for region in 0..MOST_REGIONS {
        put_all(&mut slots, items_of(table, place, head, region))?;
    }
    Ok(slots)
}

/// Whether the items of the regions of a part's mask, one region after the other, have all positions up to its count in order.
fn are_in_order(table: &Table, place: usize, head: &Part) -> bool
    ensures { result ≡ is_at head.now.count (next_after 0 (items_in head.now.mask (part_at table.now place))) }
{
    let mut next = 0;
    for region in 0..MOST_REGIONS {
        let Some(after) = position_after(next, items_of(table, place, head, region)) else {
            return false;
        };
        next = after;
    }
    next == usize::from(head.count)
}

/// Copies of the updates of the regions of a part's mask, one region after the other.
fn copies_of(alloc: Global, table: &Table, place: usize, head: &Part) -> Result<Updates, NoMemory>
    ensures { IfOk result (λ made. made ≡ map (λ x. x.update) (items_in head.now.mask (part_at table.now place))) }
{
    let mut made = Updates::with_capacity(alloc, usize::from(head.count))?;
    for region in 0..MOST_REGIONS {
        add_copies(&mut made, items_of(table, place, head, region))?;
    }
    Ok(made)
}

/// The updates of an entry by one of its parts, where it is complete.
fn updates_of(
    alloc: Global,
    table: &Table,
    place: usize,
    head: &Part,
) -> Result<Option<Updates>, NoMemory>
    ensures { IfOk result (λ found. found ≡ updates_by (part_at table.now place) (part_value head.now)) }
{
    if !all_agree(table, place, head) {
        return Ok(None);
    }
    if are_in_order(table, place, head) {
        return Ok(Some(copies_of(alloc, table, place, head)?));
    }
    if !has_count(table, place, head) {
        return Ok(None);
    }
    updates_in(alloc, slots_of(alloc, table, place, head)?)
}

/// The transaction that is complete by the part of a region.
fn transaction_by(
    alloc: Global,
    table: &Table,
    place: usize,
    region: u8,
) -> Result<Option<Transaction>, NoMemory>
    ensures { IfOk result (λ found. (stamp : defs.Stamp) → entry_in (part_at table.now place) stamp region ≡ option_map (stamped stamp) found) }
{
    let Some(head) = table.part(place, region) else {
        return Ok(None);
    };
    let Some(updates) = updates_of(alloc, table, place, head)? else {
        return Ok(None);
    };
    Ok(Some(Transaction {
        origin: head.origin,
        updates,
    }))
}

/// The transaction at a place of a table, where it is complete by the part of some region: each region of that part's mask has a part
/// that is like it, and the positions of their items fit. The first such region decides.
pub fn transaction_at(
    alloc: Global,
    table: &Table,
    place: usize,
) -> Result<Option<Transaction>, NoMemory>
    ensures { IfOk result (λ found. (stamp : defs.Stamp) → entry_among (part_at table.now place) stamp REGIONS ≡ option_map (stamped stamp) found) }
{
    for region in 0..MOST_REGIONS {
        if let Some(found) = transaction_by(alloc, table, place, region)? {
            return Ok(Some(found));
        }
    }
    Ok(None)
}
