// Where sites stand.
ghost use Rattle.std.specs.Prelude.{◌≡◌, ◌≤◌, ◌<◌, ◌++◌, ◌∷◌, [], length, remove, insert, swap, take, slice_get, Some, IfSome, OnSome, MatchOption, vec_capacity, option_map};
ghost use Rattle.site_defs.specs.Lists.{first_where};
ghost use Rattle.site_runner.specs.Sites.{is_slot_named, is_slot_free};

use super::slot::Slot;
use global_defs::limits::MOST_SITES;
use repl_disk::Disk;

fn is_named<D: Disk>(slot: &Slot<D>, name: &[u8]) -> bool
    ensures { result ≡ is_slot_named name.now slot.now }
{
    match slot.name() {
        None => false,
        Some(own) => own.as_slice() == name,
    }
}

fn is_free<D: Disk>(slot: &Slot<D>) -> bool
    ensures { result ≡ is_slot_free slot.now }
{
    matches!(slot, Slot::Free(_))
}

/// The place of the first site with that name.
pub fn find<D: Disk>(slots: &[Slot<D>], name: &[u8]) -> Option<usize>
    ensures place { result ≡ first_where (is_slot_named name.now) slots.now }
    ensures inside { IfSome result (λ i. i < length slots.now) }
{
    for (i, slot) in slots.iter().enumerate() {
        if is_named(slot, name) {
            return Some(i);
        }
    }
    None
}

/// The place of the next site to be made.
fn find_free<D: Disk>(slots: &[Slot<D>]) -> Option<usize>
    ensures place { result ≡ first_where is_slot_free (take 8 slots.now) }
    ensures inside { IfSome result (λ i. i < length slots.now) }
{
    let most = slots.len().min(MOST_SITES);
    for (i, slot) in slots[..most].iter().enumerate() {
        if is_free(slot) {
            return Some(i);
        }
    }
    None
}

/// Takes out the disk of the next site to be made, and answers its place too.
pub fn take_free<D: Disk>(slots: &mut Vec<Slot<D>>) -> Option<(usize, D)>
    ensures place { option_map (λ found. found.0) result ≡ first_where is_slot_free (take 8 slots.old.items) }
    ensures taken { IfSome result (λ found. (slice_get slots.old.items found.0 ≡ Some (Slot.Free found.1)) × (slots.new.items ≡ remove slots.old.items found.0)) }
    ensures room { OnSome result (length slots.new.items < vec_capacity slots.new) }
    ensures none { MatchOption result (slots.new.items ≡ slots.old.items) (λ _. Unit {0}) }
{
    let i = find_free(slots)?;
    match slots.remove(i) {
        Slot::Free(disk) => Some((i, disk)),
        _ => unreachable!(),
    }
}

/// Puts a slot back at the place from which it was taken out.
pub fn put_back<D: Disk>(slots: &mut Vec<Slot<D>>, i: usize, slot: Slot<D>)
    requires inside { i ≤ length slots.old.items }
    requires room { length slots.old.items < vec_capacity slots.old }
    ensures { slots.new.items ≡ insert slots.old.items i slot }
{
    if slots.insert(i, slot).is_err() {
        unreachable!();
    }
}

/// Puts a slot back at the place from which it was taken out, where the last slot stands meanwhile, which goes back too.
pub fn put_back_swapped<D: Disk>(slots: &mut Vec<Slot<D>>, i: usize, slot: Slot<D>)
    requires inside { i ≤ length slots.old.items }
    requires room { length slots.old.items < vec_capacity slots.old }
    ensures { slots.new.items ≡ swap (slots.old.items ++ slot ∷ []) i (length slots.old.items) }
{
    let last = slots.len();
    if slots.push(slot).is_err() {
        unreachable!();
    }
    slots.swap(i, last);
}
