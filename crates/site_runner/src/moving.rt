// Disks in and out of the slots.
ghost use Rattle.std.specs.Prelude.{◌≡◌, ◌≤◌, [], map, length, IfOk, OnErr, vec_capacity};
ghost use Rattle.site_runner.specs.Moved.{free_slot};
ghost use Rattle.site_runner.specs.Sites.{disk_in};

use super::slot::Slot;
use gvn_key::NoMemory;
use repl_disk::Disk;
use std::alloc::Global;

/// Takes all disks, none of them a site's yet. For want of memory they stay where they are.
pub fn take_disks<D: Disk>(alloc: Global, disks: &mut Vec<D>) -> Result<Vec<Slot<D>>, NoMemory>
    ensures taken { IfOk result (λ slots. slots.items ≡ map free_slot disks.old.items) }
    ensures room { IfOk result (λ slots. length slots.items ≤ vec_capacity disks.new) }
    ensures emptied { IfOk result (λ slots. disks.new.items ≡ []) }
    ensures kept { OnErr result (disks.new.items ≡ disks.old.items) }
{
    let mut slots = Vec::new(alloc);
    if slots.reserve(disks.len()).is_err() {
        return Err(NoMemory);
    }
    while let Some(disk) = disks.pop() {
        if slots.push(Slot::Free(disk)).is_err() {
            unreachable!();
        }
    }
    slots.reverse();
    Ok(slots)
}

/// Gives the disks back, in their order.
pub fn give_back<D: Disk>(mut slots: Vec<Slot<D>>, disks: &mut Vec<D>)
    requires empty { disks.old.items ≡ [] }
    requires room { length slots.items ≤ vec_capacity disks.old }
    ensures { disks.new.items ≡ map disk_in slots.items }
{
    slots.reverse();
    while let Some(slot) = slots.pop() {
        if disks.push(slot.into_disk()).is_err() {
            unreachable!();
        }
    }
}
