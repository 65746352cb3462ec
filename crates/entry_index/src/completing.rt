//! Which entries are complete.
ghost use Rattle.std.specs.Prelude.{◌≡◌, ◌==◌, ◌+◌, ◌<◌, ◌≤◌, ◌^◌, ℕ, List, length, get_or, true, is_some, Option, Some, None, IfOk, IfSome, IsErrOf, IsTrue};
ghost use Rattle.std.specs.List.{list_all};
ghost use Rattle.disk_defs.specs.Disk.{Files, Reads, MayFailUncounted};
ghost use Rattle.global_defs.specs.Entry as defs;
ghost use Rattle.journal_defs.specs.Journal as journal;
ghost use Rattle.journal_defs.specs.Sequence.{REGIONS, items_in, entry_among};
ghost use Rattle.entry_index.specs.RecordSigns.{span_of};
ghost use Rattle.mupip_recover.specs.Entries.{entry_in};
ghost use Rattle.mupip_recover.specs.Slots.{next_after, is_at};
ghost use Rattle.entry_index.specs.Parts.{NOWHERE, InFiles, AreParts};
ghost use Rattle.entry_index.specs.Signs.{Tells};
ghost use Rattle.entry_index.specs.Table.{row_sign, AreSigned};
ghost use Rattle.entry_index.specs.Completing.{agrees_by_sign, span_at, place_told, Decides, IsTold, IsAlone};

use crate::error::IndexError;
use crate::place::{NOWHERE, PartPlace};
use crate::reading::read_transaction;
use crate::sign::Span;
use crate::signed_part::PartSign;
use global_defs::limits::MOST_REGIONS;
use gvn_key::NoMemory;
use repl_disk::Disk;
use std::alloc::Global;

/// What signs tell of an entry by one of its parts.
#[derive(Clone, Copy, Debug)]
pub enum Told {
    /// It's complete.
    Complete,
    /// It isn't complete by this part.
    Broken,
    /// The positions of its updates decide, which signs don't tell.
    Unsure,
}

/// What the sign of a region in a row says.
fn part_in(row: &[Option<PartSign>], region: u8) -> Option<PartSign>
    ensures { result ≡ row_sign row.now region }
{
    match row.get(usize::from(region)) {
        Some(found) => *found,
        None => None,
    }
}

/// Whether a region has a part like this one, or needs none.
fn agrees(row: &[Option<PartSign>], head: &PartSign, region: u8) -> bool
    requires { region < MOST_REGIONS }
    ensures { result ≡ agrees_by_sign head.now (row_sign row.now region) region }
{
    if !head.is_in(region) {
        return true;
    }
    match part_in(row, region) {
        None => false,
        Some(found) => head.is_like(&found),
    }
}

/// Whether each region of a part's mask has a part that is like it.
fn all_agree(row: &[Option<PartSign>], head: &PartSign) -> bool
    ensures { result ≡ list_all (λ r. agrees_by_sign head.now (row_sign row.now r) r) REGIONS }
{
    for region in 0..MOST_REGIONS {
        if !agrees(row, head, region) {
            return false;
        }
    }
    true
}

/// How the positions of a region's items lie, where it's in the mask of this part; those of no item else.
fn span_in(row: &[Option<PartSign>], head: &PartSign, region: u8) -> Span
    requires { region < MOST_REGIONS }
    ensures { result ≡ span_at head.now.mask (row_sign row.now) region }
{
    let nothing = Span {
        first: 0,
        many: 0,
        in_a_row: true,
    };
    if !head.is_in(region) {
        return nothing;
    }
    match part_in(row, region) {
        None => nothing,
        Some(found) => found.span,
    }
}

/// The position after those of a region's items, where these have the positions from `next` on, in order.
fn position_after(next: u16, span: Span) -> Option<u16>
    ensures { IfSome result (λ after. (items : List journal.Item) → span ≡ span_of items → next_after next items ≡ Some after) }
{
    if span.many == 0 {
        return Some(next);
    }
    if !span.in_a_row || span.first != next {
        return None;
    }
    let after = next.checked_add(span.many)?;
    Some(after)
}

/// Whether the items of the regions of a part's mask, one region after the other, have all positions up to its count in order.
fn are_in_order(row: &[Option<PartSign>], head: &PartSign) -> bool
    ensures { IsTrue result → (files : Files) (n : ℕ) (part : ℕ → Option journal.Part) → AreSigned files row.now n part
        → is_at head.now.count (next_after 0 (items_in head.now.mask part)) ≡ true }
{
    let mut next = 0;
    for region in 0..MOST_REGIONS {
        let Some(after) = position_after(next, span_in(row, head, region)) else {
            return false;
        };
        next = after;
    }
    next == head.count
}

/// Whether there are as many items in the regions of a part's mask as it counts.
fn has_count(row: &[Option<PartSign>], head: &PartSign) -> bool
    ensures { (files : Files) (n : ℕ) (part : ℕ → Option journal.Part) → AreSigned files row.now n part
        → result ≡ (length (items_in head.now.mask part) == head.now.count) }
{
    let mut left = head.count;
    for region in 0..MOST_REGIONS {
        let many = span_in(row, head, region).many;
        if many > left {
            return false;
        }
        left -= many;
    }
    left == 0
}

/// What the signs of a row tell of the entry by one of its parts.
fn told_by(row: &[Option<PartSign>], head: &PartSign) -> Told
    ensures { (files : Files) (n : ℕ) (part : ℕ → Option journal.Part) → AreSigned files row.now n part
        → (r : ℕ) (p : journal.Part) → Tells files r n head.now p → Decides result part p }
{
    if !all_agree(row, head) {
        return Told::Broken;
    }
    if are_in_order(row, head) {
        return Told::Complete;
    }
    if has_count(row, head) {
        Told::Unsure
    } else {
        Told::Broken
    }
}

/// Whether a region's part is the only one of its entry, with all positions in order.
pub(crate) fn is_alone(head: &PartSign, region: u8) -> bool
    requires { region < MOST_REGIONS }
    ensures { IsTrue result → IsAlone head.now region }
{
    head.mask == 1 << region
        && head.span.in_a_row
        && head.span.first == 0
        && head.span.many == head.count
}

/// What the signs of a row tell of the entry by its part in a region.
fn told_in(row: &[Option<PartSign>], region: u8) -> Told
    requires { region < MOST_REGIONS }
    ensures { (files : Files) (n : ℕ) (part : ℕ → Option journal.Part) → AreSigned files row.now n part → (stamp : defs.Stamp) → IsTold result (entry_in part stamp region) }
{
    match part_in(row, region) {
        None => Told::Broken,
        Some(head) => {
            if is_alone(&head, region) {
                return Told::Complete;
            }
            told_by(row, &head)
        }
    }
}

/// What the signs of a row tell of the entry: by the first part by which it's complete, or may be.
fn told_at(row: &[Option<PartSign>]) -> Told
    ensures { (files : Files) (n : ℕ) (part : ℕ → Option journal.Part) → AreSigned files row.now n part → (stamp : defs.Stamp) → IsTold result (entry_among part stamp REGIONS) }
{
    for region in 0..MOST_REGIONS {
        match told_in(row, region) {
            Told::Broken => {}
            told => return told,
        }
    }
    Told::Broken
}

/// Where the part of an entry in a region stands.
pub fn place_in(row: &[Option<PartSign>], region: u8) -> PartPlace
    ensures { result ≡ place_told (row_sign row.now region) }
{
    match part_in(row, region) {
        None => NOWHERE,
        Some(found) => found.place,
    }
}

/// The places of an entry's parts, one a region, of so many regions.
fn places_of(
    alloc: Global,
    row: &[Option<PartSign>],
    regions: u8,
) -> Result<Vec<PartPlace>, NoMemory>
    ensures parts { IfOk result (λ made. (files : Files) (n : ℕ) (part : ℕ → Option journal.Part) → AreSigned files row.now n part
        → ((r : ℕ) → regions ≤ r → part r ≡ None) → AreParts (InFiles files) n made.items part) }
    ensures many { IfOk result (λ made. length made.items ≡ regions) }
    ensures told { IfOk result (λ made. (r : ℕ) → r < regions → get_or made.items r NOWHERE ≡ place_told (row_sign row.now r)) }
{
    let mut made = Vec::with_capacity(alloc, usize::from(regions))?;
    for region in 0..regions {
        made.push(place_in(row, region))?;
    }
    Ok(made)
}

/// Whether the entry of a number is complete, by its signs in so many regions.
pub fn is_complete<D: Disk>(
    alloc: Global,
    disk: &mut D,
    row: &[Option<PartSign>],
    number: u64,
    regions: u8,
) -> Result<bool, IndexError>
    requires few { regions ≤ MOST_REGIONS }
    ensures complete { IfOk result (λ complete. IfSome (D.disk disk.old).content (λ files. (part : ℕ → Option journal.Part) → AreSigned files row.now number part → ((r : ℕ) → regions ≤ r → part r ≡ None)
        → (stamp : defs.Stamp) → complete ≡ is_some (entry_among part stamp REGIONS))) }
    ensures outside { (file offset : ℕ) → IsErrOf result (IndexError.NotAFile file offset) → IfSome (D.disk disk.old).content (λ files. (part : ℕ → Option journal.Part) → AreSigned files row.now number part → ((r : ℕ) → regions ≤ r → part r ≡ None) → ⊥) }
    ensures reads { Reads (D.disk disk.old) (D.disk disk.new) }
    ensures faults { MayFailUncounted (D.disk disk.old).faults (D.disk disk.new).faults (IsErrOf result IndexError.Failed) }
{
    match told_at(row) {
        Told::Complete => Ok(true),
        Told::Broken => Ok(false),
        Told::Unsure => {
            let places = places_of(alloc, row, regions)?;
            let found = read_transaction(alloc, disk, places.as_slice(), number)?;
            Ok(found.is_some())
        }
    }
}
