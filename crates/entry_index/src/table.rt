//! Signs of parts by number and region.
ghost use Rattle.std.specs.Prelude.{◌≡◌, ◌+◌, ◌<◌, ℕ, List, map, length, replicate, Some, None, IfOk, IfSome, OnOk, count_by, sum_by};
ghost use Rattle.std.specs.Option.{option_or};
ghost use Rattle.journal_defs.specs.Instance as instances;
ghost use Rattle.mupip_recover.specs.Cuts.{AreCuts};
ghost use Rattle.entry_index.specs.Signs.{is_part_sign, part_sign_in, if_numbered, sign_in, last_sign, signs_of};
ghost use Rattle.entry_index.specs.Table.{sign_in_column, sign_at, row_sign, IsColumn};

use crate::placed::PlacedSign;
use crate::signed_part::{PartSign, part_sign};
use gvn_key::NoMemory;
use mupip_recover::Cuts;
use std::alloc::Global;

/// The sign of the last surviving part of each entry in each region.
#[derive(Debug, Drop)]
pub struct SignTable<'a> {
    /// A column for each region, with a place for each number from 1 on.
    pub columns: Vec<Vec<Option<&'a PlacedSign>>>,
}

/// How many signs are those of parts.
fn count_in(signs: &[PlacedSign]) -> usize
    ensures { result ≡ count_by is_part_sign signs.now }
{
    let mut count = 0;
    for placed in signs {
        if part_sign(placed).is_some() {
            count += 1;
        }
    }
    count
}

/// How many signs are those of parts in all regions, where that can be counted.
pub fn count_all(signs: &[Vec<PlacedSign>]) -> Option<usize>
    ensures { IfSome result (λ n. n ≡ sum_by (λ s. count_by is_part_sign s.items) signs.now) }
{
    let mut count = 0usize;
    for region in signs {
        count = count.checked_add(count_in(region))?;
    }
    Some(count)
}

/// Puts the sign of a part at the place of its number, if there is such a place.
fn put<'a>(column: &mut Vec<Option<&'a PlacedSign>>, placed: &'a PlacedSign, part: &PartSign)
    requires { part_sign_in placed.now ≡ Some part.now }
    ensures many { length column.new.items ≡ length column.old.items }
    ensures put { (i : ℕ) → i < length column.old.items
        → sign_in_column i column.new.items ≡ option_or (if_numbered (i + 1) (part_sign_in placed.now)) (sign_in_column i column.old.items) }
{
    if part.number >= 1 && part.number <= column.len() as u64 {
        column[(part.number - 1) as usize] = Some(placed);
    }
}

/// Puts a sign at the place of its part's number, if that survives.
fn put_surviving<'a>(cuts: &Cuts, column: &mut Vec<Option<&'a PlacedSign>>, placed: &'a PlacedSign)
    requires { (rs : List instances.InstanceRecord) × AreCuts rs cuts.now }
    ensures many { length column.new.items ≡ length column.old.items }
    ensures put { (rs : List instances.InstanceRecord) → AreCuts rs cuts.now → (i : ℕ) → i < length column.old.items
        → sign_in_column i column.new.items ≡ option_or (sign_in rs (i + 1) placed.now) (sign_in_column i column.old.items) }
{
    if let Some(part) = part_sign(placed) {
        if cuts.spare(placed.generation, part.number) {
            put(column, placed, &part);
        }
    }
}

/// So many empty places.
fn empty_column<'a>(alloc: Global, places: usize) -> Result<Vec<Option<&'a PlacedSign>>, NoMemory>
    ensures { IfOk result (λ made. made.items ≡ replicate places None) }
{
    let mut made = Vec::new(alloc);
    made.resize(places, None)?;
    Ok(made)
}

/// The column of a region, with so many places.
fn column_of<'a>(
    alloc: Global,
    cuts: &Cuts,
    places: usize,
    signs: &'a [PlacedSign],
) -> Result<Vec<Option<&'a PlacedSign>>, NoMemory>
    requires { (rs : List instances.InstanceRecord) × AreCuts rs cuts.now }
    ensures { IfOk result (λ made. (rs : List instances.InstanceRecord) → AreCuts rs cuts.now → IsColumn rs places signs.now made.items) }
{
    let mut column = empty_column(alloc, places)?;
    for placed in signs {
        put_surviving(cuts, &mut column, placed);
    }
    Ok(column)
}

/// What the sign at a place of a column says.
fn part_in_column(column: &[Option<&PlacedSign>], place: usize) -> Option<PartSign>
    ensures { result ≡ sign_in_column place column.now }
{
    match column.get(place) {
        Some(Some(placed)) => part_sign(placed),
        _ => None,
    }
}

impl<'a> SignTable<'a> {
    /// The signs of the surviving parts of so many first entries.
    pub fn of(
        alloc: Global,
        cuts: &Cuts,
        places: usize,
        signs: &'a [Vec<PlacedSign>],
    ) -> Result<SignTable<'a>, NoMemory>
        requires { (rs : List instances.InstanceRecord) × AreCuts rs cuts.now }
        ensures parts { IfOk result (λ made. (rs : List instances.InstanceRecord) → AreCuts rs cuts.now → (i r : ℕ) → i < places
            → sign_at made i r ≡ last_sign rs (i + 1) (signs_of (map (λ s. s.items) signs.now) r)) }
        ensures regions { IfOk result (λ made. length made.columns.items ≡ length signs.now) }
    {
        let mut columns = Vec::new(alloc);
        for region in signs {
            columns.push(column_of(alloc, cuts, places, region)?)?;
        }
        Ok(SignTable { columns })
    }

    /// Makes a row of what the signs at a place say, one a region.
    pub fn fill(&self, place: usize, row: &mut Vec<Option<PartSign>>) -> Result<(), NoMemory>
        ensures { OnOk result ((r : ℕ) → row_sign row.new.items r ≡ sign_at self.now place r) }
    {
        row.clear();
        for column in &self.columns {
            row.push(part_in_column(column, place))?;
        }
        Ok(())
    }
}
