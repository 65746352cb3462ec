//! Parts by number and region.
ghost use Rattle.std.specs.Prelude.{◌≡◌, ◌+◌, ◌<◌, ℕ, List, map, length, replicate, Some, None, IfOk, IfSome, count_by, sum_by};
ghost use Rattle.std.specs.Option.{option_map, option_or};
ghost use Rattle.journal_defs.specs.Instance as instances;
ghost use Rattle.journal_defs.specs.Sequence.{part_in, part_of};
ghost use Rattle.jnl_record.specs.Values.{record_value, placed_value};
ghost use Rattle.mupip_recover.specs.Site.{journal_of};
ghost use Rattle.mupip_recover.specs.Cuts.{AreCuts};
ghost use Rattle.mupip_recover.specs.Parts.{part_value, surviving_in, if_numbered, is_part};
ghost use Rattle.mupip_recover.specs.Table.{part_in_column, part_at, IsColumn};

use super::cuts::Cuts;
use super::part::Part;
use gvn_key::NoMemory;
use jnl_record::{JnlRecord, PlacedRecord};
use std::alloc::Global;

/// A part of an entry, or none, for each number and region. [`Table::of`] makes it of the last surviving parts.
#[derive(Debug, Drop)]
pub struct Table<'a> {
    /// A column for each region, with a place for each number from 1 on.
    pub columns: Vec<Vec<Option<Part<'a>>>>,
}

/// Whether a record is a part of an entry.
fn is_tcom(what: &JnlRecord) -> bool
    ensures { result ≡ is_part (record_value what.now) }
{
    matches!(what, JnlRecord::Tcom { .. })
}

/// How many records are parts of entries.
fn count_in(journal: &[PlacedRecord]) -> usize
    ensures { result ≡ count_by (λ p. is_part (record_value p.what)) journal.now }
{
    let mut count = 0;
    for placed in journal {
        if is_tcom(&placed.what) {
            count += 1;
        }
    }
    count
}

/// How many records are parts of entries in all journals, where that can be counted.
pub fn count_all(journals: &[Vec<PlacedRecord>]) -> Option<usize>
    ensures { IfSome result (λ n. n ≡ sum_by (λ j. count_by (λ p. is_part (record_value p.what)) j.items) journals.now) }
{
    let mut count = 0usize;
    for journal in journals {
        count = count.checked_add(count_in(journal))?;
    }
    Some(count)
}

/// The part that a record is, where it is one and survives.
pub fn surviving_part<'a>(cuts: &Cuts, placed: &'a PlacedRecord) -> Option<Part<'a>>
    requires { (rs : List instances.InstanceRecord) × AreCuts rs cuts.now }
    ensures { (rs : List instances.InstanceRecord) → AreCuts rs cuts.now
        → option_map part_value result ≡ surviving_in rs placed.now.generation (record_value placed.now.what) }
{
    match &placed.what {
        JnlRecord::Tcom {
            number,
            mask,
            origin,
            count,
            items,
        } => {
            if cuts.spare(placed.generation, *number) {
                Some(Part {
                    number: *number,
                    mask: *mask,
                    origin: *origin,
                    count: *count,
                    items,
                })
            } else {
                None
            }
        }
        _ => None,
    }
}

/// Puts a part at the place of its number, if there is one.
fn put<'a>(column: &mut Vec<Option<Part<'a>>>, added: Part<'a>)
    ensures many { length column.new.items ≡ length column.old.items }
    ensures put { (i : ℕ) → i < length column.old.items
        → part_in_column i column.new.items ≡ option_or (if_numbered (i + 1) (Some (part_value added.entry))) (part_in_column i column.old.items) }
{
    if added.number >= 1 && added.number <= column.len() as u64 {
        let place = (added.number - 1) as usize;
        column[place] = Some(added);
    }
}

/// Puts a record at the place of its number, if it is a part that survives.
fn put_placed<'a>(cuts: &Cuts, column: &mut Vec<Option<Part<'a>>>, placed: &'a PlacedRecord)
    requires { (rs : List instances.InstanceRecord) × AreCuts rs cuts.now }
    ensures many { length column.new.items ≡ length column.old.items }
    ensures put { (rs : List instances.InstanceRecord) → AreCuts rs cuts.now → (i : ℕ) → i < length column.old.items
        → part_in_column i column.new.items ≡ option_or (part_in rs (i + 1) placed.now.generation (record_value placed.now.what)) (part_in_column i column.old.items) }
{
    if let Some(added) = surviving_part(cuts, placed) {
        put(column, added);
    }
}

/// So many empty places.
fn empty_column<'a>(alloc: Global, places: usize) -> Result<Vec<Option<Part<'a>>>, NoMemory>
    ensures { IfOk result (λ made. made.items ≡ replicate places None) }
{
    let mut made = Vec::new(alloc);
    for _place in 0..places {
        made.push(None)?;
    }
    Ok(made)
}

/// The column of a region, with so many places.
fn column_of<'a>(
    alloc: Global,
    cuts: &Cuts,
    places: usize,
    journal: &'a [PlacedRecord],
) -> Result<Vec<Option<Part<'a>>>, NoMemory>
    requires { (rs : List instances.InstanceRecord) × AreCuts rs cuts.now }
    ensures { IfOk result (λ made. (rs : List instances.InstanceRecord) → AreCuts rs cuts.now → IsColumn rs places (map placed_value journal.now) made.items) }
{
    let mut column = empty_column(alloc, places)?;
    for placed in journal {
        put_placed(cuts, &mut column, placed);
    }
    Ok(column)
}

impl<'a> Table<'a> {
    /// The surviving parts of so many first entries.
    pub fn of(
        alloc: Global,
        cuts: &Cuts,
        places: usize,
        journals: &'a [Vec<PlacedRecord>],
    ) -> Result<Table<'a>, NoMemory>
        requires { (rs : List instances.InstanceRecord) × AreCuts rs cuts.now }
        ensures { IfOk result (λ made. (rs : List instances.InstanceRecord) → AreCuts rs cuts.now → (i r : ℕ) → i < places
            → part_at made i r ≡ part_of rs (i + 1) (journal_of (map (λ j. j.items) journals.now) r)) }
    {
        let mut columns = Vec::new(alloc);
        for journal in journals {
            columns.push(column_of(alloc, cuts, places, journal)?)?;
        }
        Ok(Table { columns })
    }

    /// The part at a place in a region.
    pub fn part(&self, place: usize, region: u8) -> Option<&Part<'a>>
        ensures { option_map (λ p. part_value p.now) result ≡ part_at self.now place region }
    {
        let column = self.columns.get(usize::from(region))?;
        column.get(place)?.as_ref()
    }
}
