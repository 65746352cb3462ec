//! Entries read from the places of their parts.
ghost use Rattle.std.specs.Prelude.{◌≡◌, ◌≤◌, ◌<◌, ℕ, List, [], ◌∷◌, ◌++◌, map, length, Option, get_or, None, IfOk, OnOk, IfSome, IsErrOf};
ghost use Rattle.std.specs.List.{AllByRecursion};
ghost use Rattle.std.specs.Option.{option_map};
ghost use Rattle.disk_defs.specs.Disk.{Reads, MayFailUncounted};
ghost use Rattle.global_defs.specs.Entry as defs;
ghost use Rattle.global_defs.specs.Fields.{IsTransaction};
ghost use Rattle.gvn_model.specs.Entries.{transaction_value};
ghost use Rattle.journal_defs.specs.Journal as journal;
ghost use Rattle.journal_defs.specs.Journal.{IsInForm, IsPart};
ghost use Rattle.journal_defs.specs.Sequence.{REGIONS, entry_among};
ghost use Rattle.jnl_record.specs.Values.{record_value};
ghost use Rattle.mupip_recover.specs.Parts.{part_value};
ghost use Rattle.mupip_recover.specs.Table.{part_in_column};
ghost use Rattle.mupip_recover.specs.Entries.{stamped};
ghost use Rattle.entry_index.specs.Parts.{InFiles, NOWHERE, IsPartAt, AreParts, part_with, read_value, IsReadPart};

use crate::error::{IndexError, in_file};
use crate::place::PartPlace;
use crate::placed_record::read_placed;
use global_defs::limits::{MOST_GENERATIONS, MOST_REGIONS};
use gvn_key::NoMemory;
use gvn_model::{Items, Origin, Transaction};
use jnl_file::journal_file;
use jnl_record::JnlRecord;
use mupip_recover::{Part, Table, transaction_at};
use repl_disk::Disk;
use std::alloc::Global;

/// What an entry does in one region, as it was read.
#[derive(Debug, Drop)]
pub struct ReadPart {
    /// The entry's number.
    pub number: u64,
    /// The regions that have a part of the entry: bit r stands for region r.
    pub mask: u8,
    /// The job that made the entry.
    pub origin: Origin,
    /// How many updates the entry has in all regions.
    pub count: u16,
    /// The region's updates.
    pub items: Items,
}

impl ReadPart {
    /// The part, with its items borrowed.
    fn part(&self) -> Part<'_>
        ensures { part_value result ≡ read_value self.now }
    {
        Part {
            number: self.number,
            mask: self.mask,
            origin: self.origin,
            count: self.count,
            items: &self.items,
        }
    }
}

/// The part that a record is, where it has this number.
fn part_of(what: JnlRecord, number: u64) -> Option<ReadPart>
    ensures found { option_map read_value result ≡ part_with number (record_value what) }
    ensures form { IsInForm (record_value what) → IfSome result IsReadPart }
{
    match what {
        JnlRecord::Tcom {
            number: told,
            mask,
            origin,
            count,
            items,
        } => {
            if told == number {
                Some(ReadPart {
                    number,
                    mask,
                    origin,
                    count,
                    items,
                })
            } else {
                None
            }
        }
        _ => None,
    }
}

/// The part of an entry at a place of a region, if one should be there.
fn read_part<D: Disk>(
    alloc: Global,
    disk: &mut D,
    region: u8,
    number: u64,
    place: PartPlace,
) -> Result<Option<ReadPart>, IndexError>
    requires { region < MOST_REGIONS }
    ensures found { IfOk result (λ found. IfSome (D.disk disk.old).content (λ files. (x : Option journal.Part) → IsPartAt (InFiles files) region number place x → option_map read_value found ≡ x)) }
    ensures form { IfOk result (λ found. IfSome found IsReadPart) }
    ensures outside { (file offset : ℕ) → IsErrOf result (IndexError.NotAFile file offset) → IfSome (D.disk disk.old).content (λ files. (x : Option journal.Part) → IsPartAt (InFiles files) region number place x → ⊥) }
    ensures reads { Reads (D.disk disk.old) (D.disk disk.new) }
    ensures faults { MayFailUncounted (D.disk disk.old).faults (D.disk disk.new).faults (IsErrOf result IndexError.Failed) }
{
    let PartPlace { generation, offset } = place;
    if generation == 0 {
        return Ok(None);
    }
    if generation > MOST_GENERATIONS {
        return Err(IndexError::NotAFile {
            file: u32::MAX,
            offset,
        });
    }
    let file = journal_file(region, generation);
    let what = match read_placed(alloc, disk, file, offset) {
        Ok(what) => what,
        Err(error) => return Err(in_file(file, error)),
    };
    match part_of(what, number) {
        Some(found) => Ok(Some(found)),
        None => Err(IndexError::NotAFile { file, offset }),
    }
}

/// Adds what was read of a region.
fn add_found(made: &mut Vec<Option<ReadPart>>, found: Option<ReadPart>) -> Result<(), NoMemory>
    ensures { OnOk result (made.new.items ≡ made.old.items ++ found ∷ []) }
{
    made.push(found)?;
    Ok(())
}

/// The parts of an entry at its places, one a region.
fn read_parts<D: Disk>(
    alloc: Global,
    disk: &mut D,
    row: &[PartPlace],
    number: u64,
) -> Result<Vec<Option<ReadPart>>, IndexError>
    requires { length row.now ≤ MOST_REGIONS }
    ensures read { IfOk result (λ made. IfSome (D.disk disk.old).content (λ files. (part : ℕ → Option journal.Part) → AreParts (InFiles files) number row.now part
        → (r : ℕ) → get_or (map (option_map read_value) made.items) r None ≡ part r)) }
    ensures forms { IfOk result (λ made. AllByRecursion (λ found. IfSome found IsReadPart) made.items) }
    ensures outside { (file offset : ℕ) → IsErrOf result (IndexError.NotAFile file offset) → IfSome (D.disk disk.old).content (λ files. (part : ℕ → Option journal.Part) → AreParts (InFiles files) number row.now part → ⊥) }
    ensures reads { Reads (D.disk disk.old) (D.disk disk.new) }
    ensures faults { MayFailUncounted (D.disk disk.old).faults (D.disk disk.new).faults (IsErrOf result IndexError.Failed) }
{
    let mut made = Vec::new(alloc);
    for region in 0..row.len() {
        let found = read_part(alloc, disk, region as u8, number, row[region])?;
        add_found(&mut made, found)?;
    }
    Ok(made)
}

/// A column of one place.
fn column_of<'a>(
    alloc: Global,
    found: &'a Option<ReadPart>,
) -> Result<Vec<Option<Part<'a>>>, NoMemory>
    ensures { IfOk result (λ made. part_in_column 0 made.items ≡ option_map read_value found.now) }
{
    let mut column = Vec::new(alloc);
    match found {
        None => column.push(None)?,
        Some(read) => column.push(Some(read.part()))?,
    }
    Ok(column)
}

/// A table of one place, with these parts.
fn table_of<'a>(alloc: Global, parts: &'a [Option<ReadPart>]) -> Result<Table<'a>, NoMemory>
    ensures { IfOk result (λ made. map (λ c. part_in_column 0 c.items) made.columns.items ≡ map (option_map read_value) parts.now) }
{
    let mut columns = Vec::new(alloc);
    for found in parts {
        columns.push(column_of(alloc, found)?)?;
    }
    Ok(Table { columns })
}

/// What an entry does, by the places of its parts, one a region; `None` where these parts are no complete entry.
///
/// # Errors
/// `NotAFile`, with the file and the place of a part, only where that doesn't stand there; `Failed` only where the disk's count rose; and
/// `NoMemory`.
pub fn read_transaction<D: Disk>(
    alloc: Global,
    disk: &mut D,
    row: &[PartPlace],
    number: u64,
) -> Result<Option<Transaction>, IndexError>
    requires { length row.now ≤ MOST_REGIONS }
    ensures found { IfOk result (λ found. IfSome (D.disk disk.old).content (λ files. (part : ℕ → Option journal.Part) → AreParts (InFiles files) number row.now part
        → (stamp : defs.Stamp) → entry_among part stamp REGIONS ≡ option_map (stamped stamp) found)) }
    // whatever the disk tells
    ensures form { IfOk result (λ found. IfSome found (λ t. IsTransaction (transaction_value t))) }
    ensures outside { (file offset : ℕ) → IsErrOf result (IndexError.NotAFile file offset) → IfSome (D.disk disk.old).content (λ files. (part : ℕ → Option journal.Part) → AreParts (InFiles files) number row.now part → ⊥) }
    ensures reads { Reads (D.disk disk.old) (D.disk disk.new) }
    ensures faults { MayFailUncounted (D.disk disk.old).faults (D.disk disk.new).faults (IsErrOf result IndexError.Failed) }
{
    let parts = read_parts(alloc, disk, row, number)?;
    let table = table_of(alloc, &parts)?;
    let found = transaction_at(alloc, &table, 0)?;
    Ok(found)
}

/// The file and the place of the first part in a row; those of nothing where there is none.
pub fn first_place(row: &[PartPlace]) -> (u32, u64) {
    for region in 0..row.len() {
        let place = row[region];
        if region < usize::from(MOST_REGIONS)
            && place.generation >= 1
            && place.generation <= MOST_GENERATIONS
        {
            return (journal_file(region as u8, place.generation), place.offset);
        }
    }
    (u32::MAX, 0)
}
