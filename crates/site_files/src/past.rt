//! The parts past the length of a site, read again from their places.
ghost use Rattle.std.specs.Prelude.{◌≡◌, ◌⊎◌, ◌≤◌, ◌<◌, ◌++◌, ◌∷◌, [], ℕ, List, length, map, IfOk, IfSome, OnOk, OnErr, IsErrOf};
ghost use Rattle.global_defs.specs.declared.limits.TheConstants.{MOST_REGIONS};
ghost use Rattle.disk_defs.specs.Disk.{Reads, MayFail};
ghost use Rattle.journal_defs.specs.Sequence.{Placed};
ghost use Rattle.jnl_record.specs.Values.{placed_value};
ghost use Rattle.entry_index.specs.Places.{IsSignOf};
ghost use Rattle.mupip_recover.specs.Site.{journal_of};
ghost use Rattle.entry_index.specs.Indexes.{AreSigns};
ghost use Rattle.site_files.specs.Errors.{placed_error};
ghost use Rattle.site_files.specs.Past.{is_past_by_sign, all_past, AreRegionSigns};

use crate::error::FilesError;
use entry_index::{PlacedSign, Sign, read_placed};
use global_defs::limits::MOST_GENERATIONS;
use gvn_key::NoMemory;
use jnl_file::{JournalError, journal_file};
use jnl_record::PlacedRecord;
use repl_disk::Disk;
use std::alloc::Global;

/// Whether a record is a part whose number is past this length, by its sign.
fn is_past(sign: &Sign, length: u64) -> bool
    ensures { result ≡ is_past_by_sign length sign.now }
{
    match sign {
        Sign::Tcom { number, .. } => length < *number,
        _ => false,
    }
}

/// An error of a record of this file, on a disk with this count of faults.
fn in_file(error: JournalError, file: u32, fault: u64) -> FilesError
    ensures { result ≡ placed_error fault file error }
{
    match error {
        JournalError::Failed => FilesError::Failed { fault },
        JournalError::NotARecord { offset } => FilesError::NotAFile { file, offset },
        JournalError::NoMemory => FilesError::NoMemory,
    }
}

/// A record of a region, read from its place.
fn read_record<D: Disk>(
    alloc: Global,
    disk: &mut D,
    region: u8,
    placed: &PlacedSign,
) -> Result<PlacedRecord, FilesError>
    requires { region < MOST_REGIONS }
    ensures found { IfOk result (λ made. IfSome (D.disk disk.old).content (λ files. (p : Placed) → IsSignOf files region placed.now p → placed_value made ≡ p)) }
    ensures outside { (file offset : ℕ) → IsErrOf result (FilesError.NotAFile file offset) → IfSome (D.disk disk.old).content (λ files. (p : Placed) → IsSignOf files region placed.now p → p.generation ≤ MOST_GENERATIONS → ⊥) }
    ensures reads { Reads (D.disk disk.old) (D.disk disk.new) }
    ensures faults { MayFail (D.disk disk.old).faults (D.disk disk.new).faults (λ fault. IsErrOf result (FilesError.Failed fault)) }
    ensures causes { OnErr result (((fault : ℕ) × IsErrOf result (FilesError.Failed fault)) ⊎ ((file : ℕ) × (offset : ℕ) × IsErrOf result (FilesError.NotAFile file offset)) ⊎ IsErrOf result FilesError.NoMemory) }
{
    let PlacedSign {
        generation,
        offset,
        ..
    } = *placed;
    if generation > MOST_GENERATIONS {
        return Err(FilesError::NotAFile {
            file: u32::MAX,
            offset,
        });
    }
    let file = journal_file(region, generation);
    match read_placed(alloc, disk, file, offset) {
        Ok(what) => Ok(PlacedRecord { generation, what }),
        Err(error) => Err(in_file(error, file, disk.faults())),
    }
}

/// Adds a record to a list.
fn add_record(records: &mut Vec<PlacedRecord>, read: PlacedRecord) -> Result<(), NoMemory>
    ensures { OnOk result (records.new.items ≡ records.old.items ++ read ∷ []) }
{
    records.push(read)?;
    Ok(())
}

/// Adds a record of a region, read from its place, if it's a part past a length. Else it reads nothing.
fn add_past<D: Disk>(
    alloc: Global,
    disk: &mut D,
    region: u8,
    placed: &PlacedSign,
    length: u64,
    made: &mut Vec<PlacedRecord>,
) -> Result<(), FilesError>
    requires { region < MOST_REGIONS }
    ensures added { OnOk result (IfSome (D.disk disk.old).content (λ files. (p : Placed) → IsSignOf files region placed.now p → map placed_value made.new.items ≡ map placed_value made.old.items ++ all_past length (p ∷ []))) }
    ensures outside { (file offset : ℕ) → IsErrOf result (FilesError.NotAFile file offset) → IfSome (D.disk disk.old).content (λ files. (p : Placed) → IsSignOf files region placed.now p → p.generation ≤ MOST_GENERATIONS → ⊥) }
    ensures reads { Reads (D.disk disk.old) (D.disk disk.new) }
    ensures faults { MayFail (D.disk disk.old).faults (D.disk disk.new).faults (λ fault. IsErrOf result (FilesError.Failed fault)) }
    ensures causes { OnErr result (((fault : ℕ) × IsErrOf result (FilesError.Failed fault)) ⊎ ((file : ℕ) × (offset : ℕ) × IsErrOf result (FilesError.NotAFile file offset)) ⊎ IsErrOf result FilesError.NoMemory) }
{
    if !is_past(&placed.sign, length) {
        return Ok(());
    }
    let read = read_record(alloc, disk, region, placed)?;
    add_record(made, read)?;
    Ok(())
}

/// The parts of a region past a length, by the signs of its records.
fn read_region<D: Disk>(
    alloc: Global,
    disk: &mut D,
    region: u8,
    signs: &[PlacedSign],
    length: u64,
) -> Result<Vec<PlacedRecord>, FilesError>
    requires { region < MOST_REGIONS }
    ensures read { IfOk result (λ made. IfSome (D.disk disk.old).content (λ files. (journal : List Placed) → AreRegionSigns files region signs.now journal → map placed_value made.items ≡ all_past length journal)) }
    ensures outside { (file offset : ℕ) → IsErrOf result (FilesError.NotAFile file offset) → IfSome (D.disk disk.old).content (λ files. (journal : List Placed) → AreRegionSigns files region signs.now journal → ⊥) }
    ensures reads { Reads (D.disk disk.old) (D.disk disk.new) }
    ensures faults { MayFail (D.disk disk.old).faults (D.disk disk.new).faults (λ fault. IsErrOf result (FilesError.Failed fault)) }
    ensures causes { OnErr result (((fault : ℕ) × IsErrOf result (FilesError.Failed fault)) ⊎ ((file : ℕ) × (offset : ℕ) × IsErrOf result (FilesError.NotAFile file offset)) ⊎ IsErrOf result FilesError.NoMemory) }
{
    let mut made = Vec::new(alloc);
    for placed in signs {
        add_past(alloc, disk, region, placed, length, &mut made)?;
    }
    Ok(made)
}

/// Adds the records of a region to a list.
fn add_region(regions: &mut Vec<Vec<PlacedRecord>>, read: Vec<PlacedRecord>) -> Result<(), NoMemory>
    ensures { OnOk result (regions.new.items ≡ regions.old.items ++ read ∷ []) }
{
    regions.push(read)?;
    Ok(())
}

/// The parts of each region past so many entries, by the signs of their records. Other records aren't read.
///
/// # Errors
/// `NotAFile`, with the file and the place of a part, only where the files don't have there what its sign says.
pub fn read_past<D: Disk>(
    alloc: Global,
    disk: &mut D,
    signs: &[Vec<PlacedSign>],
    count: u64,
) -> Result<Vec<Vec<PlacedRecord>>, FilesError>
    requires { length signs.now ≤ MOST_REGIONS }
    ensures read { IfOk result (λ made. IfSome (D.disk disk.old).content (λ files. (journal : ℕ → List Placed) → AreSigns files (map (λ s. s.items) signs.now) journal
        → (r : ℕ) → journal_of (map (λ j. j.items) made.items) r ≡ all_past count (journal r))) }
    ensures outside { (file offset : ℕ) → IsErrOf result (FilesError.NotAFile file offset) → IfSome (D.disk disk.old).content (λ files. (journal : ℕ → List Placed) → AreSigns files (map (λ s. s.items) signs.now) journal → ⊥) }
    ensures reads { Reads (D.disk disk.old) (D.disk disk.new) }
    ensures faults { MayFail (D.disk disk.old).faults (D.disk disk.new).faults (λ fault. IsErrOf result (FilesError.Failed fault)) }
    ensures causes { OnErr result (((fault : ℕ) × IsErrOf result (FilesError.Failed fault)) ⊎ ((file : ℕ) × (offset : ℕ) × IsErrOf result (FilesError.NotAFile file offset)) ⊎ IsErrOf result FilesError.NoMemory) }
{
    let mut made = Vec::new(alloc);
    for region in 0..signs.len() {
        let read = read_region(alloc, disk, region as u8, &signs[region], count)?;
        add_region(&mut made, read)?;
    }
    Ok(made)
}
