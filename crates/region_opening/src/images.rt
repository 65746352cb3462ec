//! Images of blocks, read from their places.
ghost use Rattle.std.specs.Prelude.{◌≡◌, ◌≤◌, ◌<◌, ◌++◌, ◌∷◌, [], ℕ, List, map, true, IfOk, IfSome, OnOk, IsErrOf, IsTrue};
ghost use Rattle.global_defs.specs.declared.limits.TheConstants.{MOST_REGIONS};
ghost use Rattle.disk_defs.specs.Disk.{Reads, MayFail};
ghost use Rattle.journal_defs.specs.Journal as journal;
ghost use Rattle.journal_defs.specs.Journal.{JournalRecord, Before, IsInForm};
ghost use Rattle.journal_defs.specs.Numbers.{journal_file};
ghost use Rattle.journal_defs.specs.Sequence.{Placed};
ghost use Rattle.jnl_record.specs.Values.{record_value, placed_value};
ghost use Rattle.block_laws.specs.Nodes.{AreFormed};
ghost use Rattle.entry_index.specs.Places.{StandsAt, IsSignOf};
ghost use Rattle.region_opening.specs.Signs.{IsDrawn, AreTold};
ghost use Rattle.region_opening.specs.Images.{images_in};

use entry_index::{PlacedSign, Sign, read_placed};
use global_defs::limits::{BLOCK, MOST_GENERATIONS};
use gvn_key::NoMemory;
use jnl_file::{JournalError, journal_file};
use jnl_record::{JnlRecord, PlacedRecord};
use region_store::RegionError;
use repl_disk::Disk;
use std::alloc::Global;

/// Whether a record is the image of a block with all its bytes.
fn is_image(what: &JnlRecord) -> bool
    ensures form { IsTrue result → IsInForm (record_value what.now) }
    ensures whole { (i : Before) → record_value what.now ≡ journal.Pblk i → IsInForm (journal.Pblk i) → result ≡ true }
{
    match what {
        JnlRecord::Pblk { block, image } => {
            // (its number has 32 bits, as each has)
            let _block = *block;
            image.len() == BLOCK
        }
        JnlRecord::Pini { .. } | JnlRecord::Epoch { .. } | JnlRecord::Tcom { .. } => false,
    }
}

/// The image at a place of the journal of a generation.
///
/// # Errors
/// `NotAFile` only where no image stands there; `Failed` only where the disk's count of faults rose; `NoMemory`.
fn read_image<D: Disk>(
    alloc: Global,
    disk: &mut D,
    region: u8,
    generation: u32,
    offset: u64,
) -> Result<PlacedRecord, RegionError>
    requires region { region < MOST_REGIONS }
    ensures form { IfOk result (λ found. IsInForm (record_value found.what)) }
    ensures generation { IfOk result (λ found. found.generation ≡ generation) }
    ensures image { IfOk result (λ found. IfSome (D.disk disk.old).content (λ files. (r : JournalRecord) → StandsAt (files (journal_file generation region)) offset r → record_value found.what ≡ r)) }
    ensures outside { (f at : ℕ) → IsErrOf result (RegionError.NotAFile f at) → IfSome (D.disk disk.old).content (λ files. (i : Before) → StandsAt (files (journal_file generation region)) offset (journal.Pblk i) → generation ≤ MOST_GENERATIONS → ⊥) }
    ensures reads { Reads (D.disk disk.old) (D.disk disk.new) }
    ensures faults { MayFail (D.disk disk.old).faults (D.disk disk.new).faults (λ fault. IsErrOf result (RegionError.Failed fault)) }
{
    if generation > MOST_GENERATIONS {
        return Err(RegionError::NotAFile {
            file: u32::MAX,
            offset,
        });
    }
    let file = journal_file(region, generation);
    match read_placed(alloc, disk, file, offset) {
        Ok(what) => {
            if is_image(&what) {
                Ok(PlacedRecord { generation, what })
            } else {
                Err(RegionError::NotAFile { file, offset })
            }
        }
        Err(JournalError::Failed) => Err(RegionError::Failed {
            fault: disk.faults(),
        }),
        Err(JournalError::NotARecord { offset }) => Err(RegionError::NotAFile { file, offset }),
        Err(JournalError::NoMemory) => Err(RegionError::NoMemory),
    }
}

/// Adds an image to those before it.
fn keep_image(made: &mut Vec<PlacedRecord>, image: PlacedRecord) -> Result<(), NoMemory>
    ensures { OnOk result (made.new.items ≡ made.old.items ++ image ∷ []) }
{
    made.push(image)?;
    Ok(())
}

/// Adds the image that a record of this sign is, if it's one.
fn add_image<D: Disk>(
    alloc: Global,
    disk: &mut D,
    region: u8,
    placed: &PlacedSign,
    made: &mut Vec<PlacedRecord>,
) -> Result<(), RegionError>
    requires region { region < MOST_REGIONS }
    requires forms { AreFormed (map placed_value made.old.items) }
    ensures forms { OnOk result (AreFormed (map placed_value made.new.items)) }
    ensures added { OnOk result (IfSome (D.disk disk.old).content (λ files. (p : Placed) → IsSignOf files region placed.now p → map placed_value made.new.items ≡ map placed_value made.old.items ++ images_in (p ∷ []))) }
    ensures outside { (f at : ℕ) → IsErrOf result (RegionError.NotAFile f at) → IfSome (D.disk disk.old).content (λ files. (p : Placed) → IsSignOf files region placed.now p → IsDrawn p → ⊥) }
    ensures reads { Reads (D.disk disk.old) (D.disk disk.new) }
    ensures faults { MayFail (D.disk disk.old).faults (D.disk disk.new).faults (λ fault. IsErrOf result (RegionError.Failed fault)) }
{
    match placed.sign {
        Sign::Pblk { .. } => {
            let image = read_image(alloc, disk, region, placed.generation, placed.offset)?;
            keep_image(made, image)?;
            Ok(())
        }
        Sign::Pini { .. } | Sign::Epoch { .. } | Sign::Tcom { .. } => Ok(()),
    }
}

/// The images among records of a region, by their signs. No other record is read.
///
/// # Errors
/// `NotAFile` only where the files don't have there what a sign says; `Failed` only where the disk's count of faults rose; `NoMemory`.
pub(crate) fn read_images<D: Disk>(
    alloc: Global,
    disk: &mut D,
    region: u8,
    behind: &[PlacedSign],
) -> Result<Vec<PlacedRecord>, RegionError>
    requires region { region < MOST_REGIONS }
    ensures forms { IfOk result (λ made. AreFormed (map placed_value made.items)) }
    ensures images { IfOk result (λ made. IfSome (D.disk disk.old).content (λ files. (journal : List Placed) → AreTold files region behind.now journal → map placed_value made.items ≡ images_in journal)) }
    ensures outside { (f at : ℕ) → IsErrOf result (RegionError.NotAFile f at) → IfSome (D.disk disk.old).content (λ files. (journal : List Placed) → AreTold files region behind.now journal → ⊥) }
    ensures reads { Reads (D.disk disk.old) (D.disk disk.new) }
    ensures faults { MayFail (D.disk disk.old).faults (D.disk disk.new).faults (λ fault. IsErrOf result (RegionError.Failed fault)) }
{
    let mut made = Vec::new(alloc);
    for placed in behind {
        add_image(alloc, disk, region, placed, &mut made)?;
    }
    Ok(made)
}
