//! Blocks as they stood at an epoch.
ghost use Rattle.std.specs.Prelude.{◌≡◌, ◌⊎◌, ◌≤◌, ◌<◌, ◌+◌, ◌*◌, ℕ, [], true, false, length, map, max, None, IfOk, IfSome, IfNone, OnOk, OnErr, IsErrOf};
ghost use Rattle.disk_defs.specs.Disk.{Reads, MayFail};
ghost use Rattle.journal_defs.specs.Journal.{IsInForm};
ghost use Rattle.journal_defs.specs.Epochs.{Chosen, image_state, block_of};
ghost use Rattle.journal_defs.specs.Leaves.{Leaf, IsBlock};
ghost use Rattle.site_defs.specs.OutsideBlocks.{IsOutsideAt};
ghost use Rattle.block_laws.specs.Nodes.{AreFormed, HaveKeys};
ghost use Rattle.block_fmt.specs.Cells.{blank};
ghost use Rattle.block_pool.specs.Pool.{IsAdded};
ghost use Rattle.before_image.specs.Undoing.{oldest_of, Undoes};
ghost use Rattle.jnl_record.specs.Values.{record_value, placed_value};
ghost use Rattle.region_store.specs.Laid.{epoch_at, taken, IsBlank, AreLaid};

use super::error::RegionError;
use before_image::Undo;
use block_fmt::{Block, BlockError};
use block_pool::BlockPool;
use gvn_key::NoMemory;
use jnl_record::{JnlRecord, PlacedRecord};
use repl_disk::Disk;
use std::alloc::Global;

/// How many bytes a block has on the file.
const BLOCK: u64 = global_defs::limits::BLOCK as u64;

/// Takes the image that a record is, if it's one.
fn take_record(undo: &mut Undo, what: &JnlRecord) -> Result<(), NoMemory>
    requires { IsInForm (record_value what.now) }
    ensures { OnOk result (undo.new ≡ taken undo.old (record_value what.now)) }
{
    match what {
        JnlRecord::Pblk { block, image } => undo.take_image(*block, image.as_slice()),
        JnlRecord::Pini { .. } | JnlRecord::Epoch { .. } | JnlRecord::Tcom { .. } => Ok(()),
    }
}

/// The oldest images behind an epoch of so many blocks, by the records behind it.
pub(crate) fn undo_of(alloc: Global, blocks: u32, behind: &[PlacedRecord]) -> Result<Undo, NoMemory>
    requires { AreFormed (map placed_value behind.now) }
    ensures { IfOk result (λ made. (number : ℕ) → Undoes made (epoch_at number blocks behind.now)) }
{
    let mut undo = Undo::new(alloc, blocks);
    for placed in behind {
        take_record(&mut undo, &placed.what)?;
    }
    Ok(undo)
}

/// A database file that is read, and how many blocks it had at the epoch.
#[derive(Clone, Copy, Debug)]
pub(crate) struct Source {
    pub file: u32,
    /// How many bytes the file has.
    pub length: u64,
    pub blocks: u32,
}

/// Whether a block comes from the file.
fn is_on_file(undo: &Undo, blocks: u32, number: u32) -> bool
    ensures yes { result ≡ true → (number < blocks) × (oldest_of undo.now number ≡ None) }
    ensures no { result ≡ false → number < blocks → oldest_of undo.now number ≡ None → ⊥ }
{
    number < blocks && !undo.has_image(number)
}

/// Reads a block as it stood at the epoch.
///
/// # Errors
/// `NotAFile` where the block comes from the file, and the file ends before it does.
fn read_bytes<D: Disk>(
    undo: &Undo,
    disk: &mut D,
    source: Source,
    number: u32,
    out: &mut [u8],
) -> Result<(), RegionError>
    requires size { length out.old ≡ 4096 }
    requires blocks { length undo.now ≡ source.blocks }
    requires inside { number < max 1 source.blocks }
    requires file { IfSome (D.disk disk.old).content (λ files. source.length ≡ length (files source.file)) }
    ensures block { OnOk result (IfSome (D.disk disk.old).content (λ files. (e : Chosen) → Undoes undo.now e → image_state e (block_of (files source.file)) number ≡ Some out.new)) }
    ensures size { length out.new ≡ 4096 }
    ensures whole { OnOk result (number < source.blocks → oldest_of undo.now number ≡ None → 4096 * number + 4096 ≤ source.length) }
    ensures place { (file offset : ℕ) → IsErrOf result (RegionError.NotAFile file offset) → (file ≡ source.file) × (offset ≡ 4096 * number) }
    ensures short { (file offset : ℕ) → IsErrOf result (RegionError.NotAFile file offset) → IfSome (D.disk disk.old).content (λ files. (e : Chosen) → Undoes undo.now e → IsOutsideAt (image_state e (block_of (files source.file))) number) }
    ensures reads { Reads (D.disk disk.old) (D.disk disk.new) }
    ensures faults { MayFail (D.disk disk.old).faults (D.disk disk.new).faults (λ fault. IsErrOf result (RegionError.Failed fault)) }
{
    let at = BLOCK * number as u64;
    if is_on_file(undo, source.blocks, number) && source.length < at + BLOCK {
        return Err(RegionError::NotAFile {
            file: source.file,
            offset: at,
        });
    }
    match undo.read_block(disk, source.file, number, out) {
        Ok(()) => Ok(()),
        Err(_) => Err(RegionError::Failed {
            fault: disk.faults(),
        }),
    }
}

/// The block of these bytes, `None` where they are those of no block.
fn block_in(alloc: Global, bytes: &[u8]) -> Result<Option<Block>, NoMemory>
    ensures block { IfOk result (λ read. IfSome read (λ made. IsBlock bytes.now made)) }
    ensures none { IfOk result (λ read. IfNone read ((l : Leaf) → IsBlock bytes.now l → ⊥)) }
{
    match Block::decode(alloc, bytes, 0) {
        Ok(block) => Ok(Some(block)),
        Err(BlockError::NotABlock { .. }) => Ok(None),
        Err(BlockError::NoMemory) => Err(NoMemory),
    }
}

/// A block for the pool, and whether the file may have other bytes in its place.
#[derive(Debug, Drop)]
struct Laid {
    block: Block,
    dirty: bool,
}

/// What is laid into the pool for these bytes of a block: their block, or behind block 0 an empty one where they are none. `None`
/// where they are none and belong to block 0.
fn laid_for(
    alloc: Global,
    number: u32,
    bytes: &[u8],
    on_file: bool,
) -> Result<Option<Laid>, NoMemory>
    ensures stands { IfOk result (λ made. IfSome made (λ laid. IsBlock bytes.now laid.block ⊎ (IsBlank bytes.now number laid.block × (laid.dirty ≡ true)))) }
    ensures clean { IfOk result (λ made. IfSome made (λ laid. laid.dirty ≡ false → on_file ≡ true)) }
    ensures none { IfOk result (λ made. IfNone made ((number ≡ 0) × ((l : Leaf) → IsBlock bytes.now l → ⊥))) }
{
    match block_in(alloc, bytes)? {
        Some(block) => Ok(Some(Laid {
            block,
            dirty: !on_file,
        })),
        None => {
            if number == 0 {
                return Ok(None);
            }
            let block = Block::new(alloc, 0)?;
            Ok(Some(Laid { block, dirty: true }))
        }
    }
}

/// Reads a block as it stood at the epoch, and adds it to the pool.
///
/// # Errors
/// `NotAFile` where the file ends before the block does, or block 0 isn't one. A block behind block 0 that is none becomes an empty
/// one: it may stand outside the chain.
fn read_one<D: Disk>(
    alloc: Global,
    undo: &Undo,
    disk: &mut D,
    source: Source,
    pool: &mut BlockPool,
    number: u32,
) -> Result<(), RegionError>
    requires blocks { length undo.now ≡ source.blocks }
    requires inside { number < max 1 source.blocks }
    requires file { IfSome (D.disk disk.old).content (λ files. source.length ≡ length (files source.file)) }
    ensures laid { OnOk result (IfSome (D.disk disk.old).content (λ files. (e : Chosen) → Undoes undo.now e → AreLaid e (files source.file) pool.old number → AreLaid e (files source.file) pool.new (number + 1))) }
    ensures place { (file offset : ℕ) → IsErrOf result (RegionError.NotAFile file offset) → (file ≡ source.file) × (offset ≡ 4096 * number) }
    ensures outside { (file offset : ℕ) → IsErrOf result (RegionError.NotAFile file offset) → IfSome (D.disk disk.old).content (λ files. (e : Chosen) → Undoes undo.now e → IsOutsideAt (image_state e (block_of (files source.file))) number) }
    ensures reads { Reads (D.disk disk.old) (D.disk disk.new) }
    ensures faults { MayFail (D.disk disk.old).faults (D.disk disk.new).faults (λ fault. IsErrOf result (RegionError.Failed fault)) }
{
    let mut bytes = [0; 4096];
    read_bytes(undo, disk, source, number, &mut bytes)?;
    let on_file = is_on_file(undo, source.blocks, number);
    let Some(laid) = laid_for(alloc, number, &bytes, on_file)? else {
        return Err(RegionError::NotAFile {
            file: source.file,
            offset: 0,
        });
    };
    pool.add(laid.block, laid.dirty)?;
    Ok(())
}

/// How many bytes a file has.
fn length_of<D: Disk>(disk: &mut D, file: u32) -> Result<u64, RegionError>
    ensures length { IfOk result (λ n. IfSome (D.disk disk.old).content (λ files. n ≡ length (files file))) }
    ensures reads { Reads (D.disk disk.old) (D.disk disk.new) }
    ensures faults { MayFail (D.disk disk.old).faults (D.disk disk.new).faults (λ fault. IsErrOf result (RegionError.Failed fault)) }
    ensures inside { (f offset : ℕ) → IsErrOf result (RegionError.NotAFile f offset) → ⊥ }
{
    match disk.len(file) {
        Ok(length) => Ok(length),
        Err(_) => Err(RegionError::Failed {
            fault: disk.faults(),
        }),
    }
}

/// How many blocks there are below an epoch of so many: with none it is one of zeros.
fn count_of(blocks: u32) -> u32
    ensures { result ≡ max 1 blocks }
{
    if blocks == 0 { 1 } else { blocks }
}

/// Reads the blocks below an epoch as they stood there: the file's, with the oldest images laid over. It writes nothing. With no
/// blocks below the epoch it is one of zeros.
///
/// # Errors
/// `NotAFile` with the first block before whose end the file ends, or with block 0 where it is none.
pub(crate) fn read_blocks<D: Disk>(
    alloc: Global,
    undo: &Undo,
    disk: &mut D,
    file: u32,
    blocks: u32,
) -> Result<BlockPool, RegionError>
    requires { length undo.now ≡ blocks }
    ensures laid { IfOk result (λ made. IfSome (D.disk disk.old).content (λ files. (e : Chosen) → Undoes undo.now e → AreLaid e (files file) made (max 1 blocks))) }
    ensures place { (f offset : ℕ) → IsErrOf result (RegionError.NotAFile f offset) → f ≡ file }
    ensures outside { (f offset : ℕ) → IsErrOf result (RegionError.NotAFile f offset) → IfSome (D.disk disk.old).content (λ files. (e : Chosen) → Undoes undo.now e → (b : ℕ) × (offset ≡ 4096 * b) × IsOutsideAt (image_state e (block_of (files file))) b) }
    ensures reads { Reads (D.disk disk.old) (D.disk disk.new) }
    ensures faults { MayFail (D.disk disk.old).faults (D.disk disk.new).faults (λ fault. IsErrOf result (RegionError.Failed fault)) }
{
    let length = length_of(disk, file)?;
    let source = Source {
        file,
        length,
        blocks,
    };
    let mut pool = BlockPool::new(alloc);
    for number in 0..count_of(blocks) {
        read_one(alloc, undo, disk, source, &mut pool, number)?;
    }
    Ok(pool)
}
