//! Marks of blocks whose images are logged, and blocks written to the database file.
ghost use Rattle.std.specs.Prelude.{◌≡◌, ℕ, length, IfSome, OnOk, OnErr, IsErrOf};
ghost use Rattle.disk_defs.specs.Disk.{Image, From, OnFile, AtEachMoment, ReadsAfter, IsDurable, MayFail};
ghost use Rattle.disk_defs.specs.Frames.{Only, OthersStay};
ghost use Rattle.block_pool.specs.Pool.{cleaned, CleanStand, AllStand, ChangesDirty};
ghost use Rattle.region_store.specs.Region.{marks_in};

use super::error::RegionError;
use before_image::Imaged;
use block_pool::{BlockPool, PoolError};
use gvt_leaf::Leaves;
use repl_disk::Disk;

/// Sets the marks of all blocks that have changed.
pub(crate) fn mark_dirty(imaged: &mut Imaged, pool: &BlockPool)
    ensures marks { imaged.new ≡ marks_in pool.now.dirty imaged.old (length pool.now.leaves) }
    ensures many { length pool.now.dirty ≡ length pool.now.leaves }
{
    let numbers = pool.dirty_numbers();
    for number in numbers {
        imaged.mark(*number);
    }
}

/// Writes the blocks that have changed. It syncs nothing.
///
/// # Errors
/// `Failed` only where the disk's count of faults rose, and `NoMemory`: the marks of changed blocks stay then.
pub(crate) fn write_changed<D: Disk>(
    leaves: &mut Leaves,
    disk: &mut D,
    file: u32,
) -> Result<(), RegionError>
    requires clean { IfSome (D.disk disk.old).content (λ files. CleanStand leaves.old.pool (files file)) }
    ensures ok { OnOk result (leaves.new ≡ record { globals = leaves.old.globals; pool = cleaned leaves.old.pool }) }
    ensures err { OnErr result (leaves.new ≡ leaves.old) }
    ensures written { OnOk result (IfSome (D.disk disk.new).content (λ files. AllStand leaves.old.pool (files file))) }
    ensures content { ReadsAfter (OnFile file (ChangesDirty leaves.old.pool)) (D.disk disk.old).content (D.disk disk.new).content }
    ensures any_moment { AtEachMoment (D.disk disk.old) (D.disk disk.new) (From (Image (D.disk disk.old)) (OnFile file (ChangesDirty leaves.old.pool))) }
    ensures frame { OthersStay (Only file) (D.disk disk.old) (D.disk disk.new) }
    ensures place { (f offset : ℕ) → IsErrOf result (RegionError.NotAFile f offset) → ⊥ }
    ensures faults { MayFail (D.disk disk.old).faults (D.disk disk.new).faults (λ fault. IsErrOf result (RegionError.Failed fault)) }
{
    match leaves.write_out(disk, file) {
        Ok(()) => Ok(()),
        Err(PoolError::Failed) => Err(RegionError::Failed {
            fault: disk.faults(),
        }),
        Err(PoolError::NoMemory) => Err(RegionError::NoMemory),
    }
}

/// Syncs a database file: what it reads as is then on the disk for good.
///
/// # Errors
/// `Failed` only where the disk's count of faults rose, and `NoMemory`.
pub(crate) fn sync_file<D: Disk>(disk: &mut D, file: u32) -> Result<(), RegionError>
    ensures durable { OnOk result (IfSome (D.disk disk.old).content (λ files. IsDurable (D.disk disk.new) file (files file))) }
    ensures content { (D.disk disk.new).content ≡ (D.disk disk.old).content }
    ensures any_moment { AtEachMoment (D.disk disk.old) (D.disk disk.new) (Image (D.disk disk.old)) }
    ensures frame { OthersStay (Only file) (D.disk disk.old) (D.disk disk.new) }
    ensures place { (f offset : ℕ) → IsErrOf result (RegionError.NotAFile f offset) → ⊥ }
    ensures faults { MayFail (D.disk disk.old).faults (D.disk disk.new).faults (λ fault. IsErrOf result (RegionError.Failed fault)) }
{
    if disk.room(file, 1, 0).is_err() {
        return Err(RegionError::NoMemory);
    }
    match disk.sync(file) {
        Ok(()) => Ok(()),
        Err(_) => Err(RegionError::Failed {
            fault: disk.faults(),
        }),
    }
}
