//! What the instance file on a disk says.
ghost use Rattle.std.specs.Prelude.{◌≡◌, ◌⊎◌, ℕ, List, IfSome, IfOk, OnOk, OnErr, IsErrOf};
ghost use Rattle.std.specs.List.{AllByRecursion};
ghost use Rattle.disk_defs.specs.Disk.{Image, IsDurable, AtEachMoment, MayFail};
ghost use Rattle.disk_defs.specs.Frames.{Only, OthersStay};
ghost use Rattle.instance_file.specs.Order.{AreInOrder};
ghost use Rattle.journal_defs.specs.Numbers.{INSTANCE};
ghost use Rattle.journal_defs.specs.Instance as defs;
ghost use Rattle.journal_defs.specs.Instance.{IsInForm};
ghost use Rattle.journal_defs.specs.Stands.{IsInstance};
ghost use Rattle.site_files.specs.Errors.{instance_error};
ghost use Rattle.site_defs.specs.Outside.{IsNoInstance};

use crate::error::FilesError;
use gated_file::{GateError, sync_file};
use instance_file::{InstanceError, InstanceLog};
use journal_defs::files::INSTANCE_FILE;
use repl_disk::Disk;
use std::alloc::Global;

/// An error of the instance file, on a disk with this count of faults.
pub fn in_instance(error: InstanceError, fault: u64) -> FilesError
    ensures { result ≡ instance_error fault error }
{
    match error {
        InstanceError::Failed => FilesError::Failed { fault },
        InstanceError::NotARecord { offset } => FilesError::NotAFile { file: 0, offset },
        InstanceError::NoMemory => FilesError::NoMemory,
    }
}

/// Syncs the instance file.
pub fn sync_instance<D: Disk>(disk: &mut D) -> Result<(), FilesError>
    ensures durable { OnOk result (IfSome (D.disk disk.old).content (λ files. IsDurable (D.disk disk.new) INSTANCE (files INSTANCE))) }
    ensures content { (D.disk disk.new).content ≡ (D.disk disk.old).content }
    ensures any_moment { AtEachMoment (D.disk disk.old) (D.disk disk.new) (Image (D.disk disk.old)) }
    ensures frame { OthersStay (Only INSTANCE) (D.disk disk.old) (D.disk disk.new) }
    ensures faults { MayFail (D.disk disk.old).faults (D.disk disk.new).faults (λ fault. IsErrOf result (FilesError.Failed fault)) }
    ensures outside { (file offset : ℕ) → IsErrOf result (FilesError.NotAFile file offset) → ⊥ }
{
    match sync_file(disk, INSTANCE_FILE) {
        Ok(()) => Ok(()),
        Err(GateError::Failed) => Err(FilesError::Failed {
            fault: disk.faults(),
        }),
        Err(GateError::NotARecord { .. } | GateError::NoMemory) => Err(FilesError::NoMemory),
    }
}

/// Syncs and reads the instance file. It writes nothing.
pub fn read_instance<D: Disk>(alloc: Global, disk: &mut D) -> Result<InstanceLog, FilesError>
    ensures reads { IfOk result (λ log. IfSome (D.disk disk.old).content (λ files. IsInstance (files INSTANCE) log.records)) }
    ensures order { IfOk result (λ log. AreInOrder log.records) }
    ensures form { IfOk result (λ log. AllByRecursion IsInForm log.records) }
    ensures durable { OnOk result (IfSome (D.disk disk.old).content (λ files. IsDurable (D.disk disk.new) INSTANCE (files INSTANCE))) }
    ensures place { (file offset : ℕ) → IsErrOf result (FilesError.NotAFile file offset) → IfSome (D.disk disk.old).content (λ files. IsNoInstance files file offset) }
    ensures outside { (file offset : ℕ) → IsErrOf result (FilesError.NotAFile file offset) → IfSome (D.disk disk.old).content (λ files. (rs : List defs.InstanceRecord) → IsInstance (files INSTANCE) rs → ⊥) }
    ensures content { (D.disk disk.new).content ≡ (D.disk disk.old).content }
    ensures any_moment { AtEachMoment (D.disk disk.old) (D.disk disk.new) (Image (D.disk disk.old)) }
    ensures frame { OthersStay (Only INSTANCE) (D.disk disk.old) (D.disk disk.new) }
    ensures faults { MayFail (D.disk disk.old).faults (D.disk disk.new).faults (λ fault. IsErrOf result (FilesError.Failed fault)) }
    ensures causes { OnErr result (((fault : ℕ) × IsErrOf result (FilesError.Failed fault)) ⊎ ((file : ℕ) × (offset : ℕ) × IsErrOf result (FilesError.NotAFile file offset)) ⊎ IsErrOf result FilesError.NoMemory) }
{
    match InstanceLog::read(alloc, disk) {
        Ok(log) => Ok(log),
        Err(error) => Err(in_instance(error, disk.faults())),
    }
}
