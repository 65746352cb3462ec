//! The texts of transactions that are broken or lost, in files.
ghost use Rattle.std.specs.Prelude.{◌≡◌, ◌⊎◌, ◌≤◌, ℕ, length, IfSome, OnOk, OnErr, IsErrOf};
ghost use Rattle.global_defs.specs.declared.limits.TheConstants.{MOST_GENERATIONS};
ghost use Rattle.disk_defs.specs.Disk.{Files, Image, From, OnFile, AtEachMoment, ReadsAfter, MayFail};
ghost use Rattle.disk_defs.specs.Frames.{Only, OthersStay};
ghost use Rattle.journal_defs.specs.Numbers.{lost_file, broken_file};
ghost use Rattle.site_files.specs.Loading.{IsNoLonger, IsWritten};

use crate::error::FilesError;
use journal_defs::files::{BROKEN_FILES, LOST_FILES};
use repl_disk::Disk;

/// Writes a text into a file from place 0 on, and syncs the file.
fn write_text<D: Disk>(disk: &mut D, file: u32, text: &[u8]) -> Result<(), FilesError>
    ensures durable { OnOk result (IfSome (D.disk disk.old).content (λ files. length (files file) ≤ length text.now → (c : Files) → Image (D.disk disk.new) c → c file ≡ text.now)) }
    ensures reads { ReadsAfter (OnFile file (IsNoLonger text.now)) (D.disk disk.old).content (D.disk disk.new).content }
    ensures any_moment { AtEachMoment (D.disk disk.old) (D.disk disk.new) (From (Image (D.disk disk.old)) (OnFile file (IsNoLonger text.now))) }
    ensures frame { OthersStay (Only file) (D.disk disk.old) (D.disk disk.new) }
    ensures faults { MayFail (D.disk disk.old).faults (D.disk disk.new).faults (λ fault. IsErrOf result (FilesError.Failed fault)) }
    ensures causes { OnErr result (((fault : ℕ) × IsErrOf result (FilesError.Failed fault)) ⊎ IsErrOf result FilesError.NoMemory) }
{
    if disk.room(file, 2, text.len() as u64).is_err() {
        return Err(FilesError::NoMemory);
    }
    if disk.write_at(file, 0, text).is_err() {
        return Err(FilesError::Failed {
            fault: disk.faults(),
        });
    }
    if disk.sync(file).is_err() {
        return Err(FilesError::Failed {
            fault: disk.faults(),
        });
    }
    Ok(())
}

/// Writes a text into the broken-transaction file of a generation and syncs the file. Without a text it does nothing.
pub fn write_broken<D: Disk>(disk: &mut D, generation: u32, text: &[u8]) -> Result<(), FilesError>
    requires generation { generation ≤ MOST_GENERATIONS }
    ensures written { OnOk result (IfSome (D.disk disk.old).content (λ files. length (files (broken_file generation)) ≤ length text.now → (c : Files) → Image (D.disk disk.new) c → From (Image (D.disk disk.old)) (OnFile (broken_file generation) (IsWritten text.now)) c)) }
    ensures as_read { OnOk result (IfSome (D.disk disk.old).content (λ files. length (files (broken_file generation)) ≤ length text.now → ReadsAfter (OnFile (broken_file generation) (IsWritten text.now)) (D.disk disk.old).content (D.disk disk.new).content)) }
    ensures reads { ReadsAfter (OnFile (broken_file generation) (IsNoLonger text.now)) (D.disk disk.old).content (D.disk disk.new).content }
    ensures any_moment { AtEachMoment (D.disk disk.old) (D.disk disk.new) (From (Image (D.disk disk.old)) (OnFile (broken_file generation) (IsNoLonger text.now))) }
    ensures frame { OthersStay (Only (broken_file generation)) (D.disk disk.old) (D.disk disk.new) }
    ensures faults { MayFail (D.disk disk.old).faults (D.disk disk.new).faults (λ fault. IsErrOf result (FilesError.Failed fault)) }
    ensures causes { OnErr result (((fault : ℕ) × IsErrOf result (FilesError.Failed fault)) ⊎ IsErrOf result FilesError.NoMemory) }
{
    if text.is_empty() {
        return Ok(());
    }
    write_text(disk, BROKEN_FILES + generation, text)
}

/// Writes a text into the lost-transaction file of a generation and syncs the file.
pub fn write_lost<D: Disk>(disk: &mut D, generation: u32, text: &[u8]) -> Result<(), FilesError>
    requires generation { generation ≤ MOST_GENERATIONS }
    ensures durable { OnOk result (IfSome (D.disk disk.old).content (λ files. length (files (lost_file generation)) ≤ length text.now → (c : Files) → Image (D.disk disk.new) c → c (lost_file generation) ≡ text.now)) }
    ensures reads { ReadsAfter (OnFile (lost_file generation) (IsNoLonger text.now)) (D.disk disk.old).content (D.disk disk.new).content }
    ensures any_moment { AtEachMoment (D.disk disk.old) (D.disk disk.new) (From (Image (D.disk disk.old)) (OnFile (lost_file generation) (IsNoLonger text.now))) }
    ensures frame { OthersStay (Only (lost_file generation)) (D.disk disk.old) (D.disk disk.new) }
    ensures faults { MayFail (D.disk disk.old).faults (D.disk disk.new).faults (λ fault. IsErrOf result (FilesError.Failed fault)) }
    ensures causes { OnErr result (((fault : ℕ) × IsErrOf result (FilesError.Failed fault)) ⊎ IsErrOf result FilesError.NoMemory) }
{
    write_text(disk, LOST_FILES + generation, text)
}
