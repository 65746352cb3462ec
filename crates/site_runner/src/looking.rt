// What stands on the next disk.
ghost use Rattle.std.specs.Prelude.{◌≡◌, [], None, Some, Ok, IfSome, IfOk};
ghost use Rattle.disk_defs.specs.Gates.{records};
ghost use Rattle.journal_defs.specs.Numbers.{INSTANCE};
ghost use Rattle.site_runner.specs.declared.ending.Ended.TheVariants.{Undone};
ghost use Rattle.site_runner.specs.Looking.{LooksHere, Tells};

use super::answering::damaged;
use super::ending::Ended;
use super::slot::Slot;
use super::text::write_numbered;
use gvn_key::{Bytes, NoMemory};
use repl_disk::Disk;
use site_making::inspect;
use site_store::{Layout, SiteError};
use std::alloc::Global;
use world_laws::leftovers::leftovers_hold;

/// What stands on a disk that no site of the run has.
pub fn look<D: Disk>(alloc: Global, disk: &mut D) -> Result<Option<Layout>, SiteError>
    ensures seen { LooksHere D.disk (Slot.Free disk.old) (Slot.Free disk.new) result }
    ensures empty { result ≡ Ok None → IfSome (D.disk disk.new).content (λ files. records (files INSTANCE) ≡ Some []) }
{
    leftovers_hold();
    inspect(alloc, disk)
}

/// Adds the line of a call that failed, which begins with that word. Answers that the command wasn't done.
pub fn write_failure(text: &mut Bytes, word: &[u8], error: SiteError) -> Result<Ended, NoMemory>
    ensures { IfOk result (λ ended. (ended ≡ Undone) × Tells error word.now text.old text.new) }
{
    match error {
        SiteError::Failed { fault } => {
            write_numbered(text, word, b"DISKFAULT ", fault)?;
            Ok(Ended::Undone)
        }
        SiteError::NotAFile { file, offset } => damaged(text, word, file, offset),
        _ => Err(NoMemory),
    }
}
