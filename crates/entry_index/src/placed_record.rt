//! A record by its place.
ghost use Rattle.std.specs.Prelude.{◌≡◌, ◌<◌, ◌+◌, ◌^◌, ℕ, IfOk, IfSome, IsErrOf};
ghost use Rattle.disk_defs.specs.Disk.{Reads, MayFailUncounted};
ghost use Rattle.journal_defs.specs.Journal.{JournalRecord, IsInForm};
ghost use Rattle.jnl_record.specs.Values.{record_value};
ghost use Rattle.entry_index.specs.Places.{StandsAt, HasLength};

use crate::pieces::{LONGEST, big_endian, fill};
use jnl_file::JournalError;
use jnl_record::{JnlRecord, decode};
use repl_disk::Disk;
use std::alloc::Global;

/// The length that stands behind the gate at a place of a file.
fn placed_length<D: Disk>(disk: &mut D, file: u32, at: u64) -> Result<u64, JournalError>
    ensures found { IfOk result (λ n. IfSome (D.disk disk.old).content (λ files. HasLength (files file) at n)) }
    ensures near { IfOk result (λ n. at + 5 + n < 2 ^ 64) }
    ensures outside { (offset : ℕ) → IsErrOf result (JournalError.NotARecord offset) → IfSome (D.disk disk.old).content (λ files. (r : JournalRecord) → StandsAt (files file) at r → ⊥) }
    ensures only_here { (offset : ℕ) → IsErrOf result (JournalError.NotARecord offset) → offset ≡ at }
    ensures reads { Reads (D.disk disk.old) (D.disk disk.new) }
    ensures faults { MayFailUncounted (D.disk disk.old).faults (D.disk disk.new).faults (IsErrOf result JournalError.Failed) }
{
    let Ok(size) = disk.len(file) else {
        return Err(JournalError::Failed);
    };
    if size < 5 || size - 5 < at {
        return Err(JournalError::NotARecord { offset: at });
    }
    let mut head = [0; 4];
    if disk.read_at(file, at + 1, &mut head).is_err() {
        return Err(JournalError::Failed);
    }
    let n = u64::from(big_endian(head));
    if n == 0 || n > LONGEST || size - 5 - at < n {
        return Err(JournalError::NotARecord { offset: at });
    }
    Ok(n)
}

/// The record whose body stands behind the gate at a place of a file, whatever that gate is.
///
/// # Errors
/// `NotARecord` with this place exactly where no record's body stands there behind its length; `Failed` only where the disk's count
/// rose; and `NoMemory`.
pub fn read_placed<D: Disk>(
    alloc: Global,
    disk: &mut D,
    file: u32,
    at: u64,
) -> Result<JnlRecord, JournalError>
    ensures found { IfOk result (λ r. IfSome (D.disk disk.old).content (λ files. StandsAt (files file) at (record_value r))) }
    // whatever the disk tells
    ensures form { IfOk result (λ r. IsInForm (record_value r)) }
    ensures one { IfOk result (λ r. IfSome (D.disk disk.old).content (λ files. (other : JournalRecord) → StandsAt (files file) at other → record_value r ≡ other)) }
    ensures outside { (offset : ℕ) → IsErrOf result (JournalError.NotARecord offset) → IfSome (D.disk disk.old).content (λ files. (r : JournalRecord) → StandsAt (files file) at r → ⊥) }
    ensures only_here { (offset : ℕ) → IsErrOf result (JournalError.NotARecord offset) → offset ≡ at }
    ensures reads { Reads (D.disk disk.old) (D.disk disk.new) }
    ensures faults { MayFailUncounted (D.disk disk.old).faults (D.disk disk.new).faults (IsErrOf result JournalError.Failed) }
{
    let n = placed_length(disk, file, at)?;
    let mut body = Vec::new(alloc);
    fill(disk, file, at + 5, n, &mut body)?;
    let record = decode(alloc, &body, at)?;
    Ok(record)
}
