//! The bytes of a file.
ghost use Rattle.std.specs.Prelude.{◌≡◌, ◌⊎◌, ◌≤◌, ◌+◌, ◌++◌, ℕ, length, take, drop, IfSome, OnOk, OnErr, IsErrOf};
ghost use Rattle.global_defs.specs.Prefix.{IsPrefix};
ghost use Rattle.disk_defs.specs.Disk.{Reads, MayFail};

use crate::error::SiteError;
use gvn_key::Bytes;
use repl_disk::Disk;

/// How many bytes are read at once, at most.
const PIECE: u64 = 65_536;

/// Adds so many bytes of a file, from a place on, to `out`.
fn read_piece<D: Disk>(
    disk: &mut D,
    file: u32,
    at: u64,
    count: u64,
    out: &mut Bytes,
) -> Result<(), SiteError>
    requires inside { IfSome (D.disk disk.old).content (λ files. at + count ≤ length (files file)) }
    ensures bytes { OnOk result (IfSome (D.disk disk.old).content (λ files. out.new ≡ out.old ++ take count (drop at (files file)))) }
    ensures front { OnOk result (IsPrefix out.old out.new) }
    ensures kept { OnErr result (out.new ≡ out.old) }
    ensures reads { Reads (D.disk disk.old) (D.disk disk.new) }
    ensures faults { MayFail (D.disk disk.old).faults (D.disk disk.new).faults (λ fault. IsErrOf result (SiteError.Failed fault)) }
    ensures causes { OnErr result (((fault : ℕ) × IsErrOf result (SiteError.Failed fault)) ⊎ IsErrOf result SiteError.NoMemory) }
{
    let mut piece = Vec::new(out.allocator());
    if piece.resize(count as usize, 0).is_err() {
        return Err(SiteError::NoMemory);
    }
    if disk.read_at(file, at, &mut piece).is_err() {
        return Err(SiteError::Failed {
            fault: disk.faults(),
        });
    }
    out.push_all(&piece)?;
    Ok(())
}

/// Adds the bytes of a file, as it reads, to `out`. It writes nothing.
///
/// # Errors
/// `Failed` only where the disk's count rose, and `NoMemory`; `out` may then have some of the bytes more, behind what it had.
pub fn read_file<D: Disk>(disk: &mut D, file: u32, out: &mut Bytes) -> Result<(), SiteError>
    ensures text { OnOk result (IfSome (D.disk disk.old).content (λ files. out.new ≡ out.old ++ files file)) }
    ensures front { OnErr result (IsPrefix out.old out.new) }
    ensures reads { Reads (D.disk disk.old) (D.disk disk.new) }
    ensures faults { MayFail (D.disk disk.old).faults (D.disk disk.new).faults (λ fault. IsErrOf result (SiteError.Failed fault)) }
    ensures causes { OnErr result (((fault : ℕ) × IsErrOf result (SiteError.Failed fault)) ⊎ IsErrOf result SiteError.NoMemory) }
{
    let Ok(length) = disk.len(file) else {
        return Err(SiteError::Failed {
            fault: disk.faults(),
        });
    };
    let mut at = 0;
    while at < length {
        let count = PIECE.min(length - at);
        read_piece(disk, file, at, count, out)?;
        at += count;
    }
    Ok(())
}
