//! Reading a gated file from gate to gate.
ghost use Rattle.std.specs.Prelude.{◌≡◌, ◌≤◌, ◌<◌, ◌+◌, ℕ, length, take, drop, IfOk, IfSome, OnErr, IsErrOf};
ghost use Rattle.std.specs.Int.{from_be_bytes, to_be_bytes, w32};
ghost use Rattle.disk_defs.specs.Disk.{Reads, MayFailUncounted};
ghost use Rattle.disk_defs.specs.Gates.{NoGate, gate_at};
ghost use Rattle.gated_file.specs.Reading.{BodyAt, Finds};

use crate::error::GateError;
use crate::gated::Gated;
use gvn_key::Bytes;
use repl_disk::Disk;
use std::alloc::Global;
use std::collections::VecDeque;

/// The greatest length of a body in bytes.
const LONGEST: u64 = global_defs::limits::LONGEST_BODY as u64;

/// The number that four bytes spell, the greatest part first.
fn big_endian(bytes: [u8; 4]) -> u32
    ensures value { result ≡ from_be_bytes w32 bytes }
    ensures spelled { to_be_bytes w32 result ≡ bytes }
{
    u32::from_be_bytes(bytes)
}

/// The length of the body behind an open gate, or `None` at a closed one.
pub fn body_length<D: Disk>(
    disk: &mut D,
    file: u32,
    size: u64,
    at: u64,
) -> Result<Option<u64>, GateError>
    requires long { 2 ≤ size }
    requires told { IfSome (D.disk disk.old).content (λ files. size ≡ length (files file)) }
    ensures found { IfOk result (λ found. IfSome (D.disk disk.old).content (λ files. BodyAt (files file) at found)) }
    ensures inside { IfOk result (λ found. IfSome found (λ n. at + n + 6 ≤ size)) }
    ensures outside { IsErrOf result (GateError.NotARecord at) → IfSome (D.disk disk.old).content (λ files. gate_at (files file) at ≡ NoGate) }
    ensures only_here { (offset : ℕ) → IsErrOf result (GateError.NotARecord offset) → offset ≡ at }
    ensures memory { IsErrOf result GateError.NoMemory → ⊥ }
    ensures reads { Reads (D.disk disk.old) (D.disk disk.new) }
    ensures faults { MayFailUncounted (D.disk disk.old).faults (D.disk disk.new).faults (IsErrOf result GateError.Failed) }
{
    if at >= size {
        return Err(GateError::NotARecord { offset: at });
    }
    let mut gate = [0];
    disk.read_at(file, at, &mut gate)?;
    if gate[0] != 1 {
        return Ok(None);
    }
    if size - at < 6 {
        return Err(GateError::NotARecord { offset: at });
    }
    let mut head = [0; 4];
    disk.read_at(file, at + 1, &mut head)?;
    let n = big_endian(head) as u64;
    if n == 0 || n > LONGEST || size - at < n + 6 {
        return Err(GateError::NotARecord { offset: at });
    }
    Ok(Some(n))
}

/// So many bytes of a file from a place on.
fn bytes_at<D: Disk>(
    alloc: Global,
    disk: &mut D,
    file: u32,
    at: u64,
    n: u64,
) -> Result<Vec<u8>, GateError>
    requires inside { IfSome (D.disk disk.old).content (λ files. at + n ≤ length (files file)) }
    ensures bytes { IfOk result (λ bytes. IfSome (D.disk disk.old).content (λ files. bytes.items ≡ take n (drop at (files file)))) }
    ensures reads { Reads (D.disk disk.old) (D.disk disk.new) }
    ensures faults { MayFailUncounted (D.disk disk.old).faults (D.disk disk.new).faults (IsErrOf result GateError.Failed) }
    ensures outside { (offset : ℕ) → IsErrOf result (GateError.NotARecord offset) → ⊥ }
{
    let mut bytes = Vec::new(alloc);
    if bytes.resize(n as usize, 0).is_err() {
        return Err(GateError::NoMemory);
    }
    disk.read_at(file, at, &mut bytes)?;
    Ok(bytes)
}

impl Gated {
    /// A file for reading alone, by [`next_record`](Gated::next_record). It makes no disk call.
    pub fn reading(alloc: Global, file: u32) -> Gated
        ensures { result.file ≡ file }
    {
        Gated {
            alloc,
            file,
            end: 0,
            closed: VecDeque::new(alloc),
            buffer: Vec::new(alloc),
            bodies_left: 0,
            bytes_left: 0,
            syncs_left: 0,
            synced: false,
        }
    }

    /// Adds the body at a place to `out` and answers the next place, or answers `None` exactly at a closed gate or in a file
    /// shorter than two bytes. An `Err` leaves `out` as it was.
    ///
    /// # Errors
    /// `NotARecord` with this place exactly where no gate of the format stands there; `Failed` only where the disk's count
    /// rose.
    pub fn next_record<D: Disk>(
        &mut self,
        disk: &mut D,
        at: u64,
        out: &mut Bytes,
    ) -> Result<Option<u64>, GateError>
        ensures found { IfOk result (λ next. IfSome (D.disk disk.old).content (λ files. Finds (files self.old.file) at next out.old out.new)) }
        ensures further { IfOk result (λ next. IfSome next (λ place. at < place)) }
        ensures outside { IsErrOf result (GateError.NotARecord at) → IfSome (D.disk disk.old).content (λ files. gate_at (files self.old.file) at ≡ NoGate) }
        ensures only_here { (offset : ℕ) → IsErrOf result (GateError.NotARecord offset) → offset ≡ at }
        ensures out { OnErr result (out.new ≡ out.old) }
        ensures same { self.new ≡ self.old }
        ensures reads { Reads (D.disk disk.old) (D.disk disk.new) }
        ensures faults { MayFailUncounted (D.disk disk.old).faults (D.disk disk.new).faults (IsErrOf result GateError.Failed) }
    {
        let length = disk.len(self.file)?;
        if length < 2 {
            return Ok(None);
        }
        let Some(n) = body_length(disk, self.file, length, at)? else {
            return Ok(None);
        };
        let body = bytes_at(self.alloc, disk, self.file, at + 5, n)?;
        out.push_all(&body)?;
        Ok(Some(at + 5 + n))
    }
}
