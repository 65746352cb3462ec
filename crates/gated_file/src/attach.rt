//! Taking up a gated file.
ghost use Rattle.std.specs.Prelude.{◌≡◌, ◌≢◌, ◌≤◌, ◌<◌, ◌^◌, [], ℕ, List, length, slice_index_or, Some, None, IfOk, IfSome, OnOk, OnErr, IsErrOf, IsTrue, MatchBool};
ghost use Rattle.disk_defs.specs.Disk.{Image, IsDurable, AtEachMoment, Reads, HasCause, MayFailUncounted};
ghost use Rattle.disk_defs.specs.Frames.{Only, OthersStay};
ghost use Rattle.disk_defs.specs.Gates.{Body, records};
ghost use Rattle.gated_file.specs.Gated.{IsReady, HasState, IsStanding};
ghost use Rattle.gated_file.specs.Reading.{EndsAt};
ghost use Rattle.disk_defs.specs.OutsideGates.{IsOutside};
ghost use Rattle.gated_file.specs.Begin.{IsBegun, KeepsRecords};
ghost use Rattle.gated_file.specs.State.{settled};

use crate::error::GateError;
use crate::gated::Gated;
use crate::read::body_length;
use repl_disk::Disk;
use std::alloc::Global;
use std::collections::VecDeque;

/// Where the first closed gate stands.
fn find_end<D: Disk>(disk: &mut D, file: u32, size: u64) -> Result<u64, GateError>
    requires long { 2 ≤ size }
    requires told { IfSome (D.disk disk.old).content (λ files. size ≡ length (files file)) }
    ensures end { IfOk result (λ end. IfSome (D.disk disk.old).content (λ files. (bodies : List Body) × EndsAt (files file) bodies end)) }
    ensures near { IfOk result (λ end. end < 2 ^ 64) }
    ensures outside { (offset : ℕ) → IsErrOf result (GateError.NotARecord offset) → IfSome (D.disk disk.old).content (λ files. IsOutside (files file) offset) }
    ensures reads { Reads (D.disk disk.old) (D.disk disk.new) }
    ensures faults { MayFailUncounted (D.disk disk.old).faults (D.disk disk.new).faults (IsErrOf result GateError.Failed) }
{
    let mut at = 0;
    while let Some(n) = body_length(disk, file, size, at)? {
        at += n + 5;
    }
    Ok(at)
}

/// Whether the file's first byte is a closed gate. A file without bytes has none.
fn has_closed_gate<D: Disk>(disk: &mut D, file: u32, size: u64) -> Result<bool, GateError>
    requires told { IfSome (D.disk disk.old).content (λ files. size ≡ length (files file)) }
    ensures value { IfOk result (λ closed. IfSome (D.disk disk.old).content (λ files. MatchBool closed (slice_index_or (files file) 0 1 ≢ 1) (slice_index_or (files file) 0 1 ≡ 1))) }
    ensures reads { Reads (D.disk disk.old) (D.disk disk.new) }
    ensures cause { HasCause (D.disk disk.old).faults (D.disk disk.new).faults result }
    ensures failed { OnErr result (IsErrOf result GateError.Failed) }
{
    if size == 0 {
        return Ok(false);
    }
    let mut gate = [0];
    disk.read_at(file, 0, &mut gate)?;
    Ok(gate[0] != 1)
}

/// Gives a file without records, which is synced, its closed gate at place 0 where it has none, and syncs it.
fn begin<D: Disk>(disk: &mut D, file: u32, size: u64) -> Result<(), GateError>
    requires told { IfSome (D.disk disk.old).content (λ files. size ≡ length (files file)) }
    requires empty { IfSome (D.disk disk.old).content (λ files. records (files file) ≡ Some []) }
    requires durable { IfSome (D.disk disk.old).content (λ files. IsDurable (D.disk disk.old) file (files file)) }
    requires room { (D.disk disk.old).has_room file 2 1 }
    ensures begun { OnOk result (IfSome (D.disk disk.new).content (λ files. IsBegun (D.disk disk.new) file (files file))) }
    ensures any_moment { IfSome (D.disk disk.old).content (λ _. AtEachMoment (D.disk disk.old) (D.disk disk.new) (KeepsRecords (D.disk disk.old) file)) }
    ensures frame { OthersStay (Only file) (D.disk disk.old) (D.disk disk.new) }
    ensures cause { HasCause (D.disk disk.old).faults (D.disk disk.new).faults result }
    ensures failed { OnErr result (IsErrOf result GateError.Failed) }
{
    if has_closed_gate(disk, file, size)? {
        return Ok(());
    }
    disk.write_at(file, 0, &[0])?;
    Ok(disk.sync(file)?)
}

/// Syncs a file: what it reads as is then on the disk for good.
///
/// # Errors
/// `Failed` only where the disk's count rose, and `NoMemory`.
pub fn sync_file<D: Disk>(disk: &mut D, file: u32) -> Result<(), GateError>
    ensures durable { OnOk result (IfSome (D.disk disk.old).content (λ files. IsDurable (D.disk disk.new) file (files file))) }
    ensures content { (D.disk disk.new).content ≡ (D.disk disk.old).content }
    ensures any_moment { AtEachMoment (D.disk disk.old) (D.disk disk.new) (Image (D.disk disk.old)) }
    ensures frame { OthersStay (Only file) (D.disk disk.old) (D.disk disk.new) }
    ensures faults { MayFailUncounted (D.disk disk.old).faults (D.disk disk.new).faults (IsErrOf result GateError.Failed) }
    ensures outside { (offset : ℕ) → IsErrOf result (GateError.NotARecord offset) → ⊥ }
{
    if disk.room(file, 1, 0).is_err() {
        return Err(GateError::NoMemory);
    }
    Ok(disk.sync(file)?)
}

/// Sees that a file is in the format from its start to its first closed gate. It reads no body.
///
/// # Errors
/// `NotARecord` with the place of the first gate that is outside the format, and `Failed` only where the disk's count rose.
pub fn see_gates<D: Disk>(disk: &mut D, file: u32) -> Result<(), GateError>
    ensures listed { OnOk result (IfSome (D.disk disk.old).content (λ files. (bodies : List Body) × (records (files file) ≡ Some bodies))) }
    ensures outside { (offset : ℕ) → IsErrOf result (GateError.NotARecord offset) → IfSome (D.disk disk.old).content (λ files. IsOutside (files file) offset) }
    ensures reads { Reads (D.disk disk.old) (D.disk disk.new) }
    ensures faults { MayFailUncounted (D.disk disk.old).faults (D.disk disk.new).faults (IsErrOf result GateError.Failed) }
{
    let size = disk.len(file)?;
    if size < 2 {
        return Ok(());
    }
    find_end(disk, file, size)?;
    Ok(())
}

/// Makes room to begin a file, syncs it, and answers its length.
fn settle<D: Disk>(disk: &mut D, file: u32) -> Result<u64, GateError>
    ensures size { IfOk result (λ size. IfSome (D.disk disk.old).content (λ files. size ≡ length (files file))) }
    ensures content { (D.disk disk.new).content ≡ (D.disk disk.old).content }
    ensures durable { OnOk result (IfSome (D.disk disk.old).content (λ files. IsDurable (D.disk disk.new) file (files file))) }
    ensures room { OnOk result ((D.disk disk.new).has_room file 2 1) }
    ensures any_moment { AtEachMoment (D.disk disk.old) (D.disk disk.new) (Image (D.disk disk.old)) }
    ensures frame { OthersStay (Only file) (D.disk disk.old) (D.disk disk.new) }
    ensures faults { MayFailUncounted (D.disk disk.old).faults (D.disk disk.new).faults (IsErrOf result GateError.Failed) }
    ensures outside { (offset : ℕ) → IsErrOf result (GateError.NotARecord offset) → ⊥ }
{
    sync_file(disk, file)?;
    if disk.room(file, 2, 1).is_err() {
        return Err(GateError::NoMemory);
    }
    let size = disk.len(file)?;
    Ok(size)
}

impl Gated {
    /// A file whose last closed gate stands there, with no room for more.
    fn standing(alloc: Global, file: u32, end: u64) -> Result<Gated, GateError>
        ensures made { IfOk result (λ made. IsStanding made file end) }
        ensures err { OnErr result (IsErrOf result GateError.NoMemory) }
    {
        let mut buffer = Vec::new(alloc);
        if buffer.reserve(5).is_err() {
            return Err(GateError::NoMemory);
        }
        Ok(Gated {
            alloc,
            file,
            end,
            closed: VecDeque::new(alloc),
            buffer,
            bodies_left: 0,
            bytes_left: 0,
            syncs_left: 0,
            synced: true,
        })
    }

    /// Takes up a file that has no records, and gives it its first closed gate.
    ///
    /// It syncs the file first. Where the file then has a byte at place 0 that isn't 01, it writes nothing, since that byte
    /// is a closed gate; else it writes one byte 00 there and syncs it.
    ///
    /// # Errors
    /// `Failed` only where the disk's count rose, and `NoMemory`.
    pub fn fresh<D: Disk>(alloc: Global, disk: &mut D, file: u32) -> Result<Gated, GateError>
        requires empty { IfSome (D.disk disk.old).content (λ files. records (files file) ≡ Some []) }
        ensures ready { IfOk result (λ made. IsReady (D.disk disk.new) made) }
        ensures file { IfOk result (λ made. made.file ≡ file) }
        ensures is_synced { IfOk result (λ made. IsTrue made.synced) }
        ensures state { IfOk result (λ made. IfSome (D.disk disk.old).content (λ _. HasState (D.disk disk.new) made (settled []))) }
        ensures any_moment { IfSome (D.disk disk.old).content (λ _. AtEachMoment (D.disk disk.old) (D.disk disk.new) (KeepsRecords (D.disk disk.old) file)) }
        ensures frame { OthersStay (Only file) (D.disk disk.old) (D.disk disk.new) }
        ensures faults { MayFailUncounted (D.disk disk.old).faults (D.disk disk.new).faults (IsErrOf result GateError.Failed) }
        ensures outside { (offset : ℕ) → IsErrOf result (GateError.NotARecord offset) → ⊥ }
    {
        let size = settle(disk, file)?;
        begin(disk, file, size)?;
        Gated::standing(alloc, file, 0)
    }

    /// Takes up a file with the records that it has. All of them are hardened from then on.
    ///
    /// It syncs the file first. A file shorter than two bytes is made as `fresh` makes it.
    ///
    /// # Errors
    /// `NotARecord` exactly where the file is outside the format, with the place of the first gate that is outside it;
    /// `Failed` only where the disk's count rose; and `NoMemory`.
    pub fn attach<D: Disk>(alloc: Global, disk: &mut D, file: u32) -> Result<Gated, GateError>
        ensures ready { IfOk result (λ made. IsReady (D.disk disk.new) made) }
        ensures file { IfOk result (λ made. made.file ≡ file) }
        ensures is_synced { IfOk result (λ made. IsTrue made.synced) }
        ensures state { IfOk result (λ made. IfSome (D.disk disk.old).content (λ files. (bodies : List Body) × (records (files file) ≡ Some bodies) × HasState (D.disk disk.new) made (settled bodies))) }
        ensures outside { (offset : ℕ) → IsErrOf result (GateError.NotARecord offset) → IfSome (D.disk disk.old).content (λ files. IsOutside (files file) offset) }
        ensures no_list { (offset : ℕ) → IsErrOf result (GateError.NotARecord offset) → IfSome (D.disk disk.old).content (λ files. records (files file) ≡ None) }
        ensures any_moment { IfSome (D.disk disk.old).content (λ _. AtEachMoment (D.disk disk.old) (D.disk disk.new) (KeepsRecords (D.disk disk.old) file)) }
        ensures frame { OthersStay (Only file) (D.disk disk.old) (D.disk disk.new) }
        ensures faults { MayFailUncounted (D.disk disk.old).faults (D.disk disk.new).faults (IsErrOf result GateError.Failed) }
    {
        let size = settle(disk, file)?;
        if size < 2 {
            begin(disk, file, size)?;
            return Gated::standing(alloc, file, 0);
        }
        let end = find_end(disk, file, size)?;
        Gated::standing(alloc, file, end)
    }
}
