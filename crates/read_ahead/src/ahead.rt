//! A disk whose reads are made a piece at a time.
ghost use Rattle.std.specs.Prelude.{◌≡◌, ◌≤◌, ◌<◌, ◌+◌, length, take, drop, IfSome, OnOk};
ghost use Rattle.std.proofs.Props.{props};
ghost use Rattle.disk_defs.specs.Disk.{Reads, HasCause};
ghost use Rattle.read_ahead.specs.Kept.{AreKept};

use super::piece::Piece;
use super::pieces::{bring, forget, give};
use repl_disk::{Disk, Failed, NoMemory};
use std::alloc::Global;

/// How many bytes a piece has at most.
const PIECE: u64 = 1 << 16;

/// A disk of whose files pieces are kept, so that small reads one behind the other are one read of it.
///
/// A read that isn't at hand reads the file's next 65,536 bytes from its place on, or up to the file's end, and keeps them. At most
/// ten pieces are kept, each of another file; the one that was used longest ago goes. Without memory, and where the buffer is no
/// shorter than the piece, the read is the disk's own. Whatever changes a file keeps nothing of it.
#[derive(Drop)]
pub struct ReadAhead<D: Disk> {
    alloc: Global,
    disk: D,
    pieces: Vec<Piece>,
    ghost kept: { IfSome (D.disk disk).content (λ files. AreKept files pieces.items) } by { Prim.hlevel props },
}

impl<D: Disk> ReadAhead<D> {
    /// The same disk, of which nothing is kept yet.
    pub fn over(alloc: Global, disk: D) -> Self
        ensures disk { result.disk ≡ disk }
    {
        ReadAhead {
            alloc,
            disk,
            pieces: Vec::new(alloc),
        }
    }

    /// The disk itself.
    pub fn into_disk(self) -> D
        ensures { result ≡ self.disk }
    {
        self.disk
    }
}

/// Reads bytes of which no piece is at hand, and keeps one where there is memory.
fn read_piece<D: Disk>(
    alloc: Global,
    disk: &mut D,
    pieces: &mut Vec<Piece>,
    file: u32,
    at: u64,
    buf: &mut [u8],
) -> Result<(), Failed>
    requires inside { IfSome (D.disk disk.old).content (λ files. at + length buf.old ≤ length (files file)) }
    requires kept { IfSome (D.disk disk.old).content (λ files. AreKept files pieces.old.items) }
    ensures kept { IfSome (D.disk disk.old).content (λ files. AreKept files pieces.new.items) }
    ensures bytes { OnOk result (IfSome (D.disk disk.old).content (λ files. buf.new ≡ take (length buf.old) (drop at (files file)))) }
    ensures reads { Reads (D.disk disk.old) (D.disk disk.new) }
    ensures cause { HasCause (D.disk disk.old).faults (D.disk disk.new).faults result }
{
    let size = disk.len(file)?;
    let many = size.saturating_sub(at).min(PIECE);
    if many <= buf.len() as u64 || !bring(pieces, alloc, file) {
        return disk.read_at(file, at, buf);
    }
    let front = &mut pieces[0];
    if front.fill(disk, file, at, many as usize)? && front.give(at, buf) {
        return Ok(());
    }
    disk.read_at(file, at, buf)
}

impl<D: Disk> Disk for ReadAhead<D> {
    ghost disk = { λ r. D.disk r.disk };

    ghost lawful = { λ r. D.lawful r.disk };

    fn faults(&self) -> u64 {
        self.disk.faults()
    }

    fn simulated(&self) -> bool {
        self.disk.simulated()
    }

    fn len(&mut self, file: u32) -> Result<u64, Failed> {
        self.disk.len(file)
    }

    fn read_at(&mut self, file: u32, at: u64, buf: &mut [u8]) -> Result<(), Failed> {
        if buf.len() as u64 >= PIECE {
            return self.disk.read_at(file, at, buf);
        }
        if give(&mut self.pieces, file, at, buf) {
            return Ok(());
        }
        read_piece(self.alloc, &mut self.disk, &mut self.pieces, file, at, buf)
    }

    fn room(&mut self, file: u32, calls: u32, bytes: u64) -> Result<(), NoMemory> {
        self.disk.room(file, calls, bytes)
    }

    fn write_at(&mut self, file: u32, at: u64, bytes: &[u8]) -> Result<(), Failed> {
        forget(&mut self.pieces, file);
        self.disk.write_at(file, at, bytes)
    }

    fn sync(&mut self, file: u32) -> Result<(), Failed> {
        self.disk.sync(file)
    }

    fn fuse(&mut self, calls: u64) {
        self.pieces.clear();
        self.disk.fuse(calls);
    }

    fn crash(&mut self, pick: u64) {
        self.pieces.clear();
        self.disk.crash(pick);
    }
}
