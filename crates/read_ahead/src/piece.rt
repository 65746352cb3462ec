//! A piece of a file.
ghost use Rattle.std.specs.Prelude.{◌≡◌, ◌≤◌, ◌<◌, ◌+◌, ◌^◌, true, length, take, drop, IfOk, IfSome};
ghost use Rattle.disk_defs.specs.Disk.{Files, Reads, HasCause};
ghost use Rattle.disk_defs.specs.Frames.{Only, SameOutside};
ghost use Rattle.read_ahead.specs.Kept.{IsPieceOf};

use repl_disk::{Disk, Failed};
use std::alloc::Global;

/// What a file has from a place on.
#[derive(Debug, Drop)]
pub struct Piece {
    /// The file's number.
    pub file: u32,
    /// Where it begins, in bytes from the file's start.
    at: u64,
    bytes: Vec<u8>,
}

impl Piece {
    /// No bytes. It takes no memory.
    pub fn none(alloc: Global) -> Piece
        ensures { (files : Files) → IsPieceOf files result }
    {
        Piece {
            file: 0,
            at: 0,
            bytes: Vec::new(alloc),
        }
    }

    /// Keeps none of the bytes of this file. Their memory stays.
    pub fn forget(&mut self, file: u32)
        ensures { (old new : Files) → SameOutside (Only file) old new → IsPieceOf old self.old → IsPieceOf new self.new }
    {
        if self.file == file {
            self.bytes.clear();
        }
    }

    /// Where the bytes from a place of the file on stand in it, if so many do.
    fn find(&self, at: u64, many: usize) -> Option<usize>
        ensures from { IfSome result (λ from. self.now.at + from ≡ at) }
        ensures to { IfSome result (λ from. from + many ≤ length self.now.bytes.items) }
    {
        let from = at.checked_sub(self.at)?;
        let all = self.bytes.len() as u64;
        if from > all || many as u64 > all - from {
            return None;
        }
        Some(from as usize)
    }

    /// Fills the buffer with the bytes from a place of the file on, if it has them.
    pub fn give(&self, at: u64, buf: &mut [u8]) -> bool
        ensures { result ≡ true → (files : Files) → IsPieceOf files self.now → buf.new ≡ take (length buf.old) (drop at (files self.now.file)) }
    {
        let Some(from) = self.find(at, buf.len()) else {
            return false;
        };
        buf.copy_from_slice(&self.bytes[from..from + buf.len()]);
        true
    }

    /// Reads so many bytes of a file from a place on. It answers false where there is no memory for them, and then reads nothing.
    pub fn fill<D: Disk>(
        &mut self,
        disk: &mut D,
        file: u32,
        at: u64,
        many: usize,
    ) -> Result<bool, Failed>
        requires { IfSome (D.disk disk.old).content (λ files. at + many ≤ length (files file)) }
        ensures kept { IfSome (D.disk disk.old).content (λ files. IsPieceOf files self.new) }
        ensures file { IfOk result (λ filled. filled ≡ true → self.new.file ≡ file) }
        ensures reads { Reads (D.disk disk.old) (D.disk disk.new) }
        ensures cause { HasCause (D.disk disk.old).faults (D.disk disk.new).faults result }
    {
        self.file = file;
        self.at = at;
        if self.bytes.resize(many, 0).is_err() {
            self.bytes.clear();
            return Ok(false);
        }
        if disk.read_at(file, at, &mut self.bytes).is_err() {
            self.bytes.clear();
            return Err(Failed);
        }
        Ok(true)
    }
}
