//! A disk in memory, which keeps a record of its calls.
ghost use Rattle.std.specs.Prelude.{◌≡◌, ◌≢◌, ◌≤◌, ◌<◌, ◌+◌, ◌++◌, ◌^◌, [], ◌∷◌, ℕ, Some, length, reverse, IfOk, IfSome, OnOk, OnErr, IsTrue};
ghost use Rattle.global_defs.specs.Counts.{counted_on};
ghost use Rattle.disk_defs.specs.Disk.{Files, Image, HasCause};
ghost use Rattle.repl_disk.specs.Mem.{Wrote, Synced, replay, mem_view, settled, RoomTaken, RoomGiven};
ghost use Rattle.repl_disk.specs.MemLaws.{mem_lawful};
ghost use Rattle.repl_disk.specs.Table.{entry_in, lefts, rooms, syncs_of, IsCrashed, AreKept, all_calls, all_bytes};
ghost use Rattle.std.proofs.Props.{props};

use crate::disk::{Disk, Failed, NoMemory};
use crate::file::MemFile;
use crate::log::{Bytes, Calls};
use crate::table::{bytes_of, crash_files, find, grow_file, slot, sync_file, syncs_in, write_file};
use std::alloc::{AllocError, Global};

/// The greatest room in calls or bytes, on all files together.
const MOST: u64 = 1 << 58;

/// A disk in memory. It tells what its files have, and can be made to fail and to crash.
///
/// Its memory is a small factor of its files' length and of the room on them: clauses alone read its calls since the last crash.
/// Pick 0 of a crash gives each file its last synced bytes and end, pick 1 keeps all that was written. Each other pick numbers
/// the bytes written since each file's last sync, over the files in rising number and the places in rising order. By the rest
/// of that number times the pick by 3 a byte is as it was synced, or 0 past the synced end; or as written; or 01. The written
/// end stays.
#[derive(Drop)]
pub struct MemDisk {
    alloc: Global,
    /// The files, by rising number.
    files: Vec<MemFile>,
    /// The calls since the last crash that changed a file, the oldest first.
    calls: Calls,
    /// The bytes of all their writes.
    written: Bytes,
    /// The room that is left on all files together.
    calls_left: u64,
    bytes_left: u64,
    faults: u64,
    fuse: Option<u64>,
    ghost replayed: { (f : ℕ) → (entry_in files.items f).mem ≡ replay (lefts files.items) (reverse calls.items) written.items f } by { Prim.hlevel props },
    ghost kept: { AreKept files.items } by { Prim.hlevel props },
    ghost all_calls: { all_calls files.items ≡ calls_left },
    ghost all_bytes: { all_bytes files.items ≡ bytes_left },
}

impl MemDisk {
    /// A disk without files.
    pub fn new(alloc: Global) -> Result<MemDisk, NoMemory>
        ensures empty { IfOk result (λ made. (f : ℕ) → (replay (lefts made.files.items) (reverse made.calls.items) made.written.items f).read ≡ []) }
        ensures images { IfOk result (λ made. (c : Files) → Image (mem_view (lefts made.files.items) (reverse made.calls.items) made.written.items (rooms made.files.items) made.faults) c → (f : ℕ) → c f ≡ []) }
        ensures faults { IfOk result (λ made. made.faults ≡ 0) }
    {
        Ok(MemDisk {
            alloc,
            files: Vec::new(alloc),
            calls: Calls::none(),
            written: Bytes::none(),
            calls_left: 0,
            bytes_left: 0,
            faults: 0,
            fuse: None,
        })
    }
}

/// Burns one call of the fuse. Where none is left the call fails, and is counted.
fn burn(fuse: &mut Option<u64>, faults: &mut u64) -> Result<(), Failed>
    ensures { HasCause faults.old faults.new result }
{
    match *fuse {
        None => Ok(()),
        Some(0) => {
            *faults = faults.saturating_add(1);
            Err(Failed)
        }
        Some(calls) => {
            *fuse = Some(calls - 1);
            Ok(())
        }
    }
}

impl MemDisk {
    /// How many calls of `sync` on a file have succeeded since the disk was made.
    pub fn syncs(&self, file: u32) -> u64
        ensures { result ≡ syncs_of self.now.files.items file }
    {
        syncs_in(&self.files, file)
    }

    /// Writes, and records it.
    fn do_write(&mut self, file: u32, at: u64, bytes: &[u8])
        requires place { at ≤ length (replay (lefts self.old.files.items) (reverse self.old.calls.items) self.old.written.items file).read }
        requires calls { 1 ≤ (rooms self.old.files.items file).calls }
        requires bytes { length bytes.now ≤ (rooms self.old.files.items file).bytes }
        ensures calls { reverse self.new.calls.items ≡ Wrote file at (length bytes.now) ∷ reverse self.old.calls.items }
        ensures written { self.new.written.items ≡ self.old.written.items ++ bytes.now }
        ensures left { (f : ℕ) → lefts self.new.files.items f ≡ lefts self.old.files.items f }
        ensures room { RoomTaken file (length bytes.now) (rooms self.old.files.items) (rooms self.new.files.items) }
        ensures faults { self.new.faults ≡ self.old.faults }
        ensures syncs { (f : ℕ) → syncs_of self.new.files.items f ≡ syncs_of self.old.files.items f }
    {
        let Ok(i) = find(&self.files, file) else {
            unreachable!();
        };
        write_file(&mut self.files, file, i, at, bytes);
        let n = bytes.len() as u64;
        self.calls = self.calls.with_write(file, at, n);
        self.written = self.written.with(bytes);
        self.calls_left -= 1;
        self.bytes_left -= n;
    }

    /// Syncs, and records it.
    fn do_sync(&mut self, file: u32)
        requires { 1 ≤ (rooms self.old.files.items file).calls }
        ensures calls { reverse self.new.calls.items ≡ Synced file ∷ reverse self.old.calls.items }
        ensures written { self.new.written.items ≡ self.old.written.items }
        ensures left { (f : ℕ) → lefts self.new.files.items f ≡ lefts self.old.files.items f }
        ensures room { RoomTaken file 0 (rooms self.old.files.items) (rooms self.new.files.items) }
        ensures faults { self.new.faults ≡ self.old.faults }
        ensures syncs { syncs_of self.new.files.items file ≡ counted_on (syncs_of self.old.files.items file) }
        ensures others { (f : ℕ) → f ≢ file → syncs_of self.new.files.items f ≡ syncs_of self.old.files.items f }
    {
        let Ok(i) = find(&self.files, file) else {
            unreachable!();
        };
        sync_file(&mut self.files, file, i);
        self.calls = self.calls.with_sync(file);
        self.calls_left -= 1;
    }

    /// Takes the memory for so much more room on a file.
    fn do_room(&mut self, file: u32, calls: u64, bytes: u64) -> Result<(), AllocError>
        requires calls { self.old.calls_left + calls < 2 ^ 59 }
        requires bytes { self.old.bytes_left + bytes < 2 ^ 59 }
        ensures calls { self.new.calls.items ≡ self.old.calls.items }
        ensures written { self.new.written.items ≡ self.old.written.items }
        ensures left { (f : ℕ) → lefts self.new.files.items f ≡ lefts self.old.files.items f }
        ensures ok { OnOk result (RoomGiven file calls bytes (rooms self.old.files.items) (rooms self.new.files.items)) }
        ensures err { OnErr result ((f : ℕ) → rooms self.new.files.items f ≡ rooms self.old.files.items f) }
        ensures faults { self.new.faults ≡ self.old.faults }
    {
        let i = slot(&mut self.files, self.alloc, file)?;
        grow_file(&mut self.files, file, i, calls, bytes)?;
        self.calls_left += calls;
        self.bytes_left += bytes;
        Ok(())
    }

    /// Makes the image of this pick what the files have, and begins the record anew.
    fn do_crash(&mut self, pick: u64)
        ensures calls { self.new.calls.items ≡ [] }
        ensures written { self.new.written.items ≡ [] }
        ensures crashed { (f : ℕ) → IsCrashed (entry_in self.old.files.items f) (entry_in self.new.files.items f) }
        ensures faults { self.new.faults ≡ self.old.faults }
    {
        self.fuse = None;
        crash_files(&mut self.files, pick);
        self.calls = Calls::none();
        self.written = Bytes::none();
    }
}

impl Disk for MemDisk {
    ghost disk = { λ m. mem_view (lefts m.files.items) (reverse m.calls.items) m.written.items (rooms m.files.items) m.faults };

    ghost lawful = { λ m. mem_lawful (lefts m.files.items) (reverse m.calls.items) m.written.items (rooms m.files.items) m.faults };

    fn faults(&self) -> u64 {
        self.faults
    }

    fn simulated(&self) -> bool {
        true
    }

    fn len(&mut self, file: u32) -> Result<u64, Failed> {
        burn(&mut self.fuse, &mut self.faults)?;
        Ok(bytes_of(&self.files, file).len() as u64)
    }

    fn read_at(&mut self, file: u32, at: u64, buf: &mut [u8]) -> Result<(), Failed> {
        burn(&mut self.fuse, &mut self.faults)?;
        let bytes = bytes_of(&self.files, file);
        let at = at as usize;
        buf.copy_from_slice(&bytes[at..at + buf.len()]);
        Ok(())
    }

    fn room(&mut self, file: u32, calls: u32, bytes: u64) -> Result<(), NoMemory> {
        if self.calls_left >= MOST || self.bytes_left >= MOST || bytes >= MOST {
            return Err(NoMemory);
        }
        match self.do_room(file, calls as u64, bytes) {
            Ok(()) => Ok(()),
            Err(_) => Err(NoMemory),
        }
    }

    fn write_at(&mut self, file: u32, at: u64, bytes: &[u8]) -> Result<(), Failed> {
        burn(&mut self.fuse, &mut self.faults)?;
        self.do_write(file, at, bytes);
        Ok(())
    }

    fn sync(&mut self, file: u32) -> Result<(), Failed> {
        burn(&mut self.fuse, &mut self.faults)?;
        self.do_sync(file);
        Ok(())
    }

    fn fuse(&mut self, calls: u64) {
        self.fuse = Some(calls);
    }

    fn crash(&mut self, pick: u64) {
        self.do_crash(pick);
    }
}
