//! One file of a memory disk.
ghost use Rattle.std.specs.Prelude.{◌≡◌, ◌≤◌, ◌<◌, ◌+◌, ◌++◌, ◌^◌, ℕ, true, false, length, replicate, slice_index_or, vec_capacity, OnOk, OnErr};
ghost use Rattle.global_defs.specs.Counts.{counted_on};
ghost use Rattle.disk_defs.specs.Disk.{written};
ghost use Rattle.repl_disk.specs.Mem.{marked, wrote, settled, IsImageOf};
ghost use Rattle.repl_disk.specs.Table.{mem_of, room_of, entry_of, nothing, IsKept, HasMemory};

use crate::log::Bytes;
use std::alloc::{AllocError, Global};

/// A file as it reads, and from a place on as it was synced last, and for each place whether it was written since.
///
/// Before that place it was synced as it reads. Each list has memory for the whole file and the bytes that the room lets be written.
#[derive(Drop)]
pub struct MemFile {
    pub number: u32,
    pub read: Vec<u8>,
    /// No place before this one was written since the last sync.
    pub low: usize,
    /// What was synced last from `low` on.
    pub synced: Vec<u8>,
    /// Whether each place from `low` on was written since the last sync.
    pub marks: Vec<bool>,
    /// What the last crash left.
    pub left: Bytes,
    pub calls_left: u64,
    pub bytes_left: u64,
    /// How many syncs there were.
    pub syncs: u64,
}

/// Writes over what is there, and past the end.
fn overwrite(read: &mut Vec<u8>, at: usize, bytes: &[u8])
    requires place { at ≤ length read.old.items }
    requires room { length read.old.items + length bytes.now ≤ vec_capacity read.old }
    ensures items { read.new.items ≡ written read.old.items at bytes.now }
    ensures capacity { vec_capacity read.old ≤ vec_capacity read.new }
{
    if bytes.len() <= read.len() - at {
        read[at..at + bytes.len()].copy_from_slice(bytes);
        return;
    }
    read.truncate(at);
    if read.extend_from_slice(bytes).is_err() {
        unreachable!();
    }
}

/// Marks so many places from this one on.
fn mark(marks: &mut Vec<bool>, at: usize, n: usize)
    requires place { at ≤ length marks.old.items }
    requires room { length marks.old.items + n ≤ vec_capacity marks.old }
    ensures items { marks.new.items ≡ marked marks.old.items at n }
    ensures capacity { vec_capacity marks.old ≤ vec_capacity marks.new }
{
    if n <= marks.len() - at {
        marks[at..at + n].fill(true);
        return;
    }
    marks.truncate(at);
    if marks.resize(at + n, true).is_err() {
        unreachable!();
    }
}

/// Puts bytes in front of those that are there.
fn put_before(list: &mut Vec<u8>, bytes: &[u8])
    requires { length list.old.items + length bytes.now ≤ vec_capacity list.old }
    ensures items { list.new.items ≡ bytes.now ++ list.old.items }
    ensures capacity { vec_capacity list.old ≤ vec_capacity list.new }
{
    if bytes.is_empty() {
        return;
    }
    if list.extend_from_slice(bytes).is_err() {
        unreachable!();
    }
    list.rotate_right(bytes.len());
}

/// Puts so many places without a mark in front of those that are there.
fn unmarked_before(marks: &mut Vec<bool>, n: usize)
    requires { length marks.old.items + n ≤ vec_capacity marks.old }
    ensures items { marks.new.items ≡ replicate n false ++ marks.old.items }
    ensures capacity { vec_capacity marks.old ≤ vec_capacity marks.new }
{
    if n == 0 {
        return;
    }
    if marks.resize(marks.len() + n, false).is_err() {
        unreachable!();
    }
    marks.rotate_right(n);
}

/// What a crash makes of a written byte, by the rest of its number times the pick by 3.
fn byte_of(rest: u64, synced: Option<&u8>, read: u8) -> u8 {
    match rest {
        0 => match synced {
            Some(byte) => *byte,
            None => 0,
        },
        1 => read,
        _ => 1,
    }
}

/// Gives each written place its byte by its number, from the number with this rest by 3 on, and answers the next one's.
fn choose(read: &mut [u8], synced: &[u8], marks: &[bool], pick: u64, first: u64) -> u64
    requires first { first < 3 }
    requires marks { length marks.now ≡ length read.old }
    ensures next { result < 3 }
    ensures length { length read.new ≡ length read.old }
    ensures same { (i : ℕ) → slice_index_or marks.now i true ≡ false → slice_index_or read.new i 0 ≡ slice_index_or read.old i 0 }
{
    let mut number = first;
    for i in 0..read.len() {
        if marks[i] {
            read[i] = byte_of(number * (pick % 3) % 3, synced.get(i), read[i]);
            number = (number + 1) % 3;
        }
    }
    number
}

impl MemFile {
    /// An empty file without room.
    pub fn new(alloc: Global, number: u32) -> MemFile
        ensures number { result.number ≡ number }
        ensures entry { entry_of result ≡ nothing }
        ensures kept { IsKept result }
    {
        MemFile {
            number,
            read: Vec::new(alloc),
            low: 0,
            synced: Vec::new(alloc),
            marks: Vec::new(alloc),
            left: Bytes::none(),
            calls_left: 0,
            bytes_left: 0,
            syncs: 0,
        }
    }

    /// Adds room, and takes the memory for it.
    pub fn reserve(&mut self, calls: u64, bytes: u64) -> Result<(), AllocError>
        requires kept { IsKept self.old }
        requires calls { self.old.calls_left + calls < 2 ^ 59 }
        requires bytes { self.old.bytes_left + bytes < 2 ^ 59 }
        ensures kept { IsKept self.new }
        ensures number { self.new.number ≡ self.old.number }
        ensures mem { mem_of self.new ≡ mem_of self.old }
        ensures left { self.new.left.items ≡ self.old.left.items }
        ensures calls { OnOk result (self.new.calls_left ≡ self.old.calls_left + calls) }
        ensures bytes { OnOk result (self.new.bytes_left ≡ self.old.bytes_left + bytes) }
        ensures err { OnErr result (room_of self.new ≡ room_of self.old) }
        ensures syncs { self.new.syncs ≡ self.old.syncs }
    {
        let more = (self.bytes_left + bytes) as usize;
        self.read.reserve(more)?;
        self.synced
            .reserve(self.read.len() - self.synced.len() + more)?;
        self.marks
            .reserve(self.read.len() - self.marks.len() + more)?;
        self.calls_left += calls;
        self.bytes_left += bytes;
        Ok(())
    }

    /// Writes over what is there, and past the end. Before the first place that was written since the last sync it copies what
    /// stands between.
    pub fn write(&mut self, at: usize, bytes: &[u8])
        requires kept { IsKept self.old }
        requires place { at ≤ length self.old.read.items }
        requires calls { 1 ≤ self.old.calls_left }
        requires bytes { length bytes.now ≤ self.old.bytes_left }
        ensures kept { IsKept self.new }
        ensures number { self.new.number ≡ self.old.number }
        ensures mem { mem_of self.new ≡ wrote at bytes.now (mem_of self.old) }
        ensures left { self.new.left.items ≡ self.old.left.items }
        ensures calls { self.new.calls_left + 1 ≡ self.old.calls_left }
        ensures bytes { self.new.bytes_left + length bytes.now ≡ self.old.bytes_left }
        ensures syncs { self.new.syncs ≡ self.old.syncs }
    {
        let first = self.low.min(at);
        put_before(&mut self.synced, &self.read[first..self.low]);
        unmarked_before(&mut self.marks, self.low - first);
        self.low = first;
        overwrite(&mut self.read, at, bytes);
        mark(&mut self.marks, at - first, bytes.len());
        self.calls_left -= 1;
        self.bytes_left -= bytes.len() as u64;
    }

    /// Puts what it reads on the disk.
    pub fn sync(&mut self)
        requires kept { IsKept self.old }
        requires calls { 1 ≤ self.old.calls_left }
        ensures kept { IsKept self.new }
        ensures number { self.new.number ≡ self.old.number }
        ensures mem { mem_of self.new ≡ settled self.old.read.items }
        ensures left { self.new.left.items ≡ self.old.left.items }
        ensures calls { self.new.calls_left + 1 ≡ self.old.calls_left }
        ensures bytes { self.new.bytes_left ≡ self.old.bytes_left }
        ensures syncs { self.new.syncs ≡ counted_on self.old.syncs }
    {
        self.low = self.read.len();
        self.synced.clear();
        self.marks.clear();
        self.calls_left -= 1;
        self.syncs = self.syncs.saturating_add(1);
    }

    /// Puts what it reads on the disk as what a crash left.
    fn settle(&mut self)
        requires { HasMemory self.old }
        ensures kept { IsKept self.new }
        ensures number { self.new.number ≡ self.old.number }
        ensures mem { mem_of self.new ≡ settled self.old.read.items }
        ensures left { self.new.left.items ≡ self.old.read.items }
        ensures room { room_of self.new ≡ room_of self.old }
        ensures syncs { self.new.syncs ≡ self.old.syncs }
    {
        self.left = Bytes::of(&self.read);
        self.low = self.read.len();
        self.synced.clear();
        self.marks.clear();
    }

    /// Makes the image of this pick what it has. The first written place has the number with this rest by 3; it answers the
    /// next number's.
    pub fn crash(&mut self, pick: u64, first: u64) -> u64
        requires first { first < 3 }
        requires kept { IsKept self.old }
        ensures next { result < 3 }
        ensures kept { IsKept self.new }
        ensures number { self.new.number ≡ self.old.number }
        ensures image { IsImageOf (mem_of self.old) self.new.read.items }
        ensures mem { mem_of self.new ≡ settled self.new.read.items }
        ensures left { self.new.left.items ≡ self.new.read.items }
        ensures room { room_of self.new ≡ room_of self.old }
        ensures syncs { self.new.syncs ≡ self.old.syncs }
    {
        if pick == 1 {
            self.settle();
            return first;
        }
        let next = choose(
            &mut self.read[self.low..],
            &self.synced,
            &self.marks,
            pick,
            first,
        );
        if pick == 0 {
            self.read.truncate(self.low + self.synced.len());
        }
        self.settle();
        next
    }
}
