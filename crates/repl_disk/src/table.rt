//! The table of a memory disk's files.
ghost use Rattle.std.specs.Prelude.{◌≡◌, ◌≢◌, ◌≤◌, ◌<◌, ◌+◌, ◌^◌, ℕ, length, IfOk, IfErr, IsTrue, OnOk, OnErr};
ghost use Rattle.repl_disk.specs.Mem.{Mem};
ghost use Rattle.repl_disk.specs.Table.{entry_in, syncs_of, put_entry, entry_written, entry_synced, entry_grown, IsCrashed, IsFirst, IsAbsent, IsBound, IsPlaceFor, AreKept, all_calls, all_bytes};

use crate::file::MemFile;
use std::alloc::{AllocError, Global};

/// The place of the first file whose number is not below this one. It looks by halves.
fn place_of(files: &[MemFile], number: u32) -> usize
    requires { AreKept files.now }
    ensures { IsBound files.now number result }
{
    files.partition_point(|file| file.number < number)
}

/// Whether the first file, which is read most often, has this number.
fn is_first(files: &[MemFile], number: u32) -> bool
    ensures { IsTrue result → IsFirst files.now number 0 }
{
    match files {
        [first, ..] => first.number == number,
        [] => false,
    }
}

/// The place of the file of this number, or the one where it would be put, among all files.
fn search(files: &[MemFile], number: u32) -> Result<usize, usize>
    requires { AreKept files.now }
    ensures found { IfOk result (IsFirst files.now number) }
    ensures absent { IfErr result (λ _. IsAbsent files.now number) }
    ensures place { IfErr result (IsPlaceFor files.now number) }
{
    let i = place_of(files, number);
    if i < files.len() && files[i].number == number {
        Ok(i)
    } else {
        Err(i)
    }
}

/// The place of the file of this number, or the one where it would be put. The first file is looked at before it searches.
pub fn find(files: &[MemFile], number: u32) -> Result<usize, usize>
    requires { AreKept files.now }
    ensures found { IfOk result (IsFirst files.now number) }
    ensures absent { IfErr result (λ _. IsAbsent files.now number) }
    ensures place { IfErr result (IsPlaceFor files.now number) }
{
    if is_first(files, number) {
        Ok(0)
    } else {
        search(files, number)
    }
}

/// The bytes of a file; none where it is not there.
pub fn bytes_of(files: &[MemFile], number: u32) -> &[u8]
    requires { AreKept files.now }
    ensures { result.now ≡ (entry_in files.now number).mem.read }
{
    match find(files, number) {
        Ok(i) => &files[i].read,
        Err(_) => &[],
    }
}

/// How many syncs of a file there were; none where it is not there.
pub fn syncs_in(files: &[MemFile], number: u32) -> u64
    requires { AreKept files.now }
    ensures { result ≡ syncs_of files.now number }
{
    match find(files, number) {
        Ok(i) => files[i].syncs,
        Err(_) => 0,
    }
}

/// The place of a file, which is put there where it is missing.
pub fn slot(files: &mut Vec<MemFile>, alloc: Global, number: u32) -> Result<usize, AllocError>
    requires kept { AreKept files.old.items }
    ensures kept { AreKept files.new.items }
    ensures same { (f : ℕ) → entry_in files.new.items f ≡ entry_in files.old.items f }
    ensures calls { all_calls files.new.items ≡ all_calls files.old.items }
    ensures bytes { all_bytes files.new.items ≡ all_bytes files.old.items }
    ensures ok { IfOk result (IsFirst files.new.items number) }
{
    match find(files, number) {
        Ok(i) => Ok(i),
        Err(i) => {
            files.insert(i, MemFile::new(alloc, number))?;
            Ok(i)
        }
    }
}

/// Adds room on a file.
pub fn grow_file(
    files: &mut Vec<MemFile>,
    number: u32,
    i: usize,
    calls: u64,
    bytes: u64,
) -> Result<(), AllocError>
    requires kept { AreKept files.old.items }
    requires first { IsFirst files.old.items number i }
    requires calls { (entry_in files.old.items number).room.calls + calls < 2 ^ 59 }
    requires bytes { (entry_in files.old.items number).room.bytes + bytes < 2 ^ 59 }
    ensures kept { AreKept files.new.items }
    ensures ok { OnOk result ((f : ℕ) → entry_in files.new.items f ≡ put_entry number (entry_grown calls bytes (entry_in files.old.items number)) (entry_in files.old.items) f) }
    ensures calls { OnOk result (all_calls files.new.items ≡ all_calls files.old.items + calls) }
    ensures bytes { OnOk result (all_bytes files.new.items ≡ all_bytes files.old.items + bytes) }
    ensures err { OnErr result ((f : ℕ) → entry_in files.new.items f ≡ entry_in files.old.items f) }
    ensures err_calls { OnErr result (all_calls files.new.items ≡ all_calls files.old.items) }
    ensures err_bytes { OnErr result (all_bytes files.new.items ≡ all_bytes files.old.items) }
{
    let file = &mut files[i];
    file.reserve(calls, bytes)?;
    Ok(())
}

/// Writes over what a file has, and past its end.
pub fn write_file(files: &mut Vec<MemFile>, number: u32, i: usize, at: u64, bytes: &[u8])
    requires kept { AreKept files.old.items }
    requires first { IsFirst files.old.items number i }
    requires inside { at ≤ length (entry_in files.old.items number).mem.read }
    requires calls { 1 ≤ (entry_in files.old.items number).room.calls }
    requires bytes { length bytes.now ≤ (entry_in files.old.items number).room.bytes }
    ensures kept { AreKept files.new.items }
    ensures entries { (f : ℕ) → entry_in files.new.items f ≡ put_entry number (entry_written at bytes.now (entry_in files.old.items number)) (entry_in files.old.items) f }
    ensures all_calls { all_calls files.new.items + 1 ≡ all_calls files.old.items }
    ensures all_bytes { all_bytes files.new.items + length bytes.now ≡ all_bytes files.old.items }
{
    let file = &mut files[i];
    file.write(at as usize, bytes);
}

/// Puts what a file reads on the disk.
pub fn sync_file(files: &mut Vec<MemFile>, number: u32, i: usize)
    requires kept { AreKept files.old.items }
    requires first { IsFirst files.old.items number i }
    requires calls { 1 ≤ (entry_in files.old.items number).room.calls }
    ensures kept { AreKept files.new.items }
    ensures entries { (f : ℕ) → entry_in files.new.items f ≡ put_entry number (entry_synced (entry_in files.old.items number)) (entry_in files.old.items) f }
    ensures all_calls { all_calls files.new.items + 1 ≡ all_calls files.old.items }
    ensures all_bytes { all_bytes files.new.items ≡ all_bytes files.old.items }
{
    let file = &mut files[i];
    file.sync();
}

/// Makes the image of this pick what the files have.
pub fn crash_files(files: &mut Vec<MemFile>, pick: u64)
    requires kept { AreKept files.old.items }
    ensures kept { AreKept files.new.items }
    ensures crashed { (f : ℕ) → IsCrashed (entry_in files.old.items f) (entry_in files.new.items f) }
    ensures all_calls { all_calls files.new.items ≡ all_calls files.old.items }
    ensures all_bytes { all_bytes files.new.items ≡ all_bytes files.old.items }
{
    let mut first = 0;
    for i in 0..files.len() {
        let file = &mut files[i];
        first = file.crash(pick, first);
    }
}
