// Reads a piece at a time: the bytes that were written, by few calls of the disk.
use crate::rows::holds;
use read_ahead::ReadAhead;
use repl_disk::{Disk, Failed, MemDisk};
use std::alloc::Global;
use std::process::Abort;

/// How many bytes are written and read at once.
const ROW: usize = 100;

/// How many rows a long file has: three pieces, the last of them short.
const LONG: u16 = 1500;

/// How many rows a file of one piece has.
const SHORT: u16 = 3;

/// Makes room for a write and does it, where the place isn't past the end. Without memory it fails too.
fn put<D: Disk>(disk: &mut D, file: u32, at: u64, bytes: &[u8]) -> Result<bool, Failed> {
    let Ok(()) = disk.room(file, 1, bytes.len() as u64) else {
        return Err(Failed);
    };
    let end = disk.len(file)?;
    if end < at {
        return Ok(false);
    }
    disk.write_at(file, at, bytes)?;
    Ok(true)
}

/// Whether these are the bytes at a place of a file, at most a row.
fn has<D: Disk>(disk: &mut D, file: u32, at: u32, bytes: &[u8]) -> Result<bool, Failed> {
    let end = disk.len(file)?;
    let at = u64::from(at);
    if bytes.len() > ROW || end < at + bytes.len() as u64 {
        return Ok(false);
    }
    let mut buf = [0; ROW];
    let part = &mut buf[..bytes.len()];
    disk.read_at(file, at, part)?;
    Ok(&*part == bytes)
}

/// The row of a file that begins so far from its start, by a number.
fn row(file: u32, at: u32, number: u32) -> [u8; ROW] {
    let mut bytes = [0; ROW];
    for (i, byte) in bytes.iter_mut().enumerate() {
        *byte = ((u64::from(file) + u64::from(at) + u64::from(number) + i as u64) % 251) as u8;
    }
    bytes
}

/// Writes a row of a file.
fn write_row(rt: &impl Abort, disk: &mut ReadAhead<MemDisk>, file: u32, at: u32, number: u32) {
    let bytes = row(file, at, number);
    let is_put = put(disk, file, u64::from(at), &bytes);
    holds(rt, is_put == Ok(true), b"a row that is written");
}

/// Such a row is read whole, and its first half.
fn is_row(rt: &impl Abort, disk: &mut ReadAhead<MemDisk>, file: u32, at: u32, number: u32) {
    let bytes = row(file, at, number);
    let is_whole = has(disk, file, at, &bytes);
    holds(rt, is_whole == Ok(true), b"a row that is read");
    let half = bytes.chunks(50).next().expect(rt, "a row");
    let is_half = has(disk, file, at, half);
    holds(rt, is_half == Ok(true), b"the half of a row");
}

/// Writes so many rows of a file.
fn fill(rt: &impl Abort, disk: &mut ReadAhead<MemDisk>, file: u32, rows: u16, number: u32) {
    for i in 0..rows {
        write_row(rt, disk, file, ROW as u32 * u32::from(i), number);
    }
}

/// The file has these rows.
fn is_filled(rt: &impl Abort, disk: &mut ReadAhead<MemDisk>, file: u32, rows: u16, number: u32) {
    for i in 0..rows {
        is_row(rt, disk, file, ROW as u32 * u32::from(i), number);
    }
}

/// A disk with two long files and twelve short ones.
fn filled(rt: &impl Abort, alloc: Global) -> ReadAhead<MemDisk> {
    let disk = MemDisk::new(alloc).expect(rt, "memory");
    let mut disk = ReadAhead::over(alloc, disk);
    fill(rt, &mut disk, 1, LONG, 1);
    fill(rt, &mut disk, 2, LONG, 2);
    for file in 3..15u32 {
        fill(rt, &mut disk, file, SHORT, file);
    }
    disk
}

#[test]
fn rows_of_more_files_than_pieces(rt: HostRuntime) {
    let mut disk = filled(&rt, rt.alloc());
    for _ in 0..3 {
        for file in 3..15u32 {
            is_filled(&rt, &mut disk, file, SHORT, file);
        }
        is_row(&rt, &mut disk, 1, 65_500, 1);
    }
    is_filled(&rt, &mut disk, 1, LONG, 1);
    is_filled(&rt, &mut disk, 2, LONG, 2);
    let past = has(&mut disk, 1, 149_950, &row(1, 0, 0));
    holds(&rt, past == Ok(false), b"the end of a file");
}

#[test]
fn rows_behind_writes(rt: HostRuntime) {
    let mut disk = filled(&rt, rt.alloc());
    for number in 10..15u32 {
        is_row(&rt, &mut disk, 1, 0, 1);
        is_row(&rt, &mut disk, 3, 0, 3);
        write_row(&rt, &mut disk, 1, 300, number);
        is_row(&rt, &mut disk, 1, 300, number);
        is_row(&rt, &mut disk, 1, 200, 1);
        is_row(&rt, &mut disk, 3, 100, 3);
    }
    write_row(&rt, &mut disk, 3, 300, 9);
    is_row(&rt, &mut disk, 3, 300, 9);
    disk.crash(0);
    let none = has(&mut disk, 3, 0, &[3]);
    holds(&rt, none == Ok(false), b"a crash that leaves nothing");
}

/// Whether all rows of a long file are read, each once, by so many calls of the disk.
fn are_read_by(rt: &impl Abort, alloc: Global, calls: u64) -> bool {
    let mut disk = filled(rt, alloc);
    disk.fuse(calls);
    let mut read = true;
    for i in 0..LONG {
        let at = ROW as u32 * u32::from(i);
        read = read && has(&mut disk, 1, at, &row(1, at, 1)) == Ok(true);
    }
    holds(rt, read == (disk.faults() == 0), b"a fault that is counted");
    read
}

/// Each row asks for the length; three pieces are read, each by a length and a read.
#[test]
fn two_calls_a_piece(rt: HostRuntime) {
    let alloc = rt.alloc();
    holds(&rt, are_read_by(&rt, alloc, 1506), b"three pieces");
    holds(&rt, !are_read_by(&rt, alloc, 1505), b"a call too few");
}
