// Images by pick on worked files, and a fuse at each call.
use crate::rows::{cut, holds, lines};
use repl_disk::{Disk, Failed, MemDisk};
use std::alloc::Global;
use std::process::Abort;

/// Makes room for a write and does it, where the place isn't past the end. Without memory it fails too.
fn put(disk: &mut MemDisk, file: u32, at: u64, bytes: &[u8]) -> Result<bool, Failed> {
    let Ok(()) = disk.room(file, 1, bytes.len() as u64) else {
        return Err(Failed);
    };
    let end = disk.len(file)?;
    if end < at {
        return Ok(false);
    }
    disk.write_at(file, at, bytes)?;
    Ok(true)
}

/// Such a write is done.
fn is_put(rt: &impl Abort, disk: &mut MemDisk, file: u32, at: u64, bytes: &[u8]) {
    holds(rt, put(disk, file, at, bytes) == Ok(true), bytes);
}

/// Makes room for a sync and does it.
fn harden(rt: &impl Abort, disk: &mut MemDisk, file: u32) {
    disk.room(file, 1, 0).expect(rt, "memory");
    disk.sync(file).expect(rt, "a sync");
}

/// Makes room for a write and says whether it fails.
fn fails_to_write(rt: &impl Abort, disk: &mut MemDisk, file: u32) -> bool {
    disk.room(file, 1, 2).expect(rt, "memory");
    disk.write_at(file, 0, b"no").is_err()
}

/// Makes room for a sync and says whether it fails.
fn fails_to_sync(rt: &impl Abort, disk: &mut MemDisk, file: u32) -> bool {
    disk.room(file, 1, 0).expect(rt, "memory");
    disk.sync(file).is_err()
}

/// Whether these are the bytes that the file has, at most 16.
fn has(disk: &mut MemDisk, file: u32, bytes: &[u8]) -> Result<bool, Failed> {
    let n = disk.len(file)? as usize;
    if n > 16 {
        return Ok(false);
    }
    let mut buf = [0; 16];
    disk.read_at(file, 0, &mut buf[..n])?;
    Ok(&buf[..n] == bytes)
}

/// These are the bytes that the file has.
fn is_there(rt: &impl Abort, disk: &mut MemDisk, file: u32, bytes: &[u8]) {
    holds(rt, has(disk, file, bytes) == Ok(true), bytes);
}

/// File 7 has "pq" unsynced; file 3 has "abcd" synced, and then "XY" at 2, "Z" at 4 and "W" at 2 unsynced.
fn worked(rt: &impl Abort, alloc: Global) -> MemDisk {
    let mut disk = MemDisk::new(alloc).expect(rt, "memory");
    is_put(rt, &mut disk, 7, 0, b"pq");
    is_put(rt, &mut disk, 3, 0, b"abcd");
    harden(rt, &mut disk, 3);
    is_put(rt, &mut disk, 3, 2, b"XY");
    is_put(rt, &mut disk, 3, 4, b"Z");
    is_put(rt, &mut disk, 3, 2, b"W");
    disk
}

/// What each pick from 0 on leaves of the files 3 and 7. What stands is numbered so: 3's places 2, 3 and 4 have 0, 1 and 2, and
/// 7's places 0 and 1 have 3 and 4.
const PICKS: &[u8] = b"\
abcd|
abWYZ|pq
abc\x01Z|\x00\x01
abcd\x00|\x00\x00
abcY\x01|\x00q
abc\x01Z|\x00\x01
";

fn leaves(rt: &impl Abort, alloc: Global, pick: u64, row: &[u8]) {
    let (three, seven) = cut(row);
    let mut disk = worked(rt, alloc);
    disk.crash(pick);
    is_there(rt, &mut disk, 3, three);
    is_there(rt, &mut disk, 7, seven);
    disk.crash(0);
    let stays = has(&mut disk, 3, three) == Ok(true);
    holds(rt, stays, b"what a crash left is on the disk");
}

#[test]
fn picks_of_a_crash(rt: HostRuntime) {
    for (pick, row) in lines(&rt, rt.alloc(), PICKS).iter().enumerate() {
        leaves(&rt, rt.alloc(), pick as u64, *row);
    }
}

fn fails_after(rt: &impl Abort, alloc: Global, calls: u64) {
    let mut disk = worked(rt, alloc);
    disk.fuse(calls);
    for _ in 0..calls {
        holds(rt, disk.len(3) == Ok(5), b"five bytes");
    }
    holds(rt, disk.len(3) == Err(Failed), b"a length that fails");
    holds(rt, fails_to_write(rt, &mut disk, 3), b"a write that fails");
    holds(rt, fails_to_sync(rt, &mut disk, 7), b"a sync that fails");
    holds(rt, disk.faults() == 3, b"three faults");
    disk.crash(1);
    holds(rt, disk.faults() == 3, b"three faults still");
    is_there(rt, &mut disk, 3, b"abWYZ");
    is_there(rt, &mut disk, 7, b"pq");
}

#[test]
fn a_fuse_fails_each_call_after_it(rt: HostRuntime) {
    for calls in 0..4u64 {
        fails_after(&rt, rt.alloc(), calls);
    }
}

#[test]
fn calls_that_are_counted(rt: HostRuntime) {
    let mut disk = worked(&rt, rt.alloc());
    holds(&rt, disk.syncs(3) == 1, b"one sync");
    holds(&rt, disk.syncs(7) == 0, b"no sync");
    disk.crash(1);
    harden(&rt, &mut disk, 3);
    holds(&rt, disk.syncs(3) == 2, b"two syncs");
    holds(&rt, disk.simulated(), b"a simulated disk");
    holds(&rt, disk.len(9) == Ok(0), b"an empty file");
    let is_put = put(&mut disk, 9, 1, b"past the end");
    holds(&rt, is_put == Ok(false), b"past the end");
}
