// Worked bytes of gated files, and crashes of them.
ghost use Rattle.std.specs.Prelude.{◌≡◌, [], Some, IfSome};
ghost use Rattle.disk_defs.specs.Gates.{records};

use crate::rows::{holds, same};
use gated_file::{GateError, Gated};
use gvn_key::Bytes;
use repl_disk::{Disk, Failed, MemDisk};
use std::alloc::Global;
use std::process::Abort;

/// CREATE of a site A with a region R, whose mode is BEFORE.
const CREATE: [u8; 8] = [1, 1, 1, 0x41, 1, 1, 0x52, 1];

/// That record as the only one of a file.
const FILE: [u8; 14] = [1, 0, 0, 0, 8, 1, 1, 1, 0x41, 1, 1, 0x52, 1, 0];

/// Writes these bytes at the start of file 0.
fn write_bytes<D: Disk>(rt: &impl Abort, disk: &mut D, bytes: &[u8]) {
    disk.room(0, 1, bytes.len() as u64).expect(rt, "memory");
    disk.write_at(0, 0, bytes).expect(rt, "a write");
}

/// Whether file 0 has these bytes, at most 16.
fn has<D: Disk>(disk: &mut D, bytes: &[u8]) -> Result<bool, Failed> {
    let n = disk.len(0)? as usize;
    if n > 16 {
        return Ok(false);
    }
    let mut buf = [0; 16];
    disk.read_at(0, 0, &mut buf[..n])?;
    Ok(&buf[..n] == bytes)
}

/// Begins a file and appends one body.
fn write_one<D: Disk>(alloc: Global, disk: &mut D, body: &[u8; 8]) -> Result<Gated, GateError>
    requires { IfSome (D.disk disk.old).content (λ files. records (files 0) ≡ Some []) }
{
    let mut file = Gated::fresh(alloc, disk, 0)?;
    file.reserve(disk, 1, 8)?;
    file.append_body(disk, body)?;
    file.sync(disk)?;
    file.open_gates(disk)?;
    file.sync(disk)?;
    Ok(file)
}

/// Begins a file and appends two bodies before one sync, with their gates opened before the next. So many calls succeed.
fn write_two<D: Disk>(alloc: Global, disk: &mut D, calls: u64) -> Result<(), GateError>
    requires { IfSome (D.disk disk.old).content (λ files. records (files 0) ≡ Some []) }
{
    disk.fuse(calls);
    let mut file = Gated::fresh(alloc, disk, 0)?;
    file.reserve(disk, 2, 5)?;
    file.append_body(disk, b"ab")?;
    file.append_body(disk, b"cde")?;
    file.sync(disk)?;
    file.open_gates(disk)?;
    file.sync(disk)
}

/// The bodies that file 0 has, one behind another.
fn bodies<D: Disk>(rt: &impl Abort, alloc: Global, disk: &mut D) -> Bytes {
    let mut file = Gated::attach(alloc, disk, 0).expect(rt, "a file");
    let mut out = Bytes::new(alloc);
    let mut at = 0;
    for _ in 0..3 {
        let next = file.next_record(disk, at, &mut out);
        let Some(next) = next.expect(rt, "a record") else {
            break;
        };
        at = next;
    }
    out
}

#[test]
fn a_record_as_it_stands(rt: HostRuntime) {
    let mut disk = MemDisk::new(rt.alloc()).expect(&rt, "memory");
    let mut file = write_one(rt.alloc(), &mut disk, &CREATE).expect(&rt, "a file");
    holds(&rt, has(&mut disk, &FILE) == Ok(true), &FILE);
    let mut out = Bytes::of(rt.alloc(), b"-").expect(&rt, "memory");
    let next = file.next_record(&mut disk, 0, &mut out);
    holds(&rt, next == Ok(Some(13)), b"the first record");
    same(&rt, out.as_slice(), b"-\x01\x01\x01A\x01\x01R\x01");
    let next = file.next_record(&mut disk, 13, &mut out);
    holds(&rt, next == Ok(None), b"the end");
}

/// A file of these bytes is outside the format at its beginning.
fn is_outside(rt: &impl Abort, alloc: Global, bytes: &[u8]) {
    let mut disk = MemDisk::new(alloc).expect(rt, "memory");
    write_bytes(rt, &mut disk, bytes);
    let attached = Gated::attach(alloc, &mut disk, 0);
    let is_outside = matches!(attached, Err(GateError::NotARecord { offset: 0 }));
    holds(rt, is_outside, bytes);
}

#[test]
fn files_cut_off(rt: HostRuntime) {
    is_outside(&rt, rt.alloc(), &FILE[..13]);
    is_outside(&rt, rt.alloc(), &FILE[..5]);
}

#[test]
fn lengths_outside_the_format(rt: HostRuntime) {
    is_outside(&rt, rt.alloc(), &[1, 0, 0, 0, 0, 0, 0]);
    is_outside(&rt, rt.alloc(), &[1, 0, 0x10, 0, 1, 0, 0]);
}

/// Two bodies are written where so many calls succeed, and a crash takes the image of that pick. The file has the first few bodies.
fn crashes_after(rt: &impl Abort, alloc: Global, calls: u64, pick: u64) {
    let mut disk = MemDisk::new(alloc).expect(rt, "memory");
    let done = write_two(alloc, &mut disk, calls).is_ok();
    holds(rt, disk.faults() == !done as u64, b"a fault, or none");
    disk.crash(pick);
    let left = bodies(rt, alloc, &mut disk);
    let text = left.as_slice();
    let is_first_few = text.is_empty() || text == b"ab".as_slice();
    assert!(rt;
        text == b"abcde".as_slice() || !done && is_first_few,
        "pick {pick}, calls {calls}"
    );
}

/// Whatever call fails and whatever image a crash takes.
#[test]
fn crashes_at_each_call(rt: HostRuntime) {
    for pick in 0..6u64 {
        for calls in 0..12u64 {
            crashes_after(&rt, rt.alloc(), calls, pick);
        }
    }
}
