// Worked bytes of instance files, taken up and made, and crashes of one.
ghost use Rattle.std.specs.Prelude.{◌≡◌, [], ◌∷◌, Some, IfSome, IfOk, true};
ghost use Rattle.disk_defs.specs.Gates.{records};
ghost use Rattle.journal_defs.specs.Instance as defs;
ghost use Rattle.journal_defs.specs.Numbers.{INSTANCE};
ghost use Rattle.instance_file.specs.Instance.{IsReady};

use crate::rows::{cut, holds, lines, same};
use gvn_key::Bytes;
use gvn_model::{Reign, Stamp};
use instance_file::{Instance, InstanceError};
use repl_disk::{Disk, MemDisk};
use std::alloc::Global;
use std::process::Abort;

/// CREATE of A with region R, BEFORE, behind its open gate.
const CREATE: &[u8] = b"\x01\0\0\0\x08\x01\x01\x01A\x01\x01R\x01";

/// CUT to 0 entries with generation 1, behind its open gate.
const CUT: &[u8] = b"\x01\0\0\0\x0d\x03\0\0\0\0\0\0\0\0\0\0\0\x01";

/// CUT to 0 entries with generation 2.
const LATER_CUT: &[u8] = b"\x01\0\0\0\x0d\x03\0\0\0\0\0\0\0\0\0\0\0\x02";

/// REIGN of A.1 from 1, behind its open gate.
const REIGN: &[u8] = b"\x01\0\0\0\x0f\x02\x01A\0\0\0\x01\0\0\0\0\0\0\0\x01";

/// Writes these bytes at the start of the instance file.
fn write_bytes<D: Disk>(rt: &impl Abort, disk: &mut D, bytes: &[u8]) {
    disk.room(0, 1, bytes.len() as u64).expect(rt, "memory");
    disk.write_at(0, 0, bytes).expect(rt, "a write");
}

/// The record of a letter behind its open gate: C is CREATE, V one of version 2, M one of mode 2, K CUT, L the later CUT and R REIGN.
fn record_of(letter: u8) -> &'static [u8] {
    match letter {
        b'C' => CREATE,
        b'V' => b"\x01\0\0\0\x08\x01\x02\x01A\x01\x01R\x01",
        b'M' => b"\x01\0\0\0\x08\x01\x01\x01A\x01\x01R\x02",
        b'K' => CUT,
        b'L' => LATER_CUT,
        _ => REIGN,
    }
}

/// The file of these records and a closed gate.
fn file_of(rt: &impl Abort, alloc: Global, letters: &[u8]) -> Bytes {
    let mut file = Bytes::new(alloc);
    for letter in letters {
        file.push_all(record_of(*letter)).expect(rt, "memory");
    }
    file.push(0).expect(rt, "memory");
    file
}

/// Adds how many records a site has, how many surviving reigns, and the next cycle.
fn write_site(rt: &impl Abort, site: &Instance, text: &mut Bytes) {
    let records = site.records().len() as u64;
    text.push_decimal(records).expect(rt, "memory");
    text.push(b' ').expect(rt, "memory");
    let reigns = site.history().len() as u64;
    text.push_decimal(reigns).expect(rt, "memory");
    text.push(b' ').expect(rt, "memory");
    let cycle = u64::from(site.draw_cycle().unwrap_or(0));
    text.push_decimal(cycle).expect(rt, "memory");
}

/// What the file of these records is taken up as: how many records, how many surviving reigns and the next cycle, or the place of
/// what is outside the format.
fn read(rt: &impl Abort, alloc: Global, letters: &[u8]) -> Bytes {
    let mut disk = MemDisk::new(alloc).expect(rt, "memory");
    write_bytes(rt, &mut disk, file_of(rt, alloc, letters).as_slice());
    let mut text = Bytes::new(alloc);
    match Instance::attach(alloc, &mut disk) {
        Ok(site) => write_site(rt, &site, &mut text),
        Err(InstanceError::NotARecord { offset }) => {
            text.push_all(b"at ").expect(rt, "memory");
            text.push_decimal(offset).expect(rt, "memory");
        }
        Err(_) => text.push_all(b"no answer").expect(rt, "memory"),
    }
    text
}

/// Records, and what their file is taken up as.
const FILES: &[u8] = b"\
|0 0 1
C|1 0 1
CKR|3 1 2
CRKR|4 1 2
V|at 0
M|at 0
K|at 0
CC|at 13
CKK|at 31
CRRKL|5 0 2
CRR|at 33
";

#[test]
fn files_taken_up(rt: HostRuntime) {
    for row in &lines(&rt, rt.alloc(), FILES) {
        let (letters, want) = cut(row);
        same(&rt, read(&rt, rt.alloc(), letters).as_slice(), want);
    }
}

/// MAP of the names that begin with AB to region 0, behind its open gate.
const MAP: &[u8] = b"\x01\0\0\0\x06\x04\0\x01\x02AB";

/// MODE of region 0, NOBEFORE, behind its open gate.
const MODE: &[u8] = b"\x01\0\0\0\x03\x05\0\0";

/// So many calls of a disk put five records on it.
const ALL: u64 = 24;

/// The instance file of A, new, with one region R whose blocks are kept as they were.
fn make<D: Disk>(alloc: Global, disk: &mut D) -> Result<Instance, InstanceError>
    requires { IfSome (D.disk disk.old).content (λ files. records (files INSTANCE) ≡ Some []) }
    ensures ready { IfOk result (λ made. IsReady (D.disk disk.new) made) }
    ensures records { IfOk result (λ made. made.records ≡ defs.Create (65 ∷ []) (record { name = 82 ∷ []; before = true } ∷ []) ∷ []) }
{
    let name = Bytes::of(alloc, b"A")?;
    let regions = [(Bytes::of(alloc, b"R")?, true)];
    Instance::create(alloc, disk, &name, &regions)
}

/// Makes the file and appends a REIGN, a CUT that drops it, a MAP and a MODE. So many calls succeed, and `done` counts the
/// records that were put on the disk.
fn write_records<D: Disk>(
    alloc: Global,
    disk: &mut D,
    calls: u64,
    done: &mut usize,
) -> Result<(), InstanceError>
    requires { IfSome (D.disk disk.old).content (λ files. records (files INSTANCE) ≡ Some []) }
{
    disk.fuse(calls);
    let mut site = make(alloc, disk)?;
    *done = 1;
    let stamp = Stamp {
        root: Bytes::of(alloc, b"A")?,
        cycle: 1,
    };
    site.reign(disk, &Reign { stamp, start: 1 })?;
    *done = 2;
    site.cut(disk, 0, 1)?;
    *done = 3;
    site.map(disk, 0, b"AB*")?;
    *done = 4;
    site.mode(disk, 0, false)?;
    *done = 5;
    Ok(())
}

/// Whether the instance file has the bytes of the five records and a closed gate.
fn has_all<D: Disk>(rt: &impl Abort, alloc: Global, disk: &mut D) -> bool {
    let mut file = Bytes::new(alloc);
    for piece in [CREATE, REIGN, CUT, MAP, MODE] {
        file.push_all(piece).expect(rt, "memory");
    }
    file.push(0).expect(rt, "memory");
    if disk.len(0).expect(rt, "a length") != 71 {
        return false;
    }
    let mut read = [0; 71];
    disk.read_at(0, 0, &mut read).expect(rt, "bytes");
    read.as_slice() == file.as_slice()
}

/// Records are written where so many calls succeed, and a crash takes the image of that pick. The file has the records that were put
/// on the disk, and at most one more.
fn crashes_after(rt: &impl Abort, alloc: Global, calls: u64, pick: u64) {
    let mut disk = MemDisk::new(alloc).expect(rt, "memory");
    let mut done = 0;
    let written = write_records(alloc, &mut disk, calls, &mut done).is_ok();
    holds(rt, written == (calls == ALL), b"all calls");
    disk.crash(pick);
    let is_whole = !written || has_all(rt, alloc, &mut disk);
    holds(rt, is_whole, b"all records");
    let site = Instance::attach(alloc, &mut disk).expect(rt, "a site");
    let left = site.records().len();
    assert!(rt;
        left >= done && left - done <= 1,
        "pick {pick}, calls {calls}"
    );
}

/// Whatever call fails and whatever image a crash takes.
#[test]
fn crashes_at_each_call(rt: HostRuntime) {
    for pick in 0..3u64 {
        for calls in 0..ALL + 1 {
            crashes_after(&rt, rt.alloc(), calls, pick);
        }
    }
}
