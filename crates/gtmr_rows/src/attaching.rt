// Disks that one run gives back and another takes, and disks whose files were made by hand.
use super::ran::{FIRST_SET, cut, disks, ended, ran_on, same};
use repl_disk::{Disk, MemDisk};
use site_runner::Status;
use std::alloc::Global;
use std::fmt::Write;
use std::process::Abort;

const AGAIN: &[u8] = b"ATTACH\nSTART A PRIMARY\nEXTRACT A\n";

#[test]
fn attach_again(rt: HostRuntime) {
    let mut disks = disks(&rt, rt.alloc());
    ran_on(&rt, rt.alloc(), &mut disks, FIRST_SET);
    let (status, out) = ran_on(&rt, rt.alloc(), &mut disks, AGAIN);
    ended(&rt, status, Status::Ok);
    let want = b"A ATTACHED\nA PRIMARY 2 FROM 2\nGTMRJEX01\\A\\1\nSET\\1\\A.1\\1.1\\^X(1)=\"a\"\n";
    same(&rt, out.as_slice(), want);
}

/// What the run of that number prints: its reign, its entry, and all entries so far.
fn run_text(rt: &impl Abort, alloc: Global, number: u32) -> String {
    let text = format!(in alloc;
        "A ATTACHED\nA PRIMARY {number} FROM {number}\n1.1 SEQ {number}\nA AT {number}\nGTMRJEX01\\A\\1\n"
    );
    let mut text = text.expect(rt, "memory");
    for i in 1..=number {
        write!(text, "SET\\{i}\\A.{i}\\1.1\\^X({i})=\"{i}\"\n").expect(rt, "memory");
    }
    write!(text, "A DOWN {number}\n").expect(rt, "memory");
    text
}

fn runs_again(rt: &impl Abort, alloc: Global, disks: &mut Vec<MemDisk>, number: u32) {
    let script = format!(in alloc;
        "ATTACH\nSTART A PRIMARY\nRUN A\n1 SET ^X({number})={number}\nEND\nEXTRACT A\nSTOP A\n"
    );
    let script = script.expect(rt, "memory");
    let (status, out) = ran_on(rt, alloc, disks, script.as_bytes());
    ended(rt, status, Status::Ok);
    let expected = run_text(rt, alloc, number);
    same(rt, out.as_slice(), expected.as_bytes());
}

#[test]
fn ten_runs_in_turn(rt: HostRuntime) {
    let mut disks = disks(&rt, rt.alloc());
    ran_on(&rt, rt.alloc(), &mut disks, b"CREATE A R\n");
    for number in 1..=10u32 {
        runs_again(&rt, rt.alloc(), &mut disks, number);
    }
}

/// A row is a script, a line of two dashes, and what the script prints over these disks.
fn prints_on(rt: &impl Abort, alloc: Global, disks: &mut Vec<MemDisk>, row: &str) {
    let (script, want) = cut(rt, row);
    let (_, out) = ran_on(rt, alloc, disks, script);
    same(rt, out.as_slice(), want);
}

const TAKEN: &str = "\
CREATE B R
ATTACH
ATTACH
CREATE A R
CREATE C R
ATTACH
--
B NOTEMPTY
A ATTACHED
ATTACH EMPTY
A EXISTS
C CREATED
ATTACH EMPTY
";

const ALL_TAKEN: &str = "\
ATTACH
ATTACH
ATTACH
--
C ATTACHED
A ATTACHED
ATTACH NODISK
";

#[test]
fn what_cannot_be_attached(rt: HostRuntime) {
    let mut disks = disks(&rt, rt.alloc());
    ran_on(&rt, rt.alloc(), &mut disks, b"CREATE A R\n");
    prints_on(&rt, rt.alloc(), &mut disks, TAKEN);
    disks.truncate(2);
    disks.reverse();
    prints_on(&rt, rt.alloc(), &mut disks, ALL_TAKEN);
}

/// A disk as the only one.
fn alone(rt: &impl Abort, alloc: Global, disk: MemDisk) -> Vec<MemDisk> {
    let mut disks = Vec::new(alloc);
    disks.push(disk).expect(rt, "memory");
    disks
}

/// A disk on which the site A stands.
fn made(rt: &impl Abort, alloc: Global) -> MemDisk {
    let disk = MemDisk::new(alloc).expect(rt, "memory");
    let mut disks = alone(rt, alloc, disk);
    ran_on(rt, alloc, &mut disks, b"CREATE A R\n");
    disks.pop().expect(rt, "a disk")
}

/// Two disks on which sites of one name stand.
#[test]
fn two_disks_of_one_name(rt: HostRuntime) {
    let mut disks = alone(&rt, rt.alloc(), made(&rt, rt.alloc()));
    let second = made(&rt, rt.alloc());
    disks.push(second).expect(&rt, "memory");
    let row = "ATTACH\nATTACH\n--\nA ATTACHED\nA EXISTS\n";
    prints_on(&rt, rt.alloc(), &mut disks, row);
}

/// Writes these bytes at the start of a file, if there are any.
pub fn write_file(rt: &impl Abort, disk: &mut MemDisk, file: u32, bytes: &[u8]) {
    if !bytes.is_empty() {
        disk.room(file, 1, bytes.len() as u64).expect(rt, "memory");
        disk.write_at(file, 0, bytes).expect(rt, "a write");
    }
}

/// What a site answers to an attaching and a start, on a disk with this instance file and these journals of region 0 in the generations
/// 1 and 2. A file without bytes isn't written.
fn answers(rt: &impl Abort, alloc: Global, instance: &[u8], journals: [&[u8]; 2], want: &[u8]) {
    let mut disk = MemDisk::new(alloc).expect(rt, "memory");
    write_file(rt, &mut disk, 0, instance);
    write_file(rt, &mut disk, 24, journals[0]);
    write_file(rt, &mut disk, 32, journals[1]);
    let mut disks = alone(rt, alloc, disk);
    let (_, out) = ran_on(rt, alloc, &mut disks, b"ATTACH\nSTART A PRIMARY\n");
    same(rt, out.as_slice(), want);
}

const NO_JOURNALS: [&[u8]; 2] = [b"", b""];

/// CREATE of A with region R, and CUT(0, 65534).
const LAST_GENERATION: &[u8] =
    b"\x01\0\0\0\x08\x01\x01\x01A\x01\x01R\x01\x01\0\0\0\x0d\x03\0\0\0\0\0\0\0\0\0\0\xff\xfe\0";

/// CREATE of A with region R, and the REIGN of Z.4294967295 from 1.
const LAST_CYCLE: &[u8] =
    b"\x01\0\0\0\x08\x01\x01\x01A\x01\x01R\x01\x01\0\0\0\x0f\x02\x01Z\xff\xff\xff\xff\0\0\0\0\0\0\0\x01\0";

/// CREATE of A with region R, and CUT(0, 1).
const ONE_GENERATION: &[u8] =
    b"\x01\0\0\0\x08\x01\x01\x01A\x01\x01R\x01\x01\0\0\0\x0d\x03\0\0\0\0\0\0\0\0\0\0\0\x01\0";

#[test]
fn the_last_generation(rt: HostRuntime) {
    let want = b"A ATTACHED\nA GENLIMIT\n";
    answers(&rt, rt.alloc(), LAST_GENERATION, NO_JOURNALS, want);
}

#[test]
fn the_last_cycle(rt: HostRuntime) {
    let want = b"A ATTACHED\nA REIGNLIMIT\n";
    answers(&rt, rt.alloc(), LAST_CYCLE, NO_JOURNALS, want);
}

/// 40 bytes that begin with an open gate and a length that is out of range.
const DAMAGED: &[u8] = b"\x01\x00\x0f\xff\xff00000000000000000000000000000000000";

/// The PINI of region 1 in the journal of region 0 and generation 1.
const OTHER_REGION: &[u8] = b"\x01\0\0\0\x0c\x01\x01\x01\x01\0\0\0\x01\0\0\0\0\0";

#[test]
fn a_damaged_journal(rt: HostRuntime) {
    let want = b"A ATTACHED\nA NOTAFILE 24 0\n";
    answers(&rt, rt.alloc(), ONE_GENERATION, [DAMAGED, b""], want);
}

#[test]
fn a_journal_of_another_region(rt: HostRuntime) {
    let want = b"A ATTACHED\nA NOTAFILE 24 0\n";
    answers(&rt, rt.alloc(), ONE_GENERATION, [OTHER_REGION, b""], want);
}

#[test]
fn a_damaged_next_journal(rt: HostRuntime) {
    let journals: [&[u8]; 2] = [b"\0", b"\x01\0\0\0\x01\x09\0"];
    let want = b"A ATTACHED\nA NOTAFILE 32 0\n";
    answers(&rt, rt.alloc(), ONE_GENERATION, journals, want);
}

/// A body that is no record, a length of 0, and a CUT as the first record.
#[test]
fn damaged_instance_files(rt: HostRuntime) {
    let want = b"ATTACH NOTAFILE 0 0\nA NOSITE\n";
    answers(&rt, rt.alloc(), b"\x01\0\0\0\x01\x09\0", NO_JOURNALS, want);
    answers(&rt, rt.alloc(), b"\x01\0\0\0\0\0", NO_JOURNALS, want);
    let cut = b"\x01\0\0\0\x0d\x03\0\0\0\0\0\0\0\0\0\0\0\x01\0";
    answers(&rt, rt.alloc(), cut, NO_JOURNALS, want);
}
