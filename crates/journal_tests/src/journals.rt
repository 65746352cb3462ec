// Worked bytes of a journal, crashes of one, and generations of a region.
ghost use Rattle.std.specs.Prelude.{◌≡◌, ◌≤◌, ◌<◌, ◌^◌, [], Some, IfSome, IfOk, OnOk};
ghost use Rattle.global_defs.specs.declared.limits.TheConstants.{NUMBERS_END};
ghost use Rattle.disk_defs.specs.Gates.{records};
ghost use Rattle.jnl_file.specs.Journal.{IsReady};

use crate::rows::holds;
use jnl_file::{
    GenerationsError, Journal, JournalError, is_unbegun, journal_file, read_generations,
};
use jnl_record::JnlRecord;
use repl_disk::{Disk, MemDisk};
use std::alloc::Global;
use std::process::Abort;

/// A journal of region 0 and generation 1, BEFORE, none before it: PINI behind its gate, and the closed gate.
const FILE: [u8; 18] = [1, 0, 0, 0, 12, 1, 1, 0, 1, 0, 0, 0, 1, 0, 0, 0, 0, 0];

/// So many calls of a disk make a journal, and so many make it and append three epochs.
const MAKING: u64 = 8;

const ALL: u64 = 16;

/// The journal of region 0 and generation 1, new.
fn make<D: Disk>(alloc: Global, disk: &mut D) -> Result<Journal, JournalError>
    requires { IfSome (D.disk disk.old).content (λ files. records (files 24) ≡ Some []) }
    ensures { IfOk result (λ made. IsReady (D.disk disk.new) made) }
{
    Journal::create(alloc, disk, 0, true, 1, 0)
}

/// Appends an epoch of so many entries.
fn append_epoch<D: Disk>(
    journal: &mut Journal,
    disk: &mut D,
    number: u64,
) -> Result<(), JournalError>
    requires ready { IsReady (D.disk disk.old) journal.old }
    requires number { number < NUMBERS_END }
    ensures ready { OnOk result (IsReady (D.disk disk.new) journal.new) }
    ensures syncs { OnOk result (2 ≤ journal.new.gated.syncs_left) }
{
    let epoch = JnlRecord::Epoch {
        closing: false,
        number,
        blocks: 1,
    };
    journal.prepare(disk, &epoch)?;
    journal.append(disk)
}

/// Makes the journal and appends three epochs under one hardening. So many calls succeed.
fn write_epochs<D: Disk>(alloc: Global, disk: &mut D, calls: u64) -> Result<(), JournalError>
    requires { IfSome (D.disk disk.old).content (λ files. records (files 24) ≡ Some []) }
{
    disk.fuse(calls);
    let mut journal = make(alloc, disk)?;
    append_epoch(&mut journal, disk, 1)?;
    append_epoch(&mut journal, disk, 2)?;
    append_epoch(&mut journal, disk, 3)?;
    journal.harden(disk)
}

/// Makes the journal, appends an epoch, and takes so many of the three steps of hardening it. Answers whether it waits behind a
/// closed gate.
fn take_steps<D: Disk>(alloc: Global, disk: &mut D, steps: u64) -> Result<bool, JournalError>
    requires { IfSome (D.disk disk.old).content (λ files. records (files 24) ≡ Some []) }
{
    let mut journal = make(alloc, disk)?;
    append_epoch(&mut journal, disk, 1)?;
    if steps > 0 {
        journal.sync(disk)?;
        if steps > 1 {
            journal.open_gates(disk)?;
            if steps > 2 {
                journal.sync(disk)?;
            }
        }
    }
    Ok(journal.has_closed())
}

/// Whether the journal's file has these bytes.
fn has<D: Disk>(rt: &impl Abort, disk: &mut D, bytes: &[u8; 18]) -> bool {
    let file = journal_file(0, 1);
    if disk.len(file).expect(rt, "a length") != 18 {
        return false;
    }
    let mut buf = [0; 18];
    disk.read_at(file, 0, &mut buf).expect(rt, "bytes");
    &buf == bytes
}

/// Whether a record is PINI at place 0 of the list, and elsewhere the epoch that was appended there.
fn is_at(record: &JnlRecord, place: u64) -> bool {
    match record {
        JnlRecord::Pini { .. } => place == 0,
        JnlRecord::Epoch { number, .. } => *number == place,
        _ => false,
    }
}

/// How many records the journal has, or `None` where they aren't the first few of those that were written.
fn count<D: Disk>(rt: &impl Abort, alloc: Global, disk: &mut D) -> Option<u64> {
    let mut journal = Journal::attach(alloc, disk, 0, 1).expect(rt, "a journal");
    let mut at = 0;
    for place in 0..5 {
        let next = journal.next_record(disk, at).expect(rt, "a record");
        let Some((record, next)) = next else {
            return Some(place);
        };
        if !is_at(&record, place) {
            return None;
        }
        at = next;
    }
    None
}

#[test]
fn a_new_journal_as_it_stands(rt: HostRuntime) {
    let mut disk = MemDisk::new(rt.alloc()).expect(&rt, "memory");
    let mut journal = make(rt.alloc(), &mut disk).expect(&rt, "a journal");
    holds(&rt, has(&rt, &mut disk, &FILE), &FILE);
    let first = journal.next_record(&mut disk, 0).expect(&rt, "a record");
    let (record, next) = first.expect(&rt, "a first record");
    holds(&rt, is_at(&record, 0), b"PINI");
    holds(&rt, next == 17, b"the place behind it");
    let last = journal.next_record(&mut disk, next).expect(&rt, "the end");
    holds(&rt, last.is_none(), b"no second record");
}

/// Epochs are written where so many calls succeed, and a crash takes the image of that pick. The journal has the hardened records and
/// the first few of the rest.
fn crashes_after(rt: &impl Abort, alloc: Global, calls: u64, pick: u64) {
    let mut disk = MemDisk::new(alloc).expect(rt, "memory");
    let done = write_epochs(alloc, &mut disk, calls).is_ok();
    holds(rt, done == (calls == ALL), b"all calls");
    disk.crash(pick);
    let left = count(rt, alloc, &mut disk).expect(rt, "these records");
    holds(rt, done && left == 4 || !done && left <= 4, b"how many");
    assert!(rt; calls < MAKING || left >= 1, "pick {pick}, calls {calls}");
}

/// Whatever call fails and whatever image a crash takes.
#[test]
fn crashes_at_each_call(rt: HostRuntime) {
    for pick in 0..3u64 {
        for calls in 0..ALL + 1 {
            crashes_after(&rt, rt.alloc(), calls, pick);
        }
    }
}

/// A crash behind so many steps of hardening leaves a record out while its gate is closed, and has it once its gate is synced.
fn crashes_behind(rt: &impl Abort, alloc: Global, steps: u64, pick: u64) {
    let mut disk = MemDisk::new(alloc).expect(rt, "memory");
    let waits = take_steps(alloc, &mut disk, steps).expect(rt, "a journal");
    holds(rt, waits == (steps < 2), b"a closed gate");
    disk.crash(pick);
    let left = count(rt, alloc, &mut disk).expect(rt, "these records");
    assert!(rt;
        left == 1 && steps < 3 || left == 2 && steps >= 2,
        "pick {pick}, steps {steps}"
    );
}

#[test]
fn crashes_between_steps(rt: HostRuntime) {
    for pick in 0..3u64 {
        for steps in 0..4u64 {
            crashes_behind(&rt, rt.alloc(), steps, pick);
        }
    }
}

/// So many calls of a disk read two journals of one record each.
const READING: u64 = 14;

/// Generation 1 of region 0 as `FILE`, with an epoch of 5 entries and a block behind its PINI.
const WITH_EPOCH: [u8; 37] = [
    1, 0, 0, 0, 12, 1, 1, 0, 1, 0, 0, 0, 1, 0, 0, 0, 0, 1, 0, 0, 0, 14, 2, 0, 0, 0, 0, 0, 0, 0, 0,
    5, 0, 0, 0, 1, 0,
];

/// A journal that has its PINI alone.
fn with_pini(region: u8, generation: u8, previous: u8) -> [u8; 18] {
    let mut bytes = FILE;
    bytes[7] = region;
    bytes[12] = generation;
    bytes[16] = previous;
    bytes
}

/// Writes these bytes at the start of a file.
fn write_bytes<D: Disk>(rt: &impl Abort, disk: &mut D, file: u32, bytes: &[u8]) {
    disk.room(file, 1, bytes.len() as u64).expect(rt, "memory");
    disk.write_at(file, 0, bytes).expect(rt, "a write");
}

/// Reading two generations of region 0 stops at the beginning of that file.
fn stops_at<D: Disk>(rt: &impl Abort, alloc: Global, disk: &mut D, want: u32) {
    let stop = match read_generations(alloc, disk, 0, 2) {
        Err(GenerationsError::NotAFile { file, offset }) => Some((file, offset)),
        _ => None,
    };
    holds(rt, stop == Some((want, 0)), b"a file and its beginning");
}

#[test]
fn two_generations_as_one_list(rt: HostRuntime) {
    let mut disk = MemDisk::new(rt.alloc()).expect(&rt, "memory");
    write_bytes(&rt, &mut disk, 24, &WITH_EPOCH);
    write_bytes(&rt, &mut disk, 32, &with_pini(0, 2, 1));
    let read = read_generations(rt.alloc(), &mut disk, 0, 2).expect(&rt, "a list");
    holds(&rt, read.last_began == 2, b"the last generation");
    holds(&rt, read.records.len() == 3, b"three records");
    let second = read.records.get(1).expect(&rt, "a second record");
    holds(&rt, second.generation == 1, b"generation 1");
    let is_epoch = matches!(second.what, JnlRecord::Epoch { number: 5, .. });
    holds(&rt, is_epoch, b"an epoch of 5 entries");
    let third = read.records.get(2).expect(&rt, "a third record");
    holds(&rt, third.generation == 2, b"generation 2");
}

/// The journals of the generations 1 and 3, without 2.
fn without_second(rt: &impl Abort, alloc: Global) -> MemDisk {
    let mut disk = MemDisk::new(alloc).expect(rt, "memory");
    write_bytes(rt, &mut disk, 24, &with_pini(0, 1, 0));
    write_bytes(rt, &mut disk, 40, &with_pini(0, 3, 1));
    disk
}

#[test]
fn a_generation_without_records(rt: HostRuntime) {
    let mut disk = without_second(&rt, rt.alloc());
    let second = is_unbegun(rt.alloc(), &mut disk, 0, 2);
    holds(&rt, second.expect(&rt, "a file"), b"2 is unbegun");
    let third = is_unbegun(rt.alloc(), &mut disk, 0, 3);
    holds(&rt, !third.expect(&rt, "a file"), b"3 is begun");
    let read = read_generations(rt.alloc(), &mut disk, 0, 2).expect(&rt, "a list");
    holds(&rt, read.last_began == 1, b"generation 1");
    let read = read_generations(rt.alloc(), &mut disk, 0, 3).expect(&rt, "a list");
    holds(&rt, read.last_began == 3, b"generation 3");
    holds(&rt, read.records.len() == 2, b"two records");
}

#[test]
fn journals_that_are_none(rt: HostRuntime) {
    let mut disk = MemDisk::new(rt.alloc()).expect(&rt, "memory");
    write_bytes(&rt, &mut disk, 24, &with_pini(1, 1, 0));
    stops_at(&rt, rt.alloc(), &mut disk, 24);
    write_bytes(&rt, &mut disk, 24, &with_pini(0, 1, 0));
    write_bytes(&rt, &mut disk, 32, &with_pini(0, 2, 0));
    stops_at(&rt, rt.alloc(), &mut disk, 32);
    write_bytes(&rt, &mut disk, 32, &[1, 0, 0x0f, 0xff, 0xff]);
    stops_at(&rt, rt.alloc(), &mut disk, 32);
    let second = is_unbegun(rt.alloc(), &mut disk, 0, 2);
    holds(&rt, !second.expect(&rt, "a file"), b"2 is begun");
}

/// Reads two generations where so many calls succeed.
fn reads_after(rt: &impl Abort, alloc: Global, calls: u64) {
    let mut disk = MemDisk::new(alloc).expect(rt, "memory");
    write_bytes(rt, &mut disk, 24, &with_pini(0, 1, 0));
    write_bytes(rt, &mut disk, 32, &with_pini(0, 2, 1));
    disk.fuse(calls);
    let is_right = match read_generations(alloc, &mut disk, 0, 2) {
        Ok(_) => calls == READING,
        Err(GenerationsError::Failed) => calls < READING,
        Err(_) => false,
    };
    assert!(rt; is_right, "calls {calls}");
}

/// Where a call of the disk fails, reading fails, and gives no list in its place.
#[test]
fn reading_fails_at_each_call(rt: HostRuntime) {
    for calls in 0..READING + 1 {
        reads_after(&rt, rt.alloc(), calls);
    }
}
