// The journals of a region, looked through once, and their records read again.
ghost use Rattle.std.specs.Prelude.{◌<◌};

use entry_index::{RegionSigns, Sign, Span, index_generations, read_placed};
use gvn_key::Bytes;
use gvn_key::terms::Update;
use gvn_model::Origin;
use jnl_file::{GenerationsError, JournalError};
use jnl_record::JnlRecord;
use repl_disk::{Disk, MemDisk};
use std::alloc::Global;
use std::process::Abort;

/// The journal of region 0 in generation 1, BEFORE: its PINI at place 0; at 17 the TCOM of entry 1, which is SET ^X(1)="a" as the first job
/// of updater 1; at 55 a closing EPOCH of one entry and one block; and the closed gate at 74.
const FIRST: &[u8; 75] = b"\x01\0\0\0\x0c\x01\x01\0\x01\0\0\0\x01\0\0\0\0\
    \x01\0\0\0\x21\x05\0\0\0\0\0\0\0\x01\x01\x01\0\0\0\x01\0\x01\0\x01\
    \x04\0\0\x01\x06X\0\x03A1\0\0\x01a\
    \x01\0\0\0\x0e\x02\x01\0\0\0\0\0\0\0\x01\0\0\0\x01\0";

/// The one in generation 2 behind it, NOBEFORE: its PINI; at 17 the TCOM of entry 2, which has KILL ^A and SET ^B to no bytes at the
/// positions 0 and 2 of three, in the regions 0 and 1, as the job 258 of updater 64; and the closed gate at 57.
const SECOND: &[u8; 58] = b"\x01\0\0\0\x0c\x01\x01\0\0\0\0\0\x02\0\0\0\x01\
    \x01\0\0\0\x23\x05\0\0\0\0\0\0\0\x02\x03\x40\0\0\x01\x02\0\x03\0\x02\
    \x04\0\0\x02\x02A\0\x04\0\x02\x01\x02B\0\0\0\0";

/// So many calls of a disk look the two through: of each a sync, its length, and its bytes.
const CALLS: u64 = 6;

/// Writes these bytes at the start of a file.
fn write_bytes<D: Disk>(rt: &impl Abort, disk: &mut D, file: u32, bytes: &[u8]) {
    disk.room(file, 1, bytes.len() as u64).expect(rt, "memory");
    disk.write_at(file, 0, bytes).expect(rt, "a write");
}

/// Both journals.
pub(crate) fn written(rt: &impl Abort, alloc: Global) -> MemDisk {
    let mut disk = MemDisk::new(alloc).expect(rt, "memory");
    write_bytes(rt, &mut disk, 24, FIRST);
    write_bytes(rt, &mut disk, 32, SECOND);
    disk
}

/// The sign at this place of the list, whose record stands at that place of the journal of that generation.
fn sign_at(rt: &impl Abort, told: &RegionSigns, i: usize, generation: u32, offset: u64) -> Sign {
    let placed = told.signs.get(i).expect(rt, "a sign");
    assert_eq!(rt; (placed.generation, placed.offset), (generation, offset));
    placed.sign
}

/// Whether it is an EPOCH of one entry and one block, closing.
fn is_epoch(sign: &Sign) -> bool {
    matches!(
        sign,
        Sign::Epoch {
            closing: true,
            number: 1,
            blocks: 1
        }
    )
}

/// Whether it is the PINI of region 0 in this generation behind that one, with this mode.
fn is_start(sign: &Sign, mode: bool, drawn: u32, earlier: u32) -> bool {
    match sign {
        Sign::Pini {
            region: 0,
            before,
            generation,
            previous,
        } => *before == mode && *generation == drawn && *previous == earlier,
        _ => false,
    }
}

/// Whether it is what entry 1 does.
fn is_first(sign: &Sign) -> bool {
    matches!(
        sign,
        Sign::Tcom {
            number: 1,
            mask: 1,
            origin: Origin {
                updater: 1,
                serial: 1
            },
            count: 1,
            span: Span {
                first: 0,
                many: 1,
                in_a_row: true
            }
        }
    )
}

/// Whether it is what entry 2 does.
fn is_second(sign: &Sign) -> bool {
    matches!(
        sign,
        Sign::Tcom {
            number: 2,
            mask: 3,
            origin: Origin {
                updater: 64,
                serial: 258
            },
            count: 3,
            span: Span {
                first: 0,
                many: 2,
                in_a_row: false
            }
        }
    )
}

#[test]
fn one_journal(rt: HostRuntime) {
    let alloc = rt.alloc();
    let mut disk = MemDisk::new(alloc).expect(&rt, "memory");
    write_bytes(&rt, &mut disk, 24, FIRST);
    let told = index_generations(alloc, &mut disk, 0, 1).expect(&rt, "a list");
    assert_eq!(rt; (told.signs.len(), told.last_began), (3, 1));
    assert!(rt; is_start(&sign_at(&rt, &told, 0, 1, 0), true, 1, 0));
    assert!(rt; is_first(&sign_at(&rt, &told, 1, 1, 17)));
    assert!(rt; is_epoch(&sign_at(&rt, &told, 2, 1, 55)));
}

/// A third generation that hasn't begun changes nothing.
#[test]
fn two_generations(rt: HostRuntime) {
    let alloc = rt.alloc();
    let mut disk = written(&rt, alloc);
    let told = index_generations(alloc, &mut disk, 0, 3).expect(&rt, "a list");
    assert_eq!(rt; (told.signs.len(), told.last_began), (5, 2));
    assert!(rt; is_epoch(&sign_at(&rt, &told, 2, 1, 55)));
    assert!(rt; is_start(&sign_at(&rt, &told, 3, 2, 0), false, 2, 1));
    assert!(rt; is_second(&sign_at(&rt, &told, 4, 2, 17)));
}

/// The record at a place of a file.
fn read(rt: &impl Abort, alloc: Global, disk: &mut MemDisk, file: u32, at: u64) -> JnlRecord {
    read_placed(alloc, disk, file, at).expect(rt, "a record")
}

/// The position of an item, and the name and the kind of its update.
fn shown(record: &JnlRecord, i: usize) -> Option<(u16, &[u8], u8)> {
    let JnlRecord::Tcom { items, .. } = record else {
        return None;
    };
    let item = items.as_slice().get(i)?;
    match &item.update {
        Update::Set(key, _) => Some((item.position, key.name(), 1)),
        Update::Kill(key) => Some((item.position, key.name(), 2)),
        Update::ZKill(key) => Some((item.position, key.name(), 3)),
    }
}

#[test]
fn records_read_again(rt: HostRuntime) {
    let alloc = rt.alloc();
    let mut disk = written(&rt, alloc);
    let pini = read(&rt, alloc, &mut disk, 32, 0);
    let is_pini = matches!(
        pini,
        JnlRecord::Pini {
            version: 1,
            region: 0,
            before: false,
            generation: 2,
            previous: 1
        }
    );
    assert!(rt; is_pini);
    let epoch = read(&rt, alloc, &mut disk, 24, 55);
    let is_epoch = matches!(
        epoch,
        JnlRecord::Epoch {
            closing: true,
            number: 1,
            blocks: 1
        }
    );
    assert!(rt; is_epoch);
    let first = read(&rt, alloc, &mut disk, 24, 17);
    assert_eq!(rt; shown(&first, 0), Some((0, b"X".as_slice(), 1)));
    assert_eq!(rt; shown(&first, 1), None);
    let second = read(&rt, alloc, &mut disk, 32, 17);
    assert_eq!(rt; shown(&second, 0), Some((0, b"A".as_slice(), 2)));
    assert_eq!(rt; shown(&second, 1), Some((2, b"B".as_slice(), 1)));
}

/// No record stands at a place of the first journal.
fn is_no_place(rt: &impl Abort, alloc: Global, disk: &mut MemDisk, at: u64) {
    let told = match read_placed(alloc, disk, 24, at) {
        Err(JournalError::NotARecord { offset }) => Some(offset),
        _ => None,
    };
    assert_eq!(rt; told, Some(at));
}

#[test]
fn places_without_records(rt: HostRuntime) {
    let alloc = rt.alloc();
    let mut disk = written(&rt, alloc);
    for at in [1, 16, 18, 54, 74, 75, u64::MAX] {
        is_no_place(&rt, alloc, &mut disk, at);
    }
}

/// A record behind a closed gate isn't told, and is read by its place.
#[test]
fn a_closed_gate(rt: HostRuntime) {
    let alloc = rt.alloc();
    let mut disk = MemDisk::new(alloc).expect(&rt, "memory");
    let mut bytes = *FIRST;
    bytes[55] = 0;
    write_bytes(&rt, &mut disk, 24, &bytes);
    let told = index_generations(alloc, &mut disk, 0, 1).expect(&rt, "a list");
    assert_eq!(rt; (told.signs.len(), told.last_began), (2, 1));
    let behind = read(&rt, alloc, &mut disk, 24, 55);
    assert!(rt; matches!(behind, JnlRecord::Epoch { number: 1, .. }));
}

/// Looking two generations through stops at this place of that file.
fn stops_at(rt: &impl Abort, alloc: Global, disk: &mut MemDisk, file: u32, offset: u64) {
    let stop = match index_generations(alloc, disk, 0, 2) {
        Err(GenerationsError::NotAFile { file, offset }) => Some((file, offset)),
        _ => None,
    };
    assert_eq!(rt; stop, Some((file, offset)));
}

/// Another byte at a place of the second journal makes it none from its first record on.
fn is_no_second(rt: &impl Abort, alloc: Global, at: usize, byte: u8)
    requires { at < 58 }
{
    let mut disk = written(rt, alloc);
    let mut bytes = *SECOND;
    bytes[at] = byte;
    write_bytes(rt, &mut disk, 32, &bytes);
    stops_at(rt, alloc, &mut disk, 32, 0);
}

/// Another region, another generation, and no generation before; a body with a byte behind it; and a body that the file ends in.
#[test]
fn journals_that_are_none(rt: HostRuntime) {
    let alloc = rt.alloc();
    is_no_second(&rt, alloc, 7, 1);
    is_no_second(&rt, alloc, 12, 3);
    is_no_second(&rt, alloc, 16, 0);
    let mut disk = written(&rt, alloc);
    let mut bytes = *FIRST;
    bytes[21] = 0x22;
    write_bytes(&rt, &mut disk, 24, &bytes);
    stops_at(&rt, alloc, &mut disk, 24, 17);
    let mut bytes = *FIRST;
    bytes[59] = 0x0f;
    write_bytes(&rt, &mut disk, 24, &bytes);
    stops_at(&rt, alloc, &mut disk, 24, 55);
}

/// A journal with a PINI, 17 images of blocks, and what entry 1 does. The 16th image stands on both sides of byte 65,536.
fn long_journal(rt: &impl Abort, alloc: Global) -> Bytes {
    let first = FIRST.as_slice();
    let mut bytes = Bytes::of(alloc, &first[..17]).expect(rt, "memory");
    for block in 0..17u8 {
        let head = [1, 0, 0, 0x10, 5, 3, 0, 0, 0, block];
        bytes.push_all(&head).expect(rt, "memory");
        let image = [block; 4096];
        bytes.push_all(&image).expect(rt, "memory");
    }
    bytes.push_all(&first[17..55]).expect(rt, "memory");
    bytes.push(0).expect(rt, "memory");
    bytes
}

#[test]
fn a_journal_of_many_pieces(rt: HostRuntime) {
    let alloc = rt.alloc();
    let mut disk = MemDisk::new(alloc).expect(&rt, "memory");
    let bytes = long_journal(&rt, alloc);
    assert_eq!(rt; bytes.len(), 69858);
    write_bytes(&rt, &mut disk, 24, bytes.as_slice());
    let told = index_generations(alloc, &mut disk, 0, 1).expect(&rt, "a list");
    assert_eq!(rt; told.signs.len(), 19);
    for i in 0..17u32 {
        let place = 17 + 4106 * u64::from(i);
        let sign = sign_at(&rt, &told, 1 + i as usize, 1, place);
        assert!(rt; matches!(sign, Sign::Pblk { block } if block == i), "{i}");
    }
    assert!(rt; is_first(&sign_at(&rt, &told, 18, 1, 69819)));
    let image = match read(&rt, alloc, &mut disk, 24, 61607) {
        JnlRecord::Pblk { block: 15, image } => Some(image),
        _ => None,
    };
    let image = image.expect(&rt, "the image of block 15");
    assert_eq!(rt; image.as_slice(), [15; 4096].as_slice());
}

/// Looks both journals through where so many calls succeed.
fn looks_after(rt: &impl Abort, alloc: Global, calls: u64) {
    let mut disk = written(rt, alloc);
    disk.fuse(calls);
    let is_right = match index_generations(alloc, &mut disk, 0, 2) {
        Ok(_) => calls == CALLS,
        Err(GenerationsError::Failed) => calls < CALLS,
        Err(_) => false,
    };
    assert!(rt; is_right, "calls {calls}");
}

/// Where a call of the disk fails no list is given in its place.
#[test]
fn a_fault_at_each_call(rt: HostRuntime) {
    for calls in 0..CALLS + 1 {
        looks_after(&rt, rt.alloc(), calls);
    }
}
