//! A site of two regions, read from a disk in memory.
use repl_disk::{Disk, MemDisk};
use site_files::{FilesError, ReadEntries, ReadSite, read_site, remember_all};
use std::alloc::Global;
use std::test::Fail;

/// The CREATE of the site A with the regions R and S, the MAP of B* to S, and the CUT of generation 1.
const SITE: &[u8; 45] = b"\x01\0\0\0\x0b\x01\x01\x01A\x02\x01R\x01\x01S\0\
    \x01\0\0\0\x05\x04\x01\x01\x01B\
    \x01\0\0\0\x0d\x03\0\0\0\0\0\0\0\0\0\0\0\x01\0";

/// The same CREATE, the CUT of generation 1, and a REIGN of A from entry 1 on.
const REIGNED: &[u8; 55] = b"\x01\0\0\0\x0b\x01\x01\x01A\x02\x01R\x01\x01S\0\
    \x01\0\0\0\x0d\x03\0\0\0\0\0\0\0\0\0\0\0\x01\
    \x01\0\0\0\x0f\x02\x01A\0\0\0\x01\0\0\0\0\0\0\0\x01\0";

/// The same CREATE, and a MAP to a region that isn't there.
const ASTRAY: &[u8; 27] = b"\x01\0\0\0\x0b\x01\x01\x01A\x02\x01R\x01\x01S\0\
    \x01\0\0\0\x05\x04\x02\x01\x01B\0";

/// PINI of region 0, BEFORE, as the first record of generation 1 and its closed gate.
const FIRST: &[u8; 18] = b"\x01\0\0\0\x0c\x01\x01\0\x01\0\0\0\x01\0\0\0\0\0";

/// PINI of region 1, NOBEFORE, of generation 2, before which none began.
const SECOND: &[u8; 18] = b"\x01\0\0\0\x0c\x01\x01\x01\0\0\0\0\x02\0\0\0\0\0";

/// The first PINI, entry 1 of region 0, which is KILL ^A, and the closed gate.
const WHOLE: &[u8; 49] = b"\x01\0\0\0\x0c\x01\x01\0\x01\0\0\0\x01\0\0\0\0\
    \x01\0\0\0\x1a\x05\0\0\0\0\0\0\0\x01\x01\x01\0\0\0\x01\0\x01\0\x01\x04\0\0\x02\x02A\0\0";

/// PINI of region 1, NOBEFORE, of generation 1, and the part of entry 3 in it, which is KILL ^B, with the closed gate.
const PAST: &[u8; 49] = b"\x01\0\0\0\x0c\x01\x01\x01\0\0\0\0\x01\0\0\0\0\
    \x01\0\0\0\x1a\x05\0\0\0\0\0\0\0\x03\x02\x01\0\0\0\x01\0\x01\0\x01\x04\0\0\x02\x02B\0\0";

/// Writes these bytes at the start of a file.
fn write_bytes<D: Disk>(disk: &mut D, file: u32, bytes: &[u8]) -> Result<(), Fail> {
    disk.room(file, 1, bytes.len() as u64)?;
    disk.write_at(file, 0, bytes)?;
    Ok(())
}

/// How many of a region's records are kept.
fn count(read: &ReadSite, region: usize) -> usize {
    match read.signs.get(region) {
        Some(signs) => signs.len(),
        None => 0,
    }
}

/// A generation that began in the first region alone.
#[test]
fn two_regions(rt: HostRuntime) -> Result<(), Fail> {
    let alloc = rt.alloc();
    let mut disk = MemDisk::new(alloc)?;
    write_bytes(&mut disk, 0, SITE)?;
    write_bytes(&mut disk, 24, FIRST)?;
    let ReadEntries { read, entries } = read_site(alloc, &mut disk, u64::MAX)?;
    assert_eq!(rt; read.directory.region_of(b"BX"), 1);
    assert_eq!(rt; read.directory.region_of(b"AB"), 0);
    assert_eq!(rt; read.last_began.as_slice(), [1, 0].as_slice());
    assert_eq!(rt; count(&read, 0), 1);
    assert_eq!(rt; count(&read, 1), 0);
    let made = remember_all(alloc, &mut disk, &read, entries)?;
    assert_eq!(rt; made.entries.len(), 0);
    assert!(rt; made.broken.is_empty());
    Ok(())
}

/// An entry, and a part past it, whose text is told.
#[test]
fn a_part_past_the_length(rt: HostRuntime) -> Result<(), Fail> {
    let alloc = rt.alloc();
    let mut disk = MemDisk::new(alloc)?;
    write_bytes(&mut disk, 0, REIGNED)?;
    write_bytes(&mut disk, 24, WHOLE)?;
    write_bytes(&mut disk, 25, PAST)?;
    let ReadEntries { read, entries } = read_site(alloc, &mut disk, u64::MAX)?;
    assert_eq!(rt; count(&read, 0), 2);
    assert_eq!(rt; count(&read, 1), 2);
    assert_eq!(rt; entries.len(), 1);
    let made = remember_all(alloc, &mut disk, &read, entries)?;
    assert_eq!(rt; made.entries.len(), 1);
    let text = b"GTMRBRK01\\A\\2\nKILL\\3\\S\\1.1\\^B\n";
    assert_eq!(rt; made.broken.as_slice(), text.as_slice());
    Ok(())
}

/// A next journal that began in the second region, and a MAP of a third one.
#[test]
fn files_that_are_no_site(rt: HostRuntime) -> Result<(), Fail> {
    let alloc = rt.alloc();
    let mut disk = MemDisk::new(alloc)?;
    write_bytes(&mut disk, 0, SITE)?;
    write_bytes(&mut disk, 33, SECOND)?;
    let begun = read_site(alloc, &mut disk, u64::MAX).err();
    assert_eq!(rt;
        begun,
        Some(FilesError::NotAFile {
            file: 33,
            offset: 0
        })
    );
    let mut disk = MemDisk::new(alloc)?;
    write_bytes(&mut disk, 0, ASTRAY)?;
    let astray = read_site(alloc, &mut disk, u64::MAX).err();
    assert_eq!(rt; astray, Some(FilesError::NotAFile { file: 0, offset: 0 }));
    Ok(())
}
