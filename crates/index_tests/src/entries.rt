// What entries do, read again from where an index says that their parts stand.
ghost use Rattle.std.specs.Prelude.{◌≡◌};

use crate::regions::written;
use entry_index::{EntryIndex, IndexError, PartPlace};
use gvn_key::terms::Update;
use gvn_model::{Origin, Transaction};
use repl_disk::{Disk, MemDisk};
use std::alloc::Global;
use std::process::Abort;

/// The index of a region with one entry, whose part stands at this place of the journal of generation 1.
fn index_at(rt: &impl Abort, alloc: Global, offset: u64) -> EntryIndex
    ensures { result.regions ≡ 1 }
{
    let mut index = EntryIndex {
        regions: 1,
        places: Vec::new(alloc),
    };
    index.reserve().expect(rt, "memory");
    let place = PartPlace {
        generation: 1,
        offset,
    };
    index.push_reserved(&[place]);
    index
}

/// The job of an entry, and the key and the value that it sets.
fn shown(entry: &Transaction) -> Option<(Origin, &[u8], &[u8])> {
    match entry.updates.as_slice() {
        [Update::Set(key, value)] => Some((entry.origin, key.as_encoded(), value.as_slice())),
        _ => None,
    }
}

/// SET ^X(1)="a", as the first job of updater 1, and nothing behind it.
#[test]
fn what_an_entry_does(rt: HostRuntime) {
    let alloc = rt.alloc();
    let mut disk = written(&rt, alloc);
    let index = index_at(&rt, alloc, 17);
    assert_eq!(rt; index.len(), 1);
    let entry = index
        .transaction(alloc, &mut disk, 1)
        .expect(&rt, "a read")
        .expect(&rt, "an entry");
    let first = Origin {
        updater: 1,
        serial: 1,
    };
    let set = (first, b"X\0\x03A1\0".as_slice(), b"a".as_slice());
    assert_eq!(rt; shown(&entry), Some(set));
    let none = index.transaction(alloc, &mut disk, 2);
    assert!(rt; none.expect(&rt, "a read").is_none());
}

/// No part of the first entry stands behind what entry 1 does: there is the closing EPOCH.
#[test]
fn no_part_at_a_place(rt: HostRuntime) {
    let alloc = rt.alloc();
    let mut disk = written(&rt, alloc);
    let told = index_at(&rt, alloc, 55).transaction(alloc, &mut disk, 1);
    let place = IndexError::NotAFile {
        file: 24,
        offset: 55,
    };
    assert_eq!(rt; told.err(), Some(place));
}

/// The disk of both journals, of which no call succeeds any more.
fn spent(rt: &impl Abort, alloc: Global) -> MemDisk {
    let mut disk = written(rt, alloc);
    disk.fuse(0);
    disk
}

#[test]
fn a_fault_while_an_entry_is_read(rt: HostRuntime) {
    let alloc = rt.alloc();
    let mut disk = spent(&rt, alloc);
    let told = index_at(&rt, alloc, 17).transaction(alloc, &mut disk, 1);
    assert_eq!(rt; told.err(), Some(IndexError::Failed));
}
