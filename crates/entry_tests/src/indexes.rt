//! Indexes of few entries, written out.
use crate::sites::from_the_first;
use entry_index::{EntryIndex, IndexError, PartPlace, PlacedSign, Sign, Span};
use gvn_model::Origin;
use mupip_recover::starts_of;
use repl_disk::MemDisk;
use std::alloc::Global;
use std::process::Abort;

/// The sign of a part of the entry of a number, in generation 1, with so many updates in a row.
fn sign(number: u64, mask: u8, count: u16, first: u16, many: u16, offset: u64) -> PlacedSign {
    PlacedSign {
        generation: 1,
        offset,
        sign: Sign::Tcom {
            number,
            mask,
            origin: Origin {
                updater: 1,
                serial: 1,
            },
            count,
            span: Span {
                first,
                many,
                in_a_row: true,
            },
        },
    }
}

/// The signs of a region.
fn list(rt: &impl Abort, alloc: Global, signs: &[PlacedSign]) -> Vec<PlacedSign> {
    let mut made = Vec::new(alloc);
    made.extend_from_slice(signs).expect(rt, "memory");
    made
}

#[test]
fn rows_come_and_go(rt: HostRuntime) {
    let alloc = rt.alloc();
    let mut index = EntryIndex {
        regions: 2,
        places: Vec::new(alloc),
    };
    let here = PartPlace {
        generation: 1,
        offset: 17,
    };
    let nowhere = PartPlace {
        generation: 0,
        offset: 0,
    };
    index.push(&[here, nowhere]).expect(&rt, "memory");
    index.push(&[nowhere, here]).expect(&rt, "memory");
    assert_eq!(rt; index.len(), 2);
    index.truncate(3);
    assert_eq!(rt; index.len(), 2);
    index.truncate(1);
    assert_eq!(rt; index.len(), 1);
    assert_eq!(rt; index.places[0].offset, 17);
}

#[test]
fn an_index_by_signs_alone(rt: HostRuntime) {
    let alloc = rt.alloc();
    let mut disk = MemDisk::new(alloc).expect(&rt, "memory");
    let (instance, history) = from_the_first(&rt, alloc);
    let first = [
        sign(1, 1, 2, 0, 2, 0),
        sign(2, 3, 3, 0, 1, 100),
        sign(3, 3, 3, 0, 1, 200),
    ];
    let second = [sign(2, 3, 3, 1, 2, 50)];
    let signs = [list(&rt, alloc, &first), list(&rt, alloc, &second)];
    let built = EntryIndex::build(alloc, &mut disk, &instance, &history, &signs);
    let index = built.expect(&rt, "an index");
    assert_eq!(rt; index.len(), 2);
    assert_eq!(rt; index.places[0].offset, 0);
    assert_eq!(rt; index.places[1].generation, 0);
    assert_eq!(rt; index.places[2].offset, 100);
    assert_eq!(rt; index.places[3].offset, 50);
}

#[test]
fn places_where_nothing_stands(rt: HostRuntime) {
    let alloc = rt.alloc();
    let mut disk = MemDisk::new(alloc).expect(&rt, "memory");
    let (instance, history) = from_the_first(&rt, alloc);
    let starts = starts_of(alloc, history.as_slice()).expect(&rt, "memory");
    let signs = [list(&rt, alloc, &[sign(1, 1, 2, 0, 2, 40)])];
    let built = EntryIndex::build(alloc, &mut disk, &instance, &history, &signs);
    let index = built.expect(&rt, "an index");
    let read = index.read(alloc, &mut disk, &history, &starts, 1);
    let want = IndexError::NotAFile {
        file: 24,
        offset: 40,
    };
    assert!(rt; matches!(read, Err(error) if error == want));
    let signs = [list(&rt, alloc, &[sign(1, 1, 2, 1, 2, 40)])];
    let built = EntryIndex::build(alloc, &mut disk, &instance, &history, &signs);
    assert!(rt; matches!(built, Err(error) if error == want));
}
