// Worked bodies, and what they tell.
use entry_index::{Sign, read_sign};
use gvn_key::Bytes;
use gvn_model::Origin;
use std::alloc::Global;
use std::process::Abort;

/// A TCOM of entry 258 in the regions 0 and 1, the job 7 of updater 64, with 3 updates in all, up to how many items it has.
const HEAD: &[u8] = b"\x05\0\0\0\0\0\0\x01\x02\x03\x40\0\0\0\x07\0\x03";

/// SET ^X(1)="a" at position 0.
const FIRST: &[u8] = b"\x04\0\0\x01\x06X\0\x03A1\0\0\x01a";

/// KILL ^A at position 1.
const SECOND: &[u8] = b"\x04\0\x01\x02\x02A\0";

/// ZKILL ^A at position 2.
const THIRD: &[u8] = b"\x04\0\x02\x03\x02A\0";

/// SET ^A to no bytes at position 2.
const OTHER: &[u8] = b"\x04\0\x02\x01\x02A\0\0\0";

/// KILL ^A at position 3, which is past the entry's last update.
const PAST: &[u8] = b"\x04\0\x03\x02\x02A\0";

/// The body of a part with so many items.
fn part(rt: &impl Abort, alloc: Global, many: u8, items: &[&[u8]]) -> Bytes {
    let mut body = Bytes::of(alloc, HEAD).expect(rt, "memory");
    body.push_all(&[0, many]).expect(rt, "memory");
    for item in items {
        body.push_all(item).expect(rt, "memory");
    }
    body
}

/// How the positions of that entry's items lie: the first one, how many there are, and whether they have no gap.
fn span_in(sign: Option<Sign>) -> Option<(u16, u16, bool)> {
    match sign {
        Some(
            Sign::Tcom {
                number: 258,
                mask: 3,
                origin: Origin {
                    updater: 64,
                    serial: 7,
                },
                count: 3,
                span,
            },
        ) => Some((span.first, span.many, span.in_a_row)),
        _ => None,
    }
}

/// A part of so many items tells this.
fn tells(
    rt: &impl Abort,
    alloc: Global,
    many: u8,
    items: &[&[u8]],
    want: Option<(u16, u16, bool)>,
) {
    let body = part(rt, alloc, many, items);
    assert_eq!(rt; span_in(read_sign(body.as_slice())), want);
}

#[test]
fn positions_with_and_without_a_gap(rt: HostRuntime) {
    let alloc = rt.alloc();
    tells(&rt, alloc, 0, &[], Some((0, 0, true)));
    tells(&rt, alloc, 1, &[THIRD], Some((2, 1, true)));
    tells(&rt, alloc, 3, &[FIRST, SECOND, OTHER], Some((0, 3, true)));
    tells(&rt, alloc, 2, &[SECOND, THIRD], Some((1, 2, true)));
    tells(&rt, alloc, 2, &[FIRST, THIRD], Some((0, 2, false)));
}

#[test]
fn parts_that_are_none(rt: HostRuntime) {
    let alloc = rt.alloc();
    tells(&rt, alloc, 2, &[THIRD, SECOND], None);
    tells(&rt, alloc, 2, &[THIRD, OTHER], None);
    tells(&rt, alloc, 1, &[PAST], None);
    tells(&rt, alloc, 2, &[FIRST], None);
    tells(&rt, alloc, 1, &[FIRST, b"\0"], None);
}

/// No record has these bytes.
fn is_none(rt: &impl Abort, body: &[u8]) {
    assert!(rt; read_sign(body).is_none(), "{body:?}");
}

/// Each kind of fixed fields, and a byte more or less.
#[test]
fn records_of_fixed_fields(rt: HostRuntime) {
    let pini: &[u8; 13] = b"\x01\x01\x01\x01\0\0\0\x03\0\0\0\x02\0";
    let sign = read_sign(&pini[..12]);
    let is_pini = matches!(
        sign,
        Some(Sign::Pini {
            region: 1,
            before: true,
            generation: 3,
            previous: 2
        })
    );
    assert!(rt; is_pini);
    is_none(&rt, pini);
    is_none(&rt, &pini[..11]);
    let epoch: &[u8; 15] = b"\x02\x01\0\0\0\0\0\0\x01\x02\0\0\0\x05\0";
    let sign = read_sign(&epoch[..14]);
    let is_epoch = matches!(
        sign,
        Some(Sign::Epoch {
            closing: true,
            number: 258,
            blocks: 5
        })
    );
    assert!(rt; is_epoch);
    is_none(&rt, epoch);
    is_none(&rt, &epoch[..13]);
}

/// A block's image has 4,096 bytes.
#[test]
fn images_of_blocks(rt: HostRuntime) {
    let mut image = [0; 4102];
    image[0] = 3;
    image[4] = 7;
    let sign = read_sign(&image[..4101]);
    assert!(rt; matches!(sign, Some(Sign::Pblk { block: 7 })));
    is_none(&rt, &image);
    is_none(&rt, &image[..4100]);
    is_none(&rt, b"");
    is_none(&rt, b"\x04");
}
