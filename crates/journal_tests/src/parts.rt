// Transactions over one region and over eight.
ghost use Rattle.std.specs.Prelude.{◌≤◌, ◌<◌, length};
ghost use Rattle.global_defs.specs.declared.limits.TheConstants.{MOST_UPDATES};
ghost use Rattle.global_defs.specs.Fields.{IsUpdate, IsTransaction};
ghost use Rattle.gvn_key.specs.Terms.{update_value};
ghost use Rattle.gvn_model.specs.Entries.{transaction_value};

use crate::rows::{holds, lines, same};
use global_dir::Directory;
use gvn_key::terms::Update;
use gvn_key::{Bytes, Key};
use gvn_model::{Origin, Transaction, Updates};
use jnl_record::JnlRecord;
use std::alloc::Global;
use std::process::Abort;
use tp_commit::{PartRecords, entry_records, split_regions};

/// A name for each region, region 0 by no pattern.
static NAMES: [&[u8]; 8] = [b"X", b"AB", b"BC", b"CD", b"DE", b"EF", b"FG", b"GH"];

/// The patterns of regions 1 to 7.
static PATTERNS: [&[u8]; 7] = [b"A*", b"B*", b"C*", b"D*", b"E*", b"F*", b"GH"];

fn update(rt: &impl Abort, alloc: Global, kind: usize, name: &[u8]) -> Update
    ensures { IsUpdate (update_value result) }
{
    let key = Key::new(alloc, name, &[]).expect(rt, "a key");
    let _code = key.as_encoded();
    match kind {
        0 => Update::Set(key, Bytes::of(alloc, b"abc").expect(rt, "memory")),
        1 => Update::Kill(key),
        _ => Update::ZKill(key),
    }
}

/// A SET, a KILL, a ZKILL and so on, of the names at these places.
fn transaction(rt: &impl Abort, alloc: Global, places: &[usize]) -> Transaction
    requires some { 1 ≤ length places.now }
    requires few { length places.now ≤ MOST_UPDATES }
    ensures { IsTransaction (transaction_value result) }
{
    let mut updates = Updates::new(alloc);
    for (i, place) in places.iter().enumerate() {
        let update = update(rt, alloc, i % 3, NAMES[*place % 8]);
        updates.push(update).expect(rt, "memory");
    }
    let origin = Origin {
        updater: 3,
        serial: 9,
    };
    Transaction { origin, updates }
}

fn eight_regions(rt: &impl Abort, alloc: Global) -> Directory {
    let mut directory = Directory::new(alloc, 8);
    for (i, pattern) in PATTERNS.iter().enumerate() {
        let mapped = directory.map(i as u8 + 1, *pattern);
        mapped.expect(rt, "a pattern");
    }
    directory
}

/// Adds a byte and a number.
fn write_number(rt: &impl Abort, text: &mut Bytes, before: u8, number: u64) {
    text.push(before).expect(rt, "memory");
    text.push_decimal(number).expect(rt, "memory");
}

/// The positions of a region's items, and what stands in its record beside them.
fn positions(rt: &impl Abort, alloc: Global, parts: &PartRecords, region: u8) -> Bytes {
    let mut text = Bytes::new(alloc);
    if let Some(
        JnlRecord::Tcom {
            number,
            mask,
            origin,
            count,
            items,
        },
    ) = parts.record(region)
    {
        text.push_decimal(*number).expect(rt, "memory");
        write_number(rt, &mut text, b' ', u64::from(*mask));
        write_number(rt, &mut text, b' ', u64::from(origin.updater));
        write_number(rt, &mut text, b' ', u64::from(*count));
        for item in items.as_slice() {
            write_number(rt, &mut text, b',', u64::from(item.position));
        }
    }
    text
}

/// Each row of a table is what a region's record has, from region 0 on.
fn all_are(rt: &impl Abort, alloc: Global, parts: &PartRecords, table: &[u8]) {
    let mut region = 0u8;
    for row in &lines(rt, alloc, table) {
        same(rt, positions(rt, alloc, parts, region).as_slice(), row);
        region = region.saturating_add(1);
    }
}

const EIGHT: &[u8] = b"\
5 255 3 12,1,6,7
5 255 3 12,5
5 255 3 12,8
5 255 3 12,2,3
5 255 3 12,9
5 255 3 12,10
5 255 3 12,11
5 255 3 12,0,4

";

#[test]
fn eight_parts(rt: HostRuntime) {
    let t = transaction(&rt, rt.alloc(), &[7, 0, 3, 3, 7, 1, 0, 0, 2, 4, 5, 6]);
    let directory = eight_regions(&rt, rt.alloc());
    let parts = entry_records(rt.alloc(), 5, &t, &directory).expect(&rt, "memory");
    holds(&rt, parts.mask() == 255, b"all regions");
    all_are(&rt, rt.alloc(), &parts, EIGHT);
}

const TWO: &[u8] = b"

1 132 3 3,1




1 132 3 3,0,2

";

#[test]
fn some_parts(rt: HostRuntime) {
    let t = transaction(&rt, rt.alloc(), &[7, 2, 7]);
    let directory = eight_regions(&rt, rt.alloc());
    let parts = entry_records(rt.alloc(), 1, &t, &directory).expect(&rt, "memory");
    holds(&rt, parts.mask() == 132, b"regions 2 and 7");
    holds(&rt, parts.record(0).is_none(), b"no record");
    all_are(&rt, rt.alloc(), &parts, TWO);
}

#[test]
fn one_part(rt: HostRuntime) {
    let t = transaction(&rt, rt.alloc(), &[7, 2, 7]);
    let directory = Directory::new(rt.alloc(), 1);
    let parts = entry_records(rt.alloc(), 1, &t, &directory).expect(&rt, "memory");
    holds(&rt, parts.mask() == 1, b"region 0");
    all_are(&rt, rt.alloc(), &parts, b"1 1 3 3,0,1,2\n\n");
}

#[test]
fn parts_by_region(rt: HostRuntime) {
    let t = transaction(&rt, rt.alloc(), &[7, 2, 7]);
    let directory = eight_regions(&rt, rt.alloc());
    let parts = split_regions(rt.alloc(), &t, &directory).expect(&rt, "memory");
    holds(&rt, parts.len() == 2, b"two parts");
    holds(&rt, !parts.is_empty(), b"some parts");
    let is_second = matches!(parts.as_slice(), [first, _] if first.region == 2);
    holds(&rt, is_second, b"region 2");
    let are_two = matches!(parts.as_slice(), [_, second] if second.items.len() == 2);
    holds(&rt, are_two, b"two items");
}
