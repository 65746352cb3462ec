// Sequences of small sites.
ghost use Rattle.std.specs.Prelude.{◌≡◌};
ghost use Rattle.journal_defs.specs.Surviving as surviving;
ghost use Rattle.gvn_model.specs.Reigns.{reign_value};

use crate::rows::{holds, same};
use gvn_key::terms::Update;
use gvn_key::{Bytes, Key};
use gvn_model::{Entry, Item, Items, NamedModes, Origin, Reign, Reigns, Stamp};
use instance_file::{InstanceRecord, InstanceRecords};
use jnl_record::{JnlRecord, PlacedRecord};
use mupip_recover::{EpochAt, chosen_epoch, first_without, recover, survives, write_broken};
use std::alloc::Global;
use std::process::Abort;

/// A reign of a site.
fn reign(rt: &impl Abort, alloc: Global, root: &[u8], cycle: u32, start: u64) -> Reign
    ensures { reign_value result ≡ record { stamp = record { root = root.now; cycle = cycle }; start = start } }
{
    let root = Bytes::of(alloc, root).expect(rt, "memory");
    Reign {
        stamp: Stamp { root, cycle },
        start,
    }
}

/// A site where A reigned and then B from entry 2 on, which a cut to one entry dropped, and A again.
fn site(rt: &impl Abort, alloc: Global) -> (InstanceRecords, Reigns)
    ensures { result.1 ≡ surviving.reigns result.0 }
{
    let mut instance = InstanceRecords::new(alloc);
    let first = InstanceRecord::Reign(reign(rt, alloc, b"A", 1, 1));
    instance.push(first).expect(rt, "memory");
    let dropped = InstanceRecord::Reign(reign(rt, alloc, b"B", 1, 2));
    instance.push(dropped).expect(rt, "memory");
    let cut = InstanceRecord::Cut {
        length: 1,
        generation: 2,
    };
    instance.push(cut).expect(rt, "memory");
    let last = InstanceRecord::Reign(reign(rt, alloc, b"A", 2, 2));
    instance.push(last).expect(rt, "memory");
    let mut history = Reigns::new(alloc);
    let first = reign(rt, alloc, b"A", 1, 1);
    history.push(first).expect(rt, "memory");
    let last = reign(rt, alloc, b"A", 2, 2);
    history.push(last).expect(rt, "memory");
    (instance, history)
}

/// A part of entry `number` with one update.
fn part_with(
    rt: &impl Abort,
    alloc: Global,
    generation: u32,
    number: u64,
    mask: u8,
    item: Item,
) -> PlacedRecord {
    let mut items = Items::new(alloc);
    items.push(item).expect(rt, "memory");
    let origin = Origin {
        updater: 1,
        serial: 1,
    };
    let what = JnlRecord::Tcom {
        number,
        mask,
        origin,
        count: if mask == 3 { 2 } else { 1 },
        items,
    };
    PlacedRecord { generation, what }
}

/// A part of entry `number` in region 0 or 1, or in both by the mask: the KILL of a name at a position.
fn part(
    rt: &impl Abort,
    alloc: Global,
    generation: u32,
    number: u64,
    mask: u8,
    position: u16,
    name: &[u8],
) -> PlacedRecord {
    let key = Key::new(alloc, name, &[]).expect(rt, "a key");
    let update = Update::Kill(key);
    let item = Item { position, update };
    part_with(rt, alloc, generation, number, mask, item)
}

/// Adds a line for an entry: its number, its reign and the names that it kills.
fn tell(rt: &impl Abort, entry: &Entry, text: &mut Bytes) {
    text.push_decimal(entry.number).expect(rt, "memory");
    text.push(b' ').expect(rt, "memory");
    let root = entry.stamp.root.as_slice();
    text.push_all(root).expect(rt, "memory");
    let cycle = u64::from(entry.stamp.cycle);
    text.push_decimal(cycle).expect(rt, "memory");
    for update in entry.transaction.updates.as_slice() {
        if let Update::Kill(key) = update {
            text.push(b' ').expect(rt, "memory");
            text.push_all(key.name()).expect(rt, "memory");
        }
    }
    text.push(b'\n').expect(rt, "memory");
}

/// What a site stands for with these journals of its regions, a line for each entry.
fn stands_for(rt: &impl Abort, alloc: Global, journals: &[Vec<PlacedRecord>], want: &[u8]) {
    let (instance, history) = site(rt, alloc);
    let entries = recover(alloc, &instance, &history, journals).expect(rt, "memory");
    let mut text = Bytes::new(alloc);
    for entry in entries.as_slice() {
        tell(rt, entry, &mut text);
    }
    same(rt, text.as_slice(), want);
}

#[test]
fn the_last_part_that_no_cut_drops_counts(rt: HostRuntime) {
    let alloc = rt.alloc();
    let journal = vec![in alloc;
        part(&rt, alloc, 1, 1, 1, 0, b"V"),
        part(&rt, alloc, 1, 1, 1, 0, b"W"),
        part(&rt, alloc, 1, 2, 1, 0, b"X"),
        part(&rt, alloc, 2, 2, 1, 0, b"Y"),
        part(&rt, alloc, 1, 2, 1, 0, b"Z"),
    ];
    let journals = [journal.expect(&rt, "memory")];
    stands_for(&rt, alloc, &journals, b"1 A1 W\n2 A2 Y\n");
}

#[test]
fn half_a_transaction_ends_the_sequence(rt: HostRuntime) {
    let alloc = rt.alloc();
    let first = vec![in alloc;
        part(&rt, alloc, 1, 1, 3, 1, b"Y"),
        part(&rt, alloc, 2, 2, 3, 0, b"Z"),
    ];
    let second = vec![in alloc; part(&rt, alloc, 1, 1, 3, 0, b"X")];
    let journals = [first.expect(&rt, "memory"), second.expect(&rt, "memory")];
    stands_for(&rt, alloc, &journals, b"1 A1 X Y\n");
}

#[test]
fn a_gap_ends_the_sequence(rt: HostRuntime) {
    let alloc = rt.alloc();
    let journal = vec![in alloc;
        part(&rt, alloc, 1, 1, 1, 0, b"X"),
        part(&rt, alloc, 2, 3, 1, 0, b"Y"),
    ];
    let journals = [journal.expect(&rt, "memory")];
    stands_for(&rt, alloc, &journals, b"1 A1 X\n");
}

#[test]
fn a_cut_leaves_its_length_and_later_generations(rt: HostRuntime) {
    let (instance, _history) = site(&rt, rt.alloc());
    holds(&rt, survives(&instance, 1, 1), b"1 1");
    holds(&rt, !survives(&instance, 1, 2), b"1 2");
    holds(&rt, survives(&instance, 2, 2), b"2 2");
}

/// Site A with the regions ACCT and HIST, where it reigns from entry 1 on.
fn bank(rt: &impl Abort, alloc: Global) -> (InstanceRecords, Reigns)
    ensures { result.1 ≡ surviving.reigns result.0 }
{
    let mut regions = NamedModes::new(alloc);
    let account = Bytes::of(alloc, b"ACCT").expect(rt, "memory");
    regions.push((account, true)).expect(rt, "memory");
    let history = Bytes::of(alloc, b"HIST").expect(rt, "memory");
    regions.push((history, false)).expect(rt, "memory");
    let name = Bytes::of(alloc, b"A").expect(rt, "memory");
    let mut instance = InstanceRecords::new(alloc);
    let create = InstanceRecord::Create { name, regions };
    instance.push(create).expect(rt, "memory");
    let first = InstanceRecord::Reign(reign(rt, alloc, b"A", 1, 1));
    instance.push(first).expect(rt, "memory");
    let mut history = Reigns::new(alloc);
    let first = reign(rt, alloc, b"A", 1, 1);
    history.push(first).expect(rt, "memory");
    (instance, history)
}

/// The SET of `^ACCT(1)` to "5" as the first of entry 1's two updates.
fn deposit(rt: &impl Abort, alloc: Global) -> PlacedRecord {
    let key = Key::parse(alloc, b"^ACCT(1)").expect(rt, "a key");
    let value = Bytes::of(alloc, b"5").expect(rt, "memory");
    let item = Item {
        position: 0,
        update: Update::Set(key, value),
    };
    part_with(rt, alloc, 1, 1, 3, item)
}

/// Past the length of the bank with these journals of its regions stands what this text tells.
fn breaks(rt: &impl Abort, alloc: Global, journals: &[Vec<PlacedRecord>], want: &[u8]) {
    let (instance, history) = bank(rt, alloc);
    let entries = recover(alloc, &instance, &history, journals).expect(rt, "memory");
    let length = entries.len() as u64;
    let mut text = Bytes::new(alloc);
    write_broken(alloc, &instance, journals, length, &mut text).expect(rt, "memory");
    same(rt, text.as_slice(), want);
}

#[test]
fn half_a_transaction_is_told(rt: HostRuntime) {
    let alloc = rt.alloc();
    let accounts = vec![in alloc; deposit(&rt, alloc)];
    let journals = [accounts.expect(&rt, "memory"), Vec::new(alloc)];
    let want = b"GTMRBRK01\\A\\1\nSET\\1\\ACCT\\1.1\\^ACCT(1)=\"5\"\n";
    breaks(&rt, alloc, &journals, want);
}

#[test]
fn whole_transactions_are_not_told(rt: HostRuntime) {
    let alloc = rt.alloc();
    let accounts = vec![in alloc; deposit(&rt, alloc)];
    let history = vec![in alloc; part(&rt, alloc, 1, 1, 3, 1, b"HIST")];
    let journals = [
        accounts.expect(&rt, "memory"),
        history.expect(&rt, "memory"),
    ];
    breaks(&rt, alloc, &journals, b"");
}

#[test]
fn a_whole_transaction_behind_a_broken_one_is_told(rt: HostRuntime) {
    let alloc = rt.alloc();
    let accounts = vec![in alloc; deposit(&rt, alloc), part(&rt, alloc, 1, 2, 3, 0, b"ACCT")];
    let history = vec![in alloc; part(&rt, alloc, 1, 2, 3, 1, b"HIST")];
    let journals = [
        accounts.expect(&rt, "memory"),
        history.expect(&rt, "memory"),
    ];
    let want =
        b"GTMRBRK01\\A\\1\nSET\\1\\ACCT\\1.1\\^ACCT(1)=\"5\"\nKILL\\2\\ACCT\\1.1\\^ACCT\nKILL\\2\\HIST\\1.1\\^HIST\n";
    breaks(&rt, alloc, &journals, want);
}

/// An epoch of a generation.
fn epoch(generation: u32, number: u64, blocks: u32) -> PlacedRecord {
    let what = JnlRecord::Epoch {
        closing: false,
        number,
        blocks,
    };
    PlacedRecord { generation, what }
}

/// Whether the epoch that is chosen has this number and these blocks, and so many records before those behind it.
fn chooses(epoch: EpochAt, number: u64, blocks: u32, after: usize) -> bool {
    epoch.number == number && epoch.blocks == blocks && epoch.after == after
}

#[test]
fn the_last_epoch_that_no_cut_drops_is_chosen(rt: HostRuntime) {
    let alloc = rt.alloc();
    let (instance, _) = site(&rt, alloc);
    let mut journal = Vec::new(alloc);
    journal.push(epoch(1, 0, 1)).expect(&rt, "memory");
    journal.push(epoch(1, 1, 2)).expect(&rt, "memory");
    // The CUT to one entry drops it.
    journal.push(epoch(1, 3, 7)).expect(&rt, "memory");
    journal.push(epoch(2, 4, 9)).expect(&rt, "memory");
    journal
        .push(part(&rt, alloc, 2, 5, 1, 0, b"X"))
        .expect(&rt, "memory");
    let from = |target: u64| chosen_epoch(&instance, target, &journal);
    assert!(&rt; chooses(from(9), 4, 9, 4));
    assert!(&rt; chooses(from(4), 4, 9, 4));
    assert!(&rt; chooses(from(3), 1, 2, 2));
    assert!(&rt; chooses(from(0), 0, 1, 1));
}

#[test]
fn without_an_epoch_it_is_the_empty_database(rt: HostRuntime) {
    let alloc = rt.alloc();
    let (instance, _) = site(&rt, alloc);
    let mut journal = Vec::new(alloc);
    journal
        .push(part(&rt, alloc, 2, 1, 1, 0, b"X"))
        .expect(&rt, "memory");
    assert!(&rt; chooses(chosen_epoch(&instance, 9, &journal), 0, 0, 0));
}

/// How a generation begins in a region, with images of its blocks or without.
fn begun(generation: u32, before: bool) -> PlacedRecord {
    let what = JnlRecord::Pini {
        version: 1,
        region: 0,
        before,
        generation,
        previous: 0,
    };
    PlacedRecord { generation, what }
}

#[test]
fn records_without_images_behind_an_epoch_are_told(rt: HostRuntime) {
    let alloc = rt.alloc();
    let mut journal = Vec::new(alloc);
    journal.push(begun(1, true)).expect(&rt, "memory");
    journal.push(epoch(1, 0, 1)).expect(&rt, "memory");
    journal.push(begun(2, false)).expect(&rt, "memory");
    journal.push(epoch(2, 0, 1)).expect(&rt, "memory");
    journal.push(begun(3, true)).expect(&rt, "memory");
    let behind = |after: usize| {
        let start = EpochAt {
            number: 0,
            blocks: 1,
            after,
        };
        first_without(alloc, &journal, start).expect(&rt, "memory")
    };
    // Behind the first epoch a generation begins that keeps none, and behind the second one another that does.
    assert!(&rt; behind(2) == Some(2));
    assert!(&rt; behind(4).is_none());
    // The second epoch itself is a record of the generation without.
    assert!(&rt; behind(3) == Some(2));
}
