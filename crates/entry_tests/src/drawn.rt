//! Indexes built from the signs of drawn sites, beside the sequences that their records lead to.
ghost use Rattle.std.specs.Prelude.{◌≡◌, ◌<◌, ◌≤◌};
ghost use Rattle.global_defs.specs.declared.limits.TheConstants.{MOST_REGIONS};
ghost use Rattle.journal_defs.specs.Surviving as surviving;

use crate::journals::{Journal, Worked, empty};
use crate::sites::{cut_to_one, from_the_first, from_the_second};
use entry_index::{EntryIndex, look_side_by_side};
use gvn_key::Bytes;
use gvn_key::terms::Update;
use gvn_model::{Entry, Reigns};
use instance_file::InstanceRecords;
use mupip_recover::{recover, starts_of};
use repl_disk::MemDisk;
use std::alloc::Global;
use std::process::Abort;

/// A number below a limit, from a seed that goes on.
fn draw(seed: &mut u64, below: u64) -> u64
    requires { 0 < below }
    ensures { result < below }
{
    *seed = seed
        .wrapping_mul(6364136223846793005)
        .wrapping_add(1442695040888963407);
    (*seed >> 33) % below
}

/// The part of an entry in region 0 or 1, as it should be: in one region, in both one after the other, or in turn.
fn fit_part(region: u8, number: u64, shape: u64, name: u8) -> Worked {
    let (mask, count, many, positions) = match (shape, region) {
        (0, _) => (1, 2, 2, [0, 1]),
        (1, _) => (2, 2, 2, [0, 1]),
        (2, 0) => (3, 2, 1, [0, 0]),
        (2, _) => (3, 2, 1, [1, 0]),
        (_, 0) => (3, 3, 2, [0, 2]),
        (_, _) => (3, 3, 1, [1, 0]),
    };
    Worked {
        number,
        mask,
        updater: 1,
        count,
        many,
        positions,
        name,
    }
}

/// The same with one thing else, or as it was.
fn spoiled(mut part: Worked, odd: u64) -> Worked {
    match odd {
        0 => part.mask = 3,
        1 => part.count = 4,
        2 => part.updater = 2,
        3 => part.many = 0,
        4 => {
            part.many = 1;
            part.positions[0] = 1;
        }
        _ => {}
    }
    part
}

/// Draws the journal of a region. Most parts stand in order; few are drawn anew, and few are spoiled.
fn drawn_journal(
    rt: &impl Abort,
    alloc: Global,
    disk: &mut MemDisk,
    seed: &mut u64,
    region: u8,
    shapes: &[u64; 4],
    turns: u8,
) -> Journal
    requires { region < MOST_REGIONS }
{
    let mut journal = empty(alloc);
    for turn in 0..turns {
        let place = if draw(seed, 6) == 0 {
            draw(seed, 4) as usize
        } else {
            usize::from(turn) % 4
        };
        let name = b'A' + draw(seed, 26) as u8;
        let part = fit_part(region, place as u64 + 1, shapes[place], name);
        let part = spoiled(part, draw(seed, 40));
        let is_in = part.mask & (1 << region) != 0;
        if is_in || draw(seed, 20) == 0 {
            let generation = 1 + u32::from(turn / 2);
            journal.add(rt, alloc, disk, region, generation, &part);
        }
    }
    journal
}

/// Adds a line for an entry: its number, its reign, its origin and the names that it kills.
fn tell(rt: &impl Abort, entry: &Entry, text: &mut Bytes) {
    text.push_decimal(entry.number).expect(rt, "memory");
    text.push(b' ').expect(rt, "memory");
    let root = entry.stamp.root.as_slice();
    text.push_all(root).expect(rt, "memory");
    let cycle = u64::from(entry.stamp.cycle);
    text.push_decimal(cycle).expect(rt, "memory");
    text.push(b' ').expect(rt, "memory");
    let updater = u64::from(entry.transaction.origin.updater);
    text.push_decimal(updater).expect(rt, "memory");
    for update in entry.transaction.updates.as_slice() {
        if let Update::Kill(key) = update {
            text.push(b' ').expect(rt, "memory");
            text.push_all(key.name()).expect(rt, "memory");
        }
    }
    text.push(b'\n').expect(rt, "memory");
}

/// The lines of the entries that an index leads to.
fn told_by(
    rt: &impl Abort,
    alloc: Global,
    disk: &mut MemDisk,
    history: &Reigns,
    index: &EntryIndex,
) -> Bytes
    requires { index.now.regions ≤ MOST_REGIONS }
{
    let starts = starts_of(alloc, history.as_slice()).expect(rt, "memory");
    let mut text = Bytes::new(alloc);
    let many = index.len();
    for before in 0..many {
        let found = index
            .read(alloc, disk, history, &starts, before + 1)
            .expect(rt, "an entry");
        let entry = found.expect(rt, "an entry");
        tell(rt, &entry, &mut text);
    }
    let past = index
        .read(alloc, disk, history, &starts, many + 1)
        .expect(rt, "no entry");
    assert!(rt; past.is_none());
    text
}

/// What a drawn site led to.
#[derive(Clone, Copy)]
struct Led {
    /// How many entries there are.
    long: u64,
    /// Whether its journals could be looked through side by side.
    beside: bool,
}

/// Looks the two journals of a site through side by side, where that can be done, and sees that the entries are those of these lines.
fn is_beside(
    rt: &impl Abort,
    alloc: Global,
    disk: &mut MemDisk,
    instance: &InstanceRecords,
    history: &Reigns,
    text: &Bytes,
) -> bool
    requires { history.now ≡ surviving.reigns instance.now }
{
    let found = look_side_by_side(alloc, disk, instance, history, 2, 3, u64::MAX).expect(
        rt, "memory",
    );
    let Some(found) = found else {
        return false;
    };
    let told = told_by(rt, alloc, disk, history, &found.entries);
    assert_eq!(rt; told.as_slice(), text.as_slice());
    true
}

/// Draws two journals of a site, and answers what they lead to.
fn drawn_site(
    rt: &impl Abort,
    alloc: Global,
    seed: &mut u64,
    instance: &InstanceRecords,
    history: &Reigns,
    turns: u8,
) -> Led
    requires { history.now ≡ surviving.reigns instance.now }
{
    let mut disk = MemDisk::new(alloc).expect(rt, "memory");
    let shapes = [draw(seed, 4), draw(seed, 4), draw(seed, 4), draw(seed, 4)];
    let Journal { records, signs, .. } = drawn_journal(
        rt, alloc, &mut disk, seed, 0, &shapes, turns,
    );
    let second = drawn_journal(rt, alloc, &mut disk, seed, 1, &shapes, turns);
    let records = [records, second.records];
    let signs = [signs, second.signs];
    let index = EntryIndex::build(alloc, &mut disk, instance, history, &signs).expect(
        rt, "an index",
    );
    let entries = recover(alloc, instance, history, &records).expect(rt, "memory");
    let mut text = Bytes::new(alloc);
    for entry in entries.as_slice() {
        tell(rt, entry, &mut text);
    }
    let told = told_by(rt, alloc, &mut disk, history, &index);
    assert_eq!(rt; told.as_slice(), text.as_slice());
    Led {
        long: index.len(),
        beside: is_beside(rt, alloc, &mut disk, instance, history, &text),
    }
}

/// Draws sites, and counts those that lead to so many entries, from none to four.
fn drawn_sites(
    rt: &impl Abort,
    alloc: Global,
    instance: &InstanceRecords,
    history: &Reigns,
    many: u32,
) -> [u32; 5]
    requires { history.now ≡ surviving.reigns instance.now }
{
    let mut seed = 12345;
    let mut lengths = [0u32; 5];
    for _site in 0..many {
        let Led { long, .. } = drawn_site(rt, alloc, &mut seed, instance, history, 6);
        let place = if long < 5 { long as usize } else { 4 };
        lengths[place] = lengths[place].wrapping_add(1);
    }
    lengths
}

#[test]
fn indexes_lead_to_what_is_recovered(rt: HostRuntime) {
    let alloc = rt.alloc();
    let (instance, history) = from_the_first(&rt, alloc);
    let lengths = drawn_sites(&rt, alloc, &instance, &history, 300);
    assert!(rt; lengths.iter().all(|many| *many >= 20), "{lengths:?}");
}

#[test]
fn the_same_with_a_cut(rt: HostRuntime) {
    let alloc = rt.alloc();
    let (instance, history) = cut_to_one(&rt, alloc);
    let lengths = drawn_sites(&rt, alloc, &instance, &history, 300);
    assert!(rt; lengths.iter().all(|many| *many >= 20), "{lengths:?}");
}

#[test]
fn nothing_before_the_first_reign(rt: HostRuntime) {
    let alloc = rt.alloc();
    let (instance, history) = from_the_second(&rt, alloc);
    let lengths = drawn_sites(&rt, alloc, &instance, &history, 20);
    assert_eq!(rt; lengths, [20, 0, 0, 0, 0]);
}

/// Sites of so few parts that their numbers rise in most of them, with and without a cut.
#[test]
fn journals_side_by_side(rt: HostRuntime) {
    let alloc = rt.alloc();
    let (whole, reigns) = from_the_first(&rt, alloc);
    let (cut, kept) = cut_to_one(&rt, alloc);
    let mut seed = 54321;
    let (mut many, mut cut_many) = (0u32, 0u32);
    for _site in 0..100 {
        if drawn_site(&rt, alloc, &mut seed, &whole, &reigns, 4).beside {
            many = many.wrapping_add(1);
        }
        if drawn_site(&rt, alloc, &mut seed, &cut, &kept, 4).beside {
            cut_many = cut_many.wrapping_add(1);
        }
    }
    assert!(&rt; many >= 20 && many < 100, "{many}");
    assert!(&rt; cut_many >= 20 && cut_many < 100, "{cut_many}");
}
