//! A region that is opened behind an epoch, and written out while each call of its disk fails in turn.
ghost use Rattle.std.specs.Prelude.{◌≡◌, ◌<◌, Option, map, length, true, IfSome, IfOk, OnOk};
ghost use Rattle.disk_defs.specs.Disk.{Files};
ghost use Rattle.global_defs.specs.Fields.{IsUpdate};
ghost use Rattle.gvn_key.specs.Terms.{update_value};
ghost use Rattle.journal_defs.specs.Journal.{IsInForm};
ghost use Rattle.block_laws.specs.Nodes.{AreFormed};
ghost use Rattle.jnl_record.specs.Values.{record_value, placed_value};
ghost use Rattle.region_store.specs.Region.{IsHeld, AreLogged};

use before_image::Log;
use gvn_key::terms::Update;
use gvn_key::{Bytes, Key, NoMemory};
use jnl_record::{JnlRecord, PlacedRecord};
use region_store::{Region, RegionError};
use repl_disk::{Disk, MemDisk};
use std::alloc::Global;
use std::process::Abort;

/// The database file.
const FILE: u32 = 3;

/// Images as records of one generation.
#[derive(Drop)]
pub(crate) struct Images {
    alloc: Global,
    pub(crate) records: Vec<PlacedRecord>,
}

impl Log for Images {
    ghost use Rattle.region_tests.specs.Logged.{images_in};

    ghost images = { λ l. images_in l.records.items };

    fn log(&mut self, block: u32, image: &[u8]) -> Result<(), NoMemory> {
        let image = Bytes::of(self.alloc, image)?;
        self.records.push(PlacedRecord {
            generation: 1,
            what: JnlRecord::Pblk { block, image },
        })?;
        Ok(())
    }
}

/// Whether a block's number is a small one, and its image has all bytes.
fn is_whole(block: u32, image: &[u8]) -> bool
    ensures { result ≡ true → (block < 1000) × (length image.now ≡ 4096) }
{
    block < 1000 && image.len() == 4096
}

/// Whether a record is a block's image.
fn is_image(what: &JnlRecord) -> bool
    ensures { result ≡ true → IsInForm (record_value what.now) }
{
    match what {
        JnlRecord::Pblk { block, image } => is_whole(*block, image.as_slice()),
        _ => false,
    }
}

/// Whether these records are images of blocks.
fn are_images(records: &[PlacedRecord]) -> bool
    ensures { result ≡ true → AreFormed (map placed_value records.now) }
{
    for placed in records {
        if !is_image(&placed.what) {
            return false;
        }
    }
    true
}

/// The node of this number.
fn node(rt: &impl Abort, alloc: Global, number: u64) -> Key {
    let mut sub = Bytes::new(alloc);
    sub.push_decimal(number).expect(rt, "memory");
    Key::new(alloc, b"X", &[sub]).expect(rt, "a key")
}

/// A value of 300 bytes.
fn value(rt: &impl Abort, alloc: Global, byte: u8) -> Bytes {
    let mut value = Bytes::new(alloc);
    for _ in 0..300 {
        value.push(byte).expect(rt, "memory");
    }
    value
}

/// Makes a change.
fn make(rt: &impl Abort, region: &mut Region, update: Update)
    requires form { IsUpdate (update_value update) }
    ensures held { (o : Option Files) → IfSome o (IsHeld region.old) → IfSome o (IsHeld region.new) }
{
    region.apply(&[update]).expect(rt, "memory");
}

/// Gives a node a value of this byte.
fn set(rt: &impl Abort, alloc: Global, region: &mut Region, number: u64, byte: u8)
    ensures held { (o : Option Files) → IfSome o (IsHeld region.old) → IfSome o (IsHeld region.new) }
{
    let key = node(rt, alloc, number);
    let _ = key.code();
    let value = value(rt, alloc, byte);
    assert!(rt; value.len() <= 1500);
    make(rt, region, Update::Set(key, value));
}

/// Gives the first nodes values of this byte.
fn set_all(rt: &impl Abort, alloc: Global, region: &mut Region, nodes: u64, byte: u8)
    ensures held { (o : Option Files) → IfSome o (IsHeld region.old) → IfSome o (IsHeld region.new) }
{
    for number in 0..nodes {
        set(rt, alloc, region, number, byte);
    }
}

/// Takes a node away.
fn kill(rt: &impl Abort, alloc: Global, region: &mut Region, number: u64)
    ensures held { (o : Option Files) → IfSome o (IsHeld region.old) → IfSome o (IsHeld region.new) }
{
    let key = node(rt, alloc, number);
    let _ = key.code();
    make(rt, region, Update::Kill(key));
}

/// Whether a node has a value of this byte.
fn has(rt: &impl Abort, alloc: Global, region: &Region, number: u64, byte: u8) -> bool {
    match region.get(&node(rt, alloc, number)) {
        Some(value) => value.len() == 300 && value[0] == byte,
        None => false,
    }
}

/// Opens the region from an epoch of so many blocks with these images behind it.
fn open<D: Disk>(
    alloc: Global,
    disk: &mut D,
    blocks: u32,
    behind: &[PlacedRecord],
) -> Result<Region, RegionError>
    ensures held { IfOk result (λ made. IfSome (D.disk disk.new).content (IsHeld made)) }
{
    if !are_images(behind) {
        return Err(RegionError::NoMemory);
    }
    Region::open(alloc, disk, FILE, blocks, behind, &[])
}

/// Logs what has changed, and marks it.
fn logged<D: Disk>(region: &mut Region, disk: &mut D, log: &mut Images) -> Result<(), RegionError>
    requires held { IfSome (D.disk disk.old).content (IsHeld region.old) }
    ensures held { OnOk result (IfSome (D.disk disk.new).content (IsHeld region.new)) }
    ensures logged { OnOk result (AreLogged region.new) }
{
    region.log_changed(disk, log)?;
    region.mark_logged();
    Ok(())
}

/// Logs what has changed, writes it, and begins to count images anew. It answers how many blocks the EPOCH has.
fn to_epoch<D: Disk>(
    alloc: Global,
    region: &mut Region,
    disk: &mut D,
    log: &mut Images,
) -> Result<u32, RegionError>
    requires held { IfSome (D.disk disk.old).content (IsHeld region.old) }
    ensures held { OnOk result (IfSome (D.disk disk.new).content (IsHeld region.new)) }
{
    logged(region, disk, log)?;
    let none = region.no_images(alloc)?;
    region.flush(disk, false, 7)?;
    region.begin_epoch(none);
    Ok(region.blocks())
}

/// Logs what has changed, and flushes it on a disk that fails after so many calls.
fn flush_within<D: Disk>(
    region: &mut Region,
    disk: &mut D,
    log: &mut Images,
    calls: u64,
) -> Result<JnlRecord, RegionError>
    requires held { IfSome (D.disk disk.old).content (IsHeld region.old) }
{
    logged(region, disk, log)?;
    disk.fuse(calls);
    region.flush(disk, true, 8)
}

/// Flushes on a disk that fails after so many calls, and again once it doesn't.
fn flush_again<D: Disk>(
    region: &mut Region,
    disk: &mut D,
    log: &mut Images,
    calls: u64,
) -> Result<bool, RegionError>
    requires held { IfSome (D.disk disk.old).content (IsHeld region.old) }
{
    logged(region, disk, log)?;
    disk.fuse(calls);
    let first = region.flush(disk, true, 8).is_ok();
    disk.fuse(1000);
    region.flush(disk, true, 8)?;
    Ok(first)
}

/// No images.
pub(crate) fn no_log(alloc: Global) -> Images {
    Images {
        alloc,
        records: Vec::new(alloc),
    }
}

/// A region of 30 nodes on several blocks at an epoch, and how many blocks that has.
fn at_epoch<D: Disk>(rt: &impl Abort, alloc: Global, disk: &mut D) -> (Region, u32)
    ensures held { IfSome (D.disk disk.new).content (IsHeld result.0) }
{
    let mut log = no_log(alloc);
    let mut region = open(alloc, disk, 0, &[]).expect(rt, "a region");
    set_all(rt, alloc, &mut region, 30, b'a');
    let blocks = to_epoch(alloc, &mut region, disk, &mut log).expect(rt, "an epoch");
    assert!(rt; log.records.is_empty());
    assert!(rt; 3 <= blocks);
    (region, blocks)
}

/// Changes nodes of all blocks, one of which goes, and adds some.
fn change(rt: &impl Abort, alloc: Global, region: &mut Region)
    ensures held { (o : Option Files) → IfSome o (IsHeld region.old) → IfSome o (IsHeld region.new) }
{
    set_all(rt, alloc, region, 45, b'b');
    kill(rt, alloc, region, 7);
}

/// Whether the region has the nodes of the epoch, and no others.
fn is_as_before(rt: &impl Abort, alloc: Global, region: &Region) -> bool {
    let mut same = region.nodes() == 30;
    for number in 0..30 {
        same = same && has(rt, alloc, region, number, b'a');
    }
    same
}

/// Whether the region has the changed nodes, and no others.
fn is_changed(rt: &impl Abort, alloc: Global, region: &Region) -> bool {
    let mut same = region.nodes() == 44;
    for number in 0..45 {
        same = same && has(rt, alloc, region, number, b'b') == (number != 7);
    }
    same
}

/// Whether a key is that of the node with this number.
fn is_node(rt: &impl Abort, alloc: Global, key: &Key, number: u64) -> bool {
    key.as_encoded() == node(rt, alloc, number).as_encoded()
}

/// Asserts what a region of the nodes from 0 to 29 without 7 answers around that one.
fn is_read(rt: &impl Abort, alloc: Global, region: &Region) {
    let top = Key::new(alloc, b"X", &[]).expect(rt, "a key");
    assert!(rt; region.defined(&top) == 10);
    assert!(rt; region.defined(&node(rt, alloc, 7)) == 0);
    let next = region.order(&top, b"6").expect(rt, "memory");
    assert!(rt; next.expect(rt, "a subscript").as_slice() == b"8".as_slice());
    let last = region.order(&top, b"29").expect(rt, "memory");
    assert!(rt; last.is_none());
    let after = region.after(&node(rt, alloc, 6)).expect(rt, "memory");
    assert!(rt; is_node(rt, alloc, &after.expect(rt, "a node"), 8));
}

/// Asserts how many nodes that region lists, in all and under one.
fn are_listed(rt: &impl Abort, alloc: Global, region: &Region) {
    assert!(rt; region.list(alloc).expect(rt, "memory").len() == 29);
    let under = region.list_under(alloc, &node(rt, alloc, 8));
    assert!(rt; under.expect(rt, "memory").len() == 1);
}

/// A region is opened with an update behind its epoch, and read. The disk has the epoch as before.
fn opened_with_an_update<D: Disk>(rt: &impl Abort, alloc: Global, disk: &mut D) {
    let (_, blocks) = at_epoch(rt, alloc, disk);
    let key = node(rt, alloc, 7);
    let _ = key.code();
    let update = Update::Kill(key);
    let opened = Region::open(alloc, disk, FILE, blocks, &[], &[update]);
    let region = opened.expect(rt, "a region");
    is_read(rt, alloc, &region);
    are_listed(rt, alloc, &region);
    let before = open(alloc, disk, blocks, &[]).expect(rt, "a region");
    assert!(rt; is_as_before(rt, alloc, &before));
}

/// An epoch whose number of blocks was damaged to a large one is answered by the first block that the file doesn't have, and takes
/// no memory for the others.
fn refused_by_the_file<D: Disk>(rt: &impl Abort, alloc: Global, disk: &mut D) {
    let (_, blocks) = at_epoch(rt, alloc, disk);
    let opened = open(alloc, disk, 1 << 31, &[]);
    let offset = 4096 * u64::from(blocks);
    let is_refused =
        matches!(opened, Err(RegionError::NotAFile { file: FILE, offset: at }) if at == offset);
    assert!(rt; is_refused);
}

#[test]
fn a_damaged_number_of_blocks(rt: HostRuntime) {
    let mut disk = MemDisk::new(rt.alloc()).expect(&rt, "memory");
    refused_by_the_file(&rt, rt.alloc(), &mut disk);
}

#[test]
fn a_region_with_an_update_behind_its_epoch(rt: HostRuntime) {
    let mut disk = MemDisk::new(rt.alloc()).expect(&rt, "memory");
    opened_with_an_update(&rt, rt.alloc(), &mut disk);
}

/// A flush is cut short by a crash, and the region goes back by the images.
fn cut_short<D: Disk>(rt: &impl Abort, alloc: Global, disk: &mut D, calls: u64, pick: u64) {
    let (mut region, blocks) = at_epoch(rt, alloc, disk);
    change(rt, alloc, &mut region);
    let mut log = no_log(alloc);
    let _ = flush_within(&mut region, disk, &mut log, calls);
    assert!(rt; log.records.len() == blocks as usize);
    disk.crash(pick);
    let back = open(alloc, disk, blocks, &log.records).expect(rt, "a region");
    assert!(rt; is_as_before(rt, alloc, &back));
}

#[test]
fn a_flush_that_a_crash_cuts_short(rt: HostRuntime) {
    for calls in 0..8 {
        for pick in 0..3 {
            let mut disk = MemDisk::new(rt.alloc()).expect(&rt, "memory");
            cut_short(&rt, rt.alloc(), &mut disk, calls, pick);
        }
    }
}

/// A flush that fails is done again, and stands where a crash leaves only what was synced. It answers whether the first one
/// succeeded.
fn done_again<D: Disk>(rt: &impl Abort, alloc: Global, disk: &mut D, calls: u64) -> bool {
    let (mut region, blocks) = at_epoch(rt, alloc, disk);
    change(rt, alloc, &mut region);
    let mut log = no_log(alloc);
    let first = flush_again(&mut region, disk, &mut log, calls).expect(rt, "a flush");
    disk.crash(0);
    let again = open(alloc, disk, region.blocks(), &[]).expect(rt, "a region");
    assert!(rt; is_changed(rt, alloc, &again));
    let back = open(alloc, disk, blocks, &log.records).expect(rt, "a region");
    assert!(rt; is_as_before(rt, alloc, &back));
    first
}

#[test]
fn a_flush_that_fails_and_is_done_again(rt: HostRuntime) {
    for calls in 0..8 {
        let mut disk = MemDisk::new(rt.alloc()).expect(&rt, "memory");
        let first = done_again(&rt, rt.alloc(), &mut disk, calls);
        assert!(&rt; first == (5 <= calls));
    }
}

/// The blocks that need an image before the node of number 7 is taken away.
fn unlogged(rt: &impl Abort, alloc: Global, region: &Region) -> Vec<u32> {
    let update = Update::ZKill(node(rt, alloc, 7));
    region.unlogged(alloc, &update).expect(rt, "memory")
}

/// The block of a node of the epoch is listed until it has an image.
fn listed_once<D: Disk>(rt: &impl Abort, alloc: Global, disk: &mut D) {
    let (mut region, _) = at_epoch(rt, alloc, disk);
    let mut log = no_log(alloc);
    assert!(rt; unlogged(rt, alloc, &region).as_slice() == [0].as_slice());
    region.log_image(disk, 0, &mut log).expect(rt, "an image");
    assert!(rt; log.records.len() == 1);
    assert!(rt; unlogged(rt, alloc, &region).len() == 1);
    region.mark_image(0);
    assert!(rt; unlogged(rt, alloc, &region).is_empty());
}

#[test]
fn a_block_that_is_listed_until_it_has_an_image(rt: HostRuntime) {
    let mut disk = MemDisk::new(rt.alloc()).expect(&rt, "memory");
    listed_once(&rt, rt.alloc(), &mut disk);
}
