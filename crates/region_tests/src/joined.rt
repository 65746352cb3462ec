//! The regions of a site, seen as one map of its globals.
ghost use Rattle.std.specs.Prelude.{◌≡◌, ◌<◌, ℕ, Option, true, length, IfSome, IfOk, OnOk};
ghost use Rattle.std.specs.List.{AllByRecursion};
ghost use Rattle.disk_defs.specs.Disk.{Files};
ghost use Rattle.global_defs.specs.Fields.{IsUpdate};
ghost use Rattle.gvn_key.specs.Terms.{update_value};
ghost use Rattle.region_store.specs.Region.{IsHeld, AreLogged};
ghost use Rattle.region_store.specs.Joined.{region_at};
ghost use Rattle.region_tests.specs.Nodeless.{HasNoNodes};

use super::regions::{Images, no_log};
use global_dir::Directory;
use gvn_key::terms::Update;
use gvn_key::{Bytes, Key, NoMemory};
use gvt_leaf::Node;
use region_store::{Region, RegionError, Regions};
use repl_disk::{Disk, MemDisk};
use std::alloc::Global;
use std::process::Abort;

/// Whether no region has a node.
fn are_empty(regions: &[Region]) -> bool
    ensures { result ≡ true → AllByRecursion HasNoNodes regions.now }
{
    for region in regions {
        if region.nodes() != 0 {
            return false;
        }
    }
    true
}

/// A site's regions, which have no nodes yet.
fn join(directory: Directory, regions: Vec<Region>) -> Result<Regions, NoMemory>
    requires { AllByRecursion (λ p. p.region < directory.regions) directory.patterns }
    ensures regions { IfOk result (λ made. made.regions ≡ regions.items) }
{
    if regions.len() != usize::from(directory.regions()) || !are_empty(&regions) {
        return Err(NoMemory);
    }
    Regions::new(directory, regions)
}

/// The region of a file that has no blocks yet.
fn no_blocks<D: Disk>(alloc: Global, disk: &mut D, file: u32) -> Result<Region, RegionError>
    ensures held { IfOk result (λ made. IfSome (D.disk disk.new).content (IsHeld made)) }
    ensures content { (D.disk disk.new).content ≡ (D.disk disk.old).content }
{
    Region::open(alloc, disk, file, 0, &[], &[])
}

/// Two regions, the second for all names that begin with a B.
fn two_regions<D: Disk>(rt: &impl Abort, alloc: Global, disk: &mut D) -> Regions
    ensures held { (number : ℕ) → number < length result.regions → IfSome (D.disk disk.new).content (IsHeld (region_at result number)) }
{
    let mut directory = Directory::new(alloc, 2);
    directory.add(1, true, b"B").expect(rt, "memory");
    let first = no_blocks(alloc, disk, 8).expect(rt, "a region");
    let second = no_blocks(alloc, disk, 9).expect(rt, "a region");
    let mut regions = Vec::new(alloc);
    regions.push(first).expect(rt, "memory");
    regions.push(second).expect(rt, "memory");
    join(directory, regions).expect(rt, "regions")
}

/// The node of a name with one subscript.
fn node(rt: &impl Abort, alloc: Global, name: &[u8], sub: &[u8]) -> Key {
    let sub = Bytes::of(alloc, sub).expect(rt, "memory");
    Key::new(alloc, name, &[sub]).expect(rt, "a key")
}

/// A SET of a node to a short value.
fn set(rt: &impl Abort, alloc: Global, key: Key, value: &[u8]) -> Update
    ensures { IsUpdate (update_value result) }
{
    let _ = key.code();
    assert!(rt; value.len() <= 1500);
    Update::Set(key, Bytes::of(alloc, value).expect(rt, "memory"))
}

/// A KILL of a node.
fn kill(key: Key) -> Update
    ensures { IsUpdate (update_value result) }
{
    let _ = key.code();
    Update::Kill(key)
}

/// Makes three changes in one list.
fn make(rt: &impl Abort, regions: &mut Regions, first: Update, second: Update, third: Update)
    requires first { IsUpdate (update_value first) }
    requires second { IsUpdate (update_value second) }
    requires third { IsUpdate (update_value third) }
    ensures count { length regions.new.regions ≡ length regions.old.regions }
    ensures held { (o : Option Files) (number : ℕ) → number < length regions.old.regions → IfSome o (IsHeld (region_at regions.old number)) → IfSome o (IsHeld (region_at regions.new number)) }
{
    regions.apply(&[first, second, third]).expect(rt, "memory");
}

/// Asserts how many nodes each region has.
fn have(rt: &impl Abort, regions: &Regions, first: u32, second: u32) {
    assert!(rt; regions.count() == 2);
    assert!(rt; regions.region(0).nodes() == first);
    assert!(rt; regions.region(1).nodes() == second);
    assert!(rt; u64::from(regions.nodes()) == u64::from(first) + u64::from(second));
}

/// Asserts a node's value.
fn has(rt: &impl Abort, regions: &Regions, key: &Key, value: &[u8]) {
    assert!(rt; regions.get(key).expect(rt, "a value") == value);
}

/// Asserts what is answered of the nodes of `^BOB`, which are in the second region.
fn is_read(rt: &impl Abort, alloc: Global, regions: &Regions) {
    let top = Key::new(alloc, b"BOB", &[]).expect(rt, "a key");
    assert!(rt; regions.defined(&top) == 10);
    let first = regions.order(&top, b"").expect(rt, "memory");
    assert!(rt; first.expect(rt, "a subscript").as_slice() == b"1".as_slice());
    let after = regions
        .after(&node(rt, alloc, b"BOB", b"1"))
        .expect(rt, "memory");
    let next = node(rt, alloc, b"BOB", b"x");
    assert!(rt; after.expect(rt, "a node").as_encoded() == next.as_encoded());
    assert!(rt; regions.after(&next).expect(rt, "memory").is_none());
    assert!(rt; regions.list_under(alloc, &top).expect(rt, "memory").len() == 2);
}

/// Asserts the key and the value of a node in a list.
fn is_listed(rt: &impl Abort, list: &[Node<'_>], place: usize, key: &Key, value: &[u8]) {
    let node = list.get(place).expect(rt, "a node");
    assert!(rt; node.key.as_encoded() == key.as_encoded());
    assert!(rt; node.value == value);
}

/// Makes the first three changes, in both regions.
fn change(rt: &impl Abort, alloc: Global, regions: &mut Regions)
    ensures count { length regions.new.regions ≡ length regions.old.regions }
    ensures held { (o : Option Files) (number : ℕ) → number < length regions.old.regions → IfSome o (IsHeld (region_at regions.old number)) → IfSome o (IsHeld (region_at regions.new number)) }
{
    let ada = set(rt, alloc, node(rt, alloc, b"ADA", b"1"), b"100");
    let bob = set(rt, alloc, node(rt, alloc, b"BOB", b"1"), b"20");
    let more = set(rt, alloc, node(rt, alloc, b"BOB", b"x"), b"30");
    make(rt, regions, ada, bob, more);
}

/// Makes three more changes, in both regions.
fn change_again(rt: &impl Abort, alloc: Global, regions: &mut Regions)
    ensures count { length regions.new.regions ≡ length regions.old.regions }
    ensures held { (o : Option Files) (number : ℕ) → number < length regions.old.regions → IfSome o (IsHeld (region_at regions.old number)) → IfSome o (IsHeld (region_at regions.new number)) }
{
    let gone = kill(node(rt, alloc, b"ADA", b"1"));
    let less = set(rt, alloc, node(rt, alloc, b"BOB", b"1"), b"19");
    let other = set(rt, alloc, node(rt, alloc, b"C", b"1"), b"1");
    make(rt, regions, gone, less, other);
}

/// Asserts the list of all nodes behind the first changes.
fn are_listed(rt: &impl Abort, alloc: Global, regions: &Regions) {
    let list = regions.list(alloc).expect(rt, "memory");
    assert!(rt; list.len() == 3);
    is_listed(rt, &list, 0, &node(rt, alloc, b"ADA", b"1"), b"100");
    is_listed(rt, &list, 1, &node(rt, alloc, b"BOB", b"1"), b"20");
    is_listed(rt, &list, 2, &node(rt, alloc, b"BOB", b"x"), b"30");
}

/// Asserts the list of all nodes behind the later changes.
fn are_listed_again(rt: &impl Abort, alloc: Global, regions: &Regions) {
    let list = regions.list(alloc).expect(rt, "memory");
    assert!(rt; list.len() == 3);
    is_listed(rt, &list, 0, &node(rt, alloc, b"BOB", b"1"), b"19");
    is_listed(rt, &list, 1, &node(rt, alloc, b"BOB", b"x"), b"30");
    is_listed(rt, &list, 2, &node(rt, alloc, b"C", b"1"), b"1");
}

/// Changes nodes of both regions in one list, and again.
fn changed_in_both<D: Disk>(rt: &impl Abort, alloc: Global, disk: &mut D) {
    let mut regions = two_regions(rt, alloc, disk);
    have(rt, &regions, 0, 0);
    assert!(rt; regions.list(alloc).expect(rt, "memory").is_empty());
    change(rt, alloc, &mut regions);
    have(rt, &regions, 1, 2);
    has(rt, &regions, &node(rt, alloc, b"ADA", b"1"), b"100");
    has(rt, &regions, &node(rt, alloc, b"BOB", b"x"), b"30");
    is_read(rt, alloc, &regions);
    are_listed(rt, alloc, &regions);
    change_again(rt, alloc, &mut regions);
    have(rt, &regions, 1, 2);
    assert!(rt; regions.get(&node(rt, alloc, b"ADA", b"1")).is_none());
    has(rt, &regions, &node(rt, alloc, b"BOB", b"1"), b"19");
    has(rt, &regions, &node(rt, alloc, b"C", b"1"), b"1");
    are_listed_again(rt, alloc, &regions);
}

#[test]
fn a_list_of_updates_in_two_regions(rt: HostRuntime) {
    let mut disk = MemDisk::new(rt.alloc()).expect(&rt, "memory");
    changed_in_both(&rt, rt.alloc(), &mut disk);
}

/// Logs what has changed in one region, and marks it.
fn logged<D: Disk>(
    regions: &mut Regions,
    number: usize,
    disk: &mut D,
    log: &mut Images,
) -> Result<(), RegionError>
    requires inside { number < length regions.old.regions }
    requires held { IfSome (D.disk disk.old).content (IsHeld (region_at regions.old number)) }
    ensures inside { number < length regions.new.regions }
    ensures held { OnOk result (IfSome (D.disk disk.new).content (IsHeld (region_at regions.new number))) }
    ensures logged { OnOk result (AreLogged (region_at regions.new number)) }
{
    regions.log_changed(number, disk, log)?;
    regions.mark_logged(number);
    Ok(())
}

/// Logs what has changed in one region, writes it, and begins to count its images anew. It answers how many blocks the EPOCH has.
fn to_epoch<D: Disk>(
    alloc: Global,
    regions: &mut Regions,
    number: usize,
    disk: &mut D,
    log: &mut Images,
) -> Result<u32, RegionError>
    requires inside { number < length regions.old.regions }
    requires held { IfSome (D.disk disk.old).content (IsHeld (region_at regions.old number)) }
    ensures inside { number < length regions.new.regions }
    ensures held { OnOk result (IfSome (D.disk disk.new).content (IsHeld (region_at regions.new number))) }
{
    logged(regions, number, disk, log)?;
    let none = regions.region(number).no_images(alloc)?;
    regions.flush(number, disk, false, 7)?;
    regions.begin_epoch(number, none);
    Ok(regions.region(number).blocks())
}

/// Asserts how many nodes the one block of a file has, and that another file has no block.
fn is_written<D: Disk>(
    rt: &impl Abort,
    alloc: Global,
    disk: &mut D,
    file: u32,
    nodes: u32,
    other: u32,
) {
    let region = Region::open(alloc, disk, file, 1, &[], &[]).expect(rt, "a region");
    assert!(rt; region.nodes() == nodes);
    let none = Region::open(alloc, disk, other, 1, &[], &[]);
    assert!(rt; matches!(none, Err(RegionError::NotAFile { offset: 0, .. })));
}

/// One of two regions comes to an epoch, and logs a changed block once behind it.
fn one_to_epoch<D: Disk>(rt: &impl Abort, alloc: Global, disk: &mut D, number: usize) {
    let mut regions = two_regions(rt, alloc, disk);
    change(rt, alloc, &mut regions);
    assert!(rt; number < regions.count());
    let mut log = no_log(alloc);
    let blocks = to_epoch(alloc, &mut regions, number, disk, &mut log).expect(rt, "an epoch");
    assert!(rt; blocks == 1);
    assert!(rt; log.records.is_empty());
    are_listed(rt, alloc, &regions);
    change_again(rt, alloc, &mut regions);
    logged(&mut regions, number, disk, &mut log).expect(rt, "a log");
    assert!(rt; log.records.len() == 1);
    logged(&mut regions, number, disk, &mut log).expect(rt, "a log");
    assert!(rt; log.records.len() == 1);
    are_listed_again(rt, alloc, &regions);
}

#[test]
fn one_of_two_regions_to_an_epoch(rt: HostRuntime) {
    let mut disk = MemDisk::new(rt.alloc()).expect(&rt, "memory");
    one_to_epoch(&rt, rt.alloc(), &mut disk, 0);
    is_written(&rt, rt.alloc(), &mut disk, 8, 1, 9);
    let mut disk = MemDisk::new(rt.alloc()).expect(&rt, "memory");
    one_to_epoch(&rt, rt.alloc(), &mut disk, 1);
    is_written(&rt, rt.alloc(), &mut disk, 9, 2, 8);
}
