//! A site made, opened twice, and damaged; and one that owns its disk.
ghost use Rattle.std.specs.Prelude.{◌≡◌, [], Some, IfSome, IfOk, IsTrue};
ghost use Rattle.disk_defs.specs.Gates.{records};
ghost use Rattle.global_defs.specs.Fields.{IsTransaction};
ghost use Rattle.gvn_model.specs.Entries.{transaction_value};
ghost use Rattle.journal_defs.specs.Numbers.{INSTANCE};
ghost use Rattle.site_store.specs.Site.{HasReign};
ghost use Rattle.site_store.specs.Owning.{IsGoing, disk_of, memory_of};

use gvn_key::terms::Update;
use gvn_key::{Bytes, Key};
use gvn_model::{Origin, Transaction, Updates};
use mupip_rollback::rollback;
use repl_disk::{Disk, MemDisk};
use site_making::{history_of, inspect};
use site_store::{RegionSpec, Site, SiteError, find_files, read_file, stand};
use std::alloc::Global;
use std::process::Abort;

/// PINI of region 0, BEFORE, as the first record of generation 1 and its closed gate.
const FIRST: &[u8; 18] = b"\x01\0\0\0\x0c\x01\x01\0\x01\0\0\0\x01\0\0\0\0\0";

/// The same of generation 2, behind generation 1.
const SECOND: &[u8; 18] = b"\x01\0\0\0\x0c\x01\x01\0\x01\0\0\0\x02\0\0\0\x01\0";

/// A new site A with one region R, whose blocks are kept as they were.
pub(crate) fn make<D: Disk>(alloc: Global, disk: &mut D) -> Result<(), SiteError>
    requires { IfSome (D.disk disk.old).content (λ files. records (files INSTANCE) ≡ Some []) }
{
    let name = Bytes::of(alloc, b"A")?;
    let regions = [RegionSpec {
        name: Bytes::of(alloc, b"R")?,
        before: true,
    }];
    Site::create(alloc, disk, &name, &regions)
}

/// PINI of region 1, NOBEFORE, as the first record of generation 1 and its closed gate.
const FIRST_OF_SECOND: &[u8; 18] = b"\x01\0\0\0\x0c\x01\x01\x01\0\0\0\0\x01\0\0\0\0\0";

/// A new site B with two regions R and S, and the blocks of the second aren't kept.
fn make_two<D: Disk>(alloc: Global, disk: &mut D) -> Result<(), SiteError>
    requires { IfSome (D.disk disk.old).content (λ files. records (files INSTANCE) ≡ Some []) }
{
    let name = Bytes::of(alloc, b"B")?;
    let regions = [
        RegionSpec {
            name: Bytes::of(alloc, b"R")?,
            before: true,
        },
        RegionSpec {
            name: Bytes::of(alloc, b"S")?,
            before: false,
        },
    ];
    Site::create(alloc, disk, &name, &regions)
}

/// Whether a file has these bytes.
pub(crate) fn has<D: Disk>(rt: &impl Abort, disk: &mut D, file: u32, bytes: &[u8; 18]) -> bool {
    if disk.len(file).expect(rt, "it succeeds") != 18 {
        return false;
    }
    let mut read = [0; 18];
    disk.read_at(file, 0, &mut read).expect(rt, "it succeeds");
    &read == bytes
}

/// The disk of a site that was opened on it, and given up.
pub(crate) fn opened<D: Disk>(rt: &impl Abort, alloc: Global, disk: D) -> D {
    Site::load(alloc, disk).ok().expect(rt, "a site").abandon()
}

/// Writes these bytes at the start of a file.
fn write_bytes<D: Disk>(rt: &impl Abort, disk: &mut D, file: u32, bytes: &[u8]) {
    disk.room(file, 1, bytes.len() as u64)
        .expect(rt, "it succeeds");
    disk.write_at(file, 0, bytes).expect(rt, "it succeeds");
}

#[test]
fn no_site_on_a_new_disk(rt: HostRuntime) {
    let alloc = rt.alloc();
    let mut disk = MemDisk::new(alloc).expect(&rt, "it succeeds");
    assert!(rt;
        inspect(alloc, &mut disk)
            .expect(&rt, "it succeeds")
            .is_none()
    );
    let (_, error) = Site::load(alloc, disk).err().expect(&rt, "no site");
    assert_eq!(rt; error, SiteError::NotAFile { file: 0, offset: 0 });
}

#[test]
fn a_generation_for_each_opening(rt: HostRuntime) {
    let alloc = rt.alloc();
    let mut disk = MemDisk::new(alloc).expect(&rt, "it succeeds");
    make(alloc, &mut disk).expect(&rt, "it succeeds");
    let site = Site::load(alloc, disk).ok().expect(&rt, "a site");
    assert_eq!(rt; site.sequence_length(), 0);
    let mut disk = site.abandon();
    assert!(rt; has(&rt, &mut disk, 24, FIRST));
    let site = Site::load(alloc, disk).ok().expect(&rt, "a site");
    assert_eq!(rt; site.hardened_length(), 0);
    let mut disk = site.abandon();
    assert!(rt; has(&rt, &mut disk, 32, SECOND));
    let found = inspect(alloc, &mut disk)
        .expect(&rt, "it succeeds")
        .expect(&rt, "a site");
    assert_eq!(rt; found.name.as_slice(), b"A".as_slice());
    assert_eq!(rt; found.generation, 2);
}

/// The bytes of the second region's first journal, behind what was there.
#[test]
fn bytes_of_a_file(rt: HostRuntime) {
    let alloc = rt.alloc();
    let mut disk = MemDisk::new(alloc).expect(&rt, "it succeeds");
    make_two(alloc, &mut disk).expect(&rt, "it succeeds");
    let mut disk = opened(&rt, alloc, disk);
    let mut bytes = Bytes::new(alloc);
    read_file(&mut disk, 25, &mut bytes).expect(&rt, "it succeeds");
    assert_eq!(rt; bytes.as_slice(), FIRST_OF_SECOND.as_slice());
    read_file(&mut disk, 33, &mut bytes).expect(&rt, "it succeeds");
    assert_eq!(rt; bytes.len(), 18);
}

#[test]
fn a_journal_outside_its_format(rt: HostRuntime) {
    let alloc = rt.alloc();
    let mut disk = MemDisk::new(alloc).expect(&rt, "it succeeds");
    make(alloc, &mut disk).expect(&rt, "it succeeds");
    let mut disk = opened(&rt, alloc, disk);
    write_bytes(&rt, &mut disk, 24, b"\x01\0\x0f\xff\xff");
    let (_, error) = Site::load(alloc, disk).err().expect(&rt, "no site");
    let place = SiteError::NotAFile {
        file: 24,
        offset: 0,
    };
    assert_eq!(rt; error, place);
}

/// The site A on a disk without one, which it owns, with its first reign begun.
fn begin<D: Disk>(alloc: Global, mut disk: D) -> Result<Site<D>, SiteError>
    requires { IfSome (D.disk disk).content (λ files. records (files INSTANCE) ≡ Some []) }
    ensures ready { IfOk result (IsGoing D.disk) }
    ensures reign { IfOk result (λ s. HasReign (memory_of s)) }
{
    let name = Bytes::of(alloc, b"A")?;
    let regions = [RegionSpec {
        name: Bytes::of(alloc, b"R")?,
        before: true,
    }];
    Site::create(alloc, &mut disk, &name, &regions)?;
    let mut site = match Site::load(alloc, disk) {
        Ok(site) => site,
        Err((_, error)) => return Err(error),
    };
    site.start_reign()?;
    Ok(site)
}

/// SET ^X=1, as the first job of updater 1.
fn set(rt: &impl Abort, alloc: Global) -> Transaction
    ensures { IsTransaction (transaction_value result) }
{
    let key = Key::new(alloc, b"X", &[]).expect(rt, "it succeeds");
    let _code = key.as_encoded();
    let mut updates = Updates::new(alloc);
    let value = Bytes::of(alloc, b"1").expect(rt, "it succeeds");
    updates
        .push(Update::Set(key, value))
        .expect(rt, "it succeeds");
    let origin = Origin {
        updater: 1,
        serial: 1,
    };
    Transaction { origin, updates }
}

/// Gives a site that goes on its next entry.
fn put<D: Disk>(rt: &impl Abort, alloc: Global, site: &mut Site<D>) -> u64
    requires ready { IsGoing D.disk site.old }
    requires reign { HasReign (memory_of site.old) }
    ensures ready { IsGoing D.disk site.new }
    ensures reign { HasReign (memory_of site.new) }
{
    let t = set(rt, alloc);
    site.commit(&t).expect(rt, "it succeeds")
}

/// A site with two entries, of which one is hardened.
pub(crate) fn put_two<D: Disk>(rt: &impl Abort, alloc: Global, disk: D) -> Site<D>
    requires { IfSome (D.disk disk).content (λ files. records (files INSTANCE) ≡ Some []) }
    ensures { IsGoing D.disk result }
{
    let mut site = begin(alloc, disk).expect(rt, "it succeeds");
    put(rt, alloc, &mut site);
    site.harden().expect(rt, "it succeeds");
    put(rt, alloc, &mut site);
    site
}

/// What was committed is found again after a close, whether it was hardened before or not.
#[test]
fn closed_and_opened_again(rt: HostRuntime) {
    let alloc = rt.alloc();
    let site = put_two(&rt, alloc, MemDisk::new(alloc).expect(&rt, "it succeeds"));
    assert!(rt; site.simulated());
    assert_eq!(rt; site.sequence_length(), 2);
    assert_eq!(rt; site.hardened_length(), 1);
    assert_eq!(rt; site.history().length, 2);
    assert_eq!(rt; site.history().reigns.len(), 1);
    let (disk, closed) = site.close();
    closed.expect(&rt, "it succeeds");
    let site = Site::load(alloc, disk).ok().expect(&rt, "a site");
    assert_eq!(rt; site.sequence_length(), 2);
    assert_eq!(rt; site.abandon().faults(), 0);
}

/// How many nodes a site has once it is opened for so many entries.
fn nodes_for<D: Disk>(rt: &impl Abort, alloc: Global, disk: &mut D, target: u64) -> u32 {
    let found = find_files(alloc, disk, target).expect(rt, "it succeeds");
    assert!(rt; target <= found.entries.len());
    let standing = stand(alloc, disk, found, target).expect(rt, "it succeeds");
    standing.globals.nodes()
}

/// A closed site is found as it was, and opened for no entry, for the first one and for both.
#[test]
fn opened_for_a_target(rt: HostRuntime) {
    let alloc = rt.alloc();
    let site = put_two(&rt, alloc, MemDisk::new(alloc).expect(&rt, "it succeeds"));
    let (mut disk, closed) = site.close();
    closed.expect(&rt, "it succeeds");
    let found = find_files(alloc, &mut disk, 2).expect(&rt, "it succeeds");
    assert_eq!(rt; found.entries.len(), 2);
    assert_eq!(rt; found.read.last_began.as_slice(), [1].as_slice());
    assert!(rt; found.broken.as_slice().is_empty());
    assert_eq!(rt; nodes_for(&rt, alloc, &mut disk, 0), 0);
    assert_eq!(rt; nodes_for(&rt, alloc, &mut disk, 1), 1);
    assert_eq!(rt; nodes_for(&rt, alloc, &mut disk, 2), 1);
}

/// The lines of the second entry and those of all nodes.
fn shown<D: Disk>(rt: &impl Abort, alloc: Global, site: &mut Site<D>) -> Bytes
    requires { IsGoing D.disk site.old }
{
    let mut text = Bytes::new(alloc);
    site.extract(2, &mut text).expect(rt, "it succeeds");
    site.zwrite(None, &mut text).expect(rt, "it succeeds");
    text
}

#[test]
fn entries_and_nodes_shown(rt: HostRuntime) {
    let alloc = rt.alloc();
    let mut site = put_two(&rt, alloc, MemDisk::new(alloc).expect(&rt, "it succeeds"));
    let text = shown(&rt, alloc, &mut site);
    assert_eq!(rt;
        text.as_slice(),
        b"SET\\2\\A.1\\1.1\\^X=\"1\"\n^X=\"1\"\n".as_slice()
    );
    let key = Key::new(alloc, b"X", &[]).expect(&rt, "it succeeds");
    assert_eq!(rt; site.get(&key), Some(b"1".as_slice()));
    assert_eq!(rt; site.defined(&key), 1);
    assert!(rt; site.order(&key, b"").expect(&rt, "it succeeds").is_none());
}

/// The history that the files of a closed site have.
#[test]
fn history_on_a_disk(rt: HostRuntime) {
    let alloc = rt.alloc();
    let site = put_two(&rt, alloc, MemDisk::new(alloc).expect(&rt, "it succeeds"));
    let (mut disk, closed) = site.close();
    closed.expect(&rt, "it succeeds");
    let history = history_of(alloc, &mut disk).expect(&rt, "it succeeds");
    assert_eq!(rt; history.length, 2);
    assert_eq!(rt; history.reigns.len(), 1);
}

/// Hardens where no call of the disk succeeds any more, and closes then.
fn fail_and_close<D: Disk>(rt: &impl Abort, site: Site<D>) -> (D, u64, Option<SiteError>)
    requires ready { IsGoing D.disk site }
    requires simulated { IsTrue (D.disk (disk_of site)).simulated }
{
    let mut site = site;
    site.fuse(0);
    let fault = match site.harden() {
        Err(SiteError::Failed { fault }) => Some(fault),
        _ => None,
    };
    let fault = fault.expect(rt, "a fault");
    let (disk, closed) = site.close();
    (disk, fault, closed.err())
}

/// After a fault each call answers its number, and a crash finds what was hardened.
#[test]
fn stopped_after_a_fault(rt: HostRuntime) {
    let alloc = rt.alloc();
    let site = put_two(&rt, alloc, MemDisk::new(alloc).expect(&rt, "it succeeds"));
    assert!(rt; site.simulated());
    let (mut disk, fault, closed) = fail_and_close(&rt, site);
    assert_eq!(rt; fault, 1);
    assert_eq!(rt; closed, Some(SiteError::Stopped { fault: 1 }));
    disk.crash(0);
    let site = Site::load(alloc, disk).ok().expect(&rt, "a site");
    assert_eq!(rt; site.sequence_length(), 1);
}

/// A disk that isn't a site's comes back.
#[test]
fn a_disk_handed_back(rt: HostRuntime) {
    let alloc = rt.alloc();
    let made = MemDisk::new(alloc).expect(&rt, "it succeeds");
    let (disk, error) = Site::load(alloc, made).err().expect(&rt, "no site");
    assert_eq!(rt; error, SiteError::NotAFile { file: 0, offset: 0 });
    assert_eq!(rt; disk.faults(), 0);
}

/// A site with one entry, which is in an epoch.
fn put_and_keep<D: Disk>(rt: &impl Abort, alloc: Global, disk: D) -> Site<D>
    requires { IfSome (D.disk disk).content (λ files. records (files INSTANCE) ≡ Some []) }
    ensures ready { IsGoing D.disk result }
    ensures reign { HasReign (memory_of result) }
{
    let mut site = begin(alloc, disk).expect(rt, "it succeeds");
    put(rt, alloc, &mut site);
    site.epoch().expect(rt, "it succeeds");
    site
}

/// How long the journal of generation 1 is of a site that is given up.
fn journal_length<D: Disk>(rt: &impl Abort, site: Site<D>) -> u64 {
    let mut disk = site.abandon();
    disk.len(24).expect(rt, "it succeeds")
}

/// Behind an epoch the first entry that changes a block has its image ahead of it, and the second one has none: 4,096 bytes behind a
/// kind and a number of four bytes, a length and a gate.
#[test]
fn an_image_ahead_of_the_first_change(rt: HostRuntime) {
    let alloc = rt.alloc();
    let kept = put_and_keep(&rt, alloc, MemDisk::new(alloc).expect(&rt, "it succeeds"));
    let none = journal_length(&rt, kept);
    let mut site = put_and_keep(&rt, alloc, MemDisk::new(alloc).expect(&rt, "it succeeds"));
    put(&rt, alloc, &mut site);
    let one = journal_length(&rt, site);
    let mut site = put_and_keep(&rt, alloc, MemDisk::new(alloc).expect(&rt, "it succeeds"));
    put(&rt, alloc, &mut site);
    put(&rt, alloc, &mut site);
    let two = journal_length(&rt, site);
    let first = one.wrapping_sub(none);
    let second = two.wrapping_sub(one);
    assert_eq!(rt; first, second.wrapping_add(4106));
}

/// One entry more, with an epoch behind it.
fn put_and_mark<D: Disk>(rt: &impl Abort, alloc: Global, site: &mut Site<D>)
    requires ready { IsGoing D.disk site.old }
    requires reign { HasReign (memory_of site.old) }
    ensures ready { IsGoing D.disk site.new }
    ensures reign { HasReign (memory_of site.new) }
{
    put(rt, alloc, site);
    site.epoch().expect(rt, "it succeeds");
}

/// How many signs are kept of the journals of a region for targets from one on.
fn signs_for<D: Disk>(rt: &impl Abort, alloc: Global, disk: &mut D, lowest: u64) -> usize {
    let found = find_files(alloc, disk, lowest).expect(rt, "it succeeds");
    match found.read.signs.first() {
        Some(signs) => signs.len(),
        None => 0,
    }
}

/// Where a site is to be opened for all entries the signs before its last epoch go. For the target 0 all are kept: a PINI, and for each
/// of five entries an image or none, the entry and its epoch.
#[test]
fn signs_before_an_epoch_go(rt: HostRuntime) {
    let alloc = rt.alloc();
    let mut site = put_and_keep(&rt, alloc, MemDisk::new(alloc).expect(&rt, "it succeeds"));
    put_and_mark(&rt, alloc, &mut site);
    put_and_mark(&rt, alloc, &mut site);
    put_and_mark(&rt, alloc, &mut site);
    put_and_mark(&rt, alloc, &mut site);
    let (mut disk, closed) = site.close();
    closed.expect(&rt, "it succeeds");
    assert!(rt; signs_for(&rt, alloc, &mut disk, u64::MAX) <= 5);
    assert!(rt; signs_for(&rt, alloc, &mut disk, 0) >= 11);
    assert_eq!(rt; nodes_for(&rt, alloc, &mut disk, 5), 1);
    assert_eq!(rt; nodes_for(&rt, alloc, &mut disk, 3), 1);
}

/// Behind a rollback the signs of the entries that it dropped go as well, though their numbers are past its epoch's. What stays is the PINI
/// of each generation and the last epoch, and as many again at most.
#[test]
fn signs_of_dropped_entries_go(rt: HostRuntime) {
    let alloc = rt.alloc();
    let mut site = put_and_keep(&rt, alloc, MemDisk::new(alloc).expect(&rt, "it succeeds"));
    put_and_mark(&rt, alloc, &mut site);
    put_and_mark(&rt, alloc, &mut site);
    put_and_mark(&rt, alloc, &mut site);
    let (mut disk, closed) = site.close();
    closed.expect(&rt, "it succeeds");
    rollback(alloc, &mut disk, 1).expect(&rt, "it succeeds");
    assert!(rt; signs_for(&rt, alloc, &mut disk, u64::MAX) <= 6);
    assert_eq!(rt; nodes_for(&rt, alloc, &mut disk, 1), 1);
}
