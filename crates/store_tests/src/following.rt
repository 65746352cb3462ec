//! A site that follows a primary: entries that are applied under its reigns, and as they are shipped.
ghost use Rattle.std.specs.Prelude.{◌≡◌, ◌≤◌, ◌<◌, ◌^◌, ℕ, [], Some, IfSome, IfOk, OnOk, IsTrue};
ghost use Rattle.std.specs.List.{AllByRecursion};
ghost use Rattle.disk_defs.specs.Gates.{records};
ghost use Rattle.global_defs.specs.Entry as defs;
ghost use Rattle.global_defs.specs.Fields.{IsSiteName, IsTransaction};
ghost use Rattle.gvn_model.specs.Entries.{transaction_value};
ghost use Rattle.journal_defs.specs.Numbers.{INSTANCE};
ghost use Rattle.journal_defs.specs.Surviving.{reigns};
ghost use Rattle.site_store.specs.Following.{remembered_of, IsCovered, IsReignToCome};
ghost use Rattle.site_store.specs.Site.{count_of};
ghost use Rattle.site_store.specs.Owning.{IsGoing, disk_of, memory_of};

use gvn_key::terms::Update;
use gvn_key::{Bytes, Key};
use gvn_model::{Origin, Stamp, Transaction, Updates};
use repl_disk::{Disk, MemDisk};
use site_store::{RegionSpec, Site, SiteError};
use std::alloc::Global;
use std::process::Abort;

/// SET ^X(1)="a" as number 1, as the first job of updater 1: the number, the updater, the serial, and how many updates there are; then the
/// kind, the key behind its length, and the value behind its length.
const FIRST: &[u8; 26] = b"\0\0\0\0\0\0\0\x01\x01\0\0\0\x01\0\x01\x01\x06X\0\x03A1\0\0\x01a";

/// The bytes of a REIGN of a root of one letter: a gate, a length, a kind, the root behind its length, a cycle and a start.
const REIGN: u64 = 1 + 4 + 1 + 2 + 4 + 8;

/// The line of an entry of A, and those of it and one of C behind it.
const FIRST_LINE: &[u8] = b"SET\\1\\A.1\\1.1\\^X(1)=\"a\"\n";

const LINES: &[u8] = b"SET\\1\\A.1\\1.1\\^X(1)=\"a\"\nSET\\2\\C.1\\1.2\\^X(1)=\"a\"\n";

/// Fewer entries and reigns than any test makes more of.
const MANY: u64 = 1000;

/// No call of a site needs more calls of the disk.
const MOST: u64 = 100;

/// SET ^X(1)="a", as that job of updater 1.
fn set(rt: &impl Abort, alloc: Global, serial: u32) -> Transaction
    requires { 1 ≤ serial }
    ensures { IsTransaction (transaction_value result) }
{
    let sub = Bytes::of(alloc, b"1").expect(rt, "memory");
    let key = Key::new(alloc, b"X", &[sub]).expect(rt, "a key");
    let _code = key.as_encoded();
    let value = Bytes::of(alloc, b"a").expect(rt, "memory");
    let mut updates = Updates::new(alloc);
    updates.push(Update::Set(key, value)).expect(rt, "memory");
    let origin = Origin { updater: 1, serial };
    Transaction { origin, updates }
}

/// Opens the site of a disk, which begins no reign.
fn open<D: Disk>(alloc: Global, disk: D) -> Result<Site<D>, SiteError>
    ensures ready { IfOk result (IsGoing D.disk) }
    ensures begun { IfOk result (λ s. AllByRecursion (λ (r : defs.Reign). r.start ≤ count_of (memory_of s)) (reigns (memory_of s).instance.records)) }
{
    match Site::load(alloc, disk) {
        Ok(site) => Ok(site),
        Err((_, error)) => Err(error),
    }
}

/// The new site B of one region, open.
fn new_site<D: Disk>(alloc: Global, mut disk: D) -> Result<Site<D>, SiteError>
    requires { IfSome (D.disk disk).content (λ files. records (files INSTANCE) ≡ Some []) }
    ensures ready { IfOk result (IsGoing D.disk) }
    ensures begun { IfOk result (λ s. AllByRecursion (λ (r : defs.Reign). r.start ≤ count_of (memory_of s)) (reigns (memory_of s).instance.records)) }
{
    let name = Bytes::of(alloc, b"B")?;
    let regions = [RegionSpec {
        name: Bytes::of(alloc, b"R")?,
        before: true,
    }];
    Site::create(alloc, &mut disk, &name, &regions)?;
    open(alloc, disk)
}

/// Remembers the first reign of the site of this name, which begins with the next entry.
fn adopt<D: Disk>(rt: &impl Abort, alloc: Global, site: &mut Site<D>, root: &[u8])
    requires root { IsSiteName root.now }
    requires ready { IsGoing D.disk site.old }
    requires begun { AllByRecursion (λ (r : defs.Reign). r.start ≤ count_of (memory_of site.old)) (reigns (memory_of site.old).instance.records) }
    ensures ready { IsGoing D.disk site.new }
    ensures begun { AllByRecursion (λ (r : defs.Reign). r.start ≤ count_of (memory_of site.new)) (reigns (memory_of site.new).instance.records) }
    ensures to_come { IfSome (remembered_of site.new) (IsReignToCome (memory_of site.new)) }
    ensures covered { IsCovered site.new }
    ensures disk { disk_of site.new ≡ disk_of site.old }
{
    let few = site.history().reigns.len() < MANY as usize;
    assert!(rt; few);
    let stamp = Stamp {
        root: Bytes::of(alloc, root).expect(rt, "memory"),
        cycle: 1,
    };
    let start = site.sequence_length() + 1;
    site.adopt_reign(&stamp, start).expect(rt, "memory");
}

/// Applies SET ^X(1)="a" as the next entry, as the job of updater 1 with that serial.
fn apply<D: Disk>(rt: &impl Abort, alloc: Global, site: &mut Site<D>) -> Result<(), SiteError>
    requires ready { IsGoing D.disk site.old }
    requires to_come { IfSome (remembered_of site.old) (IsReignToCome (memory_of site.old)) }
    requires covered { IsCovered site.old }
    ensures ready { OnOk result (IsGoing D.disk site.new) }
    ensures to_come { OnOk result (IfSome (remembered_of site.new) (IsReignToCome (memory_of site.new))) }
    ensures covered { OnOk result (IsCovered site.new) }
{
    let number = site.sequence_length() + 1;
    let few = number < MANY;
    assert!(rt; few);
    site.apply(number, &set(rt, alloc, number as u32))
}

/// The site B with one entry, of the first reign of A, open.
fn with_one<D: Disk>(rt: &impl Abort, alloc: Global, disk: D) -> Site<D>
    requires { IfSome (D.disk disk).content (λ files. records (files INSTANCE) ≡ Some []) }
    ensures ready { IsGoing D.disk result }
    ensures to_come { IfSome (remembered_of result) (IsReignToCome (memory_of result)) }
    ensures covered { IsCovered result }
{
    let mut site = new_site(alloc, disk).expect(rt, "a site");
    adopt(rt, alloc, &mut site, b"A");
    apply(rt, alloc, &mut site).expect(rt, "it succeeds");
    site
}

/// The lines of both entries.
fn lines<D: Disk>(rt: &impl Abort, alloc: Global, site: &mut Site<D>) -> Bytes
    requires { IsGoing D.disk site.old }
{
    let mut text = Bytes::new(alloc);
    site.extract(1, &mut text).expect(rt, "it succeeds");
    site.extract(2, &mut text).expect(rt, "it succeeds");
    text
}

/// Adds what the entries 1 and 2 are as they are shipped.
fn shipped<D: Disk>(rt: &impl Abort, site: &mut Site<D>, out: &mut Bytes)
    requires { IsGoing D.disk site.old }
{
    site.harden().expect(rt, "it succeeds");
    site.entry_bytes(1, out).expect(rt, "it succeeds");
    site.entry_bytes(2, out).expect(rt, "it succeeds");
}

/// Behind what was there; and nothing for a number past the last.
#[test]
fn a_worked_entry_shipped(rt: HostRuntime) {
    let alloc = rt.alloc();
    let mut site = with_one(&rt, alloc, MemDisk::new(alloc).expect(&rt, "memory"));
    let mut out = Bytes::of(alloc, b"^").expect(&rt, "memory");
    shipped(&rt, &mut site, &mut out);
    let bytes = out.as_slice();
    assert_eq!(rt; bytes.len(), 27);
    assert_eq!(rt; bytes.get(1..), Some(FIRST.as_slice()));
}

/// An entry has the stamp of the primary's reign.
#[test]
fn applied_and_extracted(rt: HostRuntime) {
    let alloc = rt.alloc();
    let mut site = with_one(&rt, alloc, MemDisk::new(alloc).expect(&rt, "memory"));
    apply(&rt, alloc, &mut site).expect(&rt, "it succeeds");
    assert_eq!(rt; (site.sequence_length(), site.hardened_length()), (2, 0));
    let text = lines(&rt, alloc, &mut site);
    let want = b"SET\\1\\A.1\\1.1\\^X(1)=\"a\"\nSET\\2\\A.1\\1.2\\^X(1)=\"a\"\n";
    assert_eq!(rt; text.as_slice(), want.as_slice());
}

/// How long the instance file is of a site that is given up.
fn instance_length<D: Disk>(rt: &impl Abort, site: Site<D>) -> u64 {
    let mut disk = site.abandon();
    disk.len(0).expect(rt, "it succeeds")
}

/// The new site B, which remembers the first reign of A.
fn with_none<D: Disk>(rt: &impl Abort, alloc: Global, disk: D) -> Site<D>
    requires { IfSome (D.disk disk).content (λ files. records (files INSTANCE) ≡ Some []) }
    ensures ready { IsGoing D.disk result }
{
    let mut site = new_site(alloc, disk).expect(rt, "a site");
    adopt(rt, alloc, &mut site, b"A");
    site
}

/// A reign that no entry follows leaves nothing; its first entry has its REIGN ahead of it.
#[test]
fn a_reign_right_before_its_first_entry(rt: HostRuntime) {
    let alloc = rt.alloc();
    let site = new_site(alloc, MemDisk::new(alloc).expect(&rt, "memory"));
    let none = instance_length(&rt, site.expect(&rt, "a site"));
    let site = with_none(&rt, alloc, MemDisk::new(alloc).expect(&rt, "memory"));
    assert_eq!(rt; site.history().reigns.len(), 0);
    assert_eq!(rt; instance_length(&rt, site), none);
    let site = with_one(&rt, alloc, MemDisk::new(alloc).expect(&rt, "memory"));
    assert_eq!(rt; site.history().reigns.len(), 1);
    assert_eq!(rt; instance_length(&rt, site), none.wrapping_add(REIGN));
}

/// The site B, which remembered the reigns of two sites one after the other, and then has an entry.
fn adopted_twice<D: Disk>(rt: &impl Abort, alloc: Global, disk: D) -> Site<D>
    requires { IfSome (D.disk disk).content (λ files. records (files INSTANCE) ≡ Some []) }
    ensures ready { IsGoing D.disk result }
{
    let mut site = new_site(alloc, disk).expect(rt, "a site");
    adopt(rt, alloc, &mut site, b"A");
    adopt(rt, alloc, &mut site, b"C");
    apply(rt, alloc, &mut site).expect(rt, "it succeeds");
    site
}

#[test]
fn an_earlier_reign_forgotten(rt: HostRuntime) {
    let alloc = rt.alloc();
    let mut site = adopted_twice(&rt, alloc, MemDisk::new(alloc).expect(&rt, "memory"));
    assert_eq!(rt; site.history().reigns.len(), 1);
    let text = lines(&rt, alloc, &mut site);
    let want = b"SET\\1\\C.1\\1.1\\^X(1)=\"a\"\n";
    assert_eq!(rt; text.as_slice(), want.as_slice());
}

/// The site B with an entry of A, closed and opened again, which remembers the first reign of C.
fn opened_again<D: Disk>(rt: &impl Abort, alloc: Global, disk: D) -> Site<D>
    requires { IfSome (D.disk disk).content (λ files. records (files INSTANCE) ≡ Some []) }
    ensures ready { IsGoing D.disk result }
    ensures to_come { IfSome (remembered_of result) (IsReignToCome (memory_of result)) }
    ensures covered { IsCovered result }
{
    let (disk, closed) = with_one(rt, alloc, disk).close();
    closed.expect(rt, "it succeeds");
    let mut site = open(alloc, disk).expect(rt, "a site");
    adopt(rt, alloc, &mut site, b"C");
    site
}

/// Applies the second entry and hardens it where so many calls succeed. Answers the disk, and whether it's hardened.
fn fail_after<D: Disk>(rt: &impl Abort, alloc: Global, site: Site<D>, calls: u64) -> (D, bool)
    requires ready { IsGoing D.disk site }
    requires to_come { IfSome (remembered_of site) (IsReignToCome (memory_of site)) }
    requires covered { IsCovered site }
    requires simulated { IsTrue (D.disk (disk_of site)).simulated }
{
    let mut site = site;
    site.fuse(calls);
    let done = match apply(rt, alloc, &mut site) {
        Ok(()) => site.harden().is_ok(),
        Err(_) => false,
    };
    assert!(rt; done || site.fault().is_some());
    (site.abandon(), done)
}

/// Whether the second entry is hardened where so many calls succeed. A crash that takes the image of that pick leaves the first entry alone
/// under its reign, or both, each under its own.
fn applies_after(rt: &impl Abort, alloc: Global, calls: u64, pick: u64) -> bool {
    let site = opened_again(rt, alloc, MemDisk::new(alloc).expect(rt, "memory"));
    assert!(rt; site.simulated());
    let (mut disk, done) = fail_after(rt, alloc, site, calls);
    disk.crash(pick);
    let mut site = open(alloc, disk).expect(rt, "a site");
    let many = site.sequence_length();
    assert!(rt;
        many == 2 || many == 1 && !done,
        "pick {pick}, calls {calls}"
    );
    assert_eq!(rt; site.history().reigns.len() as u64, many);
    let text = lines(rt, alloc, &mut site);
    let want = if many == 1 { FIRST_LINE } else { LINES };
    assert_eq!(rt; text.as_slice(), want);
    done
}

/// Whatever call fails and whatever image a crash takes.
#[test]
fn an_apply_at_each_call(rt: HostRuntime) {
    for pick in 0..3u64 {
        let mut done = false;
        for calls in 0..MOST {
            if !done {
                done = applies_after(&rt, rt.alloc(), calls, pick);
            }
        }
        assert!(rt; done);
    }
}
