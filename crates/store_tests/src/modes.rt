//! Modes that are set, and sites that are recovered forward.
ghost use Rattle.std.specs.Prelude.{◌≡◌, [], Some, IfSome};
ghost use Rattle.disk_defs.specs.Gates.{records};
ghost use Rattle.journal_defs.specs.Numbers.{INSTANCE};

use crate::sites::{has, make, opened, put_two};
use mupip_rollback::{RollError, recover_backward, recover_forward, set_mode};
use repl_disk::{Disk, MemDisk};
use site_store::{Site, SiteError};
use std::alloc::Global;
use std::process::Abort;

/// PINI of region 0, NOBEFORE, as the first record of generation 2, behind generation 1, and its closed gate.
const WITHOUT: &[u8; 18] = b"\x01\0\0\0\x0c\x01\x01\0\0\0\0\0\x02\0\0\0\x01\0";

/// No call needs more calls of the disk.
const MOST: u64 = 200;

/// Sets the mode of a site's first region.
fn set_first<D: Disk>(alloc: Global, disk: &mut D, before: bool) -> Result<(), RollError> {
    set_mode(alloc, disk, 0, before)
}

/// The site A with two entries, which began a generation without images and was abandoned.
fn without_images<D: Disk>(rt: &impl Abort, alloc: Global, disk: D) -> D
    requires { IfSome (D.disk disk).content (λ files. records (files INSTANCE) ≡ Some []) }
{
    let site = put_two(rt, alloc, disk);
    let (mut disk, closed) = site.close();
    closed.expect(rt, "it succeeds");
    set_first(alloc, &mut disk, false).expect(rt, "it succeeds");
    opened(rt, alloc, disk)
}

/// Such a site is opened and recovered backward no more, and once it was recovered forward it is opened again.
#[test]
fn recovered_forward(rt: HostRuntime) {
    let alloc = rt.alloc();
    let made = MemDisk::new(alloc).expect(&rt, "it succeeds");
    let disk = without_images(&rt, alloc, made);
    let (mut disk, error) = Site::load(alloc, disk).err().expect(&rt, "no site");
    assert_eq!(rt; error, SiteError::NeedForward { region: 0 });
    let recovered = recover_backward(alloc, &mut disk);
    assert_eq!(rt; recovered, Err(RollError::NeedForward { region: 0 }));
    assert_eq!(rt; recover_forward(alloc, &mut disk), Ok(2));
    let site = Site::load(alloc, disk).ok().expect(&rt, "a site");
    assert_eq!(rt; site.sequence_length(), 2);
}

/// No site on a new disk has a first region.
#[test]
fn no_mode_on_a_new_disk(rt: HostRuntime) {
    let alloc = rt.alloc();
    let mut disk = MemDisk::new(alloc).expect(&rt, "it succeeds");
    let none = RollError::NotAFile { file: 0, offset: 0 };
    assert_eq!(rt; set_first(alloc, &mut disk, true), Err(none));
}

/// Sets the mode where so many calls succeed, and a crash takes the image of that pick. The next generation has the mode that was set, or
/// the one from before. Answers whether it was set.
fn sets_after(rt: &impl Abort, alloc: Global, calls: u64, pick: u64) -> bool {
    let mut disk = MemDisk::new(alloc).expect(rt, "it succeeds");
    make(alloc, &mut disk).expect(rt, "it succeeds");
    let mut disk = opened(rt, alloc, disk);
    disk.fuse(calls);
    let done = set_first(alloc, &mut disk, false).is_ok();
    disk.crash(pick);
    let mut disk = opened(rt, alloc, disk);
    assert!(rt;
        !done || has(rt, &mut disk, 32, WITHOUT),
        "pick {pick}, calls {calls}"
    );
    done
}

/// Recovers forward where so many calls succeed, and a crash takes the image of that pick. The site has its entries, and is recovered
/// again. Answers whether it was recovered.
fn recovers_after(rt: &impl Abort, alloc: Global, calls: u64, pick: u64) -> bool {
    let made = MemDisk::new(alloc).expect(rt, "it succeeds");
    let mut disk = without_images(rt, alloc, made);
    disk.fuse(calls);
    let done = recover_forward(alloc, &mut disk).is_ok();
    disk.crash(pick);
    let mut disk = if done { opened(rt, alloc, disk) } else { disk };
    assert_eq!(rt; recover_forward(alloc, &mut disk), Ok(2));
    done
}

/// Whatever call fails and whatever image a crash takes.
#[test]
fn modes_at_each_call(rt: HostRuntime) {
    for pick in 0..3u64 {
        let mut done = false;
        for calls in 0..MOST {
            if !done {
                done = sets_after(&rt, rt.alloc(), calls, pick);
            }
        }
        assert!(rt; done);
    }
}

#[test]
fn recoveries_at_each_call(rt: HostRuntime) {
    for pick in 0..3u64 {
        let mut done = false;
        for calls in 0..MOST {
            if !done {
                done = recovers_after(&rt, rt.alloc(), calls, pick);
            }
        }
        assert!(rt; done);
    }
}
