// Sites of several regions: patterns, transactions over regions, and the files of what was broken.
use super::ran::{disks, prints, ran_on, ran_well, same};
use repl_disk::{Disk, MemDisk};
use std::alloc::Global;
use std::process::Abort;

const REFUSALS_OF_MAP_AND_TYPE: &str = "\
MAP A R X*
TYPE A BROKEN 1
CREATE A R Q
TYPE A BROKEN 1
MAP A P X*
MAP A Q X*
MAP A R X*
MAP A P X*
MAP A Q X
START A PRIMARY
MAP A P X*
TYPE A BROKEN 1
STOP A
MAP A P X*
TYPE A BROKEN 65535
--
A NOSITE
A NOSITE
A CREATED
A NOFILE
A NOREGION P
A MAPPED
A TWICEMAPPED
A NOREGION P
A MAPPED
A PRIMARY 1 FROM 1
A RUNNING
A NOFILE
A DOWN 0
A STARTED
A NOFILE
";

/// MAP and TYPE answer the first cause in its order.
#[test]
fn refusals_of_map_and_type(rt: HostRuntime) {
    prints(&rt, rt.alloc(), REFUSALS_OF_MAP_AND_TYPE);
}

const FAULTS_OF_MAP_AND_TYPE: &str = "\
CREATE A R Q
FUSE A 0
MAP A Q X*
MAP A P X*
TYPE A BROKEN 1
CRASH A 0
START A PRIMARY
FUSE A 0
TYPE A BROKEN 1
TYPE A BROKEN 1
CRASH A 0
TYPE A BROKEN 1
--
A CREATED
A FUSED 0
A DISKFAULT 1
A STOPPED 1
A STOPPED 1
A CRASHED
A PRIMARY 1 FROM 1
A FUSED 0
A DISKFAULT 2
A STOPPED 2
A CRASHED
A NOFILE
";

/// After a fault a site takes neither MAP nor TYPE until a crash.
#[test]
fn faults_of_map_and_type(rt: HostRuntime) {
    prints(&rt, rt.alloc(), FAULTS_OF_MAP_AND_TYPE);
}

/// The number of the region whose journal of generation 1 is the longest, of eight.
fn longest_journal(rt: &impl Abort, disk: &mut MemDisk) -> u32 {
    let mut longest = 0;
    let mut region = 0;
    for r in 0..8u32 {
        let length = disk.len(24 + r).expect(rt, "a length");
        if longest < length {
            longest = length;
            region = r;
        }
    }
    region
}

/// The region of that number takes the updates of a global. Of the patterns A and A* the site has both orders, AB* the last.
fn is_in(rt: &impl Abort, alloc: Global, name: &str, region: u32) {
    let script = format!(in alloc;
        "CREATE A R0 R1 R2 R3 R4\nMAP A R1 A*\nMAP A R2 A\nMAP A R3 ABC\nMAP A R4 AB*\nSTART A PRIMARY\nRUN A\n1 SET ^{name}=1\nEND\n"
    );
    let script = script.expect(rt, "memory");
    let mut disks = disks(rt, alloc);
    ran_on(rt, alloc, &mut disks, script.as_bytes());
    let disk = disks.first_mut().expect(rt, "a disk");
    assert_eq!(rt; longest_journal(rt, disk), region, "{name}");
}

/// An exact name wins over each prefix, a longer prefix over a shorter one, and the first region takes the rest.
#[test]
fn patterns_that_overlap(rt: HostRuntime) {
    is_in(&rt, rt.alloc(), "X", 0);
    is_in(&rt, rt.alloc(), "AX", 1);
    is_in(&rt, rt.alloc(), "A", 2);
    is_in(&rt, rt.alloc(), "ABC", 3);
    is_in(&rt, rt.alloc(), "AB", 4);
    is_in(&rt, rt.alloc(), "ABCD", 4);
}

/// A site, a section of one job, and the command that shows what a crash left of it.
#[derive(Drop)]
struct Row {
    /// Makes the site and begins its first reign.
    first: &'static str,
    /// What that prints.
    begun: &'static str,
    section: &'static str,
    last: &'static str,
}

/// The output of a row's section where the disk call behind so many fails, if it makes as many, with a crash of that pick behind it, a
/// start anew and what shows what is left.
fn printed(rt: &impl Abort, alloc: Global, row: &Row, calls: u32, pick: u32) -> Vec<u8> {
    let first = row.first;
    let section = row.section;
    let last = row.last;
    let script = format!(in alloc;
        "{first}FUSE A {calls}\n{section}CRASH A {pick}\nSTART A PRIMARY\n{last}\n"
    );
    let script = script.expect(rt, "memory");
    let (_, out) = ran_well(rt, alloc, script.as_bytes());
    out
}

/// What a row's section prints up to the crash where a call failed, and where none did.
fn begins(rt: &impl Abort, alloc: Global, row: &Row, calls: u32, failed: bool) -> String {
    let begun = row.begun;
    let done = if failed {
        "A DISKFAULT 1 UNDECIDED 1\n"
    } else {
        "1.1 SEQ 1\nA AT 1\n"
    };
    let text = format!(in alloc; "{begun}A FUSED {calls}\n{done}A CRASHED\n");
    text.expect(rt, "memory")
}

/// The output behind this text, if it begins with it.
fn behind(rt: &impl Abort, alloc: Global, out: &[u8], text: &str) -> Option<Vec<u8>> {
    let rest = out.strip_prefix(text.as_bytes())?;
    Some(rest.to_vec(alloc).expect(rt, "memory"))
}

/// Fails the disk call behind so many of a row's section, if it makes as many, crashes with that pick, starts anew and shows what
/// is left. It answers whether the call failed, and the output behind the crash.
fn crashed(rt: &impl Abort, alloc: Global, row: &Row, calls: u32, pick: u32) -> (bool, Vec<u8>) {
    let out = printed(rt, alloc, row, calls, pick);
    let failed = begins(rt, alloc, row, calls, true);
    if let Some(left) = behind(rt, alloc, out.as_slice(), failed.as_str()) {
        return (true, left);
    }
    let whole = begins(rt, alloc, row, calls, false);
    let left = behind(rt, alloc, out.as_slice(), whole.as_str());
    (false, left.expect(rt, "no other output"))
}

/// Fails each disk call of a row's section in turn, up to the first run without a fault: all of its transaction is left, or nothing
/// of it, and all where its number was printed.
fn whole_or_none(rt: &impl Abort, alloc: Global, row: &Row, none: &[u8], all: &[u8], pick: u32) {
    for calls in 0..1000 {
        let (failed, left) = crashed(rt, alloc, row, calls, pick);
        let left = left.as_slice();
        if !failed {
            assert_eq!(rt; left, all, "at {calls} {pick}");
            assert!(rt; 5 < calls);
            return;
        }
        assert!(rt; left == none || left == all, "at {calls} {pick}");
    }
    assert!(rt; false, "each run has a fault");
}

const TWO_REGIONS: &str = "CREATE A ACCT HIST\nMAP A HIST H*\nSTART A PRIMARY\n";

const TWO_BEGUN: &str = "A CREATED\nA MAPPED\nA PRIMARY 1 FROM 1\n";

const TWO_SETS: &str = "RUN A\n1 TSTART\n1 SET ^ACCT(1)=5\n1 SET ^HIST(1)=\"in\"\n1 TCOMMIT\nEND\n";

/// A transaction over two regions stands whole or not at all.
#[test]
fn two_regions_crash(rt: HostRuntime) {
    let alloc = rt.alloc();
    let row = Row {
        first: TWO_REGIONS,
        begun: TWO_BEGUN,
        section: TWO_SETS,
        last: "ZWRITE A",
    };
    for pick in [0, 1, 2, 4] {
        whole_or_none(
            &rt,
            alloc,
            &row,
            b"A PRIMARY 2 FROM 1\n",
            b"A PRIMARY 2 FROM 2\n^ACCT(1)=\"5\"\n^HIST(1)=\"in\"\n",
            pick,
        );
    }
}

/// What TYPE shows of the transaction that is broken, in one region or in the other.
const BROKEN_IN_ACCT: &[u8] =
    b"A PRIMARY 2 FROM 1\nGTMRBRK01\\A\\1\nSET\\1\\ACCT\\1.1\\^ACCT(1)=\"5\"\n";

const BROKEN_IN_HIST: &[u8] =
    b"A PRIMARY 2 FROM 1\nGTMRBRK01\\A\\1\nSET\\1\\HIST\\1.1\\^HIST(1)=\"in\"\n";

/// How many runs leave a part of the transaction in one region alone, of those in which each disk call of the section fails in turn.
fn broken_runs(rt: &impl Abort, alloc: Global, row: &Row, pick: u32) -> u32 {
    let mut broken = 0u32;
    for calls in 0..1000 {
        let (failed, left) = crashed(rt, alloc, row, calls, pick);
        let left = left.as_slice();
        if !failed {
            same(rt, left, b"A PRIMARY 2 FROM 2\nA NOFILE\n");
            return broken;
        }
        if left == BROKEN_IN_ACCT || left == BROKEN_IN_HIST {
            broken = broken.saturating_add(1);
        } else {
            assert!(rt;
                left == b"A PRIMARY 2 FROM 1\nA NOFILE\n".as_slice()
                    || left == b"A PRIMARY 2 FROM 2\nA NOFILE\n".as_slice(),
                "at {calls} {pick}"
            );
        }
    }
    assert!(rt; false, "each run has a fault");
    broken
}

/// A file of broken transactions has its header and the lines of one region, in at least one run where a crash keeps what was written.
#[test]
fn two_regions_crash_broken(rt: HostRuntime) {
    let alloc = rt.alloc();
    let row = Row {
        first: TWO_REGIONS,
        begun: TWO_BEGUN,
        section: TWO_SETS,
        last: "TYPE A BROKEN 2",
    };
    for pick in [0, 2, 4] {
        broken_runs(&rt, alloc, &row, pick);
    }
    assert!(rt; 0 < broken_runs(&rt, alloc, &row, 1));
}

const EIGHT_REGIONS: &str =
    "CREATE A RA RB RC RD RE RF RG RH\nMAP A RB B*\nMAP A RC C*\nMAP A RD D*\nMAP A RE E*\nMAP A RF F*\nMAP A RG G*\nMAP A RH H*\nSTART A PRIMARY\n";

const EIGHT_BEGUN: &str =
    "A CREATED\nA MAPPED\nA MAPPED\nA MAPPED\nA MAPPED\nA MAPPED\nA MAPPED\nA MAPPED\nA PRIMARY 1 FROM 1\n";

const EIGHT_SETS: &str =
    "RUN A\n1 TSTART\n1 SET ^A=1\n1 SET ^B=2\n1 SET ^C=3\n1 SET ^D=4\n1 SET ^E=5\n1 SET ^F=6\n1 SET ^G=7\n1 SET ^H=8\n1 TCOMMIT\nEND\n";

/// So does one over eight regions.
#[test]
fn eight_regions_crash(rt: HostRuntime) {
    let alloc = rt.alloc();
    let row = Row {
        first: EIGHT_REGIONS,
        begun: EIGHT_BEGUN,
        section: EIGHT_SETS,
        last: "ZWRITE A",
    };
    for pick in [0, 1, 2, 4] {
        whole_or_none(
            &rt,
            alloc,
            &row,
            b"A PRIMARY 2 FROM 1\n",
            b"A PRIMARY 2 FROM 2\n^A=\"1\"\n^B=\"2\"\n^C=\"3\"\n^D=\"4\"\n^E=\"5\"\n^F=\"6\"\n^G=\"7\"\n^H=\"8\"\n",
            pick,
        );
    }
}
